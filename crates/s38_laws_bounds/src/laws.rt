//! What the rules see to in spaces, so that nothing is dropped silently there.
ghost use Rattle.s38_base.specs.Limits.{cell_bytes};
ghost use Rattle.s38_base.specs.Pointers.{start_of, target_of};
ghost use Rattle.s38_base.specs.declared.attr.Attr.{Attr};
ghost use Rattle.s38_base.specs.declared.pointer.Pointer.{Pointer};
ghost use Rattle.s38_code.specs.declared.event.Event.TheVariants.{Act};
ghost use Rattle.s38_code.specs.declared.event.Request.{Request};
ghost use Rattle.s38_code.specs.declared.operand.Operand.TheVariants.{InSpace};
ghost use Rattle.s38_code.specs.declared.program.Instruction.{Instruction};
ghost use Rattle.s38_code.specs.declared.program.Row.{Row};
ghost use Rattle.s38_code.specs.declared.reply.Val.TheVariants.{Bytes, Ptr};
ghost use Rattle.s38_code.specs.declared.reply.Val.{Val};
ghost use Rattle.s38_memory.specs.Cell.{IsCell};
ghost use Rattle.s38_memory.specs.declared.cell.Cell.{Cell};
ghost use Rattle.s38_odt.specs.Suited.{IsSuited};
ghost use Rattle.s38_process.specs.Lawful.{IsLawful};
ghost use Rattle.s38_process.specs.Process.{ProcessState, event_of};
ghost use Rattle.s38_requests.specs.Requests.{request_of};
ghost use Rattle.s38_rules.specs.state.Cells.{bytes_there, cells_there, pointer_there};
ghost use Rattle.s38_rules.specs.families.Changes.{Changes, done};
ghost use Rattle.s38_rules.specs.state.Held.{Held};
ghost use Rattle.s38_rules.specs.ask.Operands.{cells_put};
ghost use Rattle.s38_rules.specs.ask.Receivers.{put_value};
ghost use Rattle.s38_rules.specs.state.PartsAt.{cells_at};
ghost use Rattle.s38_rules.specs.families.Rows.{row};
ghost use Rattle.s38_rules.specs.state.State.{State};
ghost use Rattle.s38_rules.specs.step.Verdict.{ruled_verdict};
ghost use Rattle.s38_rules.specs.declared.verdict.Verdict.TheVariants.{Permit};
ghost use Rattle.s38_laws_bounds.specs.Inside.{LiesInside, has_cells};
ghost use Rattle.s38_laws_bounds.specs.Placed.{ArePlaced, IsPlaced, KeepsBytes, has_value, leaves_spaces};
ghost use Rattle.s38_laws_bounds.specs.Suited.{SuitsTable};
ghost use Rattle.std.specs.Prelude.{◌≡◌, ◌*◌, ℕ, All, IsTrue, List, Option, Some, length};

/// Each operand in a space of an instruction that the rules permit lies inside it: its base leads to a space that is
/// there, all of its bytes are bytes of that space, and a pointer begins with a cell.
pub fn operands_lie_inside()
    ensures inside { (s : State) (p : ℕ) (d : ℕ) (r : Request) → ruled_verdict s p (Act d r) ≡ Permit → All (LiesInside s.held) r.operands }
{}

/// What lies inside a space still lies there after every change but one that cuts a space or destroys an object.
pub fn changes_keep_spaces()
    ensures kept { (s : State) (p : ℕ) (x : Changes) → IsTrue (leaves_spaces x) → KeepsBytes s.held (done s p x).held }
{}

/// The value of an instruction that the rules permit, and whose operands suit the table of operations, lies inside the
/// space in which its receiver lies, after what the instruction changes: all of its bytes, or the cell that is to hold a
/// pointer. So it is put there whole.
pub fn values_lie_inside()
    ensures placed { (s : State) (p : ℕ) (d : ℕ) (r : Request) → ruled_verdict s p (Act d r) ≡ Permit → SuitsTable r → IsPlaced s p d r }
{}

/// Cells that an instruction copies, if the rules permit it and its operands suit the table of operations, lie inside the
/// space into which they go, and are as many as the operand there has.
pub fn cells_lie_inside()
    ensures placed { (s : State) (p : ℕ) (d : ℕ) (r : Request) → ruled_verdict s p (Act d r) ≡ Permit → SuitsTable r
        → ArePlaced s p ((row r.op).changes s p d r) }
{}

/// What is put into a space, and lies inside it, is what the space reads there then: bytes in whole cells, a pointer or
/// none, and cells with their tags.
pub fn values_are_read_back()
    ensures bytes { (h : Held) (n : ℕ) (at : ℕ) (bytes : List ℕ) → IsTrue (has_value h n at (Bytes bytes)) → All IsCell (cells_at h n)
        → bytes_there (cells_at (put_value h n at (Bytes bytes)) n) at (length bytes) ≡ bytes }
    ensures pointer { (h : Held) (n : ℕ) (at : ℕ) (p : Option Pointer) → IsTrue (has_value h n at (Ptr p))
        → pointer_there (cells_at (put_value h n at (Ptr p)) n) at ≡ p }
    ensures cells { (h : Held) (base : Option Pointer) (offset : ℕ) (attr : Attr) (cells : List Cell)
        → IsTrue (has_cells h (target_of base) (start_of base offset) (cell_bytes * length cells))
        → cells_there (cells_at (cells_put h (Some (InSpace base offset attr)) cells) (target_of base)) (start_of base offset) (cell_bytes * length cells) ≡ cells }
{}

/// The operands of an instruction that creation lets into a program suit the table of operations, whatever its variables
/// hold; so do those of each instruction that a lawful process asks.
pub fn checked_instructions_suit()
    ensures suited { (rows : List Row) (count : ℕ) (homes : List ℕ) (values : List Val) (i : Instruction) → IsSuited rows count i
        → SuitsTable (request_of rows homes values i) }
    ensures asked { (process : ProcessState) (d : ℕ) (r : Request) → IsLawful process → event_of process ≡ Some (Act d r) → SuitsTable r }
{}
