//! What calls promise to programs.
ghost use Rattle.std.specs.Prelude.{◌≡◌, ℕ, slice_get, slice_set};
ghost use Rattle.s38_code.specs.declared.program.Program.{Program};
ghost use Rattle.s38_code.specs.declared.reply.Val.{Val};
ghost use Rattle.s38_process.specs.Invocations.{IsPassedFor, Stack, after_call, popped, read_at, with_call, written_at};

/// A parameter is the item that the caller passes: what is read at it is at the item, and what is written to it
/// is at the item when the program has returned, also where one item is passed twice.
#[tactic(auto, using(crate::proofs::ParameterLaws::reads_the_argument, crate::proofs::ParameterLaws::writes_the_argument))]
pub fn a_parameter_is_the_argument()
    ensures reads { (s : Stack) (program : Program) (row : ℕ) (place : ℕ) → IsPassedFor s program row place
        → read_at (with_call s program) row ≡ slice_get s.values place }
    ensures writes { (s : Stack) (program : Program) (row : ℕ) (place : ℕ) (v : Val) → IsPassedFor s program row place
        → popped (written_at (with_call s program) row v) ≡ record { values = slice_set s.values place v; top = after_call s.top; callers = s.callers } }
{}
