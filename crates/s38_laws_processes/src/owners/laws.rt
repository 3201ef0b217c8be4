//! What every history promises of those who act.
ghost use Rattle.s38_code.specs.declared.deck.Job.{Job};
ghost use Rattle.s38_code.specs.declared.entry.Entry.{Entry};
ghost use Rattle.s38_code.specs.declared.made.CheckedTemplate.{CheckedTemplate};
ghost use Rattle.s38_code.specs.declared.program.Program.{Program};
ghost use Rattle.s38_create.specs.Checked.{made_of};
ghost use Rattle.s38_create.specs.Created.{program_created};
ghost use Rattle.s38_odt.specs.Suited.{AreSuited};
ghost use Rattle.s38_laws_processes.specs.owners.Owners.{AllOwnersAgree};
ghost use Rattle.s38_process.specs.Process.{ProcessState};
ghost use Rattle.s38_laws_processes.specs.owners.Beginnings.{AreAsked, AreChecked, Begin, IsChecked, IsFresh, IsSoundStart, state_over};
ghost use Rattle.s38_rules.specs.store.Room.{Room};
ghost use Rattle.s38_rules.specs.state.Held.{Held};
ghost use Rattle.s38_rules.specs.step.Legal.{Leads};
ghost use Rattle.s38_rules.specs.state.State.{State};
ghost use Rattle.std.specs.Prelude.{◌≡◌, ℕ, List, [], Ok, Some, slice_get, Option};

/// The owners that act in a process are those of the programs in which it is: at each moment of a history the frames that
/// count are as many as its invocations, the oldest first, and each is 0 or the number of the object whose program the
/// invocation runs. Each instruction is asked at the depth of its process, so exactly these frames count for it.
pub fn the_right_owner_acts()
    ensures begins { (room : Option Room) (held : Held) (templates : List CheckedTemplate) (jobs : List Job) (processes : List ProcessState) → IsSoundStart held → AreChecked templates
        → ((k : ℕ) (d : ProcessState) → slice_get processes k ≡ Some d → IsFresh d) → Begin processes (state_over room held templates jobs) }
    ensures histories { (processes : List ProcessState) (first : State) (history : List Entry) (end : State) → Begin processes first → Leads first [] history end
        → AreAsked processes history → AllOwnersAgree processes first [] history }
{}

/// What creation makes of a template is checked: the instructions of a program suit its declarations, and a template that
/// was refused has none.
pub fn what_is_created_is_checked()
    ensures templates { (lines : List (List ℕ)) → IsChecked (made_of lines) }
    ensures programs { (lines : List (List ℕ)) (program : Program) → program_created lines ≡ Ok program → AreSuited program.rows program.code }
{}
