//! What every history promises to processes.
ghost use Rattle.s38_code.specs.declared.entry.Entry.{Entry};
ghost use Rattle.s38_laws_processes.specs.owners.Beginnings.{AreAsked, Begin};
ghost use Rattle.s38_process.specs.Process.{ProcessState};
ghost use Rattle.s38_laws_processes.specs.replies.Replies.{AllSuit};
ghost use Rattle.s38_rules.specs.step.Legal.{Leads};
ghost use Rattle.s38_rules.specs.state.State.{State};
ghost use Rattle.std.specs.Prelude.{List, []};

/// Each reply of the machine suits what its process asked: a value that comes is such as the variable holds that gets it,
/// and a call that takes effect brings a program, whose parameters are as the arguments. So each process is lawful at each
/// moment of a history.
pub fn replies_suit()
    ensures histories { (processes : List ProcessState) (first : State) (history : List Entry) (end : State) → Begin processes first → Leads first [] history end
        → AreAsked processes history → AllSuit processes [] history }
{}
