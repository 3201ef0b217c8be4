ghost use Rattle.std.specs.Prelude.{◌≡◌, ◌⊎◌, ◌++◌, ◌∷◌, [], ℕ, List, Option, Some, None, Result, IsErrOf, IfOk, IfSome, OnErr, is_some, true};
ghost use Rattle.std.specs.Option.{option_copied};
ghost use Rattle.s38_code.specs.Asking.{answer_by, last_reply, reply_by};
ghost use Rattle.s38_code.specs.declared.entry.Entry.{Entry};
ghost use Rattle.s38_code.specs.declared.event.Event.{Event};
ghost use Rattle.s38_code.specs.declared.reply.Reply.{Reply};
ghost use Rattle.s38_code.specs.declared.step.StepFault.{StepFault};
ghost use Rattle.s38_code.specs.History.{IsAnswered, entries_of, first_stop};

use crate::asked::Asked;
use crate::event::Event;
use crate::reply::Reply;
use thiserror::Error;

/// Why a step made no answer.
#[derive(Clone, Copy, PartialEq, Eq, Debug, Error)]
pub enum StepFault {
    /// The store failed, and the machine takes no further step.
    #[error("the machine has stopped")]
    Stopped,
    /// Memory was refused, and nothing was changed.
    #[error("no memory")]
    NoMemory,
}

/// A machine that answers events one by one and keeps their history.
pub trait Stepper {
    /// What it was started with.
    ghost Origin: { Type 0 };

    ghost origin: { Self → Origin };

    ghost history: { Self → List Entry };

    /// The first call that was answered Stopped.
    ghost stopped: { Self → Option (ℕ × Event) };

    ghost is_sound: { Self → Type 0 };

    /// Whether an answer, and the state after it, are those of one step of its own.
    ghost steps: { Self → ℕ → Event → Result Reply StepFault → Self → Type 0 };

    /// Whether a process may ask this now: a fact of the origin, the event and that process's own entries.
    ghost may_ask: { Origin → ℕ → Event → List Entry → Type 0 };

    /// Answers one event of a process. With Done and Signal the history has one entry more, with MustWait one
    /// or none, with an error none.
    fn step(&mut self, process: u32, event: &Event) -> Result<Reply, StepFault>
        requires sound { is_sound self.old }
        requires may { may_ask (origin self.old) process event.now (entries_of process (history self.old)) }
        ensures origin { origin self.new ≡ origin self.old }
        ensures sound { is_sound self.new }
        ensures steps { steps self.old process event.now result self.new }
        ensures answered { IfOk result (λ reply. IsAnswered process event.now reply (history self.old) (history self.new)) }
        ensures err { OnErr result (history self.new ≡ history self.old) }
        ensures stopped { IsErrOf result StepFault.Stopped → stopped self.new ≡ first_stop (stopped self.old) process event.now }
        ensures going { IfOk result (λ _. stopped self.new ≡ stopped self.old) }
        ensures refused { IsErrOf result StepFault.NoMemory → stopped self.new ≡ stopped self.old }
        ensures over { IfSome (stopped self.old) (λ _. IsErrOf result StepFault.Stopped) };

    /// Answers one event as `step` does, with no copy: the event is handed in, and the answer says where the reply is.
    fn ask(&mut self, process: u32, event: Event) -> Result<Asked, StepFault>
        requires sound { is_sound self.old }
        requires may { may_ask (origin self.old) process event (entries_of process (history self.old)) }
        ensures origin { origin self.new ≡ origin self.old }
        ensures sound { is_sound self.new }
        ensures replied { IfOk result (λ asked. is_some (reply_by asked (history self.new)) ≡ true) }
        ensures steps { IfSome (answer_by result (history self.new)) (λ answer. steps self.old process event answer self.new) }
        ensures answered { IfOk result (λ asked. IfSome (reply_by asked (history self.new)) (λ reply. IsAnswered process event reply (history self.old) (history self.new))) }
        ensures err { OnErr result (history self.new ≡ history self.old) }
        ensures stopped { IsErrOf result StepFault.Stopped → stopped self.new ≡ first_stop (stopped self.old) process event }
        ensures going { IfOk result (λ _. stopped self.new ≡ stopped self.old) }
        ensures refused { IsErrOf result StepFault.NoMemory → stopped self.new ≡ stopped self.old }
        ensures over { IfSome (stopped self.old) (λ _. IsErrOf result StepFault.Stopped) };

    /// The reply of the last entry of the history.
    fn last_reply(&self) -> Option<&Reply>
        ensures { option_copied result ≡ last_reply (history self.now) };
}
