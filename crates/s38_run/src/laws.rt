ghost use Rattle.std.specs.Prelude.{◌≡◌, [], ℕ, List, Option, length};
ghost use Rattle.s38_machine.specs.Stored.{stored_state_of};
ghost use Rattle.s38_code.specs.declared.deck.Job.{Job};
ghost use Rattle.s38_code.specs.declared.made.CreateResult.{CreateResult};
ghost use Rattle.s38_rules.specs.step.Legal.{Run};
ghost use Rattle.s38_code.specs.declared.entry.Entry.{Entry};
ghost use Rattle.s38_code.specs.declared.event.Event.{Event};
ghost use Rattle.s38_code.specs.declared.made.CheckedTemplate.{CheckedTemplate};
ghost use Rattle.s38_rules.specs.state.Held.{Held};
ghost use Rattle.s38_rules.specs.step.Legal.{Leads};
ghost use Rattle.s38_rules.specs.store.Room.{Room};
ghost use Rattle.s38_rules.specs.state.State.{State};
ghost use Rattle.s38_rules.specs.step.Step.{step};
ghost use Rattle.s38_run.specs.Pickers.{picks_of};
ghost use Rattle.s38_run.specs.Progress.{AllAskAgain, AreAwake, IsGoing};
ghost use Rattle.s38_run.specs.Whole.{AllByProgram, WasRun};
ghost use Rattle.s38_rules.specs.step.Histories.{Throughout};

use crate::picker::Picker;

/// A history is a function of the machine, the jobs and the picks: two machines that began alike, and ran the same jobs
/// by a picker that was handed in alike, have the same history.
pub fn the_picks_decide<P: Picker>(picker: &P)
    ensures { (made : List CreateResult) (jobs : List Job) (m n : Run) → length made ≡ length jobs → length m.origin.processes ≡ length jobs → n.origin ≡ m.origin
        → WasRun made jobs (λ k. picks_of P.answer P.after k picker.now) m → WasRun made jobs (λ k. picks_of P.answer P.after k picker.now) n → m.history ≡ n.history }
{
    let _ = picker;
}

/// Nobody is left alone with those that wait: where no process is ready, each has ended. It is so at the beginning, after
/// each step, and so in every state of a history.
pub fn one_is_always_ready()
    ensures begins { (room : Option Room) (held : Held) (templates : List CheckedTemplate) (jobs : List Job) → IsGoing (stored_state_of room held templates jobs) }
    ensures steps { (s : State) (p : ℕ) (e : Event) → IsGoing s → IsGoing (step s p e).state }
    ensures histories { (s : State) (history : List Entry) → IsGoing s → Throughout IsGoing s history }
{}

/// Who waits is silent: a process that was told to wait has no further entry before the next effect, so it waits at most
/// once between two effects.
pub fn who_waits_is_silent()
    ensures { (s : State) (before history : List Entry) (end : State) → Leads s before history end → AreAwake s.waiting history }
{}

/// Who waits asks for the same again: the next entry of a process that was told to wait is of the event that it asked for.
pub fn who_waits_asks_again()
    ensures { (made : List CreateResult) (jobs : List Job) (s : State) (history : List Entry) (end : State) → length made ≡ length jobs → length s.processes ≡ length jobs → Leads s [] history end
        → AllByProgram made jobs history → AllAskAgain history }
{}
