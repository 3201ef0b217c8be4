ghost use Rattle.std.specs.Prelude.{◌≡◌};
ghost use Rattle.s38_code.specs.declared.event.Event.{Event};
ghost use Rattle.s38_process.specs.AfterReply.{is_finish};
ghost use Rattle.s38_run.specs.Turns.{outcome_by, outcome_of};

use s38_code::{Event, Reply};

/// What a turn is for those that are ready.
#[derive(Clone, Copy)]
pub enum Outcome {
    /// The process has ended.
    Finished,
    /// The process waits.
    Waits,
    /// Nothing was changed.
    Refused,
    /// An effect took place, so nobody waits any more.
    Changed,
}

fn outcome_by(reply: &Reply) -> Outcome
    ensures { result ≡ outcome_by reply.now }
{
    match reply {
        Reply::Done(_) => Outcome::Changed,
        Reply::Signal(_) => Outcome::Refused,
        Reply::MustWait => Outcome::Waits,
    }
}

/// Whether an event is the end of its process.
pub fn is_finish(event: &Event) -> bool
    ensures { result ≡ is_finish event.now }
{
    matches!(event, Event::Finish { .. })
}

/// What an event and its reply are for those that are ready; `ends` says whether the event is an end.
pub fn outcome_of(ends: bool, reply: &Reply) -> Outcome
    ensures { (event : Event) → ends ≡ is_finish event → result ≡ outcome_of event reply.now }
{
    if ends {
        Outcome::Finished
    } else {
        outcome_by(reply)
    }
}
