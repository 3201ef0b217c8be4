//! The last limit of an event that every other rule permits: whether the store has room for what must persist.
ghost use Rattle.std.specs.Prelude.{◌≡◌};
ghost use Rattle.s38_rules.specs.step.Effect.{effect_of};
ghost use Rattle.s38_rules.specs.store.Forcing.{must_persist, store_rule, with_room};
ghost use Rattle.s38_rules.specs.step.Verdict.{of_failure};
ghost use Rattle.s38_verdicts.specs.Anew.{must_persist_at, must_persist_by};
ghost use Rattle.s38_verdicts.specs.Fitting.{FitsStore};

use s38_base::Exception;
use s38_code::Event;
use s38_invoke::{Core, Profiles};
use s38_objects::Objects;
use s38_rules::Verdict;
use s38_space_map::Forcings;
use s38_space_rules::{forced, room_failure};

/// What becomes of an event, and what of it must persist: nothing where it does not take effect.
#[derive(Drop)]
pub struct Judged {
    pub verdict: Verdict,
    pub anew: Forcings,
}

/// What must persist of a permitted event; nothing without a store.
fn anew(world: &Core<Objects, Profiles>, process: u32, event: &Event) -> Forcings
    ensures { result ≡ must_persist_at world.now process event.now }
{
    match &world.room {
        None => Forcings::none(),
        Some(_) => forced(world, process, event),
    }
}

/// The exception of an event of which this must persist, where the store has no room for it; none without a store.
fn store_failure(
    world: &Core<Objects, Profiles>,
    process: u32,
    event: &Event,
    all: &Forcings,
) -> Option<Exception>
    requires fits { FitsStore world.now }
    requires anew { all.now ≡ must_persist_at world.now process event.now }
    ensures { result ≡ store_rule world.now.room (must_persist world.now process event.now) (effect_of world.now process event.now).state.held.objects }
{
    match &world.room {
        None => None,
        Some(room) => room_failure(room, world, process, event, all),
    }
}

/// What becomes of an event that every other rule permits.
fn permitted(world: &Core<Objects, Profiles>, process: u32, event: &Event) -> Judged
    requires { FitsStore world.now }
    ensures verdict { result.verdict ≡ of_failure (store_rule world.now.room (must_persist world.now process event.now) (effect_of world.now process event.now).state.held.objects) }
    ensures anew { result.anew ≡ must_persist_by world.now process event.now result.verdict }
{
    let all = anew(world, process, event);
    match store_failure(world, process, event, &all) {
        None => Judged {
            verdict: Verdict::Permit,
            anew: all,
        },
        Some(exception) => Judged {
            verdict: Verdict::Refuse(exception),
            anew: Forcings::none(),
        },
    }
}

/// What the rules make of an event, and where they permit it, whether the store has room for what must persist.
#[inline(always)]
pub fn with_room(
    world: &Core<Objects, Profiles>,
    process: u32,
    event: &Event,
    ruled: Verdict,
) -> Judged
    requires { FitsStore world.now }
    ensures verdict { result.verdict ≡ with_room world.now process event.now ruled }
    ensures anew { result.anew ≡ must_persist_by world.now process event.now result.verdict }
{
    match ruled {
        Verdict::Permit => permitted(world, process, event),
        verdict => Judged {
            verdict,
            anew: Forcings::none(),
        },
    }
}
