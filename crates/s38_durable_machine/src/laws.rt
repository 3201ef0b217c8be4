ghost use Rattle.s38_durable_machine.specs.Laws.{DurableLaws};

use s38_durable_state::{
    room_counts_what_is_durable, what_is_durable_follows, what_is_not_forced_stays_durable,
};

/// The laws of what is durable after a step.
#[inline(always)]
pub fn durable_laws()
    ensures { DurableLaws }
{
    what_is_durable_follows();
    room_counts_what_is_durable();
    what_is_not_forced_stays_durable();
}
