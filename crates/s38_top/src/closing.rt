//! The laws of the checkpoint at the end of a run over a store, and of what a crash leaves of it.
ghost use Rattle.s38_top.specs.Closing.{ClosingLaws, RestartLaws};

use s38_laws_checkpoint::each_object_is_closed_by_one_put;
use s38_laws_flush::{what_is_durable_is_kept, what_is_kept_of_journal_spaces_is_their_beginning};
use s38_laws_recovery::{
    a_crash_leaves_what_restarts, what_a_run_leaves_restarts, what_is_durable_can_restart,
};

/// What is durable at the end of a run goes with its state, and in the checkpoint each object needs one put at most.
pub fn closing_laws()
    ensures { ClosingLaws }
{
    what_is_durable_is_kept();
    what_is_kept_of_journal_spaces_is_their_beginning();
    each_object_is_closed_by_one_put();
}

/// What a crash leaves of a run, and of its checkpoint, restarts, and no number that was given is given again.
pub fn restart_laws()
    ensures { RestartLaws }
{
    what_is_durable_can_restart();
    a_crash_leaves_what_restarts();
    what_a_run_leaves_restarts();
}
