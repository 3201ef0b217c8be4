//! What the row of an instruction asks, by its family.
ghost use Rattle.std.specs.Prelude.{◌≡◌};
ghost use Rattle.s38_rules.specs.families.Rows.{row};

use s38_admin::{contexts, grants, profiles, resolving, spaces};
use s38_base::{Exception, Special};
use s38_code::{Family, family_of};
use s38_commitment::journals;
use s38_cursors::cursors;
use s38_data::{indexes, queues};
use s38_invoke::{Core, Profiles};
use s38_locking::locking;
use s38_objects::Objects;
use s38_operands::{Act, Needs, computing_fails, computing_needs};
use s38_programs::programs;

/// What an instruction needs of its operands, in their order.
#[inline(never)]
#[tactic(auto, unfolding(s38_rules::specs::families::Rows::row_in))]
pub fn needs(world: &Core<Objects, Profiles>, act: Act<'_>) -> Needs
    ensures { result ≡ (row act.entry.request.now.op).needs world.now act.entry.process act.entry.depth act.entry.request.now }
{
    match family_of(act.request.op) {
        Family::Computing => computing_needs(act.request.op),
        Family::Resolving => resolving::needs(world, act),
        Family::Contexts => contexts::needs(world, act),
        Family::Profiles => profiles::needs(act),
        Family::Grants => grants::needs(act),
        Family::Programs => programs::needs(act),
        Family::Locks => locking::needs(act),
        Family::Spaces => spaces::needs(act),
        Family::Queues => queues::needs(act),
        Family::Indexes => indexes::needs(act),
        Family::DataSpaces => cursors::needs(world, act),
        Family::Journals => journals::needs(act),
        _ => Needs::none(),
    }
}

/// The special authority that an acting user must have.
#[tactic(auto, using(s38_rules::proofs::Laws::unspecial_contexts, s38_rules::proofs::Laws::unspecial_data_spaces, s38_rules::proofs::Laws::unspecial_indexes, s38_rules::proofs::Laws::unspecial_journals, s38_rules::proofs::Laws::unspecial_locks, s38_rules::proofs::Laws::unspecial_programs, s38_rules::proofs::Laws::unspecial_queues, s38_rules::proofs::Laws::unspecial_resolving, s38_rules::proofs::Laws::unspecial_spaces), unfolding(s38_rules::specs::families::Rows::row_in))]
pub fn special(world: &Core<Objects, Profiles>, act: Act<'_>) -> Special
    ensures { result.0 ≡ (row act.entry.request.now.op).special world.now act.entry.process act.entry.depth act.entry.request.now }
{
    match family_of(act.request.op) {
        Family::Profiles => profiles::special(act),
        Family::Grants => grants::special(world, act),
        _ => Special(0),
    }
}

/// The first of its conditions and limits that fails.
#[tactic(auto, unfolding(s38_rules::specs::families::Rows::row_in))]
pub fn conditions(world: &Core<Objects, Profiles>, act: Act<'_>) -> Option<Exception>
    ensures { result ≡ (row act.entry.request.now.op).fails world.now act.entry.process act.entry.depth act.entry.request.now }
{
    match family_of(act.request.op) {
        Family::Computing => computing_fails(&world.objects, act.request),
        Family::Resolving => resolving::conditions(world, act),
        Family::Contexts => contexts::conditions(world, act),
        Family::Profiles => profiles::conditions(world, act),
        Family::Grants => grants::conditions(world, act),
        Family::Programs => programs::conditions(world, act),
        Family::Locks => locking::conditions(world, act),
        Family::Spaces => spaces::conditions(world, act),
        Family::Queues => queues::conditions(world, act),
        Family::Indexes => indexes::conditions(world, act),
        Family::DataSpaces => cursors::conditions(world, act),
        Family::Journals => journals::conditions(world, act),
        _ => None,
    }
}
