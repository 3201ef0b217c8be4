//! What the row of an instruction does, by its family.
ghost use Rattle.std.specs.Prelude.{◌≡◌, None, IfOk, OnOk, OnErr};
ghost use Rattle.s38_rules.specs.families.Changes.{done};
ghost use Rattle.s38_rules.specs.families.Rows.{row};

use s38_admin::{contexts, grants, profiles, resolving, spaces};
use s38_base::NoMemory;
use s38_code::{Family, Val, family_of};
use s38_commitment::journals;
use s38_cursors::cursors;
use s38_data::{indexes, queues};
use s38_invoke::{Core, Profiles};
use s38_locking::locking;
use s38_objects::Objects;
use s38_operands::{Act, computing_gives};
use s38_programs::programs;
use std::alloc::Global;

/// The value for its receiver; None where it gives none.
#[tactic(auto, unfolding(s38_rules::specs::families::Rows::row_in))]
pub fn value(
    alloc: Global,
    world: &Core<Objects, Profiles>,
    act: Act<'_>,
) -> Result<Option<Val>, NoMemory>
    ensures { IfOk result (λ value. value ≡ (row act.entry.request.now.op).gives world.now act.entry.process act.entry.depth act.entry.request.now) }
{
    match family_of(act.request.op) {
        Family::Computing => computing_gives(alloc, &world.objects, act.request),
        Family::Resolving => resolving::value(alloc, world, act),
        Family::Contexts => contexts::value(alloc, world, act),
        Family::Profiles => profiles::value(alloc, world, act),
        Family::Grants => grants::value(alloc, world, act),
        Family::Programs => programs::value(alloc, world, act),
        Family::Locks => locking::value(alloc, world, act),
        Family::Spaces => spaces::value(alloc, world, act),
        Family::Queues => queues::value(alloc, world, act),
        Family::Indexes => indexes::value(alloc, world, act),
        Family::DataSpaces => cursors::value(alloc, world, act),
        Family::Journals => journals::value(alloc, world, act),
        _ => Ok(None),
    }
}

/// What it changes, where it doesn't fail; where memory is refused nothing changes.
#[tactic(auto, using(s38_rules::proofs::Laws::resolving_still), unfolding(s38_rules::specs::families::Rows::row_in))]
pub fn apply(
    alloc: Global,
    world: &mut Core<Objects, Profiles>,
    act: Act<'_>,
) -> Result<(), NoMemory>
    requires { (row act.request.now.op).fails world.old act.process act.depth act.request.now ≡ None }
    ensures ok { OnOk result (world.new ≡ done world.old act.entry.process ((row act.entry.request.now.op).changes world.old act.entry.process act.entry.depth act.entry.request.now)) }
    ensures err { OnErr result (world.new ≡ world.old) }
{
    match family_of(act.request.op) {
        Family::Contexts => contexts::apply(alloc, world, act),
        Family::Profiles => profiles::apply(alloc, world, act),
        Family::Grants => grants::apply(alloc, world, act),
        Family::Programs => programs::apply(alloc, world, act),
        Family::Locks => locking::apply(world, act),
        Family::Spaces => spaces::apply(alloc, world, act),
        Family::Queues => queues::apply(alloc, world, act),
        Family::Indexes => indexes::apply(alloc, world, act),
        Family::DataSpaces => cursors::apply(alloc, world, act),
        Family::Journals => journals::apply(alloc, world, act),
        _ => Ok(()),
    }
}
