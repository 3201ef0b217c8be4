//! Units are committed and taken back by their commit blocks.
ghost use Rattle.s38_rules.specs.families.Changes.{done};
ghost use Rattle.std.specs.Prelude.{◌≡◌};
ghost use Rattle.s38_rules.specs.families.CommitBlocks.{commit_changes, decommit_changes, unit_fails, unit_needs};

use s38_base::{Category, Exception, Kind, Rights};
use s38_code::Operand;
use s38_invoke::{Core, Profiles};
use s38_objects::Objects;
use s38_operands::{Needs, on_object, target};
use s38_rules::Sought;
use s38_units::unit_rule;

/// UPDATE on the commit block.
#[tactic(auto, unfolding(s38_rules::specs::families::CommitBlocks::unit_needs))]
pub fn unit_needs() -> Needs
    ensures { result ≡ unit_needs }
{
    let block = Sought::Of(Kind::Block);
    on_object(1, block, Rights::UPDATE, Some(Category::Change))
}

/// The unit of the commit block, where it has one, is of the process.
#[tactic(auto, unfolding(s38_rules::specs::families::CommitBlocks::unit_fails))]
pub fn unit_fails(
    world: &Core<Objects, Profiles>,
    process: u32,
    operands: &[Operand],
) -> Option<Exception>
    ensures { result ≡ unit_fails world.now process operands.now }
{
    let block = target(&world.objects, operands, 1);
    unit_rule(process, world.units.get(block))
}

/// What the unit of the commit block changed stays.
pub fn commit(world: &mut Core<Objects, Profiles>, process: u32, operands: &[Operand])
    ensures { world.new ≡ done world.old process (commit_changes world.old.held operands.now) }
{
    let block = target(&world.objects, operands, 1);
    s38_units::commit(world, process, block);
}

/// What the unit of the commit block changed is taken back.
pub fn decommit(world: &mut Core<Objects, Profiles>, process: u32, operands: &[Operand])
    ensures { world.new ≡ done world.old process (decommit_changes world.old.held operands.now) }
{
    let block = target(&world.objects, operands, 1);
    s38_units::decommit(world, process, block);
}
