//! The end of a process, whose units are taken back.
ghost use Rattle.std.specs.Prelude.{◌≡◌};
ghost use Rattle.std.specs.Option.{option_copied};
ghost use Rattle.s38_commits.specs.Units.{BlocksRise};
ghost use Rattle.s38_rules.specs.step.Effect.{end_at};
ghost use Rattle.s38_rules.specs.state.State.{process_entry};
ghost use Rattle.s38_rules.specs.families.Units.{all_decommitted};
ghost use Rattle.s38_units.specs.Ends.{is_unit_of, taken_back};

use crate::units::decommit;
use s38_base::ObjNum;
use s38_commits::Unit;
use s38_invoke::{Core, Profiles};
use s38_objects::Objects;

fn is_unit_of(process: u32, unit: Option<&Unit>) -> bool
    ensures { result ≡ is_unit_of process (option_copied unit.entry) }
{
    match unit {
        Some(unit) => unit.process() == process,
        None => false,
    }
}

/// The unit of a commit block is taken back where it is of the process.
fn take_back(world: &mut Core<Objects, Profiles>, process: u32, block: ObjNum)
    ensures taken { world.new ≡ taken_back world.old process block.0 }
    ensures rising { BlocksRise world.old.units }
{
    if is_unit_of(process, world.units.get(block)) {
        decommit(world, process, block);
    }
}

/// The units of a process are taken back, in order of the numbers of their commit blocks.
#[tactic(auto, using(crate::proofs::UnitLaws::taken_first, crate::proofs::UnitLaws::taken_last, crate::proofs::UnitLaws::taken_next))]
fn take_all_back(world: &mut Core<Objects, Profiles>, process: u32)
    ensures { world.new ≡ all_decommitted world.old process world.old.units }
{
    let mut block = ObjNum(0);
    take_back(world, process, block);
    while let Some(next) = world.units.next_block(block) {
        block = next;
        take_back(world, process, block);
    }
}

/// A process has ended: its units were taken back, in order of the numbers of their commit blocks, and it holds no
/// lock any more.
#[tactic(auto, using(crate::proofs::UnitLaws::processes_stay))]
pub fn end(world: &mut Core<Objects, Profiles>, process: u32)
    ensures { world.new ≡ end_at world.old process (process_entry world.old process) }
{
    if world.process_entry(process).is_some() {
        take_all_back(world, process);
        s38_invoke::end(world, process);
    }
}
