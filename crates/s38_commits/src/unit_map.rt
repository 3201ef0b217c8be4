ghost use Rattle.std.specs.Prelude.{◌≡◌, None, OnOk, OnErr};
ghost use Rattle.std.specs.Option.{ForSome};
ghost use Rattle.s38_commits.specs.Changes.{note_refusal};
ghost use Rattle.s38_commits.specs.Unit.{without_newest};
ghost use Rattle.s38_commits.specs.Units.{is_space_changed, unit_of, with_change, with_unit_changed};

use crate::change::UnitChange;
use crate::unit::Unit;
use s38_base::{NoMemory, ObjNum};
use std::collections::BTreeMap;

/// Notes a change in the unit of a block; an error leaves all units as they were.
pub fn note(units: &mut BTreeMap<u64, Unit>, block: u64, change: UnitChange) -> Result<(), NoMemory>
    requires { ForSome (unit_of units.old.entries block) (λ unit. note_refusal unit.changes change ≡ None) }
    ensures ok { OnOk result (units.new.entries ≡ with_change units.old.entries block change) }
    ensures err { OnErr result (units.new.entries ≡ units.old.entries) }
{
    match units.get_mut(&block) {
        Some(unit) => unit.note(change),
        None => Ok(()),
    }
}

/// Takes the newest change of the unit of a block back.
pub fn take_back(units: &mut BTreeMap<u64, Unit>, block: u64)
    ensures { units.new.entries ≡ with_unit_changed units.old.entries block without_newest }
{
    if let Some(unit) = units.get_mut(&block) {
        unit.take_back();
    }
}

/// Whether some unit has a change of an entry of a data space.
pub fn changes_space(units: &BTreeMap<u64, Unit>, space: ObjNum) -> bool
    ensures { result ≡ is_space_changed units.now.entries space.0 }
{
    for unit in units.values() {
        if unit.changes_space(space) {
            return true;
        }
    }
    false
}
