ghost use Rattle.std.specs.Prelude.{◌≡◌, ◌<◌, ◌^◌, [], None, IfErr, IfSome, IsSome, OnOk, OnErr, length};
ghost use Rattle.std.specs.Map.{keys_of};
ghost use Rattle.std.specs.Option.{ForSome, option_copied, option_map, unwrap_or};
ghost use Rattle.s38_commits.specs.Changes.{note_refusal};
ghost use Rattle.s38_commits.specs.Units.{AreDisjoint, BlocksRise, ended, holder, is_space_changed, join_refusal, next_block, refusal_in, unit_block, unit_of, with_change, with_change_joined, with_empty_unit};

use crate::change::UnitChange;
use crate::fault::UnitFault;
use crate::place::{Place, leave, place_of};
use crate::unit::Unit;
use crate::unit_map;
use s38_base::{NoMemory, ObjNum, TryClone};
use std::alloc::Global;
use std::collections::BTreeMap;
use std::collections::btree_map::Keys;
use std::marker::Model;
use std::ops::Bound;

/// The units that are begun, by their commit blocks. No entry is changed in two of them. Contracts see them as the
/// commit blocks that have a unit, in rising order of number, each with its unit.
#[derive(Drop)]
pub struct Units {
    alloc: Global,
    units: BTreeMap<u64, Unit>,
    places: BTreeMap<Place, u64>,
}

impl Model for Units {
    ghost use Rattle.s38_commits.specs.Places.{AreEntered};
    ghost use Rattle.s38_commits.specs.Units.{UnitMap};

    ghost Value = { UnitMap };

    ghost view = { λ u. u.units.entries };

    ghost invariant = { λ u. AreEntered u.units.entries u.places };
}

impl Units {
    /// No units; they take no memory until there are some.
    pub fn new(alloc: Global) -> Units
        ensures { result ≡ [] }
    {
        Units {
            alloc,
            units: BTreeMap::new(alloc),
            places: BTreeMap::new(alloc),
        }
    }

    /// The unit of a commit block, in logarithmic time; None exactly where it has none.
    pub fn get(&self, block: ObjNum) -> Option<&Unit>
        ensures unit { option_copied result ≡ unit_of self.now block.0 }
        ensures apart { AreDisjoint self.now }
        ensures rising { BlocksRise self.now }
    {
        self.units.get(&block.0)
    }

    /// Begins the unit of a commit block that has none; an error leaves the units as they were.
    pub fn begin(&mut self, block: ObjNum, process: u32, number: u64) -> Result<(), NoMemory>
        requires { unit_of self.old block.0 ≡ None }
        ensures ok { OnOk result (self.new ≡ with_empty_unit self.old block.0 process number) }
        ensures err { OnErr result (self.new ≡ self.old) }
    {
        let unit = Unit::new(self.alloc, process, number);
        match self.units.insert(block.0, unit) {
            Ok(_) => Ok(()),
            Err(_) => Err(NoMemory),
        }
    }

    /// Whether a change may be noted in the unit of a commit block: what `note` answers, want of memory aside.
    pub fn can_note(&self, block: ObjNum, change: &UnitChange) -> Result<(), UnitFault>
        requires { IsSome (unit_of self.now block.0) }
        ensures ok { OnOk result (refusal_in self.now block.0 change.now ≡ None) }
        ensures fault { IfErr result (λ fault. refusal_in self.now block.0 change.now ≡ Some fault) }
    {
        match self.units.get(&block.0) {
            Some(unit) => unit.can_note(change),
            None => Ok(()),
        }
    }

    /// Notes a change after the others of a commit block's unit. No other unit may have a change of that entry.
    /// `Full` exactly where the unit's changes would take more than 1,048,576 bytes of a journal; an error leaves
    /// the units as they were.
    pub fn note(&mut self, block: ObjNum, change: &UnitChange) -> Result<(), UnitFault>
        requires begun { IsSome (unit_of self.old block.0) }
        requires free { ForSome (unit_block self.old change.now.space.0 change.now.at) (λ other. other ≡ block.0) }
        ensures accepted { OnOk result (refusal_in self.old block.0 change.now ≡ None) }
        ensures ok { OnOk result (self.new ≡ with_change self.old block.0 change.now) }
        ensures fault { IfErr result (λ fault. fault ≡ unwrap_or (refusal_in self.old block.0 change.now) UnitFault.NoMemory) }
        ensures err { OnErr result (self.new ≡ self.old) }
    {
        self.can_note(block, change)?;
        let Ok(noted) = change.try_clone(self.alloc) else {
            return Err(UnitFault::NoMemory);
        };
        match unit_map::note(&mut self.units, block.0, noted) {
            Ok(()) => {}
            Err(_) => return Err(UnitFault::NoMemory),
        }
        match self
            .places
            .insert(place_of(change.space, change.at), block.0)
        {
            Ok(_) => Ok(()),
            Err(_) => {
                unit_map::take_back(&mut self.units, block.0);
                Err(UnitFault::NoMemory)
            }
        }
    }

    /// Whether a change may join the unit of a commit block, which is begun where the block has none: what `join`
    /// answers, want of memory aside.
    pub fn can_join(&self, block: ObjNum, change: &UnitChange) -> Result<(), UnitFault>
        ensures ok { OnOk result (join_refusal self.now block.0 change.now ≡ None) }
        ensures fault { IfErr result (λ fault. join_refusal self.now block.0 change.now ≡ Some fault) }
    {
        match self.units.get(&block.0) {
            Some(unit) => unit.can_note(change),
            None => Unit::new(self.alloc, 0, 0).can_note(change),
        }
    }

    /// Notes a change in a unit that is begun for it; an error leaves the units as they were.
    fn begin_with(
        &mut self,
        block: ObjNum,
        process: u32,
        number: u64,
        change: &UnitChange,
    ) -> Result<(), UnitFault>
        requires free { ForSome (unit_block self.old change.now.space.0 change.now.at) (λ other. other ≡ block.0) }
        requires new { unit_of self.old block.0 ≡ None }
        requires fits { note_refusal [] change.now ≡ None }
        ensures ok { OnOk result (self.new ≡ with_change (with_empty_unit self.old block.0 process number) block.0 change.now) }
        ensures fault { IfErr result (λ fault. fault ≡ UnitFault.NoMemory) }
        ensures err { OnErr result (self.new ≡ self.old) }
    {
        match self.begin(block, process, number) {
            Ok(()) => {}
            Err(_) => return Err(UnitFault::NoMemory),
        }
        match self.note(block, change) {
            Ok(()) => Ok(()),
            Err(fault) => {
                self.end(block);
                Err(fault)
            }
        }
    }

    /// Notes a change after the others of a commit block's unit, which is begun for the process and under the number
    /// where the block has none. No other unit may have a change of that entry. `Full` exactly where the unit's changes
    /// would take more than 1,048,576 bytes of a journal; an error leaves the units as they were.
    pub fn join(
        &mut self,
        block: ObjNum,
        process: u32,
        number: u64,
        change: &UnitChange,
    ) -> Result<(), UnitFault>
        requires { ForSome (unit_block self.old change.now.space.0 change.now.at) (λ other. other ≡ block.0) }
        ensures accepted { OnOk result (join_refusal self.old block.0 change.now ≡ None) }
        ensures ok { OnOk result (self.new ≡ with_change_joined self.old block.0 process number change.now) }
        ensures fault { IfErr result (λ fault. fault ≡ unwrap_or (join_refusal self.old block.0 change.now) UnitFault.NoMemory) }
        ensures err { OnErr result (self.new ≡ self.old) }
    {
        self.can_join(block, change)?;
        match self.get(block) {
            Some(_) => self.note(block, change),
            None => self.begin_with(block, process, number, change),
        }
    }

    /// Takes the unit of a commit block out and gives it back, without memory; None exactly where it has none.
    pub fn end(&mut self, block: ObjNum) -> Option<Unit>
        ensures unit { result ≡ unit_of self.old block.0 }
        ensures rest { self.new ≡ ended self.old block.0 }
    {
        let unit = self.units.remove(&block.0)?;
        leave(&mut self.places, unit.changes());
        Some(unit)
    }

    /// The commit block whose unit has a change of an entry, in logarithmic time.
    pub fn block_of(&self, space: ObjNum, at: u32) -> Option<ObjNum>
        ensures { option_map (λ block. block.0) result ≡ unit_block self.now space.0 at }
    {
        match self.places.get(&place_of(space, at)) {
            Some(block) => Some(ObjNum(*block)),
            None => None,
        }
    }

    /// The process whose unit has a change of an entry, in logarithmic time.
    pub fn holder(&self, space: ObjNum, at: u32) -> Option<u32>
        ensures { result ≡ holder self.now space.0 at }
    {
        let block = self.places.get(&place_of(space, at))?;
        let unit = self.units.get(block)?;
        Some(unit.process())
    }

    /// Whether some unit has a change of an entry of a data space. It looks at each change of each unit.
    pub fn changes_space(&self, space: ObjNum) -> bool
        ensures { result ≡ is_space_changed self.now space.0 }
    {
        unit_map::changes_space(&self.units, space)
    }

    /// The least commit block above a number that has a unit, in logarithmic time.
    pub fn next_block(&self, after: ObjNum) -> Option<ObjNum>
        ensures next { option_map (λ block. block.0) result ≡ next_block self.now after.0 }
        ensures rising { BlocksRise self.now }
    {
        let above = (Bound::Excluded(after.0), Bound::Unbounded);
        match self.units.range(above).next() {
            Some((block, _)) => Some(ObjNum(*block)),
            None => None,
        }
    }

    /// The commit blocks that have a unit, in rising order.
    pub fn blocks(&self) -> Keys<'_, u64, Unit>
        ensures blocks { result ≡ keys_of self.now }
        ensures few { length (keys_of self.now) < 2 ^ 63 }
    {
        let _len = self.units.len();
        self.units.keys()
    }
}
