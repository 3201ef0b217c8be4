ghost use Rattle.std.specs.Prelude.{◌≡◌, ◌≤◌, [], None, IfOk};
ghost use Rattle.s38_base.specs.Limits.{furthest};
ghost use Rattle.s38_rules.specs.state.Kept.{CanBeKept};

use s38_base::NoMemory;
use s38_code::Checked;
use s38_commits::Units;
use s38_locks::LockTable;
use s38_profiles::{CountedRows, Profiles};
use s38_rules::{ProcessEntry, Table, TableRows};
use s38_space_map::Room;
use std::alloc::Global;
use std::marker::Model;

/// The objects, what is kept of users beside them, the deck's templates, the processes, their locks and their units of
/// changes. Contracts see it as the machine's state, which says of users what the objects say.
#[derive(Drop)]
pub struct Core<T: Table, P: CountedRows> {
    pub objects: T,
    /// What the objects say of users, in maps.
    pub profiles: P,
    /// The greatest image of an object's body, in bytes.
    pub limit: u32,
    pub templates: Checked,
    pub processes: Vec<ProcessEntry>,
    pub waiting: Vec<u32>,
    pub locks: LockTable,
    /// The units of changes that are not committed.
    pub units: Units,
    /// What the store has room for; none without a store.
    pub room: Option<Room>,
}

impl<T: Table, P: CountedRows> Model for Core<T, P> {
    ghost use Rattle.std.specs.Prelude.{◌≤◌};
    ghost use Rattle.s38_base.specs.Limits.{furthest};
    ghost use Rattle.s38_space_map.specs.Keeping.{room_in};
    ghost use Rattle.s38_rules.specs.state.Kept.{Mirrors};
    ghost use Rattle.s38_rules.specs.state.State.{State};

    ghost Value = { State };

    ghost view = { λ w. record {
      held = T.held w.objects;
      limit = w.limit;
      templates = w.templates;
      processes = w.processes.items;
      waiting = w.waiting.items;
      locks = w.locks;
      units = w.units;
      room = room_in w.room;
    } };

    ghost invariant = { λ w. (w.limit ≤ furthest) × Mirrors (P.maps w.profiles) (T.held w.objects) };
}

impl<T: TableRows + Drop> Core<T, Profiles> {
    /// The core of these objects without a store, where nobody waits, no object is locked and no unit is begun. `NoMemory` where memory was refused.
    pub fn new(
        alloc: Global,
        objects: T,
        limit: u32,
        templates: Checked,
        processes: Vec<ProcessEntry>,
    ) -> Result<Core<T, Profiles>, NoMemory>
        requires limit { limit ≤ furthest }
        requires kept { CanBeKept (T.held objects) }
        ensures { IfOk result (λ core. core ≡ record { held = T.held objects; limit = limit; templates = templates; processes = processes.items; waiting = []; locks = []; units = []; room = None }) }
    {
        let profiles = objects.profiles(alloc)?;
        Ok(Core {
            objects,
            profiles,
            limit,
            templates,
            processes,
            waiting: Vec::new(alloc),
            locks: LockTable::new(alloc),
            units: Units::new(alloc),
            room: None,
        })
    }
}
