ghost use Rattle.std.specs.Prelude.{◌≡◌, ◌≢◌, [], None, Some, IsSome, OnOk, OnErr, is_some};
ghost use Rattle.s38_base.specs.Faults.{counted};
ghost use Rattle.s38_profiles.specs.Rows.{SetsRow, row_at, row_key, row_with, with_row};
ghost use Rattle.s38_profiles.specs.Users.{SetsUser, charge_in, charged, entered, limit_in, special_in, user_at, with_charge, with_user, without_user};
ghost use Rattle.s38_profiles.specs.ProfileMaps.{row_of};

use crate::counted::{CountedRows, Peek};
use crate::profile::{Profile, RowKey};
use crate::{rows, users};
use s38_base::{NoMemory, ObjNum, Rights, Special, UserNum};
use std::alloc::Global;
use std::collections::BTreeMap;
use std::marker::Model;

/// The private rows of users, and each user's specials, limit and charge. Contracts see it as its two maps, and how many
/// rows were visited.
#[derive(Drop)]
pub struct Profiles {
    rows: BTreeMap<RowKey, Rights>,
    users: BTreeMap<u64, Profile>,
    visits: u64,
}

impl Model for Profiles {
    ghost use Rattle.s38_profiles.specs.ProfileMaps.{ProfileMaps};

    ghost Value = { ProfileMaps };

    ghost view = { λ p. record { rows = p.rows.entries; users = p.users.entries; visits = p.visits } };
}

impl Profiles {
    /// No rows and no users, and no row was visited; it takes no memory until it grows.
    pub fn new(alloc: Global) -> Profiles
        ensures { result ≡ record { rows = []; users = []; visits = 0 } }
    {
        Profiles {
            rows: BTreeMap::new(alloc),
            users: BTreeMap::new(alloc),
            visits: 0,
        }
    }

    /// The rights of a user in the rows of an object, none of a user that is not there, in logarithmic time. The visit is
    /// counted.
    pub fn row(&mut self, user: UserNum, object: ObjNum) -> Rights
        ensures rights { result ≡ row_of self.old user.0 object.0 }
        ensures visits { self.new ≡ record self.old { visits = counted self.old.visits } }
    {
        self.visits = self.visits.saturating_add(1);
        self.peek(user, object)
    }

    /// What `row` answers, without a visit that is counted.
    pub fn peek(&self, user: UserNum, object: ObjNum) -> Rights
        ensures { result ≡ row_of self.now user.0 object.0 }
    {
        let key = RowKey {
            user: user.0,
            object: object.0,
        };
        match users::user_at(&self.users, user.0) {
            Some(_) => rows::row_at(&self.rows, key).unwrap_or(Rights(0)),
            None => Rights(0),
        }
    }

    /// Whether a user is there.
    pub fn has(&self, user: UserNum) -> bool
        ensures { result ≡ is_some (user_at self.now.users user.0) }
    {
        users::user_at(&self.users, user.0).is_some()
    }

    /// The special authorities of a user, none of one that is not there.
    pub fn specials(&self, user: UserNum) -> Special
        ensures { result ≡ special_in (user_at self.now.users user.0) }
    {
        match users::user_at(&self.users, user.0) {
            Some(profile) => profile.special,
            None => Special(0),
        }
    }

    /// How many pages a user pays for, 0 of one that is not there.
    pub fn charge(&self, user: UserNum) -> u64
        ensures { result ≡ charge_in (user_at self.now.users user.0) }
    {
        users::charge_in(users::user_at(&self.users, user.0))
    }

    /// How many pages a user may pay for, 0 of one that is not there.
    pub fn limit(&self, user: UserNum) -> u32
        ensures { result ≡ limit_in (user_at self.now.users user.0) }
    {
        match users::user_at(&self.users, user.0) {
            Some(profile) => profile.limit,
            None => 0,
        }
    }

    /// How many rows were visited; the count stays at its last value.
    pub fn visits(&self) -> u64
        ensures { result ≡ self.now.visits }
    {
        self.visits
    }

    /// Sets the rights of a user in the rows of an object; a row without rights is taken out. Memory can be refused
    /// only where a row is added, and nothing changed then.
    pub fn set_row(&mut self, user: UserNum, object: ObjNum, rights: Rights) -> Result<(), NoMemory>
        ensures ok { OnOk result (self.new ≡ record self.old { rows = with_row self.old.rows (row_key user.0 object.0) rights }) }
        ensures others { OnOk result (SetsRow self.old.rows (row_key user.0 object.0) (row_with rights) self.new.rows) }
        ensures added { OnErr result ((row_at self.old.rows (row_key user.0 object.0) ≡ None) × (rights.0 ≢ 0)) }
        ensures err { OnErr result (self.new ≡ self.old) }
    {
        let key = RowKey {
            user: user.0,
            object: object.0,
        };
        rows::set(&mut self.rows, key, rights)
    }

    /// Adds a user, who pays for nothing, or sets the specials and the limit of one that is there. Memory can be
    /// refused only where a user is added, and nothing changed then.
    pub fn enter(&mut self, user: UserNum, special: Special, limit: u32) -> Result<(), NoMemory>
        ensures ok { OnOk result (self.new ≡ record self.old { users = with_user self.old.users user.0 special limit }) }
        ensures others { OnOk result (SetsUser self.old.users user.0 (Some (entered special limit (user_at self.old.users user.0))) self.new.users) }
        ensures added { OnErr result (user_at self.old.users user.0 ≡ None) }
        ensures err { OnErr result (self.new ≡ self.old) }
    {
        users::enter(&mut self.users, user.0, special, limit)
    }

    /// Sets how many pages a user pays for.
    pub fn set_charge(&mut self, user: UserNum, pages: u64)
        requires { IsSome (user_at self.old.users user.0) }
        ensures charge { self.new ≡ record self.old { users = with_charge self.old.users user.0 pages } }
        ensures others { SetsUser self.old.users user.0 (Some (charged pages (user_at self.old.users user.0))) self.new.users }
    {
        users::set_charge(&mut self.users, user.0, pages);
    }

    /// Takes a user out. Its rows stay, and count no more.
    pub fn leave(&mut self, user: UserNum)
        requires { IsSome (user_at self.old.users user.0) }
        ensures rest { self.new ≡ record self.old { users = without_user self.old.users user.0 } }
        ensures others { SetsUser self.old.users user.0 None self.new.users }
    {
        users::leave(&mut self.users, user.0);
    }
}

impl CountedRows for Profiles {
    ghost use Rattle.s38_profiles.specs.ProfileMaps.{ProfileMaps};

    ghost maps = { λ p. p };

    fn row(&mut self, user: UserNum, object: ObjNum) -> Rights {
        Profiles::row(self, user, object)
    }

    fn specials(&self, user: UserNum) -> Special {
        Profiles::specials(self, user)
    }

    fn visits(&self) -> u64 {
        Profiles::visits(self)
    }
}

impl Peek for Profiles {
    fn peek(&self, user: UserNum, object: ObjNum) -> Rights {
        Profiles::peek(self, user, object)
    }
}
