//! What a world keeps of users, read without a search through the objects.
ghost use Rattle.std.specs.Prelude.{◌≡◌};
ghost use Rattle.s38_rules.specs.ask.Authority.{rights_that_count, row_on};
ghost use Rattle.s38_rules.specs.families.Creation.{limit_in};
ghost use Rattle.s38_rules.specs.state.Headers.{special_in};
ghost use Rattle.s38_rules.specs.state.Held.{charge_in, object};

use crate::core_state::Core;
use s38_base::{ObjNum, Rights, Special, UserNum};
use s38_rules::{Table, UserMaps};

impl<T: Table, P: UserMaps> Core<T, P> {
    /// The special authorities of a user, none of one that is not there.
    pub fn specials(&self, user: UserNum) -> Special
        ensures { result.0 ≡ special_in (object self.now.held user.0) }
    {
        self.profiles.specials(user)
    }

    /// The rights of a user by its row on the object of a number, none of a user that is not there.
    pub fn row_on(&self, number: ObjNum, user: UserNum) -> Rights
        ensures { result.0 ≡ row_on self.now.held number.0 user.0 }
    {
        self.profiles.peek(user, number)
    }

    /// How many pages a user may own, 0 of one that is not there.
    pub fn page_limit(&self, user: UserNum) -> u32
        ensures { result ≡ limit_in (object self.now.held user.0) }
    {
        self.profiles.limit(user)
    }

    /// How many pages a user owns, 0 of one that is not there.
    pub fn charge(&self, user: UserNum) -> u64
        ensures { result ≡ rights_that_count (object self.now.held user.0) (charge_in self.now.held.objects user.0) }
    {
        self.profiles.charge(user)
    }
}
