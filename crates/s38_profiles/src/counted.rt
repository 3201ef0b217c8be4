//! What is kept of users, where each look at a row is counted.
ghost use Rattle.std.specs.Prelude.{◌≡◌};
ghost use Rattle.s38_base.specs.Faults.{counted};
ghost use Rattle.s38_profiles.specs.ProfileMaps.{ProfileMaps, row_of};
ghost use Rattle.s38_profiles.specs.Users.{special_in, user_at};

use s38_base::{ObjNum, Rights, Special, UserNum};

/// Rows, of which each look is counted, and the special authorities of users. There is no other way to a row.
pub trait CountedRows {
    ghost maps: { Self → ProfileMaps };

    /// The rights of a user by its row on an object; none of a user that is not there. The visit is counted.
    fn row(&mut self, user: UserNum, object: ObjNum) -> Rights
        ensures rights { result ≡ row_of (maps self.old) user.0 object.0 }
        ensures visits { maps self.new ≡ record (maps self.old) { visits = counted (maps self.old).visits } };

    /// The special authorities of a user; none of one that is not there.
    fn specials(&self, user: UserNum) -> Special
        ensures { result ≡ special_in (user_at (maps self.now).users user.0) };

    /// How many rows were visited.
    fn visits(&self) -> u64
        ensures { result ≡ (maps self.now).visits };
}

/// Rows that may also be looked at without a visit.
pub trait Peek: CountedRows {
    /// What `row` answers.
    fn peek(&self, user: UserNum, object: ObjNum) -> Rights
        ensures { result ≡ row_of (Self.maps self.now) user.0 object.0 };
}
