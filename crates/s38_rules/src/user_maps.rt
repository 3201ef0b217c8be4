ghost use Rattle.std.specs.Prelude.{◌≡◌};
ghost use Rattle.s38_profiles.specs.Users.{charge_in, limit_in, user_at};

use s38_base::UserNum;
use s38_profiles::{Peek, Profiles};

/// What is kept of users beside the objects: their rows, and each user's special authorities, limit and charge.
pub trait UserMaps: Peek {
    /// How many pages a user owns; 0 of one that is not there.
    fn charge(&self, user: UserNum) -> u64
        ensures { result ≡ charge_in (user_at (Self.maps self.now).users user.0) };

    /// How many pages a user may own; 0 of one that is not there.
    fn limit(&self, user: UserNum) -> u32
        ensures { result ≡ limit_in (user_at (Self.maps self.now).users user.0) };
}

impl UserMaps for Profiles {
    fn charge(&self, user: UserNum) -> u64 {
        Profiles::charge(self, user)
    }

    fn limit(&self, user: UserNum) -> u32 {
        Profiles::limit(self, user)
    }
}
