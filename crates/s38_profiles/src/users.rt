ghost use Rattle.std.specs.Prelude.{◌≡◌, None, Some, IsSome, OnOk, OnErr};
ghost use Rattle.s38_profiles.specs.Users.{SetsUser, charge_in, charged, entered, user_at, with_charge, with_user, without_user};

use crate::profile::Profile;
use s38_base::{NoMemory, Special};
use std::collections::BTreeMap;

/// What is kept of a user.
pub fn user_at(users: &BTreeMap<u64, Profile>, user: u64) -> Option<Profile>
    ensures { result ≡ user_at users.now.entries user }
{
    users.get(&user).copied()
}

/// The pages that a user pays for.
pub fn charge_in(profile: Option<Profile>) -> u64
    ensures { result ≡ charge_in profile }
{
    match profile {
        Some(profile) => profile.charge,
        None => 0,
    }
}

/// Adds a user, or sets the specials and the limit of one that is there.
pub fn enter(
    users: &mut BTreeMap<u64, Profile>,
    user: u64,
    special: Special,
    limit: u32,
) -> Result<(), NoMemory>
    ensures ok { OnOk result (users.new.entries ≡ with_user users.old.entries user special limit) }
    ensures others { OnOk result (SetsUser users.old.entries user (Some (entered special limit (user_at users.old.entries user))) users.new.entries) }
    ensures added { OnErr result (user_at users.old.entries user ≡ None) }
    ensures err { OnErr result (users.new.entries ≡ users.old.entries) }
{
    let charge = charge_in(user_at(users, user));
    let profile = Profile {
        special,
        limit,
        charge,
    };
    match users.insert(user, profile) {
        Ok(_) => Ok(()),
        Err(_) => Err(NoMemory),
    }
}

/// Sets the charge of a user that is there.
pub fn set_charge(users: &mut BTreeMap<u64, Profile>, user: u64, pages: u64)
    requires { IsSome (user_at users.old.entries user) }
    ensures charge { users.new.entries ≡ with_charge users.old.entries user pages }
    ensures others { SetsUser users.old.entries user (Some (charged pages (user_at users.old.entries user))) users.new.entries }
{
    if let Some(profile) = users.get_mut(&user) {
        profile.charge = pages;
    }
}

/// Takes a user out.
pub fn leave(users: &mut BTreeMap<u64, Profile>, user: u64)
    ensures rest { users.new.entries ≡ without_user users.old.entries user }
    ensures others { SetsUser users.old.entries user None users.new.entries }
{
    users.remove(&user);
}
