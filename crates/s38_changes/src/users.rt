//! What is kept of users, as objects come, go and change hands.
ghost use Rattle.std.specs.Prelude.{◌≡◌, ◌+◌, ◌-◌, ◌<◌, ◌≤◌, ◌^◌, ◌==◌, ℕ, IsSome, None, OnErr, OnOk, Some, if◌then◌else◌};
ghost use Rattle.s38_profiles.specs.Rows.{SetsRow, row_at, row_key};
ghost use Rattle.s38_profiles.specs.Users.{SetsUser, charge_in, user_at};
ghost use Rattle.s38_rules.specs.state.Held.{pages_of};
ghost use Rattle.s38_rules.specs.state.Keeping.{paid};
ghost use Rattle.s38_rules.specs.state.Kept.{kept_row, profile_by};
ghost use Rattle.s38_rules.specs.state.PrivateRows.{AreRows, row_of};

use s38_base::{NoMemory, ObjNum, Rights, UserNum};
use s38_objects::{enter, pages, pay, pay_more};
use s38_profiles::Profiles;
use s38_rules::{Body, Object, PrivateRow};

/// A user pays for so many pages less.
pub fn pay_less(profiles: &mut Profiles, user: UserNum, pages: u64)
    ensures users { SetsUser profiles.old.users user.0 (paid (charge_in (user_at profiles.old.users user.0) - pages) (user_at profiles.old.users user.0)) profiles.new.users }
    ensures rows { profiles.new.rows ≡ profiles.old.rows }
{
    let charge = profiles.charge(user).saturating_sub(pages);
    pay(profiles, user, charge);
}

/// A user pays for so many pages more, as its limit allows.
pub fn pay_within(profiles: &mut Profiles, user: UserNum, pages: u64, limit: u32)
    requires { charge_in (user_at profiles.old.users user.0) + pages ≤ limit }
    ensures users { SetsUser profiles.old.users user.0 (paid (charge_in (user_at profiles.old.users user.0) + pages) (user_at profiles.old.users user.0)) profiles.new.users }
    ensures rows { profiles.new.rows ≡ profiles.old.rows }
{
    // A limit is a number of 32 bits, so the charge is not too large.
    let _limit = limit;
    pay_more(profiles, user, pages);
}

/// A user pays for so many pages in the place of others.
pub fn pay_otherwise(profiles: &mut Profiles, user: UserNum, before: u64, after: u64)
    requires { charge_in (user_at profiles.old.users user.0) - before + after < 2 ^ 64 }
    ensures users { SetsUser profiles.old.users user.0 (paid (charge_in (user_at profiles.old.users user.0) - before + after) (user_at profiles.old.users user.0)) profiles.new.users }
    ensures rows { profiles.new.rows ≡ profiles.old.rows }
{
    let charge = profiles.charge(user).saturating_sub(before) + after;
    pay(profiles, user, charge);
}

/// A row is out.
pub fn take_row(profiles: &mut Profiles, user: UserNum, number: ObjNum)
    ensures rows { SetsRow profiles.old.rows (row_key user.0 number.0) None profiles.new.rows }
    ensures users { profiles.new.users ≡ profiles.old.users }
{
    let _result = profiles.set_row(user, number, Rights(0));
}

/// A new object's user, where it is one, and its owner's row. Where memory is refused everything reads as before.
pub fn prepare(
    profiles: &mut Profiles,
    number: ObjNum,
    owner: UserNum,
    body: &Body,
) -> Result<(), NoMemory>
    requires user { user_at profiles.old.users number.0 ≡ None }
    requires row { row_at profiles.old.rows (row_key owner.0 number.0) ≡ None }
    ensures rows { OnOk result (SetsRow profiles.old.rows (row_key owner.0 number.0) (Some (record { 0 = 255 })) profiles.new.rows) }
    ensures users { OnOk result (SetsUser profiles.old.users number.0 (profile_by body.now 0) profiles.new.users) }
    ensures err_rows { OnErr result ((user n : ℕ) → row_at profiles.new.rows (row_key user n) ≡ row_at profiles.old.rows (row_key user n)) }
    ensures err_users { OnErr result (profiles.new.users ≡ profiles.old.users) }
{
    match profiles.set_row(owner, number, Rights(0xff)) {
        Ok(()) => {}
        Err(fault) => return Err(fault),
    }
    match enter(profiles, number, body) {
        Ok(()) => Ok(()),
        Err(fault) => {
            take_row(profiles, owner, number);
            Err(fault)
        }
    }
}

/// A profile that is gone is no user.
fn leave(profiles: &mut Profiles, number: ObjNum)
    ensures users { SetsUser profiles.old.users number.0 None profiles.new.users }
    ensures rows { profiles.new.rows ≡ profiles.old.rows }
{
    if profiles.has(number) {
        profiles.leave(number);
    }
}

/// What was prepared for a new object is taken back.
pub fn take_back(profiles: &mut Profiles, number: ObjNum, owner: UserNum)
    ensures rows { SetsRow profiles.old.rows (row_key owner.0 number.0) None profiles.new.rows }
    ensures users { SetsUser profiles.old.users number.0 None profiles.new.users }
{
    take_row(profiles, owner, number);
    leave(profiles, number);
}

/// The rows of an object are out.
fn take_rows(profiles: &mut Profiles, number: ObjNum, rows: &[PrivateRow])
    requires rising { AreRows rows.now }
    requires kept { (user : ℕ) → row_at profiles.old.rows (row_key user number.0) ≡ kept_row (row_of rows.now user) }
    ensures rows { (user n : ℕ) → row_at profiles.new.rows (row_key user n) ≡ (if number.0 == n then None else row_at profiles.old.rows (row_key user n)) }
    ensures users { profiles.new.users ≡ profiles.old.users }
{
    for row in rows {
        take_row(profiles, row.user, number);
    }
}

/// An object is gone: its rows, its pages, and the user that it was.
pub fn forget(profiles: &mut Profiles, object: &Object)
    requires { (user : ℕ) → row_at profiles.old.rows (row_key user object.now.number.0) ≡ kept_row (row_of object.now.rows user) }
    ensures rows { (user n : ℕ) → row_at profiles.new.rows (row_key user n) ≡ (if object.now.number.0 == n then None else row_at profiles.old.rows (row_key user n)) }
    ensures users { (user : ℕ) → user_at profiles.new.users user ≡ (if object.now.number.0 == user then None else if object.now.owner.0 == user then paid (charge_in (user_at profiles.old.users object.now.owner.0) - pages_of object.now.body) (user_at profiles.old.users object.now.owner.0) else user_at profiles.old.users user) }
{
    take_rows(profiles, object.number, object.rows.as_slice());
    pay_less(profiles, object.owner, pages(&object.body));
    leave(profiles, object.number);
}
