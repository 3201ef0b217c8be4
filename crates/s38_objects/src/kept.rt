//! What is kept of users beside the objects, made from all of them: whoever is a profile is a user, each owner pays
//! for its objects, and each row of an object is the user's.
ghost use Rattle.std.specs.Prelude.{◌≡◌, ◌+◌, ◌<◌, ◌^◌, ◌==◌, ℕ, [], None, OnErr, OnOk, if◌then◌else◌};
ghost use Rattle.s38_profiles.specs.Rows.{row_at, row_key};
ghost use Rattle.s38_profiles.specs.Users.{SetsUser, charge_in, user_at};
ghost use Rattle.s38_rules.specs.state.Held.{charge_in as charges_in};
ghost use Rattle.s38_rules.specs.state.Keeping.{AreKeptRows, AreUsers, paid};
ghost use Rattle.s38_rules.specs.state.Kept.{kept_row, profile_by};
ghost use Rattle.s38_rules.specs.state.PrivateRows.{AreRows, row_of};

use crate::body::pages;
use crate::objects::Objects;
use s38_base::{NoMemory, ObjNum, UserNum};
use s38_profiles::Profiles;
use s38_rules::{Body, Object, PrivateRow, TableRows};
use std::alloc::Global;

/// An object that is a profile is a user, who pays for nothing yet. Where memory is refused nothing changes.
#[tactic(auto, using(s38_rules::proofs::UserLaws::left_unset))]
pub fn enter(profiles: &mut Profiles, number: ObjNum, body: &Body) -> Result<(), NoMemory>
    requires { user_at profiles.old.users number.0 ≡ None }
    ensures users { OnOk result (SetsUser profiles.old.users number.0 (profile_by body.now 0) profiles.new.users) }
    ensures rows { profiles.new.rows ≡ profiles.old.rows }
    ensures err { OnErr result (profiles.new ≡ profiles.old) }
{
    match body {
        Body::Profile { special, limit } => profiles.enter(number, *special, *limit),
        _ => Ok(()),
    }
}

/// Enters the users of all profiles.
fn enter_all(profiles: &mut Profiles, objects: &Objects) -> Result<(), NoMemory>
    requires { (user : ℕ) → user_at profiles.old.users user ≡ None }
    ensures users { OnOk result (AreUsers profiles.new.users objects.now.objects (λ user. 0)) }
    ensures rows { OnOk result (profiles.new.rows ≡ profiles.old.rows) }
{
    for object in objects.all() {
        enter(profiles, object.number, &object.body)?;
    }
    Ok(())
}

/// A user pays for so many pages; one that is not there pays for nothing.
pub fn pay(profiles: &mut Profiles, user: UserNum, pages: u64)
    ensures users { SetsUser profiles.old.users user.0 (paid pages (user_at profiles.old.users user.0)) profiles.new.users }
    ensures rows { profiles.new.rows ≡ profiles.old.rows }
{
    if profiles.has(user) {
        profiles.set_charge(user, pages);
    }
}

/// A user pays for so many pages more.
pub fn pay_more(profiles: &mut Profiles, user: UserNum, pages: u64)
    requires { charge_in (user_at profiles.old.users user.0) + pages < 2 ^ 64 }
    ensures users { SetsUser profiles.old.users user.0 (paid (charge_in (user_at profiles.old.users user.0) + pages) (user_at profiles.old.users user.0)) profiles.new.users }
    ensures rows { profiles.new.rows ≡ profiles.old.rows }
{
    let charge = profiles.charge(user) + pages;
    pay(profiles, user, charge);
}

/// Has each user pay for its objects.
fn charge_all(profiles: &mut Profiles, objects: &Objects)
    requires users { AreUsers profiles.old.users objects.now.objects (λ user. 0) }
    requires counted { (user : ℕ) → charges_in objects.now.objects user < 2 ^ 64 }
    ensures users { AreUsers profiles.new.users objects.now.objects (charges_in objects.now.objects) }
    ensures rows { profiles.new.rows ≡ profiles.old.rows }
{
    for object in objects.all() {
        pay_more(profiles, object.owner, pages(&object.body));
    }
}

/// Sets the rights of each row of an object that has none yet.
fn set_rows(profiles: &mut Profiles, number: ObjNum, rows: &[PrivateRow]) -> Result<(), NoMemory>
    requires rising { AreRows rows.now }
    requires new { (user : ℕ) → row_at profiles.old.rows (row_key user number.0) ≡ None }
    ensures rows { OnOk result ((user n : ℕ) → row_at profiles.new.rows (row_key user n) ≡ (if number.0 == n then kept_row (row_of rows.now user) else row_at profiles.old.rows (row_key user n))) }
    ensures users { OnOk result (profiles.new.users ≡ profiles.old.users) }
{
    for row in rows {
        profiles.set_row(row.user, number, row.rights)?;
    }
    Ok(())
}

/// Sets the rights of each row of each object.
fn set_all_rows(profiles: &mut Profiles, objects: &Objects) -> Result<(), NoMemory>
    requires { profiles.old.rows ≡ [] }
    ensures rows { OnOk result (AreKeptRows profiles.new.rows objects.now.objects) }
    ensures users { OnOk result (profiles.new.users ≡ profiles.old.users) }
{
    for object in objects.all() {
        set_rows(profiles, object.number, object.rows.as_slice())?;
    }
    Ok(())
}

impl TableRows for Objects {
    fn profiles(&self, alloc: Global) -> Result<Profiles, NoMemory> {
        let mut profiles = Profiles::new(alloc);
        enter_all(&mut profiles, self)?;
        charge_all(&mut profiles, self);
        set_all_rows(&mut profiles, self)?;
        Ok(profiles)
    }
}
