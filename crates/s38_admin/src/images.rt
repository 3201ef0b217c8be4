//! What is said of authority over objects, as bytes.
ghost use Rattle.std.specs.Prelude.{◌≡◌, ◌++◌, ◌∷◌, [], filter, length, IfOk, OnOk};
ghost use Rattle.std.specs.List.{flat_map};
ghost use Rattle.std.specs.Option.{option_copied};
ghost use Rattle.s38_rules.specs.families.AuthorityReads.{authority_image, concern_image, concerns, concerns_image};
ghost use Rattle.s38_rules.specs.state.Headers.{public_in};
ghost use Rattle.s38_rules.specs.state.Held.{owner_in};

use s38_base::{Bytes, NoMemory, ObjNum, Rights, UserNum};
use s38_objects::Objects;
use s38_operands::count_image;
use s38_rules::Object;
use std::alloc::Global;

fn owner_in(found: Option<&Object>) -> UserNum
    ensures { result.0 ≡ owner_in (option_copied found.entry) }
{
    match found {
        None => ObjNum(0),
        Some(object) => object.owner,
    }
}

/// The rights of everybody on an object.
pub fn public_in(found: Option<&Object>) -> Rights
    ensures { result.0 ≡ public_in (option_copied found.entry) }
{
    match found {
        None => Rights(0),
        Some(object) => object.public,
    }
}

/// The owner of an object, the rights of everybody, and those of a row.
pub fn authority_image(
    alloc: Global,
    found: Option<&Object>,
    rights: Rights,
) -> Result<Bytes, NoMemory>
    ensures { IfOk result (λ made. made ≡ authority_image (option_copied found.entry) rights.0) }
{
    let owner = owner_in(found).0.to_be_bytes();
    let mut made = Vec::from_slice(alloc, &owner)?;
    made.push(public_in(found).0)?;
    made.push(rights.0)?;
    Ok(Bytes::from_vec(made))
}

/// Whether a user owns an object, or has a row on it.
fn concerns(user: UserNum, object: &Object) -> bool
    ensures { result ≡ concerns user.0 object.now }
{
    object.owner.0 == user.0 || object.rows.rights_of(user).0 != 0
}

/// Adds an object that concerns a user: its number, whether the user owns it, and the rights of the user's row.
fn add_concern(made: &mut Vec<u8>, user: UserNum, object: &Object) -> Result<(), NoMemory>
    ensures { OnOk result (made.new.items ≡ made.old.items ++ flat_map (concern_image user.0) (filter (concerns user.0) (object.now ∷ []))) }
{
    if !concerns(user, object) {
        return Ok(());
    }
    made.extend_from_slice(&object.number.0.to_be_bytes())?;
    made.push(u8::from(object.owner.0 == user.0))?;
    made.push(object.rows.rights_of(user).0)?;
    Ok(())
}

/// How many objects concern a user.
fn count_concerns(objects: &Objects, user: UserNum) -> usize
    ensures { result ≡ length (filter (concerns user.0) objects.now.objects) }
{
    objects
        .all()
        .filter(|object| concerns(user, object))
        .count()
}

/// How many objects concern a user, and each in order of number.
pub fn concerns_image(alloc: Global, objects: &Objects, user: UserNum) -> Result<Bytes, NoMemory>
    ensures { IfOk result (λ made. made ≡ concerns_image user.0 (filter (concerns user.0) objects.now.objects)) }
{
    let mut made = count_image(alloc, count_concerns(objects, user))?;
    for object in objects.all() {
        add_concern(&mut made, user, object)?;
    }
    Ok(Bytes::from_vec(made))
}
