ghost use Rattle.std.specs.Prelude.{◌≡◌, ◌≢◌, ◌==◌, ◌&&◌, ℕ, IfErr, OnOk, OnErr, is_some, if◌then◌else◌};
ghost use Rattle.std.specs.Option.{option_map};
ghost use Rattle.std.specs.Ordering.{nat_cmp};
ghost use Rattle.std.specs.BTreeMap.{IsOrdered, get, insert_entry};
ghost use Rattle.s38_rules.specs.state.Headers.{rights_in_row};
ghost use Rattle.s38_rules.specs.state.Held.{kept_on_disk};
ghost use Rattle.s38_rules.specs.state.Parts.{over_object, profile_part};
ghost use Rattle.s38_rules.specs.state.Access.{granted, open_to_all, owned_by};
ghost use Rattle.s38_objects.specs.Changes.{changed_at, placed, with_changed_standing};

use crate::body;
use crate::number::Number;
use s38_base::{Id, NoMemory, ObjNum, Rights, Special, UserNum};
use s38_rules::Object;
use std::alloc::AllocFailed;
use std::collections::BTreeMap;

/// Adds an object at its number. Where memory was refused it comes back and nothing changed.
pub fn add(
    objects: &mut BTreeMap<Number, Object>,
    object: Object,
) -> Result<(), AllocFailed<Object>>
    ensures ok { OnOk result (objects.new.entries ≡ insert_entry nat_cmp objects.old.entries object.number.0 object) }
    ensures ordered { IsOrdered nat_cmp objects.new }
    ensures back { IfErr result (λ e. e.value ≡ object) }
    ensures err { OnErr result (objects.new.entries ≡ objects.old.entries) }
{
    match objects.insert(
        Number {
            number: object.number.0,
        },
        object,
    ) {
        Ok(_) => Ok(()),
        Err(refused) => Err(AllocFailed {
            value: refused.value.1,
        }),
    }
}

/// The object of a number in another context, and with another identification.
pub fn place(objects: &mut BTreeMap<Number, Object>, number: u64, context: ObjNum, id: Id)
    ensures { objects.new.entries ≡ changed_at objects.old.entries number (placed context id) }
{
    if let Some(object) = objects.get_mut(&Number { number }) {
        object.context = context;
        object.id = id;
    }
}

/// Another owner of the object of a number.
pub fn set_owner(objects: &mut BTreeMap<Number, Object>, number: u64, user: UserNum)
    ensures { objects.new.entries ≡ changed_at objects.old.entries number (with_changed_standing (owned_by user)) }
{
    if let Some(object) = objects.get_mut(&Number { number }) {
        object.owner = user;
    }
}

/// Other rights of everybody on the object of a number.
pub fn set_public(objects: &mut BTreeMap<Number, Object>, number: u64, rights: Rights)
    ensures { objects.new.entries ≡ changed_at objects.old.entries number (with_changed_standing (open_to_all rights)) }
{
    if let Some(object) = objects.get_mut(&Number { number }) {
        object.public = rights;
    }
}

/// The object of a number is on disk.
pub fn ensure(objects: &mut BTreeMap<Number, Object>, number: u64)
    ensures { objects.new.entries ≡ changed_at objects.old.entries number kept_on_disk }
{
    if let Some(object) = objects.get_mut(&Number { number }) {
        object.on_disk = true;
    }
}

/// Other special authorities of the user of a number, and another limit.
pub fn set_profile(
    objects: &mut BTreeMap<Number, Object>,
    number: u64,
    special: Special,
    limit: u32,
)
    ensures { objects.new.entries ≡ changed_at objects.old.entries number (over_object profile_part (λ _. (special, limit))) }
{
    if let Some(object) = objects.get_mut(&Number { number }) {
        body::set_profile(&mut object.body, special, limit);
    }
}

/// The rights of a user by a private row on the object of a number.
pub fn set_row(
    objects: &mut BTreeMap<Number, Object>,
    number: u64,
    user: UserNum,
    rights: Rights,
) -> Result<(), NoMemory>
    ensures ok { OnOk result (objects.new.entries ≡ changed_at objects.old.entries number (with_changed_standing (granted user rights))) }
    ensures rows { OnOk result ((u : ℕ) → rights_in_row (option_map (with_changed_standing (granted user rights)) (get nat_cmp objects.old number)) u
        ≡ (if is_some (get nat_cmp objects.old number) && (user.0 == u) then rights.0 else rights_in_row (get nat_cmp objects.old number) u)) }
    ensures added { OnErr result ((rights_in_row (get nat_cmp objects.old number) user.0 ≡ 0) × (rights.0 ≢ 0)) }
    ensures err { OnErr result (objects.new.entries ≡ objects.old.entries) }
{
    match objects.get_mut(&Number { number }) {
        None => Ok(()),
        Some(object) => object.rows.set(user, rights),
    }
}
