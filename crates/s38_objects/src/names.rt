ghost use Rattle.std.specs.Prelude.{◌≡◌, ℕ, None, Some, OnOk, OnErr, if◌then◌else◌};
ghost use Rattle.std.specs.BTreeMap.{IsUnchanged, get};
ghost use Rattle.s38_base.specs.declared.id.Id.{Id};
ghost use Rattle.s38_rules.specs.state.Held.{is_named};
ghost use Rattle.s38_objects.specs.NameOrder.{is_found_by, key, name_cmp};

use crate::name_key::{NameKey, key};
use s38_base::{Id, NoMemory, ObjNum};
use s38_rules::Object;
use std::collections::BTreeMap;

/// Enters a number under an identification in a context.
pub fn enter(
    names: &mut BTreeMap<NameKey, u64>,
    context: ObjNum,
    id: &Id,
    number: ObjNum,
) -> Result<(), NoMemory>
    ensures ok { OnOk result ((there : ℕ) (b : Id) → get name_cmp names.new (key there b)
        ≡ (if is_found_by context.0 id.now there b then Some number.0 else get name_cmp names.old (key there b))) }
    ensures err { OnErr result (IsUnchanged names.old names.new) }
{
    if context.0 == 0 {
        return Ok(());
    }
    match names.insert(key(context.0, id), number.0) {
        Ok(_) => Ok(()),
        Err(_) => Err(NoMemory),
    }
}

/// Takes the name of an object out.
pub fn leave(names: &mut BTreeMap<NameKey, u64>, object: &Object)
    ensures { (context : ℕ) (id : Id) → get name_cmp names.new (key context id)
        ≡ (if is_named context id object.now then None else get name_cmp names.old (key context id)) }
{
    if object.context.0 != 0 {
        names.remove(&key(object.context.0, &object.id));
    }
}

/// Whether an object is found by an identification in a context.
fn is_found_by(object: &Object, context: ObjNum, id: &Id) -> bool
    ensures { result ≡ is_found_by object.now.context.0 object.now.id context.0 id.now }
{
    context.0 != 0 && object.context.0 == context.0 && object.id.is(id)
}

/// An object gets another name: the one before leads to it no more. Nothing changes where memory was refused.
pub fn change(
    names: &mut BTreeMap<NameKey, u64>,
    object: &Object,
    context: ObjNum,
    id: &Id,
) -> Result<(), NoMemory>
    ensures ok { OnOk result ((there : ℕ) (b : Id) → get name_cmp names.new (key there b)
        ≡ (if is_found_by context.0 id.now there b then Some object.now.number.0
        else (if is_named there b object.now then None else get name_cmp names.old (key there b)))) }
    ensures err { OnErr result (IsUnchanged names.old names.new) }
{
    match enter(names, context, id, object.number) {
        Ok(()) => {}
        Err(e) => return Err(e),
    }
    if is_found_by(object, context, id) {
        return Ok(());
    }
    leave(names, object);
    Ok(())
}
