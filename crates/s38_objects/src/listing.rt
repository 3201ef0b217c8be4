//! What a context holds, in the order of names.
ghost use Rattle.std.specs.Prelude.{◌≡◌, ◌∷◌, [], IfOk, OnOk, filter};
ghost use Rattle.std.specs.BTreeMap.{values};
ghost use Rattle.s38_rules.specs.families.ContextLists.{listed, with_listed};
ghost use Rattle.s38_rules.specs.state.Held.{is_in_context};

use crate::number::Number;
use s38_base::{NoMemory, ObjNum};
use s38_rules::{Listed, Object};
use std::alloc::Global;
use std::collections::BTreeMap;

fn listed(object: &Object) -> Listed
    ensures { result ≡ listed object.now }
{
    Listed {
        kind: object.id.kind.code(),
        sub: object.id.sub,
        name: object.id.name,
    }
}

/// Enters an object that is in a context.
fn enter(
    names: &mut BTreeMap<Listed, ObjNum>,
    object: &Object,
    context: ObjNum,
) -> Result<(), NoMemory>
    ensures ok { OnOk result (names.new.entries ≡ with_listed names.old.entries (filter (is_in_context context.0) (object.now ∷ []))) }
{
    if context.0 == 0 || object.context.0 != context.0 {
        return Ok(());
    }
    match names.insert(listed(object), object.number) {
        Ok(_) => Ok(()),
        Err(_) => Err(NoMemory),
    }
}

/// The objects in a context, each under its identification.
pub fn names(
    alloc: Global,
    objects: &BTreeMap<Number, Object>,
    context: ObjNum,
) -> Result<BTreeMap<Listed, ObjNum>, NoMemory>
    ensures { IfOk result (λ names. names.entries ≡ with_listed [] (filter (is_in_context context.0) (values objects.now))) }
{
    let mut names = BTreeMap::new(alloc);
    for object in objects.values() {
        enter(&mut names, object, context)?;
    }
    Ok(names)
}
