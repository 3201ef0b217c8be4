//! The address rules: what a pointer has to be, and where an item in a space has to lie.
ghost use Rattle.std.specs.Prelude.{◌≡◌, ◌∷◌, ℕ, [], Option};
ghost use Rattle.std.specs.Option.{option_copied, option_map, unwrap_or};
ghost use Rattle.s38_verdicts.specs.Plain.{are_plain};
ghost use Rattle.s38_verdicts.specs.Resolved.{Each, IsResolved, facts_of, needs_of};
ghost use Rattle.s38_rules.specs.declared.object.Object.{Object};
ghost use Rattle.s38_base.specs.Pointers.{target_of};
ghost use Rattle.s38_rules.specs.state.Held.{object};
ghost use Rattle.s38_rules.specs.ask.AddressRules.{address_rule, address_rules, base_rule, cells_rule, is_base, is_looked_at, is_pointer, is_sought, item_rule, named_rule, object_rule, place_rule, pointer_rule, space_rule};
ghost use Rattle.s38_rules.specs.state.Parts.{space_part};

use crate::by_operand::{OperandRules, by_operand};
use crate::resolved::{Facts, Resolved};
use s38_base::exceptions::{
    BOUNDARY_ALIGNMENT, OBJECT_DESTROYED, OBJECT_TYPE_INVALID, POINTER_MISSING,
    POINTER_TYPE_INVALID, SPACE_ADDRESSING,
};
use s38_base::limits::MACHINE_CONTEXT;
use s38_base::{Attr, Exception, Kind, Pointer};
use s38_code::Operand;
use s38_memory::Tagged;
use s38_objects::Objects;
use s38_operands::{fails, is_aligned, is_in_space, is_within};
use s38_rules::{BodyPart, Named, Need, Object, PointerKind, Sought};

fn is_base(pointer: Pointer, offset: u32, attr: Attr) -> bool
    ensures { result ≡ is_base pointer offset attr }
{
    match pointer {
        Pointer::System { .. } => false,
        Pointer::Space { .. } => true,
        Pointer::Item { attr: item, .. } => offset == 0 && item.is_same(attr),
    }
}

fn place_rule(k: u8, space: Option<&Tagged>, at: u64, attr: Attr) -> Option<Exception>
    ensures { result ≡ place_rule k (unwrap_or (option_copied space.entry) []) at attr }
{
    if !is_within(space, at, attr.length()) {
        return Some(Exception::plain(SPACE_ADDRESSING, k));
    }
    fails(attr.is_pointer() && !is_aligned(at), BOUNDARY_ALIGNMENT, k)
}

fn cells_rule(k: u8, space: Option<&Tagged>, at: u64, attr: Attr) -> Option<Exception>
    ensures { result ≡ cells_rule k (option_copied space.entry) at attr }
{
    match space {
        None => Some(Exception::plain(OBJECT_TYPE_INVALID, k)),
        Some(_) => place_rule(k, space, at, attr),
    }
}

fn space_rule(k: u8, object_used: Option<&Object>, at: u64, attr: Attr) -> Option<Exception>
    ensures { result ≡ space_rule k (option_copied object_used.entry) at attr }
{
    match object_used {
        None => Some(Exception::plain(OBJECT_DESTROYED, k)),
        Some(object_used) => cells_rule(k, Tagged::of(&object_used.body), at, attr),
    }
}

#[inline(never)]
fn base_rule(
    objects: &Objects,
    k: u8,
    base: Option<Pointer>,
    offset: u32,
    attr: Attr,
) -> Option<Exception>
    ensures { result ≡ base_rule objects.now k base offset attr }
{
    match base {
        None => Some(Exception::plain(POINTER_MISSING, k)),
        Some(pointer) => {
            if is_base(pointer, offset, attr) {
                let at = u64::from(pointer.offset()) + u64::from(offset);
                space_rule(k, objects.get(pointer.object()), at, attr)
            } else {
                Some(Exception::plain(POINTER_TYPE_INVALID, k))
            }
        }
    }
}

/// An item in a space: its base is a pointer into a space, or to the very item, and it lies inside.
#[tactic(auto, unfolding(s38_rules::specs::ask::AddressRules::item_rule))]
fn item_rule(objects: &Objects, k: u8, operand: &Operand) -> Option<Exception>
    ensures { result ≡ item_rule objects.now k operand.now }
{
    match operand {
        Operand::InSpace { base, offset, attr } => base_rule(
            objects,
            k,
            base.get(),
            *offset,
            *attr,
        ),
        _ => None,
    }
}

fn is_pointer(kind: PointerKind, pointer: Pointer) -> bool
    ensures { result ≡ is_pointer kind pointer }
{
    match (kind, pointer) {
        (PointerKind::System, Pointer::System { .. }) => true,
        (PointerKind::Space, Pointer::Space { .. }) => true,
        (PointerKind::Item, Pointer::Item { .. }) => true,
        (PointerKind::Any, _) => true,
        _ => false,
    }
}

fn is_sought(sought: Sought, facts: Facts) -> bool
    ensures { (o : Object) → facts ≡ facts_of o → result ≡ is_sought sought o }
{
    match sought {
        Sought::Any => true,
        Sought::Of(needed) => needed.code() == facts.kind.code(),
        Sought::Container => Kind::Context.code() == facts.kind.code()
            && facts.number.0 != MACHINE_CONTEXT.0,
        Sought::Ignored => true,
    }
}

fn is_looked_at(sought: Sought) -> bool
    ensures { result ≡ is_looked_at sought }
{
    !matches!(sought, Sought::Ignored)
}

fn object_rule(need: &Need, found: Option<Facts>) -> Option<Exception>
    ensures { (o : Option Object) → found ≡ option_map facts_of o → result ≡ object_rule need.now o }
{
    match found {
        None => fails(is_looked_at(need.sought), OBJECT_DESTROYED, need.place),
        Some(facts) => fails(
            !is_sought(need.sought, facts),
            OBJECT_TYPE_INVALID,
            need.place,
        ),
    }
}

#[inline(always)]
fn pointer_rule(
    objects: &Objects,
    need: &Need,
    pointer: Option<Pointer>,
    found: Option<Facts>,
) -> Option<Exception>
    requires { found ≡ option_map facts_of (object objects.now (target_of pointer)) }
    ensures { result ≡ pointer_rule objects.now need.now pointer }
{
    let _ = objects;
    match pointer {
        None => Some(Exception::plain(POINTER_MISSING, need.place)),
        Some(pointer) => {
            if is_pointer(need.pointer, pointer) {
                object_rule(need, found)
            } else {
                Some(Exception::plain(POINTER_TYPE_INVALID, need.place))
            }
        }
    }
}

/// There is a pointer, of the kind that is used, to an object that is there, of the kind that is used.
#[inline(always)]
#[tactic(auto, unfolding(s38_rules::specs::ask::AddressRules::address_rule))]
fn address_rule(objects: &Objects, operands: &[Operand], need: &Resolved) -> Option<Exception>
    requires { IsResolved objects.now operands.now need.now }
    ensures { result ≡ address_rule objects.now operands.now need.now.need }
{
    let _ = operands;
    match need.need.named {
        Named::Written => pointer_rule(objects, &need.need, need.pointer, need.found),
        Named::Implied(_) => object_rule(&need.need, need.found),
    }
}

/// The address rules over the objects and the operands of a request.
#[derive(Clone, Copy)]
struct Addresses<'a> {
    objects: &'a Objects,
    operands: &'a [Operand],
}

impl<'a> OperandRules for Addresses<'a> {
    ghost use Rattle.s38_verdicts.specs.Resolved.{IsResolved};
    ghost use Rattle.s38_rules.specs.ask.AddressRules.{address_rule, item_rule};

    ghost of_item = { λ a. item_rule a.objects.now };

    ghost of_need = { λ a. address_rule a.objects.now a.operands.now };

    ghost Suits = { λ a. IsResolved a.objects.now a.operands.now };

    fn item(&self, k: u8, operand: &Operand) -> Option<Exception> {
        item_rule(self.objects, k, operand)
    }

    fn need(&self, need: &Resolved) -> Option<Exception> {
        address_rule(self.objects, self.operands, need)
    }
}

/// Whether no operand lies in a space.
fn are_plain(operands: &[Operand]) -> bool
    ensures { result ≡ are_plain operands.now }
{
    match operands {
        [] => true,
        [operand, more @ ..] => !is_in_space(Some(operand)) && are_plain(more),
    }
}

/// The first address rule that fails, operand by operand.
#[tactic(auto, unfolding(s38_rules::specs::ask::AddressRules::address_rules))]
fn each_address(objects: &Objects, operands: &[Operand], needs: &[Resolved]) -> Option<Exception>
    requires { Each (IsResolved objects.now operands.now) needs.now }
    ensures { result ≡ address_rules objects.now operands.now (needs_of needs.now) }
{
    by_operand(&Addresses { objects, operands }, needs, 1, operands)
}

/// The first address rule that fails with one need. Where no operand lies in a space it is asked alone.
#[inline(always)]
#[tactic(auto, using(crate::proofs::SoleLaws::sole_rule))]
fn sole_address(objects: &Objects, operands: &[Operand], need: &Resolved) -> Option<Exception>
    requires { IsResolved objects.now operands.now need.now }
    ensures { result ≡ address_rules objects.now operands.now (need.now.need ∷ []) }
{
    if need.need.place as usize <= operands.len() && are_plain(operands) {
        return address_rule(objects, operands, need);
    }
    each_address(objects, operands, &[*need])
}

/// The first address rule that fails: those of each operand in order, and then those of objects that no operand
/// names.
#[inline(always)]
pub fn address_rules(
    objects: &Objects,
    operands: &[Operand],
    needs: &[Resolved],
) -> Option<Exception>
    requires { Each (IsResolved objects.now operands.now) needs.now }
    ensures { result ≡ address_rules objects.now operands.now (needs_of needs.now) }
{
    match needs {
        [need] => sole_address(objects, operands, need),
        _ => each_address(objects, operands, needs),
    }
}
