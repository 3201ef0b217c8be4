//! Whether what is read may be an entry of a data space. No memory is taken: what lies in a space is looked at field by
//! field.
ghost use Rattle.std.specs.Prelude.{◌≡◌, ◌+◌, ◌≤◌, [], drop, length, take, true};
ghost use Rattle.std.specs.Option.{option_copied, unwrap_or};
ghost use Rattle.s38_base.specs.Attributes.{length_of};
ghost use Rattle.s38_dataspaces.specs.Table.{entry_len};
ghost use Rattle.s38_dataspaces.specs.Values.{have_values, is_valued};
ghost use Rattle.s38_memory.specs.Tagged.{bytes_in, is_within};
ghost use Rattle.s38_rules.specs.state.Cells.{bytes_there};
ghost use Rattle.s38_rules.specs.ask.Operands.{bytes_at, bytes_of};

use crate::numbers::read_in;
use crate::operands::place;
use s38_base::{Attr, Pointer};
use s38_code::Operand;
use s38_decimal::read_scalar;
use s38_memory::Tagged;
use s38_objects::Objects;

/// Bytes that may be a field.
fn is_valued(attr: Attr, bytes: &[u8]) -> bool
    ensures { result ≡ is_valued attr bytes.now }
{
    !attr.is_numeric() || read_scalar(attr, bytes).is_ok()
}

/// Bytes that may be an entry.
fn have_values(fields: &[Attr], bytes: &[u8]) -> bool
    requires { entry_len fields.now ≤ length bytes.now }
    ensures { result ≡ have_values fields.now bytes.now }
{
    match fields {
        [] => true,
        [field, more @ ..] => {
            let (first, rest) = bytes.split_at(usize::from(field.length()));
            is_valued(*field, first) && have_values(more, rest)
        }
    }
}

/// Bytes of a space that may be a field.
fn is_valued_there(attr: Attr, space: &Tagged, at: u32) -> bool
    ensures { result ≡ is_valued attr (bytes_there space.now at (length_of attr)) }
{
    !attr.is_numeric() || read_in(space, u64::from(at), attr).is_some()
}

/// Bytes of a space that may be an entry.
#[tactic(auto, using(crate::proofs::EntryLaws::first_field, crate::proofs::EntryLaws::other_fields, crate::proofs::EntryLaws::more_within))]
fn have_values_there(fields: &[Attr], space: &Tagged, at: u32) -> bool
    requires within { is_within at (entry_len fields.now) space.now ≡ true }
    requires near { at + entry_len fields.now ≤ 16777216 }
    ensures { result ≡ have_values fields.now (take (entry_len fields.now) (drop at (bytes_in space.now))) }
{
    match fields {
        [] => true,
        [field, more @ ..] => {
            is_valued_there(*field, space, at)
                && have_values_there(more, space, at + u32::from(field.length()))
        }
    }
}

fn have_values_in(fields: &[Attr], space: &Tagged, at: u64, len: u16) -> bool
    requires { length (bytes_there space.now at len) ≡ entry_len fields.now }
    ensures { result ≡ have_values fields.now (bytes_there space.now at len) }
{
    if space.has_piece(at, len as usize) {
        have_values_there(fields, space, at as u32)
    } else {
        have_values(fields, &[])
    }
}

fn have_values_of(objects: &Objects, operand: Option<&Operand>, fields: &[Attr]) -> bool
    requires { length (bytes_of objects.now (option_copied operand)) ≡ entry_len fields.now }
    ensures { result ≡ have_values fields.now (bytes_of objects.now (option_copied operand.entry)) }
{
    match operand {
        Some(Operand::Value { bytes, .. }) => have_values(fields, bytes.as_slice()),
        Some(Operand::InSpace { base, offset, attr }) => {
            match objects.space(Pointer::target(base.get())) {
                Some(space) => have_values_in(
                    fields,
                    space,
                    Pointer::start(base.get(), *offset),
                    attr.length(),
                ),
                None => have_values(fields, &[]),
            }
        }
        _ => have_values(fields, &[]),
    }
}

/// Whether each numeric field has a value, where the bytes that are read are an entry of these fields.
pub fn have_values_at(objects: &Objects, operands: &[Operand], k: usize, fields: &[Attr]) -> bool
    requires { length (bytes_at objects.now operands.now k) ≡ entry_len fields.now }
    ensures { result ≡ have_values fields.now (bytes_at objects.now operands.now k) }
{
    have_values_of(objects, place(operands, k), fields)
}
