//! Numbers that an instruction reads; no memory is taken.
ghost use Rattle.std.specs.Prelude.{◌≡◌, [], IfSome, IsTrue, Some};
ghost use Rattle.std.specs.Option.{option_copied, option_map, unwrap_or};
ghost use Rattle.s38_base.specs.Scalar.{value_of};
ghost use Rattle.s38_base.specs.Attributes.{fraction_of, is_numeric, length_of};
ghost use Rattle.s38_rules.specs.families.CursorSeeks.{ordinal_at, ordinal_of};
ghost use Rattle.s38_rules.specs.ask.Operands.{bytes_of, count_at, count_of, number_at, place as operand, scalar_attr};
ghost use Rattle.s38_rules.specs.state.Cells.{bytes_there};

use crate::operands::{place, scalar_attr};
use s38_base::{Attr, Pointer};
use s38_code::Operand;
use s38_decimal::{Dec, read_scalar, ten};
use s38_memory::Tagged;
use s38_objects::Objects;

/// The most bytes that a number has.
const LONGEST: usize = 31;

/// The number in a space, of a numeric attribute.
#[tactic(auto, using(crate::proofs::NumberLaws::numeric_length, crate::proofs::NumberLaws::no_value))]
pub fn read_in(space: &Tagged, at: u64, attr: Attr) -> Option<Dec>
    requires { IsTrue (is_numeric attr) }
    ensures units { option_map (λ d. d.units) result ≡ value_of attr (bytes_there space.now at (length_of attr)) }
    ensures attr { IfSome result (λ d. d.attr ≡ attr) }
{
    let len = attr.length() as usize;
    if !space.has_piece(at, len) {
        return None;
    }
    let mut buffer = [0; LONGEST];
    let into = &mut buffer[..len];
    match space.read(at as u32, into) {
        Ok(()) => read_scalar(attr, into).ok(),
        Err(_) => None,
    }
}

/// The number in a space; None for an attribute that is not numeric.
#[tactic(auto, using(crate::proofs::NumberLaws::no_value, crate::proofs::NumberLaws::no_number))]
fn number_in(space: Option<&Tagged>, at: u64, attr: Attr) -> Option<Dec>
    ensures units { option_map (λ d. d.units) result ≡ value_of attr (bytes_there (unwrap_or (option_copied space.entry) []) at (length_of attr)) }
    ensures attr { IfSome result (λ d. d.attr ≡ attr) }
{
    if !attr.is_numeric() {
        return None;
    }
    match space {
        None => None,
        Some(space) => read_in(space, at, attr),
    }
}

#[tactic(auto, using(crate::proofs::NumberLaws::no_value))]
fn number_of(objects: &Objects, operand: Option<&Operand>) -> Option<Dec>
    ensures units { option_map (λ d. d.units) result ≡ value_of (scalar_attr (option_copied operand.entry)) (bytes_of objects.now (option_copied operand.entry)) }
    ensures attr { IfSome result (λ d. d.attr ≡ scalar_attr (option_copied operand.entry)) }
{
    match operand {
        Some(Operand::Value { attr, bytes }) => read_scalar(*attr, bytes.as_slice()).ok(),
        Some(Operand::InSpace { base, offset, attr }) => number_in(
            objects.space(Pointer::target(base.get())),
            Pointer::start(base.get(), *offset),
            *attr,
        ),
        _ => None,
    }
}

/// The number that is read; None where its bytes have no value.
pub fn number_at(objects: &Objects, operands: &[Operand], k: usize) -> Option<Dec>
    ensures units { option_map (λ d. d.units) result ≡ number_at objects.now operands.now k }
    ensures attr { IfSome result (λ d. d.attr ≡ scalar_attr (operand operands.now k)) }
{
    number_of(objects, place(operands, k))
}

/// The count that so many units are: 0 where that is no whole number above 0.
#[tactic(auto, using(crate::proofs::NumberLaws::fraction_small, crate::proofs::NumberLaws::power_some))]
fn count_of(number: Dec) -> u128
    ensures { result ≡ count_of (fraction_of number.attr) (Some number.units) }
{
    if number.units < 0 {
        return 0;
    }
    let units = number.units.unsigned_abs();
    let unit = ten(number.attr.fraction());
    if units % unit == 0 { units / unit } else { 0 }
}

/// The count that a number is; 0 where it is none.
pub fn count_at(objects: &Objects, operands: &[Operand], k: usize) -> u128
    ensures { result ≡ count_at objects.now operands.now k }
{
    match number_at(objects, operands, k) {
        None => 0,
        Some(number) => count_of(number),
    }
}

/// The ordinal that so many units are: a fraction is dropped, and a number below 1 is 0.
#[tactic(auto, using(crate::proofs::NumberLaws::fraction_small, crate::proofs::NumberLaws::power_some))]
fn ordinal_of(number: Dec) -> u128
    ensures { result ≡ ordinal_of (fraction_of number.attr) (Some number.units) }
{
    if number.units < 0 {
        return 0;
    }
    number.units.unsigned_abs() / ten(number.attr.fraction())
}

/// The ordinal that a number is; 0 where it is none.
pub fn ordinal_at(objects: &Objects, operands: &[Operand], k: usize) -> u128
    ensures { result ≡ ordinal_at objects.now operands.now k }
{
    match number_at(objects, operands, k) {
        None => 0,
        Some(number) => ordinal_of(number),
    }
}
