ghost use Rattle.std.specs.Prelude.{◌≡◌, ◌<◌, ◌≤◌, ◌*◌, ◌&&◌, ◌==◌, ◌^◌, ℕ, unsigned_abs, IsTrue, IfOk, IfSome, MatchResult, ◌||◌, Some, None, length, if◌then◌else◌, slice_index, ℤ};
ghost use Rattle.std.specs.Option.{option_map};
ghost use Rattle.s38_base.specs.declared.attr.Attr.{Attr};
ghost use Rattle.s38_decimal.specs.Forms.{is_decimal, is_short};
ghost use Rattle.s38_base.specs.Scalar.{are_decimal, begins_right, digit_in, fits, fits_bytes, half_byte, is_minus, is_sign, meaning_of, number_from, sign_in, spelled, twos_complement, value_of, with_minus};
ghost use Rattle.s38_base.specs.Attributes.{digits_of, is_numeric, length_of};

use crate::dec::{Dec, DecimalFault};
use crate::packed::short_packed;
use crate::units::signed;
use s38_base::Attr;

/// Half byte k, counted from the left.
fn half_byte(bytes: &[u8], k: usize) -> u8
    requires { k < 2 * length bytes.now }
    ensures { result ≡ half_byte bytes.now k }
{
    let byte = bytes[k / 2];
    if k % 2 == 0 { byte / 16 } else { byte % 16 }
}

/// Digit k, counted from the left.
fn digit_in(attr: Attr, bytes: &[u8], k: usize) -> u8
    requires long { length bytes.now ≡ length_of attr }
    requires inside { k < digits_of attr }
    requires decimal { IsTrue (is_decimal attr) }
    ensures { result ≡ digit_in attr bytes.now k }
{
    match attr {
        Attr::Packed { digits, .. } => half_byte(bytes, 1 - digits as usize % 2 + k),
        Attr::Zoned { .. } => bytes[k] % 16,
        _ => unreachable!(),
    }
}

/// The number that the first n digits spell, up to 18 of them; None where one is no decimal digit.
fn short_number(attr: Attr, bytes: &[u8], n: u8) -> Option<u64>
    requires long { length bytes.now ≡ length_of attr }
    requires inside { n ≤ digits_of attr }
    requires short { n ≤ 18 }
    requires decimal { IsTrue (is_decimal attr) }
    ensures value { result ≡ (if are_decimal (digit_in attr bytes.now) n
        then Some (number_from 10 (digit_in attr bytes.now) n) else None) }
    ensures bound { IfSome result (λ number. number < 10 ^ n) }
{
    let mut number = 0;
    for k in 0..n {
        let digit = digit_in(attr, bytes, k as usize);
        if digit > 9 {
            return None;
        }
        number = number * 10 + digit as u64;
    }
    Some(number)
}

/// The same for up to 31 digits.
fn long_number(attr: Attr, bytes: &[u8], n: u8) -> Option<u128>
    requires long { length bytes.now ≡ length_of attr }
    requires inside { n ≤ digits_of attr }
    requires short { n ≤ 31 }
    requires decimal { IsTrue (is_decimal attr) }
    ensures value { result ≡ (if are_decimal (digit_in attr bytes.now) n
        then Some (number_from 10 (digit_in attr bytes.now) n) else None) }
    ensures bound { IfSome result (λ number. number < 10 ^ n) }
{
    let mut number = 0;
    for k in 0..n {
        let digit = digit_in(attr, bytes, k as usize);
        if digit > 9 {
            return None;
        }
        number = number * 10 + digit as u128;
    }
    Some(number)
}

/// The same, by how many there are.
fn spaced_number(attr: Attr, bytes: &[u8], n: u8) -> Option<u128>
    requires long { length bytes.now ≡ length_of attr }
    requires inside { n ≤ digits_of attr }
    requires short { n ≤ 31 }
    requires decimal { IsTrue (is_decimal attr) }
    ensures value { result ≡ (if are_decimal (digit_in attr bytes.now) n
        then Some (number_from 10 (digit_in attr bytes.now) n) else None) }
    ensures bound { IfSome result (λ number. number < 10 ^ n) }
{
    if n <= 18 {
        short_number(attr, bytes, n).map(|number| number as u128)
    } else {
        long_number(attr, bytes, n)
    }
}

/// The number that all digits spell.
#[inline(always)]
fn number(attr: Attr, bytes: &[u8]) -> Option<u128>
    requires long { length bytes.now ≡ length_of attr }
    requires begins { IsTrue (begins_right attr bytes.now) }
    requires numeric { IsTrue (is_numeric attr) }
    requires decimal { IsTrue (is_decimal attr) }
    ensures value { result ≡ (if are_decimal (digit_in attr bytes.now) (digits_of attr)
        then Some (number_from 10 (digit_in attr bytes.now) (digits_of attr)) else None) }
    ensures bound { IfSome result (λ number. number < 10 ^ digits_of attr) }
{
    match attr {
        Attr::Packed { digits, fraction } if digits <= 18 => {
            short_packed(digits, fraction, bytes).map(|number| number as u128)
        }
        _ => spaced_number(attr, bytes, attr.digits()),
    }
}

/// The sign: the last half byte, or the zone of the last byte.
#[inline(always)]
fn sign_in(attr: Attr, bytes: &[u8]) -> u8
    requires long { length bytes.now ≡ length_of attr }
    requires numeric { IsTrue (is_numeric attr) }
    requires decimal { IsTrue (is_decimal attr) }
    ensures { result ≡ sign_in attr bytes.now }
{
    match attr {
        Attr::Packed { digits, .. } => bytes[digits as usize / 2] % 16,
        Attr::Zoned { digits, .. } => bytes[digits as usize - 1] / 16,
        _ => unreachable!(),
    }
}

/// Where a packed number has an even count of digits, its first half byte is 0.
#[inline(always)]
fn begins_right(attr: Attr, bytes: &[u8]) -> bool
    requires { length bytes.now ≡ length_of attr }
    ensures { result ≡ begins_right attr bytes.now }
{
    match attr {
        Attr::Packed { digits, .. } => digits % 2 == 1 || bytes[0] / 16 == 0,
        _ => true,
    }
}

/// A packed or zoned number.
#[inline(always)]
fn spelled(attr: Attr, bytes: &[u8]) -> Option<i128>
    requires long { length bytes.now ≡ length_of attr }
    requires numeric { IsTrue (is_numeric attr) }
    requires decimal { IsTrue (is_decimal attr) }
    ensures value { result ≡ spelled attr bytes.now }
    ensures bound { IfSome result (λ units. unsigned_abs units < 10 ^ digits_of attr) }
{
    let sign = sign_in(attr, bytes);
    if !begins_right(attr, bytes) || sign < 10 {
        return None;
    }
    let number = number(attr, bytes)?;
    Some(signed(sign == 11 || sign == 13, number))
}

/// A number of so many bytes, read as two's complement.
fn binary(bytes: &[u8], size: u8) -> i128
    requires long { length bytes.now ≡ size }
    requires size { IsTrue ((size == 2) || (size == 4)) }
    ensures value { result ≡ twos_complement size (number_from 256 (slice_index bytes.now) size) }
    ensures fits { IsTrue (fits_bytes size result) }
{
    if size == 2 {
        i128::from(i16::from_be_bytes([bytes[0], bytes[1]]))
    } else {
        i128::from(i32::from_be_bytes([bytes[0], bytes[1], bytes[2], bytes[3]]))
    }
}

/// The number that the bytes hold, if they hold one.
#[inline(always)]
#[tactic(auto, unfolding(s38_base::specs::Scalar::value_of, s38_base::specs::Scalar::fits))]
fn value(attr: Attr, bytes: &[u8]) -> Option<i128>
    ensures value { result ≡ value_of attr bytes.now }
    ensures fits { IfSome result (λ units. IsTrue (fits attr units)) }
{
    if !attr.is_numeric() || bytes.len() != attr.length() as usize {
        return None;
    }
    match attr {
        Attr::Binary { size } => Some(binary(bytes, size)),
        _ => spelled(attr, bytes),
    }
}

/// The same out of line, for what is read less often than short packed numbers.
#[inline(never)]
fn other_value(attr: Attr, bytes: &[u8]) -> Option<i128>
    ensures value { result ≡ value_of attr bytes.now }
    ensures fits { IfSome result (λ units. IsTrue (fits attr units)) }
{
    value(attr, bytes)
}

/// The same, by the shortest way for each attribute.
#[inline(always)]
fn units_in(attr: Attr, bytes: &[u8]) -> Option<i128>
    ensures value { result ≡ value_of attr bytes.now }
    ensures fits { IfSome result (λ units. IsTrue (fits attr units)) }
{
    match attr {
        Attr::Packed { digits, fraction } if digits <= 18 => {
            value(Attr::Packed { digits, fraction }, bytes)
        }
        _ => other_value(attr, bytes),
    }
}

/// The number that the bytes hold. `DecimalData` exactly where they have no value.
#[inline(always)]
pub fn read_scalar(attr: Attr, bytes: &[u8]) -> Result<Dec, DecimalFault>
    ensures value { MatchResult result
        (λ number. value_of attr bytes.now ≡ Some number.units)
        (λ fault. (fault ≡ DecimalFault.DecimalData) × (value_of attr bytes.now ≡ None)) }
    ensures attr { IfOk result (λ number. number.attr ≡ attr) }
{
    match units_in(attr, bytes) {
        Some(units) => Ok(Dec { units, attr }),
        None => Err(DecimalFault::DecimalData),
    }
}

/// The units of a packed number of up to 18 digits, which 64 bits hold.
#[inline(always)]
#[tactic(auto, using(crate::proofs::Attributes::short_below))]
fn short_units(digits: u8, fraction: u8, bytes: &[u8]) -> Option<i64>
    requires { digits ≤ 18 }
    ensures value { result ≡ value_of (Attr.Packed digits fraction) bytes.now }
    ensures fits { IfSome result (λ units. IsTrue (fits (Attr.Packed digits fraction) units)) }
    ensures short { IfSome result (λ units. unsigned_abs units < 10 ^ 18) }
{
    match value(Attr::Packed { digits, fraction }, bytes) {
        Some(units) => Some(units as i64),
        None => None,
    }
}

/// The packed number of up to 18 digits that the bytes hold. None exactly where the attribute is another one or
/// the bytes have no value.
#[inline(always)]
#[tactic(auto, unfolding(s38_base::specs::Scalar::value_of))]
pub fn read_short(attr: Attr, bytes: &[u8]) -> Option<Dec>
    ensures value { option_map (λ d. d.units) result ≡ (if is_short attr then value_of attr bytes.now else None) }
    ensures attr { IfSome result (λ d. d.attr ≡ attr) }
    ensures short { IfSome result (λ d. unsigned_abs d.units < 10 ^ 18) }
{
    match attr {
        Attr::Packed { digits, fraction } if 1 <= digits && digits <= 18 => {
            match short_units(digits, fraction, bytes) {
                Some(units) => Some(Dec {
                    units: i128::from(units),
                    attr,
                }),
                None => None,
            }
        }
        _ => None,
    }
}
