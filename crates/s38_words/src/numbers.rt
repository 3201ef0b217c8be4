ghost use Rattle.std.specs.Prelude.{◌≡◌, ◌+◌, ◌-◌, ◌^◌, ◌<◌, ◌≤◌, length, IsTrue, IfSome};
ghost use Rattle.std.specs.Option.{option_map};
ghost use Rattle.s38_base.specs.Scalar.{fits, with_minus};
ghost use Rattle.s38_base.specs.declared.attr.Attr.{Attr};
ghost use Rattle.s38_words.specs.Number.{are_digits, capped, fraction_digits, has_minus, is_fraction, is_number, is_numeral, is_signed_whole, is_whole_number, natural_of, number_spelled, numeral_from, unsigned_number, value_after, value_of_digits, whole_spelled, without_minus};

use crate::texts::{after_byte, before, is_digit};

/// The most digits of a literal.
const MOST_DIGITS: usize = 31;

/// A number as it is written: all its digits as one whole number, how many digits there are, and how many of
/// them are after the point.
#[derive(Clone, Copy, PartialEq, Eq, Debug)]
pub struct Numeral {
    pub units: i128,
    pub digits: u8,
    pub fraction: u8,
}

fn are_digits(text: &[u8]) -> bool
    ensures { result ≡ are_digits text.now }
{
    text.iter().all(|byte| is_digit(*byte))
}

/// One digit or more.
fn is_numeral(text: &[u8]) -> bool
    ensures { result ≡ is_numeral text.now }
{
    !text.is_empty() && are_digits(text)
}

/// Digits without a leading zero.
fn is_whole(text: &[u8]) -> bool
    ensures { result ≡ is_whole_number text.now }
{
    is_numeral(text) && (text.len() == 1 || text[0] != b'0')
}

/// The number that digits write where they follow those of another, or the largest number where it is too large.
fn value_after(start: u128, digits: &[u8]) -> u128
    requires { IsTrue (are_digits digits.now) }
    ensures { result ≡ capped (2 ^ 128 - 1) (value_after start digits.now) }
{
    let mut value = start;
    for digit in digits {
        value = value
            .saturating_mul(10)
            .saturating_add(u128::from(*digit - b'0'));
    }
    value
}

/// The number that decimal digits without a leading zero write; where it is too large for 64 bits, the
/// largest. None where the text is not such digits.
#[tactic(auto, unfolding(crate::specs::Number::natural_of))]
pub fn natural(text: &[u8]) -> Option<u64>
    ensures { result ≡ option_map (capped (2 ^ 64 - 1)) (natural_of text.now) }
{
    if is_whole(text) {
        Some(value_after(0, text).min(u128::from(u64::MAX)) as u64)
    } else {
        None
    }
}

fn has_minus(text: &[u8]) -> bool
    ensures { result ≡ has_minus text.now }
{
    match text {
        [first, ..] => *first == b'-',
        [] => false,
    }
}

fn without_minus(text: &[u8]) -> &[u8]
    ensures { result.now ≡ without_minus text.now }
{
    if has_minus(text) { &text[1..] } else { text }
}

/// A number and its sign.
pub fn signed(minus: bool, number: u128) -> i128
    requires { number < 2 ^ 127 }
    ensures { result ≡ with_minus minus number }
{
    if minus {
        -(number as i128)
    } else {
        number as i128
    }
}

/// The number that a whole literal writes: at most 31 digits without a leading zero, perhaps after a minus.
#[tactic(auto, unfolding(crate::specs::Number::whole_spelled))]
pub fn whole(text: &[u8]) -> Option<i128>
    ensures { result ≡ whole_spelled text.now }
{
    let digits = without_minus(text);
    if is_whole(digits) && digits.len() <= MOST_DIGITS {
        Some(signed(has_minus(text), value_after(0, digits)))
    } else {
        None
    }
}

fn is_fraction(back: Option<&[u8]>) -> bool
    ensures { result ≡ is_fraction (option_map (λ digits. digits.now) back.entry) }
{
    match back {
        None => true,
        Some(digits) => is_numeral(digits),
    }
}

fn fraction_digits(back: Option<&[u8]>) -> &[u8]
    ensures { result.now ≡ fraction_digits (option_map (λ digits. digits.now) back.entry) }
{
    match back {
        None => &[],
        Some(digits) => digits,
    }
}

/// Digits come before the point and after it, 31 at most.
fn is_number(front: &[u8], back: Option<&[u8]>) -> bool
    ensures { result ≡ is_number front.now (option_map (λ digits. digits.now) back.entry) }
{
    is_numeral(front)
        && is_fraction(back)
        && front.len() <= MOST_DIGITS
        && fraction_digits(back).len() <= MOST_DIGITS - front.len()
}

/// The number of these digits, some before the point and some after it.
fn number_from(minus: bool, front: &[u8], back: &[u8]) -> Numeral
    requires front { IsTrue (are_digits front.now) }
    requires back { IsTrue (are_digits back.now) }
    requires few { length front.now + length back.now ≤ 31 }
    ensures { result ≡ numeral_from minus front.now back.now }
{
    let units = value_after(value_after(0, front), back);
    Numeral {
        units: signed(minus, units),
        digits: (front.len() + back.len()) as u8,
        fraction: back.len() as u8,
    }
}

fn unsigned_number(minus: bool, text: &[u8]) -> Option<Numeral>
    ensures { result ≡ unsigned_number minus text.now }
{
    let front = before(b'.', text);
    let back = after_byte(b'.', text);
    if is_number(front, back) {
        Some(number_from(minus, front, fraction_digits(back)))
    } else {
        None
    }
}

/// The number that a numeric literal writes: 1 to 31 digits with a point among them or none, perhaps after a
/// minus. A packed number of so many digits holds it.
#[tactic(auto, unfolding(crate::specs::Number::number_spelled))]
pub fn number(text: &[u8]) -> Option<Numeral>
    ensures number { result ≡ number_spelled text.now }
    ensures fits { IfSome result (λ n. IsTrue (fits (Attr.Packed n.digits n.fraction) n.units)) }
{
    unsigned_number(has_minus(text), without_minus(text))
}
