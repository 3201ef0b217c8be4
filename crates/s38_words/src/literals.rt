ghost use Rattle.std.specs.Prelude.{◌≡◌, ◌+◌, ◌/◌, ◌^◌, ◌<◌, ◌≤◌, length, map, IsTrue, IfOk, is_some};
ghost use Rattle.std.specs.List.{list_all, range_with_len};
ghost use Rattle.std.specs.Option.{option_map};
ghost use Rattle.s38_base.specs.Scalar.{digit_at, sign_of};
ghost use Rattle.s38_words.specs.Text.{are_hex_digits};
ghost use Rattle.s38_words.specs.Literal.{ebcdic, hex_bytes, is_hex_text, is_text_byte, number_literal, packed_with, quoted, spelled_byte, text_bytes, text_literal, text_of};

use crate::numbers::number;
use crate::texts::{are_hex_digits, hex_byte, is_digit, is_letter};
use s38_base::{Attr, Bytes, NoMemory};
use s38_code::Arg;
use std::alloc::Global;

/// What is between a quote that begins the text and a quote that ends it.
fn quoted(text: &[u8]) -> Option<&[u8]>
    ensures { option_map (λ inner. inner.now) result ≡ quoted text.now }
{
    if text.len() >= 2 && text[0] == b'\'' && text[text.len() - 1] == b'\'' {
        return Some(&text[1..text.len() - 1]);
    }
    None
}

fn is_text_byte(byte: u8) -> bool
    ensures { result ≡ is_text_byte byte }
{
    byte == b' ' || is_letter(byte) || is_digit(byte)
}

fn are_text_bytes(text: &[u8]) -> bool
    ensures { result ≡ list_all is_text_byte text.now }
{
    text.iter().all(|byte| is_text_byte(*byte))
}

/// The byte in EBCDIC.
fn ebcdic(byte: u8) -> u8
    requires { IsTrue (is_text_byte byte) }
    ensures { result ≡ ebcdic byte }
{
    if byte == b' ' {
        0x40
    } else if byte <= b'9' {
        byte + 0xC0
    } else if byte <= b'I' {
        byte + 0x80
    } else if byte <= b'R' {
        byte + 0x87
    } else {
        byte + 0x8F
    }
}

fn translated(alloc: Global, text: &[u8]) -> Result<Bytes, NoMemory>
    requires { IsTrue (list_all is_text_byte text.now) }
    ensures { IfOk result (λ bytes. bytes ≡ map ebcdic text.now) }
{
    let mut bytes = Bytes::new(alloc);
    for byte in text {
        bytes.push(ebcdic(*byte))?;
    }
    Ok(bytes)
}

fn text_bytes(alloc: Global, text: &[u8]) -> Result<Option<Bytes>, NoMemory>
    ensures { IfOk result (λ bytes. bytes ≡ text_bytes text.now) }
{
    if !are_text_bytes(text) {
        return Ok(None);
    }
    Ok(Some(translated(alloc, text)?))
}

fn spelled(alloc: Global, digits: &[u8]) -> Result<Bytes, NoMemory>
    requires { IsTrue (are_hex_digits digits.now) }
    ensures { IfOk result (λ bytes. bytes ≡ map (spelled_byte digits.now) (range_with_len 0 (length digits.now / 2))) }
{
    let mut bytes = Bytes::new(alloc);
    for k in 0..digits.len() / 2 {
        bytes.push(hex_byte(digits[2 * k], digits[2 * k + 1]))?;
    }
    Ok(bytes)
}

/// Hexadecimal digits, two for each byte.
fn is_hex_text(digits: &[u8]) -> bool
    ensures { result ≡ is_hex_text digits.now }
{
    are_hex_digits(digits) && digits.len() % 2 == 0
}

fn hex_bytes(alloc: Global, digits: &[u8]) -> Result<Option<Bytes>, NoMemory>
    ensures { IfOk result (λ bytes. bytes ≡ hex_bytes digits.now) }
{
    if !is_hex_text(digits) {
        return Ok(None);
    }
    Ok(Some(spelled(alloc, digits)?))
}

/// The bytes that a text literal spells.
#[tactic(auto, unfolding(crate::specs::Literal::text_of))]
pub fn text_value(alloc: Global, text: &[u8]) -> Result<Option<Bytes>, NoMemory>
    ensures { IfOk result (λ bytes. bytes ≡ text_of text.now) }
{
    if !text.is_empty() && text[0] == b'X' {
        return match quoted(&text[1..]) {
            Some(digits) => hex_bytes(alloc, digits),
            None => Ok(None),
        };
    }
    match quoted(text) {
        Some(inner) => text_bytes(alloc, inner),
        None => Ok(None),
    }
}

/// Whether a text is a text literal.
#[tactic(auto, unfolding(crate::specs::Literal::text_of))]
pub fn is_text(text: &[u8]) -> bool
    ensures { result ≡ is_some (text_of text.now) }
{
    if !text.is_empty() && text[0] == b'X' {
        return match quoted(&text[1..]) {
            Some(digits) => is_hex_text(digits),
            None => false,
        };
    }
    match quoted(text) {
        Some(inner) => are_text_bytes(inner),
        None => false,
    }
}

/// The operand that a text literal is: bytes of its length.
#[tactic(auto, unfolding(crate::specs::Literal::text_literal))]
pub fn text_literal(alloc: Global, text: &[u8]) -> Result<Option<Arg>, NoMemory>
    ensures { IfOk result (λ literal. literal ≡ text_literal text.now) }
{
    let Some(bytes) = text_value(alloc, text)? else {
        return Ok(None);
    };
    if bytes.len() > 255 {
        return Ok(None);
    }
    Ok(Some(Arg::Literal {
        attr: Attr::Chars {
            len: bytes.len() as u16,
        },
        bytes,
    }))
}

/// The digit of a number that has k digits after it.
fn digit_at(number: u128, k: u8) -> u8
    requires { k ≤ 31 }
    ensures value { result ≡ digit_at 10 number k }
    ensures small { result ≤ 9 }
{
    (number / 10_u128.pow(u32::from(k)) % 10) as u8
}

/// F is plus and D minus.
fn sign_of(units: i128) -> u8
    ensures value { result ≡ sign_of units }
    ensures half { result < 16 }
{
    if units < 0 { 13 } else { 15 }
}

/// A packed number of so many bytes and one more.
fn packed(alloc: Global, number: u128, sign: u8, last: u8) -> Result<Bytes, NoMemory>
    requires last { last ≤ 15 }
    requires sign { sign < 16 }
    ensures { IfOk result (λ bytes. bytes ≡ map (packed_with last number sign) (range_with_len 0 (last + 1))) }
{
    let mut bytes = Bytes::new(alloc);
    for k in 0..last + 1 {
        let high = digit_at(number, 2 * (last - k));
        let low = if k == last {
            sign
        } else {
            digit_at(number, 2 * (last - k) - 1)
        };
        bytes.push(high * 16 + low)?;
    }
    Ok(bytes)
}

/// The operand that a numeric literal is: a packed number of as many digits as are written.
#[tactic(auto, unfolding(crate::specs::Literal::number_literal, s38_base::specs::Scalar::scalar_image, s38_base::specs::Scalar::fits))]
pub fn number_literal(alloc: Global, text: &[u8]) -> Result<Option<Arg>, NoMemory>
    ensures { IfOk result (λ literal. literal ≡ number_literal text.now) }
{
    let Some(number) = number(text) else {
        return Ok(None);
    };
    let units = number.units;
    let last = number.digits / 2;
    let bytes = packed(alloc, units.unsigned_abs(), sign_of(units), last)?;
    Ok(Some(Arg::Literal {
        attr: Attr::Packed {
            digits: number.digits,
            fraction: number.fraction,
        },
        bytes,
    }))
}
