ghost use Rattle.std.specs.Prelude.{◌≡◌, ◌<◌, ◌*◌, Ok, Err, length, IsTrue, if◌then◌else◌};
ghost use Rattle.std.specs.Result.{OkIff};
ghost use Rattle.s38_strings.specs.Hex.{are_hex, bytes_spelled, character_at, hex_character, hex_value, is_hex, read};

use thiserror::Error;

/// A byte is no hexadecimal character.
#[derive(Clone, Copy, PartialEq, Eq, Debug, Error)]
#[error("not a hexadecimal character")]
pub struct Conversion;

fn hex_character(half: u8) -> u8
    requires { half < 16 }
    ensures { result ≡ hex_character half }
{
    if half < 10 { 0xF0 + half } else { 0xB7 + half }
}

fn character_at(from: &[u8], k: usize) -> u8
    requires { k < 2 * length from.now }
    ensures { result ≡ character_at from.now k }
{
    let byte = from[k / 2];
    hex_character(if k % 2 == 0 { byte / 16 } else { byte % 16 })
}

/// Writes the bytes in hexadecimal, two characters for each.
pub fn to_hex(into: &mut [u8], from: &[u8])
    requires { length into.old ≡ 2 * length from.now }
    ensures { into.new ≡ bytes_spelled from.now (length into.old) }
{
    for k in 0..into.len() {
        into[k] = character_at(from, k);
    }
}

fn is_hex(c: u8) -> bool
    ensures { result ≡ is_hex c }
{
    (0xF0 <= c && c <= 0xF9) || (0xC1 <= c && c <= 0xC6)
}

fn are_hex(from: &[u8]) -> bool
    ensures { result ≡ are_hex from.now }
{
    from.iter().all(|c| is_hex(*c))
}

fn hex_value(c: u8) -> u8
    requires { IsTrue (is_hex c) }
    ensures value { result ≡ hex_value c }
    ensures half { result < 16 }
{
    if 0xF0 <= c { c - 0xF0 } else { c - 0xB7 }
}

fn read(into: &mut [u8], from: &[u8])
    requires long { length from.now ≡ 2 * length into.old }
    requires hex { IsTrue (are_hex from.now) }
    ensures { into.new ≡ read from.now (length into.old) }
{
    for k in 0..into.len() {
        into[k] = hex_value(from[2 * k]) * 16 + hex_value(from[2 * k + 1]);
    }
}

/// Reads bytes that are written in hexadecimal. `Conversion` exactly where a byte is no hexadecimal
/// character; nothing is written then.
pub fn from_hex(into: &mut [u8], from: &[u8]) -> Result<(), Conversion>
    requires { length from.now ≡ 2 * length into.old }
    ensures answer { result ≡ (if are_hex from.now then Ok tt else Err record {}) }
    ensures bytes { into.new ≡ (if are_hex from.now then read from.now (length into.old) else into.old) }
{
    if !are_hex(from) {
        return Err(Conversion);
    }
    read(into, from);
    Ok(())
}
