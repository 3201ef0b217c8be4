ghost use Rattle.std.specs.Prelude.{◌≡◌, ◌≤◌, ◌<◌, length, IsTrue, IfSome, nat_eq};
ghost use Rattle.std.specs.List.{starts_with};
ghost use Rattle.std.specs.Option.{option_map};
ghost use Rattle.s38_words.specs.Text.{after_byte, are_hex_digits, before, hex_byte, hex_digit_value, is_digit, is_hex_digit, is_letter, is_word, place_of, rest_after};

/// Whether two texts that both have a first byte begin with the same one.
#[inline(always)]
fn begin_alike(one: &[u8], other: &[u8]) -> bool
    ensures word { IsTrue (is_word one.now other.now) → IsTrue result }
    ensures front { IsTrue (starts_with nat_eq other.now one.now) → IsTrue result }
{
    match (one, other) {
        ([first, ..], [byte, ..]) => first == byte,
        _ => true,
    }
}

/// The text is this word.
#[inline(always)]
pub fn is_word(word: &[u8], text: &[u8]) -> bool
    ensures { result ≡ is_word word.now text.now }
{
    begin_alike(word, text) && text == word
}

/// Where the first such byte is; None where there is none.
#[inline(always)]
pub fn place_of(byte: u8, text: &[u8]) -> Option<usize>
    ensures place { result ≡ place_of byte text.now }
    ensures bound { IfSome result (λ at. at < length text.now) }
{
    text.iter().position(|b| *b == byte)
}

/// What comes before the first such byte, or all where there is none.
pub fn before(byte: u8, text: &[u8]) -> &[u8]
    ensures { result.now ≡ before byte text.now }
{
    match place_of(byte, text) {
        Some(at) => &text[..at],
        None => text,
    }
}

/// What comes after the first such byte; None where there is none.
pub fn after_byte(byte: u8, text: &[u8]) -> Option<&[u8]>
    ensures { option_map (λ rest. rest.now) result ≡ after_byte byte text.now }
{
    match place_of(byte, text) {
        Some(at) => Some(&text[at + 1..]),
        None => None,
    }
}

/// What comes before the first such byte, or all where there is none, and what comes after it.
#[inline(always)]
pub fn parted(byte: u8, text: &[u8]) -> (&[u8], Option<&[u8]>)
    ensures front { result.0.now ≡ before byte text.now }
    ensures back { option_map (λ rest. rest.now) result.1 ≡ after_byte byte text.now }
{
    match place_of(byte, text) {
        Some(at) => (&text[..at], Some(&text[at + 1..])),
        None => (text, None),
    }
}

/// Whether a text is at least as long as another and begins with its first byte.
#[inline(always)]
#[tactic(auto, using(crate::proofs::FrontLaws::starts_long))]
fn may_begin(front: &[u8], text: &[u8]) -> bool
    ensures { IsTrue (starts_with nat_eq text.now front.now) → IsTrue result }
{
    front.len() <= text.len() && begin_alike(front, text)
}

/// What comes after these bytes; None where the text does not begin with them.
#[inline(always)]
pub fn rest_after<'a>(front: &[u8], text: &'a [u8]) -> Option<&'a [u8]>
    ensures { option_map (λ rest. rest.now) result ≡ rest_after front.now text.now }
{
    if may_begin(front, text) {
        text.strip_prefix(front)
    } else {
        None
    }
}

pub fn is_letter(byte: u8) -> bool
    ensures { result ≡ is_letter byte }
{
    byte >= b'A' && byte <= b'Z'
}

pub fn is_digit(byte: u8) -> bool
    ensures { result ≡ is_digit byte }
{
    byte >= b'0' && byte <= b'9'
}

/// 0 to 9 and A to F.
pub fn is_hex_digit(byte: u8) -> bool
    ensures { result ≡ is_hex_digit byte }
{
    is_digit(byte) || (byte >= b'A' && byte <= b'F')
}

pub fn are_hex_digits(text: &[u8]) -> bool
    ensures { result ≡ are_hex_digits text.now }
{
    text.iter().all(|byte| is_hex_digit(*byte))
}

fn hex_value(digit: u8) -> u8
    requires { IsTrue (is_hex_digit digit) }
    ensures value { result ≡ hex_digit_value digit }
    ensures small { result ≤ 15 }
{
    if digit <= b'9' {
        digit - b'0'
    } else {
        digit - b'7'
    }
}

/// The byte that two hexadecimal digits spell.
pub fn hex_byte(high: u8, low: u8) -> u8
    requires high { IsTrue (is_hex_digit high) }
    requires low { IsTrue (is_hex_digit low) }
    ensures { result ≡ hex_byte high low }
{
    16 * hex_value(high) + hex_value(low)
}
