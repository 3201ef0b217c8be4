ghost use Rattle.std.specs.Prelude.{◌≡◌};
ghost use Rattle.s38_words.specs.Name.{begins_with_letter, declared_name, exception_code_of, id_spelled, kind_spelled, object_name, subtype_of};

use crate::texts::{after_byte, are_hex_digits, before, hex_byte, is_letter, is_word};
use s38_base::{Id, Kind, Name};

/// The name of an object or of a user that a text is: 1 to 30 of A to Z and 0 to 9.
pub fn object_name(text: &[u8]) -> Option<Name>
    ensures { result ≡ object_name text.now }
{
    Name::parse(text).ok()
}

fn begins_with_letter(text: &[u8]) -> bool
    ensures { result ≡ begins_with_letter text.now }
{
    match text {
        [first, ..] => is_letter(*first),
        [] => false,
    }
}

/// The name of a template, a job, a declaration or a label that a text is: it begins with a letter.
pub fn declared_name(text: &[u8]) -> Option<Name>
    ensures { result ≡ declared_name text.now }
{
    if begins_with_letter(text) {
        object_name(text)
    } else {
        None
    }
}

#[tactic(auto, unfolding(crate::specs::Name::kind_spelled))]
fn kind(word: &[u8]) -> Option<Kind>
    ensures { result ≡ kind_spelled word.now }
{
    if is_word(b"CONTEXT", word) {
        Some(Kind::Context)
    } else if is_word(b"PROGRAM", word) {
        Some(Kind::Program)
    } else if is_word(b"PROFILE", word) {
        Some(Kind::Profile)
    } else if is_word(b"SPACE", word) {
        Some(Kind::Space)
    } else if is_word(b"QUEUE", word) {
        Some(Kind::Queue)
    } else if is_word(b"INDEX", word) {
        Some(Kind::Index)
    } else if is_word(b"DATASPACE", word) {
        Some(Kind::DataSpace)
    } else if is_word(b"CURSOR", word) {
        Some(Kind::Cursor)
    } else if is_word(b"JPORT", word) {
        Some(Kind::Port)
    } else if is_word(b"JSPACE", word) {
        Some(Kind::Journal)
    } else if is_word(b"CBLOCK", word) {
        Some(Kind::Block)
    } else {
        None
    }
}

fn subtype(word: &[u8]) -> Option<u8>
    ensures { result ≡ subtype_of word.now }
{
    if word.len() == 2 && are_hex_digits(word) {
        return Some(hex_byte(word[0], word[1]));
    }
    None
}

/// The identification that a word spells: a kind, two hexadecimal digits and a name, parted by `/`.
#[tactic(auto, unfolding(crate::specs::Name::id_spelled))]
pub fn identification(word: &[u8]) -> Option<Id>
    ensures { result ≡ id_spelled word.now }
{
    let rest = after_byte(b'/', word)?;
    let kind = kind(before(b'/', word))?;
    let sub = subtype(before(b'/', rest))?;
    let name = object_name(after_byte(b'/', rest)?)?;
    Some(Id { kind, sub, name })
}

/// The number of an exception that four hexadecimal digits spell.
pub fn exception_code(word: &[u8]) -> Option<u16>
    ensures { result ≡ exception_code_of word.now }
{
    if word.len() == 4 && are_hex_digits(word) {
        let high = u16::from(hex_byte(word[0], word[1]));
        return Some(256 * high + u16::from(hex_byte(word[2], word[3])));
    }
    None
}
