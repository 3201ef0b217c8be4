ghost use Rattle.std.specs.Prelude.{◌≡◌, ◌^◌, ◌<◌, ◌≤◌, [], IfOk, IfSome, map};
ghost use Rattle.std.specs.Option.{option_map};
ghost use Rattle.s38_words.specs.Attribute.{attr_spelled, attrs_from, attrs_of, decimal_size, field_of, parts, sized};

use crate::numbers::natural;
use crate::texts::{after_byte, before, is_word};
use s38_base::{Attr, AttrList, NoMemory, Seq};
use std::alloc::{AllocError, Global};

/// The number of a field of 8 bits.
fn small_field(text: &[u8]) -> Option<u8>
    ensures { result ≡ field_of 255 text.now }
{
    match natural(text) {
        Some(number) => Some(number.min(255) as u8),
        None => None,
    }
}

/// The number of a field of 16 bits.
fn field(text: &[u8]) -> Option<u16>
    ensures { result ≡ field_of 65535 text.now }
{
    match natural(text) {
        Some(number) => Some(number.min(65535) as u16),
        None => None,
    }
}

/// Digits, and how many of them are after the point.
fn decimal_size(text: &[u8]) -> Option<(u8, u8)>
    ensures { result ≡ decimal_size text.now }
{
    let digits = small_field(before(b':', text))?;
    let fraction = small_field(after_byte(b':', text)?)?;
    Some((digits, fraction))
}

fn sized(kind: &[u8], size: &[u8]) -> Option<Attr>
    ensures { result ≡ sized kind.now size.now }
{
    if is_word(b"CHAR", kind) {
        let len = field(size)?;
        return Some(Attr::Chars { len });
    }
    if is_word(b"PKD", kind) {
        let (digits, fraction) = decimal_size(size)?;
        return Some(Attr::Packed { digits, fraction });
    }
    if is_word(b"ZND", kind) {
        let (digits, fraction) = decimal_size(size)?;
        return Some(Attr::Zoned { digits, fraction });
    }
    None
}

/// The attribute that a word spells: PKD:d:f, ZND:d:f, BIN:2, BIN:4, CHAR:n or PTR. A number that is too large
/// for its field is taken as the largest, which is out of bounds as it is.
#[tactic(auto, unfolding(crate::specs::Attribute::attr_spelled))]
pub fn attribute(word: &[u8]) -> Option<Attr>
    ensures { result ≡ attr_spelled word.now }
{
    if is_word(b"PTR", word) {
        return Some(Attr::Pointer);
    }
    if is_word(b"BIN:2", word) {
        return Some(Attr::Binary { size: 2 });
    }
    if is_word(b"BIN:4", word) {
        return Some(Attr::Binary { size: 4 });
    }
    match after_byte(b':', word) {
        Some(size) => sized(before(b':', word), size),
        None => None,
    }
}

/// The words of a text, parted by `+`.
fn parts(alloc: Global, word: &[u8]) -> Result<Vec<&[u8]>, AllocError>
    ensures { IfOk result (λ list. map (λ part. part.now) list.items ≡ parts word.now) }
{
    word.split(|byte| *byte == b'+').collect(alloc)
}

fn attributes_of(alloc: Global, words: &[&[u8]]) -> Result<Option<AttrList>, NoMemory>
    ensures { IfOk result (λ attrs. attrs ≡ attrs_from [] (map (λ word. word.now) words.now)) }
{
    let mut attrs = Vec::new(alloc);
    for word in words {
        let Some(attr) = attribute(word) else {
            return Ok(None);
        };
        attrs.push(attr)?;
    }
    Ok(Some(Seq::from_vec(attrs)))
}

/// The attributes that a word spells, joined by `+`.
pub fn attributes(alloc: Global, word: &[u8]) -> Result<Option<AttrList>, NoMemory>
    ensures { IfOk result (λ attrs. attrs ≡ attrs_of word.now) }
{
    let words = parts(alloc, word)?;
    attributes_of(alloc, words.as_slice())
}
