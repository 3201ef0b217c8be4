ghost use Rattle.std.specs.Prelude.{◌≡◌, ◌≤◌, length, IfOk};
ghost use Rattle.std.specs.Option.{option_map};
ghost use Rattle.s38_odt.specs.First.{blank_filled, blank_of, initial_bytes, literal_held, text_held};

use crate::image::{number_held, units_held};
use s38_base::{Attr, Bytes, NoMemory};
use s38_words::{number, text_value};
use std::alloc::Global;

/// A blank in EBCDIC.
const BLANK: u8 = 0x40;

/// The text, filled with blanks.
fn filled(text: Bytes, len: usize) -> Result<Bytes, NoMemory>
    requires { length text ≤ len }
    ensures { IfOk result (λ bytes. bytes ≡ blank_filled len text) }
{
    let mut bytes = text;
    bytes.resize(len, BLANK)?;
    Ok(bytes)
}

/// The bytes of a text; None exactly where the attribute does not hold it.
fn text_held(attr: Attr, text: Bytes) -> Result<Option<Bytes>, NoMemory>
    ensures { IfOk result (λ bytes. bytes ≡ text_held attr text) }
{
    match attr {
        Attr::Chars { len } => {
            if text.len() > len as usize {
                return Ok(None);
            }
            Ok(Some(filled(text, len as usize)?))
        }
        _ => Ok(None),
    }
}

/// With which bytes a variable begins without a literal: numbers as plus 0, bytes as blanks, pointers as none.
pub fn blank(alloc: Global, attr: Attr) -> Result<Option<Bytes>, NoMemory>
    ensures { IfOk result (λ bytes. bytes ≡ blank_of attr) }
{
    match attr {
        Attr::Chars { len } => Ok(Some(Bytes::repeated(alloc, BLANK, len as usize)?)),
        Attr::Pointer => Ok(Some(Bytes::new(alloc))),
        _ => units_held(alloc, attr, 0),
    }
}

/// The bytes of a literal; None exactly where the attribute does not hold it exactly.
#[tactic(auto, unfolding(s38_base::specs::Scalar::fits))]
fn literal_held(alloc: Global, attr: Attr, literal: &[u8]) -> Result<Option<Bytes>, NoMemory>
    ensures { IfOk result (λ bytes. bytes ≡ literal_held attr literal.now) }
{
    match number(literal) {
        Some(number) => number_held(alloc, attr, number),
        None => match text_value(alloc, literal)? {
            Some(text) => text_held(attr, text),
            None => Ok(None),
        },
    }
}

/// The bytes with which a variable begins, with a literal or without one; None exactly where the attribute
/// does not hold the literal exactly.
pub fn first(alloc: Global, attr: Attr, literal: Option<&[u8]>) -> Result<Option<Bytes>, NoMemory>
    ensures { IfOk result (λ bytes. bytes ≡ initial_bytes attr (option_map (λ text. text.now) literal.entry)) }
{
    match literal {
        None => blank(alloc, attr),
        Some(literal) => literal_held(alloc, attr, literal),
    }
}
