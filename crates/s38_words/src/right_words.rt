ghost use Rattle.std.specs.Prelude.{◌≡◌};
ghost use Rattle.std.specs.Option.{option_map};
ghost use Rattle.s38_words.specs.Row.{right_bits, right_name, rights_from, rights_spelled};

use crate::texts::{after_byte, before, is_word};

/// The bits of the rights, in the order in which a word names them.
const RIGHT_BITS: [u8; 8] = [0x80, 0x40, 0x20, 0x10, 0x08, 0x04, 0x02, 0x01];

/// The name of the right of a bit.
fn right_name(bit: u8) -> &'static [u8]
    ensures { result.now ≡ right_name bit }
{
    match bit {
        0x80 => b"OBJCTL",
        0x40 => b"OBJMGT",
        0x20 => b"AUTPTR",
        0x10 => b"SPACE",
        0x08 => b"RETRIEVE",
        0x04 => b"INSERT",
        0x02 => b"DELETE",
        _ => b"UPDATE",
    }
}

/// The rights that a text names, joined by `+` and in the order of these bits.
fn rights_from(bits: &[u8], text: &[u8]) -> Option<u8>
    ensures { result ≡ rights_from bits.now text.now }
{
    match bits {
        [] => None,
        [bit, bits @ ..] => {
            if !is_word(right_name(*bit), before(b'+', text)) {
                return rights_from(bits, text);
            }
            match after_byte(b'+', text) {
                None => Some(*bit),
                Some(rest) => match rights_from(bits, rest) {
                    None => None,
                    Some(more) => Some(*bit | more),
                },
            }
        }
    }
}

/// The bits of the rights that a word names: NONE, ALL for all eight, or the names of others in the order of
/// their bits, each once, joined by `+`.
#[tactic(auto, unfolding(crate::specs::Row::rights_spelled))]
pub fn rights(word: &[u8]) -> Option<u8>
    ensures { result ≡ rights_spelled word.now }
{
    if is_word(b"NONE", word) {
        return Some(0);
    }
    if is_word(b"ALL", word) {
        return Some(0xFF);
    }
    let bits = rights_from(&RIGHT_BITS, word)?;
    if bits == 0xFF { None } else { Some(bits) }
}
