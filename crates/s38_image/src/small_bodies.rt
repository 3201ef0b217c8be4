//! Bodies of a few fields: profiles, cursors, ports and commit blocks.
ghost use Rattle.std.specs.Prelude.{◌≡◌};
ghost use Rattle.s38_codec.specs.Codec.{whole};
ghost use Rattle.s38_codec.specs.Reading.{Gives};
ghost use Rattle.s38_image.specs.Bodies.{block, cursor, is_special_byte, port, profile_form};

use crate::heads::object_at;
use s38_base::Special;
use s38_codec::{ReadFault, byte_at, u32_at};
use s38_rules::{Block, Cursor, Port};

/// No bit but those of the two special authorities.
fn is_special(bits: u8) -> bool
    ensures { result ≡ is_special_byte bits }
{
    matches!(bits, 0 | 0x40 | 0x80 | 0xC0)
}

/// The special authorities and the limit of a user.
pub fn profile_in(bytes: &[u8]) -> Result<(Special, u32), ReadFault>
    ensures { Gives (λ x. x) result (whole profile_form bytes.now) }
{
    let (bits, rest) = byte_at(bytes)?;
    if !is_special(bits) {
        return Err(ReadFault::BadForm);
    }
    let (limit, rest) = u32_at(rest)?;
    if !rest.is_empty() {
        return Err(ReadFault::BadForm);
    }
    Ok((Special(bits), limit))
}

/// A cursor.
pub fn cursor_in(bytes: &[u8]) -> Result<Cursor, ReadFault>
    ensures { Gives (λ x. x) result (whole cursor bytes.now) }
{
    let (space, rest) = object_at(bytes)?;
    let (block, rest) = object_at(rest)?;
    let (position, rest) = u32_at(rest)?;
    if !rest.is_empty() {
        return Err(ReadFault::BadForm);
    }
    Ok(Cursor {
        space,
        block,
        position,
    })
}

/// A journal port.
pub fn port_in(bytes: &[u8]) -> Result<Port, ReadFault>
    ensures { Gives (λ x. x) result (whole port bytes.now) }
{
    let (journal, rest) = object_at(bytes)?;
    if !rest.is_empty() {
        return Err(ReadFault::BadForm);
    }
    Ok(Port { journal })
}

/// A commit block.
pub fn block_in(bytes: &[u8]) -> Result<Block, ReadFault>
    ensures { Gives (λ x. x) result (whole block bytes.now) }
{
    let (port, rest) = object_at(bytes)?;
    if !rest.is_empty() {
        return Err(ReadFault::BadForm);
    }
    Ok(Block { port })
}
