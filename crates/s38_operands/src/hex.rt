//! Hexadecimal characters at an operand, looked for without memory.
ghost use Rattle.std.specs.Prelude.{◌≡◌, ◌+◌, ◌≤◌, [], drop, take, true};
ghost use Rattle.std.specs.Option.{option_copied, unwrap_or};
ghost use Rattle.s38_memory.specs.Tagged.{bytes_in, is_within};
ghost use Rattle.s38_rules.specs.state.Cells.{bytes_there};
ghost use Rattle.s38_rules.specs.ask.Operands.{bytes_of};
ghost use Rattle.s38_strings.specs.Hex.{are_hex};

use s38_base::Pointer;
use s38_code::Operand;
use s38_compute::are_hex;
use s38_memory::Tagged;
use s38_objects::Objects;

/// How many bytes of a space are looked at together.
const CHUNK: u16 = 64;

fn is_hex_chunk(space: &Tagged, at: u32, len: u16) -> bool
    requires short { len ≤ 64 }
    requires within { is_within at len space.now ≡ true }
    ensures { result ≡ are_hex (take len (drop at (bytes_in space.now))) }
{
    let mut buffer = [0; CHUNK as usize];
    let into = &mut buffer[..len as usize];
    match space.read(at, into) {
        Ok(()) => are_hex(into),
        Err(_) => true,
    }
}

fn is_hex_piece(space: &Tagged, at: u32, len: u16) -> bool
    requires near { at + len ≤ 16777216 }
    requires within { is_within at len space.now ≡ true }
    ensures { result ≡ are_hex (take len (drop at (bytes_in space.now))) }
{
    if len <= CHUNK {
        return is_hex_chunk(space, at, len);
    }
    is_hex_chunk(space, at, CHUNK) && is_hex_piece(space, at + CHUNK as u32, len - CHUNK)
}

fn are_hex_in(space: Option<&Tagged>, at: u64, len: u16) -> bool
    ensures { result ≡ are_hex (bytes_there (unwrap_or (option_copied space.entry) []) at len) }
{
    match space {
        None => true,
        Some(space) => {
            if !space.has_piece(at, len as usize) {
                return true;
            }
            is_hex_piece(space, at as u32, len)
        }
    }
}

/// Whether the bytes that are read are hexadecimal characters.
pub fn are_hex_of(objects: &Objects, source: Option<&Operand>) -> bool
    ensures { result ≡ are_hex (bytes_of objects.now (option_copied source.entry)) }
{
    match source {
        Some(Operand::Value { bytes, .. }) => are_hex(bytes.as_slice()),
        Some(Operand::InSpace { base, offset, attr }) => are_hex_in(
            objects.space(Pointer::target(base.get())),
            Pointer::start(base.get(), *offset),
            attr.length(),
        ),
        _ => true,
    }
}
