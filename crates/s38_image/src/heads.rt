//! The fields of a header and of rows, read at the front of bytes.
ghost use Rattle.std.specs.Prelude.{◌≡◌, None, Some, length, take, if◌then◌else◌};
ghost use Rattle.s38_codec.specs.Codec.{byte, byte_is_zero, only};
ghost use Rattle.s38_codec.specs.Formats.{u32 as word};
ghost use Rattle.s38_codec.specs.Reading.{Gives};
ghost use Rattle.s38_image.specs.Headers.{header, is_kind, is_mark, is_padded, kind, kind_by, mark, name, object_number_form, rights, row_form};

use crate::header::Header;
use s38_base::{Id, Kind, Name, ObjNum, Rights};
use s38_codec::{ReadFault, byte_at, bytes_at, is_zeros, u16_at, u32_at, u64_at};
use s38_rules::PrivateRow;

/// The mark of a header.
pub const HEADER_MARK: u32 = 0x5333_3848;

/// How many bytes of a header's page say nothing.
const UNUSED: usize = 448;

/// The number of an object.
pub fn object_at(from: &[u8]) -> Result<(ObjNum, &[u8]), ReadFault>
    ensures { Gives (λ x. (x.0, x.1.now)) result (object_number_form.read from.now) }
{
    let (number, rest) = u64_at(from)?;
    Ok((ObjNum(number), rest))
}

/// Rights, one bit each.
fn rights_at(from: &[u8]) -> Result<(Rights, &[u8]), ReadFault>
    ensures { Gives (λ x. (x.0, x.1.now)) result (rights.read from.now) }
{
    let (bits, rest) = byte_at(from)?;
    Ok((Rights(bits), rest))
}

/// The kind of a number.
fn kind_of(code: u8) -> Option<Kind>
    ensures { result ≡ (if is_kind code then Some (kind_by code) else None) }
{
    match code {
        1 => Some(Kind::Context),
        2 => Some(Kind::Program),
        3 => Some(Kind::Profile),
        4 => Some(Kind::Space),
        5 => Some(Kind::Queue),
        6 => Some(Kind::Index),
        7 => Some(Kind::DataSpace),
        8 => Some(Kind::Cursor),
        9 => Some(Kind::Port),
        10 => Some(Kind::Journal),
        11 => Some(Kind::Block),
        _ => None,
    }
}

/// The number of a kind, 1 to 11.
fn kind_at(from: &[u8]) -> Result<(Kind, &[u8]), ReadFault>
    ensures { Gives (λ x. (x.0, x.1.now)) result (kind.read from.now) }
{
    let (code, rest) = byte_at(from)?;
    match kind_of(code) {
        Some(kind) => Ok((kind, rest)),
        None => Err(ReadFault::BadForm),
    }
}

/// The name in thirty bytes, of which the first so many are its text, and the others are zero.
fn name_in(len: u16, text: &[u8]) -> Result<Name, ReadFault>
    requires { length text.now ≡ 30 }
    ensures { Gives (λ name. name) result (if is_padded (len, text.now) then Some (take len text.now) else None) }
{
    if len > 30 {
        return Err(ReadFault::BadForm);
    }
    let (front, rest) = text.split_at(usize::from(len));
    if !is_zeros(rest) {
        return Err(ReadFault::BadForm);
    }
    match Name::parse(front) {
        Ok(name) => Ok(name),
        Err(_) => Err(ReadFault::BadForm),
    }
}

/// A name's length, and its text in thirty bytes.
fn name_at(from: &[u8]) -> Result<(Name, &[u8]), ReadFault>
    ensures { Gives (λ x. (x.0, x.1.now)) result (name.read from.now) }
{
    let (len, rest) = u16_at(from)?;
    let (text, rest) = bytes_at(30, rest)?;
    let name = name_in(len, text)?;
    Ok((name, rest))
}

/// A zero byte.
fn zero_at(from: &[u8]) -> Result<&[u8], ReadFault>
    ensures { Gives (λ x. (0, x.now)) result ((only byte_is_zero byte).read from.now) }
{
    let (byte, rest) = byte_at(from)?;
    if byte != 0 {
        return Err(ReadFault::BadForm);
    }
    Ok(rest)
}

/// The mark.
fn mark_at(from: &[u8]) -> Result<&[u8], ReadFault>
    ensures { Gives (λ x. (mark, x.now)) result ((only is_mark word).read from.now) }
{
    let (number, rest) = u32_at(from)?;
    if number != HEADER_MARK {
        return Err(ReadFault::BadForm);
    }
    Ok(rest)
}

/// A private row: a user, and rights.
pub fn row_at(from: &[u8]) -> Result<(PrivateRow, &[u8]), ReadFault>
    ensures { Gives (λ x. (x.0, x.1.now)) result (row_form.read from.now) }
{
    let (user, rest) = object_at(from)?;
    let (rights, rest) = rights_at(rest)?;
    if rights.0 == 0 {
        return Err(ReadFault::BadForm);
    }
    Ok((PrivateRow { user, rights }, rest))
}

/// The header that a page's bytes hold.
pub fn header_of(bytes: &[u8]) -> Result<Header, ReadFault>
    ensures { Gives (λ header. header) result (header.read bytes.now) }
{
    let rest = mark_at(bytes)?;
    let (kind, rest) = kind_at(rest)?;
    let (sub, rest) = byte_at(rest)?;
    let (name, rest) = match name_at(rest) {
        Ok(found) => found,
        Err(fault) => return Err(fault),
    };
    let (context, rest) = object_at(rest)?;
    let (owner, rest) = object_at(rest)?;
    let (public, rest) = rights_at(rest)?;
    let rest = zero_at(rest)?;
    let (rows, rest) = u32_at(rest)?;
    let (body, rest) = u32_at(rest)?;
    let (unused, rest) = bytes_at(UNUSED, rest)?;
    if !is_zeros(unused) || !rest.is_empty() {
        return Err(ReadFault::BadForm);
    }
    let id = Id { kind, sub, name };
    Ok(Header {
        id,
        context,
        owner,
        public,
        rows,
        body,
    })
}
