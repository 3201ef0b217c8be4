//! Attributes and pointers, read at the front of bytes.
ghost use Rattle.std.specs.Prelude.{◌≡◌, IfOk, IfSome, None, Some, if◌then◌else◌};
ghost use Rattle.s38_codec.specs.Reading.{Gives};
ghost use Rattle.s38_image.specs.Scalars.{PointerBytes, attr, attr_by, is_attr, is_pointer_image, pointer, pointer_by};
ghost use Rattle.s38_image.specs.Steps.{three_bytes};
ghost use Rattle.s38_memory.specs.Image.{HasAttrImage, HasImage};

use s38_base::{Attr, ObjNum, Pointer, Rights};
use s38_codec::{ReadFault, byte_at, u32_at, u64_at};

/// The attribute of a kind of attributes and two bytes.
fn attr_of(kind: u8, first: u8, second: u8) -> Option<Attr>
    ensures read { result ≡ (if is_attr (kind, (first, second)) then Some (attr_by (kind, (first, second))) else None) }
    ensures image { IfSome result (λ attr. HasAttrImage attr) }
{
    match kind {
        1 => Some(Attr::Packed {
            digits: first,
            fraction: second,
        }),
        2 => Some(Attr::Zoned {
            digits: first,
            fraction: second,
        }),
        3 => {
            if first == 0 {
                Some(Attr::Binary { size: second })
            } else {
                None
            }
        }
        4 => Some(Attr::Chars {
            len: u16::from(first) * 256 + u16::from(second),
        }),
        _ => None,
    }
}

/// Three bytes.
fn detail_at(from: &[u8]) -> Result<((u8, u8, u8), &[u8]), ReadFault>
    ensures { Gives (λ x. ((x.0.0, (x.0.1, x.0.2)), x.1.now)) result (three_bytes.read from.now) }
{
    let (first, rest) = byte_at(from)?;
    let (second, rest) = byte_at(rest)?;
    let (third, rest) = byte_at(rest)?;
    Ok(((first, second, third), rest))
}

/// An attribute: its kind, and two bytes.
pub fn attr_at(from: &[u8]) -> Result<(Attr, &[u8]), ReadFault>
    ensures { Gives (λ x. (x.0, x.1.now)) result (attr.read from.now) }
{
    let ((kind, first, second), rest) = detail_at(from)?;
    match attr_of(kind, first, second) {
        Some(attr) => Ok((attr, rest)),
        None => Err(ReadFault::BadForm),
    }
}

/// The pointer of a kind, three bytes of detail, an offset and an object.
fn pointer_of(kind: u8, detail: (u8, u8, u8), offset: u32, object: u64) -> Option<Pointer>
    ensures read { let fields : PointerBytes = (kind, ((detail.0, (detail.1, detail.2)), (offset, object))) in
        result ≡ (if is_pointer_image fields then Some (pointer_by fields) else None) }
    ensures image { IfSome result (λ pointer. HasImage pointer) }
{
    let object = ObjNum(object);
    match (kind, detail) {
        (1, (rights, 0, 0)) => {
            if offset != 0 {
                return None;
            }
            Some(Pointer::System {
                object,
                rights: Rights(rights),
            })
        }
        (2, (0, 0, 0)) => Some(Pointer::Space { object, offset }),
        (3, (kind, first, second)) => match attr_of(kind, first, second) {
            Some(attr) => Some(Pointer::Item {
                object,
                offset,
                attr,
            }),
            None => None,
        },
        _ => None,
    }
}

/// A pointer: its kind, three bytes of detail, the offset and the object.
pub fn pointer_at(from: &[u8]) -> Result<(Pointer, &[u8]), ReadFault>
    ensures read { Gives (λ x. (x.0, x.1.now)) result (pointer.read from.now) }
    ensures image { IfOk result (λ x. HasImage x.0) }
{
    let (kind, rest) = byte_at(from)?;
    let (detail, rest) = detail_at(rest)?;
    let (offset, rest) = u32_at(rest)?;
    let (object, rest) = u64_at(rest)?;
    match pointer_of(kind, detail, offset, object) {
        Some(pointer) => Ok((pointer, rest)),
        None => Err(ReadFault::BadForm),
    }
}
