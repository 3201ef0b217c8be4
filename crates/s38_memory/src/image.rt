ghost use Rattle.std.specs.Prelude.{◌≡◌, ◌↔◌, ◌∷◌, [], IfSome, IsTrue, Some, drop, length};
ghost use Rattle.byteorder.specs.Endian.{big_number};
ghost use Rattle.s38_base.specs.declared.pointer.Pointer.{Pointer};
ghost use Rattle.s38_memory.specs.Image.{HasImage, attr_image, attr_in_detail, candidate, fields, image};

use byteorder::{BigEndian, ByteOrder};
use s38_base::{Attr, ObjNum, Pointer, Rights};

/// The bytes of an image from its parts.
#[tactic(auto, unfolding(crate::specs::Image::fields))]
fn fields(kind: u8, detail: (u8, u8, u8), offset: u32, object: u64) -> [u8; 16]
    ensures { result ≡ fields kind (detail.0 ∷ detail.1 ∷ detail.2 ∷ []) offset object }
{
    let mut bytes = [0; 16];
    bytes[0] = kind;
    bytes[1] = detail.0;
    bytes[2] = detail.1;
    bytes[3] = detail.2;
    BigEndian::write_u32(&mut bytes[4..], offset);
    BigEndian::write_u64(&mut bytes[8..], object);
    bytes
}

/// The kind of an attribute, and two bytes of it.
fn attr_image(attr: Attr) -> (u8, u8, u8)
    ensures { result.0 ∷ result.1 ∷ result.2 ∷ [] ≡ attr_image attr }
{
    match attr {
        Attr::Packed { digits, fraction } => (1, digits, fraction),
        Attr::Zoned { digits, fraction } => (2, digits, fraction),
        Attr::Binary { size } => (3, 0, size),
        Attr::Chars { len } => (4, (len >> 8) as u8, (len & 0xff) as u8),
        Attr::Pointer => (0, 0, 0),
    }
}

/// The bytes that show a pointer. Only a pointer to an item that is a pointer has none of its own.
pub fn image_of(pointer: Pointer) -> [u8; 16]
    ensures image { result ≡ image pointer }
    ensures length { length result ≡ 16 }
{
    match pointer {
        Pointer::System { object, rights } => fields(1, (rights.0, 0, 0), 0, object.0),
        Pointer::Space { object, offset } => fields(2, (0, 0, 0), offset, object.0),
        Pointer::Item {
            object,
            offset,
            attr,
        } => fields(3, attr_image(attr), offset, object.0),
    }
}

/// Whether a pointer has an image of its own: unless it is to an item that is a pointer.
pub fn has_image(pointer: Pointer) -> bool
    ensures { IsTrue result ↔ HasImage pointer }
{
    match pointer {
        Pointer::Item { attr, .. } => !matches!(attr, Attr::Pointer),
        _ => true,
    }
}

/// The number of the last eight bytes of an image.
fn object_at(bytes: &[u8; 16]) -> ObjNum
    ensures { result.0 ≡ big_number 8 (drop 8 bytes.now) }
{
    ObjNum(BigEndian::read_u64(&bytes[8..]))
}

/// The attribute in the second to the fourth byte of an image.
fn attr_at(bytes: &[u8; 16]) -> Option<Attr>
    ensures { result ≡ attr_in_detail bytes.now }
{
    let (first, second) = (bytes[2], bytes[3]);
    match bytes[1] {
        1 => Some(Attr::Packed {
            digits: first,
            fraction: second,
        }),
        2 => Some(Attr::Zoned {
            digits: first,
            fraction: second,
        }),
        3 => Some(Attr::Binary { size: second }),
        4 => Some(Attr::Chars {
            len: BigEndian::read_u16(&bytes[2..]),
        }),
        _ => None,
    }
}

/// The only pointer whose image the bytes may be.
#[tactic(auto, unfolding(crate::specs::Image::candidate))]
fn candidate(bytes: &[u8; 16]) -> Option<Pointer>
    ensures { result ≡ candidate bytes.now }
{
    let object = object_at(bytes);
    let offset = BigEndian::read_u32(&bytes[4..]);
    match bytes[0] {
        1 => Some(Pointer::System {
            object,
            rights: Rights(bytes[1]),
        }),
        2 => Some(Pointer::Space { object, offset }),
        3 => {
            let attr = attr_at(bytes)?;
            Some(Pointer::Item {
                object,
                offset,
                attr,
            })
        }
        _ => None,
    }
}

/// Whether the bytes are the image of this pointer.
fn is_image(bytes: &[u8; 16], pointer: Pointer) -> bool
    ensures { IsTrue result ↔ (HasImage pointer × (bytes.now ≡ image pointer)) }
{
    has_image(pointer) && *bytes == image_of(pointer)
}

/// The pointer whose image the bytes are; None exactly where they are the image of none.
pub fn decode(bytes: &[u8; 16]) -> Option<Pointer>
    ensures found { IfSome result (λ p. HasImage p × (bytes.now ≡ image p)) }
    ensures every { (p : Pointer) → HasImage p → bytes.now ≡ image p → result ≡ Some p }
{
    match candidate(bytes) {
        Some(pointer) => {
            if is_image(bytes, pointer) {
                Some(pointer)
            } else {
                None
            }
        }
        None => None,
    }
}
