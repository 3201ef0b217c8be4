ghost use Rattle.std.specs.Prelude.{◌≡◌, ◌<◌, ◌^◌};

use crate::attr::Attr;
use crate::id::ObjNum;
use crate::rights::Rights;

/// A pointer: to an object with the rights that it carries, to a byte of a space, or to an item in a
/// space.
#[derive(Clone, Copy, PartialEq, Eq, Debug)]
pub enum Pointer {
    System {
        object: ObjNum,
        rights: Rights,
    },
    Space {
        object: ObjNum,
        offset: u32,
    },
    Item {
        object: ObjNum,
        offset: u32,
        attr: Attr,
    },
}

impl Pointer {
    ghost use Rattle.s38_base.specs.Pointers.{carried_by, carried_in, is_storable, object_of, offset_of, start_of, target_of};

    /// The object that it names.
    pub fn object(self) -> ObjNum
        ensures { result.0 ≡ object_of self }
    {
        match self {
            Pointer::System { object, .. } => object,
            Pointer::Space { object, .. } => object,
            Pointer::Item { object, .. } => object,
        }
    }

    /// The byte of the space to which it points; 0 for a system pointer.
    pub fn offset(self) -> u32
        ensures { result ≡ offset_of self }
    {
        match self {
            Pointer::System { .. } => 0,
            Pointer::Space { offset, .. } => offset,
            Pointer::Item { offset, .. } => offset,
        }
    }

    /// The rights that it carries; none but for a system pointer.
    pub fn rights(self) -> Rights
        ensures { result.0 ≡ carried_by self }
    {
        match self {
            Pointer::System { rights, .. } => rights,
            Pointer::Space { .. } => Rights(0),
            Pointer::Item { .. } => Rights(0),
        }
    }

    /// A cell of a space may hold it: it is not to an item that is a pointer.
    pub fn is_storable(self) -> bool
        ensures { result ≡ is_storable self }
    {
        match self {
            Pointer::System { .. } => true,
            Pointer::Space { .. } => true,
            Pointer::Item { attr, .. } => !attr.is_pointer(),
        }
    }

    /// The object of a pointer, 0 without one.
    pub fn target(pointer: Option<Pointer>) -> ObjNum
        ensures { result.0 ≡ target_of pointer }
    {
        match pointer {
            None => ObjNum(0),
            Some(pointer) => pointer.object(),
        }
    }

    /// The rights that a pointer carries, none without one.
    pub fn carried(pointer: Option<Pointer>) -> Rights
        ensures { result.0 ≡ carried_in pointer }
    {
        match pointer {
            None => Rights(0),
            Some(pointer) => pointer.rights(),
        }
    }

    /// The first byte of an item at an offset from its base.
    pub fn start(base: Option<Pointer>, offset: u32) -> u64
        ensures start { result ≡ start_of base offset }
        ensures small { result < 2 ^ 33 }
    {
        match base {
            None => u64::from(offset),
            Some(pointer) => u64::from(pointer.offset()) + u64::from(offset),
        }
    }
}
