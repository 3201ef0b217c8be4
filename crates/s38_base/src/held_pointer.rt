ghost use Rattle.std.specs.Prelude.{◌≡◌, ◌↔◌, IsTrue};
ghost use Rattle.s38_base.specs.declared.pointer.Pointer.TheVariants as pointers;
ghost use Rattle.s38_base.specs.HeldPointers.{form_of_item};

use crate::attr::Attr;
use crate::id::ObjNum;
use crate::pointer::Pointer;
use crate::rights::Rights;
use std::marker::Model;

/// A pointer or none, as a value holds it: in sixteen bytes. Contracts see it as the pointer.
#[derive(Clone, Copy, Debug)]
pub struct HeldPointer {
    form: Form,
}

/// A pointer with the attribute of its item in its place.
#[derive(Clone, Copy, PartialEq, Debug)]
enum Form {
    Nothing,
    System {
        rights: Rights,
        object: ObjNum,
    },
    Space {
        offset: u32,
        object: ObjNum,
    },
    Packed {
        digits: u8,
        fraction: u8,
        offset: u32,
        object: ObjNum,
    },
    Zoned {
        digits: u8,
        fraction: u8,
        offset: u32,
        object: ObjNum,
    },
    Binary {
        size: u8,
        offset: u32,
        object: ObjNum,
    },
    Chars {
        len: u16,
        offset: u32,
        object: ObjNum,
    },
    Pointer {
        offset: u32,
        object: ObjNum,
    },
}

impl Model for HeldPointer {
    ghost use Rattle.std.specs.Prelude.{Option};
    ghost use Rattle.s38_base.specs.declared.pointer.Pointer.{Pointer};
    ghost use Rattle.std.proofs.Common.{ap};
    ghost use Rattle.s38_base.specs.declared.held_pointer.Form.{Form};
    ghost use Rattle.s38_base.specs.HeldPointers.{form_of, pointer_of, form-back};

    ghost Value = { Option Pointer };

    ghost view = { λ p. pointer_of p.form };

    ghost inverse = { λ pointer. record { form = form_of pointer } };

    ghost inverse_ok = { λ p h. ap (λ (f : Form). record { form = f }) (form-back p.form) };
}

impl HeldPointer {
    /// This pointer, or none.
    pub fn of(pointer: Option<Pointer>) -> HeldPointer
        ensures { result ≡ pointer }
    {
        match pointer {
            None => HeldPointer {
                form: Form::Nothing,
            },
            Some(Pointer::System { object, rights }) => HeldPointer {
                form: Form::System { rights, object },
            },
            Some(Pointer::Space { object, offset }) => HeldPointer {
                form: Form::Space { offset, object },
            },
            Some(
                Pointer::Item {
                    object,
                    offset,
                    attr,
                },
            ) => HeldPointer {
                form: form_of_item(object, offset, attr),
            },
        }
    }

    /// Whether both are the same pointer, or none.
    #[inline(always)]
    pub fn is_same(self, other: HeldPointer) -> bool
        ensures { IsTrue result ↔ self ≡ other }
    {
        self.form == other.form
    }

    /// The pointer, or none.
    #[inline(always)]
    pub fn get(self) -> Option<Pointer>
        ensures { result ≡ self }
    {
        match self.form {
            Form::Nothing => None,
            Form::System { rights, object } => Some(Pointer::System { object, rights }),
            Form::Space { offset, object } => Some(Pointer::Space { object, offset }),
            Form::Packed {
                digits,
                fraction,
                offset,
                object,
            } => Some(item(object, offset, Attr::Packed { digits, fraction })),
            Form::Zoned {
                digits,
                fraction,
                offset,
                object,
            } => Some(item(object, offset, Attr::Zoned { digits, fraction })),
            Form::Binary {
                size,
                offset,
                object,
            } => Some(item(object, offset, Attr::Binary { size })),
            Form::Chars {
                len,
                offset,
                object,
            } => Some(item(object, offset, Attr::Chars { len })),
            Form::Pointer { offset, object } => Some(item(object, offset, Attr::Pointer)),
        }
    }
}

/// A pointer to an item.
fn item(object: ObjNum, offset: u32, attr: Attr) -> Pointer
    ensures { result ≡ pointers.Item object offset attr }
{
    Pointer::Item {
        object,
        offset,
        attr,
    }
}

/// The form of a pointer to an item.
fn form_of_item(object: ObjNum, offset: u32, attr: Attr) -> Form
    ensures { result ≡ form_of_item object offset attr }
{
    match attr {
        Attr::Packed { digits, fraction } => Form::Packed {
            digits,
            fraction,
            offset,
            object,
        },
        Attr::Zoned { digits, fraction } => Form::Zoned {
            digits,
            fraction,
            offset,
            object,
        },
        Attr::Binary { size } => Form::Binary {
            size,
            offset,
            object,
        },
        Attr::Chars { len } => Form::Chars {
            len,
            offset,
            object,
        },
        Attr::Pointer => Form::Pointer { offset, object },
    }
}
