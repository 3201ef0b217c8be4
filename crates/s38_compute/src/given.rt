ghost use Rattle.std.specs.Prelude.{◌≡◌, IfOk, IsTrue};
ghost use Rattle.s38_base.specs.Scalar.{fits, scalar_image};
ghost use Rattle.s38_code.specs.declared.reply.Val.{Val};

use s38_base::{Attr, Bytes, HeldPointer, NoMemory, Pointer};
use s38_code::Val;
use s38_decimal::write_scalar;
use std::alloc::Global;

/// What a computation gives.
#[derive(Drop, Debug)]
pub enum Given {
    /// A number for a receiver of this attribute.
    Number { attr: Attr, units: i128 },
    Bytes(Bytes),
    Pointer(Pointer),
    /// Whether a branch is taken.
    Branch(bool),
}

/// A number in bytes.
#[tactic(auto, using(crate::proofs::NumberLaws::fits_numeric))]
fn number_value(alloc: Global, attr: Attr, units: i128) -> Result<Val, NoMemory>
    requires { IsTrue (fits attr units) }
    ensures { IfOk result (λ made. made ≡ Val.Bytes (scalar_image attr units)) }
{
    let mut made = Bytes::repeated(alloc, 0, attr.length() as usize)?;
    let _ = write_scalar(attr, units, made.as_mut_slice());
    Ok(Val::Bytes(made))
}

impl Given {
    ghost use Rattle.s38_compute.specs.Computed.{as_value, given_is_held};

    /// The value that a receiver gets.
    pub fn into_value(self, alloc: Global) -> Result<Val, NoMemory>
        requires { IsTrue (given_is_held self) }
        ensures { IfOk result (λ made. made ≡ as_value self) }
    {
        match self {
            Given::Number { attr, units } => number_value(alloc, attr, units),
            Given::Bytes(bytes) => Ok(Val::Bytes(bytes)),
            Given::Pointer(pointer) => Ok(Val::Ptr(HeldPointer::of(Some(pointer)))),
            Given::Branch(taken) => Ok(Val::Branch(taken)),
        }
    }
}
