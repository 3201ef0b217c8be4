ghost use Rattle.std.specs.Prelude.{◌≡◌, IfOk};

use s38_base::{Attr, AttrList, Bytes, HeldPointer, Id, Name, NoMemory, Seq, TryClone};
use std::alloc::Global;
use std::marker::Model;
use std::sync::Arc;

/// An operand as the machine gets it: the process has put in the values of its variables.
#[derive(Drop, Debug)]
pub enum Operand {
    /// A scalar that is read.
    Value {
        attr: Attr,
        bytes: Bytes,
    },
    /// A variable of the process that gets a value of this attribute.
    Receiver {
        attr: Attr,
    },
    /// An item in a space: its base, and its offset from there.
    InSpace {
        base: HeldPointer,
        offset: u32,
        attr: Attr,
    },
    /// A pointer that is used, or none.
    Ptr(HeldPointer),
    /// A whole number.
    Whole(i64),
    /// A word of the row: rights, a relation, a lock state, as their numbers.
    Word(u32),
    /// An identification.
    Ident(Id),
    /// The name of a template or of a job.
    Text(Name),
    /// Attributes in a row.
    Attrs(AttrList),
    /// `*NONE`
    Nothing,
    /// `*MACHINE`
    MachineContext,
    /// `*LIST`
    ContextList,
}

/// The operands of a request, in order; those who hold them share them. Contracts see them as the list.
#[derive(Drop, Debug)]
pub struct Operands {
    held: Arc<Vec<Operand>>,
}

impl Model for Operands {
    ghost use Rattle.std.specs.Prelude.{List};
    ghost use Rattle.s38_code.specs.declared.operand.Operand.{Operand};

    ghost Value = { List Operand };

    ghost view = { λ o. o.held.value.items };
}

impl Operands {
    /// Puts operands where they can be shared; where memory is refused they are dropped.
    pub fn new(alloc: Global, operands: Vec<Operand>) -> Result<Operands, NoMemory>
        ensures { IfOk result (λ made. made ≡ operands.items) }
    {
        match Arc::new(alloc, operands) {
            Ok(held) => Ok(Operands { held }),
            Err(_) => Err(NoMemory),
        }
    }

    /// The operands.
    pub fn as_slice(&self) -> &[Operand]
        ensures { result.now ≡ self.now }
    {
        self.held.as_slice()
    }
}

impl TryClone for Operands {
    fn try_clone(&self, _: Global) -> Result<Self, NoMemory> {
        match Arc::try_clone(&self.held) {
            Ok(held) => Ok(Operands { held }),
            Err(_) => Err(NoMemory),
        }
    }
}

impl TryClone for Operand {
    fn try_clone(&self, alloc: Global) -> Result<Self, NoMemory> {
        match self {
            Operand::Value { attr, bytes } => Ok(Operand::Value {
                attr: *attr,
                bytes: bytes.try_clone(alloc)?,
            }),
            Operand::Receiver { attr } => Ok(Operand::Receiver { attr: *attr }),
            Operand::InSpace { base, offset, attr } => Ok(Operand::InSpace {
                base: *base,
                offset: *offset,
                attr: *attr,
            }),
            Operand::Ptr(pointer) => Ok(Operand::Ptr(*pointer)),
            Operand::Whole(number) => Ok(Operand::Whole(*number)),
            Operand::Word(word) => Ok(Operand::Word(*word)),
            Operand::Ident(id) => Ok(Operand::Ident(*id)),
            Operand::Text(name) => Ok(Operand::Text(*name)),
            Operand::Attrs(attrs) => Ok(Operand::Attrs(Seq::from_slice(alloc, attrs.as_slice())?)),
            Operand::Nothing => Ok(Operand::Nothing),
            Operand::MachineContext => Ok(Operand::MachineContext),
            Operand::ContextList => Ok(Operand::ContextList),
        }
    }
}
