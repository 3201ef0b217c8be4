ghost use Rattle.std.specs.Prelude.{◌≡◌, ◌<◌, length, Some};
ghost use Rattle.std.specs.Prelude.{slice_get};
ghost use Rattle.std.specs.Option.{option_copied};
ghost use Rattle.s38_code.specs.declared.program.CreateFault.TheVariants as faults;

use crate::deck::Template;
use s38_base::{Attr, AttrList, Bytes, Id, Name, NoMemory, Op, Seq};
use thiserror::Error;

/// An operand of an instruction that was checked: items and instructions are numbered from 0.
#[derive(Drop, Debug)]
pub enum Arg {
    Item(u16),
    Literal { attr: Attr, bytes: Bytes },
    Whole(i64),
    Jump(u32),
    Word(u32),
    Ident(Id),
    Text(Name),
    Attrs(AttrList),
    Nothing,
    MachineContext,
    ContextList,
}

/// Operands of an instruction, in order.
pub type Args = Seq<Arg>;

/// An instruction that was checked.
#[derive(Drop, Debug)]
pub struct Instruction {
    pub op: Op,
    pub round: bool,
    pub args: Args,
}

/// Instructions, in order.
pub type Instructions = Seq<Instruction>;

/// What a declared name means.
#[derive(Drop, Debug)]
pub enum Form {
    /// A variable of the invocation, and its first bytes.
    Local { attr: Attr, first: Bytes },
    /// The variable that the caller passes at place k.
    Parm { k: u8, attr: Attr },
    /// An item in a space, at an offset from the pointer in another item.
    Based { base: u16, offset: u32, attr: Attr },
    /// A description of an exception (None: of each), and where it goes on.
    Handler { code: Option<u16>, at: u32 },
}

/// A declaration that was checked.
#[derive(Drop, Debug)]
pub struct Row {
    pub name: Name,
    pub form: Form,
}

/// Declarations, in order.
pub type Rows = Seq<Row>;

/// A checked program: its template, its declarations and its instructions.
#[derive(Drop, Debug)]
pub struct Program {
    pub template: Template,
    pub rows: Rows,
    pub code: Instructions,
    pub adopts: bool,
    pub propagates: bool,
}

impl Program {
    /// The text that it was created from.
    pub fn template(&self) -> &Template
        ensures { result.now ≡ self.now.template }
    {
        &self.template
    }

    /// The instruction at a place from 0 on; None exactly past the last.
    pub fn instruction(&self, at: u32) -> Option<&Instruction>
        ensures { option_copied result ≡ slice_get self.now.code at }
    {
        self.code.as_slice().get(at as usize)
    }

    /// The declaration of an item.
    pub fn row(&self, item: u16) -> &Row
        requires { item < length self.now.rows }
        ensures { slice_get self.now.rows item ≡ Some result.now }
    {
        &self.rows.as_slice()[item as usize]
    }

    /// Whether its owner's rights are added to those of the process.
    pub fn adopts(&self) -> bool
        ensures { result ≡ self.now.adopts }
    {
        self.adopts
    }

    /// Whether that reaches the programs that it calls.
    pub fn propagates(&self) -> bool
        ensures { result ≡ self.now.propagates }
    {
        self.propagates
    }
}

/// Why a template makes no program.
#[derive(Clone, Copy, PartialEq, Eq, Debug, Error)]
pub enum CreateFault {
    /// The first bad declaration or instruction, by its number from 1 on, and the cause.
    #[error("{id:04X} {number}")]
    Bad { id: u16, number: u32 },
    #[error("no memory")]
    NoMemory,
}

impl From<NoMemory> for CreateFault {
    ghost from_gives = { λ _ e. e ≡ faults.NoMemory };

    fn from(_: NoMemory) -> Self {
        CreateFault::NoMemory
    }
}
