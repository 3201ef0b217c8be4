use crate::code::Code;
use s38_base::{Name, NoMemory, Seq, TryClone};
use std::alloc::Global;

/// What creation makes of a template.
#[derive(Drop, Debug)]
pub enum CreateResult {
    /// A program.
    Created(Code),
    /// Nothing: the cause, and the number of the first bad declaration or instruction, from 1 on.
    Refused { id: u16, number: u32 },
}

/// A template of the deck, by its name, and what creation makes of it.
#[derive(Drop, Debug)]
pub struct CheckedTemplate {
    pub name: Name,
    pub made: CreateResult,
}

/// The templates of a deck, in order, each checked.
pub type Checked = Seq<CheckedTemplate>;

impl TryClone for CreateResult {
    fn try_clone(&self, alloc: Global) -> Result<Self, NoMemory> {
        match self {
            CreateResult::Created(code) => Ok(CreateResult::Created(code.try_clone(alloc)?)),
            CreateResult::Refused { id, number } => Ok(CreateResult::Refused {
                id: *id,
                number: *number,
            }),
        }
    }
}

impl TryClone for CheckedTemplate {
    fn try_clone(&self, alloc: Global) -> Result<Self, NoMemory> {
        Ok(CheckedTemplate {
            name: self.name,
            made: self.made.try_clone(alloc)?,
        })
    }
}
