use crate::operand::Operands;
use s38_base::{NoMemory, Op, TryClone};
use std::alloc::Global;

/// An instruction as it is asked of the machine.
#[derive(Drop, Debug)]
pub struct Request {
    pub op: Op,
    pub round: bool,
    pub operands: Operands,
}

/// Why a process ends.
#[derive(Clone, Copy, PartialEq, Eq, Debug)]
pub enum EndCause {
    /// It returned from its first invocation.
    Return,
    /// An exception that no description took.
    Unhandled { id: u16 },
    /// Its instructions reached its budget.
    Budget,
    /// Its start was refused.
    Start { id: u16 },
    /// Its template was refused: the cause, and the number of the declaration or instruction.
    Create { id: u16, number: u32 },
}

/// What a process asks of the machine.
#[derive(Drop, Debug)]
pub enum Event {
    Start,
    /// An instruction, from a process that has come to this depth of invocations.
    Act { depth: u16, request: Request },
    Finish { cause: EndCause },
}

impl TryClone for Request {
    fn try_clone(&self, alloc: Global) -> Result<Self, NoMemory> {
        Ok(Request {
            op: self.op,
            round: self.round,
            operands: self.operands.try_clone(alloc)?,
        })
    }
}

impl TryClone for Event {
    fn try_clone(&self, alloc: Global) -> Result<Self, NoMemory> {
        match self {
            Event::Start => Ok(Event::Start),
            Event::Act { depth, request } => Ok(Event::Act {
                depth: *depth,
                request: request.try_clone(alloc)?,
            }),
            Event::Finish { cause } => Ok(Event::Finish { cause: *cause }),
        }
    }
}
