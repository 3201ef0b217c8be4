use crate::code::Code;
use s38_base::{Bytes, Exception, HeldPointer, NoMemory, Seq, TryClone, try_clones};
use std::alloc::Global;

/// A value that comes back to a process.
#[derive(Drop, Debug)]
pub enum Val {
    Bytes(Bytes),
    Ptr(HeldPointer),
    Branch(bool),
    Code(Code),
}

/// Values in the order of their receivers.
pub type Vals = Seq<Val>;

/// The machine's answer to an event.
#[derive(Drop, Debug)]
pub enum Reply {
    /// It took effect, with these values.
    Done(Vals),
    /// It was refused, and changed nothing.
    Signal(Exception),
    /// It waits, and is asked again.
    MustWait,
}

impl TryClone for Val {
    fn try_clone(&self, alloc: Global) -> Result<Self, NoMemory> {
        match self {
            Val::Bytes(bytes) => Ok(Val::Bytes(bytes.try_clone(alloc)?)),
            Val::Ptr(pointer) => Ok(Val::Ptr(*pointer)),
            Val::Branch(branch) => Ok(Val::Branch(*branch)),
            Val::Code(code) => Ok(Val::Code(code.try_clone(alloc)?)),
        }
    }
}

impl TryClone for Reply {
    fn try_clone(&self, alloc: Global) -> Result<Self, NoMemory> {
        match self {
            Reply::Done(values) => Ok(Reply::Done(try_clones(alloc, values.as_slice())?)),
            Reply::Signal(exception) => Ok(Reply::Signal(*exception)),
            Reply::MustWait => Ok(Reply::MustWait),
        }
    }
}
