use s38_base::{Pile, Seq};

/// How far an invocation has come.
#[derive(Drop, Debug)]
pub struct Frame {
    /// The place of its next instruction, from 0 on.
    pub at: usize,
    /// Where its own variables begin among all of its process.
    pub base: usize,
    /// The place of each declared name among all variables; a parameter lies where its argument does.
    pub homes: Seq<usize>,
    /// For each declaration whether it is on, where it describes an exception.
    pub on: Seq<bool>,
    /// The places to which its internal calls come back.
    pub returns: Pile<usize>,
    /// The exception that it took last, 0 for none.
    pub latest: u16,
}
