//! What passes between a process and the machine: operands, requests, events, replies and entries of the
//! history; and what is there before a run: programs, templates and decks, and the table of mnemonics.
#![tactic(auto)]

mod asked;
mod class;
mod code;
mod deck;
mod entry;
mod event;
mod family;
mod lines;
mod made;
mod operand;
mod operations;
mod program;
mod reply;
mod rule;
mod step;

pub use asked::Asked;
pub use class::{Class, Constant, Keyword};
pub use code::Code;
pub use deck::{Deck, Job, Jobs, Names, Template, Templates};
pub use entry::Entry;
pub use event::{EndCause, Event, Request};
pub use family::Family;
pub use lines::{Lines, TextLines};
pub use made::{Checked, CheckedTemplate, CreateResult};
pub use operand::{Operand, Operands};
pub use operations::{classes, family_of, made_kind, may_round, mnemonic, operand_rule};
pub use program::{Arg, Args, CreateFault, Form, Instruction, Instructions, Program, Row, Rows};
pub use reply::{Reply, Val, Vals};
pub use rule::OperandRule;
pub use s38_base::{AttrList, Bytes, Op};
pub use step::{StepFault, Stepper};

/// What is sent between threads.
fn sends<T: Send + Sync>() {}

/// Each value of this crate may be sent and shared.
pub fn all_may_be_sent() {
    sends::<Entry>();
    sends::<Event>();
    sends::<Reply>();
    sends::<Code>();
    sends::<Program>();
    sends::<Deck>();
    sends::<CheckedTemplate>();
    sends::<StepFault>();
}
