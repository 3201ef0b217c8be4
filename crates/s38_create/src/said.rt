ghost use Rattle.std.specs.Prelude.{◌≡◌, ◌<◌, ◌++◌, ◌∷◌, [], vec_capacity, vec_len, IfOk, OnOk};
ghost use Rattle.s38_create.specs.Said.{instruction_with, said_of, with_operand};
ghost use Rattle.s38_create.specs.declared.parsed.ParsedOperand.TheVariants as parsed_as;

use crate::parsed::{ParsedOperand, arg_of, is_declared, is_placed};
use s38_base::{NoMemory, Op, Seq};
use s38_code::{Arg, Instruction};
use std::alloc::Global;
use std::marker::Model;

/// What the words of a line say at the places of operands, so far: the operands, where the first item or place
/// is taken for a name that has none; whether each name is declared, and whether each label is there.
#[derive(Drop, Debug)]
pub struct Said {
    args: Vec<Arg>,
    are_declared: bool,
    are_placed: bool,
}

impl Model for Said {
    ghost use Rattle.s38_create.specs.Said.{AllSaid};

    ghost Value = { AllSaid };

    ghost view = { λ s. record { args = s.args.items; are_declared = s.are_declared; are_placed = s.are_placed } };
}

/// Finds memory for one more.
#[inline(never)]
fn grow(args: &mut Vec<Arg>) -> Result<(), NoMemory>
    ensures items { args.new.items ≡ args.old.items }
    ensures room { OnOk result (vec_len args.new < vec_capacity args.new) }
{
    args.reserve(1)?;
    Ok(())
}

/// The same; nothing is done where there is memory already.
fn have_room(args: &mut Vec<Arg>) -> Result<(), NoMemory>
    ensures items { args.new.items ≡ args.old.items }
    ensures room { OnOk result (vec_len args.new < vec_capacity args.new) }
{
    if args.len() < args.capacity() {
        Ok(())
    } else {
        grow(args)
    }
}

/// Adds an operand.
fn push(args: &mut Vec<Arg>, arg: Arg) -> Result<(), NoMemory>
    ensures { OnOk result (args.new.items ≡ args.old.items ++ arg ∷ []) }
{
    have_room(args)?;
    args.push_reserved(arg);
    Ok(())
}

impl Said {
    /// Nothing, with memory for so many operands.
    pub fn nothing(alloc: Global, room: usize) -> Result<Said, NoMemory>
        ensures { IfOk result (λ said. said ≡ said_of []) }
    {
        Ok(Said {
            args: Vec::with_capacity(alloc, room)?,
            are_declared: true,
            are_placed: true,
        })
    }

    /// Adds an operand that needs no name.
    pub fn add_given(&mut self, arg: Arg) -> Result<(), NoMemory>
        ensures { OnOk result (self.new ≡ with_operand self.old (parsed_as.Given arg)) }
    {
        push(&mut self.args, arg)
    }

    /// Adds an item; None where the name is not declared.
    pub fn add_item(&mut self, item: Option<u16>) -> Result<(), NoMemory>
        ensures { OnOk result (self.new ≡ with_operand self.old (parsed_as.Item item)) }
    {
        self.are_declared = self.are_declared && item.is_some();
        push(&mut self.args, Arg::Item(item.unwrap_or(0)))
    }

    /// Adds any operand.
    pub fn add(&mut self, operand: ParsedOperand) -> Result<(), NoMemory>
        ensures { OnOk result (self.new ≡ with_operand self.old operand) }
    {
        self.are_declared = self.are_declared && is_declared(&operand);
        self.are_placed = self.are_placed && is_placed(&operand);
        push(&mut self.args, arg_of(operand))
    }

    /// Each name that is said is declared.
    pub fn are_declared(&self) -> bool
        ensures { result ≡ self.now.are_declared }
    {
        self.are_declared
    }

    /// Each label that is said is there.
    pub fn are_placed(&self) -> bool
        ensures { result ≡ self.now.are_placed }
    {
        self.are_placed
    }

    /// The instruction of these operands.
    pub fn instruction(self, op: Op, round: bool) -> Instruction
        ensures { result ≡ instruction_with op round self }
    {
        Instruction {
            op,
            round,
            args: Seq::from_vec(self.args),
        }
    }
}
