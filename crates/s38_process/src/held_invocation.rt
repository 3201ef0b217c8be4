//! An invocation as its process keeps it.
ghost use Rattle.std.specs.Prelude.{◌≡◌, ◌<◌, ◌+◌, ◌^◌, ◌&&◌, IfOk, IfSome, IsNone, IsSome, OnErr, is_some, not, slice_get};
ghost use Rattle.std.specs.Option.{option_copied};
ghost use Rattle.s38_local.specs.Frames.{returned};
ghost use Rattle.s38_local.specs.Local.{declares_space, run};
ghost use Rattle.s38_local.specs.declared.local_end.LocalEnd.{LocalEnd};
ghost use Rattle.s38_process.specs.Exceptions.{takes};
ghost use Rattle.s38_process.specs.Invocations.{instruction_of, instructions_in, program_rows_in};
ghost use Rattle.s38_process.specs.Process.{is_return};
ghost use Rattle.s38_process.specs.LocalRun.{is_local_there, is_none, returns_there};

use crate::invocation::Invocation;
use crate::made::{code_of, rows_of};
use s38_base::{NoMemory, Op, Pile};
use s38_code::{CreateResult, Instruction, Val};
use s38_local::{Frame, LocalEnd, declares_space, is_local_by, return_from, run_local};
use std::alloc::Global;
use std::marker::Model;

/// An invocation, and whether its program declares an item in a space. Contracts see the invocation.
#[derive(Drop)]
pub struct HeldInvocation {
    invocation: Invocation,
    in_spaces: bool,
}

impl Model for HeldInvocation {
    ghost use Rattle.std.specs.Prelude.{◌≡◌};
    ghost use Rattle.s38_local.specs.Local.{declares_space};
    ghost use Rattle.s38_process.specs.Invocations.{program_rows_in};
    ghost use Rattle.s38_process.specs.declared.invocation.Invocation.{Invocation};

    ghost Value = { Invocation };

    ghost view = { λ s. s.invocation };

    ghost invariant = { λ s. s.in_spaces ≡ declares_space (program_rows_in s.invocation.made) };
}

impl HeldInvocation {
    /// An invocation that begins.
    pub fn new(made: CreateResult, frame: Frame) -> HeldInvocation
        ensures { result ≡ record { made = made; frame = frame } }
    {
        let in_spaces = declares_space(rows_of(&made));
        HeldInvocation {
            invocation: Invocation { made, frame },
            in_spaces,
        }
    }

    /// What creation made of its template.
    pub fn made(&self) -> &CreateResult
        ensures { result.now ≡ self.now.made }
    {
        &self.invocation.made
    }

    /// How far it has come.
    pub fn frame(&self) -> &Frame
        ensures { result.now ≡ self.now.frame }
    {
        &self.invocation.frame
    }

    /// It goes on at a place.
    pub fn go_to(&mut self, at: usize)
        ensures { self.new ≡ record self.old { frame = record self.old.frame { at = at } } }
    {
        self.invocation.frame.at = at;
    }

    /// It takes an exception: it goes on at a label, and its internal calls end.
    pub fn take(&mut self, alloc: Global, code: u16, at: usize)
        ensures { self.new ≡ takes self.old code at }
    {
        self.invocation.frame.at = at;
        self.invocation.frame.returns = Pile::new(alloc);
        self.invocation.frame.latest = code;
    }

    /// Does its next instruction where the process does it by itself; the end of the code is a return. None where it
    /// does not: then nothing changes, and by an error neither.
    #[inline(always)]
    pub fn run_alone(
        &mut self,
        alloc: Global,
        is_first: bool,
        values: &mut Vec<Val>,
    ) -> Result<Option<LocalEnd>, NoMemory>
        ensures alone { IfOk result (λ end. is_some end ≡ (is_local_there (program_rows_in self.old.made) (instruction_of self.old) && not (returns_there (instruction_of self.old) && (is_none self.old.frame.returns && is_first)))) }
        ensures end { IfOk result (λ end. IfSome end (λ end. end ≡ (run (program_rows_in self.old.made) self.old.frame values.old.items (instruction_of self.old)).end)) }
        ensures frame { IfOk result (λ end. IfSome end (λ _. self.new ≡ record self.old { frame = (run (program_rows_in self.old.made) self.old.frame values.old.items (instruction_of self.old)).frame })) }
        ensures values { IfOk result (λ end. IfSome end (λ _. values.new.items ≡ (run (program_rows_in self.old.made) self.old.frame values.old.items (instruction_of self.old)).values)) }
        ensures place { IfOk result (λ end. IfSome end (λ end. end ≡ LocalEnd.Next → self.old.frame.at + 1 < 2 ^ 64)) }
        ensures stays { IfOk result (λ end. IsNone end → (self.new ≡ self.old) × (values.new.items ≡ values.old.items)) }
        ensures err { OnErr result ((self.new ≡ self.old) × (values.new.items ≡ values.old.items)) }
    {
        run_alone(
            alloc,
            is_first,
            self.in_spaces,
            &self.invocation.made,
            &mut self.invocation.frame,
            values,
        )
    }
}

fn instruction_at(code: &[Instruction], at: usize) -> Option<&Instruction>
    ensures there { option_copied result ≡ slice_get code.now at }
    ensures place { IsSome result → at + 1 < 2 ^ 64 }
{
    if code.len() <= at {
        return None;
    }
    Some(&code[at])
}

/// The end of the code is a return; that of the first invocation outside of internal calls is none of its own.
fn return_alone(is_first: bool, frame: &mut Frame) -> Option<LocalEnd>
    ensures alone { is_some result ≡ not (is_none frame.old.returns && is_first) }
    ensures end { IfSome result (λ end. end ≡ (returned frame.old).end) }
    ensures frame { IfSome result (λ _. frame.new ≡ (returned frame.old).frame) }
    ensures leaves { IfSome result (λ end. end ≡ LocalEnd.Next → ⊥) }
    ensures stays { IsNone result → frame.new ≡ frame.old }
{
    if frame.returns.len() == 0 && is_first {
        return None;
    }
    Some(return_from(frame))
}

/// Whether an instruction ends the process: the first invocation returns, and is in no internal call.
#[inline(always)]
fn ends_by(is_first: bool, frame: &Frame, instruction: &Instruction) -> bool
    ensures { result ≡ (is_return instruction.now.op && (is_none frame.now.returns && is_first)) }
{
    matches!(instruction.op, Op::Rtx) && frame.returns.len() == 0 && is_first
}

#[inline(always)]
#[tactic(auto, unfolding(s38_local::specs::Local::run))]
fn run_alone(
    alloc: Global,
    is_first: bool,
    in_spaces: bool,
    made: &CreateResult,
    frame: &mut Frame,
    values: &mut Vec<Val>,
) -> Result<Option<LocalEnd>, NoMemory>
    requires { in_spaces ≡ declares_space (program_rows_in made.now) }
    ensures alone { IfOk result (λ end. is_some end ≡ (is_local_there (program_rows_in made.now) (slice_get (instructions_in made.now) frame.old.at) && not (returns_there (slice_get (instructions_in made.now) frame.old.at) && (is_none frame.old.returns && is_first)))) }
    ensures end { IfOk result (λ end. IfSome end (λ end. end ≡ (run (program_rows_in made.now) frame.old values.old.items (slice_get (instructions_in made.now) frame.old.at)).end)) }
    ensures frame { IfOk result (λ end. IfSome end (λ _. frame.new ≡ (run (program_rows_in made.now) frame.old values.old.items (slice_get (instructions_in made.now) frame.old.at)).frame)) }
    ensures values { IfOk result (λ end. IfSome end (λ _. values.new.items ≡ (run (program_rows_in made.now) frame.old values.old.items (slice_get (instructions_in made.now) frame.old.at)).values)) }
    ensures place { IfOk result (λ end. IfSome end (λ end. end ≡ LocalEnd.Next → frame.old.at + 1 < 2 ^ 64)) }
    ensures stays { IfOk result (λ end. IsNone end → (frame.new ≡ frame.old) × (values.new.items ≡ values.old.items)) }
    ensures err { OnErr result ((frame.new ≡ frame.old) × (values.new.items ≡ values.old.items)) }
{
    match instruction_at(code_of(made), frame.at) {
        None => Ok(return_alone(is_first, frame)),
        Some(instruction) => {
            let rows = rows_of(made);
            if ends_by(is_first, frame, instruction) || !is_local_by(in_spaces, rows, instruction) {
                return Ok(None);
            }
            match run_local(alloc, instruction, rows, frame, values.as_mut_slice()) {
                Ok(end) => Ok(Some(end)),
                Err(fault) => Err(fault),
            }
        }
    }
}
