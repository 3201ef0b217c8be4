//! The invocations of a process, and the variables of all of them.
ghost use Rattle.std.specs.Prelude.{◌≡◌, ◌<◌, ◌+◌, ◌^◌, IfOk, IfSome, IsNone, IsTrue, OnErr, OnOk, drop, is_some, length, not};
ghost use Rattle.std.specs.Option.{option_copied};
ghost use Rattle.s38_local.specs.declared.local_end.LocalEnd.{LocalEnd};
ghost use Rattle.s38_process.specs.Exceptions.{takes};
ghost use Rattle.s38_process.specs.Invocations.{arguments_in, deepest, depth_of, exchanged, first_stack, instruction_of, instructions_in, invoked, places_for, popped, program_rows_in, with_call};
ghost use Rattle.s38_process.specs.Process.{with_frame};
ghost use Rattle.s38_process.specs.AfterReply.{went_on};
ghost use Rattle.s38_process.specs.LocalRun.{alone_there, is_none, ran};
ghost use Rattle.s38_requests.specs.Requests.{request_of};

use crate::held_invocation::HeldInvocation;
use crate::homes::{Passed, first_frame, own_places};
use crate::made::{code_of, rows_of};
use crate::receiving::{next_instruction, receive};
use crate::variables::{add_first_values, blank_values, first_values};
use s38_base::NoMemory;
use s38_code::{Arg, Code, CreateResult, Instruction, Request, Val};
use s38_local::{Frame, LocalEnd};
use s38_requests::{Recent, Scope, request_of};
use std::alloc::Global;
use std::marker::Model;
use std::mem;

/// How many invocations there are at most.
pub const DEEPEST: usize = 64;

/// The invocations of a process and their variables.
#[derive(Drop)]
pub struct Invocations {
    values: Vec<Val>,
    top: HeldInvocation,
    /// Those that called it, the oldest first.
    callers: Vec<HeldInvocation>,
}

impl Model for Invocations {
    ghost use Rattle.std.specs.Prelude.{◌<◌, length, reverse};
    ghost use Rattle.s38_process.specs.Invocations.{Stack, deepest};

    ghost Value = { Stack };

    ghost view = { λ s. record { values = s.values.items; top = s.top; callers = reverse s.callers.items } };

    ghost invariant = { λ s. length s.callers.items < deepest };
}

/// The operands of a call after the program.
fn after_first(args: &[Arg]) -> &[Arg]
    ensures { result.now ≡ drop 1 args.now }
{
    match args {
        [] => &[],
        [_, rest @ ..] => rest,
    }
}

/// The arguments of a call.
fn arguments_in(instruction: Option<&Instruction>) -> &[Arg]
    ensures { result.now ≡ arguments_in (option_copied instruction.entry) }
{
    match instruction {
        None => &[],
        Some(instruction) => after_first(instruction.args.as_slice()),
    }
}

/// The place after the next instruction.
fn place_after_next(top: &HeldInvocation) -> usize
    requires { top.now.frame.at < length (instructions_in top.now.made) }
    ensures { result ≡ top.now.frame.at + 1 }
{
    let at = top.frame().at;
    let _ = &code_of(top.made())[at];
    at + 1
}

impl Invocations {
    /// The first invocation of a job, over what creation made of its template.
    pub fn first(alloc: Global, made: CreateResult) -> Result<Invocations, NoMemory>
        ensures { IfOk result (λ s. s ≡ first_stack made) }
    {
        let mut values = blank_values(alloc, rows_of(&made))?;
        let base = values.len();
        let places = own_places(alloc, base)?;
        let given = Passed::Given(places.as_slice());
        let frame = first_frame(alloc, rows_of(&made), base, given)?;
        let mut own = first_values(alloc, rows_of(&made))?;
        values.append(&mut own)?;
        Ok(Invocations {
            values,
            top: HeldInvocation::new(made, frame),
            callers: Vec::new(alloc),
        })
    }

    /// How many invocations there are.
    pub fn depth(&self) -> usize
        ensures depth { result ≡ depth_of self.now }
        ensures most { result < deepest + 1 }
    {
        self.callers.len() + 1
    }

    /// Whether the newest invocation is the first.
    fn is_first(&self) -> bool
        ensures { result ≡ is_none self.now.callers }
    {
        self.callers.len() == 0
    }

    /// What creation made of the newest invocation's template.
    pub fn made(&self) -> &CreateResult
        ensures { result.now ≡ self.now.top.made }
    {
        self.top.made()
    }

    /// The frame of the newest invocation.
    pub fn frame(&self) -> &Frame
        ensures { result.now ≡ self.now.top.frame }
    {
        self.top.frame()
    }

    /// The instruction that comes next.
    pub fn instruction(&self) -> Option<&Instruction>
        ensures { option_copied result ≡ instruction_of self.now.top }
    {
        code_of(self.top.made()).get(self.top.frame().at)
    }

    /// What an instruction of the newest invocation asks.
    pub fn request(
        &self,
        alloc: Global,
        recent: &mut Recent,
        instruction: &Instruction,
    ) -> Result<Request, NoMemory>
        ensures { IfOk result (λ request. request ≡ request_of (program_rows_in self.now.top.made) self.now.top.frame.homes self.now.values instruction.now) }
    {
        let frame = self.top.frame();
        let scope = Scope {
            rows: rows_of(self.top.made()),
            homes: frame.homes.as_slice(),
            values: self.values.as_slice(),
        };
        request_of(alloc, recent, frame.at, scope, instruction)
    }

    /// The newest invocation goes on at a place.
    pub fn go_to(&mut self, at: usize)
        ensures { self.new ≡ record self.old { top = record self.old.top { frame = record self.old.top.frame { at = at } } } }
    {
        self.top.go_to(at);
    }

    /// The newest invocation takes an exception: it goes on at a label, and its internal calls end.
    pub fn take(&mut self, alloc: Global, code: u16, at: usize)
        ensures { self.new ≡ record self.old { top = takes self.old.top code at } }
    {
        self.top.take(alloc, code, at);
    }

    /// The newest invocation ends, and its variables with it; false where it is the first, which stays.
    pub fn pop(&mut self) -> bool
        ensures more { result ≡ not (is_none self.old.callers) }
        ensures popped { self.new ≡ popped self.old }
        ensures fewer { IsTrue result → length self.new.callers + 1 ≡ length self.old.callers }
    {
        match self.callers.pop() {
            None => false,
            Some(caller) => {
                self.values.truncate(self.top.frame().base);
                self.top = caller;
                true
            }
        }
    }

    /// A program that the next instruction begins after so many variables, with its arguments.
    fn entrant(&self, alloc: Global, code: Code, base: usize) -> Result<HeldInvocation, NoMemory>
        ensures { IfOk result (λ entrant. entrant ≡ invoked code base (places_for self.now.top base)) }
    {
        let passed = Passed::Arguments {
            homes: self.top.frame().homes.as_slice(),
            arguments: arguments_in(self.instruction()),
        };
        let frame = first_frame(alloc, code.program().rows.as_slice(), base, passed)?;
        Ok(HeldInvocation::new(CreateResult::Created(code), frame))
    }

    /// A program is called by the next instruction. An error changes nothing.
    pub fn call(&mut self, alloc: Global, code: Code) -> Result<(), NoMemory>
        requires within { self.old.top.frame.at < length (instructions_in self.old.top.made) }
        requires depth { depth_of self.old < deepest }
        ensures ok { OnOk result (self.new ≡ with_call self.old code) }
        ensures err { OnErr result (self.new ≡ self.old) }
    {
        let behind = place_after_next(&self.top);
        let entrant = match self.entrant(alloc, code, self.values.len()) {
            Ok(entrant) => entrant,
            Err(fault) => return Err(fault),
        };
        match self.callers.reserve(1) {
            Ok(()) => {}
            Err(_) => return Err(NoMemory),
        }
        match add_first_values(alloc, &mut self.values, rows_of(entrant.made())) {
            Ok(()) => {}
            Err(fault) => return Err(fault),
        }
        let mut caller = mem::replace(&mut self.top, entrant);
        caller.go_to(behind);
        self.callers.push_reserved(caller);
        Ok(())
    }

    /// A program comes in place of the newest invocation, whose variables end. An error changes nothing.
    pub fn transfer(&mut self, alloc: Global, code: Code) -> Result<(), NoMemory>
        ensures ok { OnOk result (self.new ≡ exchanged self.old code) }
        ensures err { OnErr result (self.new ≡ self.old) }
    {
        let base = self.top.frame().base;
        let entrant = match self.entrant(alloc, code, base) {
            Ok(entrant) => entrant,
            Err(fault) => return Err(fault),
        };
        let mut values = match first_values(alloc, rows_of(entrant.made())) {
            Ok(values) => values,
            Err(fault) => return Err(fault),
        };
        match self.values.reserve(values.len()) {
            Ok(()) => {}
            Err(_) => return Err(NoMemory),
        }
        self.values.truncate(base);
        self.values.append(&mut values).unwrap();
        self.top = entrant;
        Ok(())
    }

    /// The newest invocation goes on with what came to its receivers. An error changes nothing.
    pub fn receive(&mut self, alloc: Global, given: &[Val]) -> Result<(), NoMemory>
        requires within { self.old.top.frame.at < length (instructions_in self.old.top.made) }
        ensures ok { OnOk result (self.new ≡ went_on self.old (instruction_of self.old.top) given.now) }
        ensures err { OnErr result (self.new ≡ self.old) }
    {
        let at = self.top.frame().at;
        let instruction = &code_of(self.top.made())[at];
        let next = next_instruction(instruction, given, at);
        let rows = rows_of(self.top.made());
        match receive(
            alloc,
            instruction,
            &mut self.values,
            rows,
            self.top.frame().homes.as_slice(),
            given,
        ) {
            Ok(()) => {
                self.top.go_to(next);
                Ok(())
            }
            Err(fault) => Err(fault),
        }
    }

    /// Does the next instruction where the process does it by itself; the end of the code is a return. None where it
    /// does not: then nothing changes, and by an error neither.
    #[inline(always)]
    pub fn run_alone(&mut self, alloc: Global) -> Result<Option<LocalEnd>, NoMemory>
        ensures alone { IfOk result (λ end. is_some end ≡ alone_there self.old (instruction_of self.old.top)) }
        ensures end { IfOk result (λ end. IfSome end (λ end. end ≡ (ran self.old).end)) }
        ensures stack { IfOk result (λ end. IfSome end (λ _. self.new ≡ with_frame self.old (ran self.old).values (ran self.old).frame)) }
        ensures place { IfOk result (λ end. IfSome end (λ end. end ≡ LocalEnd.Next → self.old.top.frame.at + 1 < 2 ^ 64)) }
        ensures stays { IfOk result (λ end. IsNone end → self.new ≡ self.old) }
        ensures err { OnErr result (self.new ≡ self.old) }
    {
        let is_first = self.is_first();
        self.top.run_alone(alloc, is_first, &mut self.values)
    }
}
