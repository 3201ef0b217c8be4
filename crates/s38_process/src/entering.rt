//! How a process goes on by what came: into a program that was called, or after the instruction.
ghost use Rattle.std.specs.Prelude.{◌≡◌, ◌<◌, OnErr, OnOk, Some, length};
ghost use Rattle.std.specs.Option.{option_copied};
ghost use Rattle.s38_code.specs.declared.program.Instruction.{Instruction};
ghost use Rattle.s38_process.specs.Invocations.{instruction_of, instructions_in};
ghost use Rattle.s38_process.specs.AfterReply.{program_returned, went_by, went_into};

use crate::invocations::{DEEPEST, Invocations};
use s38_base::{NoMemory, Op, TryClone};
use s38_code::{Code, Val};
use std::alloc::Global;

/// The program that came, where the first value is one.
fn program_in(given: &[Val]) -> Option<&Code>
    ensures { option_copied result ≡ program_returned given.now }
{
    match given {
        [Val::Code(code), ..] => Some(code),
        _ => None,
    }
}

/// The operation that comes next.
fn operation(invocations: &Invocations) -> Op
    requires { invocations.now.top.frame.at < length (instructions_in invocations.now.top.made) }
    ensures { (i : Instruction) → instruction_of invocations.now.top ≡ Some i → result ≡ i.op }
{
    match invocations.instruction() {
        Some(instruction) => instruction.op,
        None => Op::Rtx,
    }
}

fn call(alloc: Global, invocations: &mut Invocations, given: &[Val]) -> Result<(), NoMemory>
    requires { invocations.old.top.frame.at < length (instructions_in invocations.old.top.made) }
    ensures ok { (i : Instruction) → instruction_of invocations.old.top ≡ Some i
        → OnOk result (invocations.new ≡ went_into invocations.old given.now i Op.Callx (program_returned given.now)) }
    ensures err { OnErr result (invocations.new ≡ invocations.old) }
{
    match program_in(given) {
        Some(code) => {
            if invocations.depth() < DEEPEST {
                return match code.try_clone(alloc) {
                    Ok(code) => invocations.call(alloc, code),
                    Err(fault) => Err(fault),
                };
            }
        }
        None => {}
    }
    invocations.receive(alloc, given)
}

fn transfer(alloc: Global, invocations: &mut Invocations, given: &[Val]) -> Result<(), NoMemory>
    requires { invocations.old.top.frame.at < length (instructions_in invocations.old.top.made) }
    ensures ok { (i : Instruction) → instruction_of invocations.old.top ≡ Some i
        → OnOk result (invocations.new ≡ went_into invocations.old given.now i Op.Xctl (program_returned given.now)) }
    ensures err { OnErr result (invocations.new ≡ invocations.old) }
{
    match program_in(given) {
        Some(code) => {
            return match code.try_clone(alloc) {
                Ok(code) => invocations.transfer(alloc, code),
                Err(fault) => Err(fault),
            };
        }
        None => {}
    }
    invocations.receive(alloc, given)
}

/// Goes into a program that came, or on after the instruction with the values that came. An error changes nothing.
pub fn go_into(alloc: Global, invocations: &mut Invocations, given: &[Val]) -> Result<(), NoMemory>
    requires { invocations.old.top.frame.at < length (instructions_in invocations.old.top.made) }
    ensures ok { OnOk result (invocations.new ≡ went_by invocations.old (instruction_of invocations.old.top) given.now) }
    ensures err { OnErr result (invocations.new ≡ invocations.old) }
{
    match operation(invocations) {
        Op::Callx => call(alloc, invocations, given),
        Op::Xctl => transfer(alloc, invocations, given),
        _ => invocations.receive(alloc, given),
    }
}
