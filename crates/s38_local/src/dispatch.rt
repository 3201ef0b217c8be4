ghost use Rattle.std.specs.Prelude.{◌≡◌, ◌<◌, ◌+◌, ◌^◌, ℕ, IfOk, IsTrue, OnErr, OnOk, Some};
ghost use Rattle.s38_compute.specs.Computed.{pointer_given};
ghost use Rattle.s38_local.specs.Kinds.{bytes_run, pointer_run};
ghost use Rattle.s38_local.specs.Law.{FrameIsInRange, HavePlaces, KeepsLaw, shapes_of};
ghost use Rattle.s38_local.specs.Local.{computed_run, controlled, is_local, of_variables, run};
ghost use Rattle.s38_odt.specs.Suited.{IsSuited};

use crate::branches::branch;
use crate::control::{call, is_control, return_from, signal, switch, tell_latest};
use crate::frame::Frame;
use crate::local_end::LocalEnd;
use crate::numbers::number;
use crate::operands::{operand, place_of, receiver_of, word_of};
use crate::overlap::string_run;
use crate::receivers::{jump_to, receive_pointer};
use crate::variables::Variables;
use crate::way::{Way, way_of};
use s38_base::{Exception, NoMemory, Op, Pointer};
use s38_code::{Instruction, Row, Val};
use s38_compute::pointer_given;
use std::alloc::Global;

/// A string computation, which looks at no declaration.
#[tactic(auto, using(crate::proofs::ReceivedLaws::received_bytes), unfolding(s38_compute::specs::Computed::bytes_given))]
fn string(
    alloc: Global,
    rows: &[Row],
    homes: &[usize],
    values: &mut [Val],
    instruction: &Instruction,
) -> Result<LocalEnd, NoMemory>
    ensures end { IfOk result (λ end. end ≡ (bytes_run rows.now homes.now values.old instruction.now).end) }
    ensures values { OnOk result (values.new ≡ (bytes_run rows.now homes.now values.old instruction.now).values) }
    ensures err { OnErr result (values.new ≡ values.old) }
{
    let _ = rows;
    string_run(
        alloc,
        instruction.op,
        homes,
        values,
        instruction.args.as_slice(),
    )
}

fn pointer_read(
    rows: &[Row],
    homes: &[usize],
    values: &[Val],
    instruction: &Instruction,
) -> Result<Pointer, Exception>
    ensures { result ≡ pointer_given instruction.now.op (of_variables rows.now homes.now values.now instruction.now.args) }
{
    let args = instruction.args.as_slice();
    pointer_given(
        &Variables {
            rows,
            homes,
            values,
            args,
        },
        instruction.op,
    )
}

/// A space pointer that is moved.
#[tactic(auto, using(crate::proofs::ReceivedLaws::received_pointer))]
fn pointer(rows: &[Row], homes: &[usize], values: &mut [Val], instruction: &Instruction) -> LocalEnd
    ensures end { result ≡ (pointer_run rows.now homes.now values.old instruction.now).end }
    ensures values { values.new ≡ (pointer_run rows.now homes.now values.old instruction.now).values }
{
    let given = pointer_read(rows, homes, values, instruction);
    let to = receiver_of(homes, instruction.args.as_slice());
    receive_pointer(values, to, given)
}

/// Goes on elsewhere, or looks at the descriptions of exceptions.
fn control(
    alloc: Global,
    instruction: &Instruction,
    frame: &mut Frame,
    values: &mut [Val],
) -> Result<LocalEnd, NoMemory>
    requires { frame.old.at + 1 < 2 ^ 64 }
    ensures end { IfOk result (λ end. end ≡ (controlled frame.old values.old instruction.now instruction.now.op).end) }
    ensures frame { OnOk result (frame.new ≡ (controlled frame.old values.old instruction.now instruction.now.op).frame) }
    ensures values { OnOk result (values.new ≡ (controlled frame.old values.old instruction.now instruction.now.op).values) }
    ensures err { OnErr result ((frame.new ≡ frame.old) × (values.new ≡ values.old)) }
{
    let args = instruction.args.as_slice();
    let first = operand(args, 1);
    match instruction.op {
        Op::B => Ok(jump_to(first)),
        Op::Calli => call(frame, first),
        Op::Rtx => Ok(return_from(frame)),
        Op::Sigexcp => Ok(LocalEnd::Signal(signal(word_of(first)))),
        Op::Retexcpd => {
            let to = place_of(frame.homes.as_slice(), first);
            match tell_latest(alloc, frame, values, to) {
                Ok(()) => Ok(LocalEnd::Next),
                Err(fault) => Err(fault),
            }
        }
        Op::Modexcpd => {
            switch(alloc, frame, first, word_of(operand(args, 2)));
            Ok(LocalEnd::Next)
        }
        _ => Ok(LocalEnd::Next),
    }
}

/// Computes among the variables.
#[tactic(auto, unfolding(s38_compute::specs::Computed::computed))]
fn computation(
    alloc: Global,
    instruction: &Instruction,
    rows: &[Row],
    homes: &[usize],
    values: &mut [Val],
) -> Result<LocalEnd, NoMemory>
    ensures end { IfOk result (λ end. end ≡ (computed_run rows.now homes.now values.old instruction.now).end) }
    ensures values { OnOk result (values.new ≡ (computed_run rows.now homes.now values.old instruction.now).values) }
    ensures err { OnErr result (values.new ≡ values.old) }
{
    match way_of(instruction.op) {
        Way::Number => Ok(number(rows, homes, values, instruction)),
        Way::Branch => branch(alloc, rows, homes, values, instruction),
        Way::Text => string(alloc, rows, homes, values, instruction),
        Way::Pointer => Ok(pointer(rows, homes, values, instruction)),
        Way::Control | Way::Shared => Ok(LocalEnd::Next),
    }
}

/// Does a local instruction: reads its sources, then writes its receiver. A signal leaves all variables as they
/// were, and so does an error. Memory is taken only where the receiver of a string is a source too, by an internal
/// call, and for the code of an exception. Where it suits the declarations of its program, each variable goes on
/// holding what its declaration says, and control stays within the code.
#[tactic(auto, unfolding(crate::specs::Local::run))]
pub fn run_local(
    alloc: Global,
    instruction: &Instruction,
    rows: &[Row],
    frame: &mut Frame,
    values: &mut [Val],
) -> Result<LocalEnd, NoMemory>
    requires { frame.old.at + 1 < 2 ^ 64 }
    ensures end { IfOk result (λ end. end ≡ (run rows.now frame.old values.old (Some instruction.now)).end) }
    ensures frame { OnOk result (frame.new ≡ (run rows.now frame.old values.old (Some instruction.now)).frame) }
    ensures values { OnOk result (values.new ≡ (run rows.now frame.old values.old (Some instruction.now)).values) }
    ensures err { OnErr result ((frame.new ≡ frame.old) × (values.new ≡ values.old)) }
    ensures law { (count : ℕ) → IsSuited rows.now count instruction.now → IsTrue (is_local rows.now instruction.now) → HavePlaces rows.now frame.old.homes (shapes_of values.old) → FrameIsInRange count frame.old → frame.old.at < count → IfOk result (λ end. KeepsLaw rows.now count frame.old values.old instruction.now.args (record { end = end; frame = frame.new; values = values.new })) }
{
    if is_control(instruction.op) {
        control(alloc, instruction, frame, values)
    } else {
        computation(alloc, instruction, rows, frame.homes.as_slice(), values)
    }
}
