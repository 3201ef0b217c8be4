//! Instructions that go on elsewhere, or look at the descriptions of exceptions.
ghost use Rattle.std.specs.Prelude.{◌≡◌, ◌<◌, ◌+◌, ◌^◌, IfOk, OnErr, OnOk, slice_set};
ghost use Rattle.std.specs.Option.{option_copied};
ghost use Rattle.s38_base.specs.Signals.{plain};
ghost use Rattle.s38_local.specs.declared.local_end.LocalEnd.{LocalEnd};
ghost use Rattle.s38_local.specs.Frames.{called, called_at, code_bytes, exception_code, returned, switched};
ghost use Rattle.s38_local.specs.Received.{bytes_put};
ghost use Rattle.s38_local.specs.Local.{is_control};

use crate::frame::Frame;
use crate::local_end::LocalEnd;
use crate::receivers::bytes_put;
use s38_base::exceptions::LIMIT_EXCEEDED;
use s38_base::limits::MOST_CALLS;
use s38_base::{Bytes, Exception, NoMemory, Op, Seq};
use s38_code::{Arg, Val};
use std::alloc::Global;
use std::mem;

/// The word ON.
const SWITCH_ON: u32 = 0;

/// Whether an instruction goes on elsewhere, or looks at the descriptions of exceptions.
#[inline(always)]
pub fn is_control(op: Op) -> bool
    ensures { result ≡ is_control op }
{
    matches!(
        op,
        Op::B | Op::Calli | Op::Rtx | Op::Sigexcp | Op::Retexcpd | Op::Modexcpd
    )
}

fn call_at(frame: &mut Frame, at: u32) -> Result<LocalEnd, NoMemory>
    requires { frame.old.at + 1 < 2 ^ 64 }
    ensures end { IfOk result (λ end. end ≡ (called_at frame.old at).end) }
    ensures frame { OnOk result (frame.new ≡ (called_at frame.old at).frame) }
    ensures err { OnErr result (frame.new ≡ frame.old) }
{
    if frame.returns.len() >= MOST_CALLS {
        return Ok(LocalEnd::Signal(Exception::plain(LIMIT_EXCEEDED, 0)));
    }
    match frame.returns.push(frame.at + 1) {
        Ok(()) => Ok(LocalEnd::Jump { at: at as usize }),
        Err(fault) => Err(fault),
    }
}

/// Goes on at a label, and comes back after the instruction by the next return.
pub fn call(frame: &mut Frame, label: Option<&Arg>) -> Result<LocalEnd, NoMemory>
    requires { frame.old.at + 1 < 2 ^ 64 }
    ensures end { IfOk result (λ end. end ≡ (called frame.old (option_copied label.entry)).end) }
    ensures frame { OnOk result (frame.new ≡ (called frame.old (option_copied label.entry)).frame) }
    ensures err { OnErr result (frame.new ≡ frame.old) }
{
    match label {
        Some(Arg::Jump(at)) => call_at(frame, *at),
        _ => Ok(LocalEnd::Next),
    }
}

/// Comes back from the newest internal call; outside of internal calls the invocation ends.
pub fn return_from(frame: &mut Frame) -> LocalEnd
    ensures end { result ≡ (returned frame.old).end }
    ensures frame { frame.new ≡ (returned frame.old).frame }
    ensures leaves { result ≡ LocalEnd.Next → ⊥ }
{
    match frame.returns.pop() {
        Some(at) => LocalEnd::Jump { at },
        None => LocalEnd::Return,
    }
}

/// Signals an exception by its code.
pub fn signal(word: u32) -> Exception
    ensures { result ≡ plain (exception_code word) 0 }
{
    Exception::plain((word % 65536) as u16, 0)
}

/// The two bytes of the exception that was taken last.
fn code_bytes(alloc: Global, code: u16) -> Result<Bytes, NoMemory>
    ensures { IfOk result (λ bytes. bytes ≡ code_bytes code) }
{
    Bytes::from_slice(alloc, &[(code / 256) as u8, (code % 256) as u8])
}

/// A variable gets the code of the exception that was taken last.
pub fn tell_latest(
    alloc: Global,
    frame: &Frame,
    values: &mut [Val],
    to: Option<usize>,
) -> Result<(), NoMemory>
    ensures ok { OnOk result (values.new ≡ bytes_put values.old to (code_bytes frame.now.latest)) }
    ensures err { OnErr result (values.new ≡ values.old) }
{
    match code_bytes(alloc, frame.latest) {
        Ok(bytes) => {
            bytes_put(values, to, bytes);
            Ok(())
        }
        Err(fault) => Err(fault),
    }
}

fn switch_at(on: &mut [bool], at: usize, is_on: bool)
    ensures { on.new ≡ slice_set on.old at is_on }
{
    if at < on.len() {
        on[at] = is_on;
    }
}

/// Switches a description on or off.
pub fn switch(alloc: Global, frame: &mut Frame, description: Option<&Arg>, word: u32)
    ensures { frame.new ≡ switched frame.old (option_copied description.entry) word }
{
    match description {
        Some(Arg::Item(item)) => {
            let mut on = mem::replace(&mut frame.on, Seq::new(alloc)).into_vec();
            switch_at(on.as_mut_slice(), *item as usize, word == SWITCH_ON);
            frame.on = Seq::from_vec(on);
        }
        _ => {}
    }
}
