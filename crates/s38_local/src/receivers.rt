ghost use Rattle.std.specs.Prelude.{◌≡◌, ◌<◌, ◌==◌, Some, IsTrue, if◌then◌else◌, length};
ghost use Rattle.std.specs.Option.{option_copied};
ghost use Rattle.std.specs.Result.{ForOk};
ghost use Rattle.s38_base.specs.Scalar.{fits, scalar_image};
ghost use Rattle.s38_base.specs.Attributes.{length_of};
ghost use Rattle.s38_local.specs.Received.{branch_end, bytes_put, jump_to, jumps, number_put, number_received, pointer_received, value_with_bytes};
ghost use Rattle.s38_local.specs.Variables.{value_put_at};
ghost use Rattle.s38_code.specs.declared.reply.Val.{Val};

use crate::local_end::LocalEnd;
use s38_base::{Attr, Bytes, Exception, HeldPointer, Pointer};
use s38_code::{Arg, Val};
use s38_decimal::write_fitting;
use std::mem;

/// Writes a number in bytes of its attribute's length.
#[inline(always)]
fn write_held(bytes: &mut Bytes, attr: Attr, units: i128)
    requires { IsTrue (fits attr units) }
    ensures { bytes.new ≡ (if length bytes.old == length_of attr then scalar_image attr units else bytes.old) }
{
    if bytes.len() != attr.length() as usize {
        return;
    }
    write_fitting(attr, units, bytes.as_mut_slice());
}

#[inline(always)]
fn write_number(values: &mut [Val], at: usize, attr: Attr, units: i128)
    requires fits { IsTrue (fits attr units) }
    requires within { at < length values.old }
    ensures { values.new ≡ number_put values.old (Some at) attr units }
{
    match &mut values[at] {
        Val::Bytes(bytes) => write_held(bytes, attr, units),
        _ => {}
    }
}

#[inline(always)]
pub fn number_put(values: &mut [Val], to: Option<usize>, attr: Attr, units: i128)
    requires { IsTrue (fits attr units) }
    ensures { values.new ≡ number_put values.old to attr units }
{
    match to {
        Some(at) => {
            if at < values.len() {
                write_number(values, at, attr, units);
            }
        }
        None => {}
    }
}

/// The receiver gets a number, or the exception is signalled and all variables stay.
pub fn receive_number(
    values: &mut [Val],
    to: Option<usize>,
    attr: Attr,
    given: Result<i128, Exception>,
) -> LocalEnd
    requires { ForOk given (λ units. IsTrue (fits attr units)) }
    ensures end { result ≡ (number_received values.old to attr given).end }
    ensures values { values.new ≡ (number_received values.old to attr given).values }
{
    match given {
        Err(refusal) => LocalEnd::Signal(refusal),
        Ok(units) => {
            number_put(values, to, attr, units);
            LocalEnd::Next
        }
    }
}

fn pointer_put(values: &mut [Val], to: Option<usize>, pointer: Pointer)
    ensures { values.new ≡ value_put_at values.old to (Val.Ptr (Some pointer)) }
{
    match to {
        Some(at) => {
            if at < values.len() {
                values[at] = Val::Ptr(HeldPointer::of(Some(pointer)));
            }
        }
        None => {}
    }
}

/// The value, with these bytes where it holds some.
fn with_bytes(value: Val, bytes: Bytes) -> Val
    ensures { result ≡ value_with_bytes bytes value }
{
    match value {
        Val::Bytes(_) => Val::Bytes(bytes),
        other => other,
    }
}

fn write_bytes(values: &mut [Val], at: usize, bytes: Bytes)
    requires { at < length values.old }
    ensures { values.new ≡ bytes_put values.old (Some at) bytes }
{
    let value = mem::replace(&mut values[at], Val::Branch(false));
    values[at] = with_bytes(value, bytes);
}

/// The receiver gets bytes, where it holds some.
pub fn bytes_put(values: &mut [Val], to: Option<usize>, bytes: Bytes)
    ensures { values.new ≡ bytes_put values.old to bytes }
{
    match to {
        Some(at) => {
            if at < values.len() {
                write_bytes(values, at, bytes);
            }
        }
        None => {}
    }
}

/// The receiver gets a pointer, or the exception is signalled and all variables stay.
pub fn receive_pointer(
    values: &mut [Val],
    to: Option<usize>,
    given: Result<Pointer, Exception>,
) -> LocalEnd
    ensures end { result ≡ (pointer_received values.old to given).end }
    ensures values { values.new ≡ (pointer_received values.old to given).values }
{
    match given {
        Err(exception) => LocalEnd::Signal(exception),
        Ok(pointer) => {
            pointer_put(values, to, pointer);
            LocalEnd::Next
        }
    }
}

/// Goes on at a label.
pub fn jump_to(label: Option<&Arg>) -> LocalEnd
    ensures { result ≡ jump_to (option_copied label.entry) }
{
    match label {
        Some(Arg::Jump(at)) => LocalEnd::Jump { at: *at as usize },
        _ => LocalEnd::Next,
    }
}

/// Goes on at a label where the test holds.
#[inline(always)]
pub fn jump(test: bool, label: Option<&Arg>) -> LocalEnd
    ensures { result ≡ jumps test (option_copied label.entry) }
{
    if test { jump_to(label) } else { LocalEnd::Next }
}

/// Goes on at a label where the test holds, or the exception is signalled.
pub fn branch_end(test: Result<bool, Exception>, label: Option<&Arg>) -> LocalEnd
    ensures { result ≡ branch_end (option_copied label.entry) test }
{
    match test {
        Err(exception) => LocalEnd::Signal(exception),
        Ok(test) => jump(test, label),
    }
}
