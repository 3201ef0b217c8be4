//! A receiver once a value has come: a copy into a longer one leaves the rest.
ghost use Rattle.std.specs.Prelude.{◌≡◌, ◌<◌, ◌||◌, IsTrue, OnErr, OnOk, Some, length, slice_get, slice_set};
ghost use Rattle.s38_compute.specs.Computed.{copies_left, copies_right};
ghost use Rattle.s38_process.specs.Replies.{merged, merged_bytes, put_received};

use s38_base::{Bytes, NoMemory, Op, TryClone};
use s38_code::Val;
use s38_compute::{copies_left, copies_right};
use s38_strings::{copy_left, copy_right};
use std::alloc::Global;
use std::mem;

/// Writes the bytes that came into those that are there.
fn merge_into(op: Op, held: &mut [u8], given: &[u8])
    requires { IsTrue (copies_left op || copies_right op) }
    ensures { held.new ≡ merged_bytes op held.old given.now }
{
    if copies_left(op) {
        copy_left(held, given);
    } else {
        copy_right(held, given);
    }
}

/// The bytes of a receiver once a value has come.
fn merge_bytes(op: Op, old: Bytes, new: Bytes) -> Bytes
    ensures { result ≡ merged_bytes op old new }
{
    if copies_left(op) || copies_right(op) {
        let mut held = old;
        merge_into(op, held.as_mut_slice(), new.as_slice());
        held
    } else {
        new
    }
}

/// A receiver once a value has come: a copy into a longer one leaves the rest.
fn merge(op: Op, old: Val, new: Val) -> Val
    ensures { result ≡ merged op (Some old) new }
{
    match old {
        Val::Bytes(old) => match new {
            Val::Bytes(new) => Val::Bytes(merge_bytes(op, old, new)),
            other => other,
        },
        _ => new,
    }
}

fn put_at(op: Op, values: &mut [Val], at: usize, value: Val)
    requires { at < length values.old }
    ensures { values.new ≡ slice_set values.old at (merged op (slice_get values.old at) value) }
{
    let old = mem::replace(&mut values[at], Val::Branch(false));
    values[at] = merge(op, old, value);
}

/// A value goes to the receiver at a place, where there is one.
pub fn put(op: Op, values: &mut [Val], place: Option<usize>, value: Val)
    ensures { values.new ≡ put_received op values.old place value }
{
    if let Some(at) = place {
        if at < values.len() {
            put_at(op, values, at, value);
        }
    }
}

/// Writes the bytes that came into those that are there.
fn merge_over(alloc: Global, op: Op, held: &mut Bytes, given: &[u8])
    requires { IsTrue (copies_left op || copies_right op) }
    ensures { held.new ≡ merged_bytes op held.old given.now }
{
    merge_into(op, held.as_mut_slice(), given);
}

/// Writes the bytes that came over as many others.
fn overwrite(alloc: Global, held: &mut Bytes, given: &[u8])
    requires { length held.old ≡ length given.now }
    ensures { held.new ≡ given.now }
{
    held.as_mut_slice().copy_from_slice(given);
}

/// Bytes of another number come in place of those that are there.
fn replace_bytes(alloc: Global, held: &mut Bytes, given: &[u8]) -> Result<(), NoMemory>
    ensures ok { OnOk result (held.new ≡ given.now) }
    ensures err { OnErr result (held.new ≡ held.old) }
{
    match Bytes::from_slice(alloc, given) {
        Err(fault) => Err(fault),
        Ok(copy) => {
            *held = copy;
            Ok(())
        }
    }
}

/// A variable of bytes gets those that came, for which it takes memory only where they are more or fewer.
fn put_bytes(alloc: Global, op: Op, held: &mut Bytes, given: &[u8]) -> Result<(), NoMemory>
    ensures ok { OnOk result (held.new ≡ merged_bytes op held.old given.now) }
    ensures err { OnErr result (held.new ≡ held.old) }
{
    if copies_left(op) || copies_right(op) {
        merge_over(alloc, op, held, given);
        Ok(())
    } else if held.len() == given.len() {
        overwrite(alloc, held, given);
        Ok(())
    } else {
        replace_bytes(alloc, held, given)
    }
}

fn replace_value(alloc: Global, held: &mut Val, given: &Val) -> Result<(), NoMemory>
    ensures ok { OnOk result (held.new ≡ given.now) }
    ensures err { OnErr result (held.new ≡ held.old) }
{
    match given.try_clone(alloc) {
        Err(fault) => Err(fault),
        Ok(copy) => {
            *held = copy;
            Ok(())
        }
    }
}

/// A variable gets a value that came.
fn put_value(alloc: Global, op: Op, held: &mut Val, given: &Val) -> Result<(), NoMemory>
    ensures ok { OnOk result (held.new ≡ merged op (Some held.old) given.now) }
    ensures err { OnErr result (held.new ≡ held.old) }
{
    match given {
        Val::Bytes(came) => match held {
            Val::Bytes(bytes) => put_bytes(alloc, op, bytes, came.as_slice()),
            _ => replace_value(alloc, held, given),
        },
        _ => replace_value(alloc, held, given),
    }
}

/// A copy of a value goes to the receiver at a place, where there is one. An error changes nothing.
pub fn put_copy(
    alloc: Global,
    op: Op,
    values: &mut [Val],
    place: Option<usize>,
    given: &Val,
) -> Result<(), NoMemory>
    ensures ok { OnOk result (values.new ≡ put_received op values.old place given.now) }
    ensures err { OnErr result (values.new ≡ values.old) }
{
    match place {
        Some(at) if at < values.len() => put_value(alloc, op, &mut values[at], given),
        _ => Ok(()),
    }
}
