ghost use Rattle.std.specs.Prelude.{◌≡◌, ◌<◌, IfOk, OnErr, OnOk, Some, length};
ghost use Rattle.s38_local.specs.Local.{operand, receiver_of};
ghost use Rattle.s38_local.specs.Overlap.{bytes_past, is_place, own_bytes, reads, string_run};

use crate::local_end::LocalEnd;
use crate::operands::{bytes_of, operand, place_of, receiver_of, value_bytes};
use crate::written::written;
use s38_base::{Bytes, NoMemory, Op};
use s38_code::{Arg, Val};
use std::alloc::Global;
use std::mem;

fn is_place(at: usize, place: Option<usize>) -> bool
    ensures { result ≡ is_place at place }
{
    match place {
        Some(place) => place == at,
        None => false,
    }
}

/// Whether one of the sources lies at a place. Two names may have the same place.
fn reads(homes: &[usize], at: usize, args: &[Arg]) -> bool
    ensures { result ≡ reads homes.now at args.now }
{
    is_place(at, place_of(homes, operand(args, 2)))
        || is_place(at, place_of(homes, operand(args, 3)))
        || is_place(at, place_of(homes, operand(args, 4)))
}

/// The bytes of the receiver, where it is a source too.
fn own_bytes(
    alloc: Global,
    homes: &[usize],
    values: &[Val],
    at: usize,
    args: &[Arg],
) -> Result<Bytes, NoMemory>
    ensures { IfOk result (λ own. own ≡ own_bytes homes.now values.now at args.now) }
{
    if reads(homes, at, args) {
        Bytes::from_slice(alloc, value_bytes(values.get(at)))
    } else {
        Ok(Bytes::new(alloc))
    }
}

/// The bytes of the source at a place, while the receiver is taken out.
fn bytes_past<'a>(
    homes: &[usize],
    at: usize,
    own: &'a Bytes,
    values: &'a [Val],
    args: &'a [Arg],
    k: usize,
) -> &'a [u8]
    ensures { result.now ≡ bytes_past homes.now at own.now values.now (operand args.now k) }
{
    let arg = operand(args, k);
    if is_place(at, place_of(homes, arg)) {
        own.as_slice()
    } else {
        bytes_of(homes, values, arg)
    }
}

/// Writes the receiver at a place by the sources.
fn write_at(
    op: Op,
    homes: &[usize],
    values: &mut [Val],
    at: usize,
    args: &[Arg],
    own: &Bytes,
) -> LocalEnd
    requires within { at < length values.old }
    requires own { own.now ≡ own_bytes homes.now values.old at args.now }
    requires place { receiver_of homes.now args.now ≡ Some at }
    ensures end { result ≡ (string_run homes.now values.old op args.now).end }
    ensures values { values.new ≡ (string_run homes.now values.old op args.now).values }
{
    let taken = mem::replace(&mut values[at], Val::Branch(false));
    let a = bytes_past(homes, at, own, values, args, 2);
    let b = bytes_past(homes, at, own, values, args, 3);
    let c = bytes_past(homes, at, own, values, args, 4);
    let (value, end) = written(op, taken, a, b, c);
    values[at] = value;
    end
}

fn string_at(
    alloc: Global,
    op: Op,
    homes: &[usize],
    values: &mut [Val],
    at: usize,
    args: &[Arg],
) -> Result<LocalEnd, NoMemory>
    requires place { receiver_of homes.now args.now ≡ Some at }
    ensures end { IfOk result (λ end. end ≡ (string_run homes.now values.old op args.now).end) }
    ensures values { OnOk result (values.new ≡ (string_run homes.now values.old op args.now).values) }
    ensures err { OnErr result (values.new ≡ values.old) }
{
    if values.len() <= at {
        return Ok(LocalEnd::Next);
    }
    match own_bytes(alloc, homes, values, at, args) {
        Err(fault) => Err(fault),
        Ok(own) => Ok(write_at(op, homes, values, at, args, &own)),
    }
}

/// A string instruction. A receiver that is a source too needs memory for its own bytes.
#[tactic(auto, using(crate::proofs::PlaceLaws::other_end, crate::proofs::PlaceLaws::other_values))]
pub fn string_run(
    alloc: Global,
    op: Op,
    homes: &[usize],
    values: &mut [Val],
    args: &[Arg],
) -> Result<LocalEnd, NoMemory>
    ensures end { IfOk result (λ end. end ≡ (string_run homes.now values.old op args.now).end) }
    ensures values { OnOk result (values.new ≡ (string_run homes.now values.old op args.now).values) }
    ensures err { OnErr result (values.new ≡ values.old) }
{
    match receiver_of(homes, args) {
        None => Ok(LocalEnd::Next),
        Some(at) => string_at(alloc, op, homes, values, at, args),
    }
}
