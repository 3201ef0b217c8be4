ghost use Rattle.std.specs.Prelude.{◌≡◌, IfOk, length, replicate};
ghost use Rattle.s38_compute.specs.Computed.{copied_len, copies_left, copies_right, is_copy, shift_of, written_over};

use crate::sources::Sources;
use s38_base::{Bytes, NoMemory, Op};
use std::alloc::Global;

/// Bytes are copied at the left, and a longer receiver keeps its others.
pub fn copies_left(op: Op) -> bool
    ensures { result ≡ copies_left op }
{
    matches!(op, Op::Cpybla | Op::Xlate)
}

/// Or at the right.
pub fn copies_right(op: Op) -> bool
    ensures { result ≡ copies_right op }
{
    matches!(op, Op::Cpybra)
}

fn is_copy(op: Op) -> bool
    ensures { result ≡ is_copy op }
{
    copies_left(op) || copies_right(op)
}

/// How many bytes are copied.
fn copied_len<S: Sources>(sources: &S) -> usize
    ensures { result ≡ copied_len (S.readings sources.now) }
{
    sources.room().min(sources.size(2))
}

/// How many bytes after the beginning of its receiver a copy at the right begins.
pub fn shift_of<S: Sources>(sources: &S, op: Op) -> usize
    ensures { result ≡ shift_of op (S.readings sources.now) }
{
    if copies_right(op) {
        sources.room().saturating_sub(sources.size(2))
    } else {
        0
    }
}

/// What a string is written over: a copy that keeps no rest gives the bytes alone that it copies.
pub fn written_over<S: Sources>(alloc: Global, sources: &S, op: Op) -> Result<Bytes, NoMemory>
    ensures { IfOk result (λ made. made ≡ written_over op (S.readings sources.now)) }
{
    if !sources.keeps_rest() && is_copy(op) {
        return Bytes::repeated(alloc, 0, copied_len(sources));
    }
    sources.held(alloc)
}
