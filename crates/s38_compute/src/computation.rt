ghost use Rattle.std.specs.Prelude.{◌≡◌, IfOk, IsTrue};
ghost use Rattle.std.specs.Result.{ForOk};
ghost use Rattle.s38_base.specs.Scalar.{fits};
ghost use Rattle.s38_compute.specs.Computed.{as_branch, as_bytes, as_number, as_pointer, computed, computes_number, computes_string, failure_in, given_is_held, is_branch, is_computation, is_held_in, moves_pointer, number_given, value_in};

use crate::comparisons::{is_branch, test_failure, test_given};
use crate::given::Given;
use crate::numbers::number_given;
use crate::pointers::pointer_given;
use crate::sources::Sources;
use crate::strings::{bytes_failure, bytes_given};
use s38_base::{Attr, Bytes, Exception, NoMemory, Op, Pointer};
use s38_code::Val;
use std::alloc::Global;

/// Whether an instruction computes a number, of two numbers or of one.
#[inline(always)]
pub fn computes_number(op: Op) -> bool
    ensures { result ≡ computes_number op }
{
    matches!(
        op,
        Op::Addn | Op::Subn | Op::Mult | Op::Div | Op::Rem | Op::Neg | Op::Cpynv | Op::Scale
    )
}

/// Whether an instruction computes a string.
pub fn computes_string(op: Op) -> bool
    ensures { result ≡ computes_string op }
{
    matches!(
        op,
        Op::Cpybla
            | Op::Cpybra
            | Op::Cpyblap
            | Op::Cat
            | Op::Xlate
            | Op::Cvthc
            | Op::Cvtch
            | Op::And
            | Op::Or
            | Op::Xor
            | Op::Not
    )
}

fn moves_pointer(op: Op) -> bool
    ensures { result ≡ moves_pointer op }
{
    matches!(op, Op::Addspp | Op::Subspp)
}

/// Whether an instruction computes.
pub fn is_computation(op: Op) -> bool
    ensures { result ≡ is_computation op }
{
    computes_number(op) || is_branch(op) || computes_string(op) || moves_pointer(op)
}

/// What a computation signals; None also for another instruction. It takes no memory.
#[tactic(auto, unfolding(crate::specs::Computed::computed))]
pub fn failure<S: Sources>(sources: &S, op: Op, round: bool) -> Option<Exception>
    ensures { result ≡ failure_in (computed op round (S.readings sources.now)) }
{
    if computes_number(op) {
        number_given(sources, op, round).err()
    } else if is_branch(op) {
        test_failure(sources, op)
    } else if computes_string(op) {
        bytes_failure(sources, op)
    } else if moves_pointer(op) {
        pointer_given(sources, op).err()
    } else {
        None
    }
}

fn as_number(attr: Attr, given: Result<i128, Exception>) -> Result<Given, Exception>
    ensures { result ≡ as_number attr given }
{
    match given {
        Ok(units) => Ok(Given::Number { attr, units }),
        Err(exception) => Err(exception),
    }
}

fn as_branch(given: Result<bool, Exception>) -> Result<Given, Exception>
    ensures { result ≡ as_branch given }
{
    match given {
        Ok(taken) => Ok(Given::Branch(taken)),
        Err(exception) => Err(exception),
    }
}

fn as_bytes(given: Result<Bytes, Exception>) -> Result<Given, Exception>
    ensures { result ≡ as_bytes given }
{
    match given {
        Ok(bytes) => Ok(Given::Bytes(bytes)),
        Err(exception) => Err(exception),
    }
}

fn as_pointer(given: Result<Pointer, Exception>) -> Result<Given, Exception>
    ensures { result ≡ as_pointer given }
{
    match given {
        Ok(pointer) => Ok(Given::Pointer(pointer)),
        Err(exception) => Err(exception),
    }
}

fn number<S: Sources>(sources: &S, op: Op, round: bool) -> Result<Given, Exception>
    requires { IsTrue (computes_number op) }
    ensures exact { result ≡ as_number (S.readings sources.now).receiver (number_given op round (S.readings sources.now)) }
    ensures held { IfOk result (λ given. IsTrue (given_is_held given)) }
{
    as_number(sources.receiver(), number_given(sources, op, round))
}

/// What a computation gives or signals; None for another instruction.
#[tactic(auto, unfolding(crate::specs::Computed::computed))]
pub fn compute<S: Sources>(
    alloc: Global,
    sources: &S,
    op: Op,
    round: bool,
) -> Result<Option<Result<Given, Exception>>, NoMemory>
    ensures exact { IfOk result (λ made. made ≡ computed op round (S.readings sources.now)) }
    ensures held { IfOk result (λ made. IsTrue (is_held_in made)) }
{
    if computes_number(op) {
        Ok(Some(number(sources, op, round)))
    } else if is_branch(op) {
        Ok(Some(as_branch(test_given(alloc, sources, op)?)))
    } else if computes_string(op) {
        Ok(Some(as_bytes(bytes_given(alloc, sources, op)?)))
    } else if moves_pointer(op) {
        Ok(Some(as_pointer(pointer_given(sources, op))))
    } else {
        Ok(None)
    }
}

/// The value that a computation gives; None where it signals, and for another instruction.
pub fn value<S: Sources>(
    alloc: Global,
    sources: &S,
    op: Op,
    round: bool,
) -> Result<Option<Val>, NoMemory>
    ensures { IfOk result (λ made. made ≡ value_in (computed op round (S.readings sources.now))) }
{
    match compute(alloc, sources, op, round)? {
        Some(Ok(given)) => Ok(Some(given.into_value(alloc)?)),
        _ => Ok(None),
    }
}
