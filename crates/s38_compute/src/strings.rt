ghost use Rattle.std.specs.Prelude.{◌≡◌, ◌*◌, ◌==◌, ◌&&◌, [], IfOk, IsTrue, map, slice_index, length};
ghost use Rattle.s38_base.specs.declared.op.Op.{Op};
ghost use Rattle.s38_strings.specs.Bits.{IsOnBits, combined};
ghost use Rattle.s38_strings.specs.Copies.{copied_left};
ghost use Rattle.s38_strings.specs.Hex.{are_hex, bytes_spelled, is_hex};
ghost use Rattle.s38_strings.specs.Translate.{translated};
ghost use Rattle.s38_compute.specs.Compute.{string_given, where_long};
ghost use Rattle.s38_compute.specs.Computed.{bytes_given};
ghost use Rattle.s38_compute.specs.Written.{bytes_after, failed};

use crate::copies::written_over;
use crate::sources::Sources;
use s38_base::exceptions::CONVERSION;
use s38_base::{Bytes, Exception, NoMemory, Op};
use s38_strings::{bits, cat, copy_left, copy_left_pad, copy_right, from_hex, to_hex, xlate};
use std::alloc::Global;

fn first(bytes: &[u8]) -> u8
    ensures { result ≡ slice_index bytes.now 0 }
{
    match bytes {
        [] => 0,
        [byte, ..] => *byte,
    }
}

fn translate(into: &mut [u8], from: &[u8], place: &[u8], by: &[u8])
    ensures { into.new ≡ where_long (length place.now == length by.now) (copied_left into.old (map (translated place.now by.now) from.now)) into.old }
{
    if place.len() == by.len() {
        xlate(into, from, place, by);
    }
}

/// One length is twice the other.
fn is_double(long: usize, short: usize) -> bool
    ensures { result ≡ (long == 2 * short) }
{
    long % 2 == 0 && long / 2 == short
}

fn spell(into: &mut [u8], from: &[u8])
    ensures { into.new ≡ where_long (length into.old == 2 * length from.now) (bytes_spelled from.now (length into.old)) into.old }
{
    if is_double(into.len(), from.len()) {
        to_hex(into, from);
    }
}

/// Reads hexadecimal characters; a byte that is none is signalled at operand 2.
#[tactic(auto, unfolding(crate::specs::Compute::string_given))]
fn unspell(into: &mut [u8], from: &[u8]) -> Option<Exception>
    ensures signal { result ≡ failed (string_given Op.Cvtch into.old from.now [] []) }
    ensures bytes { into.new ≡ bytes_after into.old (string_given Op.Cvtch into.old from.now [] []) }
{
    if !is_double(from.len(), into.len()) {
        return None;
    }
    match from_hex(into, from) {
        Ok(()) => None,
        Err(_) => Some(Exception::plain(CONVERSION, 2)),
    }
}

fn combine(op: Op, into: &mut [u8], a: &[u8], b: &[u8])
    requires { IsOnBits op }
    ensures { into.new ≡ where_long ((length a.now == length into.old) && (length b.now == length into.old)) (combined op (length into.old) a.now b.now) into.old }
{
    if a.len() == into.len() && b.len() == into.len() {
        bits(op, into, a, b);
    }
}

fn invert(into: &mut [u8], a: &[u8])
    ensures { into.new ≡ where_long (length a.now == length into.old) (combined Op.Not (length into.old) a.now a.now) into.old }
{
    if a.len() == into.len() {
        bits(Op::Not, into, a, a);
    }
}

/// Writes the receiver's bytes by those of the sources, where nothing is signalled.
#[tactic(auto, unfolding(crate::specs::Compute::string_given))]
pub fn write_string(op: Op, into: &mut [u8], a: &[u8], b: &[u8], c: &[u8]) -> Option<Exception>
    ensures signal { result ≡ failed (string_given op into.old a.now b.now c.now) }
    ensures bytes { into.new ≡ bytes_after into.old (string_given op into.old a.now b.now c.now) }
{
    match op {
        Op::Cpybla => copy_left(into, a),
        Op::Cpybra => copy_right(into, a),
        Op::Cpyblap => copy_left_pad(into, a, first(b)),
        Op::Cat => cat(into, a, b),
        Op::Xlate => translate(into, a, b, c),
        Op::Cvthc => spell(into, a),
        Op::Cvtch => return unspell(into, a),
        Op::And | Op::Or | Op::Xor => combine(op, into, a, b),
        Op::Not => invert(into, a),
        _ => {}
    }
    None
}

fn is_hex(character: u8) -> bool
    ensures { result ≡ is_hex character }
{
    (0xF0 <= character && character <= 0xF9) || (0xC1 <= character && character <= 0xC6)
}

/// Whether each byte is a hexadecimal character.
pub fn are_hex(bytes: &[u8]) -> bool
    ensures { result ≡ are_hex bytes.now }
{
    bytes.iter().all(|character| is_hex(*character))
}

/// The bytes for the receiver, or what is signalled.
#[tactic(auto, unfolding(crate::specs::Computed::bytes_given))]
pub fn bytes_given<S: Sources>(
    alloc: Global,
    sources: &S,
    op: Op,
) -> Result<Result<Bytes, Exception>, NoMemory>
    ensures { IfOk result (λ made. made ≡ bytes_given op (S.readings sources.now)) }
{
    let mut into = written_over(alloc, sources, op)?;
    let a = sources.bytes(alloc, 2)?;
    let b = sources.bytes(alloc, 3)?;
    let c = sources.bytes(alloc, 4)?;
    match write_string(
        op,
        into.as_mut_slice(),
        a.as_slice(),
        b.as_slice(),
        c.as_slice(),
    ) {
        Some(exception) => Ok(Err(exception)),
        None => Ok(Ok(into)),
    }
}

/// A byte that is no hexadecimal character is signalled, where the lengths are the row's; nothing else is.
#[tactic(auto, unfolding(crate::specs::Computed::bytes_given, crate::specs::Compute::string_given))]
fn conversion_failure<S: Sources>(sources: &S) -> Option<Exception>
    ensures { result ≡ failed (bytes_given Op.Cvtch (S.readings sources.now)) }
{
    if !is_double(sources.size(2), sources.size_held()) || sources.are_hex(2) {
        None
    } else {
        Some(Exception::plain(CONVERSION, 2))
    }
}

/// What a string computation signals; it is found without memory.
#[tactic(auto, unfolding(crate::specs::Computed::bytes_given, crate::specs::Compute::string_given))]
pub fn bytes_failure<S: Sources>(sources: &S, op: Op) -> Option<Exception>
    ensures { result ≡ failed (bytes_given op (S.readings sources.now)) }
{
    match op {
        Op::Cvtch => conversion_failure(sources),
        _ => None,
    }
}
