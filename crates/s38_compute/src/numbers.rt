ghost use Rattle.std.specs.Prelude.{◌≡◌, ◌<◌, ◌≤◌, ◌≤ℤ◌, ◌^◌, ◌&&◌, IfOk, IfSome, IsTrue, Ok, pos, negsuc, unsigned_abs};
ghost use Rattle.s38_base.specs.Scalar.{fits};
ghost use Rattle.s38_base.specs.Attributes.{is_numeric};
ghost use Rattle.s38_decimal.specs.Need.{copy_need, has_one, has_one_fraction, has_second};
ghost use Rattle.s38_decimal.specs.Values.{answer, exact_of};
ghost use Rattle.s38_compute.specs.Compute.{fault_signal, one_computed, one_number, result_has_room, signalled, two_computed, two_numbers};
ghost use Rattle.s38_compute.specs.Computed.{computes_number, number_given, receiver_target};

use crate::sources::Sources;
use s38_base::exceptions::{DECIMAL_DATA, SIZE, ZERO_DIVIDE};
use s38_base::{Attr, Exception, Op};
use s38_decimal::{
    Dec, DecimalFault, Target, add, add_short, div, has_one_fraction, is_short, mult, need, neg,
    rem, scale, sub,
};

/// The receiver holds numbers, and the instruction on two sources needs at most 38 digits.
fn has_room(op: Op, a: Attr, b: Attr, to: Attr) -> bool
    requires second { IsTrue (has_second op) }
    requires first { IsTrue (is_numeric a) }
    requires other { IsTrue (is_numeric b) }
    ensures { result ≡ result_has_room op a b to (pos 0) }
{
    to.is_numeric() && need(op, a, b, to, 0) <= 38
}

/// The receiver holds numbers, and its fraction is that of both sources.
#[inline(always)]
fn is_plain(a: Attr, b: Attr, to: Attr) -> bool
    ensures { result ≡ (is_numeric to && has_one_fraction a b to) }
{
    to.is_numeric() && has_one_fraction(a, b, to)
}

/// What an instruction with two numeric sources gives, whatever their fractions.
#[inline(never)]
#[tactic(auto, unfolding(crate::specs::Compute::two_computed))]
fn any_computed(op: Op, to: Target, a: &Dec, b: &Dec) -> Result<i128, DecimalFault>
    requires { IsTrue (has_second op) }
    ensures exact { result ≡ two_computed op to a.now.attr a.now.units b.now.attr b.now.units }
    ensures fits { IfOk result (λ units. IsTrue (fits to.attr units)) }
{
    if !has_room(op, a.attr, b.attr, to.attr) {
        return Err(DecimalFault::Size);
    }
    match op {
        Op::Addn => add(*a, *b, to),
        Op::Subn => sub(*a, *b, to),
        Op::Mult => mult(*a, *b, to),
        Op::Div => div(*a, *b, to),
        Op::Rem => rem(*a, *b, to),
        _ => Err(DecimalFault::Size),
    }
}

/// What an instruction with two numeric sources gives. A sum at the fraction of both needs no more than 32 digits.
#[inline(always)]
#[tactic(auto, unfolding(crate::specs::Compute::two_computed))]
fn two_computed(op: Op, to: Target, a: &Dec, b: &Dec) -> Result<i128, DecimalFault>
    requires { IsTrue (has_second op) }
    ensures exact { result ≡ two_computed op to a.now.attr a.now.units b.now.attr b.now.units }
    ensures fits { IfOk result (λ units. IsTrue (fits to.attr units)) }
{
    let target = to;
    if !is_plain(a.attr, b.attr, to.attr) {
        return any_computed(op, target, a, b);
    }
    match op {
        Op::Addn => add(*a, *b, to),
        Op::Subn => sub(*a, *b, to),
        _ => any_computed(op, target, a, b),
    }
}

/// A sum or a difference at the fraction of both numbers, for a short receiver that holds it.
#[inline(always)]
fn short_computed(op: Op, to: Target, a: Dec, b: Dec) -> Option<i128>
    requires first { unsigned_abs a.units < 10 ^ 18 }
    requires second { unsigned_abs b.units < 10 ^ 18 }
    ensures exact { IfSome result (λ units. two_computed op to a.attr a.units b.attr b.units ≡ Ok units) }
    ensures fits { IfSome result (λ units. IsTrue (fits to.attr units)) }
{
    if !is_short(to.attr) {
        return None;
    }
    if !is_plain(a.attr, b.attr, to.attr) {
        return None;
    }
    match op {
        Op::Addn => match add_short(a, b, to) {
            Ok(units) => Some(units),
            Err(_) => None,
        },
        Op::Subn => match sub(a, b, to) {
            Ok(units) => Some(units),
            Err(_) => None,
        },
        _ => None,
    }
}

/// The number itself, at the receiver's fraction.
fn copied(a: Dec, to: Target) -> Result<i128, DecimalFault>
    requires { copy_need a.attr to.attr ≤ 38 }
    ensures exact { result ≡ answer to (exact_of a) }
    ensures fits { IfOk result (λ units. IsTrue (fits to.attr units)) }
{
    scale(a, 0, to)
}

/// The receiver holds numbers, and the instruction on one source needs at most 38 digits.
fn has_room_for(op: Op, a: Attr, to: Attr, power: i8) -> bool
    requires one { IsTrue (has_one op) }
    requires source { IsTrue (is_numeric a) }
    requires least { negsuc 30 ≤ℤ power }
    requires greatest { power ≤ℤ pos 31 }
    ensures { result ≡ result_has_room op a a to power }
{
    to.is_numeric() && need(op, a, a, to, power) <= 38
}

/// What an instruction with one numeric source gives; the power is that of SCALE.
#[tactic(auto, unfolding(crate::specs::Compute::one_computed))]
fn one_computed(op: Op, to: Target, a: Dec, power: i64) -> Result<i128, DecimalFault>
    requires { IsTrue (has_one op) }
    ensures exact { result ≡ one_computed op to a.attr a.units power }
    ensures fits { IfOk result (λ units. IsTrue (fits to.attr units)) }
{
    if power < -31 || 31 < power {
        return Err(DecimalFault::Size);
    }
    let power = power as i8;
    if !has_room_for(op, a.attr, to.attr, power) {
        return Err(DecimalFault::Size);
    }
    match op {
        Op::Neg => neg(a, to),
        Op::Cpynv => copied(a, to),
        Op::Scale => scale(a, power, to),
        _ => Err(DecimalFault::Size),
    }
}

fn fault_signal(fault: DecimalFault) -> Exception
    ensures { result ≡ fault_signal fault }
{
    match fault {
        DecimalFault::DecimalData => Exception::plain(DECIMAL_DATA, 2),
        DecimalFault::ZeroDivide => Exception::plain(ZERO_DIVIDE, 3),
        DecimalFault::Size => Exception::plain(SIZE, 1),
    }
}

/// A fault of a computation as the exception that an instruction signals.
fn signalled(computed: Result<i128, DecimalFault>) -> Result<i128, Exception>
    ensures { result ≡ signalled computed }
{
    match computed {
        Ok(units) => Ok(units),
        Err(fault) => Err(fault_signal(fault)),
    }
}

fn target_of<S: Sources>(sources: &S, round: bool) -> Target
    ensures { result ≡ receiver_target round (S.readings sources.now) }
{
    Target {
        attr: sources.receiver(),
        round,
    }
}

/// What two numeric sources give.
fn of_two<S: Sources>(sources: &S, op: Op, round: bool) -> Result<i128, Exception>
    requires { IsTrue (has_second op) }
    ensures exact { result ≡ two_numbers op (receiver_target round (S.readings sources.now)) ((S.readings sources.now).attr 2) ((S.readings sources.now).number 2) ((S.readings sources.now).attr 3) ((S.readings sources.now).number 3) }
    ensures fits { IfOk result (λ units. IsTrue (fits (S.readings sources.now).receiver units)) }
{
    match sources.number(2) {
        None => Err(Exception::plain(DECIMAL_DATA, 2)),
        Some(a) => match sources.number(3) {
            None => Err(Exception::plain(DECIMAL_DATA, 3)),
            Some(b) => signalled(two_computed(op, target_of(sources, round), &a, &b)),
        },
    }
}

/// What one numeric source gives.
fn of_one<S: Sources>(sources: &S, op: Op, round: bool) -> Result<i128, Exception>
    requires { IsTrue (has_one op) }
    ensures exact { result ≡ one_number op (receiver_target round (S.readings sources.now)) ((S.readings sources.now).attr 2) ((S.readings sources.now).number 2) (S.readings sources.now).power }
    ensures fits { IfOk result (λ units. IsTrue (fits (S.readings sources.now).receiver units)) }
{
    match sources.number(2) {
        None => Err(Exception::plain(DECIMAL_DATA, 2)),
        Some(a) => {
            let power = sources.power();
            signalled(one_computed(op, target_of(sources, round), a, power))
        }
    }
}

/// The number for the receiver, or what is signalled.
#[tactic(auto, unfolding(crate::specs::Computed::number_given))]
pub fn number_given<S: Sources>(sources: &S, op: Op, round: bool) -> Result<i128, Exception>
    requires { IsTrue (computes_number op) }
    ensures exact { result ≡ number_given op round (S.readings sources.now) }
    ensures fits { IfOk result (λ units. IsTrue (fits (S.readings sources.now).receiver units)) }
{
    match op {
        Op::Neg | Op::Cpynv | Op::Scale => of_one(sources, op, round),
        _ => of_two(sources, op, round),
    }
}

/// The number for a receiver of this attribute, where there is a shorter way to it; else `number_given` tells it.
#[inline(always)]
#[tactic(auto, unfolding(crate::specs::Computed::number_given))]
pub fn short_number<S: Sources>(sources: &S, attr: Attr, op: Op, round: bool) -> Option<i128>
    requires receiver { attr ≡ (S.readings sources.now).receiver }
    ensures exact { IfSome result (λ units. number_given op round (S.readings sources.now) ≡ Ok units) }
    ensures fits { IfSome result (λ units. IsTrue (fits attr units)) }
{
    match op {
        Op::Addn | Op::Subn => {
            let a = sources.short(2)?;
            let b = sources.short(3)?;
            short_computed(op, Target { attr, round }, a, b)
        }
        _ => None,
    }
}
