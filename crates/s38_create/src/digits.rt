ghost use Rattle.std.specs.Prelude.{◌≡◌, ◌||◌, IsTrue, pos, unwrap_or, if◌then◌else◌, nat_le, unsigned_abs};
ghost use Rattle.s38_base.specs.declared.attr.Attr.TheVariants as attrs;
ghost use Rattle.s38_code.specs.Operations.{classes};
ghost use Rattle.s38_odt.specs.Suits.{all_suit};
ghost use Rattle.s38_odt.specs.OperandRules.{argument_number_at, argument_power, digits_needed, need_with, operands_fit, power_at};
ghost use Rattle.s38_decimal.specs.Need.{has_one, has_second};

use crate::operand_rules::{attr_at, whole_at};
use s38_base::{Attr, Op};
use s38_code::{Arg, Row};
use s38_decimal::need;

/// The instruction computes, and so needs digits.
fn computes(op: Op) -> bool
    ensures { result ≡ (has_one op || has_second op) }
{
    matches!(
        op,
        Op::Addn
            | Op::Subn
            | Op::Mult
            | Op::Div
            | Op::Rem
            | Op::Neg
            | Op::Cpynv
            | Op::Scale
            | Op::Cmpnvb
    )
}

/// The attribute of the number at a place; what has none counts as a pointer.
fn number_at(rows: &[Row], args: &[Arg], k: usize) -> Attr
    ensures { result ≡ argument_number_at rows.now args.now k }
{
    attr_at(rows, args, k).unwrap_or(Attr::Pointer)
}

/// A power from -31 to 31, or 0 for every other number.
fn power_of(number: i64) -> i8
    ensures { result ≡ argument_power number }
{
    if number.unsigned_abs() <= 31 {
        number as i8
    } else {
        0
    }
}

/// How many digits a computation needs.
#[inline(never)]
#[tactic(auto, unfolding(s38_odt::specs::OperandRules::digits_needed))]
fn computed_digits(rows: &[Row], op: Op, args: &[Arg]) -> u8
    requires computes { IsTrue (has_one op || has_second op) }
    requires fits { IsTrue (operands_fit rows.now op args.now) }
    ensures { result ≡ digits_needed rows.now op args.now }
{
    let power = power_of(whole_at(args, 2));
    let first = number_at(rows, args, 0);
    let second = number_at(rows, args, 1);
    if matches!(op, Op::Cmpnvb) {
        return need(op, first, second, Attr::Pointer, power);
    }
    need(op, second, number_at(rows, args, 2), first, power)
}

/// How many digits an instruction needs; none where it doesn't compute.
#[tactic(auto, unfolding(s38_odt::specs::OperandRules::digits_needed))]
pub fn digits_needed(rows: &[Row], op: Op, args: &[Arg]) -> u8
    requires { IsTrue (operands_fit rows.now op args.now) }
    ensures { result ≡ digits_needed rows.now op args.now }
{
    if computes(op) {
        computed_digits(rows, op, args)
    } else {
        0
    }
}
