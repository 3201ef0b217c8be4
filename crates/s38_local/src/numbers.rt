//! Computations that give a number.
ghost use Rattle.std.specs.Prelude.{◌≡◌, IfOk, IfSome, IsTrue, Some, false};
ghost use Rattle.s38_base.specs.Scalar.{fits};
ghost use Rattle.s38_compute.specs.Computed.{computes_number, number_given};
ghost use Rattle.s38_local.specs.Kinds.{number_run};
ghost use Rattle.s38_local.specs.Local.{of_variables, operand};
ghost use Rattle.s38_local.specs.Received.{number_put, ran_on};
ghost use Rattle.s38_local.specs.Variables.{argument_attr};

use crate::local_end::LocalEnd;
use crate::operands::{operand, target_of};
use crate::receivers::{number_put, receive_number};
use crate::short::own_place;
use crate::variables::Variables;
use s38_base::{Attr, Exception};
use s38_code::{Instruction, Row, Val};
use s38_compute::{number_given, short_number};

fn number_read(
    rows: &[Row],
    homes: &[usize],
    values: &[Val],
    instruction: &Instruction,
) -> Result<i128, Exception>
    requires { IsTrue (computes_number instruction.now.op) }
    ensures exact { result ≡ number_given instruction.now.op instruction.now.round (of_variables rows.now homes.now values.now instruction.now.args) }
    ensures fits { IfOk result (λ units. IsTrue (fits (argument_attr rows.now (operand instruction.now.args 1)) units)) }
{
    let args = instruction.args.as_slice();
    let sources = Variables {
        rows,
        homes,
        values,
        args,
    };
    number_given(&sources, instruction.op, instruction.round)
}

/// A number for the variable at a place.
#[derive(Clone, Copy)]
struct Placed {
    at: usize,
    attr: Attr,
    units: i128,
}

/// What a sum gives, where there are short ways to its operands.
#[inline(always)]
#[tactic(auto, using(crate::proofs::ReceivedLaws::received_number))]
fn placed_sum(
    rows: &[Row],
    homes: &[usize],
    values: &[Val],
    instruction: &Instruction,
) -> Option<Placed>
    ensures run { IfSome result (λ n. number_run rows.now homes.now values.now instruction.now ≡ ran_on (number_put values.now (Some n.at) n.attr n.units)) }
    ensures fits { IfSome result (λ n. IsTrue (fits n.attr n.units)) }
{
    let args = instruction.args.as_slice();
    let sources = Variables {
        rows,
        homes,
        values,
        args,
    };
    let (attr, at) = own_place(rows, homes, operand(args, 1))?;
    let units = short_number(&sources, attr, instruction.op, instruction.round)?;
    Some(Placed { at, attr, units })
}

/// Writes a sum where there are short ways to its operands, and says whether it did.
#[inline(always)]
fn short_sum(rows: &[Row], homes: &[usize], values: &mut [Val], instruction: &Instruction) -> bool
    ensures done { IsTrue result → number_run rows.now homes.now values.old instruction.now ≡ ran_on values.new }
    ensures stays { result ≡ false → values.new ≡ values.old }
{
    match placed_sum(rows, homes, values, instruction) {
        None => false,
        Some(placed) => {
            number_put(values, Some(placed.at), placed.attr, placed.units);
            true
        }
    }
}

/// A computation that gives a number.
#[inline(always)]
pub fn number(
    rows: &[Row],
    homes: &[usize],
    values: &mut [Val],
    instruction: &Instruction,
) -> LocalEnd
    requires { IsTrue (computes_number instruction.now.op) }
    ensures end { result ≡ (number_run rows.now homes.now values.old instruction.now).end }
    ensures values { values.new ≡ (number_run rows.now homes.now values.old instruction.now).values }
{
    if short_sum(rows, homes, values, instruction) {
        LocalEnd::Next
    } else {
        any_number(rows, homes, values, instruction)
    }
}

/// The same, whatever the operation and the operands.
#[inline(never)]
#[tactic(auto, using(crate::proofs::ReceivedLaws::received_number))]
fn any_number(
    rows: &[Row],
    homes: &[usize],
    values: &mut [Val],
    instruction: &Instruction,
) -> LocalEnd
    requires { IsTrue (computes_number instruction.now.op) }
    ensures end { result ≡ (number_run rows.now homes.now values.old instruction.now).end }
    ensures values { values.new ≡ (number_run rows.now homes.now values.old instruction.now).values }
{
    let (attr, to) = target_of(rows, homes, operand(instruction.args.as_slice(), 1));
    let given = number_read(rows, homes, values, instruction);
    receive_number(values, to, attr, given)
}
