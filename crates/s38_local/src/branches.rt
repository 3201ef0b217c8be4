//! Branches by a comparison.
ghost use Rattle.std.specs.Prelude.{◌≡◌, IfOk, IfSome, IsTrue, Ok};
ghost use Rattle.s38_compute.specs.Computed.{is_branch, test_given};
ghost use Rattle.s38_local.specs.Kinds.{branch_run};
ghost use Rattle.s38_local.specs.Local.{label_at, of_variables};

use crate::local_end::LocalEnd;
use crate::operands::operand;
use crate::receivers::{branch_end, jump};
use crate::variables::Variables;
use s38_base::{NoMemory, Op};
use s38_code::{Instruction, Row, Val};
use s38_compute::{short_test, test_given};
use std::alloc::Global;

/// Whether a comparison of numbers branches, where there are short ways to its operands.
#[inline(always)]
fn short_compared(
    rows: &[Row],
    homes: &[usize],
    values: &[Val],
    instruction: &Instruction,
) -> Option<bool>
    ensures { IfSome result (λ test. test_given instruction.now.op (of_variables rows.now homes.now values.now instruction.now.args) ≡ Ok test) }
{
    let args = instruction.args.as_slice();
    let sources = Variables {
        rows,
        homes,
        values,
        args,
    };
    short_test(&sources, instruction.op)
}

/// A branch by a comparison.
#[inline(always)]
#[tactic(auto, using(crate::proofs::ReceivedLaws::received_end, crate::proofs::ReceivedLaws::received_values))]
pub fn branch(
    alloc: Global,
    rows: &[Row],
    homes: &[usize],
    values: &[Val],
    instruction: &Instruction,
) -> Result<LocalEnd, NoMemory>
    requires { IsTrue (is_branch instruction.now.op) }
    ensures end { IfOk result (λ end. end ≡ (branch_run rows.now homes.now values.now instruction.now).end) }
    ensures values { values.now ≡ (branch_run rows.now homes.now values.now instruction.now).values }
{
    match short_compared(rows, homes, values, instruction) {
        None => any_branch(alloc, rows, homes, values, instruction),
        Some(test) => {
            let args = instruction.args.as_slice();
            Ok(jump(test, operand(args, label_at(instruction.op))))
        }
    }
}

/// The same, whatever the operation and the operands.
#[inline(never)]
#[tactic(auto, using(crate::proofs::ReceivedLaws::received_end, crate::proofs::ReceivedLaws::received_values))]
fn any_branch(
    alloc: Global,
    rows: &[Row],
    homes: &[usize],
    values: &[Val],
    instruction: &Instruction,
) -> Result<LocalEnd, NoMemory>
    requires { IsTrue (is_branch instruction.now.op) }
    ensures end { IfOk result (λ end. end ≡ (branch_run rows.now homes.now values.now instruction.now).end) }
    ensures values { values.now ≡ (branch_run rows.now homes.now values.now instruction.now).values }
{
    let args = instruction.args.as_slice();
    let sources = Variables {
        rows,
        homes,
        values,
        args,
    };
    let test = test_given(alloc, &sources, instruction.op)?;
    Ok(branch_end(test, operand(args, label_at(instruction.op))))
}

fn label_at(op: Op) -> usize
    ensures { result ≡ label_at op }
{
    match op {
        Op::Cmpptrt => 3,
        _ => 4,
    }
}
