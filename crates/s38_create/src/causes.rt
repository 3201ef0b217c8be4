ghost use Rattle.std.specs.Prelude.{◌≡◌};
ghost use Rattle.s38_create.specs.Instruction.{cause_of, takes_relation};

use crate::digits::digits_needed;
use crate::operand_rules::{fits, word_at};
use s38_base::{Op, Relation, exceptions};
use s38_code::{Arg, Instruction, Row};

/// The most digits of a computation.
const MOST_DIGITS: u8 = 38;

/// The relation is one that the row has: DEQ has neither FIRST nor LAST.
#[tactic(auto, unfolding(crate::specs::Instruction::takes_relation))]
fn takes_relation(op: Op, args: &[Arg]) -> bool
    ensures { result ≡ takes_relation op args.now }
{
    match op {
        Op::Deq => word_at(args, 2) <= Relation::Any.word(),
        _ => true,
    }
}

/// The first cause for which an instruction is bad. Whether its names are declared and its labels are there is
/// told.
#[tactic(auto, unfolding(crate::specs::Instruction::cause_of))]
pub fn cause(
    rows: &[Row],
    instruction: &Instruction,
    is_declared: bool,
    is_placed: bool,
) -> Option<u16>
    ensures { result ≡ cause_of rows.now instruction.now is_declared is_placed }
{
    let args = instruction.args.as_slice();
    if !is_declared {
        return Some(exceptions::NAME_MISSING);
    }
    if !fits(rows, instruction.op, args) || !takes_relation(instruction.op, args) {
        return Some(exceptions::ATTRIBUTES_INVALID);
    }
    if digits_needed(rows, instruction.op, args) > MOST_DIGITS {
        return Some(exceptions::DIGITS_EXCEEDED);
    }
    if !is_placed {
        return Some(exceptions::LABEL_MISSING);
    }
    None
}
