ghost use Rattle.std.specs.Prelude.{◌≡◌, ◌⊎◌, ◌+◌, ◌≤◌, Ok, Err, [], IfOk, IfErr};
ghost use Rattle.std.specs.Option.{option_map};
ghost use Rattle.s38_create.specs.Instruction.{code_from, instruction_made, parsed_of, round_is_taken};
ghost use Rattle.s38_words.specs.Views.{act_in};
ghost use Rattle.s38_odt.specs.Labels.{instruction_count};
ghost use Rattle.s38_create.specs.Said.{checked_said, said_of};

use crate::causes::cause;
use crate::operands::said_operands;
use crate::said::Said;
use crate::scope::Scope;
use s38_base::{NoMemory, Op, Seq, exceptions};
use s38_code::{CreateFault, Instruction, Instructions, classes};
use s38_odt::is_label;
use s38_words::{InstructionLine, instruction, rounds_right};
use std::alloc::Global;

/// `(R)` is in its line only where it may be.
fn is_taken(act: InstructionLine<'_>) -> bool
    ensures { result ≡ round_is_taken (act_in act.entry) }
{
    rounds_right(act.round, act.op)
}

/// What the operands of a line say; None where they are not those of the row.
fn said_by(alloc: Global, scope: &Scope, act: InstructionLine<'_>) -> Result<Option<Said>, NoMemory>
    ensures { IfOk result (λ said. said ≡ option_map said_of (parsed_of scope.now.table scope.now.code (act_in act.entry))) }
{
    if !is_taken(act) {
        return Ok(None);
    }
    said_operands(alloc, scope, classes(act.op), act.operands)
}

/// The instruction of these operands, as the one of this number, where there is no cause against it.
fn checked(
    scope: &Scope,
    number: u32,
    op: Op,
    round: bool,
    said: Said,
) -> Result<Instruction, CreateFault>
    ensures { result ≡ checked_said scope.now.table number op round said }
{
    let declared = said.are_declared();
    let placed = said.are_placed();
    let instruction = said.instruction(op, round);
    match cause(scope.table.rows(), &instruction, declared, placed) {
        Some(id) => Err(CreateFault::Bad { id, number }),
        None => Ok(instruction),
    }
}

/// What a line makes as the instruction of a number.
#[tactic(auto, using(crate::proofs::SaidLemmas::by_said_map), unfolding(crate::specs::Instruction::instruction_made))]
fn instruction_of(
    alloc: Global,
    scope: &Scope,
    number: u32,
    line: &[u8],
) -> Result<Instruction, CreateFault>
    ensures created { IfOk result (λ i. instruction_made scope.now.table scope.now.code number line.now ≡ Ok i) }
    ensures bad { IfErr result (λ fault. (fault ≡ CreateFault.NoMemory) ⊎ (instruction_made scope.now.table scope.now.code number line.now ≡ Err fault)) }
{
    let none = CreateFault::Bad {
        id: exceptions::OPERANDS_INVALID,
        number,
    };
    let Some(act) = instruction(line) else {
        return Err(none);
    };
    match said_by(alloc, scope, act)? {
        Some(said) => checked(scope, number, act.op, act.round, said),
        None => Err(none),
    }
}

/// No instructions, with memory for so many.
fn room_for(alloc: Global, count: usize) -> Result<Instructions, NoMemory>
    ensures { IfOk result (λ created. created ≡ []) }
{
    Ok(Seq::from_vec(Vec::with_capacity(alloc, count)?))
}

/// The instructions of the code. `Bad` exactly at the first line that makes none, with its number among the
/// instructions, from 1 on.
pub fn instructions(alloc: Global, scope: &Scope) -> Result<Instructions, CreateFault>
    requires { instruction_count scope.now.code ≤ 16384 }
    ensures created { IfOk result (λ created. code_from scope.now.table scope.now.code [] scope.now.code ≡ Ok created) }
    ensures bad { IfErr result (λ fault. (fault ≡ CreateFault.NoMemory) ⊎ (code_from scope.now.table scope.now.code [] scope.now.code ≡ Err fault)) }
{
    let mut created = room_for(alloc, scope.code.lines().len())?;
    for line in scope.code.lines() {
        if !is_label(line) {
            let number = created.len() as u32 + 1;
            let instruction = instruction_of(alloc, scope, number, line)?;
            created.push(instruction)?;
        }
    }
    Ok(created)
}
