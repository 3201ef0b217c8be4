ghost use Rattle.std.specs.Prelude.{◌≡◌, IfOk, IfSome, OnErr, Some};
ghost use Rattle.std.specs.Option.{option_copied};
ghost use Rattle.s38_code.specs.Operations.{classes};
ghost use Rattle.s38_requests.specs.Recent.{latest, with_latest};
ghost use Rattle.s38_requests.specs.Requests.{operands_of, request_of};

use crate::again::are_operands;
use crate::anew::operands_anew;
use crate::recent::Recent;
use crate::scope::Scope;
use s38_base::{NoMemory, TryClone};
use s38_code::{Instruction, Operands, Request, classes};
use std::alloc::Global;

/// The operands that are kept for an instruction, where they are those with which it asks now.
#[inline(always)]
fn kept_for<'a>(
    recent: &'a Recent,
    at: usize,
    scope: Scope<'_>,
    instruction: &Instruction,
) -> Option<&'a Operands>
    ensures now { IfSome (option_copied result) (λ operands. operands ≡ operands_of scope.entry.rows.now scope.entry.homes.now scope.entry.values.now (classes instruction.now.op) instruction.now.args) }
    ensures kept { IfSome (option_copied result) (λ operands. latest recent.now at ≡ Some operands) }
{
    match recent.get(at) {
        Some(kept)
            if are_operands(
                kept.as_slice(),
                scope,
                classes(instruction.op),
                instruction.args.as_slice(),
            ) => Some(kept),
        _ => None,
    }
}

/// The operands with which the instruction at a place asks: those that are kept for it, or made anew and kept.
#[inline(always)]
#[tactic(auto, using(crate::proofs::RecentLaws::kept_already))]
fn operands_at(
    alloc: Global,
    recent: &mut Recent,
    at: usize,
    scope: Scope<'_>,
    instruction: &Instruction,
) -> Result<Operands, NoMemory>
    ensures ok { IfOk result (λ operands. operands ≡ operands_of scope.entry.rows.now scope.entry.homes.now scope.entry.values.now (classes instruction.now.op) instruction.now.args) }
    ensures kept { IfOk result (λ operands. recent.new ≡ with_latest recent.old at operands) }
    ensures err { OnErr result (recent.new ≡ recent.old) }
{
    match kept_for(recent, at, scope, instruction) {
        Some(kept) => kept.try_clone(alloc),
        None => {
            let operands = operands_anew(alloc, scope, instruction)?;
            recent.keep_operands(at, operands.try_clone(alloc)?);
            Ok(operands)
        }
    }
}

/// What the instruction at a place asks. Its operands are the latest that are kept for the place then; an error keeps
/// what was kept.
#[tactic(auto, unfolding(crate::specs::Requests::request_of))]
pub fn request_of(
    alloc: Global,
    recent: &mut Recent,
    at: usize,
    scope: Scope<'_>,
    instruction: &Instruction,
) -> Result<Request, NoMemory>
    ensures ok { IfOk result (λ request. request ≡ request_of scope.entry.rows.now scope.entry.homes.now scope.entry.values.now instruction.now) }
    ensures kept { IfOk result (λ request. recent.new ≡ with_latest recent.old at request.operands) }
    ensures err { OnErr result (recent.new ≡ recent.old) }
{
    match operands_at(alloc, recent, at, scope, instruction) {
        Ok(operands) => Ok(Request {
            op: instruction.op,
            round: instruction.round,
            operands,
        }),
        Err(fault) => Err(fault),
    }
}
