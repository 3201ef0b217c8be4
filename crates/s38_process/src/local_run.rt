//! The local run of a process: its instructions up to the next shared one, or up to the end.
ghost use Rattle.std.specs.Prelude.{◌≡◌, ◌<◌, ◌≤◌, ◌+◌, ◌^◌, ◌&&◌, IfOk, IsTrue, OnErr, OnOk};
ghost use Rattle.s38_local.specs.Frames.{Went};
ghost use Rattle.s38_local.specs.declared.local_end.LocalEnd.{LocalEnd};
ghost use Rattle.s38_process.specs.Process.{is_return, with_frame};
ghost use Rattle.s38_process.specs.LocalRun.{after_local, after_local_run, alone, alone_there, local_step};
ghost use Rattle.s38_process.specs.Invocations.{Stack, instruction_of};
ghost use Rattle.s38_process.specs.Progress.{process_state};

use crate::exceptions::take_signal;
use crate::invocations::Invocations;
use crate::progress::Progress;
use crate::status::Status;
use s38_base::{NoMemory, Op};
use s38_local::LocalEnd;
use std::alloc::Global;

/// Whether an instruction is a return.
#[inline(always)]
pub fn is_return(op: Op) -> bool
    ensures { result ≡ is_return op }
{
    matches!(op, Op::Rtx)
}

/// Whether a process runs and has budget left.
#[inline(always)]
fn may_go_on(budget: u32, progress: &Progress) -> bool
    ensures alone { (s : Stack) → alone (process_state s budget progress.now) ≡ (result && alone_there s (instruction_of s.top)) }
    ensures room { IsTrue result → progress.now.done < budget }
{
    match progress.status {
        Status::Running => progress.done < budget,
        _ => false,
    }
}

/// How a process goes on after a local instruction.
fn go_on(
    alloc: Global,
    budget: u32,
    at: usize,
    invocations: &mut Invocations,
    progress: &mut Progress,
    end: LocalEnd,
)
    requires room { progress.old.done < budget }
    requires place { end ≡ LocalEnd.Next → at + 1 < 2 ^ 64 }
    ensures { (stood : Stack) (went : Went) → stood.top.frame.at ≡ at → invocations.old ≡ with_frame stood went.values went.frame
        → process_state invocations.new budget progress.new ≡ after_local (process_state stood budget progress.old) went end }
{
    match end {
        LocalEnd::Next => invocations.go_to(at + 1),
        LocalEnd::Jump { at } => invocations.go_to(at),
        LocalEnd::Return => {
            let _ = invocations.pop();
        }
        LocalEnd::Signal(exception) => {
            take_signal(alloc, budget, invocations, progress, exception.id);
            return;
        }
    }
    progress.done += 1;
}

/// Does the next instruction, where the process does it by itself, and says whether it did.
#[tactic(auto, unfolding(crate::specs::LocalRun::local_step))]
fn step(
    alloc: Global,
    budget: u32,
    invocations: &mut Invocations,
    progress: &mut Progress,
) -> Result<bool, NoMemory>
    ensures more { IfOk result (λ more. more ≡ alone (process_state invocations.old budget progress.old)) }
    ensures ok { OnOk result (process_state invocations.new budget progress.new ≡ local_step (process_state invocations.old budget progress.old)) }
    ensures err { OnErr result ((invocations.new ≡ invocations.old) × (progress.new ≡ progress.old)) }
{
    if !may_go_on(budget, progress) {
        return Ok(false);
    }
    let at = invocations.frame().at;
    match invocations.run_alone(alloc) {
        Err(fault) => Err(fault),
        Ok(None) => Ok(false),
        Ok(Some(end)) => {
            go_on(alloc, budget, at, invocations, progress, end);
            Ok(true)
        }
    }
}

/// Does local instructions until the process asks something or ends. Where memory is refused it is before the
/// same event.
pub fn run_locally(
    alloc: Global,
    budget: u32,
    invocations: &mut Invocations,
    progress: &mut Progress,
) -> Result<(), NoMemory>
    requires { progress.old.done ≤ budget }
    ensures ok { OnOk result (process_state invocations.new budget progress.new ≡ after_local_run (process_state invocations.old budget progress.old)) }
    ensures same { after_local_run (process_state invocations.new budget progress.new) ≡ after_local_run (process_state invocations.old budget progress.old) }
    ensures within { progress.new.done ≤ budget }
{
    'steps: loop {
        match step(alloc, budget, invocations, progress) {
            Err(fault) => return Err(fault),
            Ok(false) => return Ok(()),
            Ok(true) => {}
        }
    }
}
