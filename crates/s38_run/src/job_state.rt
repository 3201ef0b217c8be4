ghost use Rattle.std.specs.Prelude.{◌≡◌, ◌≢◌, IfOk, OnOk};
ghost use Rattle.s38_process.specs.Process.{fresh};
ghost use Rattle.s38_process.specs.declared.status.Status.{Status};
ghost use Rattle.s38_run.specs.Running.{unbegun};
ghost use Rattle.s38_run.specs.Turns.{doing};

use s38_base::{NoMemory, TryClone};
use s38_code::{CreateResult, Job};
use s38_process::Process;
use std::alloc::Global;

/// How far a job has come. Its process takes memory from its first turn to its end.
#[derive(Drop)]
pub enum JobState {
    Unbegun,
    Running(Process),
    Over,
}

/// The states of jobs before their first turn.
pub fn unbegun(alloc: Global, jobs: &[Job]) -> Result<Vec<JobState>, NoMemory>
    ensures { IfOk result (λ states. states.items ≡ unbegun jobs.now) }
{
    let mut states = Vec::with_capacity(alloc, jobs.len())?;
    for _ in jobs {
        states.push(JobState::Unbegun)?;
    }
    Ok(states)
}

/// The process of a job begins. This is not inlined, so that a turn of one that has begun makes no room for it.
#[inline(never)]
fn begin_first(
    alloc: Global,
    state: &mut JobState,
    job: &Job,
    made: &CreateResult,
) -> Result<(), NoMemory>
    ensures { OnOk result (state.new ≡ JobState.Running (fresh made.now job.now.budget)) }
{
    let own = made.try_clone(alloc)?;
    *state = JobState::Running(Process::begin(alloc, job, own)?);
    Ok(())
}

/// The process of a job that is not over begins, where it has not begun.
#[inline(always)]
pub fn begin(
    alloc: Global,
    state: &mut JobState,
    job: &Job,
    made: &CreateResult,
) -> Result<(), NoMemory>
    requires { (doing made.now job.now.budget state.old).status ≢ Status.Ended }
    ensures { OnOk result (state.new ≡ JobState.Running (doing made.now job.now.budget state.old)) }
{
    if matches!(state, JobState::Unbegun) {
        return begin_first(alloc, state, job, made);
    }
    Ok(())
}
