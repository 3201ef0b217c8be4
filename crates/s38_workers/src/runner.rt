ghost use Rattle.std.specs.Prelude.{◌≡◌, OnErr, OnOk};
ghost use Rattle.s38_workers.specs.Going.{begun, progress_after};

use crate::hearer::{Heard, Hearer};
use s38_base::{NoMemory, TryClone};
use s38_code::{CreateResult, Job, StepFault};
use s38_process::Process;
use s38_turn::Seat;
use std::alloc::Global;

/// How far a job has come. Its process takes memory from its first event to its end.
#[derive(Drop)]
pub enum Progress {
    /// Before its first event.
    Unbegun,
    Running(Hearer),
    /// Its process has ended.
    Over,
    /// It goes no further.
    Failed(StepFault),
}

/// A job that is run: the number and the seat of its process, and how far it has come.
#[derive(Drop)]
pub struct Runner<M> {
    pub number: u32,
    pub seat: Seat<M>,
    pub progress: Progress,
}

/// The process of a job begins.
#[inline(never)]
fn begin_first(
    alloc: Global,
    progress: &mut Progress,
    job: &Job,
    made: &CreateResult,
) -> Result<(), NoMemory>
    ensures ok { OnOk result (progress.new ≡ begun made.now job.now.budget Progress.Unbegun) }
    ensures err { OnErr result (progress.new ≡ progress.old) }
{
    let own = made.try_clone(alloc)?;
    let process = Process::begin(alloc, job, own)?;
    *progress = Progress::Running(Hearer {
        process,
        heard: Ok(Heard::GoesOn),
    });
    Ok(())
}

/// The process of a job begins, where it has not begun.
pub fn begin(
    alloc: Global,
    progress: &mut Progress,
    job: &Job,
    made: &CreateResult,
) -> Result<(), NoMemory>
    ensures ok { OnOk result (progress.new ≡ begun made.now job.now.budget progress.old) }
    ensures err { OnErr result (progress.new ≡ progress.old) }
{
    if matches!(progress, Progress::Unbegun) {
        return begin_first(alloc, progress, job, made);
    }
    Ok(())
}

/// A job goes on, is over or has failed after what its process was told; whether it may go on at once.
pub fn settle(progress: &mut Progress, told: Result<Option<Heard>, StepFault>) -> bool
    ensures { progress.new ≡ progress_after told progress.old }
{
    match told {
        Err(fault) => {
            *progress = Progress::Failed(fault);
            false
        }
        Ok(None) => {
            *progress = Progress::Over;
            false
        }
        Ok(Some(Heard::Waits)) => false,
        Ok(Some(Heard::GoesOn)) => true,
    }
}
