//! Passes over the jobs, cut for the workers.
ghost use Rattle.std.specs.Prelude.{◌≡◌, ◌<◌, All, IfSome, Some, length, true};
ghost use Rattle.s38_code.specs.declared.step.StepFault.{StepFault};
ghost use Rattle.s38_run.specs.declared.run_end.RunEnd.{RunEnd};
ghost use Rattle.s38_workers.specs.Asking.{AllMayAsk, WasStopped};
ghost use Rattle.s38_workers.specs.Going.{IsFurther, IsRunning};
ghost use Rattle.s38_workers.specs.Runs.{AreFurther, HasFailed, IsOver};

use crate::gate::Gate;
use crate::going::go_in_stage;
use crate::runner::{Progress, Runner};
use s38_code::{CreateResult, Job, StepFault, Stepper};
use s38_run::RunEnd;
use s38_turn::Turn;
use std::alloc::Global;
use std::sync::Wait;
use std::thread;
use std::thread::Threads;

fn is_over<M>(runner: &Runner<M>) -> bool
    ensures { result ≡ true → IsOver runner.now }
{
    matches!(runner.progress, Progress::Over)
}

/// The least stage of a job whose process has not ended.
fn current_stage<M>(jobs: &[Job], runners: &[Runner<M>]) -> u16 {
    let mut least = u16::MAX;
    for (job, runner) in jobs.iter().zip(runners) {
        if !is_over(runner) {
            least = least.min(job.stage);
        }
    }
    least
}

/// In one pass each job of the current stage goes as far as it can.
fn pass<M: Stepper + Drop + Send, R: Threads + Wait + Sync, G: Gate + Sync>(
    rt: &R,
    alloc: Global,
    turn: &Turn<M>,
    gate: &G,
    workers: usize,
    jobs: &[Job],
    made: &[CreateResult],
    runners: &mut [Runner<M>],
)
    requires workers { 0 < workers }
    requires running { All (IsRunning (WasStopped M.is_sound M.origin M.steps turn.now.machine) turn.now made.now jobs.now) runners.old }
    requires may { AllMayAsk M.may_ask (M.origin turn.now.machine) turn.now.processes }
    requires jobs { length jobs.now ≡ turn.now.processes }
    requires made { length made.now ≡ turn.now.processes }
    ensures { AreFurther (WasStopped M.is_sound M.origin M.steps turn.now.machine) turn.now made.now jobs.now runners.old runners.new }
{
    let stage = current_stage(jobs, runners);
    let further = |_: usize, runner: &mut Runner<M>|
        requires running { IsRunning (WasStopped M.is_sound M.origin M.steps turn.now.machine) turn.now made.now jobs.now runner.now }
        requires may { AllMayAsk M.may_ask (M.origin turn.now.machine) turn.now.processes }
        requires jobs { length jobs.now ≡ turn.now.processes }
        requires made { length made.now ≡ turn.now.processes }
        ensures { IsFurther (WasStopped M.is_sound M.origin M.steps turn.entry.now.machine) turn.entry.now made.entry.now jobs.entry.now runner.entry.now runner.exit.now }
    { go_in_stage(rt, alloc, turn, gate, jobs, made, stage, runner) };
    thread::for_each_mut(rt, runners, workers, &further);
}

/// The fault of a job that has failed, if one has.
fn fault_of<M>(runners: &[Runner<M>]) -> Option<StepFault>
    ensures { IfSome result (λ fault. HasFailed fault runners.now) }
{
    for runner in runners {
        if let Progress::Failed(fault) = &runner.progress {
            return Some(*fault);
        }
    }
    None
}

/// Whether the process of each job has ended.
fn all_over<M>(runners: &[Runner<M>]) -> bool
    ensures { result ≡ true → All IsOver runners.now }
{
    for runner in runners {
        if !is_over(runner) {
            return false;
        }
    }
    true
}

/// How the run ends, if it ends here.
fn ended<M>(runners: &[Runner<M>]) -> Option<RunEnd>
    ensures complete { result ≡ Some RunEnd.Complete → All IsOver runners.now }
    ensures stopped { result ≡ Some RunEnd.Stopped → HasFailed StepFault.Stopped runners.now }
{
    match fault_of(runners) {
        Some(StepFault::Stopped) => Some(RunEnd::Stopped),
        Some(StepFault::NoMemory) => Some(RunEnd::NoMemory),
        None => {
            if all_over(runners) {
                Some(RunEnd::Complete)
            } else {
                None
            }
        }
    }
}

/// Passes, until each job is over or one has failed.
fn passes<M: Stepper + Drop + Send, R: Threads + Wait + Sync, G: Gate + Sync>(
    rt: &R,
    alloc: Global,
    turn: &Turn<M>,
    gate: &G,
    workers: usize,
    jobs: &[Job],
    made: &[CreateResult],
    runners: &mut [Runner<M>],
) -> RunEnd
    requires workers { 0 < workers }
    requires running { All (IsRunning (WasStopped M.is_sound M.origin M.steps turn.now.machine) turn.now made.now jobs.now) runners.old }
    requires may { AllMayAsk M.may_ask (M.origin turn.now.machine) turn.now.processes }
    requires jobs { length jobs.now ≡ turn.now.processes }
    requires made { length made.now ≡ turn.now.processes }
    ensures further { AreFurther (WasStopped M.is_sound M.origin M.steps turn.now.machine) turn.now made.now jobs.now runners.old runners.new }
    ensures complete { result ≡ RunEnd.Complete → All IsOver runners.new }
    ensures stopped { result ≡ RunEnd.Stopped → HasFailed StepFault.Stopped runners.new }
{
    for _ in rt.forever() {
        pass(rt, alloc, turn, gate, workers, jobs, made, runners);
        match ended(runners) {
            None => {}
            Some(end) => return end,
        }
    }
    unreachable!()
}

/// The same, of a list.
pub fn passes_of<M: Stepper + Drop + Send, R: Threads + Wait + Sync, G: Gate + Sync>(
    rt: &R,
    alloc: Global,
    turn: &Turn<M>,
    gate: &G,
    workers: usize,
    jobs: &[Job],
    made: &[CreateResult],
    runners: &mut Vec<Runner<M>>,
) -> RunEnd
    requires workers { 0 < workers }
    requires running { All (IsRunning (WasStopped M.is_sound M.origin M.steps turn.now.machine) turn.now made.now jobs.now) runners.old.items }
    requires may { AllMayAsk M.may_ask (M.origin turn.now.machine) turn.now.processes }
    requires jobs { length jobs.now ≡ turn.now.processes }
    requires made { length made.now ≡ turn.now.processes }
    ensures count { length runners.new.items ≡ length runners.old.items }
    ensures further { AreFurther (WasStopped M.is_sound M.origin M.steps turn.now.machine) turn.now made.now jobs.now runners.old.items runners.new.items }
    ensures complete { result ≡ RunEnd.Complete → All IsOver runners.new.items }
    ensures stopped { result ≡ RunEnd.Stopped → HasFailed StepFault.Stopped runners.new.items }
{
    passes(
        rt,
        alloc,
        turn,
        gate,
        workers,
        jobs,
        made,
        runners.as_mut_slice(),
    )
}
