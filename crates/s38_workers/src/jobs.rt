ghost use Rattle.std.specs.Prelude.{◌≡◌, ◌-◌, ◌<◌, ◌^◌, [], IfSome, None, length};
ghost use Rattle.s38_run.specs.Whole.{AllByProgram, AllRan};
ghost use Rattle.s38_run.specs.declared.run_end.RunEnd.{RunEnd};
ghost use Rattle.s38_workers.specs.Asking.{AllMayAsk, WasStopped};
ghost use Rattle.s38_workers.specs.Runs.{IsNextOf};

use crate::gate::Gate;
use crate::passes::passes_of;
use crate::seats::{all_seated, closed};
use s38_code::{CreateResult, Job, Stepper};
use s38_run::RunEnd;
use s38_turn::Turn;
use std::alloc::Global;
use std::sync::Wait;
use std::thread::Threads;

/// Runs the jobs on so many workers, each by what creation made of its template, at its place, until each has ended, or
/// the machine has stopped, or memory is refused. The processes share the machine by a turn. The machine comes back at each
/// end.
pub fn run_jobs<M: Stepper + Drop + Send, R: Threads + Wait + Sync, G: Gate + Sync>(
    rt: &R,
    alloc: Global,
    machine: M,
    jobs: &[Job],
    made: &[CreateResult],
    workers: u32,
    gate: &G,
) -> (M, RunEnd)
    requires sound { M.is_sound machine }
    requires empty { M.history machine ≡ [] }
    requires going { M.stopped machine ≡ None }
    requires may { AllMayAsk M.may_ask (M.origin machine) (length jobs.now) }
    requires made { length made.now ≡ length jobs.now }
    requires few { length jobs.now < 2 ^ 32 - 1 }
    requires workers { 0 < workers }
    ensures sound { M.is_sound result.0 }
    ensures origin { M.origin result.0 ≡ M.origin machine }
    ensures by_program { AllByProgram made.now jobs.now (M.history result.0) }
    ensures complete { result.1 ≡ RunEnd.Complete → AllRan made.now jobs.now (M.history result.0) }
    ensures stopped { result.1 ≡ RunEnd.Stopped → WasStopped M.is_sound M.origin M.steps machine }
    ensures asked { IfSome (M.stopped result.0) (λ call. IsNextOf made.now jobs.now (M.history result.0) call) }
{
    let Ok(mut runners) = Vec::with_capacity(alloc, jobs.len()) else {
        return (machine, RunEnd::NoMemory);
    };
    match Turn::new(alloc, machine, jobs.len() as u32) {
        Err((machine, _)) => (machine, RunEnd::NoMemory),
        Ok((turn, mut seat)) => {
            all_seated(&turn, &mut seat, jobs, made, &mut runners);
            let end = passes_of(
                rt,
                alloc,
                &turn,
                gate,
                workers as usize,
                jobs,
                made,
                &mut runners,
            );
            (closed(turn, seat, jobs, made, runners), end)
        }
    }
}
