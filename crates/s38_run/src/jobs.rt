ghost use Rattle.std.specs.Prelude.{◌≡◌, ◌-◌, ◌<◌, ◌^◌, ◌==◌, not, IsErrOf, OnErr, OnOk, filter, length, vec_len};
ghost use Rattle.s38_code.specs.declared.step.StepFault.{StepFault};
ghost use Rattle.s38_rules.specs.step.Legal.{IsSound};
ghost use Rattle.s38_run.specs.Picked.{Picked};
ghost use Rattle.s38_run.specs.Pickers.{after_picks, picks_of};
ghost use Rattle.s38_run.specs.Running.{CameOff, CameToHalt, HasHalted, IsBetween, IsOver, RanSoFar, WentOn};
ghost use Rattle.s38_run.specs.Turns.{ready_after};
ghost use Rattle.s38_run.specs.Whole.{AllByProgram, AllRan, IsBegun, WasHalted};
ghost use Rattle.s38_run.specs.declared.run_end.RunEnd.{RunEnd};

use crate::job_state::{JobState, unbegun};
use crate::outcome::Outcome;
use crate::picker::Picker;
use crate::run_end::{RunEnd, end_of};
use crate::run_machine::RunMachine;
use crate::turn::take_turn;
use s38_base::NoMemory;
use s38_code::{CreateResult, Job, StepFault};
use std::alloc::Global;

/// Takes out of those that are ready a process that waits.
fn leave(ready: &mut Vec<u32>, process: u32)
    ensures { ready.new.items ≡ filter (λ q. not (process == q)) ready.old.items }
{
    ready.retain(|q| process != *q);
}

/// Who is ready after a turn of a process. The machine is asked only where others may be ready now.
fn update<M: RunMachine>(
    machine: &M,
    ready: &mut Vec<u32>,
    process: u32,
    waited: bool,
    outcome: Outcome,
) -> Result<(), NoMemory>
    requires sound { M.is_sound machine.now }
    requires going { M.is_going machine.now }
    requires few { length (M.run machine.now).state.processes < 2 ^ 32 - 1 }
    ensures { OnOk result (ready.new.items ≡ ready_after (M.run machine.now).state process waited outcome ready.old.items) }
{
    match outcome {
        Outcome::Finished => machine.ready_list(ready),
        Outcome::Waits => {
            leave(ready, process);
            Ok(())
        }
        Outcome::Refused => Ok(()),
        Outcome::Changed => {
            if waited {
                machine.ready_list(ready)
            } else {
                Ok(())
            }
        }
    }
}

/// The process at a place of those that are ready takes a turn.
fn go_on<M: RunMachine>(
    alloc: Global,
    machine: &mut M,
    states: &mut Vec<JobState>,
    ready: &mut Vec<u32>,
    jobs: &[Job],
    made: &[CreateResult],
    place: usize,
) -> Result<(), StepFault>
    requires sound { M.is_sound machine.old }
    requires going { M.is_going machine.old }
    requires between { IsBetween made.now jobs.now (M.run machine.old) states.old.items ready.old.items }
    requires few { length jobs.now < 2 ^ 32 - 1 }
    requires place { place < vec_len ready.old }
    ensures sound { M.is_sound machine.new }
    ensures origin { M.origin machine.new ≡ M.origin machine.old }
    ensures going { OnOk result (M.is_going machine.new) }
    ensures went { OnOk result (WentOn made.now jobs.now (M.run machine.old) states.old.items ready.old.items place (M.run machine.new) states.new.items ready.new.items) }
    ensures came_off { OnErr result (CameOff made.now jobs.now (M.run machine.old) ready.old.items place (M.run machine.new)) }
    ensures stopped { IsErrOf result StepFault.Stopped → CameToHalt made.now jobs.now (M.run machine.old) ready.old.items place (M.run machine.new) (M.stopped machine.new) }
{
    let number = ready[place];
    let at = number as usize - 1;
    let waited = machine.somebody_waits();
    let outcome = match take_turn(
        alloc,
        machine,
        &mut states[at],
        &jobs[at],
        &made[at],
        number,
    ) {
        Ok(outcome) => outcome,
        Err(fault) => return Err(fault),
    };
    match update(machine, ready, number, waited, outcome) {
        Ok(()) => Ok(()),
        Err(_) => Err(StepFault::NoMemory),
    }
}

/// The jobs take turns, from the first on, until each has ended.
fn take_turns<M: RunMachine, P: Picker>(
    alloc: Global,
    machine: &mut M,
    states: &mut Vec<JobState>,
    ready: &mut Vec<u32>,
    jobs: &[Job],
    made: &[CreateResult],
    picker: &mut P,
) -> Result<(), StepFault>
    requires sound { M.is_sound machine.old }
    requires going { M.is_going machine.old }
    requires begun { IsBegun jobs.now (M.run machine.old) }
    requires between { IsBetween made.now jobs.now (M.run machine.old) states.old.items ready.old.items }
    requires few { length jobs.now < 2 ^ 32 - 1 }
    ensures sound { M.is_sound machine.new }
    ensures origin { M.origin machine.new ≡ M.origin machine.old }
    ensures going { OnOk result (M.is_going machine.new) }
    ensures so_far { RanSoFar P.answer P.after picker.old made.now jobs.now (M.run machine.old) (M.run machine.new) }
    ensures over { OnOk result (IsOver P.after picker.old picker.new made.now jobs.now (M.run machine.new)) }
    ensures stopped { IsErrOf result StepFault.Stopped → HasHalted P.answer P.after picker.old made.now jobs.now (M.run machine.new) (M.stopped machine.new) }
{
    while !ready.is_empty() {
        let place = picker.pick() as usize % ready.len();
        match go_on(alloc, machine, states, ready, jobs, made, place) {
            Ok(()) => {}
            Err(fault) => return Err(fault),
        }
    }
    Ok(())
}

/// Runs the jobs on a machine that has begun.
fn run_on<M: RunMachine, P: Picker>(
    alloc: Global,
    machine: &mut M,
    jobs: &[Job],
    made: &[CreateResult],
    picker: &mut P,
) -> Result<(), StepFault>
    requires sound { M.is_sound machine.old }
    requires going { M.is_going machine.old }
    requires begun { IsBegun jobs.now (M.run machine.old) }
    requires made { length made.now ≡ length jobs.now }
    requires few { length jobs.now < 2 ^ 32 - 1 }
    ensures sound { M.is_sound machine.new }
    ensures origin { M.origin machine.new ≡ M.origin machine.old }
    ensures going { OnOk result (M.is_going machine.new) }
    ensures so_far { RanSoFar P.answer P.after picker.old made.now jobs.now (M.run machine.old) (M.run machine.new) }
    ensures over { OnOk result (IsOver P.after picker.old picker.new made.now jobs.now (M.run machine.new)) }
    ensures stopped { IsErrOf result StepFault.Stopped → HasHalted P.answer P.after picker.old made.now jobs.now (M.run machine.new) (M.stopped machine.new) }
{
    let mut ready = Vec::new(alloc);
    match machine.ready_list(&mut ready) {
        Err(_) => return Err(StepFault::NoMemory),
        Ok(()) => {}
    }
    match unbegun(alloc, jobs) {
        Err(_) => Err(StepFault::NoMemory),
        Ok(mut states) => take_turns(alloc, machine, &mut states, &mut ready, jobs, made, picker),
    }
}

/// Runs the jobs, each by what creation made of its template, at its place, until each has ended, or the machine has
/// stopped, or memory is refused. Each pick says which of the ready processes, in order of number, does its next event: the
/// one at the place of the pick modulo their count. The machine comes back at each end.
pub fn serial<M: RunMachine + Drop, P: Picker>(
    alloc: Global,
    machine: M,
    jobs: &[Job],
    made: &[CreateResult],
    picker: &mut P,
) -> (M, RunEnd)
    requires sound { M.is_sound machine }
    requires going { M.is_going machine }
    requires begun { IsBegun jobs.now (M.run machine) }
    requires made { length made.now ≡ length jobs.now }
    requires few { length jobs.now < 2 ^ 32 - 1 }
    ensures sound { M.is_sound result.0 }
    ensures origin { M.origin result.0 ≡ M.origin machine }
    ensures begun { (M.run result.0).origin ≡ (M.run machine).origin }
    ensures picked { Picked (picks_of P.answer P.after (length (M.run result.0).history) picker.old) (M.run result.0).origin (M.run result.0).history }
    ensures by_program { AllByProgram made.now jobs.now (M.run result.0).history }

    // Each process has ended.
    ensures going { result.1 ≡ RunEnd.Complete → M.is_going result.0 }
    ensures run { result.1 ≡ RunEnd.Complete → IsSound (M.run result.0) }
    ensures picker { result.1 ≡ RunEnd.Complete → picker.new ≡ after_picks P.after (length (M.run result.0).history) picker.old }
    ensures ran { result.1 ≡ RunEnd.Complete → AllRan made.now jobs.now (M.run result.0).history }

    // The machine has stopped, at the turn that the next pick chooses.
    ensures stopped { result.1 ≡ RunEnd.Stopped → WasHalted made.now jobs.now (P.answer (after_picks P.after (length (M.run result.0).history) picker.old)) (M.run result.0) (M.stopped result.0) }
{
    let mut machine = machine;
    let run = run_on(alloc, &mut machine, jobs, made, picker);
    (machine, end_of(run))
}
