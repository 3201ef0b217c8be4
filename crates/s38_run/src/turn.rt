ghost use Rattle.std.specs.Prelude.{◌≡◌, ◌≢◌, IfOk, IsErrOf, OnErr, OnOk, Some, is_some, true};
ghost use Rattle.s38_code.specs.declared.event.Event.{Event};
ghost use Rattle.s38_code.specs.declared.reply.Reply.{Reply};
ghost use Rattle.s38_code.specs.declared.step.StepFault.{StepFault};
ghost use Rattle.s38_code.specs.Asking.{reply_by};
ghost use Rattle.s38_process.specs.Process.{event_of};
ghost use Rattle.s38_process.specs.AfterReply.{absorbed, is_finish};
ghost use Rattle.s38_process.specs.declared.status.Status.{Status};
ghost use Rattle.s38_rules.specs.step.Legal.{IsProcess};
ghost use Rattle.s38_run.specs.Turns.{BrokeOff, TookTurn, Turned, WasStopped, WentInPlace, doing, outcome_of};
ghost use Rattle.s38_run.specs.declared.job_state.JobState.{JobState};

use crate::job_state::{JobState, begin};
use crate::outcome::{Outcome, is_finish, outcome_of};
use crate::run_machine::RunMachine;
use s38_base::NoMemory;
use s38_code::{Asked, CreateResult, Job, Reply, StepFault};
use s38_process::{Next, Process};
use std::alloc::Global;

/// A process goes on by a reply; `ends` says whether it asked for its end.
#[inline(always)]
fn absorb(process: &mut Process, reply: &Reply, ends: bool) -> Result<Outcome, NoMemory>
    ensures { IfOk result (λ outcome. (process.new ≡ absorbed process.old reply.now) × ((event : Event) → ends ≡ is_finish event → outcome ≡ outcome_of event reply.now)) }
{
    match process.absorb(reply) {
        Err(fault) => Err(fault),
        Ok(()) => Ok(outcome_of(ends, reply)),
    }
}

/// A process goes on by the reply to what it has just asked.
fn absorb_asked<M: RunMachine>(
    machine: &M,
    process: &mut Process,
    asked: Asked,
    ends: bool,
) -> Result<Outcome, NoMemory>
    requires sound { M.is_sound machine.now }
    requires going { M.is_going machine.now }
    requires replied { is_some (reply_by asked (M.run machine.now).history) ≡ true }
    ensures { IfOk result (λ outcome. (reply : Reply) → reply_by asked (M.run machine.now).history ≡ Some reply
        → (process.new ≡ absorbed process.old reply) × ((event : Event) → ends ≡ is_finish event → outcome ≡ outcome_of event reply)) }
{
    match asked {
        Asked::WaitsStill => absorb(process, &Reply::MustWait, ends),
        Asked::Entered => match machine.last_reply() {
            None => unreachable!(),
            Some(reply) => absorb(process, reply, ends),
        },
    }
}

/// One event of a process that has not ended is asked of a machine, and answered.
#[tactic(auto, using(crate::proofs::Asking::none_asked))]
fn turn<M: RunMachine>(
    machine: &mut M,
    process: &mut Process,
    number: u32,
) -> Result<Outcome, StepFault>
    requires sound { M.is_sound machine.old }
    requires going { M.is_going machine.old }
    requires may { IsProcess (M.run machine.old).origin number }
    requires open { process.old.status ≢ Status.Ended }
    ensures sound { M.is_sound machine.new }
    ensures origin { M.origin machine.new ≡ M.origin machine.old }
    ensures going { OnOk result (M.is_going machine.new) }
    ensures turned { IfOk result (λ outcome. Turned number (M.run machine.old) process.old outcome (M.run machine.new) process.new) }
    ensures broke { OnErr result (BrokeOff number (M.run machine.old) process.old (M.run machine.new)) }
    ensures stopped { IsErrOf result StepFault.Stopped → WasStopped number (M.run machine.old) process.old (M.run machine.new) (M.stopped machine.new) }
{
    match process.next() {
        Err(_) => Err(StepFault::NoMemory),
        Ok(Next::Ended) => unreachable!(),
        Ok(Next::Step(event)) => {
            let ends = is_finish(&event);
            match machine.ask(number, event) {
                Err(fault) => Err(fault),
                Ok(asked) => match absorb_asked(machine, process, asked, ends) {
                    Err(_) => Err(StepFault::NoMemory),
                    Ok(outcome) => Ok(outcome),
                },
            }
        }
    }
}

/// The process of a job that has begun takes a turn in place.
fn running_turn<M: RunMachine>(
    machine: &mut M,
    state: &mut JobState,
    job: &Job,
    made: &CreateResult,
    number: u32,
) -> Result<Outcome, StepFault>
    requires sound { M.is_sound machine.old }
    requires going { M.is_going machine.old }
    requires may { IsProcess (M.run machine.old).origin number }
    requires running { state.old ≡ JobState.Running (doing made.now job.now.budget state.old) }
    requires open { (doing made.now job.now.budget state.old).status ≢ Status.Ended }
    ensures sound { M.is_sound machine.new }
    ensures origin { M.origin machine.new ≡ M.origin machine.old }
    ensures going { OnOk result (M.is_going machine.new) }
    ensures went { IfOk result (λ outcome. WentInPlace number (M.run machine.old) (doing made.now job.now.budget state.old) outcome (M.run machine.new) state.new) }
    ensures broke { OnErr result (BrokeOff number (M.run machine.old) (doing made.now job.now.budget state.old) (M.run machine.new)) }
    ensures stopped { IsErrOf result StepFault.Stopped → WasStopped number (M.run machine.old) (doing made.now job.now.budget state.old) (M.run machine.new) (M.stopped machine.new) }
{
    let _ = job;
    let _ = made;
    match state {
        JobState::Running(process) => turn(machine, process, number),
        _ => unreachable!(),
    }
}

/// A job that is not over takes a turn. Its process begins at its first turn, and is dropped at its end.
pub fn take_turn<M: RunMachine>(
    alloc: Global,
    machine: &mut M,
    state: &mut JobState,
    job: &Job,
    made: &CreateResult,
    number: u32,
) -> Result<Outcome, StepFault>
    requires sound { M.is_sound machine.old }
    requires going { M.is_going machine.old }
    requires may { IsProcess (M.run machine.old).origin number }
    requires open { (doing made.now job.now.budget state.old).status ≢ Status.Ended }
    ensures sound { M.is_sound machine.new }
    ensures origin { M.origin machine.new ≡ M.origin machine.old }
    ensures going { OnOk result (M.is_going machine.new) }
    ensures took { IfOk result (λ outcome. TookTurn number made.now job.now.budget (M.run machine.old) state.old outcome (M.run machine.new) state.new) }
    ensures broke { OnErr result (BrokeOff number (M.run machine.old) (doing made.now job.now.budget state.old) (M.run machine.new)) }
    ensures stopped { IsErrOf result StepFault.Stopped → WasStopped number (M.run machine.old) (doing made.now job.now.budget state.old) (M.run machine.new) (M.stopped machine.new) }
{
    match begin(alloc, state, job, made) {
        Err(_) => return Err(StepFault::NoMemory),
        Ok(()) => {}
    }
    let outcome = running_turn(machine, state, job, made, number)?;
    match outcome {
        Outcome::Finished => *state = JobState::Over,
        _ => {}
    }
    Ok(outcome)
}
