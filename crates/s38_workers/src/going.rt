//! One process goes on.
ghost use Rattle.std.specs.Prelude.{◌≡◌, ◌-◌, ◌<◌, ◌≤◌, length, true};
ghost use Rattle.s38_turn.specs.Lists.{has, list_of};
ghost use Rattle.s38_turn.specs.Seats.{IsSeatOf};
ghost use Rattle.s38_workers.specs.Asking.{AllMayAsk, HasSame, WasStopped, Went};
ghost use Rattle.s38_workers.specs.Going.{IsFurther, IsRunning, Moved, begun};
ghost use Rattle.s38_workers.specs.declared.runner.Progress.{Progress};

use crate::gate::Gate;
use crate::hearer::{Heard, Hearer, told};
use crate::runner::{Progress, Runner, begin, settle};
use s38_code::{CreateResult, Job, StepFault, Stepper};
use s38_process::Next;
use s38_turn::{Seat, Turn};
use std::alloc::Global;
use std::sync::Wait;

/// A process asks for its next event, and goes on by the reply. It has ended where nothing was told.
fn ask<M: Stepper + Drop, R: Wait, G: Gate>(
    rt: &R,
    turn: &Turn<M>,
    gate: &G,
    number: u32,
    seat: &mut Seat<M>,
    hearer: &mut Hearer,
) -> Result<Option<Heard>, StepFault>
    requires seat { IsSeatOf turn.now seat.old }
    requires has { has number seat.old.lists ≡ true }
    requires first { 0 < number }
    requires last { number ≤ turn.now.processes }
    requires may { AllMayAsk M.may_ask (M.origin turn.now.machine) turn.now.processes }
    ensures seat { IsSeatOf turn.now seat.new }
    ensures processes { HasSame seat.old.lists seat.new.lists }
    ensures went { Went (WasStopped M.is_sound M.origin M.steps turn.now.machine) hearer.old.process (list_of number seat.old.lists) result hearer.new.process (list_of number seat.new.lists) }
{
    match hearer.process.next() {
        Err(_) => Err(StepFault::NoMemory),
        Ok(Next::Ended) => Ok(None),
        Ok(Next::Step(event)) => {
            gate.before(number);
            let call = turn.call(rt, seat, number, event, hearer);
            told(call, hearer.heard)
        }
    }
}

/// The process of a job that goes on asks for its next event; whether it may go on at once.
fn move_on<M: Stepper + Drop, R: Wait, G: Gate>(
    rt: &R,
    turn: &Turn<M>,
    gate: &G,
    number: u32,
    seat: &mut Seat<M>,
    progress: &mut Progress,
) -> bool
    requires seat { IsSeatOf turn.now seat.old }
    requires has { has number seat.old.lists ≡ true }
    requires first { 0 < number }
    requires last { number ≤ turn.now.processes }
    requires may { AllMayAsk M.may_ask (M.origin turn.now.machine) turn.now.processes }
    ensures seat { IsSeatOf turn.now seat.new }
    ensures processes { HasSame seat.old.lists seat.new.lists }
    ensures moved { Moved (WasStopped M.is_sound M.origin M.steps turn.now.machine) progress.old (list_of number seat.old.lists) progress.new (list_of number seat.new.lists) }
{
    let told = match progress {
        Progress::Running(hearer) => ask(rt, turn, gate, number, seat, hearer),
        _ => return false,
    };
    settle(progress, told)
}

/// A job does one event; whether it may go on at once.
fn go_on<M: Stepper + Drop, R: Wait, G: Gate>(
    rt: &R,
    alloc: Global,
    turn: &Turn<M>,
    gate: &G,
    jobs: &[Job],
    made: &[CreateResult],
    runner: &mut Runner<M>,
) -> bool
    requires running { IsRunning (WasStopped M.is_sound M.origin M.steps turn.now.machine) turn.now made.now jobs.now runner.old }
    requires may { AllMayAsk M.may_ask (M.origin turn.now.machine) turn.now.processes }
    requires jobs { length jobs.now ≡ turn.now.processes }
    requires made { length made.now ≡ turn.now.processes }
    ensures { IsFurther (WasStopped M.is_sound M.origin M.steps turn.now.machine) turn.now made.now jobs.now runner.old runner.new }
{
    let at = runner.number as usize - 1;
    match begin(alloc, &mut runner.progress, &jobs[at], &made[at]) {
        Err(_) => {
            runner.progress = Progress::Failed(StepFault::NoMemory);
            false
        }
        Ok(()) => move_on(
            rt,
            turn,
            gate,
            runner.number,
            &mut runner.seat,
            &mut runner.progress,
        ),
    }
}

/// A job does events until it must wait, is over or has failed.
fn go_far<M: Stepper + Drop, R: Wait, G: Gate>(
    rt: &R,
    alloc: Global,
    turn: &Turn<M>,
    gate: &G,
    jobs: &[Job],
    made: &[CreateResult],
    runner: &mut Runner<M>,
)
    requires running { IsRunning (WasStopped M.is_sound M.origin M.steps turn.now.machine) turn.now made.now jobs.now runner.old }
    requires may { AllMayAsk M.may_ask (M.origin turn.now.machine) turn.now.processes }
    requires jobs { length jobs.now ≡ turn.now.processes }
    requires made { length made.now ≡ turn.now.processes }
    ensures { IsFurther (WasStopped M.is_sound M.origin M.steps turn.now.machine) turn.now made.now jobs.now runner.old runner.new }
{
    for _ in rt.forever() {
        if !go_on(rt, alloc, turn, gate, jobs, made, runner) {
            return;
        }
    }
    unreachable!()
}

/// A job of the current stage goes as far as it can. One of a later stage asks for nothing, since it would only be told to
/// wait.
pub fn go_in_stage<M: Stepper + Drop, R: Wait, G: Gate>(
    rt: &R,
    alloc: Global,
    turn: &Turn<M>,
    gate: &G,
    jobs: &[Job],
    made: &[CreateResult],
    stage: u16,
    runner: &mut Runner<M>,
)
    requires running { IsRunning (WasStopped M.is_sound M.origin M.steps turn.now.machine) turn.now made.now jobs.now runner.old }
    requires may { AllMayAsk M.may_ask (M.origin turn.now.machine) turn.now.processes }
    requires jobs { length jobs.now ≡ turn.now.processes }
    requires made { length made.now ≡ turn.now.processes }
    ensures { IsFurther (WasStopped M.is_sound M.origin M.steps turn.now.machine) turn.now made.now jobs.now runner.old runner.new }
{
    let at = runner.number as usize - 1;
    if jobs[at].stage <= stage {
        go_far(rt, alloc, turn, gate, jobs, made, runner);
    }
}
