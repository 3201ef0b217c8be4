//! The seats of the processes: one for each, and all in one again.
ghost use Rattle.std.specs.Prelude.{◌≡◌, ◌+◌, ◌-◌, ◌<◌, ◌≤◌, ◌^◌, ◌++◌, ℕ, IfSome, List, [], Some, false, length, slice_get, slice_index_or, vec_capacity};
ghost use Rattle.s38_code.specs.declared.deck.Job.{Job};
ghost use Rattle.s38_code.specs.declared.made.CreateResult.{CreateResult};
ghost use Rattle.s38_turn.specs.Items.{items_by, items_of};
ghost use Rattle.s38_turn.specs.Lists.{has};
ghost use Rattle.s38_turn.specs.Rule.{IsOneOf};
ghost use Rattle.s38_turn.specs.Seats.{IsSeatOf};
ghost use Rattle.s38_workers.specs.Asking.{WasStopped};
ghost use Rattle.s38_workers.specs.Going.{IsByProgramSoFar, IsRunning};
ghost use Rattle.s38_workers.specs.Runs.{AreGathered, AreLeft, AreSeated};
ghost use Rattle.s38_workers.specs.declared.runner.Runner.{Runner};

use crate::runner::{Progress, Runner};
use s38_code::{CreateResult, Job, Stepper};
use s38_turn::{Seat, Turn};

/// A job before its first event, with the seat of its process.
fn seated<M: Stepper + Drop>(
    turn: &Turn<M>,
    seat: &mut Seat<M>,
    jobs: &[Job],
    made: &[CreateResult],
    number: u32,
) -> Runner<M>
    requires seat { IsSeatOf turn.now seat.old }
    requires left { AreLeft turn.now.processes (number - 1) seat.old.lists }
    requires first { 0 < number }
    requires last { number ≤ turn.now.processes }
    ensures seat { IsSeatOf turn.now seat.new }
    ensures left { AreLeft turn.now.processes number seat.new.lists }
    ensures running { IsRunning (WasStopped M.is_sound M.origin M.steps turn.now.machine) turn.now made.now jobs.now result }
    ensures number { result.number ≡ number }
{
    let _ = jobs;
    let _ = made;
    Runner {
        number,
        seat: turn.split(seat, number),
        progress: Progress::Unbegun,
    }
}

/// Gives each process a seat of its own. The memory of so many jobs is taken.
pub fn all_seated<M: Stepper + Drop>(
    turn: &Turn<M>,
    seat: &mut Seat<M>,
    jobs: &[Job],
    made: &[CreateResult],
    runners: &mut Vec<Runner<M>>,
)
    requires seat { IsSeatOf turn.now seat.old }
    requires left { AreLeft turn.now.processes 0 seat.old.lists }
    requires jobs { length jobs.now ≡ turn.now.processes }
    requires few { length jobs.now < 2 ^ 32 - 1 }
    requires empty { runners.old.items ≡ [] }
    requires room { length jobs.now ≤ vec_capacity runners.old }
    ensures seat { IsSeatOf turn.now seat.new }
    ensures none { (process : ℕ) → has process seat.new.lists ≡ false }
    ensures count { length runners.new.items ≡ length jobs.now }
    ensures seated { AreSeated (WasStopped M.is_sound M.origin M.steps turn.now.machine) turn.now made.now jobs.now runners.new.items }
{
    for i in 0..jobs.len() {
        let runner = seated(turn, seat, jobs, made, i as u32 + 1);
        runners.push_reserved(runner);
    }
}

/// Takes in the seat of a job.
fn gather<M: Stepper + Drop>(turn: &Turn<M>, seat: &mut Seat<M>, runner: Runner<M>)
    requires seat { IsSeatOf turn.now seat.old }
    requires own { IsSeatOf turn.now runner.seat }
    ensures seat { IsSeatOf turn.now seat.new }
    ensures lists { seat.new.lists ≡ seat.old.lists ++ runner.seat.lists }
{
    let Runner {
        number: _,
        seat: own,
        progress: _,
    } = runner;
    turn.gather(seat, own);
}

/// Takes in the seats of all jobs.
fn gather_all<M: Stepper + Drop>(
    turn: &Turn<M>,
    seat: &mut Seat<M>,
    jobs: &[Job],
    made: &[CreateResult],
    runners: Vec<Runner<M>>,
)
    requires seat { IsSeatOf turn.now seat.old }
    requires none { (process : ℕ) → has process seat.old.lists ≡ false }
    requires seated { AreSeated (WasStopped M.is_sound M.origin M.steps turn.now.machine) turn.now made.now jobs.now runners.items }
    ensures { (left : List (Runner M)) × (length left ≡ 0) × AreGathered (WasStopped M.is_sound M.origin M.steps turn.now.machine) turn.now made.now jobs.now runners.items left seat.new }
{
    let _ = jobs;
    let _ = made;
    let mut runners = runners;
    while let Some(runner) = runners.pop() {
        gather(turn, seat, runner);
    }
}

/// Gathers the seats, and ends the turn: the items of each process are those of its job.
pub fn closed<M: Stepper + Drop>(
    turn: Turn<M>,
    seat: Seat<M>,
    jobs: &[Job],
    made: &[CreateResult],
    runners: Vec<Runner<M>>,
) -> M
    requires seat { IsSeatOf turn seat }
    requires none { (process : ℕ) → has process seat.lists ≡ false }
    requires count { length runners.items ≡ turn.processes }
    requires seated { AreSeated (WasStopped M.is_sound M.origin M.steps turn.machine) turn made.now jobs.now runners.items }
    ensures sound { M.is_sound result }
    ensures origin { M.origin result ≡ M.origin turn.machine }
    ensures stands { (k : ℕ) (d : Runner M) (job : Job) (one : CreateResult) → k < length runners.items → slice_get jobs.now k ≡ Some job → slice_get made.now k ≡ Some one
        → IsByProgramSoFar (WasStopped M.is_sound M.origin M.steps turn.machine) one job.budget (items_by (k + 1) (items_of M.history M.stopped result)) (slice_index_or runners.items k d).progress }
    ensures named { IfSome (M.stopped result) (λ call. IsOneOf turn.processes call.0) }
{
    let mut seat = seat;
    gather_all(&turn, &mut seat, jobs, made, runners);
    turn.close(seat)
}
