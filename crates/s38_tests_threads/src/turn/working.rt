ghost use Rattle.std.specs.Prelude.{◌≡◌, ◌≢◌, ◌<◌, ◌+◌, ℕ, IfOk, OnOk, true};
ghost use Rattle.s38_turn.specs.Lists.{HasAll, has};
ghost use Rattle.s38_turn.specs.Seats.{IsSeatOf};
ghost use Rattle.s38_tests_threads.specs.turn.Seating.{HasStill, HasThese};

use crate::turn::counter::Counter;
use s38_code::{Event, Reply, StepFault};
use s38_turn::{Listener, Seat, Turn};
use std::sync::Wait;
use std::thread::{Threads, join};

/// How often each process calls.
pub const CALLS: u32 = 500;

/// Counts the replies that it hears.
#[derive(Drop)]
pub struct Heard {
    pub replies: u32,
}

impl Listener for Heard {
    ghost hears = { λ _ _ _. Unit {0} };

    fn hear(&mut self, _reply: &Reply) {
        self.replies = self.replies.wrapping_add(1);
    }
}

/// Calls for one process, until it has called `CALLS` times and has heard as many replies.
pub fn work<R: Wait>(
    rt: &R,
    turn: &Turn<Counter>,
    seat: Seat<Counter>,
    process: u32,
) -> Result<Seat<Counter>, StepFault>
    requires seat { IsSeatOf turn.now seat }
    requires has { has process seat.lists ≡ true }
    ensures seat { IfOk result (λ s. IsSeatOf turn.now s) }
    ensures has { IfOk result (λ s. (p : ℕ) → has p s.lists ≡ has p seat.lists) }
{
    let mut seat = seat;
    let mut heard = Heard { replies: 0 };
    for _ in 0..CALLS {
        turn.call(rt, &mut seat, process, Event::Start, &mut heard)?;
    }
    if heard.replies != CALLS {
        return Err(StepFault::Stopped);
    }
    Ok(seat)
}

/// A process of a seat gets a seat of its own, calls, and gives its seat back.
#[tactic(auto, using(crate::proofs::turn::Seating::has_again))]
fn round<R: Wait>(
    rt: &R,
    turn: &Turn<Counter>,
    seat: &mut Seat<Counter>,
    process: u32,
) -> Result<(), StepFault>
    requires seat { IsSeatOf turn.now seat.old }
    requires has { has process seat.old.lists ≡ true }
    ensures seat { OnOk result (IsSeatOf turn.now seat.new) }
    ensures has { OnOk result (HasStill seat.old.lists seat.new.lists) }
{
    let own = turn.split(seat, process);
    let own = work(rt, turn, own, process)?;
    turn.gather(seat, own);
    Ok(())
}

/// The processes of a seat call, one after the other.
pub fn rounds<R: Wait>(
    rt: &R,
    turn: &Turn<Counter>,
    seat: Seat<Counter>,
    first: u32,
    last: u32,
) -> Result<Seat<Counter>, StepFault>
    requires seat { IsSeatOf turn.now seat }
    requires has { HasThese first last seat.lists }
    ensures seat { IfOk result (λ s. IsSeatOf turn.now s) }
    ensures has { IfOk result (λ s. HasStill seat.lists s.lists) }
{
    let mut seat = seat;
    for process in first..=last {
        round(rt, turn, &mut seat, process)?;
    }
    Ok(seat)
}

/// Two threads call: one for the first processes, the other for those after them.
#[tactic(auto, using(crate::proofs::turn::Seating::has_both))]
pub fn run_two<R: Threads + Wait + Sync>(
    rt: &R,
    turn: &Turn<Counter>,
    seat: Seat<Counter>,
    other: Seat<Counter>,
    middle: u32,
    last: u32,
) -> Result<Seat<Counter>, StepFault>
    requires middle { middle < last }
    requires seat { IsSeatOf turn.now seat }
    requires other { IsSeatOf turn.now other }
    requires first_half { HasThese 1 middle seat.lists }
    requires second_half { HasThese (middle + 1) last other.lists }
    ensures seat { IfOk result (λ s. IsSeatOf turn.now s) }
    ensures has { IfOk result (λ s. HasAll last s.lists) }
{
    let behind = middle + 1;
    let (one, two) = join(
        rt,
        || -> Result<Seat<Counter>, StepFault>
            requires seat { IsSeatOf turn.now seat }
            requires has { HasThese 1 middle seat.lists }
            ensures seat { IfOk result (λ s. IsSeatOf turn.entry.now s) }
            ensures has { IfOk result (λ s. HasStill seat.lists s.lists) }
        { rounds(rt, turn, seat, 1, middle) },
        || -> Result<Seat<Counter>, StepFault>
            requires seat { IsSeatOf turn.now other }
            requires has { HasThese behind last other.lists }
            ensures seat { IfOk result (λ s. IsSeatOf turn.entry.now s) }
            ensures has { IfOk result (λ s. HasStill other.lists s.lists) }
        { rounds(rt, turn, other, behind, last) },
    );
    let mut seat = one?;
    let other = two?;
    turn.gather(&mut seat, other);
    Ok(seat)
}

/// A process moves from one seat to another.
#[tactic(auto, using(crate::proofs::turn::Seating::has_else, crate::proofs::turn::Seating::has_moved, crate::proofs::turn::Seating::has_more))]
fn move_over(
    turn: &Turn<Counter>,
    seat: &mut Seat<Counter>,
    other: &mut Seat<Counter>,
    process: u32,
)
    requires seat { IsSeatOf turn.now seat.old }
    requires other { IsSeatOf turn.now other.old }
    requires has { has process seat.old.lists ≡ true }
    ensures seat { IsSeatOf turn.now seat.new }
    ensures other { IsSeatOf turn.now other.new }
    ensures has { (q : ℕ) → q ≢ process → has q seat.old.lists ≡ true → has q seat.new.lists ≡ true }
    ensures more { HasStill other.old.lists other.new.lists }
    ensures moved { has process other.new.lists ≡ true }
{
    let own = turn.split(seat, process);
    turn.gather(other, own);
}

/// Takes from a seat all processes after one, for a second seat.
#[tactic(auto, using(crate::proofs::turn::Seating::has_last, crate::proofs::turn::Seating::has_before))]
pub fn part_after(
    turn: &Turn<Counter>,
    seat: &mut Seat<Counter>,
    middle: u32,
    last: u32,
) -> Seat<Counter>
    requires order { middle < last }
    requires few { last < 1000 }
    requires seat { IsSeatOf turn.now seat.old }
    requires has { HasThese 1 last seat.old.lists }
    ensures seat { IsSeatOf turn.now seat.new }
    ensures other { IsSeatOf turn.now result }
    ensures first_half { HasThese 1 middle seat.new.lists }
    ensures second_half { HasThese (middle + 1) last result.lists }
{
    let mut other = turn.split(seat, last);
    let mut from = last;
    while from > middle + 1 {
        from -= 1;
        move_over(turn, seat, &mut other, from);
    }
    other
}

/// Calls for each of the processes, in two threads where there are two, and gathers their seats.
pub fn run<R: Threads + Wait + Sync>(
    rt: &R,
    turn: &Turn<Counter>,
    seat: Seat<Counter>,
    last: u32,
) -> Result<Seat<Counter>, StepFault>
    requires few { last < 1000 }
    requires seat { IsSeatOf turn.now seat }
    requires has { HasAll last seat.lists }
    ensures seat { IfOk result (λ s. IsSeatOf turn.now s) }
    ensures has { IfOk result (λ s. HasAll last s.lists) }
{
    if last < 2 {
        return rounds(rt, turn, seat, 1, last);
    }
    let mut seat = seat;
    let middle = last / 2;
    let other = part_after(turn, &mut seat, middle, last);
    run_two(rt, turn, seat, other, middle, last)
}
