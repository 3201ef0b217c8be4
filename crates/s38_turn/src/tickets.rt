//! Drawing a ticket, waiting for its turn, and giving the turn on.
ghost use Rattle.std.specs.Prelude.{◌≡◌, ◌+◌, ◌-◌, ◌<◌, ◌^◌, [], ◌∷◌, MatchBool, Some, true};
ghost use Rattle.s38_turn.specs.Calls.{Grew, IsAt, IsIdle, IsLike, IsSame, IsSized, Knows};
ghost use Rattle.s38_turn.specs.Items.{items_of};
ghost use Rattle.s38_turn.specs.Lists.{has};
ghost use Rattle.s38_turn.specs.Plays.{Took, in_hand, knowing};
ghost use Rattle.s38_turn.specs.declared.view.Place.TheVariants.{Acts, Waits};

use crate::rule::{Begun, Draw, Look, OneHistory, Serve};
use crate::view::View;
use atomic_table::Shared;
use s38_code::Stepper;
use std::hint::spin_loop;
use std::sync::Wait;
use std::thread::yield_now;

/// The word that has the next ticket.
const NEXT: usize = 0;

/// The word that has the ticket that is served.
const SERVED: usize = 1;

/// How often a seat looks at once for its turn.
const SPINS: u32 = 200;

/// How often it then lets others run before it looks again. After that it sleeps until another ticket is served.
const YIELDS: u32 = 100;

/// A sleep looks at the low 32 bits of a word.
const SLEEP_RANGE: u64 = 1 << 32;

/// What threads share: the words, and the slot of the machine.
pub(crate) type Board<M> = Shared<Option<M>, View<M>, Begun<M>, OneHistory>;

/// A seat of the table.
pub(crate) type TableSeat<M> = atomic_table::Seat<Option<M>, View<M>>;

/// Tries to draw a ticket for a process, and says whether it did.
fn try_draw<M: Stepper>(board: &Board<M>, seat: &mut TableSeat<M>, process: u32, next: u64) -> bool
    requires sized { IsSized board.now.table_id }
    requires idle { IsIdle board.now.table_id board.now.key.machine.value seat.old }
    requires has { has process seat.old.me.0.lists ≡ true }
    requires small { next < 2 ^ 64 - 1 }
    ensures knows { Knows seat.old seat.new }
    ensures drew { MatchBool result (IsAt board.now.table_id board.now.key.machine.value (Waits next) [] seat.new) (IsIdle board.now.table_id board.now.key.machine.value seat.new) }
{
    let _ = process;
    board.compare_exchange::<Draw>(seat, NEXT, next, next + 1) == next
}

/// Draws a ticket for a process.
pub(crate) fn draw<M: Stepper, R: Wait>(
    rt: &R,
    board: &Board<M>,
    seat: &mut TableSeat<M>,
    process: u32,
) -> u64
    requires sized { IsSized board.now.table_id }
    requires idle { IsIdle board.now.table_id board.now.key.machine.value seat.old }
    requires has { has process seat.old.me.0.lists ≡ true }
    ensures knows { Knows seat.old seat.new }
    ensures ticket { IsAt board.now.table_id board.now.key.machine.value (Waits result) [] seat.new }
    ensures small { result < 2 ^ 64 - 1 }
{
    for _ in rt.forever() {
        let next = board.peek(NEXT);
        if next < u64::MAX && try_draw(board, seat, process, next) {
            return next;
        }
    }
    unreachable!()
}

/// Waits a little, or, after that many looks, until another ticket than this one is served.
fn pause<M: Stepper, R: Wait>(rt: &R, board: &Board<M>, served: u64, looks: u32)
    requires sized { IsSized board.now.table_id }
{
    if looks < SPINS {
        spin_loop();
    } else if looks < SPINS + YIELDS {
        yield_now();
    } else {
        board.park(rt, SERVED, (served % SLEEP_RANGE) as u32);
    }
}

/// Waits for the turn of a ticket, and takes it.
pub(crate) fn enter<M: Stepper, R: Wait>(
    rt: &R,
    board: &Board<M>,
    seat: &mut TableSeat<M>,
    ticket: u64,
)
    requires sized { IsSized board.now.table_id }
    requires waits { IsAt board.now.table_id board.now.key.machine.value (Waits ticket) [] seat.old }
    ensures same { IsSame seat.old seat.new }
    ensures took { Took (IsLike M.is_sound M.origin) (items_of M.history M.stopped) ticket seat.old.me seat.new.me }
{
    let mut looks = 0u32;
    for _ in rt.forever() {
        let served = board.load::<Look>(seat, SERVED);
        if served == ticket {
            return;
        }
        pause(rt, board, served, looks);
        looks = if looks < SPINS + YIELDS { looks + 1 } else { 0 };
    }
    unreachable!()
}

/// Gives the turn on, and wakes those that sleep where somebody waits.
pub(crate) fn serve<M: Stepper>(
    board: &Board<M>,
    seat: &mut TableSeat<M>,
    process: u32,
    ticket: u64,
)
    requires sized { IsSized board.now.table_id }
    requires acts { (m : M) × IsAt board.now.table_id board.now.key.machine.value (Acts ticket) ((0, Some m) ∷ []) seat.old × IsLike M.is_sound M.origin board.now.key.machine.value m
        × Grew process seat.old.me.0.seen (items_of M.history M.stopped m) }
    requires has { has process seat.old.me.0.lists ≡ true }
    requires small { ticket < 2 ^ 64 - 1 }
    ensures same { IsSame seat.old seat.new }
    ensures served { seat.new.me ≡ (knowing (in_hand (items_of M.history M.stopped) seat.old.me.1) seat.old.me.0, []) }
{
    let _ = process;
    board.store::<Serve>(seat, SERVED, ticket + 1);
    if board.peek(NEXT) > ticket + 1 {
        board.wake_all(SERVED);
    }
}
