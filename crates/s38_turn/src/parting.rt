//! Seats that part, and seats that become one.
ghost use Rattle.std.specs.Prelude.{◌≡◌, [], true};
ghost use Rattle.s38_turn.specs.Calls.{IsIdle, IsSame, IsSized};
ghost use Rattle.s38_turn.specs.Lists.{has};
ghost use Rattle.s38_turn.specs.Plays.{left_with, parted, united};

use crate::rule::{Chosen, Part, Unite};
use crate::tickets::{Board, TableSeat};
use s38_code::Stepper;

/// Takes a process out of a seat.
pub(crate) fn part<M: Stepper, J: Chosen>(
    board: &Board<M>,
    seat: &mut TableSeat<M>,
    process: u32,
) -> TableSeat<M>
    requires chosen { process ≡ J.process }
    requires sized { IsSized board.now.table_id }
    requires idle { IsIdle board.now.table_id board.now.key.machine.value seat.old }
    requires has { has process seat.old.me.0.lists ≡ true }
    ensures same { IsSame seat.old seat.new }
    ensures left { seat.new.me ≡ (left_with process seat.old.me.0, seat.old.me.1) }
    ensures table { result.table_id ≡ seat.old.table_id }
    ensures right { result.me ≡ (parted process seat.old.me.0, []) }
{
    let _ = process;
    board.split_seat::<Part<J>>(seat)
}

/// Takes in another seat.
pub(crate) fn unite<M: Stepper>(board: &Board<M>, seat: &mut TableSeat<M>, other: TableSeat<M>)
    requires sized { IsSized board.now.table_id }
    requires idle { IsIdle board.now.table_id board.now.key.machine.value seat.old }
    requires other { IsIdle board.now.table_id board.now.key.machine.value other }
    ensures same { IsSame seat.old seat.new }
    ensures united { seat.new.me ≡ (united seat.old.me.0 other.me.0, seat.old.me.1) }
{
    board.join_seat::<Unite>(seat, other);
}
