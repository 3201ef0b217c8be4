use crate::tickets::TableSeat;
use std::marker::Model;

/// The right to call for some processes. Contracts see of which turn it is, what it has seen of the history, and the list of
/// each of its processes.
#[derive(Drop)]
pub struct Seat<M> {
    pub(crate) inner: TableSeat<M>,
}

impl<M> Model for Seat<M> {
    ghost use Rattle.std.specs.Prelude.{◌≡◌, []};
    ghost use Rattle.s38_turn.specs.Seats.{SeatView, seat_view};
    ghost use Rattle.s38_turn.specs.declared.view.Place.TheVariants.{Idle};

    ghost Value = { SeatView M };

    ghost view = { λ s. seat_view s.inner };

    ghost invariant = { λ s. (s.inner.me.0.place ≡ Idle) × (s.inner.me.1 ≡ []) };
}
