//! The rule of the table, and what its steps tell.
ghost use Rattle.std.specs.Prelude.{ℕ};
ghost use Rattle.s38_turn.specs.Calls.{IsLike};
ghost use Rattle.s38_turn.specs.Items.{items_of};
ghost use Rattle.s38_turn.specs.Plays.{Drew, Looked, Served, first_view, left_with, parted, spent, united};
ghost use Rattle.s38_turn.specs.Rule.{IsKept};

use crate::view::View;
use atomic_table::{Join, Play, Split, TableRule};
use s38_code::Stepper;
use std::marker::{Brand, PhantomData};
use std::snapshot::Snapshot;

/// What a turn was made with.
#[derive(Drop)]
pub struct Begun<M> {
    pub machine: Snapshot<M>,
    pub processes: u32,
}

/// One history, and tickets that are served in order.
pub struct OneHistory;

impl<M: Stepper> TableRule<Option<M>, View<M>, Begun<M>> for OneHistory {
    ghost holds = { λ key. IsKept key.machine.value key.processes (IsLike M.is_sound M.origin key.machine.value) (items_of M.history M.stopped) };

    ghost first = { λ key. first_view key.machine.value key.processes };
}

/// A ticket is drawn.
pub(crate) struct Draw;

impl<M> Play<Option<M>, View<M>> for Draw {
    ghost then = { Drew };
}

/// A seat looks at the ticket that is served, and takes the turn where it is its own.
pub(crate) struct Look;

impl<M: Stepper> Play<Option<M>, View<M>> for Look {
    ghost then = { Looked (IsLike M.is_sound M.origin) (items_of M.history M.stopped) };
}

/// The turn is given on.
pub(crate) struct Serve;

impl<M: Stepper> Play<Option<M>, View<M>> for Serve {
    ghost then = { Served (items_of M.history M.stopped) };
}

/// The process that a split takes out. Each call picks it.
pub trait Chosen {
    ghost process: { ℕ };
}

impl Chosen for Brand {
    ghost process = { 0 };
}

/// A process gets a seat of its own.
pub(crate) struct Part<J> {
    of: PhantomData<J>,
}

impl<M, J: Chosen> Split<View<M>> for Part<J> {
    ghost left = { left_with J.process };

    ghost right = { parted J.process };
}

/// Two seats become one.
pub(crate) struct Unite;

impl<M> Join<View<M>> for Unite {
    ghost both = { united };

    ghost spent = { spent };
}
