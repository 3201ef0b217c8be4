ghost use Rattle.std.specs.Prelude.{◌≡◌, ◌++◌, ◌∷◌, [], ℕ, List, IfErr, IfOk, IfSome, None, Some, true};
ghost use Rattle.s38_turn.specs.Calls.{Called, Ended, IsIdle, IsLike, IsOneFull, IsSized, IsTold};
ghost use Rattle.s38_turn.specs.Items.{Begins, entries_in, items, items_by, items_of};
ghost use Rattle.s38_turn.specs.Lists.{HasAll, empty_lists, has, list_of};
ghost use Rattle.s38_turn.specs.Seats.{IsSeatOf, gathered, only_process, without_process};
ghost use Rattle.s38_turn.specs.declared.item.Item.{Item};

use crate::acting::act;
use crate::listener::Listener;
use crate::parting::{part, unite};
use crate::rule::{Begun, OneHistory};
use crate::seat::Seat;
use crate::tickets::{TableSeat, draw, enter, serve};
use crate::view::View;
use atomic_table::Table;
use s38_base::NoMemory;
use s38_code::{Event, StepFault, Stepper};
use std::alloc::Global;
use std::marker::{Brand, Model};
use std::snapshot::Snapshot;
use std::sync::Wait;

/// The words and the slot of a turn, with their memory.
type TurnTable<M> = Table<Option<M>, View<M>, Begun<M>, OneHistory, Global>;

/// A machine that threads share. Contracts see which turn it is, the machine that it was made with, and how many processes
/// it has.
#[derive(Drop)]
pub struct Turn<M: Stepper> {
    table: TurnTable<M>,
}

impl<M: Stepper> Model for Turn<M> {
    ghost use Rattle.s38_turn.specs.Calls.{IsSized};
    ghost use Rattle.s38_turn.specs.Seats.{TurnView};

    ghost Value = { TurnView M };

    ghost view = { λ t. record { table = t.table.shared.table_id; machine = t.table.shared.key.machine.value; processes = t.table.shared.key.processes } };

    ghost invariant = { λ t. IsSized t.table.shared.table_id };
}

/// The one slot of a table. Where memory is refused, the machine comes back.
fn slot_of<M: Drop>(alloc: Global, machine: M) -> Result<Vec<Option<M>>, (M, NoMemory)>
    ensures ok { IfOk result (λ slots. slots.items ≡ Some machine ∷ []) }
    ensures back { IfErr result (λ refused. refused.0 ≡ machine) }
{
    match Vec::with_capacity(alloc, 1) {
        Err(_) => Err((machine, NoMemory)),
        Ok(mut slots) => {
            slots.push_reserved(Some(machine));
            Ok(slots)
        }
    }
}

/// The machine of the one slot that no table took.
fn left_in<M: Drop>(slots: Vec<Option<M>>) -> M
    requires { IsOneFull slots.items }
    ensures { slots.items ≡ Some result ∷ [] }
{
    let mut slots = slots;
    match slots.pop() {
        Some(Some(machine)) => machine,
        _ => unreachable!(),
    }
}

/// The machine of a table that no thread shares any more.
fn taken_back<M: Stepper + Drop>(table: TurnTable<M>, seat: TableSeat<M>) -> M
    requires sized { IsSized table.shared.table_id }
    requires idle { IsIdle table.shared.table_id table.shared.key.machine.value seat }
    requires all { HasAll table.shared.key.processes seat.me.0.lists }
    ensures { Ended (IsLike M.is_sound M.origin table.shared.key.machine.value) (items_of M.history M.stopped) seat.me.0.seen seat.me.0.lists result }
{
    let mut closed = table.close_with(seat);
    let slot = closed.take(0);
    closed.free();
    match slot {
        Some(machine) => machine,
        None => unreachable!(),
    }
}

impl<M: Stepper + Drop> Turn<M> {
    /// Shares a machine that has no history yet. The seat has the processes from 1 on, each with an empty list. Where memory
    /// is refused, the machine comes back.
    pub fn new(
        alloc: Global,
        machine: M,
        processes: u32,
    ) -> Result<(Turn<M>, Seat<M>), (M, NoMemory)>
        requires sound { M.is_sound machine }
        requires empty { M.history machine ≡ [] }
        requires going { M.stopped machine ≡ None }
        ensures machine { IfOk result (λ t. t.0.machine ≡ machine) }
        ensures processes { IfOk result (λ t. t.0.processes ≡ processes) }
        ensures seat { IfOk result (λ t. IsSeatOf t.0 t.1) }
        ensures seen { IfOk result (λ t. t.1.seen ≡ []) }
        ensures lists { IfOk result (λ t. t.1.lists ≡ empty_lists processes) }
        ensures back { IfErr result (λ refused. refused.0 ≡ machine) }
    {
        let about = Begun {
            machine: Snapshot::of(&machine),
            processes,
        };
        match slot_of(alloc, machine) {
            Err(refused) => Err(refused),
            Ok(slots) => match Table::new(alloc, &[0, 0], slots, &about) {
                Ok((table, inner)) => Ok((Turn { table }, Seat { inner })),
                Err(refused) => Err((left_in(refused.slots), NoMemory)),
            },
        }
    }

    /// Waits for the process's turn, and has the machine answer the event. The listener hears the reply while the turn
    /// lasts. The seat's list of the process grows by the entry of the answer, or by the call that is stopped first, and the
    /// seat has then seen the whole history.
    ///
    /// # Errors
    /// Those of the machine's step.
    pub fn call<R: Wait, L: Listener>(
        &self,
        rt: &R,
        seat: &mut Seat<M>,
        process: u32,
        event: Event,
        listener: &mut L,
    ) -> Result<(), StepFault>
        requires seat { IsSeatOf self.now seat.old }
        requires has { has process seat.old.lists ≡ true }
        requires may { M.may_ask (M.origin self.now.machine) process event (entries_in (list_of process seat.old.lists)) }
        ensures seat { IsSeatOf self.now seat.new }
        ensures processes { (p : ℕ) → has p seat.new.lists ≡ has p seat.old.lists }
        ensures called { Called M.is_sound M.origin (items_of M.history M.stopped) M.steps self.now.machine process event (IsTold L.hears listener.old result listener.new) seat.old seat.new }
    {
        let board = &self.table.shared;
        let inner = &mut seat.inner;
        let ticket = draw(rt, board, inner, process);
        enter(rt, board, inner, ticket);
        let result = act(board, inner, process, event, listener);
        serve(board, inner, process, ticket);
        result
    }

    /// Takes a process out of a seat. Its new seat has its list, and has seen as much.
    pub fn split(&self, seat: &mut Seat<M>, process: u32) -> Seat<M>
        requires seat { IsSeatOf self.now seat.old }
        requires has { has process seat.old.lists ≡ true }
        ensures left { seat.new ≡ without_process process seat.old }
        ensures new { result ≡ only_process process seat.old }
    {
        let inner = part::<M, Brand>(&self.table.shared, &mut seat.inner, process);
        Seat { inner }
    }

    /// Unites the processes of two seats with their lists, and keeps the longer of the histories seen.
    pub fn gather(&self, seat: &mut Seat<M>, other: Seat<M>)
        requires seat { IsSeatOf self.now seat.old }
        requires other { IsSeatOf self.now other }
        ensures { seat.new ≡ gathered seat.old other }
    {
        unite(&self.table.shared, &mut seat.inner, other.inner);
    }

    /// Gives back the machine, by a seat that has all processes.
    pub fn close(self, seat: Seat<M>) -> M
        requires seat { IsSeatOf self seat }
        requires all { HasAll self.processes seat.lists }
        ensures sound { M.is_sound result }
        ensures origin { M.origin result ≡ M.origin self.machine }
        ensures seen { Begins seat.seen (items (M.history result) (M.stopped result)) }
        ensures lists { (p : ℕ) → items_by p (items (M.history result) (M.stopped result)) ≡ list_of p seat.lists }
        ensures stopped { IfSome (M.stopped result) (λ s. (before : List Item) × (list_of s.0 seat.lists ≡ before ++ Item.Stopped s.0 s.1 ∷ [])) }
    {
        taken_back(self.table, seat.inner)
    }
}
