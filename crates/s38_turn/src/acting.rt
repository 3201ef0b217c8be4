//! The step of the machine, while the turn lasts.
ghost use Rattle.std.specs.Prelude.{◌≡◌, [], ◌∷◌, IfSome, Some, is_some, true};
ghost use Rattle.s38_code.specs.Asking.{reply_by};
ghost use Rattle.s38_code.specs.History.{entries_of};
ghost use Rattle.s38_turn.specs.Calls.{Acted, IsTold, Stepped};
ghost use Rattle.s38_turn.specs.Items.{items_of};

use crate::listener::Listener;
use crate::tickets::{Board, TableSeat};
use s38_code::{Asked, Event, Reply, StepFault, Stepper};

/// Tells the reply to what was asked last.
fn tell<M: Stepper, L: Listener>(machine: &M, asked: Asked, listener: &mut L)
    requires { is_some (reply_by asked (M.history machine.now)) ≡ true }
    ensures { IfSome (reply_by asked (M.history machine.now)) (λ reply. L.hears listener.old reply listener.new) }
{
    match asked {
        Asked::WaitsStill => listener.hear(&Reply::MustWait),
        Asked::Entered => match machine.last_reply() {
            None => unreachable!(),
            Some(reply) => listener.hear(reply),
        },
    }
}

/// The machine takes a step, and its reply is told.
fn ask<M: Stepper, L: Listener>(
    machine: &mut M,
    process: u32,
    event: Event,
    listener: &mut L,
) -> Result<(), StepFault>
    requires sound { M.is_sound machine.old }
    requires may { M.may_ask (M.origin machine.old) process event (entries_of process (M.history machine.old)) }
    ensures { Stepped M.is_sound M.origin (items_of M.history M.stopped) M.steps process event (IsTold L.hears listener.old result listener.new) machine.old machine.new }
{
    match machine.ask(process, event) {
        Err(fault) => Err(fault),
        Ok(asked) => {
            tell(machine, asked, listener);
            Ok(())
        }
    }
}

/// The machine in hand takes a step, and its reply is told.
pub(crate) fn act<M: Stepper + Drop, L: Listener>(
    board: &Board<M>,
    seat: &mut TableSeat<M>,
    process: u32,
    event: Event,
    listener: &mut L,
) -> Result<(), StepFault>
    requires table { seat.old.table_id ≡ board.now.table_id }
    requires machine { (m : M) × (seat.old.me.1 ≡ (0, Some m) ∷ []) × M.is_sound m × M.may_ask (M.origin m) process event (entries_of process (M.history m)) }
    ensures { Acted M.is_sound M.origin (items_of M.history M.stopped) M.steps process event (IsTold L.hears listener.old result listener.new) seat.old seat.new }
{
    match seat.slot_mut(board, 0) {
        None => unreachable!(),
        Some(machine) => ask(machine, process, event, listener),
    }
}
