ghost use Rattle.std.specs.Prelude.{◌≡◌, ◌<◌, length};
ghost use Rattle.std.specs.List.{remove};
ghost use Rattle.std.specs.Option.{option_copied};
ghost use Rattle.s38_locks.specs.Locks.{IsInOrder, hindrance};
ghost use Rattle.s38_locks.specs.Refusals.{lock_refusal, transfer_refusal, unlock_refusal};

use crate::fault::LockFault;
use crate::locks::{Lock, hindrance, place_of};
use s38_base::LockState;
use s38_base::limits::MOST_ROWS;

/// Why a process is not granted a lock.
pub fn lock_refusal(locks: &[Lock], process: u32, state: LockState) -> Option<LockFault>
    requires { IsInOrder locks.now }
    ensures { result ≡ lock_refusal process state locks.now }
{
    match hindrance(locks, process, state) {
        Some(&(holder, state)) => Some(LockFault::NotGrantable { holder, state }),
        None if locks.len() >= MOST_ROWS => Some(LockFault::Limit),
        None => None,
    }
}

/// Why a process can't give a lock up.
pub fn unlock_refusal(locks: &[Lock], process: u32, state: LockState) -> Option<LockFault>
    requires { IsInOrder locks.now }
    ensures { result ≡ unlock_refusal process state locks.now }
{
    match place_of(locks, (process, state)) {
        Some(_) => None,
        None => Some(LockFault::NotHeld),
    }
}

/// The least lock, but for the one at a place, that is in the way.
fn hindrance_beside(locks: &[Lock], at: usize, process: u32, state: LockState) -> Option<&Lock>
    requires place { at < length locks.now }
    requires order { IsInOrder locks.now }
    ensures { option_copied result ≡ hindrance process state (remove locks.now at) }
{
    match hindrance(&locks[..at], process, state) {
        Some(lock) => Some(lock),
        None => hindrance(&locks[at + 1..], process, state),
    }
}

/// Why a process can't hand a lock on to another.
pub fn transfer_refusal(locks: &[Lock], from: u32, to: u32, state: LockState) -> Option<LockFault>
    requires { IsInOrder locks.now }
    ensures { result ≡ transfer_refusal from to state locks.now }
{
    let Some(at) = place_of(locks, (from, state)) else {
        return Some(LockFault::NotHeld);
    };
    match hindrance_beside(locks, at, to, state) {
        Some(&(holder, state)) => Some(LockFault::NotGrantable { holder, state }),
        None => None,
    }
}
