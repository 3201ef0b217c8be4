ghost use Rattle.std.specs.Prelude.{◌≡◌, ◌<◌, ◌≤◌, OnOk, OnErr, IsOk, IsTrue, length, not, position, slice_get, take};
ghost use Rattle.std.specs.List.{position_or_len};
ghost use Rattle.std.specs.Option.{option_copied};
ghost use Rattle.std.specs.Vec.{vec_capacity, vec_len};
ghost use Rattle.s38_locks.specs.Locks.{IsInOrder, IsOrderly, blocker, comes_later, hinders, hindrance, is_at, is_blocker, is_held, is_same, later_than, lock_place, with_lock, without_lock, without_process};

use crate::states::{are_compatible, blocks, rank};
use s38_base::{Category, LockState, NoMemory};

/// A lock of an object: the process that holds it, and its state.
pub type Lock = (u32, LockState);

fn place(lock: Lock) -> u64
    ensures { result ≡ lock_place lock }
{
    5 * lock.0 as u64 + rank(lock.1) as u64
}

fn hinders(lock: Lock, process: u32, state: LockState) -> bool
    ensures { result ≡ hinders process state lock }
{
    lock.0 != process && !are_compatible(lock.1, state)
}

fn is_blocker(lock: Lock, process: u32, category: Category) -> bool
    ensures { result ≡ is_blocker process category lock }
{
    lock.0 != process && blocks(lock.1, category)
}

/// The place of the first lock that comes later than one, or how many locks there are.
fn first_later(locks: &[Lock], lock: Lock) -> usize
    requires { IsInOrder locks.now }
    ensures value { result ≡ position_or_len (comes_later lock) locks.now }
    ensures bound { result ≤ length locks.now }
{
    let at = place(lock);
    locks.partition_point(|other| place(*other) <= at)
}

/// How many locks from the front on are enough to find the first later one. The number is doubled until they are, so
/// that a short run is passed over in few steps.
fn enough(locks: &[Lock], lock: Lock) -> usize
    ensures bound { result ≤ length locks.now }
    ensures found { position_or_len (comes_later lock) (take result locks.now) ≡ position_or_len (comes_later lock) locks.now }
{
    let at = place(lock);
    let mut end = 1;
    while let Some(other) = locks.get(end) {
        if at < place(*other) {
            return end;
        }
        end += end;
    }
    locks.len()
}

/// The locks that come later than one.
fn later_than(locks: &[Lock], lock: Lock) -> &[Lock]
    requires { IsInOrder locks.now }
    ensures { result.now ≡ later_than lock locks.now }
{
    let front = &locks[..enough(locks, lock)];
    &locks[first_later(front, lock)..]
}

/// The least lock that is in the way of a state that a process asks for. Of equal locks it looks at one.
pub fn hindrance(locks: &[Lock], process: u32, state: LockState) -> Option<&Lock>
    requires { IsInOrder locks.now }
    ensures { option_copied result ≡ hindrance process state locks.now }
{
    let mut rest = locks;
    while let Some(lock) = rest.first() {
        if hinders(*lock, process, state) {
            return Some(lock);
        }
        rest = later_than(rest, *lock);
    }
    None
}

/// The least lock of another process that blocks such a use. Of equal locks it looks at one.
pub fn blocker(locks: &[Lock], process: u32, category: Category) -> Option<&Lock>
    requires { IsInOrder locks.now }
    ensures { option_copied result ≡ blocker process category locks.now }
{
    let mut rest = locks;
    while let Some(lock) = rest.first() {
        if is_blocker(*lock, process, category) {
            return Some(lock);
        }
        rest = later_than(rest, *lock);
    }
    None
}

/// The place of the first lock that does not come before one, or how many locks there are.
fn first_not_before(locks: &[Lock], lock: Lock) -> usize
    requires { IsInOrder locks.now }
    ensures value { result ≡ position_or_len (λ other. not (comes_later other lock)) locks.now }
    ensures bound { result ≤ length locks.now }
{
    let at = place(lock);
    locks.partition_point(|other| place(*other) < at)
}

/// Whether such a lock is there.
fn is_at(locks: &[Lock], at: usize, lock: Lock) -> bool
    ensures { result ≡ is_at lock (slice_get locks.now at) }
{
    match locks.get(at) {
        Some(other) => place(*other) == place(lock),
        None => false,
    }
}

/// Where the first such lock is.
pub fn place_of(locks: &[Lock], lock: Lock) -> Option<usize>
    requires { IsInOrder locks.now }
    ensures { result ≡ position (is_same lock) locks.now }
{
    let at = first_not_before(locks, lock);
    if is_at(locks, at, lock) {
        Some(at)
    } else {
        None
    }
}

/// Adds a lock in its place. It takes no memory where there is room.
pub fn add(locks: &mut Vec<Lock>, lock: Lock) -> Result<(), NoMemory>
    requires { IsInOrder locks.old.items }
    ensures ok { OnOk result (locks.new.items ≡ with_lock lock locks.old.items) }
    ensures err { OnErr result (locks.new.items ≡ locks.old.items) }
    ensures room { vec_len locks.old < vec_capacity locks.old → IsOk result }
{
    let at = first_later(locks, lock);
    match locks.insert(at, lock) {
        Ok(()) => Ok(()),
        Err(_) => Err(NoMemory),
    }
}

/// Takes one such lock out, which leaves room for another.
pub fn remove(locks: &mut Vec<Lock>, lock: Lock)
    requires order { IsInOrder locks.old.items }
    requires held { IsTrue (is_held lock locks.old.items) }
    ensures items { locks.new.items ≡ without_lock lock locks.old.items }
    ensures room { vec_len locks.new < vec_capacity locks.new }
{
    if let Some(at) = place_of(locks, lock) {
        locks.remove(at);
    }
}

/// Puts one lock in the place of another, without memory.
pub fn exchange(locks: &mut Vec<Lock>, from: Lock, to: Lock)
    requires order { IsOrderly locks.old.items }
    requires held { IsTrue (is_held from locks.old.items) }
    ensures { locks.new.items ≡ with_lock to (without_lock from locks.old.items) }
{
    remove(locks, from);
    add(locks, to).unwrap();
}

/// Takes the locks of a process out.
pub fn release(locks: &mut Vec<Lock>, process: u32)
    ensures { locks.new.items ≡ without_process process locks.old.items }
{
    locks.retain(|lock| lock.0 != process);
}
