ghost use Rattle.std.specs.Prelude.{◌≡◌, [], None, OnOk, OnErr, IsTrue};
ghost use Rattle.s38_locks.specs.Locks.{IsOrderly, hindrance, is_held, with_lock, without_lock};
ghost use Rattle.s38_locks.specs.Table.{locks_of, released, with_locks};

use crate::held::Held;
use crate::locks::Lock;
use s38_base::NoMemory;
use std::alloc::Global;
use std::collections::BTreeMap;

/// The locks of an object.
pub fn locks_of(objects: &BTreeMap<u64, Held>, object: u64) -> &[Lock]
    ensures locks { result.now ≡ locks_of objects.now.entries object }
    ensures orderly { IsOrderly result.now }
{
    match objects.get(&object) {
        Some(held) => held.as_slice(),
        None => &[],
    }
}

/// Adds the first lock of an object.
fn add_first(
    objects: &mut BTreeMap<u64, Held>,
    alloc: Global,
    object: u64,
    lock: Lock,
) -> Result<(), NoMemory>
    ensures ok { OnOk result (objects.new.entries ≡ with_locks objects.old.entries object (with_lock lock [])) }
    ensures err { OnErr result (objects.new.entries ≡ objects.old.entries) }
{
    let mut held = Held::new(alloc);
    match held.add(lock) {
        Ok(()) => {}
        Err(e) => return Err(e),
    }
    match objects.insert(object, held) {
        Ok(_) => Ok(()),
        Err(_) => Err(NoMemory),
    }
}

/// Adds a lock of an object; an error leaves all locks as they were.
pub fn add(
    objects: &mut BTreeMap<u64, Held>,
    alloc: Global,
    object: u64,
    lock: Lock,
) -> Result<(), NoMemory>
    requires { hindrance lock.0 lock.1 (locks_of objects.old.entries object) ≡ None }
    ensures ok { OnOk result (objects.new.entries
        ≡ with_locks objects.old.entries object (with_lock lock (locks_of objects.old.entries object))) }
    ensures err { OnErr result (objects.new.entries ≡ objects.old.entries) }
{
    match objects.get_mut(&object) {
        Some(held) => held.add(lock),
        None => add_first(objects, alloc, object, lock),
    }
}

/// Takes a lock of an object out.
pub fn remove(objects: &mut BTreeMap<u64, Held>, object: u64, lock: Lock)
    requires { IsTrue (is_held lock (locks_of objects.old.entries object)) }
    ensures { objects.new.entries
        ≡ with_locks objects.old.entries object (without_lock lock (locks_of objects.old.entries object)) }
{
    if let Some(held) = objects.get_mut(&object) {
        held.remove(lock);
        if held.is_locked() {
            return;
        }
        objects.remove(&object);
    }
}

/// Puts one lock of an object in the place of another, without memory.
pub fn exchange(objects: &mut BTreeMap<u64, Held>, object: u64, from: Lock, to: Lock)
    requires held { IsTrue (is_held from (locks_of objects.old.entries object)) }
    requires free { hindrance to.0 to.1 (without_lock from (locks_of objects.old.entries object)) ≡ None }
    ensures { objects.new.entries
        ≡ with_locks objects.old.entries object (with_lock to (without_lock from (locks_of objects.old.entries object))) }
{
    if let Some(held) = objects.get_mut(&object) {
        held.exchange(from, to);
    }
}

/// Takes the locks of a process out.
pub fn release(objects: &mut BTreeMap<u64, Held>, process: u32)
    ensures { objects.new.entries ≡ released process objects.old.entries }
{
    objects.retain(|_, held| {
        held.release(process);
        held.is_locked()
    });
}
