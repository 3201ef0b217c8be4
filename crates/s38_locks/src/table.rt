ghost use Rattle.std.specs.Prelude.{◌≡◌, ◌==◌, [], length, None, Some, IfErr, IfOk, IfSome, OnOk, OnErr};
ghost use Rattle.std.specs.Option.{unwrap_or};
ghost use Rattle.s38_locks.specs.Locks.{IsLeast, IsOrderly, blocker, hinders, hindrance, is_blocker, with_lock, without_lock};
ghost use Rattle.s38_locks.specs.Refusals.{lock_refusal, transfer_refusal, unlock_refusal};
ghost use Rattle.s38_locks.specs.Table.{locks_of, released, with_locks};

use crate::fault::LockFault;
use crate::held::Held;
use crate::locks::blocker;
use crate::{map, refusals};
use s38_base::{Category, LockState, NoMemory, ObjNum};
use std::alloc::Global;
use std::collections::BTreeMap;
use std::marker::Model;

/// The locks of all objects. Contracts see it as the objects that have locks, in rising order of number, each
/// with its locks in order of process and state.
#[derive(Drop)]
pub struct LockTable {
    alloc: Global,
    objects: BTreeMap<u64, Held>,
}

impl Model for LockTable {
    ghost use Rattle.s38_locks.specs.Table.{Table};

    ghost Value = { Table };

    ghost view = { λ t. t.objects.entries };
}

impl LockTable {
    /// A table without locks; it takes no memory until it grows.
    pub fn new(alloc: Global) -> LockTable
        ensures { result ≡ [] }
    {
        LockTable {
            alloc,
            objects: BTreeMap::new(alloc),
        }
    }

    /// Whether nothing is locked.
    pub fn is_empty(&self) -> bool
        ensures { result ≡ (length self.now == 0) }
    {
        self.objects.is_empty()
    }

    /// Whether a process would be granted a lock: what `lock` answers, want of memory aside.
    pub fn can_lock(&self, object: ObjNum, process: u32, state: LockState) -> Result<(), LockFault>
        ensures ok { OnOk result (lock_refusal process state (locks_of self.now object.0) ≡ None) }
        ensures fault { IfErr result (λ fault. lock_refusal process state (locks_of self.now object.0) ≡ Some fault) }
        ensures least { IfSome (hindrance process state (locks_of self.now object.0)) (λ lock. IsLeast (hinders process state) lock (locks_of self.now object.0)) }
    {
        let locks = map::locks_of(&self.objects, object.0);
        match refusals::lock_refusal(locks, process, state) {
            Some(fault) => Err(fault),
            None => Ok(()),
        }
    }

    /// Grants a process a lock. It is refused where a lock of another process is incompatible, then where the
    /// object has 4,096 locks; an error leaves the table as it was.
    pub fn lock(&mut self, object: ObjNum, process: u32, state: LockState) -> Result<(), LockFault>
        ensures granted { OnOk result (lock_refusal process state (locks_of self.old object.0) ≡ None) }
        ensures ok { OnOk result (self.new ≡ with_locks self.old object.0 (with_lock (process, state) (locks_of self.old object.0))) }
        ensures fault { IfErr result (λ fault. fault ≡ unwrap_or (lock_refusal process state (locks_of self.old object.0)) LockFault.NoMemory) }
        ensures err { OnErr result (self.new ≡ self.old) }
    {
        self.can_lock(object, process, state)?;
        match map::add(&mut self.objects, self.alloc, object.0, (process, state)) {
            Ok(()) => Ok(()),
            Err(_) => Err(LockFault::NoMemory),
        }
    }

    /// Whether a process holds such a lock: what `unlock` answers.
    pub fn can_unlock(
        &self,
        object: ObjNum,
        process: u32,
        state: LockState,
    ) -> Result<(), LockFault>
        ensures ok { OnOk result (unlock_refusal process state (locks_of self.now object.0) ≡ None) }
        ensures fault { IfErr result (λ fault. unlock_refusal process state (locks_of self.now object.0) ≡ Some fault) }
    {
        match refusals::unlock_refusal(map::locks_of(&self.objects, object.0), process, state) {
            Some(fault) => Err(fault),
            None => Ok(()),
        }
    }

    /// Takes one lock from a process, without memory; an error leaves the table as it was.
    pub fn unlock(
        &mut self,
        object: ObjNum,
        process: u32,
        state: LockState,
    ) -> Result<(), LockFault>
        ensures held { OnOk result (unlock_refusal process state (locks_of self.old object.0) ≡ None) }
        ensures ok { OnOk result (self.new ≡ with_locks self.old object.0 (without_lock (process, state) (locks_of self.old object.0))) }
        ensures fault { IfErr result (λ fault. unlock_refusal process state (locks_of self.old object.0) ≡ Some fault) }
        ensures err { OnErr result (self.new ≡ self.old) }
    {
        self.can_unlock(object, process, state)?;
        map::remove(&mut self.objects, object.0, (process, state));
        Ok(())
    }

    /// Whether a process may hand a lock on: what `transfer` answers.
    pub fn can_transfer(
        &self,
        object: ObjNum,
        from: u32,
        to: u32,
        state: LockState,
    ) -> Result<(), LockFault>
        ensures ok { OnOk result (transfer_refusal from to state (locks_of self.now object.0) ≡ None) }
        ensures fault { IfErr result (λ fault. transfer_refusal from to state (locks_of self.now object.0) ≡ Some fault) }
        ensures least { IfSome (hindrance to state (without_lock (from, state) (locks_of self.now object.0)))
            (λ lock. IsLeast (hinders to state) lock (without_lock (from, state) (locks_of self.now object.0))) }
    {
        let locks = map::locks_of(&self.objects, object.0);
        match refusals::transfer_refusal(locks, from, to, state) {
            Some(fault) => Err(fault),
            None => Ok(()),
        }
    }

    /// Hands a lock of one process on to another, without memory; an error leaves the table as it was.
    pub fn transfer(
        &mut self,
        object: ObjNum,
        from: u32,
        to: u32,
        state: LockState,
    ) -> Result<(), LockFault>
        ensures granted { OnOk result (transfer_refusal from to state (locks_of self.old object.0) ≡ None) }
        ensures ok { OnOk result (self.new
            ≡ with_locks self.old object.0 (with_lock (to, state) (without_lock (from, state) (locks_of self.old object.0)))) }
        ensures fault { IfErr result (λ fault. transfer_refusal from to state (locks_of self.old object.0) ≡ Some fault) }
        ensures err { OnErr result (self.new ≡ self.old) }
    {
        self.can_transfer(object, from, to, state)?;
        map::exchange(&mut self.objects, object.0, (from, state), (to, state));
        Ok(())
    }

    /// Takes all locks from a process.
    pub fn release_all(&mut self, process: u32)
        ensures { self.new ≡ released process self.old }
    {
        map::release(&mut self.objects, process);
    }

    /// The least process, and its state, that keeps another process from such a use of an object.
    pub fn blocked_by(
        &self,
        object: ObjNum,
        process: u32,
        category: Category,
    ) -> Option<(u32, LockState)>
        ensures lock { result ≡ blocker process category (locks_of self.now object.0) }
        ensures least { IfSome result (λ lock. IsLeast (is_blocker process category) lock (locks_of self.now object.0)) }
    {
        let locks = map::locks_of(&self.objects, object.0);
        blocker(locks, process, category).copied()
    }

    /// Who holds which locks of an object, in order of process and state, each as often as it is held.
    /// `NoMemory` where memory was refused.
    pub fn holders(&self, object: ObjNum) -> Result<Vec<(u32, LockState)>, NoMemory>
        ensures locks { IfOk result (λ holders. holders.items ≡ locks_of self.now object.0) }
        ensures orderly { IsOrderly (locks_of self.now object.0) }
    {
        let locks = map::locks_of(&self.objects, object.0);
        match Vec::from_slice(self.alloc, locks) {
            Ok(holders) => Ok(holders),
            Err(_) => Err(NoMemory),
        }
    }
}
