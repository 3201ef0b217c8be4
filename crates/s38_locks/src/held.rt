ghost use Rattle.std.specs.Prelude.{◌≡◌, [], None, OnOk, OnErr, IsTrue};
ghost use Rattle.s38_locks.specs.Locks.{IsOrderly, hindrance, is_held, is_locked, with_lock, without_lock, without_process};

use crate::locks::{self, Lock};
use s38_base::NoMemory;
use std::alloc::Global;
use std::marker::Model;

/// The locks of one object, in order of process and state. No two of different processes are incompatible.
#[derive(Drop)]
pub struct Held {
    locks: Vec<Lock>,
}

impl Model for Held {
    ghost use Rattle.std.specs.Prelude.{List};
    ghost use Rattle.s38_locks.specs.Locks.{IsOrderly, Lock};

    ghost Value = { List Lock };

    ghost view = { λ h. h.locks.items };

    ghost invariant = { λ h. IsOrderly h.locks.items };
}

impl Held {
    /// No locks; it takes no memory until it grows.
    pub fn new(alloc: Global) -> Held
        ensures { result ≡ [] }
    {
        Held {
            locks: Vec::new(alloc),
        }
    }

    /// The locks.
    pub fn as_slice(&self) -> &[Lock]
        ensures locks { result.now ≡ self.now }
        ensures orderly { IsOrderly self.now }
    {
        self.locks.as_slice()
    }

    /// Whether there is a lock.
    pub fn is_locked(&self) -> bool
        ensures { result ≡ is_locked self.now }
    {
        !self.locks.is_empty()
    }

    /// Adds a lock; an error leaves the locks as they were.
    pub fn add(&mut self, lock: Lock) -> Result<(), NoMemory>
        requires { hindrance lock.0 lock.1 self.old ≡ None }
        ensures ok { OnOk result (self.new ≡ with_lock lock self.old) }
        ensures err { OnErr result (self.new ≡ self.old) }
    {
        locks::add(&mut self.locks, lock)
    }

    /// Takes one such lock out.
    pub fn remove(&mut self, lock: Lock)
        requires { IsTrue (is_held lock self.old) }
        ensures { self.new ≡ without_lock lock self.old }
    {
        locks::remove(&mut self.locks, lock);
    }

    /// Puts one lock in the place of another, without memory.
    pub fn exchange(&mut self, from: Lock, to: Lock)
        requires held { IsTrue (is_held from self.old) }
        requires free { hindrance to.0 to.1 (without_lock from self.old) ≡ None }
        ensures { self.new ≡ with_lock to (without_lock from self.old) }
    {
        locks::exchange(&mut self.locks, from, to);
    }

    /// Takes the locks of a process out.
    pub fn release(&mut self, process: u32)
        ensures { self.new ≡ without_process process self.old }
    {
        locks::release(&mut self.locks, process);
    }
}
