ghost use Rattle.std.specs.Prelude.{◌≡◌, ◌∷◌, [], length, IfNone, IfSome, OnErr, OnOk};

use crate::fault::NoMemory;
use std::alloc::Global;
use std::marker::Model;

/// Values of which the newest is taken first. Contracts see it as their list, the newest first.
#[derive(Drop, Debug)]
pub struct Pile<T> {
    items: Vec<T>,
}

impl<T> Model for Pile<T> {
    ghost use Rattle.std.specs.Prelude.{List, reverse};

    ghost Value = { List T };

    ghost view = { λ p. reverse p.items.items };
}

impl<T> Pile<T> {
    /// The empty pile; it takes no memory until it grows.
    pub fn new(alloc: Global) -> Self
        ensures { result ≡ [] }
    {
        Pile {
            items: Vec::new(alloc),
        }
    }

    /// How many values there are.
    pub fn len(&self) -> usize
        ensures { result ≡ length self.now }
    {
        self.items.len()
    }

    /// Takes the newest value; None where there is none.
    pub fn pop(&mut self) -> Option<T>
        ensures some { IfSome result (λ newest. self.old ≡ newest ∷ self.new) }
        ensures none { IfNone result (self.old ≡ []) }
        ensures empty { IfNone result (self.new ≡ []) }
    {
        self.items.pop()
    }
}

impl<T: Drop> Pile<T> {
    /// Adds a value, which is then the newest; an error leaves the pile as it was.
    pub fn push(&mut self, newest: T) -> Result<(), NoMemory>
        ensures ok { OnOk result (self.new ≡ newest ∷ self.old) }
        ensures err { OnErr result (self.new ≡ self.old) }
    {
        match self.items.push(newest) {
            Ok(()) => Ok(()),
            Err(_) => Err(NoMemory),
        }
    }
}
