//! What of a step must persist.
ghost use Rattle.std.specs.Prelude.{◌≡◌, ◌≤◌, ◌==◌, [], ◌∷◌, length};
ghost use Rattle.s38_space_map.specs.Forcings.{all_forced, forced_as};

use s38_base::ObjNum;
use std::marker::Model;

/// One thing that must persist.
#[derive(Clone, Copy, PartialEq, Eq, Debug)]
pub enum Forcing {
    /// The ceiling, up to which numbers may be given.
    Ceiling,
    /// Of an object what is said beside its body: header and rows; of a profile all.
    Header(ObjNum),
    /// All of an object.
    Whole(ObjNum),
    /// That an object is there no more.
    Removed(ObjNum),
}

/// How many things of a step must persist at most.
const MOST: usize = 2;

/// What of a step must persist, in order: at most two things. Contracts see it as the definitions say it.
#[derive(Drop)]
pub struct Forcings {
    held: [Forcing; MOST],
    count: usize,
}

impl Model for Forcings {
    ghost use Rattle.std.specs.Prelude.{◌≤◌, List, take};
    ghost use Rattle.s38_space_map.specs.Forcings.{all_forced};
    ghost use Rattle.s38_rules.specs.store.Forcing.{Forced};

    ghost Value = { List Forced };

    ghost view = { λ f. all_forced (take f.count f.held) };

    ghost invariant = { λ f. f.count ≤ 2 };
}

impl Forcings {
    /// Nothing.
    pub fn none() -> Forcings
        ensures { result ≡ [] }
    {
        Forcings {
            held: [Forcing::Ceiling; MOST],
            count: 0,
        }
    }

    /// One thing.
    pub fn one(one: Forcing) -> Forcings
        ensures { result ≡ forced_as one ∷ [] }
    {
        Forcings {
            held: [one, Forcing::Ceiling],
            count: 1,
        }
    }

    /// Two things.
    pub fn two(first: Forcing, second: Forcing) -> Forcings
        ensures { result ≡ forced_as first ∷ forced_as second ∷ [] }
    {
        Forcings {
            held: [first, second],
            count: 2,
        }
    }

    /// The things.
    pub fn as_slice(&self) -> &[Forcing]
        ensures value { all_forced result.now ≡ self.now }
        ensures few { length result.now ≤ 2 }
    {
        &self.held[..self.count]
    }

    /// How many things there are: at most two.
    pub fn len(&self) -> usize
        ensures len { result ≡ length self.now }
        ensures few { result ≤ 2 }
    {
        self.as_slice().len()
    }

    /// Whether nothing must persist.
    pub fn is_empty(&self) -> bool
        ensures { result ≡ (length self.now == 0) }
    {
        self.len() == 0
    }
}
