ghost use Rattle.std.specs.Prelude.{◌≡◌, ◌++◌, ◌∷◌, [], IfOk, OnOk};
ghost use Rattle.s38_template.specs.Grammar.{has};

use s38_base::{Name, NoMemory, Seq};
use std::alloc::Global;
use std::collections::BTreeSet;
use std::marker::Model;

/// Names that were seen, in order; one is found without a search over all. Contracts see the list.
#[derive(Drop)]
pub struct Seen {
    names: Seq<Name>,
    set: BTreeSet<Name>,
}

impl Model for Seen {
    ghost use Rattle.std.specs.Prelude.{List, ℕ};
    ghost use Rattle.s38_template.specs.Known.{IsKnown};

    ghost Value = { List (List ℕ) };

    ghost view = { λ s. s.names };

    ghost invariant = { λ s. IsKnown s.set s.names };
}

impl Seen {
    /// No names.
    pub fn new(alloc: Global) -> Seen
        ensures { result ≡ [] }
    {
        Seen {
            names: Seq::new(alloc),
            set: BTreeSet::new(alloc),
        }
    }

    /// Whether the name was seen.
    pub fn has(&self, name: &Name) -> bool
        ensures { result ≡ has self.now name.now }
    {
        self.set.contains(name)
    }

    /// These names and one more; where memory is refused they are dropped.
    fn with(self, name: Name) -> Result<Seen, NoMemory>
        ensures { IfOk result (λ seen. seen ≡ self ++ name ∷ []) }
    {
        let Seen { mut names, mut set } = self;
        names.push(name)?;
        match set.insert(name) {
            Ok(_) => Ok(Seen { names, set }),
            Err(_) => Err(NoMemory),
        }
    }

    /// Adds a name; where memory is refused all are dropped.
    pub fn add(&mut self, alloc: Global, name: Name) -> Result<(), NoMemory>
        ensures { OnOk result (self.new ≡ self.old ++ name ∷ []) }
    {
        let seen = std::mem::replace(self, Seen::new(alloc));
        *self = seen.with(name)?;
        Ok(())
    }
}
