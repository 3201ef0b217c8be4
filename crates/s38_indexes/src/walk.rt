ghost use Rattle.std.specs.Prelude.{◌≡◌, [], ◌∷◌, IfNone, IfSome};
ghost use Rattle.std.specs.Iterator.{YieldsFirstRef, item_count};
ghost use Rattle.s38_indexes.specs.Leaves.{NoneEmpty, joined};

use crate::leaf::Leaf;
use s38_base::Bytes;
use std::marker::Model;

/// Entries of an index that follow one another, from the first on. Contracts see them as the list of the entries.
#[derive(Drop)]
pub struct Entries<'a> {
    leaf: &'a [Bytes],
    others: &'a [Leaf],
}

impl<'a> Model for Entries<'a> {
    ghost use Rattle.std.specs.Prelude.{◌++◌, List};
    ghost use Rattle.s38_indexes.specs.Entries.{IndexEntry};
    ghost use Rattle.s38_indexes.specs.Leaves.{NoneEmpty, joined};

    ghost Value = { List IndexEntry };

    ghost view = { λ e. e.leaf.now ++ joined e.others.now };

    ghost invariant = { λ e. NoneEmpty e.others.now };
}

/// The first entry of leaves, and those after it.
fn first_in(leaves: &[Leaf]) -> Option<(&[u8], Entries<'_>)>
    requires { NoneEmpty leaves.now }
    ensures first { IfSome result (λ x. joined leaves.now ≡ x.0.now ∷ x.1) }
    ensures none { IfNone result (joined leaves.now ≡ []) }
{
    let (leaf, others) = leaves.split_first()?;
    let (entry, leaf) = leaf.entries().split_first()?;
    Some((entry.as_slice(), Entries { leaf, others }))
}

impl<'a> Entries<'a> {
    /// The entries of leaves.
    pub(crate) fn of(leaves: &'a [Leaf]) -> Entries<'a>
        requires { NoneEmpty leaves.now }
        ensures { result ≡ joined leaves.now }
    {
        Entries {
            leaf: &[],
            others: leaves,
        }
    }
}

impl<'a> Iterator for Entries<'a> {
    type Item = &'a [u8];

    ghost next_gives = { YieldsFirstRef (λ entries. entries) };

    ghost remaining = { item_count (λ entries. entries) };

    fn next(&mut self) -> Option<&'a [u8]> {
        let Some((entry, leaf)) = self.leaf.split_first() else {
            let (entry, rest) = first_in(self.others)?;
            *self = rest;
            return Some(entry);
        };
        *self = Entries {
            leaf,
            others: self.others,
        };
        Some(entry.as_slice())
    }
}
