ghost use Rattle.std.specs.Prelude.{Some, nat_eq, refl};
ghost use Rattle.std.specs.Ordering.{nat_cmp};
ghost use Rattle.std.specs.Cmp.{nat_cmp_total, nat_eq_equiv, partial_equiv_from_equiv, unsigned_po, unsigned_ties};

use std::cmp::Ordering;
use std::marker::Model;

/// How a number compares with one that it is not above: less, or equal.
static NOT_ABOVE: [Ordering; 2] = [Ordering::Less, Ordering::Equal];

/// The number of an object, by which it is found. Contracts see a number; it is ordered as a `u64` is, by comparisons
/// that a search does in fewer steps.
#[derive(Clone, Copy, Debug)]
pub struct Number {
    pub number: u64,
}

impl Model for Number {
    ghost use Rattle.std.specs.Prelude.{ℕ};
    ghost use Rattle.std.proofs.Common.{refl};

    ghost Value = { ℕ };

    ghost view = { λ n. n.number };

    ghost inverse = { λ number. record { number = number } };

    ghost inverse_ok = { λ n h. refl };
}

impl PartialEq for Number {
    ghost eq = { nat_eq };

    ghost laws = { partial_equiv_from_equiv nat_eq_equiv };

    fn eq(&self, other: &Number) -> bool {
        self.number == other.number
    }
}

impl Eq for Number {
    ghost laws = { nat_eq_equiv };
}

impl PartialOrd for Number {
    ghost partial_cmp = { λ x y. Some (nat_cmp x y) };

    ghost laws = { unsigned_po };

    fn partial_cmp(&self, other: &Number) -> Option<Ordering> {
        Some(self.cmp(other))
    }
}

impl Ord for Number {
    ghost cmp = { nat_cmp };

    ghost total = { nat_cmp_total };

    ghost matches_partial_cmp = { λ x y. refl };

    ghost matches_eq = { unsigned_ties };

    fn cmp(&self, other: &Number) -> Ordering {
        if self.number > other.number {
            Ordering::Greater
        } else {
            NOT_ABOVE[usize::from(self.number == other.number)]
        }
    }
}
