//! What an instruction needs of its operands, in a list that takes no memory.
ghost use Rattle.std.specs.Prelude.{◌≡◌, ◌+◌, ◌<◌, ◌≤◌, [], ◌∷◌, ◌++◌, length};
ghost use Rattle.s38_rules.specs.ask.Needs.{claimed, governed, need, on_implied, on_object};

use s38_base::{Category, ObjNum, Rights};
use s38_rules::{Claim, Named, Need, PointerKind, Sought};
use std::marker::Model;

/// How many needs an instruction has at most.
const MOST: usize = 3;

const NOTHING: Need = Need {
    place: 0,
    named: Named::Written,
    pointer: PointerKind::Any,
    sought: Sought::Any,
    rights: Rights(0),
    claim: Claim::Available,
    category: None,
};

/// What an instruction needs, in order: at most three needs.
#[derive(Drop)]
pub struct Needs {
    held: [Need; MOST],
    count: usize,
}

impl Model for Needs {
    ghost use Rattle.std.specs.Prelude.{◌≤◌, List, take};
    ghost use Rattle.s38_rules.specs.declared.need.Need.{Need};

    ghost Value = { List Need };

    ghost view = { λ n. take n.count n.held };

    ghost invariant = { λ n. n.count ≤ 3 };
}

/// These needs, and others after them.
fn add_all(all: &mut Needs, needs: &[Need])
    requires { length all.old + length needs.now ≤ 3 }
    ensures { all.new ≡ all.old ++ needs.now }
{
    match needs {
        [] => {}
        [need, more @ ..] => {
            all.add(*need);
            add_all(all, more);
        }
    }
}

impl Needs {
    /// No need.
    #[inline(always)]
    pub fn none() -> Needs
        ensures { result ≡ [] }
    {
        Needs {
            held: [NOTHING; MOST],
            count: 0,
        }
    }

    /// One need.
    #[inline(always)]
    pub fn one(need: Need) -> Needs
        ensures { result ≡ need ∷ [] }
    {
        Needs {
            held: [need, NOTHING, NOTHING],
            count: 1,
        }
    }

    /// One need more, after the others.
    fn add(&mut self, need: Need)
        requires { length self.old < 3 }
        ensures { self.new ≡ self.old ++ need ∷ [] }
    {
        self.held[self.count] = need;
        self.count += 1;
    }

    /// These needs, and others after them; there is room for all.
    pub fn and(self, others: Needs) -> Needs
        requires { length self + length others ≤ 3 }
        ensures { result ≡ self ++ others }
    {
        let mut all = self;
        add_all(&mut all, others.as_slice());
        all
    }

    /// The needs; there are at most three.
    pub fn as_slice(&self) -> &[Need]
        ensures value { result.now ≡ self.now }
        ensures few { length result.now ≤ 3 }
    {
        &self.held[..self.count]
    }
}

/// One claim on an operand.
#[inline(always)]
pub fn claimed(
    claim: Claim,
    place: u8,
    named: Named,
    pointer: PointerKind,
    sought: Sought,
    rights: Rights,
    category: Option<Category>,
) -> Needs
    ensures { result ≡ claimed claim place named pointer sought rights.0 category }
{
    Needs::one(Need {
        place,
        named,
        pointer,
        sought,
        rights,
        claim,
        category,
    })
}

/// One need of an operand.
#[inline(always)]
pub fn need(
    place: u8,
    named: Named,
    pointer: PointerKind,
    sought: Sought,
    rights: Rights,
    category: Option<Category>,
) -> Needs
    ensures { result ≡ need place named pointer sought rights.0 category }
{
    claimed(
        Claim::Available,
        place,
        named,
        pointer,
        sought,
        rights,
        category,
    )
}

/// Rights on the object of a system pointer, which is read, changed or controlled.
#[inline(always)]
pub fn on_object(place: u8, sought: Sought, rights: Rights, category: Option<Category>) -> Needs
    ensures { result ≡ on_object place sought rights.0 category }
{
    need(
        place,
        Named::Written,
        PointerKind::System,
        sought,
        rights,
        category,
    )
}

/// Rights on the object of a number that no operand names.
pub fn on_implied(
    number: ObjNum,
    sought: Sought,
    rights: Rights,
    category: Option<Category>,
) -> Needs
    ensures { result ≡ on_implied number.0 sought rights.0 category }
{
    need(
        0,
        Named::Implied(number),
        PointerKind::System,
        sought,
        rights,
        category,
    )
}

/// An object that is given away, or authority over it.
pub fn governed(claim: Claim, place: u8, rights: Rights) -> Needs
    ensures { result ≡ governed claim place rights.0 }
{
    claimed(
        claim,
        place,
        Named::Written,
        PointerKind::System,
        Sought::Any,
        rights,
        Some(Category::Change),
    )
}
