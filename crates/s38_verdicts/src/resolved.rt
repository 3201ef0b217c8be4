//! The needs of an instruction, resolved: the pointer is read and the object looked up once, and all rules go over what
//! was found.
ghost use Rattle.std.specs.Prelude.{◌≡◌, ◌+◌, ◌<◌, ◌≤◌, [], ◌∷◌, ◌++◌, length};
ghost use Rattle.std.specs.Option.{option_copied, option_map};
ghost use Rattle.s38_rules.specs.ask.RightsRules.{subject};
ghost use Rattle.s38_verdicts.specs.Resolved.{Each, IsResolved, facts_of, needs_of, pointer_for, resolved};

use s38_base::{Category, Kind, ObjNum, Pointer, Rights};
use s38_code::Operand;
use s38_objects::{Objects, kind_of};
use s38_operands::pointer_at;
use s38_rules::{Claim, Named, Need, Object, PointerKind, Sought};
use std::marker::Model;

/// What the rules ask of an object: its number, its kind, and the rights of everybody.
#[derive(Clone, Copy, PartialEq, Eq, Debug)]
pub struct Facts {
    pub number: ObjNum,
    pub kind: Kind,
    pub public: Rights,
}

/// A need with the pointer that names its object, the number of the object, and what the rules ask of it, if it is there.
#[derive(Clone, Copy, PartialEq, Eq, Debug)]
pub struct Resolved {
    pub need: Need,
    pub pointer: Option<Pointer>,
    pub object: ObjNum,
    pub found: Option<Facts>,
}

#[inline(always)]
fn facts_of(object: Option<&Object>) -> Option<Facts>
    ensures { result ≡ option_map facts_of (option_copied object.entry) }
{
    match object {
        None => None,
        Some(object) => Some(Facts {
            number: object.number,
            kind: kind_of(&object.body),
            public: object.public,
        }),
    }
}

/// The pointer at the operand of a need; None where no operand names the object.
#[inline(always)]
fn pointer_for(objects: &Objects, operands: &[Operand], need: &Need) -> Option<Pointer>
    ensures { result ≡ pointer_for objects.now operands.now need.now.place need.now.named }
{
    match need.named {
        Named::Written => pointer_at(objects, operands, need.place as usize),
        Named::Implied(_) => None,
    }
}

/// The object that a need speaks of, by the pointer at its operand.
#[inline(always)]
fn subject(objects: &Objects, operands: &[Operand], need: &Need, pointer: Option<Pointer>) -> ObjNum
    requires { pointer ≡ pointer_for objects.now operands.now need.now.place need.now.named }
    ensures { result.0 ≡ subject objects.now operands.now need.now.place need.now.named }
{
    let _ = objects;
    let _ = operands;
    match need.named {
        Named::Written => Pointer::target(pointer),
        Named::Implied(number) => number,
    }
}

/// A need, resolved.
#[inline(always)]
pub fn resolve(objects: &Objects, operands: &[Operand], need: &Need) -> Resolved
    ensures { result ≡ resolved objects.now operands.now need.now }
{
    let pointer = pointer_for(objects, operands, need);
    let object = subject(objects, operands, need, pointer);
    Resolved {
        need: *need,
        pointer,
        object,
        found: facts_of(objects.get(object)),
    }
}

/// How many needs an instruction has at most.
const MOST: usize = 3;

/// Needs, resolved, in a list that takes no memory.
#[derive(Drop)]
pub struct ResolvedNeeds {
    held: [Resolved; MOST],
    count: usize,
}

impl Model for ResolvedNeeds {
    ghost use Rattle.std.specs.Prelude.{◌≤◌, List, take};
    ghost use Rattle.s38_verdicts.specs.declared.resolved.Resolved.{Resolved};

    ghost Value = { List Resolved };

    ghost view = { λ n. take n.count n.held };

    ghost invariant = { λ n. n.count ≤ 3 };
}

const NOTHING: Resolved = Resolved {
    need: Need {
        place: 0,
        named: Named::Written,
        pointer: PointerKind::Any,
        sought: Sought::Any,
        rights: Rights(0),
        claim: Claim::Available,
        category: None::<Category>,
    },
    pointer: None,
    object: ObjNum(0),
    found: None,
};

impl ResolvedNeeds {
    fn none() -> ResolvedNeeds
        ensures { result ≡ [] }
    {
        ResolvedNeeds {
            held: [NOTHING; MOST],
            count: 0,
        }
    }

    fn add(&mut self, need: Resolved)
        requires { length self.old < 3 }
        ensures { self.new ≡ self.old ++ need ∷ [] }
    {
        self.held[self.count] = need;
        self.count += 1;
    }

    /// The needs.
    pub fn as_slice(&self) -> &[Resolved]
        ensures { result.now ≡ self.now }
    {
        &self.held[..self.count]
    }
}

/// These needs, resolved after others.
fn add_all(all: &mut ResolvedNeeds, objects: &Objects, operands: &[Operand], needs: &[Need])
    requires room { length all.old + length needs.now ≤ 3 }
    ensures needs { needs_of all.new ≡ needs_of all.old ++ needs.now }
    ensures each { Each (IsResolved objects.now operands.now) all.old → Each (IsResolved objects.now operands.now) all.new }
{
    match needs {
        [] => {}
        [need, more @ ..] => {
            all.add(resolve(objects, operands, need));
            add_all(all, objects, operands, more);
        }
    }
}

/// Needs, resolved.
pub fn resolve_all(objects: &Objects, operands: &[Operand], needs: &[Need]) -> ResolvedNeeds
    requires { length needs.now ≤ 3 }
    ensures needs { needs_of result ≡ needs.now }
    ensures each { Each (IsResolved objects.now operands.now) result }
{
    let mut all = ResolvedNeeds::none();
    add_all(&mut all, objects, operands, needs);
    all
}
