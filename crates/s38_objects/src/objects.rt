ghost use Rattle.std.specs.Prelude.{◌≡◌, ◌≢◌, [], ◌≤◌, ◌<◌, ◌^◌, ◌==◌, ◌&&◌, ◌↔◌, All, ℕ, length, None, IfOk, IfErr, IsTrue, OnOk, OnErr, false, true, if◌then◌else◌};
ghost use Rattle.std.specs.Borrow.{sem};
ghost use Rattle.std.specs.Option.{option_copied, option_copied_mut};
ghost use Rattle.s38_rules.specs.families.Contexts.{is_name_beside};
ghost use Rattle.s38_rules.specs.families.ContextLists.{with_listed};
ghost use Rattle.s38_rules.specs.families.Creation.{is_taken_beside};
ghost use Rattle.s38_rules.specs.state.Headers.{rights_in_row};
ghost use Rattle.s38_rules.specs.state.Held.{change, contents, context_in, ensured, found, is_there, moved, nothing, number_found, object, renamed, with_added, without};
ghost use Rattle.s38_rules.specs.state.Parts.{part_at};
ghost use Rattle.s38_rules.specs.state.PartsAt.{set_profile};
ghost use Rattle.s38_rules.specs.state.Access.{granted, on_access, open_to_all, owned_by};
ghost use Rattle.s38_objects.specs.Changes.{placed};
ghost use Rattle.s38_objects.specs.Lawful.{IsObjectMap, is_place, is_place_of};
ghost use Rattle.s38_objects.specs.Lending.{LendsHeld};

use crate::name_key::{NameKey, key};
use crate::number::Number;
use crate::{listing, names, numbered};
use s38_base::{Id, NoMemory, ObjNum, Rights, Special, UserNum};
use s38_rules::{BodyPart, Listed, Object};
use std::alloc::{AllocFailed, Global};
use std::collections::BTreeMap;
use std::collections::btree_map::Values;
use std::marker::Model;

/// The object map. Contracts see it as the objects in rising order of number, the next number and the ceiling.
#[derive(Drop)]
pub struct Objects {
    alloc: Global,
    by_number: BTreeMap<Number, Object>,
    by_name: BTreeMap<NameKey, u64>,
    next: u64,
    ceiling: u64,
}

impl Model for Objects {
    ghost use Rattle.std.specs.BTreeMap.{values};
    ghost use Rattle.s38_rules.specs.state.Held.{Held};
    ghost use Rattle.s38_objects.specs.Indexed.{IsIndexed};

    ghost Value = { Held };

    ghost view = { λ m. record { objects = values m.by_number; next = m.next; ceiling = m.ceiling } };

    ghost invariant = { λ m. IsIndexed m.by_number m.by_name m.next };
}

impl Objects {
    /// A map without objects, whose next number is 1. The allocator serves its later calls.
    pub fn new(alloc: Global) -> Objects
        ensures { result ≡ nothing }
    {
        Objects {
            alloc,
            by_number: BTreeMap::new(alloc),
            by_name: BTreeMap::new(alloc),
            next: 1,
            ceiling: 0,
        }
    }

    /// The map of these objects, with the next number and the ceiling, in time n log n. Each object says a context whose
    /// number was given, or none; the context need not be there. `NoMemory` where memory was refused.
    pub fn restored(
        alloc: Global,
        mut objects: Vec<Object>,
        next: u64,
        ceiling: u64,
    ) -> Result<Objects, NoMemory>
        requires lawful { IsObjectMap (record { objects = objects.items; next = next; ceiling = ceiling }) }
        requires placed { All (λ o. o.context.0 < next) objects.items }
        ensures { IfOk result (λ map. map ≡ record { objects = objects.items; next = next; ceiling = ceiling }) }
    {
        let mut by_number = BTreeMap::new(alloc);
        let mut by_name = BTreeMap::new(alloc);
        while let Some(object) = objects.pop() {
            names::enter(&mut by_name, object.context, &object.id, object.number)?;
            match numbered::add(&mut by_number, object) {
                Ok(()) => {}
                Err(_) => return Err(NoMemory),
            }
        }
        Ok(Objects {
            alloc,
            by_number,
            by_name,
            next,
            ceiling,
        })
    }

    /// How many objects there are.
    pub fn len(&self) -> usize
        ensures len { result ≡ length self.now.objects }
        ensures lawful { IsObjectMap self.now }
    {
        self.by_number.len()
    }

    /// Whether there is no object.
    pub fn is_empty(&self) -> bool
        ensures { IsTrue result ↔ (length self.now.objects ≡ 0) }
    {
        self.by_number.is_empty()
    }

    /// The objects, in rising order of number.
    pub fn all(&self) -> Values<'_, Number, Object>
        ensures all { result ≡ self.now.objects }
        ensures lawful { IsObjectMap self.now }
    {
        self.by_number.values()
    }

    /// The least number that may still be given.
    pub fn next_number(&self) -> u64
        ensures { result ≡ self.now.next }
    {
        self.next
    }

    /// Up to which number objects may be given without asking the store.
    pub fn ceiling(&self) -> u64
        ensures { result ≡ self.now.ceiling }
    {
        self.ceiling
    }

    /// The object of a number, in logarithmic time.
    pub fn get(&self, number: ObjNum) -> Option<&Object>
        ensures { option_copied result ≡ object self.now number.0 }
    {
        self.by_number.get(&Number { number: number.0 })
    }

    /// Whether the object of a number is there, in logarithmic time.
    fn is_there(&self, number: ObjNum) -> bool
        ensures { result ≡ is_there self.now number.0 }
    {
        match self.get(number) {
            Some(_) => true,
            None => false,
        }
    }

    /// The number of the object of an identification in a context, in logarithmic time; none in a context that is gone.
    pub fn find(&self, context: ObjNum, id: &Id) -> Option<ObjNum>
        ensures { result ≡ number_found self.now context.0 id.now }
    {
        if !self.is_there(context) {
            return None;
        }
        self.by_name.get(&key(context.0, id)).map(|n| ObjNum(*n))
    }

    /// The object of an identification in a context, in logarithmic time.
    pub fn find_object(&self, context: ObjNum, id: &Id) -> Option<&Object>
        ensures { option_copied result ≡ found self.now context.0 id.now }
    {
        match self.find(context, id) {
            Some(number) => self.by_number.get(&Number { number: number.0 }),
            None => None,
        }
    }

    /// The objects in a context by kind, subtype and name; none where it is gone. `NoMemory` where memory is refused.
    pub fn names(
        &self,
        alloc: Global,
        context: ObjNum,
    ) -> Result<BTreeMap<Listed, ObjNum>, NoMemory>
        ensures { IfOk result (λ names. names.entries ≡ with_listed [] (contents self.now context.0)) }
    {
        if !self.is_there(context) {
            return Ok(BTreeMap::new(alloc));
        }
        listing::names(alloc, &self.by_number, context)
    }

    /// Adds an object after the others. Its number was never given, its context is there, or itself, or none, and no
    /// object in its context has its identification. Where memory is refused it comes back and nothing changes.
    pub fn add(&mut self, object: Object) -> Result<ObjNum, AllocFailed<Object>>
        requires unused { self.old.next ≤ object.number.0 }
        requires small { object.number.0 < 2 ^ 63 }
        requires placed { is_place_of self.old object ≡ true }
        requires unnamed { found self.old object.context.0 object.id ≡ None }
        ensures number { IfOk result (λ n. n ≡ object.number) }
        ensures ok { OnOk result (self.new ≡ with_added self.old object) }
        ensures back { IfErr result (λ e. e.value ≡ object) }
        ensures err { OnErr result (self.new ≡ self.old) }
    {
        let number = object.number;
        if names::enter(&mut self.by_name, object.context, &object.id, number).is_err() {
            return Err(AllocFailed { value: object });
        }
        match numbered::add(&mut self.by_number, object) {
            Ok(()) => {}
            Err(refused) => {
                names::leave(&mut self.by_name, &refused.value);
                return Err(refused);
            }
        }
        self.next = number.0 + 1;
        Ok(number)
    }

    /// Takes the object of a number out, without memory. What it was the context of is in no context from then on.
    pub fn remove(&mut self, number: ObjNum) -> Option<Object>
        ensures object { result ≡ object self.old number.0 }
        ensures rest { self.new ≡ without self.old number.0 }
    {
        match self.by_number.remove(&Number { number: number.0 }) {
            Some(object) => {
                names::leave(&mut self.by_name, &object);
                Some(object)
            }
            None => None,
        }
    }

    /// What the object of a number holds, to be written. A further kind is a `BodyPart`, with calls in parts.rt.
    pub(crate) fn part_mut<P: BodyPart>(&mut self, number: ObjNum) -> Option<&mut P>
        ensures* writes_back { sem 𝓛 (LendsHeld P.row P.part self.entry number.0 result) }
        ensures value { option_copied_mut result ≡ part_at P.part self.old number.0 }
    {
        match self.by_number.get_mut(&Number { number: number.0 }) {
            Some(object) => P::of_mut(&mut object.body),
            None => None,
        }
    }

    /// The object of a number is in this context from now on, or in none, and has this identification.
    fn place(&mut self, number: ObjNum, context: ObjNum, id: &Id) -> Result<(), NoMemory>
        requires given { context.0 < self.old.next }
        requires unnamed { is_taken_beside self.old number.0 context.0 id.now ≡ false }
        ensures ok { OnOk result (self.new ≡ change self.old number.0 (placed context id.now)) }
        ensures err { OnErr result (self.new ≡ self.old) }
    {
        match self.by_number.get(&Number { number: number.0 }) {
            None => return Ok(()),
            Some(object) => match names::change(&mut self.by_name, object, context, id) {
                Ok(()) => {}
                Err(e) => return Err(e),
            },
        }
        numbered::place(&mut self.by_number, number.0, context, *id);
        Ok(())
    }

    /// The object of a number has another identification from now on. After `NoMemory` nothing changed.
    pub fn rename(&mut self, number: ObjNum, id: Id) -> Result<(), NoMemory>
        requires { is_taken_beside self.old number.0 (context_in (object self.old number.0)).0 id ≡ false }
        ensures ok { OnOk result (self.new ≡ renamed self.old number.0 id) }
        ensures err { OnErr result (self.new ≡ self.old) }
    {
        match self.by_number.get(&Number { number: number.0 }) {
            None => Ok(()),
            Some(object) => {
                let context = object.context;
                self.place(number, context, &id)
            }
        }
    }

    /// The object of a number is in another context from now on, or in none; no other object there has its
    /// identification. `NoMemory` where memory was refused, and nothing changed.
    pub fn move_to(&mut self, number: ObjNum, context: ObjNum) -> Result<(), NoMemory>
        requires placed { is_place self.old context.0 ≡ true }
        requires unnamed { is_name_beside self.old number.0 context.0 (object self.old number.0) ≡ false }
        ensures ok { OnOk result (self.new ≡ moved self.old number.0 context) }
        ensures err { OnErr result (self.new ≡ self.old) }
    {
        match self.by_number.get(&Number { number: number.0 }) {
            None => Ok(()),
            Some(object) => {
                let id = object.id;
                self.place(number, context, &id)
            }
        }
    }

    /// Sets the rights of a user by a private row on the object of a number; a row without a right is taken out. Memory
    /// can be refused only where a row is added, and nothing changed then.
    pub fn set_row(&mut self, number: ObjNum, user: UserNum, rights: Rights) -> Result<(), NoMemory>
        ensures ok { OnOk result (self.new ≡ on_access self.old number.0 (granted user rights)) }
        ensures others { OnOk result ((n u : ℕ) → rights_in_row (object self.new n) u
            ≡ (if is_there self.old number.0 && ((number.0 == n) && (user.0 == u)) then rights.0 else rights_in_row (object self.old n) u)) }
        ensures added { OnErr result ((rights_in_row (object self.old number.0) user.0 ≡ 0) × (rights.0 ≢ 0)) }
        ensures err { OnErr result (self.new ≡ self.old) }
    {
        numbered::set_row(&mut self.by_number, number.0, user, rights)
    }

    /// The object of a number belongs to a user from now on.
    pub fn set_owner(&mut self, number: ObjNum, user: UserNum)
        ensures { self.new ≡ on_access self.old number.0 (owned_by user) }
    {
        numbered::set_owner(&mut self.by_number, number.0, user);
    }

    /// Everybody has these rights on the object of a number from now on.
    pub fn set_public(&mut self, number: ObjNum, rights: Rights)
        ensures { self.new ≡ on_access self.old number.0 (open_to_all rights) }
    {
        numbered::set_public(&mut self.by_number, number.0, rights);
    }

    /// The number is one of those on disk from now on, where there is such an object.
    pub fn ensure(&mut self, number: ObjNum)
        ensures { self.new ≡ ensured self.old number.0 }
    {
        numbered::ensure(&mut self.by_number, number.0);
    }

    /// The user of a number has these special authorities and this limit from now on; nothing changes where it is none.
    pub fn set_profile(&mut self, number: ObjNum, special: Special, limit: u32)
        ensures { self.new ≡ set_profile self.old number.0 special limit }
    {
        numbered::set_profile(&mut self.by_number, number.0, special, limit);
    }

    /// Raises the next number, and sets the ceiling.
    pub fn raise(&mut self, next: u64, ceiling: u64)
        requires { self.old.next ≤ next }
        ensures { self.new ≡ record self.old { next = next; ceiling = ceiling } }
    {
        self.next = next;
        self.ceiling = ceiling;
    }
}
