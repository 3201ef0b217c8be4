//! Entries of independent indexes: put in, found and taken out.
ghost use Rattle.std.specs.Prelude.{◌≡◌, ◌≤◌, IfOk, OnOk, OnErr, is_some};
ghost use Rattle.std.specs.Option.{option_copied, unwrap_or};
ghost use Rattle.s38_indexes.specs.Entries.{entry_found, index_image_size, largest};
ghost use Rattle.s38_rules.specs.families.Indexes.{entered, entry_or_none, fndinxen_fails, fndinxen_gives, insinxen_fails, removed, rmvinxen_fails};
ghost use Rattle.s38_rules.specs.ask.Operands.{bytes_at, target};
ghost use Rattle.s38_rules.specs.state.PartsAt.{index_at, no_index, on_index};

use s38_base::exceptions::{DUPLICATE_ENTRY, LENGTH_INVALID, LIMIT_EXCEEDED, NO_INDEX_ENTRY};
use s38_base::{Exception, NoMemory, ObjNum, Relation};
use s38_code::{Operand, Val};
use s38_indexes::Index;
use s38_invoke::{Core, Profiles};
use s38_objects::Objects;
use s38_operands::{
    Question, ask_at, fails, fitted, piece_at, relation_at, room_at, size_at, target,
};
use std::alloc::Global;

// ---- entries that are there

/// Whether an index has an entry in a relation to a key.
#[derive(Clone, Copy)]
struct HasEntry<'a> {
    index: Option<&'a Index>,
    relation: Relation,
}

impl Question for HasEntry<'_> {
    ghost use Rattle.std.specs.Prelude.{is_some};
    ghost use Rattle.std.specs.Option.{option_copied, unwrap_or};
    ghost use Rattle.s38_indexes.specs.Entries.{entry_found};
    ghost use Rattle.s38_rules.specs.state.PartsAt.{no_index};

    ghost answer = { λ q key. is_some (entry_found q.relation key (unwrap_or (option_copied q.index) no_index).entries) };

    fn ask(&self, key: &[u8]) -> bool {
        match self.index {
            None => false,
            Some(index) => index.find(self.relation, key).is_some(),
        }
    }
}

/// Whether the index of a number has an entry in a relation to the bytes of an operand.
fn has_entry(
    objects: &Objects,
    number: ObjNum,
    relation: Relation,
    operands: &[Operand],
    k: usize,
) -> bool
    ensures { result ≡ is_some (entry_found relation (bytes_at objects.now operands.now k) (index_at objects.now number.0).entries) }
{
    let index = objects.index(number);
    ask_at(&HasEntry { index, relation }, objects, operands, k)
}

// ---- INSINXEN

fn longest_in(index: Option<&Index>) -> u8
    ensures { result ≡ (unwrap_or (option_copied index.entry) no_index).longest }
{
    match index {
        None => 0,
        Some(index) => index.longest(),
    }
}

fn size_in(index: Option<&Index>) -> u32
    ensures size { result ≡ index_image_size (unwrap_or (option_copied index.entry) no_index).entries }
    ensures bound { result ≤ largest }
{
    match index {
        None => 5,
        Some(index) => index.image_len(),
    }
}

/// The entry is not too long and not there yet, and the index's image stays small.
#[tactic(auto, unfolding(s38_rules::specs::families::Indexes::insinxen_fails))]
pub fn insinxen_fails(world: &Core<Objects, Profiles>, operands: &[Operand]) -> Option<Exception>
    ensures { result ≡ insinxen_fails world.now operands.now }
{
    let objects = &world.objects;
    let number = target(objects, operands, 1);
    let len = size_at(objects, operands, 2);
    if len > longest_in(objects.index(number)) as usize {
        return Some(Exception::plain(LENGTH_INVALID, 2));
    }
    if has_entry(objects, number, Relation::Eq, operands, 2) {
        return Some(Exception::plain(DUPLICATE_ENTRY, 2));
    }
    let size = size_in(objects.index(number)) + (1 + len as u32);
    fails(world.limit < size, LIMIT_EXCEEDED, 1)
}

fn enter(index: &mut Index, entry: &[u8]) -> Result<(), NoMemory>
    ensures ok { OnOk result (index.new ≡ entered entry.now index.old) }
    ensures err { OnErr result (index.new ≡ index.old) }
{
    match index.insert(entry) {
        Ok(()) => Ok(()),
        Err(_) => Err(NoMemory),
    }
}

/// An entry is put in its place in the index of a number; where memory is refused nothing changes.
fn enter_in(objects: &mut Objects, number: ObjNum, entry: &[u8]) -> Result<(), NoMemory>
    ensures ok { OnOk result (objects.new ≡ on_index objects.old number.0 (entered entry.now)) }
    ensures err { OnErr result (objects.new ≡ objects.old) }
{
    let Some(index) = objects.index_mut(number) else {
        return Ok(());
    };
    enter(index, entry)
}

/// The same, among the objects of a world.
fn enter_at(
    world: &mut Core<Objects, Profiles>,
    number: ObjNum,
    entry: &[u8],
) -> Result<(), NoMemory>
    ensures ok { OnOk result (world.new ≡ record world.old { held = on_index world.old.held number.0 (entered entry.now) }) }
    ensures err { OnErr result (world.new ≡ world.old) }
{
    match enter_in(&mut world.objects, number, entry) {
        Ok(()) => Ok(()),
        Err(fault) => Err(fault),
    }
}

/// The entry is put in its place; where memory is refused nothing changes.
pub fn insinxen(
    alloc: Global,
    world: &mut Core<Objects, Profiles>,
    operands: &[Operand],
) -> Result<(), NoMemory>
    ensures ok { OnOk result (world.new ≡ record world.old { held = on_index world.old.held (target world.old.held operands.now 1) (entered (bytes_at world.old.held operands.now 2)) }) }
    ensures err { OnErr result (world.new ≡ world.old) }
{
    let number = target(&world.objects, operands, 1);
    match piece_at(alloc, &world.objects, operands, 2) {
        Ok(entry) => enter_at(world, number, entry.as_slice()),
        Err(fault) => Err(fault),
    }
}

// ---- FNDINXEN

/// An entry fits.
#[tactic(auto, unfolding(s38_rules::specs::families::Indexes::fndinxen_fails))]
pub fn fndinxen_fails(objects: &Objects, operands: &[Operand]) -> Option<Exception>
    ensures { result ≡ fndinxen_fails objects.now operands.now }
{
    let number = target(objects, operands, 2);
    let is_there = has_entry(objects, number, relation_at(operands, 3), operands, 4);
    fails(!is_there, NO_INDEX_ENTRY, 2)
}

fn entry_or_none(entry: Option<&[u8]>) -> &[u8]
    ensures { result.now ≡ entry_or_none (option_copied entry.entry) }
{
    match entry {
        None => &[],
        Some(entry) => entry,
    }
}

/// The entry that the index of a number gives.
fn found_entry<'a>(objects: &'a Objects, number: ObjNum, relation: Relation, key: &[u8]) -> &'a [u8]
    ensures { result.now ≡ entry_or_none (entry_found relation key.now (index_at objects.now number.0).entries) }
{
    match objects.index(number) {
        None => &[],
        Some(index) => entry_or_none(index.find(relation, key)),
    }
}

/// The entry, cut or filled with zeros.
#[tactic(auto, unfolding(s38_rules::specs::families::Indexes::fndinxen_bytes))]
pub fn fndinxen_gives(
    alloc: Global,
    objects: &Objects,
    operands: &[Operand],
) -> Result<Val, NoMemory>
    ensures { IfOk result (λ value. value ≡ fndinxen_gives objects.now operands.now) }
{
    let key = piece_at(alloc, objects, operands, 4)?;
    let number = target(objects, operands, 2);
    let entry = found_entry(objects, number, relation_at(operands, 3), key.as_slice());
    let bytes = fitted(alloc, room_at(operands, 1), 0, entry)?;
    Ok(Val::Bytes(bytes))
}

// ---- RMVINXEN

/// The entry is there.
#[tactic(auto, unfolding(s38_rules::specs::families::Indexes::rmvinxen_fails))]
pub fn rmvinxen_fails(objects: &Objects, operands: &[Operand]) -> Option<Exception>
    ensures { result ≡ rmvinxen_fails objects.now operands.now }
{
    let number = target(objects, operands, 1);
    let is_there = has_entry(objects, number, Relation::Eq, operands, 2);
    fails(!is_there, NO_INDEX_ENTRY, 2)
}

#[tactic(auto, using(crate::proofs::IndexLaws::absent_stays))]
fn remove(index: &mut Index, entry: &[u8])
    ensures { index.new ≡ removed entry.now index.old }
{
    match index.remove(entry) {
        Ok(()) => {}
        Err(_) => {}
    }
}

/// An entry is no longer in the index of a number.
fn remove_in(objects: &mut Objects, number: ObjNum, entry: &[u8])
    ensures { objects.new ≡ on_index objects.old number.0 (removed entry.now) }
{
    if let Some(index) = objects.index_mut(number) {
        remove(index, entry);
    }
}

/// The same, among the objects of a world.
fn remove_at(world: &mut Core<Objects, Profiles>, number: ObjNum, entry: &[u8])
    ensures { world.new ≡ record world.old { held = on_index world.old.held number.0 (removed entry.now) } }
{
    remove_in(&mut world.objects, number, entry);
}

/// The entry is there no more; where memory is refused nothing changes.
pub fn rmvinxen(
    alloc: Global,
    world: &mut Core<Objects, Profiles>,
    operands: &[Operand],
) -> Result<(), NoMemory>
    ensures ok { OnOk result (world.new ≡ record world.old { held = on_index world.old.held (target world.old.held operands.now 1) (removed (bytes_at world.old.held operands.now 2)) }) }
    ensures err { OnErr result (world.new ≡ world.old) }
{
    let number = target(&world.objects, operands, 1);
    let entry = match piece_at(alloc, &world.objects, operands, 2) {
        Ok(entry) => entry,
        Err(fault) => return Err(fault),
    };
    remove_at(world, number, entry.as_slice());
    Ok(())
}
