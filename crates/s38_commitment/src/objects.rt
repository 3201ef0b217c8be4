//! Which ports a journal space has, and which data spaces a port; what destroys, journals and ensures.
ghost use Rattle.s38_rules.specs.families.Changes.{through_port};
ghost use Rattle.s38_rules.specs.ask.Operands.{target};
ghost use Rattle.std.specs.Prelude.{◌≡◌, is_some};
ghost use Rattle.std.specs.Option.{option_copied};
ghost use Rattle.s38_rules.specs.state.Held.{disk_in, ensured, is_on_disk};
ghost use Rattle.s38_rules.specs.families.Journals.{desjs_fails};
ghost use Rattle.s38_rules.specs.families.CommitBlocks.{descb_fails};
ghost use Rattle.s38_rules.specs.families.Ports.{desjp_fails, is_attached, is_port_on_disk, jrnlobj_fails, jrnlobj_needs, leads_to, names_port, port_is_used, port_journal};
ghost use Rattle.s38_rules.specs.state.Journaling.{journal_for};
ghost use Rattle.s38_rules.specs.state.PartsAt.{on_data};

use s38_base::exceptions::{OBJECT_IN_USE, OBJECT_NOT_ON_DISK};
use s38_base::{Category, Exception, Kind, ObjNum, Rights};
use s38_code::Operand;
use s38_invoke::{Core, Profiles};
use s38_objects::Objects;
use s38_operands::{Needs, fails, on_object, target};
use s38_rules::{Body, DataBody, Object, Sought};
use s38_units::journal_for;

// ---- which ports a journal space has, and which data spaces a port

/// An object is a port to a journal space.
fn leads_to(journal: ObjNum, object: &Object) -> bool
    ensures { result ≡ leads_to journal.0 object.now }
{
    match &object.body {
        Body::Port(port) => port.journal.0 == journal.0,
        _ => false,
    }
}

/// Some port leads to a journal space.
pub fn is_attached(objects: &Objects, journal: ObjNum) -> bool
    ensures { result ≡ is_attached objects.now journal.0 }
{
    objects.all().any(|object| leads_to(journal, object))
}

/// An object is a data space that names a port.
fn names_port(port: ObjNum, object: &Object) -> bool
    ensures { result ≡ names_port port.0 object.now }
{
    match &object.body {
        Body::DataSpace(held) => held.port.0 == port.0,
        _ => false,
    }
}

/// Some data space is journaled to a port.
fn is_used(objects: &Objects, port: ObjNum) -> bool
    ensures { result ≡ port_is_used objects.now port.0 }
{
    objects.all().any(|object| names_port(port, object))
}

// ---- DESJS, DESJP and DESCB

/// No port leads to the journal space.
#[tactic(auto, unfolding(s38_rules::specs::families::Journals::desjs_fails))]
pub fn desjs_fails(objects: &Objects, operands: &[Operand]) -> Option<Exception>
    ensures { result ≡ desjs_fails objects.now operands.now }
{
    let journal = target(objects, operands, 1);
    fails(is_attached(objects, journal), OBJECT_IN_USE, 1)
}

/// No data space is journaled to the port.
#[tactic(auto, unfolding(s38_rules::specs::families::Ports::desjp_fails))]
pub fn desjp_fails(objects: &Objects, operands: &[Operand]) -> Option<Exception>
    ensures { result ≡ desjp_fails objects.now operands.now }
{
    let port = target(objects, operands, 1);
    fails(is_used(objects, port), OBJECT_IN_USE, 1)
}

/// The commit block has no unit.
#[tactic(auto, unfolding(s38_rules::specs::families::CommitBlocks::descb_fails))]
pub fn descb_fails(world: &Core<Objects, Profiles>, operands: &[Operand]) -> Option<Exception>
    ensures { result ≡ descb_fails world.now operands.now }
{
    let block = target(&world.objects, operands, 1);
    fails(world.units.get(block).is_some(), OBJECT_IN_USE, 1)
}

// ---- JRNLOBJ

/// OBJMGT on the data space and on the port.
#[tactic(auto, unfolding(s38_rules::specs::families::Ports::jrnlobj_needs))]
pub fn jrnlobj_needs() -> Needs
    ensures { result ≡ jrnlobj_needs }
{
    let space = Sought::Of(Kind::DataSpace);
    let port = Sought::Of(Kind::Port);
    on_object(1, space, Rights::OBJMGT, Some(Category::Change)).and(on_object(
        2,
        port,
        Rights::OBJMGT,
        Some(Category::Change),
    ))
}

fn disk_in(object: Option<&Object>) -> bool
    ensures { result ≡ disk_in (option_copied object.entry) }
{
    match object {
        Some(object) => object.on_disk,
        None => false,
    }
}

fn is_on_disk(objects: &Objects, number: ObjNum) -> bool
    ensures { result ≡ is_on_disk objects.now number.0 }
{
    disk_in(objects.get(number))
}

/// The journal space that a port names, 0 for none.
fn port_journal(objects: &Objects, port: ObjNum) -> ObjNum
    ensures { result.0 ≡ port_journal objects.now port.0 }
{
    match objects.port(port) {
        Some(port) => port.journal,
        None => ObjNum(0),
    }
}

/// A port and the journal space that it names are on disk.
fn is_port_on_disk(objects: &Objects, port: ObjNum) -> bool
    ensures { result ≡ is_port_on_disk objects.now port.0 }
{
    is_on_disk(objects, port) && is_on_disk(objects, port_journal(objects, port))
}

/// A data space is journaled.
fn is_journaled(objects: &Objects, space: ObjNum) -> bool
    ensures { result ≡ is_some (journal_for objects.now space.0) }
{
    journal_for(objects, space).is_some()
}

/// The data space is not journaled yet, and the port and its journal space are on disk.
#[tactic(auto, unfolding(s38_rules::specs::families::Ports::jrnlobj_fails))]
pub fn jrnlobj_fails(objects: &Objects, operands: &[Operand]) -> Option<Exception>
    ensures { result ≡ jrnlobj_fails objects.now operands.now }
{
    let space = target(objects, operands, 1);
    let port = target(objects, operands, 2);
    if let Some(failure) = fails(is_journaled(objects, space), OBJECT_IN_USE, 1) {
        return Some(failure);
    }
    fails(!is_port_on_disk(objects, port), OBJECT_NOT_ON_DISK, 2)
}

fn set_port(body: &mut DataBody, port: ObjNum)
    ensures { body.new ≡ through_port port.0 body.old }
{
    body.port = port;
}

/// The changes of the data space of a number go through a port from now on.
fn lead_through(objects: &mut Objects, space: ObjNum, port: ObjNum)
    ensures { objects.new ≡ on_data objects.old space.0 (through_port port.0) }
{
    if let Some(body) = objects.data_space_mut(space) {
        set_port(body, port);
    }
}

/// And it is on disk.
fn journal_through(objects: &mut Objects, space: ObjNum, port: ObjNum)
    ensures { objects.new ≡ ensured (on_data objects.old space.0 (through_port port.0)) space.0 }
{
    lead_through(objects, space, port);
    objects.ensure(space);
}

/// The same, among the objects of a world.
fn journal_at(world: &mut Core<Objects, Profiles>, space: ObjNum, port: ObjNum)
    ensures { world.new ≡ record world.old { held = ensured (on_data world.old.held space.0 (through_port port.0)) space.0 } }
{
    journal_through(&mut world.objects, space, port);
}

/// The changes of the data space go through the port from now on, and it is on disk.
pub fn jrnlobj(world: &mut Core<Objects, Profiles>, operands: &[Operand])
    ensures { world.new ≡ record world.old { held = ensured (on_data world.old.held (target world.old.held operands.now 1) (through_port (target world.old.held operands.now 2))) (target world.old.held operands.now 1) } }
{
    let space = target(&world.objects, operands, 1);
    let port = target(&world.objects, operands, 2);
    journal_at(world, space, port);
}

// ---- ENSOBJ

/// The object of a number is on disk from now on.
fn ensure_at(world: &mut Core<Objects, Profiles>, number: ObjNum)
    ensures { world.new ≡ record world.old { held = ensured world.old.held number.0 } }
{
    world.objects.ensure(number);
}

/// The object is on disk from now on.
pub fn ensobj(world: &mut Core<Objects, Profiles>, operands: &[Operand])
    ensures { world.new ≡ record world.old { held = ensured world.old.held (target world.old.held operands.now 1) } }
{
    let number = target(&world.objects, operands, 1);
    ensure_at(world, number);
}
