//! Data spaces and cursors are made.
ghost use Rattle.s38_rules.specs.families.Changes.{done};
ghost use Rattle.std.specs.Prelude.{◌≡◌, ◌≤◌, [], None, IfOk, IsTrue, OnErr, OnOk, length};
ghost use Rattle.std.specs.Option.{option_copied};
ghost use Rattle.s38_dataspaces.specs.Table.{are_fields};
ghost use Rattle.s38_rules.specs.families.DataSpaces.{attributes_of, created_data_space, crtds_changes, crtds_fails, new_data_space, proper_fields};
ghost use Rattle.s38_rules.specs.families.Cursors.{block_needs, created_cursor, crtcr_changes, crtcr_fails, crtcr_needs, new_cursor};

use s38_base::{Attr, AttrList, Exception, Kind, NoMemory, ObjNum, Rights, Seq};
use s38_changes::{creation_changes, creation_fails, creation_needs, in_context};
use s38_code::Operand;
use s38_dataspaces::{DataSpace, are_fields};
use s38_invoke::{Core, Profiles};
use s38_objects::Objects;
use s38_operands::{Needs, is_given, on_object, place, target};
use s38_rules::{Body, Creating, Cursor, DataBody, Sought};
use std::alloc::Global;

// ---- CRTDS

pub fn created_data_space(objects: &Objects, operands: &[Operand]) -> Creating
    ensures { result ≡ created_data_space objects.now operands.now }
{
    in_context(Kind::DataSpace, 1, objects, operands)
}

#[tactic(auto, unfolding(s38_rules::specs::families::DataSpaces::crtds_fails))]
pub fn crtds_fails(
    world: &Core<Objects, Profiles>,
    process: u32,
    operands: &[Operand],
) -> Option<Exception>
    ensures { result ≡ crtds_fails world.now process operands.now }
{
    let created = created_data_space(&world.objects, operands);
    creation_fails(world, world.user_of(process), &created, None)
}

fn attributes_of(operand: Option<&Operand>) -> &[Attr]
    ensures { result.now ≡ attributes_of (option_copied operand.entry) }
{
    match operand {
        Some(Operand::Attrs(attributes)) => attributes.as_slice(),
        _ => &[],
    }
}

/// Fields that a data space may have; for others one byte.
fn proper_fields(alloc: Global, attributes: &[Attr]) -> Result<AttrList, NoMemory>
    ensures fields { IfOk result (λ fields. fields ≡ proper_fields attributes.now) }
    ensures fit { IfOk result (λ fields. IsTrue (are_fields fields)) }
{
    if are_fields(attributes) {
        Seq::from_slice(alloc, attributes)
    } else {
        Seq::from_slice(alloc, &[Attr::Chars { len: 1 }])
    }
}

/// A data space of the fields that operand 5 says, without an entry.
fn new_data_space(alloc: Global, operands: &[Operand]) -> Result<DataBody, NoMemory>
    ensures { IfOk result (λ made. made ≡ new_data_space operands.now) }
{
    let fields = proper_fields(alloc, attributes_of(place(operands, 5)))?;
    Ok(DataBody {
        space: DataSpace::new(alloc, fields),
        port: ObjNum(0),
    })
}

#[tactic(auto, using(crate::proofs::CursorLaws::crtds_created, s38_changes::proofs::CreationLaws::home_placed))]
pub fn crtds(
    alloc: Global,
    world: &mut Core<Objects, Profiles>,
    process: u32,
    operands: &[Operand],
) -> Result<(), NoMemory>
    requires { crtds_fails world.old process operands.now ≡ None }
    ensures ok { OnOk result (world.new ≡ done world.old process (crtds_changes world.old process operands.now)) }
    ensures err { OnErr result (world.new ≡ world.old) }
{
    let owner = world.user_of(process);
    let created = created_data_space(&world.objects, operands);
    match new_data_space(alloc, operands) {
        Ok(made) => creation_changes(alloc, world, owner, &created, Body::DataSpace(made)),
        Err(fault) => Err(fault),
    }
}

// ---- CRTCR

pub fn created_cursor(objects: &Objects, operands: &[Operand]) -> Creating
    ensures { result ≡ created_cursor objects.now operands.now }
{
    in_context(Kind::Cursor, 1, objects, operands)
}

/// UPDATE on the commit block, where one is given.
#[tactic(auto, unfolding(s38_rules::specs::families::Cursors::block_needs))]
fn block_needs(operands: &[Operand]) -> Needs
    ensures needs { result ≡ block_needs operands.now }
    ensures few { length result ≤ 1 }
{
    if is_given(operands, 6) {
        on_object(6, Sought::Of(Kind::Block), Rights::UPDATE, None)
    } else {
        Needs::none()
    }
}

/// INSERT on the context, RETRIEVE on the data space, and what the commit block needs.
#[tactic(auto, unfolding(s38_rules::specs::families::Cursors::crtcr_needs, s38_rules::specs::families::Creation::creation_needs))]
pub fn crtcr_needs(operands: &[Operand]) -> Needs
    ensures { result ≡ crtcr_needs operands.now }
{
    let space = on_object(5, Sought::Of(Kind::DataSpace), Rights::RETRIEVE, None);
    creation_needs(operands).and(space.and(block_needs(operands)))
}

#[tactic(auto, unfolding(s38_rules::specs::families::Cursors::crtcr_fails))]
pub fn crtcr_fails(
    world: &Core<Objects, Profiles>,
    process: u32,
    operands: &[Operand],
) -> Option<Exception>
    ensures { result ≡ crtcr_fails world.now process operands.now }
{
    let created = created_cursor(&world.objects, operands);
    creation_fails(world, world.user_of(process), &created, None)
}

/// A cursor before the first entry of the data space that operand 5 names.
fn new_cursor(objects: &Objects, operands: &[Operand]) -> Cursor
    ensures { result ≡ new_cursor objects.now operands.now }
{
    Cursor {
        space: target(objects, operands, 5),
        block: target(objects, operands, 6),
        position: 0,
    }
}

#[tactic(auto, using(crate::proofs::CursorLaws::crtcr_created, s38_changes::proofs::CreationLaws::home_placed))]
pub fn crtcr(
    alloc: Global,
    world: &mut Core<Objects, Profiles>,
    process: u32,
    operands: &[Operand],
) -> Result<(), NoMemory>
    requires { crtcr_fails world.old process operands.now ≡ None }
    ensures ok { OnOk result (world.new ≡ done world.old process (crtcr_changes world.old process operands.now)) }
    ensures err { OnErr result (world.new ≡ world.old) }
{
    let owner = world.user_of(process);
    let created = created_cursor(&world.objects, operands);
    let cursor = new_cursor(&world.objects, operands);
    creation_changes(alloc, world, owner, &created, Body::Cursor(cursor))
}
