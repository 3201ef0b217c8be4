//! Journal spaces, ports and commit blocks are made.
ghost use Rattle.s38_rules.specs.families.Changes.{done};
ghost use Rattle.std.specs.Prelude.{◌≡◌, ◌≤◌, None, OnErr, OnOk, length};
ghost use Rattle.s38_rules.specs.families.Journals.{created_journal, crtjs_changes, crtjs_fails};
ghost use Rattle.s38_rules.specs.families.CommitBlocks.{crtcb_changes, crtcb_fails, crtcb_needs, created_block, new_block};
ghost use Rattle.s38_rules.specs.families.Ports.{created_port, crtjp_changes, crtjp_fails, crtjp_needs, new_port};

use crate::objects::is_attached;
use s38_base::exceptions::OBJECT_IN_USE;
use s38_base::{Exception, Kind, NoMemory, Rights};
use s38_changes::{creation_changes, creation_fails, creation_needs, in_context};
use s38_code::Operand;
use s38_invoke::{Core, Profiles};
use s38_journals::Journal;
use s38_objects::Objects;
use s38_operands::{Needs, fails, on_object, target};
use s38_rules::{Block, Body, Creating, Port, Sought};
use std::alloc::Global;

// ---- CRTJS

pub fn created_journal(objects: &Objects, operands: &[Operand]) -> Creating
    ensures { result ≡ created_journal objects.now operands.now }
{
    in_context(Kind::Journal, 1, objects, operands)
}

#[tactic(auto, unfolding(s38_rules::specs::families::Journals::crtjs_fails))]
pub fn crtjs_fails(
    world: &Core<Objects, Profiles>,
    process: u32,
    operands: &[Operand],
) -> Option<Exception>
    ensures { result ≡ crtjs_fails world.now process operands.now }
{
    let created = created_journal(&world.objects, operands);
    creation_fails(world, world.user_of(process), &created, None)
}

/// A journal space without an entry.
#[tactic(auto, using(crate::proofs::CommitmentLaws::crtjs_created, s38_changes::proofs::CreationLaws::home_placed))]
pub fn crtjs(
    alloc: Global,
    world: &mut Core<Objects, Profiles>,
    process: u32,
    operands: &[Operand],
) -> Result<(), NoMemory>
    requires { crtjs_fails world.old process operands.now ≡ None }
    ensures ok { OnOk result (world.new ≡ done world.old process (crtjs_changes world.old process operands.now)) }
    ensures err { OnErr result (world.new ≡ world.old) }
{
    let owner = world.user_of(process);
    let created = created_journal(&world.objects, operands);
    let journal = Journal::new(alloc);
    creation_changes(alloc, world, owner, &created, Body::Journal(journal))
}

// ---- CRTJP

pub fn created_port(objects: &Objects, operands: &[Operand]) -> Creating
    ensures { result ≡ created_port objects.now operands.now }
{
    in_context(Kind::Port, 1, objects, operands)
}

/// INSERT on the context, and on the journal space.
#[tactic(auto, unfolding(s38_rules::specs::families::Ports::crtjp_needs, s38_rules::specs::families::Creation::creation_needs))]
pub fn crtjp_needs(operands: &[Operand]) -> Needs
    ensures { result ≡ crtjp_needs operands.now }
{
    let journal = on_object(5, Sought::Of(Kind::Journal), Rights::INSERT, None);
    creation_needs(operands).and(journal)
}

/// No port leads to the journal space yet.
#[tactic(auto, unfolding(s38_rules::specs::families::Ports::crtjp_fails))]
pub fn crtjp_fails(
    world: &Core<Objects, Profiles>,
    process: u32,
    operands: &[Operand],
) -> Option<Exception>
    ensures { result ≡ crtjp_fails world.now process operands.now }
{
    let objects = &world.objects;
    let created = created_port(objects, operands);
    let is_attached = is_attached(objects, target(objects, operands, 5));
    let own = fails(is_attached, OBJECT_IN_USE, 5);
    creation_fails(world, world.user_of(process), &created, own)
}

fn new_port(objects: &Objects, operands: &[Operand]) -> Port
    ensures { result ≡ new_port objects.now operands.now }
{
    Port {
        journal: target(objects, operands, 5),
    }
}

/// A port to the journal space that operand 5 names.
#[tactic(auto, using(crate::proofs::CommitmentLaws::crtjp_created, s38_changes::proofs::CreationLaws::home_placed))]
pub fn crtjp(
    alloc: Global,
    world: &mut Core<Objects, Profiles>,
    process: u32,
    operands: &[Operand],
) -> Result<(), NoMemory>
    requires { crtjp_fails world.old process operands.now ≡ None }
    ensures ok { OnOk result (world.new ≡ done world.old process (crtjp_changes world.old process operands.now)) }
    ensures err { OnErr result (world.new ≡ world.old) }
{
    let owner = world.user_of(process);
    let created = created_port(&world.objects, operands);
    let port = new_port(&world.objects, operands);
    creation_changes(alloc, world, owner, &created, Body::Port(port))
}

// ---- CRTCB

pub fn created_block(objects: &Objects, operands: &[Operand]) -> Creating
    ensures { result ≡ created_block objects.now operands.now }
{
    in_context(Kind::Block, 1, objects, operands)
}

/// INSERT on the context, and on the port.
#[tactic(auto, unfolding(s38_rules::specs::families::CommitBlocks::crtcb_needs, s38_rules::specs::families::Creation::creation_needs))]
pub fn crtcb_needs(operands: &[Operand]) -> Needs
    ensures { result ≡ crtcb_needs operands.now }
{
    let port = on_object(5, Sought::Of(Kind::Port), Rights::INSERT, None);
    creation_needs(operands).and(port)
}

#[tactic(auto, unfolding(s38_rules::specs::families::CommitBlocks::crtcb_fails))]
pub fn crtcb_fails(
    world: &Core<Objects, Profiles>,
    process: u32,
    operands: &[Operand],
) -> Option<Exception>
    ensures { result ≡ crtcb_fails world.now process operands.now }
{
    let created = created_block(&world.objects, operands);
    creation_fails(world, world.user_of(process), &created, None)
}

fn new_block(objects: &Objects, operands: &[Operand]) -> Block
    ensures { result ≡ new_block objects.now operands.now }
{
    Block {
        port: target(objects, operands, 5),
    }
}

/// A commit block over the port that operand 5 names.
#[tactic(auto, using(crate::proofs::CommitmentLaws::crtcb_created, s38_changes::proofs::CreationLaws::home_placed))]
pub fn crtcb(
    alloc: Global,
    world: &mut Core<Objects, Profiles>,
    process: u32,
    operands: &[Operand],
) -> Result<(), NoMemory>
    requires { crtcb_fails world.old process operands.now ≡ None }
    ensures ok { OnOk result (world.new ≡ done world.old process (crtcb_changes world.old process operands.now)) }
    ensures err { OnErr result (world.new ≡ world.old) }
{
    let owner = world.user_of(process);
    let created = created_block(&world.objects, operands);
    let block = new_block(&world.objects, operands);
    creation_changes(alloc, world, owner, &created, Body::Block(block))
}
