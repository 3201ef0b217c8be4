//! The family of data spaces and cursors: made and destroyed; a cursor set; entries inserted, read, updated and deleted
//! where it is.
ghost use Rattle.s38_rules.specs.families.Changes.{done};
ghost use Rattle.std.specs.Prelude.{◌≡◌, None, IfOk, OnErr, OnOk};
ghost use Rattle.s38_rules.specs.families.DataSpaces.{data_spaces_row};
ghost use Rattle.s38_rules.specs.families.Cursors.{through_cursor};

use crate::creation::{
    created_cursor, created_data_space, crtcr, crtcr_fails, crtcr_needs, crtds, crtds_fails,
};
use crate::entries::{deldsen, insdsen, retdsen_gives, updsen};
use crate::entry_rules::{current_fails, desds_fails, insdsen_fails, retdsen_fails, updsen_fails};
use crate::reads::cursor_of;
use crate::seeking::{setcr, setcr_fails};
use s38_base::{Category, Exception, Kind, NoMemory, Op, Rights};
use s38_changes::{creation_gives, creation_needs, destroy, destruction_needs};
use s38_code::{Operand, Val};
use s38_invoke::{Core, Profiles};
use s38_objects::Objects;
use s38_operands::{Act, Needs, on_implied, on_object};
use s38_rules::Sought;
use std::alloc::Global;

/// RETRIEVE on the cursor, and a right on its data space, which no operand names.
#[tactic(auto, unfolding(s38_rules::specs::families::Cursors::through_cursor))]
fn through_cursor(
    objects: &Objects,
    operands: &[Operand],
    k: u8,
    on_itself: Category,
    right: Rights,
    on_space: Category,
) -> Needs
    ensures { result ≡ through_cursor objects.now operands.now k on_itself right.0 on_space }
{
    let space = cursor_of(objects, operands, usize::from(k)).space;
    let cursor = Sought::Of(Kind::Cursor);
    on_object(k, cursor, Rights::RETRIEVE, Some(on_itself)).and(on_implied(
        space,
        Sought::Of(Kind::DataSpace),
        right,
        Some(on_space),
    ))
}

/// What an instruction of data spaces needs.
#[tactic(auto, unfolding(s38_rules::specs::families::DataSpaces::data_spaces_row))]
pub fn needs(world: &Core<Objects, Profiles>, act: Act<'_>) -> Needs
    ensures { result ≡ (data_spaces_row act.entry.request.now.op).needs world.now act.entry.process act.entry.depth act.entry.request.now }
{
    let objects = &world.objects;
    let operands = act.request.operands.as_slice();
    match act.request.op {
        Op::Crtds => creation_needs(operands),
        Op::Crtcr => crtcr_needs(operands),
        Op::Desds => destruction_needs(Kind::DataSpace),
        Op::Descr => destruction_needs(Kind::Cursor),
        Op::Setcr => through_cursor(
            objects,
            operands,
            1,
            Category::Change,
            Rights::RETRIEVE,
            Category::Read,
        ),
        Op::Retdsen => through_cursor(
            objects,
            operands,
            2,
            Category::Read,
            Rights::RETRIEVE,
            Category::Read,
        ),
        Op::Insdsen => changing_needs(objects, operands, Rights::INSERT),
        Op::Updsen => changing_needs(objects, operands, Rights::UPDATE),
        Op::Deldsen => changing_needs(objects, operands, Rights::DELETE),
        _ => Needs::none(),
    }
}

/// What a change of entries needs: both the cursor and its data space are changed.
fn changing_needs(objects: &Objects, operands: &[Operand], right: Rights) -> Needs
    ensures { result ≡ through_cursor objects.now operands.now 1 Category.Change right.0 Category.Change }
{
    through_cursor(
        objects,
        operands,
        1,
        Category::Change,
        right,
        Category::Change,
    )
}

/// The first of its conditions and limits that fails.
#[tactic(auto, unfolding(s38_rules::specs::families::DataSpaces::data_spaces_row))]
pub fn conditions(world: &Core<Objects, Profiles>, act: Act<'_>) -> Option<Exception>
    ensures { result ≡ (data_spaces_row act.entry.request.now.op).fails world.now act.entry.process act.entry.depth act.entry.request.now }
{
    let objects = &world.objects;
    let operands = act.request.operands.as_slice();
    match act.request.op {
        Op::Crtds => crtds_fails(world, act.process, operands),
        Op::Crtcr => crtcr_fails(world, act.process, operands),
        Op::Setcr => setcr_fails(objects, operands),
        Op::Desds => desds_fails(world, operands),
        Op::Insdsen => insdsen_fails(world, act.process, operands),
        Op::Retdsen => retdsen_fails(world, act.process, operands),
        Op::Updsen => updsen_fails(world, act.process, operands),
        Op::Deldsen => current_fails(world, act.process, operands, 0),
        _ => None,
    }
}

/// The value for its receiver.
#[tactic(auto, unfolding(s38_rules::specs::families::DataSpaces::data_spaces_row))]
pub fn value(
    alloc: Global,
    world: &Core<Objects, Profiles>,
    act: Act<'_>,
) -> Result<Option<Val>, NoMemory>
    ensures { IfOk result (λ value. value ≡ (data_spaces_row act.entry.request.now.op).gives world.now act.entry.process act.entry.depth act.entry.request.now) }
{
    let objects = &world.objects;
    let operands = act.request.operands.as_slice();
    match act.request.op {
        Op::Crtds => Ok(Some(creation_gives(objects, &created_data_space(objects, operands)))),
        Op::Crtcr => Ok(Some(creation_gives(objects, &created_cursor(objects, operands)))),
        Op::Retdsen => Ok(Some(retdsen_gives(alloc, objects, operands)?)),
        _ => Ok(None),
    }
}

/// What it changes, where it doesn't fail; where memory is refused nothing changes.
#[tactic(auto, unfolding(s38_rules::specs::families::DataSpaces::data_spaces_row))]
pub fn apply(
    alloc: Global,
    world: &mut Core<Objects, Profiles>,
    act: Act<'_>,
) -> Result<(), NoMemory>
    requires { (data_spaces_row act.request.now.op).fails world.old act.process act.depth act.request.now ≡ None }
    ensures ok { OnOk result (world.new ≡ done world.old act.entry.process ((data_spaces_row act.entry.request.now.op).changes world.old act.entry.process act.entry.depth act.entry.request.now)) }
    ensures err { OnErr result (world.new ≡ world.old) }
{
    let operands = act.request.operands.as_slice();
    match act.request.op {
        Op::Crtds => crtds(alloc, world, act.process, operands),
        Op::Crtcr => crtcr(alloc, world, act.process, operands),
        Op::Desds => {
            destroy(world, Kind::DataSpace, operands);
            Ok(())
        }
        Op::Descr => {
            destroy(world, Kind::Cursor, operands);
            Ok(())
        }
        Op::Setcr => {
            setcr(world, operands);
            Ok(())
        }
        Op::Insdsen => insdsen(alloc, world, act.process, operands),
        Op::Updsen => updsen(alloc, world, act.process, operands),
        Op::Deldsen => deldsen(alloc, world, act.process, operands),
        _ => Ok(()),
    }
}
