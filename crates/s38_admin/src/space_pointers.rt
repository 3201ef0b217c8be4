//! Pointers into spaces: set, and copied with their tags.
ghost use Rattle.s38_rules.specs.ask.Operands.{cells_put, place, source_cells};
ghost use Rattle.std.specs.Prelude.{◌≡◌, IfOk, OnOk, OnErr};
ghost use Rattle.std.specs.Option.{option_copied};
ghost use Rattle.s38_rules.specs.families.SpacePointers.{cpybwp_fails, cpybwp_gives, is_unaligned, setdp_fails, setdp_gives, setsppfp_gives};

use s38_base::exceptions::{BOUNDARY_ALIGNMENT, SPACE_ADDRESSING};
use s38_base::{Exception, HeldPointer, NoMemory, Pointer};
use s38_changes::put_cells;
use s38_code::{Operand, Val};
use s38_invoke::{Core, Profiles};
use s38_objects::Objects;
use s38_operands::{
    attr_at, fails, first_pointer, is_aligned, is_in_space, is_within, place, pointer_at,
    source_cells, target,
};
use std::alloc::Global;

// ---- pointers into spaces

/// A pointer to the first byte of the space.
#[tactic(auto, unfolding(s38_rules::specs::families::SpacePointers::setsppfp_gives))]
pub fn setsppfp_gives(objects: &Objects, operands: &[Operand]) -> Val
    ensures { result ≡ setsppfp_gives objects.now operands.now }
{
    match pointer_at(objects, operands, 2) {
        None => Val::Ptr(HeldPointer::of(None)),
        Some(pointer) => Val::Ptr(HeldPointer::of(Some(Pointer::Space {
            object: pointer.object(),
            offset: 0,
        }))),
    }
}

/// The item lies inside the space.
#[tactic(auto, unfolding(s38_rules::specs::families::SpacePointers::setdp_fails))]
pub fn setdp_fails(objects: &Objects, operands: &[Operand]) -> Option<Exception>
    ensures { result ≡ setdp_fails objects.now operands.now }
{
    let at = Pointer::start(pointer_at(objects, operands, 2), 0);
    let space = objects.space(target(objects, operands, 2));
    let len = attr_at(operands, 3).length();
    fails(!is_within(space, at, len), SPACE_ADDRESSING, 2)
}

/// A pointer to an item of the attribute.
#[tactic(auto, unfolding(s38_rules::specs::families::SpacePointers::setdp_gives))]
pub fn setdp_gives(objects: &Objects, operands: &[Operand]) -> Val
    ensures { result ≡ setdp_gives objects.now operands.now }
{
    match pointer_at(objects, operands, 2) {
        None => Val::Ptr(HeldPointer::of(None)),
        Some(pointer) => Val::Ptr(HeldPointer::of(Some(Pointer::Item {
            object: pointer.object(),
            offset: pointer.offset(),
            attr: attr_at(operands, 3),
        }))),
    }
}

// ---- CPYBWP

fn is_unaligned(operand: Option<&Operand>) -> bool
    ensures { result ≡ is_unaligned (option_copied operand.entry) }
{
    match operand {
        Some(Operand::InSpace { base, offset, .. }) => !is_aligned(Pointer::start(
            base.get(),
            *offset,
        )),
        _ => false,
    }
}

/// What is copied, and where it goes, begins with a cell.
#[tactic(auto, unfolding(s38_rules::specs::families::SpacePointers::cpybwp_fails))]
pub fn cpybwp_fails(operands: &[Operand]) -> Option<Exception>
    ensures { result ≡ cpybwp_fails operands.now }
{
    if is_unaligned(place(operands, 1)) {
        return Some(Exception::plain(BOUNDARY_ALIGNMENT, 1));
    }
    fails(is_unaligned(place(operands, 2)), BOUNDARY_ALIGNMENT, 2)
}

/// A variable gets the pointer of the cell.
#[tactic(auto, unfolding(s38_rules::specs::families::SpacePointers::cpybwp_gives))]
pub fn cpybwp_gives(
    alloc: Global,
    objects: &Objects,
    operands: &[Operand],
) -> Result<Option<Val>, NoMemory>
    ensures { IfOk result (λ value. value ≡ cpybwp_gives objects.now operands.now) }
{
    if is_in_space(place(operands, 1)) {
        return Ok(None);
    }
    let cells = source_cells(alloc, objects, operands, 2)?;
    Ok(Some(Val::Ptr(HeldPointer::of(first_pointer(cells.as_slice())))))
}

/// Cells go with their tags into the space.
pub fn cpybwp(
    alloc: Global,
    world: &mut Core<Objects, Profiles>,
    operands: &[Operand],
) -> Result<(), NoMemory>
    ensures ok { OnOk result (world.new ≡ record world.old { held = cells_put world.old.held (place operands.now 1) (source_cells world.old.held operands.now 2) }) }
    ensures err { OnErr result (world.new ≡ world.old) }
{
    match source_cells(alloc, &world.objects, operands, 2) {
        Ok(cells) => {
            put_cells(world, place(operands, 1), cells.as_slice());
            Ok(())
        }
        Err(fault) => Err(fault),
    }
}
