//! What is written into spaces, and their lengths.
ghost use Rattle.std.specs.Prelude.{◌≡◌, ◌≤◌, ◌%◌, All, OnErr, OnOk, None, true};
ghost use Rattle.std.specs.Option.{option_copied};
ghost use Rattle.s38_memory.specs.Cell.{IsCell};
ghost use Rattle.s38_memory.specs.Tagged.{resized};
ghost use Rattle.s38_rules.specs.state.Cells.{with_bytes, with_cells, with_pointer};
ghost use Rattle.s38_rules.specs.ask.Operands.{cells_put};
ghost use Rattle.s38_rules.specs.ask.Receivers.{put_value};
ghost use Rattle.s38_rules.specs.state.PartsAt.{on_space};
ghost use Rattle.s38_rules.specs.families.Spaces.{is_space_length, owner_pays, pages_for_length};

use crate::users::pay_otherwise;
use s38_base::{NoMemory, ObjNum, Pointer};
use s38_code::{Operand, Val};
use s38_invoke::{Core, Profiles};
use s38_memory::Cell;
use s38_objects::{Objects, pages};
use s38_operands::{copy_cells, resize_cells, set_cells, write_cells};
use s38_rules::Body;

fn write(objects: &mut Objects, number: ObjNum, at: u64, bytes: &[u8])
    ensures { objects.new ≡ on_space objects.old number.0 (with_bytes at bytes.now) }
{
    let Some(cells) = objects.space_mut(number) else {
        return;
    };
    write_cells(cells, at, bytes);
}

fn set_pointer(objects: &mut Objects, number: ObjNum, at: u64, pointer: Option<Pointer>)
    ensures { objects.new ≡ on_space objects.old number.0 (with_pointer at pointer) }
{
    let Some(cells) = objects.space_mut(number) else {
        return;
    };
    set_cells(cells, at, pointer);
}

fn copy_in(objects: &mut Objects, number: ObjNum, at: u64, piece: &[Cell])
    requires { All IsCell piece.now }
    ensures { objects.new ≡ on_space objects.old number.0 (with_cells at piece.now) }
{
    let Some(cells) = objects.space_mut(number) else {
        return;
    };
    copy_cells(cells, at, piece);
}

/// Puts a value into the space of a number.
pub fn put_value(world: &mut Core<Objects, Profiles>, number: ObjNum, at: u64, value: &Val)
    ensures { world.new ≡ record world.old { held = put_value world.old.held number.0 at value.now } }
{
    match value {
        Val::Bytes(bytes) => write(&mut world.objects, number, at, bytes.as_slice()),
        Val::Ptr(pointer) => set_pointer(&mut world.objects, number, at, pointer.get()),
        _ => {}
    }
}

/// Cells go with their tags into the space of a receiver that lies in one.
pub fn put_cells(world: &mut Core<Objects, Profiles>, receiver: Option<&Operand>, cells: &[Cell])
    requires { All IsCell cells.now }
    ensures { world.new ≡ record world.old { held = cells_put world.old.held (option_copied receiver.entry) cells.now } }
{
    match receiver {
        Some(Operand::InSpace { base, offset, .. }) => {
            let at = Pointer::start(base.get(), *offset);
            copy_in(&mut world.objects, Pointer::target(base.get()), at, cells);
        }
        _ => {}
    }
}

/// The pages of a space of so many bytes.
pub fn pages_for_length(len: u32) -> u64
    ensures { result ≡ pages_for_length len }
{
    1 + (16 * (u64::from(len) / 16) + 511) / 512
}

fn resize_in(objects: &mut Objects, number: ObjNum, len: u32) -> Result<(), NoMemory>
    requires whole { len % 16 ≡ 0 }
    requires some { 16 ≤ len }
    requires most { len ≤ 16777216 }
    ensures ok { OnOk result (objects.new ≡ on_space objects.old number.0 (resized len)) }
    ensures err { OnErr result (objects.new ≡ objects.old) }
{
    let Some(cells) = objects.space_mut(number) else {
        return Ok(());
    };
    resize_cells(cells, len)
}

/// A space has this length, cut or lengthened by zero bytes, and its owner pays for it; where memory is refused
/// nothing changes.
pub fn resize(world: &mut Core<Objects, Profiles>, number: ObjNum, len: u32) -> Result<(), NoMemory>
    requires length { is_space_length world.old.limit len ≡ true }
    requires paid { owner_pays world.old.held number.0 (pages_for_length len) ≡ None }
    ensures ok { OnOk result (world.new ≡ record world.old { held = on_space world.old.held number.0 (resized len) }) }
    ensures err { OnErr result (world.new ≡ world.old) }
{
    let Some(object) = world.objects.get(number) else {
        return Ok(());
    };
    let owner = object.owner;
    let before = pages(&object.body);
    let Body::Space(_) = &object.body else {
        return Ok(());
    };
    // Its contract says that numbers rise and were given.
    let _count = world.objects.len();
    // A limit is a number of 32 bits, so no charge is too large.
    let _limit = world.profiles.limit(owner);
    match resize_in(&mut world.objects, number, len) {
        Ok(()) => {}
        Err(fault) => return Err(fault),
    }
    pay_otherwise(&mut world.profiles, owner, before, pages_for_length(len));
    Ok(())
}
