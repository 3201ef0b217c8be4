//! What is read of cursors and of data spaces. What is no cursor reads as one of no data space, and what is no data
//! space as one without fields and entries.
ghost use Rattle.std.specs.Prelude.{◌≡◌, ◌+◌, ◌≤◌, length};
ghost use Rattle.std.specs.Option.{option_copied, option_map, unwrap_or};
ghost use Rattle.s38_commits.specs.Changes.{entry_size};
ghost use Rattle.s38_dataspaces.specs.Entries.{entry_at};
ghost use Rattle.s38_dataspaces.specs.Seeks.{sought};
ghost use Rattle.s38_dataspaces.specs.Table.{data_space_image_size, entry_len};
ghost use Rattle.s38_rules.specs.families.EntryChanges.{next_ordinal};
ghost use Rattle.s38_rules.specs.families.CursorSeeks.{occupied};
ghost use Rattle.s38_rules.specs.families.Cursors.{cursor_named, table_of};
ghost use Rattle.s38_rules.specs.state.Journaling.{journal_for};
ghost use Rattle.s38_rules.specs.state.PartsAt.{cursor_at, no_table, table_at};

use s38_base::{Attr, ObjNum, Seek};
use s38_code::Operand;
use s38_dataspaces::DataSpace;
use s38_invoke::{Core, Profiles};
use s38_objects::Objects;
use s38_operands::target;
use s38_rules::Cursor;
use s38_units::journal_for;

/// The image of a data space without fields, in bytes.
const SMALLEST_IMAGE: u32 = 22;

fn cursor_at(objects: &Objects, number: ObjNum) -> Cursor
    ensures { result ≡ cursor_at objects.now number.0 }
{
    match objects.cursor(number) {
        Some(cursor) => *cursor,
        None => Cursor {
            space: ObjNum(0),
            block: ObjNum(0),
            position: 0,
        },
    }
}

/// The cursor that an operand names.
pub fn cursor_of(objects: &Objects, operands: &[Operand], k: usize) -> Cursor
    ensures { result ≡ cursor_named objects.now operands.now k }
{
    cursor_at(objects, target(objects, operands, k))
}

/// The data space of a number.
pub fn table_at(objects: &Objects, number: ObjNum) -> Option<&DataSpace>
    ensures { unwrap_or (option_copied result) no_table ≡ table_at objects.now number.0 }
{
    match objects.data_space(number) {
        Some(held) => Some(&held.space),
        None => None,
    }
}

/// The data space that the cursor of an operand goes through.
fn table_of<'a>(objects: &'a Objects, operands: &[Operand], k: usize) -> Option<&'a DataSpace>
    ensures { unwrap_or (option_copied result) no_table ≡ table_of objects.now operands.now k }
{
    table_at(objects, cursor_of(objects, operands, k).space)
}

/// The attributes of the fields.
pub fn fields_in(table: Option<&DataSpace>) -> &[Attr]
    ensures { result.now ≡ (unwrap_or (option_copied table.entry) no_table).fields }
{
    match table {
        Some(table) => table.fields().as_slice(),
        None => &[],
    }
}

/// How many bytes an entry has.
pub fn entry_len_in(table: Option<&DataSpace>) -> usize
    ensures len { result ≡ entry_len (unwrap_or (option_copied table.entry) no_table).fields }
    ensures bound { result ≤ 4096 }
{
    match table {
        Some(table) => table.entry_len(),
        None => 0,
    }
}

/// How many bytes the image has.
fn image_len_in(table: Option<&DataSpace>) -> u32
    ensures size { result ≡ data_space_image_size (unwrap_or (option_copied table.entry) no_table).fields (length (unwrap_or (option_copied table.entry) no_table).entries) }
    ensures bound { result ≤ 16777216 }
{
    match table {
        Some(table) => table.image_len(),
        None => SMALLEST_IMAGE,
    }
}

/// How many bytes the image has with one entry more.
#[tactic(auto, using(crate::proofs::CursorLaws::image_grown))]
pub fn grown_image_in(table: Option<&DataSpace>) -> u32
    ensures { result ≡ data_space_image_size (unwrap_or (option_copied table.entry) no_table).fields (length (unwrap_or (option_copied table.entry) no_table).entries + 1) }
{
    image_len_in(table) + (1 + entry_len_in(table) as u32)
}

/// The ordinal of the next entry.
#[tactic(auto, using(crate::proofs::CursorLaws::ordinals_few))]
pub fn next_ordinal_in(table: Option<&DataSpace>) -> u32
    ensures { result ≡ next_ordinal (unwrap_or (option_copied table.entry) no_table) }
{
    match table {
        Some(table) => {
            // Its contract says that there are not too many.
            let _size = table.image_len();
            table.ordinals() + 1
        }
        None => 1,
    }
}

/// The entry of an ordinal; None where it is deleted, and where there is no such ordinal.
pub fn entry_in(table: Option<&DataSpace>, at: u32) -> Option<&[u8]>
    ensures { option_copied result ≡ entry_at (unwrap_or (option_copied table.entry) no_table).entries at }
{
    match table {
        Some(table) => table.get(at),
        None => None,
    }
}

/// How many bytes the entry of an ordinal has; 0 where there is none.
pub fn len_at_ordinal(table: Option<&DataSpace>, at: u32) -> usize
    ensures len { result ≡ entry_size (entry_at (unwrap_or (option_copied table.entry) no_table).entries at) }
    ensures bound { result ≤ 4096 }
{
    let Some(table) = table else {
        return 0;
    };
    // Its contract says how long an entry is at most.
    let _width = table.entry_len();
    match table.get(at) {
        Some(entry) => entry.len(),
        None => 0,
    }
}

/// The ordinal of the entry that is sought.
#[tactic(auto, using(crate::proofs::CursorLaws::nowhere))]
pub fn sought_in(table: Option<&DataSpace>, how: Seek, from: u32) -> Option<u32>
    ensures { result ≡ sought (occupied (unwrap_or (option_copied table.entry) no_table).entries) how from }
{
    match table {
        Some(table) => table.seek(how, from),
        None => None,
    }
}

/// An ordinal that has an entry; a number that no ordinal reaches is none.
#[tactic(auto, using(crate::proofs::CursorLaws::nowhere, crate::proofs::CursorLaws::too_far))]
pub fn ordinal_in(table: Option<&DataSpace>, ordinal: u128) -> Option<u32>
    ensures { result ≡ sought (occupied (unwrap_or (option_copied table.entry) no_table).entries) Seek.At ordinal }
{
    match table {
        Some(table) => {
            if ordinal > u128::from(table.ordinals()) {
                return None;
            }
            table.seek(Seek::At, ordinal as u32)
        }
        None => None,
    }
}

// ---- in a world

/// The cursor that an operand names.
pub fn cursor_in(world: &Core<Objects, Profiles>, operands: &[Operand], k: usize) -> Cursor
    ensures { result ≡ cursor_named world.now.held operands.now k }
{
    cursor_of(&world.objects, operands, k)
}

/// The ordinal of the next entry of the data space of the cursor of operand 1.
pub fn next_ordinal_at(world: &Core<Objects, Profiles>, operands: &[Operand]) -> u32
    ensures { result ≡ next_ordinal (table_of world.now.held operands.now 1) }
{
    next_ordinal_in(table_of(&world.objects, operands, 1))
}

/// The journal space of the data space of a number; None exactly where it is not journaled.
pub fn journal_in(world: &Core<Objects, Profiles>, space: ObjNum) -> Option<ObjNum>
    ensures { option_map (λ journal. journal.0) result ≡ journal_for world.now.held space.0 }
{
    journal_for(&world.objects, space)
}
