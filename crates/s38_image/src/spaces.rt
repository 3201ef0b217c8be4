//! The body of a space: its cells, under the tags of its pages.
ghost use Rattle.std.specs.Prelude.{◌≡◌, ◌==◌, ◌≤◌, ◌<◌, ◌^◌, All, IfOk, None, Some, false, length, map, slice_get, take, if◌then◌else◌};
ghost use Rattle.s38_codec.specs.Codec.{whole};
ghost use Rattle.s38_codec.specs.Reading.{Gives};
ghost use Rattle.s38_image.specs.Pages.{same_list};
ghost use Rattle.s38_image.specs.Spaces.{cell as cell_format, cells_by, flags_in, is_tagged, space_form, tag_number, tag_numbers};
ghost use Rattle.s38_memory.specs.Cell.{IsCell};

use crate::part_places::PAGE_CELLS;
use crate::scalars::pointer_at;
use s38_codec::{ReadFault, bytes_at};
use s38_memory::{Cell, Tagged};
use std::alloc::Global;

/// How many bytes a cell has.
const CELL: usize = 16;
/// How many cells a space has at most.
const MOST_CELLS: usize = 1_048_576;

/// Whether a cell is a pointer, by the tags of the pages; None past the last page.
fn flag_at(tags: &[u32], at: usize) -> Option<bool>
    ensures { result ≡ slice_get (flags_in tags.now) at }
{
    match tags.get(at / PAGE_CELLS) {
        Some(page) => Some((*page >> (at % PAGE_CELLS)) % 2 == 1),
        None => None,
    }
}

/// A cell of sixteen bytes.
fn plain_at(from: &[u8]) -> Result<(Cell, &[u8]), ReadFault>
    ensures read { Gives (λ x. (x.0, x.1.now)) result ((cell_format false).read from.now) }
    ensures cell { IfOk result (λ x. IsCell x.0) }
{
    let (bytes, rest) = bytes_at(CELL, from)?;
    let mut cell = [0; 16];
    cell.copy_from_slice(bytes);
    Ok((Cell::Bytes(cell), rest))
}

/// A cell that is a pointer, or one of sixteen bytes.
fn cell_at(is_pointer: bool, from: &[u8]) -> Result<(Cell, &[u8]), ReadFault>
    ensures read { Gives (λ x. (x.0, x.1.now)) result ((cell_format is_pointer).read from.now) }
    ensures cell { IfOk result (λ x. IsCell x.0) }
{
    if !is_pointer {
        return plain_at(from);
    }
    let (pointer, rest) = pointer_at(from)?;
    Ok((Cell::Tagged(pointer), rest))
}

/// The cells, where no bytes are left after them.
fn all_of(cells: Vec<Cell>, rest: &[u8]) -> Result<Vec<Cell>, ReadFault>
    ensures read { Gives (λ cells. cells.items) result (if length rest.now == 0 then Some cells.items else None) }
    ensures same { IfOk result (λ found. found.items ≡ cells.items) }
{
    if !rest.is_empty() {
        return Err(ReadFault::BadForm);
    }
    Ok(cells)
}

/// The cells that the bytes hold under the tags of their pages, so many at most.
fn cells_in(alloc: Global, tags: &[u32], count: usize, from: &[u8]) -> Result<Vec<Cell>, ReadFault>
    ensures read { Gives (λ cells. cells.items) result (whole (cells_by (take count (flags_in tags.now))) from.now) }
    ensures cells { IfOk result (λ cells. All IsCell cells.items) }
{
    let mut cells = Vec::with_capacity(alloc, count)?;
    let mut rest = from;
    for at in 0..count {
        let Some(is_pointer) = flag_at(tags, at) else {
            return all_of(cells, rest);
        };
        let (cell, after) = cell_at(is_pointer, rest)?;
        cells.push(cell)?;
        rest = after;
    }
    all_of(cells, rest)
}

/// The space that the bytes of a body hold under the tags of its pages.
pub fn space_in(alloc: Global, tags: &[u32], bytes: &[u8]) -> Result<Tagged, ReadFault>
    ensures { Gives (λ cells. cells) result ((space_form tags.now).read bytes.now) }
{
    let cells = cells_in(alloc, tags, bytes.len() / CELL, bytes)?;
    if cells.is_empty() || cells.len() > MOST_CELLS {
        return Err(ReadFault::BadForm);
    }
    Ok(Tagged::from_cells(cells))
}

/// The tags of a page of cells: bit k belongs to cell k.
pub fn page_tags(cells: &[Cell]) -> u32
    requires { length cells.now ≤ 32 }
    ensures value { result ≡ tag_number (map is_tagged cells.now) }
    ensures bound { result < 2 ^ length cells.now }
{
    match cells {
        [] => 0,
        [Cell::Tagged(_), rest @ ..] => 1 + 2 * page_tags(rest),
        [Cell::Bytes(_), rest @ ..] => 2 * page_tags(rest),
    }
}

/// Whether these are the tags of the pages of cells.
pub fn are_tags(cells: &[Cell], tags: &[u32]) -> bool
    ensures { result ≡ same_list (tag_numbers (length tags.now) (map is_tagged cells.now)) tags.now }
{
    let mut rest = cells;
    for page in tags {
        let (front, after) = rest.split_at(rest.len().min(PAGE_CELLS));
        if page_tags(front) != *page {
            return false;
        }
        rest = after;
    }
    true
}
