//! Bytes as the parts of an object, in room that was taken before.
ghost use Rattle.std.specs.Prelude.{◌≡◌, ◌+◌, ◌*◌, ◌≤◌, ◌++◌, All, drop, length, map, replicate, take, vec_capacity, vec_len};
ghost use Rattle.s38_image.specs.Pages.{needed, page_put_at, stream_parts, zero_filled};
ghost use Rattle.s38_image.specs.Spaces.{is_tagged, space_tags, tag_number};
ghost use Rattle.s38_memory.specs.Cell.{IsCell};
ghost use Rattle.s38_memory.specs.Tagged.{bytes_in};

use arrayvec::ArrayVec;
use s38_base::{Change, Key, Page};
use s38_image::{PAGE_CELLS, needed, page_tags};
use s38_memory::Cell;

/// Bytes, and as many zeros as a page has further bytes.
fn padded(bytes: &[u8]) -> [u8; 512]
    requires { length bytes.now ≤ 512 }
    ensures { result ≡ bytes.now ++ drop (length bytes.now) (replicate 512 0) }
{
    let mut page = [0; 512];
    page[..bytes.len()].copy_from_slice(bytes);
    page
}

/// A page of a part.
#[tactic(auto, using(crate::proofs::CutLaws::page_filled))]
pub fn page_of(number: u64, part: u32, bytes: &[u8], tags: u32) -> Change
    requires { length bytes.now ≤ 512 }
    ensures { result ≡ page_put_at number part (zero_filled 512 bytes.now) tags }
{
    Change {
        key: Key {
            object: number,
            part,
        },
        page: Some(Page {
            bytes: padded(bytes),
            tags,
        }),
    }
}

/// The cells of a page, and those after them.
fn split_cells(cells: &[Cell]) -> (&[Cell], &[Cell])
    ensures page { result.0.now ≡ take 32 cells.now }
    ensures short { length result.0.now ≤ 32 }
    ensures more { result.1.now ≡ drop 32 cells.now }
{
    if cells.len() <= PAGE_CELLS {
        return (cells, &[]);
    }
    cells.split_at(PAGE_CELLS)
}

/// The bytes of the cells of a page.
fn bytes_in(cells: &[Cell]) -> ArrayVec<u8, 512>
    requires cells { All IsCell cells.now }
    requires few { length cells.now ≤ 32 }
    ensures { result.items ≡ bytes_in cells.now }
{
    let mut bytes = ArrayVec::new();
    for cell in cells {
        bytes.try_extend_from_slice(&cell.bytes()).unwrap();
    }
    bytes
}

/// A page of cells, with their tags.
fn cells_page(number: u64, part: u32, cells: &[Cell]) -> Change
    requires cells { All IsCell cells.now }
    requires few { length cells.now ≤ 32 }
    ensures { result ≡ page_put_at number part (zero_filled 512 (bytes_in cells.now)) (tag_number (map is_tagged cells.now)) }
{
    page_of(number, part, bytes_in(cells).as_slice(), page_tags(cells))
}

/// Adds the pages of cells, for which there is room, and the tags of their pointers.
pub fn push_cells(into: &mut Vec<Change>, number: u64, first: u32, cells: &[Cell])
    requires cells { All IsCell cells.now }
    requires near { length cells.now ≤ 1048576 }
    requires first { first ≤ 128 }
    requires room { vec_len into.old + needed (16 * length cells.now) ≤ vec_capacity into.old }
    ensures parts { into.new.items ≡ into.old.items ++ stream_parts number first (bytes_in cells.now) (space_tags cells.now) }
    ensures capacity { vec_capacity into.new ≡ vec_capacity into.old }
{
    let mut rest = cells;
    for k in 0..needed(16 * cells.len() as u32) {
        let (page, more) = split_cells(rest);
        into.push_reserved(cells_page(number, first + k, page));
        rest = more;
    }
}
