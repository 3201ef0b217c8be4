//! What is read in a space. A piece that leaves the cells reads as nothing.
ghost use Rattle.std.specs.Prelude.{◌≡◌, ◌∷◌, [], All, IfOk, length};
ghost use Rattle.std.specs.Option.{option_copied, unwrap_or};
ghost use Rattle.s38_memory.specs.Cell.{IsCell};
ghost use Rattle.s38_memory.specs.Tagged.{is_aligned, is_within};
ghost use Rattle.s38_rules.specs.state.Cells.{bytes_there, cell_for, cells_there, first_pointer, pointer_there};

use s38_base::{Bytes, NoMemory, Pointer};
use s38_memory::{Cell, Tagged};
use std::alloc::Global;

/// Whether a piece of bytes lies within the storage.
pub fn is_within(space: Option<&Tagged>, at: u64, len: u16) -> bool
    ensures { result ≡ is_within at len (unwrap_or (option_copied space.entry) []) }
{
    match space {
        None => at == 0 && len == 0,
        Some(space) => space.has_piece(at, len as usize),
    }
}

/// Whether a cell begins there.
pub fn is_aligned(at: u64) -> bool
    ensures { result ≡ is_aligned at }
{
    at % 16 == 0
}

/// How many bytes a piece reads as.
pub fn size_there(space: Option<&Tagged>, at: u64, len: u16) -> usize
    ensures { result ≡ length (bytes_there (unwrap_or (option_copied space.entry) []) at len) }
{
    match space {
        None => 0,
        Some(space) => {
            if space.has_piece(at, len as usize) {
                len as usize
            } else {
                0
            }
        }
    }
}

fn piece(alloc: Global, space: &Tagged, at: u64, len: u16) -> Result<Bytes, NoMemory>
    ensures { IfOk result (λ made. made ≡ bytes_there space.now at len) }
{
    if !space.has_piece(at, len as usize) {
        return Ok(Bytes::new(alloc));
    }
    let mut made = Bytes::repeated(alloc, 0, len as usize)?;
    match space.read(at as u32, made.as_mut_slice()) {
        Ok(()) => Ok(made),
        Err(_) => Ok(Bytes::new(alloc)),
    }
}

/// A piece of the bytes.
#[inline(never)]
pub fn bytes_there(
    alloc: Global,
    space: Option<&Tagged>,
    at: u64,
    len: u16,
) -> Result<Bytes, NoMemory>
    ensures { IfOk result (λ made. made ≡ bytes_there (unwrap_or (option_copied space.entry) []) at len) }
{
    match space {
        None => Ok(Bytes::new(alloc)),
        Some(space) => piece(alloc, space, at, len),
    }
}

/// The pointer in the cell that begins there; a cell of bytes is none.
pub fn pointer_there(space: Option<&Tagged>, at: u64) -> Option<Pointer>
    ensures { result ≡ pointer_there (unwrap_or (option_copied space.entry) []) at }
{
    match space {
        None => None,
        Some(space) => {
            if !space.has_piece(at, 16) {
                return None;
            }
            space.get_pointer(at as u32).ok()
        }
    }
}

/// A cell for a pointer: no pointer is sixteen zero bytes.
fn cell_for(pointer: Option<Pointer>) -> Cell
    ensures cell { result ≡ cell_for pointer }
    ensures whole { IsCell result }
{
    match pointer {
        None => Cell::Bytes([0; 16]),
        Some(pointer) => {
            if pointer.is_storable() {
                Cell::Tagged(pointer)
            } else {
                Cell::Bytes([0; 16])
            }
        }
    }
}

/// One cell for the pointer of a variable.
pub fn one_cell(alloc: Global, pointer: Option<Pointer>) -> Result<Vec<Cell>, NoMemory>
    ensures cells { IfOk result (λ made. made.items ≡ cell_for pointer ∷ []) }
    ensures whole { IfOk result (λ made. All IsCell made.items) }
{
    let cell = cell_for(pointer);
    let mut made = Vec::new(alloc);
    made.push(cell)?;
    Ok(made)
}

fn copied(alloc: Global, space: &Tagged, at: u64, len: u16) -> Result<Vec<Cell>, NoMemory>
    ensures cells { IfOk result (λ made. made.items ≡ cells_there space.now at len) }
    ensures whole { IfOk result (λ made. All IsCell made.items) }
{
    if !space.has_piece(at, len as usize) || !is_aligned(at) {
        return Ok(Vec::new(alloc));
    }
    let first = at as usize / 16;
    let piece = &space.cells()[first..first + len as usize / 16];
    Ok(Vec::from_slice(alloc, piece)?)
}

/// The cells of a piece; where it does not begin and end within the space there are none.
pub fn cells_there(
    alloc: Global,
    space: Option<&Tagged>,
    at: u64,
    len: u16,
) -> Result<Vec<Cell>, NoMemory>
    ensures cells { IfOk result (λ made. made.items ≡ cells_there (unwrap_or (option_copied space.entry) []) at len) }
    ensures whole { IfOk result (λ made. All IsCell made.items) }
{
    match space {
        None => Ok(Vec::new(alloc)),
        Some(space) => copied(alloc, space, at, len),
    }
}

/// The pointer of the first cell; one of bytes is none.
pub fn first_pointer(cells: &[Cell]) -> Option<Pointer>
    ensures { result ≡ first_pointer cells.now }
{
    match cells {
        [] => None,
        [cell, ..] => match cell {
            Cell::Tagged(pointer) => Some(*pointer),
            Cell::Bytes(_) => None,
        },
    }
}
