//! The calls of the storage, over its cells.
ghost use Rattle.std.specs.Prelude.{◌≡◌, ◌+◌, ◌*◌, ◌≤◌, true, All, length, take, drop};
ghost use Rattle.s38_memory.specs.Cell.{IsCell};
ghost use Rattle.s38_memory.specs.Tagged.{IsWritten, answer_of_fault, bytes_in, cells_fault, cells_written, copy_fault, is_aligned, is_within, piece_fault, pointer_at_offset};

use crate::cell::{CELL, Cell, overlaid, read_cell};
use crate::fault::MemoryFault;
use s38_base::Pointer;

fn is_within(cells: &[Cell], at: u32, len: usize) -> bool
    requires { length cells.now ≤ 1048576 }
    ensures { result ≡ is_within at len cells.now }
{
    let size = CELL * cells.len();
    len <= size && at as usize <= size - len
}

fn is_aligned(at: u32) -> bool
    ensures { result ≡ is_aligned at }
{
    at % 16 == 0
}

/// Whether a piece of bytes lies within the cells; so many bytes are then read there.
pub fn has_piece(cells: &[Cell], at: u64, len: usize) -> bool
    requires few { length cells.now ≤ 1048576 }
    requires whole { All IsCell cells.now }
    ensures within { result ≡ is_within at len cells.now }
    ensures near { result ≡ true → at + len ≤ 16777216 }
    ensures long { result ≡ true → length (take len (drop at (bytes_in cells.now))) ≡ len }
{
    let size = (CELL * cells.len()) as u64;
    let len = len as u64;
    len <= size && at <= size - len
}

/// `Bounds` exactly where a piece of bytes leaves the cells.
pub fn check_piece(cells: &[Cell], at: u32, len: usize) -> Result<(), MemoryFault>
    requires { length cells.now ≤ 1048576 }
    ensures { result ≡ answer_of_fault (piece_fault at len cells.now) }
{
    if is_within(cells, at, len) {
        Ok(())
    } else {
        Err(MemoryFault::Bounds)
    }
}

/// The same for whole cells, and then `Alignment` exactly where they don't begin with one.
pub fn check_cells(cells: &[Cell], at: u32, len: usize) -> Result<(), MemoryFault>
    requires { length cells.now ≤ 1048576 }
    ensures { result ≡ answer_of_fault (cells_fault at len cells.now) }
{
    check_piece(cells, at, len)?;
    if is_aligned(at) {
        Ok(())
    } else {
        Err(MemoryFault::Alignment)
    }
}

/// The same for both places of a copy.
pub fn check_copy(
    target: &[Cell],
    to: u32,
    source: &[Cell],
    from: u32,
    len: usize,
) -> Result<(), MemoryFault>
    requires target { length target.now ≤ 1048576 }
    requires source { length source.now ≤ 1048576 }
    ensures { result ≡ answer_of_fault (copy_fault to target.now from source.now len) }
{
    check_piece(target, to, len)?;
    check_piece(source, from, len)?;
    if is_aligned(to) && is_aligned(from) {
        Ok(())
    } else {
        Err(MemoryFault::Alignment)
    }
}

/// The pointer at a place; then `NoPointer` exactly where the cell holds bytes.
pub fn pointer_at(cells: &[Cell], at: u32) -> Result<Pointer, MemoryFault>
    requires { length cells.now ≤ 1048576 }
    ensures { result ≡ pointer_at_offset at cells.now }
{
    check_cells(cells, at, CELL)?;
    match cells[at as usize / CELL] {
        Cell::Tagged(pointer) => Ok(pointer),
        Cell::Bytes(_) => Err(MemoryFault::NoPointer),
    }
}

/// Reads the bytes from a place on.
pub fn read(cells: &[Cell], at: usize, into: &mut [u8])
    requires room { at + length into.old ≤ 16 * length cells.now }
    requires cells { All IsCell cells.now }
    ensures { into.new ≡ take (length into.old) (drop at (bytes_in cells.now)) }
{
    let mut done = 0;
    while done < into.len() {
        let place = at + done;
        done += read_cell(&cells[place / CELL], place % CELL, &mut into[done..]);
    }
}

/// Writes a piece of bytes from a place on. Only the cells that it touches are looked at.
pub fn write(cells: &mut [Cell], at: usize, piece: &[u8])
    requires room { at + length piece.now ≤ 16 * length cells.old }
    requires cells { All IsCell cells.old }
    ensures written { cells.new ≡ cells_written at piece.now cells.old }
    ensures meaning { IsWritten at piece.now cells.old cells.new }
    ensures cells { All IsCell cells.new }
{
    let mut place = at / CELL;
    let mut offset = at % CELL;
    let mut rest = piece;
    while !rest.is_empty() {
        let (front, behind) = rest.split_at(rest.len().min(CELL - offset));
        cells[place] = overlaid(&cells[place], offset, front);
        place += 1;
        offset = 0;
        rest = behind;
    }
}
