//! How the cells of a space are written. A piece that leaves them changes nothing.
ghost use Rattle.std.specs.Prelude.{◌≡◌, ◌≤◌, ◌%◌, All, OnOk, OnErr, Some};
ghost use Rattle.s38_memory.specs.Cell.{IsCell};
ghost use Rattle.s38_memory.specs.Tagged.{resized};
ghost use Rattle.s38_rules.specs.state.Cells.{with_bytes, with_cells, with_pointer};

use s38_base::{NoMemory, Pointer};
use s38_memory::{Cell, Tagged};

/// Bytes over a piece. Nothing changes where the piece leaves the cells.
pub fn write_cells(cells: &mut Tagged, at: u64, bytes: &[u8])
    ensures { cells.new ≡ with_bytes at bytes.now cells.old }
{
    if cells.has_piece(at, bytes.len()) {
        let _result = cells.write(at as u32, bytes);
    }
}

fn put_in_cells(cells: &mut Tagged, at: u64, pointer: Pointer)
    ensures { cells.new ≡ with_pointer at (Some pointer) cells.old }
{
    if pointer.is_storable() && cells.has_piece(at, 16) {
        let _result = cells.set_pointer(at as u32, pointer);
    }
}

/// A pointer, or sixteen zero bytes, into the cell that begins at a byte. Nothing changes where there is no such
/// cell, or the pointer is one to an item that is a pointer.
pub fn set_cells(cells: &mut Tagged, at: u64, pointer: Option<Pointer>)
    ensures { cells.new ≡ with_pointer at pointer cells.old }
{
    match pointer {
        Some(pointer) => put_in_cells(cells, at, pointer),
        None => write_cells(cells, at, &[0; 16]),
    }
}

/// Cells with their tags over those that begin at a byte. Nothing changes where they leave the cells, or none begins
/// there.
pub fn copy_cells(cells: &mut Tagged, at: u64, piece: &[Cell])
    requires { All IsCell piece.now }
    ensures { cells.new ≡ with_cells at piece.now cells.old }
{
    if piece.len() <= cells.cells().len() && cells.has_piece(at, 16 * piece.len()) {
        let _result = cells.put_cells(at as u32, piece);
    }
}

/// Cells that are cut, or filled up with zero bytes. `NoMemory` where memory was refused, and nothing changed.
pub fn resize_cells(cells: &mut Tagged, len: u32) -> Result<(), NoMemory>
    requires whole { len % 16 ≡ 0 }
    requires some { 16 ≤ len }
    requires most { len ≤ 16777216 }
    ensures ok { OnOk result (cells.new ≡ resized len cells.old) }
    ensures err { OnErr result (cells.new ≡ cells.old) }
{
    match cells.resize(len) {
        Ok(()) => Ok(()),
        Err(_) => Err(NoMemory),
    }
}
