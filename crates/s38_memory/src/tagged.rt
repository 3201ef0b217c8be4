ghost use Rattle.std.specs.Prelude.{◌≡◌, ◌+◌, ◌*◌, ◌/◌, ◌%◌, ◌<◌, ◌≤◌, true, [], All, IfOk, IsOkUnless, OnErr, OnOk, drop, length, slice_set, take};
ghost use Rattle.s38_memory.specs.declared.cell.Cell.TheVariants.{Tagged as Pointing};
ghost use Rattle.s38_memory.specs.Cell.{IsCell};
ghost use Rattle.s38_memory.specs.Image.{PointerHasImage};
ghost use Rattle.s38_memory.specs.Tagged.{IsStorage, IsWritten, answer_of_fault, bytes_in, cells_fault, cells_in, cells_written, copy_fault, is_within, overlaid, piece_fault, pointer_at_offset, resized};

use crate::cell::{CELL, Cell};
use crate::fault::MemoryFault;
use crate::storage::{check_cells, check_copy, check_piece, has_piece, pointer_at, read, write};
use s38_base::Pointer;
use std::alloc::Global;
use std::marker::Model;

/// A cell of zero bytes.
const ZEROS: Cell = Cell::Bytes([0; 16]);

/// The storage of a space. Contracts see it as the list of its cells.
#[derive(Drop, Debug)]
pub struct Tagged {
    cells: Vec<Cell>,
}

impl Model for Tagged {
    ghost use Rattle.std.specs.Prelude.{List};
    ghost use Rattle.s38_memory.specs.declared.cell.Cell.{Cell};
    ghost use Rattle.s38_memory.specs.Tagged.{IsStorage};

    ghost Value = { List Cell };

    ghost view = { λ t. t.cells.items };

    ghost invariant = { λ t. IsStorage t.cells.items };
}

impl Tagged {
    /// Storage of that many bytes, all zero. `NoMemory` where memory was refused.
    pub fn new(alloc: Global, len: u32) -> Result<Tagged, MemoryFault>
        requires whole { len % 16 ≡ 0 }
        requires some { 16 ≤ len }
        requires most { len ≤ 16777216 }
        ensures ok { IfOk result (λ t. t ≡ resized len []) }
        ensures err { IsOkUnless result MemoryFault.NoMemory }
    {
        let mut cells = Vec::new(alloc);
        match cells.resize(len as usize / CELL, ZEROS) {
            Ok(()) => Ok(Tagged { cells }),
            Err(_) => Err(MemoryFault::NoMemory),
        }
    }

    /// The storage of these cells, without a copy.
    pub fn from_cells(cells: Vec<Cell>) -> Tagged
        requires { IsStorage cells.items }
        ensures { result ≡ cells.items }
    {
        Tagged { cells }
    }

    /// The length in bytes.
    pub fn len(&self) -> u32
        ensures len { result ≡ 16 * length self.now }
        ensures some { 16 ≤ result }
        ensures most { result ≤ 16777216 }
    {
        (CELL * self.cells.len()) as u32
    }

    /// Whether a piece of bytes lies within the storage; so many bytes are then read there.
    pub fn has_piece(&self, at: u64, len: usize) -> bool
        ensures within { result ≡ is_within at len self.now }
        ensures near { result ≡ true → at + len ≤ 16777216 }
        ensures long { result ≡ true → length (take len (drop at (bytes_in self.now))) ≡ len }
    {
        has_piece(&self.cells, at, len)
    }

    /// The cells.
    pub fn cells(&self) -> &[Cell]
        ensures cells { result.now ≡ self.now }
        ensures storage { IsStorage self.now }
    {
        &self.cells
    }

    /// Reads the bytes from a place on; a pointer reads as its image. `Bounds` exactly where the piece leaves
    /// the storage.
    pub fn read(&self, at: u32, into: &mut [u8]) -> Result<(), MemoryFault>
        ensures answer { result ≡ answer_of_fault (piece_fault at (length into.old) self.now) }
        ensures ok { OnOk result (into.new ≡ take (length into.old) (drop at (bytes_in self.now))) }
        ensures err { OnErr result (into.new ≡ into.old) }
    {
        check_piece(&self.cells, at, into.len())?;
        read(&self.cells, at as usize, into);
        Ok(())
    }

    /// Writes a piece of bytes from a place on. Each cell that it touches holds bytes afterwards, those that
    /// it leaves being the bytes of the pointer's image. `Bounds` exactly where the piece leaves the storage.
    pub fn write(&mut self, at: u32, from: &[u8]) -> Result<(), MemoryFault>
        ensures answer { result ≡ answer_of_fault (piece_fault at (length from.now) self.old) }
        ensures ok { OnOk result (self.new ≡ cells_written at from.now self.old) }
        ensures meaning { OnOk result (IsWritten at from.now self.old self.new) }
        ensures err { OnErr result (self.new ≡ self.old) }
    {
        check_piece(&self.cells, at, from.len())?;
        write(&mut self.cells, at as usize, from);
        Ok(())
    }

    /// The pointer at a place. `Bounds` exactly where its sixteen bytes leave the storage, then `Alignment`
    /// exactly where the place is no multiple of 16, then `NoPointer` exactly where the cell holds bytes.
    pub fn get_pointer(&self, at: u32) -> Result<Pointer, MemoryFault>
        ensures { result ≡ pointer_at_offset at self.now }
    {
        pointer_at(&self.cells, at)
    }

    /// Puts a pointer into the cell at a place. `Bounds`, then `Alignment`, as for `get_pointer`.
    pub fn set_pointer(&mut self, at: u32, pointer: Pointer) -> Result<(), MemoryFault>
        requires { PointerHasImage pointer }
        ensures answer { result ≡ answer_of_fault (cells_fault at 16 self.old) }
        ensures ok { OnOk result (self.new ≡ slice_set self.old (at / 16) (Pointing pointer)) }
        ensures err { OnErr result (self.new ≡ self.old) }
    {
        check_cells(&self.cells, at, CELL)?;
        put(&mut self.cells, at as usize / CELL, pointer);
        Ok(())
    }

    /// Copies cells with their pointers from one place to another; the two may overlap. `Bounds` exactly where
    /// one of the pieces leaves the storage, then `Alignment` exactly where one begins within a cell.
    pub fn copy_with_pointers(&mut self, to: u32, from: u32, len: u32) -> Result<(), MemoryFault>
        requires { len % 16 ≡ 0 }
        ensures answer { result ≡ answer_of_fault (copy_fault to self.old from self.old len) }
        ensures ok { OnOk result (self.new ≡ overlaid (to / 16) (cells_in from len self.old) self.old) }
        ensures err { OnErr result (self.new ≡ self.old) }
    {
        check_copy(&self.cells, to, &self.cells, from, len as usize)?;
        copy_within(
            &mut self.cells,
            to as usize / CELL,
            from as usize / CELL,
            len as usize / CELL,
        );
        Ok(())
    }

    /// Copies cells with their pointers from another storage, refused as `copy_with_pointers` is.
    pub fn copy_from(
        &mut self,
        to: u32,
        other: &Tagged,
        from: u32,
        len: u32,
    ) -> Result<(), MemoryFault>
        requires { len % 16 ≡ 0 }
        ensures answer { result ≡ answer_of_fault (copy_fault to self.old from other.now len) }
        ensures ok { OnOk result (self.new ≡ overlaid (to / 16) (cells_in from len other.now) self.old) }
        ensures err { OnErr result (self.new ≡ self.old) }
    {
        let source = other.cells();
        check_copy(&self.cells, to, source, from, len as usize)?;
        let first = from as usize / CELL;
        let piece = &source[first..first + len as usize / CELL];
        copy_in(&mut self.cells, to as usize / CELL, piece);
        Ok(())
    }

    /// Puts cells, with their pointers, over those that begin at a place. `Bounds` exactly where they leave the
    /// storage, then `Alignment` exactly where the place is no multiple of 16.
    pub fn put_cells(&mut self, at: u32, piece: &[Cell]) -> Result<(), MemoryFault>
        requires { All IsCell piece.now }
        ensures answer { result ≡ answer_of_fault (cells_fault at (16 * length piece.now) self.old) }
        ensures ok { OnOk result (self.new ≡ overlaid (at / 16) piece.now self.old) }
        ensures err { OnErr result (self.new ≡ self.old) }
    {
        check_cells(&self.cells, at, CELL * piece.len())?;
        copy_in(&mut self.cells, at as usize / CELL, piece);
        Ok(())
    }

    /// Cuts the storage, or fills it up with zero bytes. `NoMemory` where memory was refused, and nothing
    /// changed.
    pub fn resize(&mut self, len: u32) -> Result<(), MemoryFault>
        requires whole { len % 16 ≡ 0 }
        requires some { 16 ≤ len }
        requires most { len ≤ 16777216 }
        ensures ok { OnOk result (self.new ≡ resized len self.old) }
        ensures err { OnErr result (self.new ≡ self.old) }
        ensures memory { IsOkUnless result MemoryFault.NoMemory }
    {
        match self.cells.resize(len as usize / CELL, ZEROS) {
            Ok(()) => Ok(()),
            Err(_) => Err(MemoryFault::NoMemory),
        }
    }
}

fn put(cells: &mut [Cell], place: usize, pointer: Pointer)
    requires place { place < length cells.old }
    requires pointer { PointerHasImage pointer }
    requires cells { All IsCell cells.old }
    ensures cells { cells.new ≡ slice_set cells.old place (Pointing pointer) }
    ensures whole { All IsCell cells.new }
{
    cells[place] = Cell::Tagged(pointer);
}

fn copy_within(cells: &mut [Cell], to: usize, from: usize, count: usize)
    requires target { to + count ≤ length cells.old }
    requires source { from + count ≤ length cells.old }
    requires cells { All IsCell cells.old }
    ensures copied { cells.new ≡ overlaid to (take count (drop from cells.old)) cells.old }
    ensures whole { All IsCell cells.new }
{
    cells.copy_within(from..from + count, to);
}

fn copy_in(cells: &mut [Cell], to: usize, piece: &[Cell])
    requires room { to + length piece.now ≤ length cells.old }
    requires piece { All IsCell piece.now }
    requires cells { All IsCell cells.old }
    ensures copied { cells.new ≡ overlaid to piece.now cells.old }
    ensures whole { All IsCell cells.new }
{
    cells[to..to + piece.len()].copy_from_slice(piece);
}
