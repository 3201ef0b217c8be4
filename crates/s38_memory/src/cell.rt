ghost use Rattle.std.specs.Prelude.{◌≡◌, ◌+◌, ◌-◌, ◌<◌, ◌≤◌, ◌++◌, length, min, take, drop};
ghost use Rattle.s38_memory.specs.declared.cell.Cell.TheVariants.{Bytes};
ghost use Rattle.s38_memory.specs.Cell.{IsCell, bytes_of_cell};
ghost use Rattle.s38_memory.specs.Tagged.{overlaid};

use crate::image::image_of;
use s38_base::Pointer;

/// The number of bytes of a cell.
pub const CELL: usize = 16;

/// A cell of a space.
#[derive(Clone, Copy, Debug)]
pub enum Cell {
    Bytes([u8; 16]),
    Tagged(Pointer),
}

const _: () = prove!(size_of::<Cell>() <= 48);

impl Cell {
    /// The bytes that a cell reads as: a pointer's are its image.
    pub fn bytes(&self) -> [u8; 16]
        requires { IsCell self.now }
        ensures bytes { result ≡ bytes_of_cell self.now }
        ensures length { length result ≡ 16 }
    {
        match self {
            Cell::Bytes(bytes) => *bytes,
            Cell::Tagged(pointer) => image_of(*pointer),
        }
    }
}

/// Reads a cell from a place on, as far as it and the room go, and says how many bytes that is.
pub fn read_cell(cell: &Cell, at: usize, into: &mut [u8]) -> usize
    requires cell { IsCell cell.now }
    requires place { at < 16 }
    ensures count { result ≡ min (length into.old) (16 - at) }
    ensures read { into.new ≡ take result (drop at (bytes_of_cell cell.now)) ++ drop result into.old }
{
    let bytes = cell.bytes();
    let count = into.len().min(CELL - at);
    into[..count].copy_from_slice(&bytes[at..at + count]);
    count
}

/// The cell after a piece was written over its bytes.
pub fn overlaid(cell: &Cell, at: usize, piece: &[u8]) -> Cell
    requires cell { IsCell cell.now }
    requires place { at + length piece.now ≤ 16 }
    ensures cell { result ≡ Bytes (overlaid at piece.now (bytes_of_cell cell.now)) }
    ensures whole { IsCell result }
{
    let mut bytes = cell.bytes();
    bytes[at..at + piece.len()].copy_from_slice(piece);
    Cell::Bytes(bytes)
}
