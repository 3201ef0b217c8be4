ghost use Rattle.std.specs.Prelude.{◌≡◌};

use s38_base::Bytes;

/// Bytes that are read where they are, or a copy of them.
#[derive(Drop)]
pub enum Piece<'a> {
    Lent(&'a [u8]),
    Made(Bytes),
}

impl<'a> Piece<'a> {
    ghost use Rattle.s38_compute.specs.Piece.{piece_bytes};

    /// The bytes.
    pub fn as_slice(&self) -> &[u8]
        ensures { result.now ≡ piece_bytes self.now }
    {
        match self {
            Piece::Lent(bytes) => bytes,
            Piece::Made(bytes) => bytes.as_slice(),
        }
    }
}
