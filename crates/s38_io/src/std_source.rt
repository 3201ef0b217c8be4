ghost use Rattle.std.specs.Prelude.{◌≡◌};
ghost use Rattle.s38_io.specs.Source.{ReadsAtMost, Takes};

use crate::answer::{Answer, of_read};
use crate::calls::counted;
use crate::source::Source;
use s38_base::Failed;
use std::io::Read;
use std::marker::Model;

/// A source over a reader of the system. It tells what the reader tells of the bytes to come, and that is
/// nothing at a reader of the system. Contracts see the reader, and the count of faults.
#[derive(Drop)]
pub struct StdSource<R> {
    reader: R,
    faults: u64,
}

impl<R> Model for StdSource<R> {
    ghost use Rattle.std.specs.Prelude.{ℕ};

    ghost Value = { R × ℕ };

    ghost view = { λ s. (s.reader, s.faults) };
}

impl<R: Read> StdSource<R> {
    /// A source of what the reader gives, which has not failed yet.
    pub fn new(reader: R) -> Self
        ensures { result ≡ (reader, 0) }
    {
        StdSource { reader, faults: 0 }
    }
}

impl<R: Read> Source for StdSource<R> {
    ghost left = { λ s. R.remaining s.0 };

    ghost faults = { λ s. s.1 };

    fn take(&mut self, into: &mut [u8]) -> Result<usize, Failed> {
        match read_once(&mut self.reader, into) {
            Ok(count) => Ok(count),
            Err(failed) => {
                self.faults = counted(self.faults);
                Err(failed)
            }
        }
    }
}

/// One read; a read that was interrupted is tried again.
fn read_once<R: Read>(reader: &mut R, into: &mut [u8]) -> Result<usize, Failed>
    ensures bound { ReadsAtMost result into.new }
    ensures bytes { Takes (R.remaining reader.old) (R.remaining reader.new) result into.new }
{
    for _ in 0..u64::MAX {
        match of_read(reader.read(into)) {
            Answer::Took(count) => return Ok(count),
            Answer::Again => {}
            Answer::Fault => return Err(Failed),
        }
    }
    Err(Failed)
}
