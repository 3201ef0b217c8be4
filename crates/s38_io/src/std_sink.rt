ghost use Rattle.std.specs.Prelude.{◌≡◌, ◌≤◌, IfOk, length};
ghost use Rattle.std.specs.Io.KnownBytes.{Keeps, WriteAppends};
ghost use Rattle.s38_io.specs.Sink.{Puts};

use crate::answer::{Answer, of_flush, of_write};
use crate::calls::counted;
use crate::sink::Sink;
use s38_base::Failed;
use std::io::Write;
use std::marker::Model;

/// A sink over a writer of the system, which flushes each piece. It tells what the writer tells of the bytes
/// that it holds, and that is nothing at a writer of the system. Contracts see the writer, and the count of
/// faults.
#[derive(Drop)]
pub struct StdSink<W> {
    writer: W,
    faults: u64,
}

impl<W> Model for StdSink<W> {
    ghost use Rattle.std.specs.Prelude.{ℕ};

    ghost Value = { W × ℕ };

    ghost view = { λ s. (s.writer, s.faults) };
}

impl<W: Write> StdSink<W> {
    /// A sink to the writer, which has not failed yet.
    pub fn new(writer: W) -> Self
        ensures { result ≡ (writer, 0) }
    {
        StdSink { writer, faults: 0 }
    }
}

impl<W: Write> Sink for StdSink<W> {
    ghost written = { λ s. W.contents s.0 };

    ghost faults = { λ s. s.1 };

    fn put(&mut self, piece: &[u8]) -> Result<(), Failed> {
        match write_whole(&mut self.writer, piece) {
            Ok(()) => Ok(()),
            Err(failed) => {
                self.faults = counted(self.faults);
                Err(failed)
            }
        }
    }
}

/// Writes the whole piece and flushes it. A write that takes nothing of it fails; one that was interrupted
/// is tried again.
fn write_whole<W: Write>(writer: &mut W, piece: &[u8]) -> Result<(), Failed>
    ensures bytes { Puts (W.contents writer.old) (W.contents writer.new) result piece.now }
{
    let mut rest = piece;
    for _ in 0..u64::MAX {
        if rest.is_empty() {
            return flush(writer);
        }
        let count = match write_once(writer, rest) {
            Ok(count) => count,
            Err(failed) => return Err(failed),
        };
        rest = &rest[count..];
    }
    Err(Failed)
}

/// One write, which says how much it took: 0 only where it was interrupted.
fn write_once<W: Write>(writer: &mut W, rest: &[u8]) -> Result<usize, Failed>
    ensures bound { IfOk result (λ n. n ≤ length rest.now) }
    ensures bytes { WriteAppends (W.contents writer.old) (W.contents writer.new) result rest.now }
{
    match of_write(writer.write(rest)) {
        Answer::Took(count) => Ok(count),
        Answer::Again => Ok(0),
        Answer::Fault => Err(Failed),
    }
}

fn flush<W: Write>(writer: &mut W) -> Result<(), Failed>
    ensures bytes { Keeps (W.contents writer.old) (W.contents writer.new) }
{
    match of_flush(writer.flush()) {
        Answer::Fault => Err(Failed),
        _ => Ok(()),
    }
}
