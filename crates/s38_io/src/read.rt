ghost use Rattle.std.specs.Prelude.{◌≡◌, ◌+◌, ◌-◌, ◌<◌, ◌≤◌, ◌++◌, List, ℕ, IfOk, IsErrOf, OnErr, length, vec_len};
ghost use Rattle.std.specs.Io.KnownBytes.{Consumes, IsAtEnd};
ghost use Rattle.s38_base.specs.Faults.{HasCauseOf};
ghost use Rattle.s38_io.specs.Calls.{faults_after};
ghost use Rattle.s38_io.specs.Reading.{has_failed};
ghost use Rattle.s38_io.specs.Source.{AddsPiece, LosesFront, ReadsAll};

use crate::source::Source;
use s38_base::{Failed, NoMemory};
use std::alloc::Global;
use thiserror::Error;

/// How many bytes are asked for at once.
const CHUNK: usize = 65536;

/// Why a source was not read to its end.
#[derive(Clone, Copy, PartialEq, Eq, Debug, Error)]
pub enum ReadFault {
    /// The source failed, and its count of faults rose.
    #[error("the source failed")]
    Failed,
    /// Memory was refused.
    #[error("no memory")]
    NoMemory,
}

/// The bytes of a source up to its end, or the first `most` where there are more; then the others are left.
/// An error may have taken bytes from the front.
pub fn read_to_end<S: Source>(
    alloc: Global,
    source: &mut S,
    most: usize,
) -> Result<Vec<u8>, ReadFault>
    ensures bytes { IfOk result (λ bytes. ReadsAll most (S.left source.old) (S.left source.new) bytes.items) }
    ensures limit { IfOk result (λ bytes. length bytes.items ≤ most) }
    ensures front { LosesFront (S.left source.old) (S.left source.new) }
    ensures cause { HasCauseOf (S.faults source.old) (S.faults source.new) result ReadFault.Failed }

    // A source that failed is not asked again: with any other answer no take failed, and with this one the last did.
    ensures count { S.faults source.new ≡ faults_after (S.faults source.old) (has_failed result) }
{
    let mut bytes = Vec::new(alloc);
    let mut chunk = match make_chunk(alloc) {
        Ok(chunk) => chunk,
        Err(NoMemory) => return Err(ReadFault::NoMemory),
    };
    'pieces: while bytes.len() < most {
        let room = chunk.len().min(most - bytes.len());
        match add_piece(source, &mut chunk[..room], &mut bytes) {
            Ok(0) => return Ok(bytes),
            Ok(_) => {}
            Err(fault) => return Err(fault),
        }
    }
    Ok(bytes)
}

fn make_chunk(alloc: Global) -> Result<Vec<u8>, NoMemory>
    ensures { IfOk result (λ chunk. 0 < vec_len chunk) }
{
    Ok(Vec::from_elem(alloc, 0u8, CHUNK)?)
}

/// Takes the bytes that come next, as many as the chunk has room for at most, and adds them to `bytes`.
fn add_piece<S: Source>(
    source: &mut S,
    chunk: &mut [u8],
    bytes: &mut Vec<u8>,
) -> Result<usize, ReadFault>
    ensures ok { IfOk result (λ n. AddsPiece (S.left source.old) (S.left source.new) bytes.old.items bytes.new.items (length chunk.old) n) }
    ensures front { LosesFront (S.left source.old) (S.left source.new) }
    ensures cause { HasCauseOf (S.faults source.old) (S.faults source.new) result ReadFault.Failed }
    ensures count { S.faults source.new ≡ faults_after (S.faults source.old) (has_failed result) }
{
    let count = match source.take(chunk) {
        Ok(count) => count,
        Err(Failed) => return Err(ReadFault::Failed),
    };
    match bytes.extend_from_slice(&chunk[..count]) {
        Ok(()) => Ok(count),
        Err(_) => Err(ReadFault::NoMemory),
    }
}
