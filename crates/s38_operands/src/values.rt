//! Values for their receivers.
ghost use Rattle.std.specs.Prelude.{◌≡◌, IfOk};
ghost use Rattle.s38_rules.specs.ask.Receivers.{count_image, fitted};

use s38_base::{Bytes, NoMemory};
use std::alloc::Global;

/// Bytes cut to a length, or filled to it on the right.
pub fn fitted(alloc: Global, len: u16, fill: u8, bytes: &[u8]) -> Result<Bytes, NoMemory>
    ensures { IfOk result (λ made. made ≡ fitted len fill bytes.now) }
{
    let len = len as usize;
    if len <= bytes.len() {
        return Bytes::from_slice(alloc, &bytes[..len]);
    }
    let mut made = Bytes::from_slice(alloc, bytes)?;
    made.resize(len, fill)?;
    Ok(made)
}

/// A count, of which the four low bytes are given.
pub fn count_image(alloc: Global, count: usize) -> Result<Vec<u8>, NoMemory>
    ensures { IfOk result (λ made. made.items ≡ count_image count) }
{
    let bytes = (count as u64).to_be_bytes();
    Ok(Vec::from_slice(alloc, &bytes[4..])?)
}
