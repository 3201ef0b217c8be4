//! Numbers and bytes at the front of bytes, and what is left after them. No reader takes memory.
ghost use Rattle.std.specs.Prelude.{◌≡◌, ◌≤◌, IfOk, length};
ghost use Rattle.std.specs.List.{list_all};
ghost use Rattle.s38_codec.specs.Codec.{byte, byte_is_zero, bytes};
ghost use Rattle.s38_codec.specs.Formats.{short_text, text, u16 as half, u32 as word, u64 as long};
ghost use Rattle.s38_codec.specs.Reading.{Gives};

use crate::fault::ReadFault;

/// A byte; `BadForm` exactly where there is none.
pub fn byte_at(from: &[u8]) -> Result<(u8, &[u8]), ReadFault>
    ensures { Gives (λ x. (x.0, x.1.now)) result (byte.read from.now) }
{
    match from {
        [] => Err(ReadFault::BadForm),
        [b, rest @ ..] => Ok((*b, rest)),
    }
}

/// A number of 2 bytes, high byte first.
pub fn u16_at(from: &[u8]) -> Result<(u16, &[u8]), ReadFault>
    ensures { Gives (λ x. (x.0, x.1.now)) result (half.read from.now) }
{
    if from.len() < 2 {
        return Err(ReadFault::BadForm);
    }
    let (front, rest) = from.split_at(2);
    Ok((u16::from_be_bytes([front[0], front[1]]), rest))
}

/// A number of 4 bytes, high byte first.
pub fn u32_at(from: &[u8]) -> Result<(u32, &[u8]), ReadFault>
    ensures { Gives (λ x. (x.0, x.1.now)) result (word.read from.now) }
{
    if from.len() < 4 {
        return Err(ReadFault::BadForm);
    }
    let (front, rest) = from.split_at(4);
    Ok((
        u32::from_be_bytes([front[0], front[1], front[2], front[3]]),
        rest,
    ))
}

/// A number of 8 bytes, high byte first.
pub fn u64_at(from: &[u8]) -> Result<(u64, &[u8]), ReadFault>
    ensures { Gives (λ x. (x.0, x.1.now)) result (long.read from.now) }
{
    if from.len() < 8 {
        return Err(ReadFault::BadForm);
    }
    let (front, rest) = from.split_at(8);
    Ok((
        u64::from_be_bytes([
            front[0], front[1], front[2], front[3], front[4], front[5], front[6], front[7],
        ]),
        rest,
    ))
}

/// So many bytes.
pub fn bytes_at(count: usize, from: &[u8]) -> Result<(&[u8], &[u8]), ReadFault>
    ensures read { Gives (λ x. (x.0.now, x.1.now)) result ((bytes count).read from.now) }
    ensures len { IfOk result (λ x. length x.0.now ≡ count) }
{
    if from.len() < count {
        return Err(ReadFault::BadForm);
    }
    Ok(from.split_at(count))
}

/// A length of 2 bytes, at most so much, and so many bytes.
pub fn text_at(longest: u16, from: &[u8]) -> Result<(&[u8], &[u8]), ReadFault>
    ensures read { Gives (λ x. (x.0.now, x.1.now)) result ((text longest).read from.now) }
    ensures len { IfOk result (λ x. length x.0.now ≤ longest) }
{
    let (count, rest) = u16_at(from)?;
    if count > longest {
        return Err(ReadFault::BadForm);
    }
    bytes_at(usize::from(count), rest)
}

/// A length of one byte, at most so much, and so many bytes.
pub fn short_text_at(longest: u8, from: &[u8]) -> Result<(&[u8], &[u8]), ReadFault>
    ensures read { Gives (λ x. (x.0.now, x.1.now)) result ((short_text longest).read from.now) }
    ensures len { IfOk result (λ x. length x.0.now ≤ longest) }
{
    let (count, rest) = byte_at(from)?;
    if count > longest {
        return Err(ReadFault::BadForm);
    }
    bytes_at(usize::from(count), rest)
}

/// Whether all bytes are zero.
pub fn is_zeros(from: &[u8]) -> bool
    ensures { result ≡ list_all byte_is_zero from.now }
{
    from.iter().all(|byte| *byte == 0)
}
