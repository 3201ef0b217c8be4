ghost use Rattle.std.specs.Prelude.{◌≡◌};
ghost use Rattle.s38_base.specs.Fields.{number_at};

use byteorder::{BigEndian, ByteOrder};

/// The number in the 4 bytes from `at` on, high byte first; None exactly where the bytes end before.
pub fn read_u32_at(bytes: &[u8], at: usize) -> Option<u32>
    ensures { result ≡ number_at 4 bytes.now at }
{
    if bytes.len() < 4 || bytes.len() - 4 < at {
        return None;
    }
    Some(BigEndian::read_u32(&bytes[at..]))
}

/// The number in the 8 bytes from `at` on, high byte first; None exactly where the bytes end before.
pub fn read_u64_at(bytes: &[u8], at: usize) -> Option<u64>
    ensures { result ≡ number_at 8 bytes.now at }
{
    if bytes.len() < 8 || bytes.len() - 8 < at {
        return None;
    }
    Some(BigEndian::read_u64(&bytes[at..]))
}
