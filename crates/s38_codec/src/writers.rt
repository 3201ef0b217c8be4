//! Numbers as bytes, high byte first, and bytes after others for which there is room. No writer takes memory.
ghost use Rattle.std.specs.Prelude.{◌≡◌, ◌+◌, ◌≤◌, ◌++◌, length, vec_capacity, vec_len};
ghost use Rattle.s38_codec.specs.Codec.{byte};
ghost use Rattle.s38_codec.specs.Formats.{u16 as half, u32 as word, u64 as long};

/// The two bytes of a number.
pub fn u16_bytes(number: u16) -> [u8; 2]
    ensures { result ≡ half.print number }
{
    number.to_be_bytes()
}

/// The four bytes of a number.
pub fn u32_bytes(number: u32) -> [u8; 4]
    ensures { result ≡ word.print number }
{
    number.to_be_bytes()
}

/// The eight bytes of a number.
pub fn u64_bytes(number: u64) -> [u8; 8]
    ensures { result ≡ long.print number }
{
    number.to_be_bytes()
}

/// Adds bytes, for which there is room.
pub fn put(into: &mut Vec<u8>, bytes: &[u8])
    requires room { vec_len into.old + length bytes.now ≤ vec_capacity into.old }
    ensures bytes { into.new.items ≡ into.old.items ++ bytes.now }
    ensures len { vec_len into.new ≡ vec_len into.old + length bytes.now }
    ensures kept { vec_capacity into.old ≤ vec_capacity into.new }
{
    into.extend_from_slice(bytes).unwrap();
}

/// Adds the two bytes of a number, for which there is room.
pub fn put_u16(into: &mut Vec<u8>, number: u16)
    requires room { vec_len into.old + 2 ≤ vec_capacity into.old }
    ensures bytes { into.new.items ≡ into.old.items ++ half.print number }
    ensures len { vec_len into.new ≡ vec_len into.old + 2 }
    ensures kept { vec_capacity into.old ≤ vec_capacity into.new }
{
    put(into, &u16_bytes(number));
}

/// Adds the four bytes of a number, for which there is room.
pub fn put_u32(into: &mut Vec<u8>, number: u32)
    requires room { vec_len into.old + 4 ≤ vec_capacity into.old }
    ensures bytes { into.new.items ≡ into.old.items ++ word.print number }
    ensures len { vec_len into.new ≡ vec_len into.old + 4 }
    ensures kept { vec_capacity into.old ≤ vec_capacity into.new }
{
    put(into, &u32_bytes(number));
}

/// Adds the eight bytes of a number, for which there is room.
pub fn put_u64(into: &mut Vec<u8>, number: u64)
    requires room { vec_len into.old + 8 ≤ vec_capacity into.old }
    ensures bytes { into.new.items ≡ into.old.items ++ long.print number }
    ensures len { vec_len into.new ≡ vec_len into.old + 8 }
    ensures kept { vec_capacity into.old ≤ vec_capacity into.new }
{
    put(into, &u64_bytes(number));
}

/// Adds a byte, for which there is room.
pub fn put_byte(into: &mut Vec<u8>, number: u8)
    requires room { vec_len into.old + 1 ≤ vec_capacity into.old }
    ensures bytes { into.new.items ≡ into.old.items ++ byte.print number }
    ensures len { vec_len into.new ≡ vec_len into.old + 1 }
    ensures kept { vec_capacity into.old ≤ vec_capacity into.new }
{
    put(into, &[number]);
}

/// Adds the two lowest bytes of a count, for which there is room.
pub fn put_short_count(into: &mut Vec<u8>, count: usize)
    requires room { vec_len into.old + 2 ≤ vec_capacity into.old }
    ensures bytes { into.new.items ≡ into.old.items ++ half.print count }
    ensures len { vec_len into.new ≡ vec_len into.old + 2 }
    ensures kept { vec_capacity into.old ≤ vec_capacity into.new }
{
    put(into, &[(count / 256 % 256) as u8, (count % 256) as u8]);
}

/// Adds the four lowest bytes of a count, for which there is room.
pub fn put_count(into: &mut Vec<u8>, count: usize)
    requires room { vec_len into.old + 4 ≤ vec_capacity into.old }
    ensures bytes { into.new.items ≡ into.old.items ++ word.print count }
    ensures len { vec_len into.new ≡ vec_len into.old + 4 }
    ensures kept { vec_capacity into.old ≤ vec_capacity into.new }
{
    put(
        into,
        &[
            (count / 16_777_216 % 256) as u8,
            (count / 65_536 % 256) as u8,
            (count / 256 % 256) as u8,
            (count % 256) as u8,
        ],
    );
}
