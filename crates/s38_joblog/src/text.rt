ghost use Rattle.std.specs.Prelude.{◌≡◌, ◌<◌, ◌≤◌, ◌+◌, ◌*◌, ◌++◌, ◌∷◌, [], decimal, length, vec_capacity, vec_len, OnOk};
ghost use Rattle.s38_joblog.specs.Words.{byte_as_hex, hex_code, hex_digit, hex_text};

use itoa::Buffer;
use s38_base::NoMemory;
use std::alloc::Global;
use std::marker::Model;

/// A text that grows at its end. Contracts see it as the list of its bytes.
#[derive(Drop)]
pub struct Text {
    bytes: Vec<u8>,
}

impl Model for Text {
    ghost use Rattle.std.specs.Prelude.{List, ℕ};

    ghost Value = { List ℕ };

    ghost view = { λ t. t.bytes.items };
}

/// The digit of a number below 16.
fn hex_digit(number: u8) -> u8
    requires { number < 16 }
    ensures { result ≡ hex_digit number }
{
    if number <= 9 {
        number + b'0'
    } else {
        number + 55
    }
}

/// Puts two hexadecimal digits for each byte after a text that has the room.
fn put_hex(text: &mut Vec<u8>, bytes: &[u8])
    requires { vec_len text.old + 2 * length bytes.now ≤ vec_capacity text.old }
    ensures { text.new.items ≡ text.old.items ++ hex_text bytes.now }
{
    for byte in bytes {
        text.push_reserved(hex_digit(*byte / 16));
        text.push_reserved(hex_digit(*byte % 16));
    }
}

impl Text {
    /// The empty text.
    pub fn new(alloc: Global) -> Text
        ensures { result ≡ [] }
    {
        Text {
            bytes: Vec::new(alloc),
        }
    }

    /// The bytes of the text, without a copy.
    pub fn into_bytes(self) -> Vec<u8>
        ensures { result.items ≡ self }
    {
        self.bytes
    }

    /// The bytes of the text.
    pub fn as_slice(&self) -> &[u8]
        ensures { result.now ≡ self.now }
    {
        self.bytes.as_slice()
    }

    /// Adds bytes.
    pub fn add(&mut self, bytes: &[u8]) -> Result<(), NoMemory>
        ensures { OnOk result (self.new ≡ self.old ++ bytes.now) }
    {
        match self.bytes.extend_from_slice(bytes) {
            Ok(()) => Ok(()),
            Err(_) => Err(NoMemory),
        }
    }

    /// Adds a text; to an empty one it comes without a copy.
    pub fn join(&mut self, other: Text) -> Result<(), NoMemory>
        ensures { OnOk result (self.new ≡ self.old ++ other) }
    {
        if self.bytes.is_empty() {
            *self = other;
            return Ok(());
        }
        self.add(other.as_slice())
    }

    /// Adds a byte.
    pub fn add_byte(&mut self, byte: u8) -> Result<(), NoMemory>
        ensures { OnOk result (self.new ≡ self.old ++ byte ∷ []) }
    {
        match self.bytes.push(byte) {
            Ok(()) => Ok(()),
            Err(_) => Err(NoMemory),
        }
    }

    /// Adds a number in decimal digits.
    #[inline(always)]
    pub fn add_number(&mut self, number: u64) -> Result<(), NoMemory>
        ensures { OnOk result (self.new ≡ self.old ++ decimal number) }
    {
        let mut buffer = Buffer::new();
        self.add(buffer.format(number).as_bytes())
    }

    /// Adds two hexadecimal digits.
    #[inline(always)]
    pub fn add_hex_byte(&mut self, byte: u8) -> Result<(), NoMemory>
        ensures { OnOk result (self.new ≡ self.old ++ byte_as_hex byte) }
    {
        self.add_byte(hex_digit(byte / 16))?;
        self.add_byte(hex_digit(byte % 16))
    }

    /// Adds four hexadecimal digits.
    pub fn add_hex_code(&mut self, code: u16) -> Result<(), NoMemory>
        ensures { OnOk result (self.new ≡ self.old ++ hex_code code) }
    {
        self.add_hex_byte((code / 256) as u8)?;
        self.add_hex_byte((code % 256) as u8)
    }

    /// Adds two hexadecimal digits for each byte.
    pub fn add_hex_bytes(&mut self, bytes: &[u8]) -> Result<(), NoMemory>
        ensures { OnOk result (self.new ≡ self.old ++ hex_text bytes.now) }
    {
        let Some(more) = bytes.len().checked_mul(2) else {
            return Err(NoMemory);
        };
        match self.bytes.reserve(more) {
            Ok(()) => {
                put_hex(&mut self.bytes, bytes);
                Ok(())
            }
            Err(_) => Err(NoMemory),
        }
    }
}
