ghost use Rattle.std.specs.Prelude.{◌≡◌, ◌-◌, ◌++◌, ◌∷◌, [], length, replicate, take, IfOk, OnOk, OnErr};
ghost use Rattle.std.specs.Borrow.{sem};
ghost use Rattle.s38_base.specs.Lending.{LendsBytes};

use crate::fault::NoMemory;
use crate::seq::TryClone;
use smallvec::SmallVec;
use std::alloc::Global;
use std::marker::Model;

/// Bytes of a value, of any number: up to sixteen lie in the value itself, and more on the heap. Contracts see them as
/// the list of the bytes.
#[derive(Drop, Debug)]
pub struct Bytes {
    items: SmallVec<u8, 16>,
}

impl Model for Bytes {
    ghost use Rattle.std.specs.Prelude.{List, ℕ};

    ghost Value = { List ℕ };

    ghost view = { λ b. b.items.items };
}

impl Bytes {
    /// No bytes.
    pub fn new(alloc: Global) -> Bytes
        ensures { result ≡ [] }
    {
        Bytes {
            items: SmallVec::new(alloc),
        }
    }

    /// The bytes of a vector; many are not copied.
    pub fn from_vec(bytes: Vec<u8>) -> Bytes
        ensures { result ≡ bytes.items }
    {
        Bytes {
            items: SmallVec::from_vec(bytes),
        }
    }

    /// A copy of these bytes.
    pub fn from_slice(alloc: Global, bytes: &[u8]) -> Result<Bytes, NoMemory>
        ensures { IfOk result (λ made. made ≡ bytes.now) }
    {
        match SmallVec::from_slice(alloc, bytes) {
            Ok(items) => Ok(Bytes { items }),
            Err(_) => Err(NoMemory),
        }
    }

    /// One byte, so many times.
    pub fn repeated(alloc: Global, byte: u8, len: usize) -> Result<Bytes, NoMemory>
        ensures { IfOk result (λ made. made ≡ replicate len byte) }
    {
        match SmallVec::from_elem(alloc, byte, len) {
            Ok(items) => Ok(Bytes { items }),
            Err(_) => Err(NoMemory),
        }
    }

    /// The bytes.
    pub fn as_slice(&self) -> &[u8]
        ensures { result.now ≡ self.now }
    {
        self.items.as_slice()
    }

    /// The bytes, for writing.
    pub fn as_mut_slice(&mut self) -> &mut [u8]
        ensures* writes_back { sem 𝓛 (LendsBytes self.entry result) }
        ensures value { result.now ≡ self.old }
    {
        self.items.as_mut_slice()
    }

    /// How many they are.
    pub fn len(&self) -> usize
        ensures { result ≡ length self.now }
    {
        self.items.len()
    }

    /// Adds a byte at the end; an error leaves them as they were.
    pub fn push(&mut self, byte: u8) -> Result<(), NoMemory>
        ensures ok { OnOk result (self.new ≡ self.old ++ byte ∷ []) }
        ensures err { OnErr result (self.new ≡ self.old) }
    {
        match self.items.push(byte) {
            Ok(()) => Ok(()),
            Err(_) => Err(NoMemory),
        }
    }

    /// Keeps the first `len` bytes, or fills up to so many; an error leaves them as they were.
    pub fn resize(&mut self, len: usize, fill: u8) -> Result<(), NoMemory>
        ensures ok { OnOk result (self.new ≡ take len self.old ++ replicate (len - length self.old) fill) }
        ensures err { OnErr result (self.new ≡ self.old) }
    {
        match self.items.resize(len, fill) {
            Ok(()) => Ok(()),
            Err(_) => Err(NoMemory),
        }
    }
}

impl TryClone for Bytes {
    fn try_clone(&self, alloc: Global) -> Result<Self, NoMemory> {
        Bytes::from_slice(alloc, self.as_slice())
    }
}
