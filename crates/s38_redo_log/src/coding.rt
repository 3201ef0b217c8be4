//! Blocks as they are written and read.
ghost use Rattle.std.specs.Prelude.{◌≡◌, ◌⊎◌, ◌+◌, ◌≤◌, ◌<◌, ◌^◌, ℕ, false, true, get_or, length};
ghost use Rattle.s38_redo_log.specs.Coding.{home_block, home_is_used, is_store_label, is_up, key_in, number_in_bytes, page_in, word_in};

use s38_base::{Key, Page};
use s38_disk::Block;

/// How many bytes a block has.
const BYTES: usize = 528;

/// The block of a home that holds a page. The key and the page are read of it again.
pub fn block_of(key: Key, page: &Page) -> Block
    ensures block { result ≡ home_block key page.now }
    ensures key { key_in result ≡ key }
    ensures page { page_in result ≡ page.now }
{
    encoded(key, page)
}

/// A key and a page, one after the other.
#[tactic(auto, unfolding(crate::specs::Coding::home_block))]
fn encoded(key: Key, page: &Page) -> Block
    ensures block { result ≡ home_block key page.now }
    ensures size { length page.now.bytes ≡ 512 }
    ensures tags { page.now.tags < 2 ^ 32 }
{
    let tags = page.tags;
    let mut bytes = [0; BYTES];
    bytes[0..8].copy_from_slice(&key.object.to_be_bytes());
    bytes[8..12].copy_from_slice(&key.part.to_be_bytes());
    bytes[12..16].copy_from_slice(&tags.to_be_bytes());
    bytes[16..528].copy_from_slice(&page.bytes);
    Block { bytes }
}

/// A block of zeros: a free home, and a gate that is down.
#[tactic(auto, unfolding(crate::specs::Coding::key_in, crate::specs::Coding::is_up))]
pub fn zero_block() -> Block
    ensures free { home_is_used result ≡ false }
    ensures down { is_up result ≡ false }
{
    Block { bytes: [0; BYTES] }
}

/// A gate that is up.
#[tactic(auto, unfolding(crate::specs::Coding::is_up))]
pub fn up_block() -> Block
    ensures { is_up result ≡ true }
{
    let mut bytes = [0; BYTES];
    bytes[0] = b'O';
    Block { bytes }
}

/// A label.
#[tactic(auto, unfolding(crate::specs::Coding::is_store_label))]
pub fn label_block() -> Block
    ensures { is_store_label result ≡ true }
{
    let mut bytes = [0; BYTES];
    bytes[0..8].copy_from_slice(b"S38STOR1");
    Block { bytes }
}

/// The key of a home. Its object is 0 where the home is free.
#[tactic(auto, unfolding(crate::specs::Coding::key_in))]
pub fn key_of(block: &Block) -> Key
    ensures { result ≡ key_in block.now }
{
    let bytes = &block.bytes;
    Key {
        object: u64::from_be_bytes([
            bytes[0], bytes[1], bytes[2], bytes[3], bytes[4], bytes[5], bytes[6], bytes[7],
        ]),
        part: u32::from_be_bytes([bytes[8], bytes[9], bytes[10], bytes[11]]),
    }
}

/// The page of a home.
#[tactic(auto, unfolding(crate::specs::Coding::page_in))]
pub fn page_of(block: &Block) -> Page
    ensures { result ≡ page_in block.now }
{
    let mut bytes = [0; 512];
    bytes.copy_from_slice(&block.bytes[16..528]);
    let tags = &block.bytes[12..16];
    Page {
        bytes,
        tags: u32::from_be_bytes([tags[0], tags[1], tags[2], tags[3]]),
    }
}

/// Whether a gate is up.
#[tactic(auto, unfolding(crate::specs::Coding::is_up))]
pub fn is_up(block: &Block) -> bool
    ensures { result ≡ is_up block.now }
{
    block.bytes[0] == b'O'
}

/// Whether a block is a label.
#[tactic(auto, unfolding(crate::specs::Coding::is_store_label))]
pub fn is_label(block: &Block) -> bool
    ensures { result ≡ is_store_label block.now }
{
    let bytes = &block.bytes;
    u64::from_be_bytes([
        bytes[0], bytes[1], bytes[2], bytes[3], bytes[4], bytes[5], bytes[6], bytes[7],
    ]) == 0x5333_3853_544f_5231
}

/// The number at a place of a block of the log.
#[tactic(auto, unfolding(crate::specs::Coding::number_in_bytes))]
pub fn word_of(block: &Block, place: usize) -> u32
    requires { place < 132 }
    ensures { result ≡ word_in block.now place }
{
    let at = 4 * place;
    let bytes = &block.bytes;
    u32::from_be_bytes([bytes[at], bytes[at + 1], bytes[at + 2], bytes[at + 3]])
}

/// Writes a number into four bytes.
pub fn set_word(bytes: &mut [u8; 528], at: usize, number: u32)
    requires { at + 4 ≤ 528 }
    ensures here { number_in_bytes bytes.new at ≡ number }
    ensures rest { (i : ℕ) → (i < at) ⊎ (at + 4 ≤ i) → get_or bytes.new i 0 ≡ get_or bytes.old i 0 }
{
    let [first, second, third, fourth] = number.to_be_bytes();
    bytes[at] = first;
    bytes[at + 1] = second;
    bytes[at + 2] = third;
    bytes[at + 3] = fourth;
}
