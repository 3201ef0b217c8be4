ghost use Rattle.std.specs.Prelude.{◌≡◌, ◌<◌};
ghost use Rattle.s38_words.specs.Row.{lock_state_of, order_spelled, pointer_kind_of, relation_spelled, seek_spelled, specials_of, star_of, switch_of, wait_of};

use crate::texts::is_word;

/// What a word with a star means.
#[derive(Clone, Copy, PartialEq, Eq, Debug)]
pub enum StarWord {
    /// `*NONE`
    NoObject,
    /// `*MACHINE`
    MachineContext,
    /// `*LIST`
    ContextList,
    /// `*PUBLIC`
    Public,
}

/// The bits of the special authorities that a word names: NONE, ALLOBJ, PROFILE or ALLOBJ+PROFILE.
pub fn specials(word: &[u8]) -> Option<u8>
    ensures { result ≡ specials_of word.now }
{
    if is_word(b"NONE", word) {
        Some(0)
    } else if is_word(b"ALLOBJ", word) {
        Some(0x80)
    } else if is_word(b"PROFILE", word) {
        Some(0x40)
    } else if is_word(b"ALLOBJ+PROFILE", word) {
        Some(0xC0)
    } else {
        None
    }
}

/// The number of a lock state: LSRD, LSRO, LSUP, LEAR and LENR are 0 to 4.
pub fn lock_state(word: &[u8]) -> Option<u32>
    ensures { result ≡ lock_state_of word.now }
{
    if is_word(b"LSRD", word) {
        Some(0)
    } else if is_word(b"LSRO", word) {
        Some(1)
    } else if is_word(b"LSUP", word) {
        Some(2)
    } else if is_word(b"LEAR", word) {
        Some(3)
    } else if is_word(b"LENR", word) {
        Some(4)
    } else {
        None
    }
}

/// 0 for NOWAIT and 1 for WAIT.
pub fn wait(word: &[u8]) -> Option<u32>
    ensures { result ≡ wait_of word.now }
{
    if is_word(b"NOWAIT", word) {
        Some(0)
    } else if is_word(b"WAIT", word) {
        Some(1)
    } else {
        None
    }
}

/// The number of a relation: EQ, NE, LO, HI, NL, NH, ANY, FIRST and LAST are 0 to 8.
#[tactic(auto, unfolding(crate::specs::Row::relation_spelled))]
pub fn relation(word: &[u8]) -> Option<u32>
    ensures { result ≡ relation_spelled word.now }
{
    if is_word(b"EQ", word) {
        Some(0)
    } else if is_word(b"NE", word) {
        Some(1)
    } else if is_word(b"LO", word) {
        Some(2)
    } else if is_word(b"HI", word) {
        Some(3)
    } else if is_word(b"NL", word) {
        Some(4)
    } else if is_word(b"NH", word) {
        Some(5)
    } else if is_word(b"ANY", word) {
        Some(6)
    } else if is_word(b"FIRST", word) {
        Some(7)
    } else if is_word(b"LAST", word) {
        Some(8)
    } else {
        None
    }
}

/// The number of a queue's order: FIFO, LIFO and KEYED are 0 to 2.
pub fn order(word: &[u8]) -> Option<u32>
    ensures { result ≡ order_spelled word.now }
{
    if is_word(b"FIFO", word) {
        Some(0)
    } else if is_word(b"LIFO", word) {
        Some(1)
    } else if is_word(b"KEYED", word) {
        Some(2)
    } else {
        None
    }
}

/// The number of the word that says where a cursor goes: FIRST, LAST, NEXT, PREV and AT are 0 to 4.
pub fn seek(word: &[u8]) -> Option<u32>
    ensures { result ≡ seek_spelled word.now }
{
    if is_word(b"FIRST", word) {
        Some(0)
    } else if is_word(b"LAST", word) {
        Some(1)
    } else if is_word(b"NEXT", word) {
        Some(2)
    } else if is_word(b"PREV", word) {
        Some(3)
    } else if is_word(b"AT", word) {
        Some(4)
    } else {
        None
    }
}

/// The number of a kind of pointers: SYS, SPC, DTA and NONE are 0 to 3.
pub fn pointer_kind(word: &[u8]) -> Option<u32>
    ensures { result ≡ pointer_kind_of word.now }
{
    if is_word(b"SYS", word) {
        Some(0)
    } else if is_word(b"SPC", word) {
        Some(1)
    } else if is_word(b"DTA", word) {
        Some(2)
    } else if is_word(b"NONE", word) {
        Some(3)
    } else {
        None
    }
}

/// 0 for ON and 1 for OFF.
pub fn switch(word: &[u8]) -> Option<u32>
    ensures { result ≡ switch_of word.now }
{
    if is_word(b"ON", word) {
        Some(0)
    } else if is_word(b"OFF", word) {
        Some(1)
    } else {
        None
    }
}

/// What a word with a star means: *NONE, *MACHINE, *LIST or *PUBLIC.
pub fn star(word: &[u8]) -> Option<StarWord>
    ensures { result ≡ star_of word.now }
{
    if is_word(b"*NONE", word) {
        Some(StarWord::NoObject)
    } else if is_word(b"*MACHINE", word) {
        Some(StarWord::MachineContext)
    } else if is_word(b"*LIST", word) {
        Some(StarWord::ContextList)
    } else if is_word(b"*PUBLIC", word) {
        Some(StarWord::Public)
    } else {
        None
    }
}
