ghost use Rattle.std.specs.Prelude.{◌≡◌, ◌+◌, ◌≤◌, drop, length};
ghost use Rattle.byteorder.specs.Endian.{big_number};
ghost use Rattle.s38_journals.specs.Entries.{logged_entry};
ghost use Rattle.s38_journals.specs.Stored.{entry_kind_of, entry_of};

use crate::entry::{EntryKind, HEAD, JournalEntry};
use byteorder::{BigEndian, ByteOrder};
use s38_base::ObjNum;

/// The kind of a number; the last kind for any number that is of none.
fn kind_of(code: u8) -> EntryKind
    ensures { result ≡ entry_kind_of code }
{
    match code {
        1 => EntryKind::Insert,
        2 => EntryKind::Update,
        3 => EntryKind::Delete,
        4 => EntryKind::Commit,
        _ => EntryKind::Decommit,
    }
}

/// What the bytes of an entry say.
#[tactic(auto, unfolding(crate::specs::Stored::entry_of))]
pub fn entry_of(bytes: &[u8]) -> JournalEntry<'_>
    requires head { 41 ≤ length bytes.now }
    requires before { 41 + big_number 2 (drop 37 bytes.now) ≤ length bytes.now }
    ensures { logged_entry result ≡ entry_of bytes.now }
{
    let (before, after) = bytes[HEAD..].split_at(usize::from(BigEndian::read_u16(&bytes[37..])));
    JournalEntry {
        unit: BigEndian::read_u64(&bytes[12..]),
        process: BigEndian::read_u32(&bytes[20..]),
        kind: kind_of(bytes[24]),
        object: ObjNum(BigEndian::read_u64(&bytes[25..])),
        ordinal: BigEndian::read_u32(&bytes[33..]),
        before,
        after,
    }
}
