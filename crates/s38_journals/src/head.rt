ghost use Rattle.std.specs.Prelude.{◌≡◌, ◌≤◌, IsTrue, length};
ghost use Rattle.s38_journals.specs.Entries.{fits_head, head, logged_entry};

use crate::entry::{HEAD, JournalEntry};
use byteorder::{BigEndian, ByteOrder};

/// The bytes of an entry before those of the data: the length of the whole, the sequence, the unit, the process, the
/// kind, the data space, the ordinal, and the lengths of the data before and after.
#[tactic(auto, unfolding(crate::specs::Entries::head))]
pub fn head_of(sequence: u64, entry: &JournalEntry) -> [u8; HEAD]
    requires before { length entry.now.before.now ≤ 65535 }
    requires after { length entry.now.after.now ≤ 65535 }
    ensures head { result ≡ head sequence (logged_entry entry.now) }
    ensures len { length result ≡ 41 }
    ensures fits { IsTrue (fits_head (logged_entry entry.now)) }
{
    let mut head = [0; HEAD];
    BigEndian::write_u32(&mut head, entry.len());
    BigEndian::write_u64(&mut head[4..], sequence);
    BigEndian::write_u64(&mut head[12..], entry.unit);
    BigEndian::write_u32(&mut head[20..], entry.process);
    head[24] = entry.kind.code();
    BigEndian::write_u64(&mut head[25..], entry.object.0);
    BigEndian::write_u32(&mut head[33..], entry.ordinal);
    BigEndian::write_u16(&mut head[37..], entry.before.len() as u16);
    BigEndian::write_u16(&mut head[39..], entry.after.len() as u16);
    head
}
