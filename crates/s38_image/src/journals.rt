//! The body of a journal space.
ghost use Rattle.std.specs.Prelude.{◌≡◌, ◌+◌, ◌++◌, ◌∷◌, [], IfErr, IfOk, None, OnOk, Some, length, true, if◌then◌else◌};
ghost use Rattle.s38_codec.specs.Reading.{Gives};
ghost use Rattle.s38_image.specs.Journals.{entry as entry_format, entry_kind, is_entry_kind, journal};
ghost use Rattle.s38_image.specs.Steps.{has_entry, journal_of};
ghost use Rattle.s38_journals.specs.Entries.{logged_entry, may_be_at};
ghost use Rattle.s38_journals.specs.Stored.{entry_kind_of};

use crate::heads::object_at;
use s38_codec::{ReadFault, byte_at, bytes_at, u16_at, u32_at, u64_at};
use s38_journals::{EntryKind, Journal, JournalEntry};
use std::alloc::Global;

/// The kind of entries of a number.
fn kind_of(code: u8) -> Option<EntryKind>
    ensures { result ≡ (if is_entry_kind code then Some (entry_kind_of code) else None) }
{
    match code {
        1 => Some(EntryKind::Insert),
        2 => Some(EntryKind::Update),
        3 => Some(EntryKind::Delete),
        4 => Some(EntryKind::Commit),
        5 => Some(EntryKind::Decommit),
        _ => None,
    }
}

/// The number of a kind of entries, 1 to 5.
fn kind_at(from: &[u8]) -> Result<(EntryKind, &[u8]), ReadFault>
    ensures { Gives (λ x. (x.0, x.1.now)) result (entry_kind.read from.now) }
{
    let (code, rest) = byte_at(from)?;
    match kind_of(code) {
        Some(kind) => Ok((kind, rest)),
        None => Err(ReadFault::BadForm),
    }
}

/// Whether an entry may have a sequence, where it says so long a length and this sequence.
fn is_entry(sequence: u64, len: u32, said: u64, entry: &JournalEntry) -> bool
    ensures { result ≡ has_entry sequence len said (logged_entry entry.now) }
{
    said == sequence && entry.may_be_at(sequence) && len == entry.len()
}

/// The entry of a sequence.
fn entry_at(sequence: u64, from: &[u8]) -> Result<(JournalEntry<'_>, &[u8]), ReadFault>
    ensures read { Gives (λ x. (logged_entry x.0, x.1.now)) result ((entry_format sequence).read from.now) }
    ensures stands { IfOk result (λ x. may_be_at sequence (logged_entry x.0) ≡ true) }
{
    let (len, rest) = u32_at(from)?;
    let (said, rest) = u64_at(rest)?;
    let (unit, rest) = u64_at(rest)?;
    let (process, rest) = u32_at(rest)?;
    let (kind, rest) = kind_at(rest)?;
    let (object, rest) = object_at(rest)?;
    let (ordinal, rest) = u32_at(rest)?;
    let (before_len, rest) = u16_at(rest)?;
    let (after_len, rest) = u16_at(rest)?;
    let (before, rest) = bytes_at(usize::from(before_len), rest)?;
    let (after, rest) = bytes_at(usize::from(after_len), rest)?;
    let entry = JournalEntry {
        unit,
        process,
        kind,
        object,
        ordinal,
        before,
        after,
    };
    if !is_entry(sequence, len, said, &entry) {
        return Err(ReadFault::BadForm);
    }
    Ok((entry, rest))
}

/// Adds an entry that may come next. The entries are no longer than the bytes that are read, so there is always room.
fn add(journal: &mut Journal, entry: &JournalEntry) -> Result<(), ReadFault>
    requires spare { journal.old.spare ≡ 0 }
    requires stands { may_be_at (length journal.old.entries + 1) (logged_entry entry.now) ≡ true }
    ensures entries { OnOk result (journal.new.entries ≡ journal.old.entries ++ logged_entry entry.now ∷ []) }
    ensures spare { OnOk result (journal.new.spare ≡ 0) }
    ensures err { IfErr result (λ fault. fault ≡ ReadFault.NoMemory) }
{
    if journal.reserve(entry.len(), 0).is_err() {
        return Err(ReadFault::NoMemory);
    }
    journal.write(entry);
    Ok(())
}

/// A journal of the entries that fill the bytes, before it is said to be forced.
fn entries_in(alloc: Global, from: &[u8]) -> Result<Journal, ReadFault>
    ensures read { Gives (λ journal. journal.entries) result (journal.read from.now) }
    ensures spare { IfOk result (λ journal. journal.spare ≡ 0) }
{
    let mut journal = Journal::new(alloc);
    let mut rest = from;
    for place in 0..from.len() {
        if rest.is_empty() {
            return Ok(journal);
        }
        let (entry, after) = entry_at(place as u64 + 1, rest)?;
        add(&mut journal, &entry)?;
        rest = after;
    }
    if !rest.is_empty() {
        return Err(ReadFault::BadForm);
    }
    Ok(journal)
}

/// The journal space that the bytes of a body hold; all its entries are forced.
pub fn journal_in(alloc: Global, bytes: &[u8]) -> Result<Journal, ReadFault>
    ensures read { Gives (λ journal. journal.entries) result (journal.read bytes.now) }
    ensures forced { IfOk result (λ journal. journal ≡ journal_of journal.entries) }
{
    let mut journal = entries_in(alloc, bytes)?;
    journal.set_forced();
    Ok(journal)
}
