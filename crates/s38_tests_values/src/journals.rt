//! How many bytes of a journal are unforced.

use s38_base::ObjNum;
use s38_journals::{EntryKind, Journal, JournalEntry, JournalFault};
use std::test::Fail;

const INSERT: JournalEntry<'static> = JournalEntry {
    unit: 1,
    process: 2,
    kind: EntryKind::Insert,
    object: ObjNum(0x0102),
    ordinal: 3,
    before: b"",
    after: b"ab",
};

const UPDATE: JournalEntry<'static> = JournalEntry {
    unit: 1,
    process: 2,
    kind: EntryKind::Update,
    object: ObjNum(0x0102),
    ordinal: 3,
    before: b"ab",
    after: b"cd",
};

/// Adds an entry, and answers its sequence; None where it may not be there.
fn added(journal: &mut Journal, entry: &JournalEntry) -> Result<Option<u64>, JournalFault> {
    if !entry.may_be_at(journal.last() + 1) {
        return Ok(None);
    }
    journal.reserve(entry.len(), 0)?;
    Ok(Some(journal.append(entry)))
}

#[test]
fn bytes_are_unforced_until_they_are_forced(rt: HostRuntime) -> Result<(), Fail> {
    let mut journal = Journal::new(rt.alloc());
    assert_eq!(rt; added(&mut journal, &INSERT), Ok(Some(1)));
    journal.set_forced();
    assert_eq!(rt; added(&mut journal, &UPDATE), Ok(Some(2)));
    assert_eq!(rt; (journal.len(), journal.unforced()), (88, 45));
    Ok(())
}

/// There is room for as many bytes as a journal space may have, less those that the ends of open units will take.
#[test]
fn a_journal_is_full_with_the_ends_of_open_units(rt: HostRuntime) -> Result<(), Fail> {
    let mut journal = Journal::new(rt.alloc());
    assert_eq!(rt; added(&mut journal, &INSERT), Ok(Some(1)));
    for (bytes, ends, want) in [
        (16_777_092, 2, Err(JournalFault::Full)),
        (16_777_091, 2, Ok(())),
        (u32::MAX, u32::MAX, Err(JournalFault::Full)),
    ] {
        assert_eq!(rt; journal.reserve(bytes, ends), want);
    }
    Ok(())
}
