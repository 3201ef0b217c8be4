//! Data spaces that are made again of an image, the sequence up to which it counts its journal space in, and the entries
//! of that.

use s38_base::{Attr, ObjNum, Seq};
use s38_dataspaces::DataSpace;
use s38_journals::{EntryKind, Journal, JournalEntry};
use s38_restart::redo;
use std::alloc::Global;
use std::test::Fail;

const FIELDS: &[Attr] = &[Attr::Chars { len: 1 }];

const SPACE: ObjNum = ObjNum(9);

const OTHER: ObjNum = ObjNum(8);

/// An entry: its unit, what it tells, its object and ordinal, and the bytes after it.
type Told = (u64, EntryKind, ObjNum, u32, &'static [u8]);

/// Unit 1 inserts and updates, unit 3 updates; unit 1 is committed, and unit 3 is not.
const UNITS: &[Told] = &[
    (1, EntryKind::Insert, SPACE, 3, b"c"),
    (1, EntryKind::Update, SPACE, 1, b"x"),
    (3, EntryKind::Update, SPACE, 2, b"y"),
    (1, EntryKind::Commit, ObjNum(0), 0, b""),
];

/// What belongs to no unit: an insert past the last ordinal, a delete, and an entry of another data space.
const ALONE: &[Told] = &[
    (0, EntryKind::Insert, SPACE, 5, b"e"),
    (0, EntryKind::Delete, SPACE, 1, b""),
    (0, EntryKind::Update, OTHER, 2, b"z"),
];

/// What does not fit: ordinal 0, two bytes, an update and a delete where there is no entry, and an ordinal for which
/// the limit of a body has no room.
const MISFITS: &[Told] = &[
    (0, EntryKind::Insert, SPACE, 0, b"n"),
    (0, EntryKind::Insert, SPACE, 3, b"no"),
    (0, EntryKind::Update, SPACE, 7, b"n"),
    (0, EntryKind::Delete, SPACE, 7, b""),
    (0, EntryKind::Insert, SPACE, 524_276, b"n"),
];

/// An insert under the last ordinal for which the limit of a body has room: the image takes 25 bytes, and two for each
/// ordinal.
const LAST: &[Told] = &[(0, EntryKind::Insert, SPACE, 524_275, b"n")];

/// The sequence of the image, the entries, and what the space holds then: a byte an ordinal, and a point where none is.
const CASES: &[(u64, &[Told], &[u8])] = &[
    (0, UNITS, b"xbc"),
    (3, UNITS, b"xbc"),
    (4, UNITS, b"ab"),
    (0, ALONE, b".b..e"),
    (1, ALONE, b".b"),
    (3, ALONE, b"ab"),
    (0, MISFITS, b"ab"),
];

fn journal_of(alloc: Global, told: &[Told]) -> Result<Journal, Fail> {
    let mut journal = Journal::new(alloc);
    for (unit, kind, object, ordinal, after) in told {
        let entry = JournalEntry {
            unit: *unit,
            process: 1,
            kind: *kind,
            object: *object,
            ordinal: *ordinal,
            before: b"",
            after,
        };
        if entry.may_be_at(journal.last() + 1) {
            journal.reserve(entry.len(), 0)?;
            journal.append(&entry);
        }
    }
    Ok(journal)
}

/// The image: two entries.
fn image(alloc: Global) -> Result<DataSpace, Fail> {
    let mut space = DataSpace::new(alloc, Seq::from_slice(alloc, FIELDS)?);
    space.insert(b"a")?;
    space.insert(b"b")?;
    Ok(space)
}

fn byte_at(space: &DataSpace, at: u32) -> u8 {
    match space.get(at) {
        Some([byte, ..]) => *byte,
        _ => b'.',
    }
}

#[test]
fn data_spaces_are_made_again(rt: HostRuntime) -> Result<(), Fail> {
    for (sequence, entries, want) in CASES {
        let journal = journal_of(rt.alloc(), entries)?;
        let mut space = image(rt.alloc())?;
        redo(rt.alloc(), &mut space, SPACE, *sequence, &journal)?;
        assert_eq!(rt;
            (journal.last() as usize, space.ordinals() as usize),
            (entries.len(), want.len())
        );
        for (k, byte) in want.iter().enumerate() {
            assert_eq!(rt; byte_at(&space, k as u32 + 1), *byte);
        }
    }
    Ok(())
}

#[test]
fn the_last_ordinal_that_fits_is_made_again(rt: HostRuntime) -> Result<(), Fail> {
    let journal = journal_of(rt.alloc(), LAST)?;
    let mut space = image(rt.alloc())?;
    redo(rt.alloc(), &mut space, SPACE, 0, &journal)?;
    assert_eq!(rt;
        (space.ordinals(), byte_at(&space, 524_275)),
        (524_275, b'n')
    );
    Ok(())
}
