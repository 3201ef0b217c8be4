ghost use Rattle.std.specs.Bool.{OnTrue};
ghost use Rattle.std.specs.Prelude.{◌≡◌, ◌≤◌, IsTrue, length};
ghost use Rattle.s38_journals.specs.Entries.{entry_kind_code, is_end, journal_entry_len, logged_entry, may_be_at};

use s38_base::ObjNum;

/// How many bytes of an entry come before those of the data.
pub const HEAD: usize = 41;

/// How many bytes the data before, and the data after, may have.
const LONGEST: usize = 65_535;

/// What an entry tells of: a change of a data space, or how a unit of changes ended.
#[derive(Clone, Copy, PartialEq, Eq, Debug)]
pub enum EntryKind {
    Insert,
    Update,
    Delete,
    Commit,
    Decommit,
}

impl EntryKind {
    /// The number of the kind in an entry, 1 to 5.
    pub fn code(self) -> u8
        ensures { result ≡ entry_kind_code self }
    {
        match self {
            EntryKind::Insert => 1,
            EntryKind::Update => 2,
            EntryKind::Delete => 3,
            EntryKind::Commit => 4,
            EntryKind::Decommit => 5,
        }
    }

    /// Whether an entry of this kind ends a unit of changes.
    pub fn is_end(self) -> bool
        ensures { result ≡ is_end self }
    {
        matches!(self, EntryKind::Commit | EntryKind::Decommit)
    }
}

/// What an entry says: the unit of changes that it belongs to (0 for none), the process, what was done to which
/// ordinal of which data space, and the data before and after.
#[derive(Clone, Copy, PartialEq, Eq, Debug)]
pub struct JournalEntry<'a> {
    pub unit: u64,
    pub process: u32,
    pub kind: EntryKind,
    pub object: ObjNum,
    pub ordinal: u32,
    pub before: &'a [u8],
    pub after: &'a [u8],
}

impl<'a> JournalEntry<'a> {
    /// Whether the entry keeps to the format at a sequence: its unit began there or before, the end of a unit names no
    /// data space and no ordinal, and the data have at most 65,535 bytes each.
    pub fn may_be_at(&self, sequence: u64) -> bool
        ensures stands { result ≡ may_be_at sequence (logged_entry self.now) }
        ensures unit { OnTrue result (self.now.unit ≤ sequence) }
        ensures end { OnTrue result (IsTrue (is_end self.now.kind) → (self.now.object.0 ≡ 0) × (self.now.ordinal ≡ 0)) }
        ensures before { OnTrue result (length self.now.before.now ≤ 65535) }
        ensures after { OnTrue result (length self.now.after.now ≤ 65535) }
    {
        let in_turn = self.unit <= sequence;
        let names_none = self.object.0 == 0 && self.ordinal == 0;
        let short = self.before.len() <= LONGEST && self.after.len() <= LONGEST;
        in_turn && (!self.kind.is_end() || names_none) && short
    }

    /// How many bytes the entry takes in the journal.
    pub fn len(&self) -> u32
        requires before { length self.now.before.now ≤ 65535 }
        requires after { length self.now.after.now ≤ 65535 }
        ensures len { result ≡ journal_entry_len (logged_entry self.now) }
        ensures bound { result ≤ 131111 }
    {
        (HEAD + self.before.len() + self.after.len()) as u32
    }
}
