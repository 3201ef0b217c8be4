ghost use Rattle.std.specs.Bool.{OnTrue};
ghost use Rattle.std.specs.Prelude.{◌≡◌, ◌+◌, ◌*◌, ◌≤◌, ◌<◌, [], IfErr, IfNone, IsErrOf, IsTrue, None, OnOk, OnErr, length, option_map, sum_by};
ghost use Rattle.std.specs.Option.{option_copied, unwrap_or};
ghost use Rattle.s38_journals.specs.Entries.{entry_image, fits_head, is_end, journal_entry_len, logged_entry};
ghost use Rattle.s38_journals.specs.Stored.{with_piece};
ghost use Rattle.s38_journals.specs.Journals.{appended, bytes_wanted, can_write, entries_len, entry_bytes_at, forced, journal_entry_at, journal_image, journal_with, journal_with_room, may_all_be_from, room_refusal};

use crate::entry::{HEAD, JournalEntry};
use crate::fault::JournalFault;
use crate::head::head_of;
use crate::pieces::Pieces;
use crate::read::entry_of;
use std::alloc::Global;
use std::marker::Model;

/// How many bytes the entries of a journal may have together.
const LARGEST: u64 = 16_777_216;

/// The entries of a journal space, numbered from 1 on by their sequence. Contracts see it as the list of its entries,
/// and beside it how many further bytes of entries take no memory and how many were not forced to the disk.
#[derive(Drop)]
pub struct Journal {
    unforced: u32,
    pieces: Pieces,
}

impl Model for Journal {
    ghost use Rattle.std.specs.Prelude.{map};
    ghost use Rattle.s38_journals.specs.Journals.{IsJournal, JournalList};
    ghost use Rattle.s38_journals.specs.Stored.{entry_of};

    ghost Value = { JournalList };

    ghost view = { λ j. record { spare = j.pieces.spare; unforced = j.unforced; entries = map entry_of j.pieces.pieces } };

    ghost invariant = { λ j. IsJournal j.unforced j.pieces.pieces };
}

/// How many bytes a change takes, and of each open unit the entry that will end it.
fn wanted(bytes: u32, units: u32) -> u64
    ensures { result ≡ bytes_wanted bytes units }
{
    u64::from(bytes) + HEAD as u64 * u64::from(units)
}

/// Adds the bytes of an entry, without memory, and answers how many they are.
#[tactic(auto, using(crate::proofs::EntryLaws::image_length))]
fn push_entry(pieces: &mut Pieces, sequence: u64, entry: &JournalEntry) -> u32
    requires before { length entry.now.before.now ≤ 65535 }
    requires after { length entry.now.after.now ≤ 65535 }
    requires room { journal_entry_len (logged_entry entry.now) ≤ pieces.old.spare }
    ensures pushed { pieces.new ≡ with_piece pieces.old (entry_image sequence (logged_entry entry.now)) }
    ensures len { result ≡ journal_entry_len (logged_entry entry.now) }
    ensures fits { IsTrue (fits_head (logged_entry entry.now)) }
    ensures small { sum_by length pieces.new.pieces ≤ 16777216 }
{
    pieces.push(&head_of(sequence, entry), entry.before, entry.after);
    entry.len()
}

impl Journal {
    /// A journal without an entry; it takes no memory until it grows.
    pub fn new(alloc: Global) -> Journal
        ensures { result ≡ record { spare = 0; unforced = 0; entries = [] } }
    {
        Journal {
            unforced: 0,
            pieces: Pieces::new(alloc),
        }
    }

    /// The last sequence; 0 where there is no entry. Each entry keeps to the format.
    pub fn last(&self) -> u64
        ensures last { result ≡ length self.now.entries }
        ensures stand { IsTrue (may_all_be_from 1 self.now.entries) }
        ensures bound { 41 * result ≤ 16777216 }
    {
        self.pieces.count() as u64
    }

    /// How many bytes all entries have together.
    #[tactic(auto, using(crate::proofs::JournalLaws::kept_len))]
    pub fn len(&self) -> u32
        ensures len { result ≡ entries_len self.now.entries }
        ensures room { result + self.now.spare ≤ 16777216 }
    {
        self.pieces.len()
    }

    /// The bytes of the entry of a sequence; None where there is none.
    #[tactic(auto, using(crate::proofs::JournalLaws::found_bytes))]
    pub fn entry(&self, seq: u64) -> Option<&[u8]>
        ensures bytes { option_copied result ≡ entry_bytes_at self.now.entries seq }
        ensures stand { IsTrue (may_all_be_from 1 self.now.entries) }
    {
        let pieces = &self.pieces;
        if seq == 0 {
            return None;
        }
        pieces.get((seq - 1) as usize)
    }

    /// What the entry of a sequence says; None where there is none.
    pub fn get(&self, seq: u64) -> Option<JournalEntry<'_>>
        ensures { option_map logged_entry result ≡ journal_entry_at self.now.entries seq }
    {
        match self.entry(seq) {
            Some(bytes) => Some(entry_of(bytes)),
            None => None,
        }
    }

    /// The bytes of all entries, one after another.
    #[tactic(auto, using(crate::proofs::JournalLaws::kept_image))]
    pub fn image(&self) -> &[u8]
        ensures { result.now ≡ journal_image 1 self.now.entries }
    {
        self.pieces.bytes()
    }

    /// How many bytes, of the last entries, were not forced to the disk.
    #[tactic(auto, using(crate::proofs::JournalLaws::kept_len))]
    pub fn unforced(&self) -> u32
        ensures unforced { result ≡ self.now.unforced }
        ensures within { result ≤ entries_len self.now.entries }
    {
        self.unforced
    }

    /// Notes that all entries were forced to the disk.
    pub fn set_forced(&mut self)
        ensures { self.new ≡ forced self.old }
    {
        self.unforced = 0;
    }

    /// Why there is no room for a change and the ends of the open units: the entries would have more than 16,777,216
    /// bytes.
    #[tactic(auto, using(crate::proofs::JournalLaws::kept_len))]
    fn room_refusal(&self, bytes: u32, units: u32) -> Option<JournalFault>
        ensures refusal { result ≡ room_refusal self.now bytes units }
        ensures fits { IfNone result (entries_len self.now.entries + bytes_wanted bytes units ≤ 16777216) }
    {
        if u64::from(self.pieces.len()) + wanted(bytes, units) > LARGEST {
            return Some(JournalFault::Full);
        }
        None
    }

    /// Takes the memory of the entries of a change, in bytes, and of the ends of all open units, the one of the change
    /// included, so that later entries take none while the spare number reaches. It is refused where the entries would
    /// have more than 16,777,216 bytes; `NoMemory` where memory was refused, which is not so where the spare number
    /// reaches already. Where it is refused, nothing changes.
    #[tactic(auto, using(crate::proofs::JournalLaws::kept_len))]
    pub fn reserve(&mut self, bytes: u32, units: u32) -> Result<(), JournalFault>
        ensures accepted { OnOk result (room_refusal self.old bytes units ≡ None) }
        ensures ok { OnOk result (self.new ≡ journal_with_room self.old bytes units) }
        ensures fault { IfErr result (λ fault. fault ≡ unwrap_or (room_refusal self.old bytes units) JournalFault.NoMemory) }
        ensures err { OnErr result (self.new ≡ self.old) }
        ensures room { IsErrOf result JournalFault.NoMemory → self.old.spare < bytes_wanted bytes units }
    {
        if let Some(fault) = self.room_refusal(bytes, units) {
            return Err(fault);
        }
        if self.pieces.reserve(wanted(bytes, units) as u32).is_err() {
            return Err(JournalFault::NoMemory);
        }
        Ok(())
    }

    /// How many further bytes of entries take no memory.
    pub fn spare(&self) -> u32
        ensures { result ≡ self.now.spare }
    {
        self.pieces.spare()
    }

    /// Gives room up that was reserved, down to a spare number; the memory stays.
    pub fn release(&mut self, spare: u32)
        requires { spare ≤ self.old.spare }
        ensures { self.new ≡ record self.old { spare = spare } }
    {
        self.pieces.release(spare);
    }

    /// Adds an entry, without memory, and answers its sequence. The spare number falls by the entry's length.
    pub fn append(&mut self, entry: &JournalEntry) -> u64
        requires unit { entry.now.unit ≤ length self.old.entries + 1 }
        requires end { IsTrue (is_end entry.now.kind) → (entry.now.object.0 ≡ 0) × (entry.now.ordinal ≡ 0) }
        requires before { length entry.now.before.now ≤ 65535 }
        requires after { length entry.now.after.now ≤ 65535 }
        requires room { journal_entry_len (logged_entry entry.now) ≤ self.old.spare }
        ensures sequence { result ≡ length self.old.entries + 1 }
        ensures appended { self.new ≡ appended self.old (logged_entry entry.now) }
    {
        let sequence = self.last() + 1;
        self.unforced += push_entry(&mut self.pieces, sequence, entry);
        sequence
    }

    /// Whether an entry may be written next: it may come next, and its room is reserved.
    fn can_write(&self, entry: &JournalEntry) -> bool
        ensures can { result ≡ can_write self.now (logged_entry entry.now) }
        ensures unit { OnTrue result (entry.now.unit ≤ length self.now.entries + 1) }
        ensures end { OnTrue result (IsTrue (is_end entry.now.kind) → (entry.now.object.0 ≡ 0) × (entry.now.ordinal ≡ 0)) }
        ensures before { OnTrue result (length entry.now.before.now ≤ 65535) }
        ensures after { OnTrue result (length entry.now.after.now ≤ 65535) }
        ensures room { OnTrue result (journal_entry_len (logged_entry entry.now) ≤ self.now.spare) }
    {
        entry.may_be_at(self.last() + 1) && entry.len() <= self.spare()
    }

    /// Adds an entry, without memory, where it may come next and the spare number reaches; else nothing changes.
    pub fn write(&mut self, entry: &JournalEntry)
        ensures { self.new ≡ journal_with self.old (logged_entry entry.now) }
    {
        if self.can_write(entry) {
            self.append(entry);
        }
    }
}
