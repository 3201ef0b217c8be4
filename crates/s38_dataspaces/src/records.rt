ghost use Rattle.std.specs.Prelude.{◌≡◌, ◌==◌, ◌≤◌, ◌<◌, ◌++◌, ◌∷◌, [], Some, None, IfSome, IsErr, IsOk, IsTrue, OnOk, OnErr, length, map, is_some, not};
ghost use Rattle.std.specs.List.{list_all};
ghost use Rattle.std.specs.Option.{option_copied};
ghost use Rattle.s38_dataspaces.specs.Entries.{entry_at, has_width, put_at, with_new_entry};

use crate::slots;
use s38_base::NoMemory;
use std::alloc::Global;
use std::marker::Model;

/// Entries of one width, numbered from 1 on.
#[derive(Drop)]
pub struct Records {
    width: usize,
    spare: u32,
    presence: Vec<bool>,
    bytes: Vec<u8>,
}

impl Model for Records {
    ghost use Rattle.std.specs.Prelude.{vec_capacity, vec_len};
    ghost use Rattle.s38_dataspaces.specs.Entries.{IsWhole, KeptEntries, entries_stored};

    ghost Value = { KeptEntries };

    ghost view = { λ r. record { width = r.width; spare = r.spare; entries = entries_stored r.width r.presence.items r.bytes.items } };

    ghost invariant = { λ r. IsWhole r.width r.spare (vec_len r.presence) (vec_capacity r.presence) (vec_len r.bytes) (vec_capacity r.bytes) };
}

impl Records {
    /// No entries; it takes no memory until it grows.
    pub fn new(alloc: Global, width: usize) -> Records
        ensures { result ≡ record { width = width; spare = 0; entries = [] } }
    {
        Records {
            width,
            spare: 0,
            presence: Vec::new(alloc),
            bytes: Vec::new(alloc),
        }
    }

    /// How many bytes an entry has.
    pub fn width(&self) -> usize
        ensures { result ≡ self.now.width }
    {
        self.width
    }

    /// How many ordinals there are, deleted ones included. Each entry has the width of all.
    #[tactic(auto, using(crate::proofs::StoredLaws::stored_count))]
    pub fn count(&self) -> usize
        ensures count { result ≡ length self.now.entries }
        ensures widths { IsTrue (list_all (has_width self.now.width) self.now.entries) }
    {
        self.presence.len()
    }

    /// Of each ordinal, from 1 on, whether its entry is present.
    #[tactic(auto, using(crate::proofs::StoredLaws::stored_presence))]
    pub fn presence(&self) -> &[bool]
        ensures { result.now ≡ map (λ entry. is_some entry) self.now.entries }
    {
        self.presence.as_slice()
    }

    /// The entry of an ordinal; None where it is deleted, and where there is no such ordinal.
    pub fn get(&self, at: usize) -> Option<&[u8]>
        ensures entry { option_copied result ≡ entry_at self.now.entries at }
        ensures len { IfSome result (λ entry. length entry.now ≡ self.now.width) }
    {
        slots::entry_in(&self.presence, &self.bytes, at, self.width)
    }

    /// Takes the memory of one further entry.
    pub fn reserve(&mut self) -> Result<(), NoMemory>
        ensures ok { OnOk result (self.new ≡ record self.old { spare = 1 }) }
        ensures err { OnErr result (self.new ≡ self.old) }
        ensures room { 0 < self.old.spare → IsOk result }
    {
        if self.spare == 0
            && slots::reserve_slot(&mut self.presence, &mut self.bytes, self.width).is_err()
        {
            return Err(NoMemory);
        }
        self.spare = 1;
        Ok(())
    }

    /// Whether one further entry takes no memory.
    pub fn is_reserved(&self) -> bool
        ensures { result ≡ not (self.now.spare == 0) }
    {
        self.spare != 0
    }

    /// Gives room up that was reserved; the memory stays.
    pub fn release(&mut self)
        ensures { self.new ≡ record self.old { spare = 0 } }
    {
        self.spare = 0;
    }

    /// Adds an entry under the next ordinal, without memory.
    pub fn push(&mut self, entry: &[u8])
        requires room { 0 < self.old.spare }
        requires len { length entry.now ≡ self.old.width }
        ensures { self.new ≡ record self.old { spare = 0; entries = with_new_entry self.old.entries entry.now } }
    {
        slots::push_slot(&mut self.presence, &mut self.bytes, entry);
        self.spare = 0;
    }

    /// Adds an ordinal whose entry is deleted, without memory; its place holds these bytes.
    #[tactic(auto, using(crate::proofs::SpaceLaws::last_cleared))]
    fn push_deleted(&mut self, bytes: &[u8])
        requires room { 0 < self.old.spare }
        requires len { length bytes.now ≡ self.old.width }
        ensures { self.new ≡ record self.old { spare = 0; entries = self.old.entries ++ None ∷ [] } }
    {
        self.push(bytes);
        let last = self.count();
        self.clear(last);
    }

    /// Adds an ordinal whose entry is deleted; its place holds these bytes.
    pub fn insert_deleted(&mut self, bytes: &[u8]) -> Result<(), NoMemory>
        requires { length bytes.now ≡ self.old.width }
        ensures ok { OnOk result (self.new ≡ record self.old { spare = 0; entries = self.old.entries ++ None ∷ [] }) }
        ensures err { OnErr result (self.new ≡ self.old) }
    {
        self.reserve()?;
        self.push_deleted(bytes);
        Ok(())
    }

    /// Puts an entry under an ordinal, without memory.
    #[tactic(auto, using(crate::proofs::StoredLaws::stored_count))]
    pub fn put(&mut self, at: usize, entry: &[u8])
        requires first { 1 ≤ at }
        requires last { at ≤ length self.old.entries }
        requires len { length entry.now ≡ self.old.width }
        ensures { self.new ≡ record self.old { entries = put_at self.old.entries at (Some entry.now) } }
    {
        slots::put_slot(&mut self.presence, &mut self.bytes, at - 1, entry);
    }

    /// Deletes the entry of an ordinal.
    #[tactic(auto, using(crate::proofs::StoredLaws::stored_count, crate::proofs::StoredLaws::stored_deleted))]
    pub fn clear(&mut self, at: usize)
        requires first { 1 ≤ at }
        requires last { at ≤ length self.old.entries }
        ensures { self.new ≡ record self.old { entries = put_at self.old.entries at None } }
    {
        slots::clear_slot(&mut self.presence, at - 1);
    }
}
