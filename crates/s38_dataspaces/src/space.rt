ghost use Rattle.std.specs.Bool.{OnTrue};
ghost use Rattle.std.specs.Prelude.{◌⊎◌, ◌==◌, ◌&&◌, IsOk, ◌≡◌, ◌+◌, ◌≤◌, ◌<◌, [], Some, None, IfErr, IfNone, IfOk, IfSome, IsErrOf, IsTrue, OnOk, OnErr, length, map, is_some, not};
ghost use Rattle.std.specs.List.{list_all};
ghost use Rattle.std.specs.Option.{ForSome, option_copied, unwrap_or};
ghost use Rattle.s38_dataspaces.specs.Entries.{entry_at};
ghost use Rattle.s38_dataspaces.specs.Refusals.{delete_refusal, insert_refusal, update_refusal};
ghost use Rattle.s38_dataspaces.specs.Seeks.{IsNowhere, IsSought, sought};
ghost use Rattle.s38_dataspaces.specs.Table.{are_fields, data_space_image_size, entry_len, inserted, inserted_deleted, is_entry_of, may_restore, restored, with_entry_changed};
ghost use Rattle.s38_dataspaces.specs.Values.{have_values};

use crate::fault::EntryFault;
use crate::fields::entry_len;
use crate::records::Records;
use crate::seek::sought;
use crate::values::have_values;
use s38_base::{AttrList, NoMemory, Seek};
use std::alloc::Global;
use std::marker::Model;

/// The longest image of a data space, in bytes.
const LARGEST: u32 = 16_777_216;

/// As many zeros as an entry may have bytes.
static ZEROS: [u8; 4096] = [0; 4096];

/// So many zeros.
fn zeros(len: usize) -> &'static [u8]
    requires { len ≤ 4096 }
    ensures { length result.now ≡ len }
{
    &ZEROS[..len]
}

/// Entries of the same fields, numbered from 1 on by their ordinals. An entry that is deleted keeps its ordinal.
/// Contracts see it as the fields and the list of the entries, each its bytes or None, and beside it how many
/// further entries take no memory.
#[derive(Drop)]
pub struct DataSpace {
    fields: AttrList,
    size: u32,
    records: Records,
}

impl Model for DataSpace {
    ghost use Rattle.s38_dataspaces.specs.Table.{DataTable, IsDataSpace};

    ghost Value = { DataTable };

    ghost view = { λ d. record { fields = d.fields; spare = d.records.spare; entries = d.records.entries } };

    ghost invariant = { λ d. IsDataSpace d.fields d.records.width d.size d.records.entries };
}

impl DataSpace {
    /// A data space without an entry; it takes no memory until it grows.
    pub fn new(alloc: Global, fields: AttrList) -> DataSpace
        requires { IsTrue (are_fields fields) }
        ensures { result ≡ record { fields = fields; spare = 0; entries = [] } }
    {
        let width = entry_len(fields.as_slice());
        let size = 22 + 3 * fields.len() as u32;
        DataSpace {
            fields,
            size,
            records: Records::new(alloc, width),
        }
    }

    /// The attributes of the fields.
    pub fn fields(&self) -> &AttrList
        ensures fields { result.now ≡ self.now.fields }
        ensures fit { IsTrue (are_fields self.now.fields) }
    {
        &self.fields
    }

    /// How many ordinals there are, deleted ones included. Each entry is one of the fields: it has their length, and
    /// each numeric field has a value.
    pub fn ordinals(&self) -> u32
        ensures count { result ≡ length self.now.entries }
        ensures entries { IsTrue (list_all (is_entry_of self.now.fields) self.now.entries) }
    {
        self.records.count() as u32
    }

    /// How many bytes the image of the data space has.
    pub fn image_len(&self) -> u32
        ensures size { result ≡ data_space_image_size self.now.fields (length self.now.entries) }
        ensures bound { result ≤ 16777216 }
    {
        self.size
    }

    /// The entry of an ordinal; None where it is deleted, and where there is no such ordinal. It has the length of
    /// the fields, and each numeric field has a value.
    pub fn get(&self, at: u32) -> Option<&[u8]>
        ensures entry { option_copied result ≡ entry_at self.now.entries at }
        ensures len { IfSome result (λ entry. length entry.now ≡ entry_len self.now.fields) }
        ensures values { IfSome result (λ entry. IsTrue (have_values self.now.fields entry.now)) }
    {
        self.records.get(at as usize)
    }

    /// Takes the memory of one further entry, which the next insert then takes. `NoMemory` where memory was refused,
    /// and nothing changed.
    pub fn reserve(&mut self) -> Result<(), NoMemory>
        ensures ok { OnOk result (self.new ≡ record self.old { spare = 1 }) }
        ensures err { OnErr result (self.new ≡ self.old) }
        ensures room { 0 < self.old.spare → IsOk result }
    {
        self.records.reserve()
    }

    /// Whether the memory of one further entry is taken.
    pub fn is_reserved(&self) -> bool
        ensures { result ≡ not (self.now.spare == 0) }
    {
        self.records.is_reserved()
    }

    /// Gives room up that was reserved; the memory stays.
    pub fn release(&mut self)
        ensures { self.new ≡ record self.old { spare = 0 } }
    {
        self.records.release();
    }

    /// How many bytes an entry has.
    pub fn entry_len(&self) -> usize
        ensures len { result ≡ entry_len self.now.fields }
        ensures bound { result ≤ 4096 }
    {
        self.records.width()
    }

    /// Whether an entry has the length of the fields.
    fn has_length(&self, entry: &[u8]) -> bool
        ensures { result ≡ (length entry.now == entry_len self.now.fields) }
    {
        entry.len() == self.records.width()
    }

    /// Why an entry may not be inserted: for its length, then where the image would exceed 16,777,216 bytes.
    fn insert_refusal(&self, entry: &[u8]) -> Option<EntryFault>
        ensures { result ≡ insert_refusal self.now entry.now }
    {
        if !self.has_length(entry) {
            return Some(EntryFault::BadLength);
        }
        if self.size + 1 + entry.len() as u32 > LARGEST {
            return Some(EntryFault::Full);
        }
        None
    }

    /// Why the entry of an ordinal may not be deleted: there is none.
    fn delete_refusal(&self, at: u32) -> Option<EntryFault>
        ensures { result ≡ delete_refusal self.now at }
    {
        match self.get(at) {
            Some(_) => None,
            None => Some(EntryFault::NoEntry),
        }
    }

    /// Why the entry of an ordinal may not be updated: for the length of the new one, then where there is none.
    fn update_refusal(&self, at: u32, entry: &[u8]) -> Option<EntryFault>
        ensures { result ≡ update_refusal self.now at entry.now }
    {
        if !self.has_length(entry) {
            return Some(EntryFault::BadLength);
        }
        self.delete_refusal(at)
    }

    /// Inserts an entry under the next ordinal, and answers the ordinal. It is refused for its length, then where the
    /// image would exceed 16,777,216 bytes; `NoMemory` where memory was refused, which is not so after `reserve`. A
    /// refused insert changes nothing.
    pub fn insert(&mut self, entry: &[u8]) -> Result<u32, EntryFault>
        requires values { length entry.now ≡ entry_len self.old.fields → IsTrue (have_values self.old.fields entry.now) }
        ensures accepted { OnOk result (insert_refusal self.old entry.now ≡ None) }
        ensures ordinal { IfOk result (λ at. at ≡ length self.old.entries + 1) }
        ensures ok { OnOk result (self.new ≡ inserted self.old entry.now) }
        ensures fault { IfErr result (λ fault. fault ≡ unwrap_or (insert_refusal self.old entry.now) EntryFault.NoMemory) }
        ensures err { OnErr result (self.new ≡ self.old) }
        ensures room { IsErrOf result EntryFault.NoMemory → self.old.spare ≡ 0 }
    {
        if let Some(fault) = self.insert_refusal(entry) {
            return Err(fault);
        }
        if self.records.reserve().is_err() {
            return Err(EntryFault::NoMemory);
        }
        self.records.push(entry);
        self.size += 1 + entry.len() as u32;
        Ok(self.records.count() as u32)
    }

    /// Adds an ordinal whose entry is deleted. It is refused where the image would exceed 16,777,216 bytes; `NoMemory`
    /// where memory was refused. A refused call changes nothing.
    pub fn insert_deleted(&mut self) -> Result<(), EntryFault>
        ensures accepted { OnOk result (data_space_image_size self.old.fields (length self.old.entries + 1) ≤ 16777216) }
        ensures ok { OnOk result (self.new ≡ inserted_deleted self.old) }
        ensures full { IsErrOf result EntryFault.Full → 16777216 < data_space_image_size self.old.fields (length self.old.entries + 1) }
        ensures fault { IfErr result (λ fault. (fault ≡ EntryFault.Full) ⊎ (fault ≡ EntryFault.NoMemory)) }
        ensures err { OnErr result (self.new ≡ self.old) }
    {
        let width = self.entry_len();
        if self.size + 1 + width as u32 > LARGEST {
            return Err(EntryFault::Full);
        }
        match self.records.insert_deleted(zeros(width)) {
            Ok(()) => {}
            Err(_) => return Err(EntryFault::NoMemory),
        }
        self.size += 1 + width as u32;
        Ok(())
    }

    /// Puts an entry in the place of one that is present, without memory. It is refused for its length, then where no
    /// entry is present under the ordinal; a refused update changes nothing.
    pub fn update(&mut self, at: u32, entry: &[u8]) -> Result<(), EntryFault>
        requires values { length entry.now ≡ entry_len self.old.fields → IsTrue (have_values self.old.fields entry.now) }
        ensures accepted { OnOk result (update_refusal self.old at entry.now ≡ None) }
        ensures ok { OnOk result (self.new ≡ with_entry_changed self.old at (Some entry.now)) }
        ensures fault { IfErr result (λ fault. update_refusal self.old at entry.now ≡ Some fault) }
        ensures err { OnErr result (self.new ≡ self.old) }
    {
        if let Some(fault) = self.update_refusal(at, entry) {
            return Err(fault);
        }
        self.records.put(at as usize, entry);
        Ok(())
    }

    /// Deletes an entry, without memory; its ordinal stays. It is refused where no entry is present under the ordinal;
    /// a refused delete changes nothing.
    pub fn delete(&mut self, at: u32) -> Result<(), EntryFault>
        ensures accepted { OnOk result (delete_refusal self.old at ≡ None) }
        ensures ok { OnOk result (self.new ≡ with_entry_changed self.old at None) }
        ensures fault { IfErr result (λ fault. delete_refusal self.old at ≡ Some fault) }
        ensures err { OnErr result (self.new ≡ self.old) }
    {
        if let Some(fault) = self.delete_refusal(at) {
            return Err(fault);
        }
        self.records.clear(at as usize);
        Ok(())
    }

    /// Whether bytes may be an entry: they have the length of the fields, and each numeric field has a value.
    fn is_entry(&self, entry: &[u8]) -> bool
        ensures { result ≡ (length entry.now == entry_len self.now.fields) && have_values self.now.fields entry.now }
    {
        self.has_length(entry) && have_values(self.fields.as_slice(), entry)
    }

    /// Whether an entry, or None, may be put back under an ordinal.
    fn may_restore(&self, at: u32, entry: Option<&[u8]>) -> bool
        ensures may { result ≡ may_restore self.now at (option_copied entry.entry) }
        ensures first { OnTrue result (1 ≤ at) }
        ensures last { OnTrue result (at ≤ length self.now.entries) }
        ensures len { OnTrue result (ForSome entry.entry (λ bytes. length bytes.now ≡ entry_len self.now.fields)) }
        ensures values { OnTrue result (ForSome entry.entry (λ bytes. IsTrue (have_values self.now.fields bytes.now))) }
    {
        if at == 0 || at > self.ordinals() {
            return false;
        }
        match entry {
            Some(bytes) => self.is_entry(bytes),
            None => true,
        }
    }

    /// Puts an entry, or None for a deleted one, under an ordinal, whatever is there now, without memory. What is no
    /// entry of the data space, for its ordinal, its length or its numeric fields, leaves it as it is.
    pub fn restore(&mut self, at: u32, entry: Option<&[u8]>)
        ensures { self.new ≡ restored self.old at (option_copied entry.entry) }
    {
        if !self.may_restore(at, entry) {
            return;
        }
        match entry {
            Some(bytes) => self.records.put(at as usize, bytes),
            None => self.records.clear(at as usize),
        }
    }

    /// The ordinal of the entry that is sought, among those that are not deleted; None where there is none.
    pub fn seek(&self, how: Seek, from: u32) -> Option<u32>
        ensures ordinal { result ≡ sought (map (λ entry. is_some entry) self.now.entries) how from }
        ensures found { IfSome result (λ at. IsSought self.now.entries how from at) }
        ensures none { IfNone result (IsNowhere self.now.entries how from) }
    {
        match sought(self.records.presence(), how, from as usize) {
            Some(at) => Some(at as u32),
            None => None,
        }
    }
}
