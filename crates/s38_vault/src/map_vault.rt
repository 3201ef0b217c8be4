ghost use Rattle.std.specs.Prelude.{◌≡◌, ◌+◌, ◌≤◌, None, Some, length, IfErr, OnErr, OnOk};
ghost use Rattle.std.specs.FinMap as map;
ghost use Rattle.s38_base.specs.Faults.{counted};
ghost use Rattle.s38_vault.specs.Content.{AreRising, HaveObjects, changed};
ghost use Rattle.s38_vault.specs.Directory.{gone_keys, is_new, keys_of, new_keys};
ghost use Rattle.s38_vault.specs.MapVaults.{map_view};
ghost use Rattle.s38_vault.specs.Vaults.{most_changes, refusal};

use crate::fault::VaultFault;
use crate::keyed::Keyed;
use crate::vault::Vault;
use s38_base::{Change, Failed, Key, NoMemory, Page, limits};
use std::alloc::Global;
use std::marker::Model;

/// How many changes a put takes at most.
const MOST: u32 = 2286;

/// A vault in memory, which tells what it holds, never fails, and tells nothing of crashes. Contracts see its pages, how
/// many parts it has, for how many changes memory is reserved, and its moment, which counts the puts that were made.
#[derive(Drop)]
pub struct MapVault {
    pages: Keyed<Page>,
    parts: u32,
    moment: u64,
}

impl Model for MapVault {
    ghost use Rattle.std.specs.Prelude.{◌≤◌};
    ghost use Rattle.std.specs.FinMap as map;
    ghost use Rattle.s38_vault.specs.Directory.{NameObjects, keys_of};
    ghost use Rattle.s38_vault.specs.MapVaults.{MapStore, map_store_code};

    ghost Value = { MapStore };

    ghost coded = { map_store_code };

    ghost view = { λ v. record { pages = v.pages.values; parts = v.parts; spare = v.pages.spare; moment = v.moment } };

    ghost invariant = { λ v. record { fits : map.len v.pages.values ≤ v.parts; objects : NameObjects (keys_of v.pages.values) } };
}

/// Whether a change brings a key that is not there.
fn is_new(pages: &Keyed<Page>, change: &Change) -> bool
    ensures { result ≡ is_new (keys_of pages.now.values) change.now }
{
    change.page.is_some() && !pages.contains_key(change.key)
}

/// How many keys the changes bring that are not there.
fn count_new(pages: &Keyed<Page>, changes: &[Change]) -> u32
    requires { length changes.now ≤ most_changes }
    ensures { result ≡ new_keys (keys_of pages.now.values) changes.now }
{
    let mut count = 0;
    for change in changes {
        if is_new(pages, change) {
            count += 1;
        }
    }
    count
}

/// Makes all changes, without memory.
fn change_all(pages: &mut Keyed<Page>, changes: &[Change])
    requires { length changes.now ≤ pages.old.spare }
    ensures values { pages.new.values ≡ changed pages.old.values changes.now }
    ensures spare { pages.old.spare ≤ pages.new.spare + length changes.now }
{
    for change in changes {
        pages.set(change.key, change.page);
    }
}

impl MapVault {
    /// A vault without a page, for so many; it takes no memory until some is reserved.
    pub fn new(alloc: Global, parts: u32) -> Self
        ensures { result ≡ record { pages = map.empty; parts = parts; spare = 0; moment = 0 } }
    {
        MapVault {
            pages: Keyed::new(alloc),
            parts,
            moment: 0,
        }
    }

    /// Makes all changes, which are of rising keys, and counts the put; or none where they bring more keys than there are
    /// free parts, and then nothing is changed.
    pub fn put_all(&mut self, changes: &[Change]) -> Result<(), VaultFault>
        requires few { length changes.now ≤ most_changes }
        requires rising { AreRising changes.now }
        requires objects { HaveObjects changes.now }
        requires room { length changes.now ≤ self.old.spare }
        ensures ok { OnOk result (refusal (map_view self.old) changes.now ≡ None) }
        ensures pages { OnOk result (self.new.pages ≡ changed self.old.pages changes.now) }
        ensures free { OnOk result ((map_view self.new).free + new_keys (keys_of self.old.pages) changes.now ≡ (map_view self.old).free + gone_keys (keys_of self.old.pages) changes.now) }
        ensures moment { OnOk result (self.new.moment ≡ counted self.old.moment) }
        ensures later { self.old.moment ≤ self.new.moment }
        ensures spare { self.old.spare ≤ self.new.spare + length changes.now }
        ensures parts { self.new.parts ≡ self.old.parts }
        ensures full { IfErr result (λ fault. refusal (map_view self.old) changes.now ≡ Some fault) }
        ensures err { OnErr result (self.new ≡ self.old) }
    {
        let needed = count_new(&self.pages, changes);
        let free = self.free();
        if needed > free {
            return Err(VaultFault::Full { needed, free });
        }
        change_all(&mut self.pages, changes);
        self.moment = self.moment.saturating_add(1);
        Ok(())
    }
}

impl Vault for MapVault {
    ghost view = { λ v. map_view v };

    ghost holds = { λ v m. v.pages ≡ m };

    ghost leaves = { λ v t m. ⊥ };

    fn get(&mut self, key: Key) -> Result<Option<Page>, Failed> {
        Ok(self.pages.get(key))
    }

    fn next_key(&self, after: Option<Key>) -> Option<Key> {
        self.pages.next_key(after)
    }

    fn reserve(&mut self, parts: u32) -> Result<(), NoMemory> {
        self.pages.reserve(parts as usize)
    }

    fn put(&mut self, changes: &[Change]) -> Result<(), VaultFault> {
        match self.put_all(changes) {
            Ok(()) => Ok(()),
            Err(fault) => Err(fault),
        }
    }

    fn free(&self) -> u32 {
        self.parts - self.pages.len() as u32
    }

    fn moment(&self) -> u64 {
        self.moment
    }

    fn most(&self) -> u32 {
        MOST
    }

    fn body_limit(&self) -> u32 {
        limits::BODY_LIMIT
    }
}
