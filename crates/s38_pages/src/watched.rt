ghost use Rattle.std.specs.Prelude.{◌≡◌};
ghost use Rattle.s38_pages.specs.Vaults.{page_holds, page_leaves};
ghost use Rattle.s38_pages.specs.Watched.{IsWatched, store_number, watched_view};

use crate::page_vault::PageVault;
use s38_base::{Change, Failed, Key, NoMemory, Page};
use s38_disk::Disk;
use s38_vault::{Vault, VaultFault};
use std::marker::Model;
use std::snapshot::Snapshot;

/// A page vault that is watched from a moment on. Contracts see it as it was then and as it is. What uses it as a vault
/// leaves it the one that it was: each image of each moment since then mounts.
#[derive(Drop)]
pub struct WatchedVault<D: Disk> {
    vault: PageVault<D>,
    first: Snapshot<PageVault<D>>,
}

impl<D: Disk> Model for WatchedVault<D> {
    ghost use Rattle.std.specs.Coded.{codes};
    ghost use Rattle.s38_pages.specs.Vaults.{homes_code};
    ghost use Rattle.s38_pages.specs.Watched.{IsWatched, WatchedStore};

    ghost Value = { WatchedStore };

    ghost coded = { Prim.hlevel (codes, homes_code) };

    ghost view = { λ w. record { first = w.first.value; now = w.vault } };

    ghost invariant = { λ w. IsWatched w.first.value w.vault };
}

impl<D: Disk> WatchedVault<D> {
    /// The watch begins.
    pub fn of(vault: PageVault<D>) -> Self
        ensures { result ≡ record { first = vault; now = vault } }
    {
        let first = Snapshot::of(&vault);
        WatchedVault { vault, first }
    }

    /// The watch ends.
    pub fn end(self) -> PageVault<D>
        ensures vault { result ≡ self.now }
        ensures watched { IsWatched self.first result }
    {
        let WatchedVault {
            vault,
            first: _first,
        } = self;
        vault
    }
}

impl<D: Disk> Vault for WatchedVault<D> {
    ghost view = { λ w. watched_view w };

    ghost holds = { λ w m. page_holds w.now m };

    ghost leaves = { λ w t m. page_leaves w.now t m };

    fn get(&mut self, key: Key) -> Result<Option<Page>, Failed> {
        self.vault.get(key)
    }

    fn next_key(&self, after: Option<Key>) -> Option<Key> {
        self.vault.next_key(after)
    }

    fn reserve(&mut self, parts: u32) -> Result<(), NoMemory> {
        self.vault.reserve(parts)
    }

    fn put(&mut self, changes: &[Change]) -> Result<(), VaultFault> {
        self.vault.put(changes)
    }

    fn free(&self) -> u32 {
        self.vault.free()
    }

    fn moment(&self) -> u64 {
        self.vault.moment()
    }

    fn most(&self) -> u32 {
        self.vault.most()
    }

    fn body_limit(&self) -> u32 {
        self.vault.body_limit()
    }
}
