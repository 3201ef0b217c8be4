ghost use Rattle.std.specs.Prelude.{◌≡◌, ◌≢◌, ◌↔◌, ◌⊎◌, ◌≤◌, ◌<◌, ◌+◌, ◌*◌, ◌/◌, ℕ, None, Option, IfErr, IfOk, IsErr, IsErrOf, OnErr, OnOk, false, is_some, length};
ghost use Rattle.std.specs.FinMap.{contains_key, get};
ghost use Rattle.std.specs.Option.{unwrap_or};
ghost use Rattle.s38_base.specs.Faults.{HasCause, HasCauseOf, Rose};
ghost use Rattle.s38_disk.specs.Costs.{Costs};
ghost use Rattle.s38_disk.specs.Moves.{Moves};
ghost use Rattle.s38_vault.specs.Content.{AreRising, Content, HaveObjects, changed};
ghost use Rattle.s38_vault.specs.Directory.{changed_keys, gone_keys, new_keys};
ghost use Rattle.s38_vault.specs.Vaults.{refusal};
ghost use Rattle.s38_base.specs.Limits.{body_limit};
ghost use Rattle.s38_pages.specs.Index.{home_count};
ghost use Rattle.s38_pages.specs.Vaults.{AlwaysMounts, IsOneOf, page_holds, page_leaves, page_view};

use crate::page_vault::PageVault;
use crate::plan::count_new;
use crate::reading::read_page;
use s38_base::{Change, Failed, Key, NoMemory, Page, limits};
use s38_disk::Disk;
use s38_redo_log::Layout;
use s38_vault::{Vault, VaultFault};

/// How many homes there are.
pub fn parts(layout: &Layout) -> u32
    requires { layout.now.first ≤ layout.now.size }
    ensures { result ≡ home_count layout.now }
{
    let homes = layout.size - layout.first;
    if layout.first <= layout.hole && layout.hole < layout.size {
        homes - 1
    } else {
        homes
    }
}

/// How many bytes the image of an object's body has at most, in a store of that layout.
fn body_limit_of(_: &Layout) -> u32
    ensures { result ≡ body_limit }
{
    limits::BODY_LIMIT
}

impl<D: Disk> Vault for PageVault<D> {
    ghost view = { λ v. page_view v };

    ghost holds = { λ v m. page_holds v m };

    ghost leaves = { λ v t m. page_leaves v t m };

    fn get(&mut self, key: Key) -> Result<Option<Page>, Failed>
        ensures page { IfOk result (λ page. (m : Content) → page_holds self.old m → page ≡ get m key) }
        ensures there { IfOk result (λ page. is_some page ≡ contains_key (page_view self.old).keys key) }
        ensures holds { (m : Content) → page_holds self.old m ↔ page_holds self.new m }
        ensures past { (t : ℕ) (m : Content) → t ≤ (page_view self.old).moment → page_leaves self.old t m ↔ page_leaves self.new t m }
        ensures stays { page_view self.new ≡ record (page_view self.old) { faults = (page_view self.new).faults } }
        ensures cause { HasCause (page_view self.old).faults (page_view self.new).faults result }
        ensures count { OnOk result ((page_view self.new).faults ≡ (page_view self.old).faults) }
        ensures good { self.new.good ≡ self.old.good }

        // A get that failed: the disk has failed since the vault was made.
        ensures blame { OnErr result (Rose self.old.start self.new.disk.faults) }

        // Nothing is written.
        ensures whole { Moves self.old.disk self.new.disk 0 (AlwaysMounts self.old.layout) }
        ensures layout { self.new.layout ≡ self.old.layout }
    {
        match self.homes.get(key) {
            Some(home) => Ok(Some(read_page(&mut self.disk, home)?)),
            None => Ok(None),
        }
    }

    fn next_key(&self, after: Option<Key>) -> Option<Key> {
        self.homes.next_key(after)
    }

    fn reserve(&mut self, parts: u32) -> Result<(), NoMemory>
        ensures ok { OnOk result (parts ≤ (page_view self.new).spare) }
        ensures spare { (page_view self.old).spare ≤ (page_view self.new).spare }
        ensures holds { (m : Content) → page_holds self.old m ↔ page_holds self.new m }
        ensures past { (t : ℕ) (m : Content) → t ≤ (page_view self.old).moment → page_leaves self.old t m ↔ page_leaves self.new t m }
        ensures stays { page_view self.new ≡ record (page_view self.old) { spare = (page_view self.new).spare } }
        ensures good { self.new.good ≡ self.old.good }
        ensures disk { self.new.disk ≡ self.old.disk }
        ensures layout { self.new.layout ≡ self.old.layout }
    {
        self.homes.reserve(parts as usize)
    }

    fn put(&mut self, changes: &[Change]) -> Result<(), VaultFault>
        requires some { 1 ≤ length changes.now }
        requires few { length changes.now ≤ (page_view self.old).shape.most }
        requires rising { AreRising changes.now }
        requires objects { HaveObjects changes.now }
        requires room { length changes.now ≤ (page_view self.old).spare }

        // All is as told, or the changes are refused, or the outside failed.
        ensures ok { OnOk result (refusal (page_view self.old) changes.now ≡ None) }
        ensures fault { IfErr result (λ fault. fault ≡ unwrap_or (refusal (page_view self.old) changes.now) VaultFault.Failed) }
        ensures holds { OnOk result ((m : Content) → page_holds self.old m → page_holds self.new (changed m changes.now)) }
        ensures told { OnOk result ((n : Content) → page_holds self.new n → (m : Content) × (page_holds self.old m × (n ≡ changed m changes.now))) }
        ensures keys { OnOk result ((page_view self.new).keys ≡ changed_keys (page_view self.old).keys changes.now) }
        ensures free { OnOk result ((page_view self.new).free + new_keys (page_view self.old).keys changes.now ≡ (page_view self.old).free + gone_keys (page_view self.old).keys changes.now) }
        ensures failed { IsErrOf result VaultFault.Failed → (m : Content) → page_holds self.new m → ⊥ }

        // Changes that are refused change nothing.
        ensures full { refusal (page_view self.old) changes.now ≢ None → page_view self.new ≡ record (page_view self.old) { spare = (page_view self.new).spare } }
        ensures full_holds { refusal (page_view self.old) changes.now ≢ None → (m : Content) → page_holds self.old m ↔ page_holds self.new m }

        // A crash leaves what was held before, or what is held after.
        ensures past { (t : ℕ) (m : Content) → t ≤ (page_view self.old).moment → page_leaves self.old t m ↔ page_leaves self.new t m }
        ensures during { (m : Content) → page_holds self.old m → (t : ℕ) (n : Content) → (page_view self.old).moment < t → t ≤ (page_view self.new).moment → page_leaves self.new t n → (n ≡ m) ⊎ (n ≡ changed m changes.now) }
        ensures after { OnOk result ((m n : Content) → page_holds self.old m → page_leaves self.new (page_view self.new).moment n → ((page_view self.old).moment < (page_view self.new).moment) × (n ≡ changed m changes.now)) }
        ensures later { (page_view self.old).moment ≤ (page_view self.new).moment }
        ensures rises { OnOk result (Rose (page_view self.old).moment (page_view self.new).moment) }

        // Memory, faults, and what no call changes.
        ensures spare { (page_view self.old).spare ≤ (page_view self.new).spare + length changes.now }
        ensures shape { (page_view self.new).shape ≡ (page_view self.old).shape }
        ensures cause { HasCauseOf (page_view self.old).faults (page_view self.new).faults result VaultFault.Failed }
        ensures count { OnOk result ((page_view self.new).faults ≡ (page_view self.old).faults) }

        // After a put that failed each further put fails too, and leaves the disk as it was.
        ensures lost { IsErrOf result VaultFault.Failed → self.new.good ≡ false }
        ensures still { self.old.good ≡ false → IsErr result × (self.new.good ≡ false) × (self.new.disk ≡ self.old.disk) }

        // A put that failed: the disk has failed since the vault was made.
        ensures blame { IsErrOf result VaultFault.Failed → Rose self.old.start self.new.disk.faults }

        // So many calls of the disk at most write or sync, and each leaves what was held before or after. So many writes,
        // and at most four syncs.
        ensures moves { Moves self.old.disk self.new.disk (2 * length changes.now + length changes.now / 132 + 7) (IsOneOf self.old.layout (get self.old.homes) changes.now) }
        ensures whole { Moves self.old.disk self.new.disk (2 * length changes.now + length changes.now / 132 + 7) (AlwaysMounts self.old.layout) }
        ensures layout { self.new.layout ≡ self.old.layout }
        ensures cost { Costs self.old.disk self.new.disk (2 * length changes.now + length changes.now / 132 + 3) 4 }
    {
        let needed = count_new(&self.homes, changes);
        let free = self.free();
        if needed > free {
            return Err(VaultFault::Full { needed, free });
        }
        if !self.good {
            self.refused = self.refused.saturating_add(1);
            return Err(VaultFault::Failed);
        }
        match self.put_all(changes) {
            Ok(()) => Ok(()),
            Err(Failed) => Err(VaultFault::Failed),
        }
    }

    fn free(&self) -> u32 {
        parts(&self.layout) - self.homes.len() as u32
    }

    fn moment(&self) -> u64 {
        self.disk.moment()
    }

    fn most(&self) -> u32 {
        self.layout.most
    }

    fn body_limit(&self) -> u32 {
        body_limit_of(&self.layout)
    }
}
