ghost use Rattle.std.specs.Prelude.{◌≡◌, ◌≢◌, ◌↔◌, ◌⊎◌, ◌+◌, ◌<◌, ◌≤◌, ℕ, None, Option, IfErr, IfOk, IfSome, IsErrOf, OnErr, OnOk, is_some, length};
ghost use Rattle.std.specs.FinMap.{contains_key, get, len};
ghost use Rattle.std.specs.Option.{unwrap_or};
ghost use Rattle.s38_base.specs.Faults.{HasCause, HasCauseOf, Rose};
ghost use Rattle.s38_vault.specs.Content.{AreRising, Content, HaveObjects, changed};
ghost use Rattle.s38_vault.specs.Directory.{changed_keys, gone_keys, keys_of, new_keys, next_key};
ghost use Rattle.s38_vault.specs.Vaults.{AreLimits, VaultView, refusal};

use crate::fault::VaultFault;
use s38_base::{Change, Failed, Key, NoMemory, Page};

/// Where pages are kept, by key. A put makes all its changes or none; where the vault tells what a crash may leave, that
/// is so at each moment. A call that fails is counted.
pub trait Vault {
    /// Which keys are there, how many parts are free, what memory is reserved, the moment, and the faults.
    ghost view: { Self → VaultView };

    /// The vault tells what it holds, and this is it.
    ghost holds: { Self → Content → Type 0 };

    /// The vault tells what a crash at a moment may leave, and this may be left.
    ghost leaves: { Self → ℕ → Content → Type 0 };

    /// The page at a key, None exactly where the key is not there. An error changes only the count of faults.
    fn get(&mut self, key: Key) -> Result<Option<Page>, Failed>
        ensures page { IfOk result (λ page. (m : Content) → holds self.old m → page ≡ get m key) }
        ensures there { IfOk result (λ page. is_some page ≡ contains_key (view self.old).keys key) }
        ensures holds { (m : Content) → holds self.old m ↔ holds self.new m }
        ensures past { (t : ℕ) (m : Content) → t ≤ (view self.old).moment → leaves self.old t m ↔ leaves self.new t m }
        ensures stays { view self.new ≡ record (view self.old) { faults = (view self.new).faults } }
        ensures cause { HasCause (view self.old).faults (view self.new).faults result }
        ensures count { OnOk result ((view self.new).faults ≡ (view self.old).faults) };

    /// The least key after one, or the least of all. It is of an object from 1 on.
    fn next_key(&self, after: Option<Key>) -> Option<Key>
        ensures next { result ≡ next_key (view self.now).keys after }
        ensures object { IfSome result (λ key. 1 ≤ key.object) };

    /// Reserves memory for puts of so many changes in all. An error leaves all but that memory as it was.
    fn reserve(&mut self, parts: u32) -> Result<(), NoMemory>
        ensures ok { OnOk result (parts ≤ (view self.new).spare) }
        ensures spare { (view self.old).spare ≤ (view self.new).spare }
        ensures holds { (m : Content) → holds self.old m ↔ holds self.new m }
        ensures past { (t : ℕ) (m : Content) → t ≤ (view self.old).moment → leaves self.old t m ↔ leaves self.new t m }
        ensures stays { view self.new ≡ record (view self.old) { spare = (view self.new).spare } };

    /// Makes all changes, which are of rising keys, or none. They are refused exactly where they bring more keys than
    /// there are free parts, whatever keys they take away. After `Failed` the vault no longer tells what it holds, and is
    /// to be mounted again. There is no answer for want of memory: `reserve` takes it before.
    fn put(&mut self, changes: &[Change]) -> Result<(), VaultFault>
        requires some { 1 ≤ length changes.now }
        requires few { length changes.now ≤ (view self.old).shape.most }
        requires rising { AreRising changes.now }
        requires objects { HaveObjects changes.now }
        requires room { length changes.now ≤ (view self.old).spare }

        // All is as told, or the changes are refused, or the outside failed.
        ensures ok { OnOk result (refusal (view self.old) changes.now ≡ None) }
        ensures fault { IfErr result (λ fault. fault ≡ unwrap_or (refusal (view self.old) changes.now) VaultFault.Failed) }
        ensures holds { OnOk result ((m : Content) → holds self.old m → holds self.new (changed m changes.now)) }
        ensures told { OnOk result ((n : Content) → holds self.new n → (m : Content) × (holds self.old m × (n ≡ changed m changes.now))) }
        ensures keys { OnOk result ((view self.new).keys ≡ changed_keys (view self.old).keys changes.now) }
        ensures free { OnOk result ((view self.new).free + new_keys (view self.old).keys changes.now ≡ (view self.old).free + gone_keys (view self.old).keys changes.now) }
        ensures failed { IsErrOf result VaultFault.Failed → (m : Content) → holds self.new m → ⊥ }

        // Changes that are refused change nothing.
        ensures full { refusal (view self.old) changes.now ≢ None → view self.new ≡ record (view self.old) { spare = (view self.new).spare } }
        ensures full_holds { refusal (view self.old) changes.now ≢ None → (m : Content) → holds self.old m ↔ holds self.new m }

        // A crash leaves what was held before, or what is held after.
        ensures past { (t : ℕ) (m : Content) → t ≤ (view self.old).moment → leaves self.old t m ↔ leaves self.new t m }
        ensures during { (m : Content) → holds self.old m → (t : ℕ) (n : Content) → (view self.old).moment < t → t ≤ (view self.new).moment → leaves self.new t n → (n ≡ m) ⊎ (n ≡ changed m changes.now) }
        ensures after { OnOk result ((m n : Content) → holds self.old m → leaves self.new (view self.new).moment n → ((view self.old).moment < (view self.new).moment) × (n ≡ changed m changes.now)) }
        ensures later { (view self.old).moment ≤ (view self.new).moment }
        ensures rises { OnOk result (Rose (view self.old).moment (view self.new).moment) }

        // Memory, faults, and what no call changes.
        ensures spare { (view self.old).spare ≤ (view self.new).spare + length changes.now }
        ensures shape { (view self.new).shape ≡ (view self.old).shape }
        ensures cause { HasCauseOf (view self.old).faults (view self.new).faults result VaultFault.Failed }
        ensures count { OnOk result ((view self.new).faults ≡ (view self.old).faults) };

    /// How many parts are free. With those that have a page they are all parts.
    fn free(&self) -> u32
        ensures free { result ≡ (view self.now).free }
        ensures sum { (view self.now).free + len (view self.now).keys ≡ (view self.now).shape.parts }
        ensures keys { (m : Content) → holds self.now m → (view self.now).keys ≡ keys_of m };

    /// The moment. While the vault tells what it holds, it holds one content, and a crash now leaves that one.
    fn moment(&self) -> u64
        ensures moment { result ≡ (view self.now).moment }
        ensures one { (m n : Content) → holds self.now m → holds self.now n → m ≡ n }
        ensures present { (m n : Content) → holds self.now m → leaves self.now (view self.now).moment n → n ≡ m };

    /// How many changes a put takes at most.
    fn most(&self) -> u32
        ensures most { result ≡ (view self.now).shape.most }
        ensures limits { AreLimits (view self.now).shape };

    /// How many bytes the image of an object's body has at most.
    fn body_limit(&self) -> u32
        ensures limit { result ≡ (view self.now).shape.body_limit }
        ensures limits { AreLimits (view self.now).shape };
}
