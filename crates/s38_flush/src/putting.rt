//! The ceiling is put, and then the others in two turns, where there is room for all.
ghost use Rattle.std.specs.Prelude.{◌≡◌, ◌≢◌, ◌↔◌, ◌+◌, ◌<◌, ◌≤◌, ◌^◌, ℕ, IfErr, OnErr, OnOk, length};
ghost use Rattle.std.specs.List.{AllByRecursion};
ghost use Rattle.s38_base.specs.Faults.{HasCauseOf};
ghost use Rattle.s38_image.specs.PartPlaces.{ceiling_key};
ghost use Rattle.s38_page_diff.specs.FlushFaults.{IfBad, IsFullFor};
ghost use Rattle.s38_flush.specs.Putting.{AreTurns, IsBetweenPuts};
ghost use Rattle.s38_page_diff.specs.declared.fault.FlushFault.TheVariants as faults;
ghost use Rattle.s38_vault.specs.Content.{AreRising, Content, HaveObjects, changed};
ghost use Rattle.s38_vault.specs.Directory.{new_keys};

use s38_base::Change;
use s38_page_diff::{FlushFault, count_new, put_all};
use s38_vault::Vault;

/// How many keys changes bring in all that have no page.
fn count_each<V: Vault>(vault: &V, ceiling: &[Change], first: &[Change], later: &[Change]) -> usize
    requires ceiling { HaveObjects ceiling.now }
    requires first { HaveObjects first.now }
    requires later { HaveObjects later.now }
    requires few { length ceiling.now + length first.now + length later.now < 2 ^ 32 }
    ensures { result ≡ new_keys (V.view vault.now).keys ceiling.now + new_keys (V.view vault.now).keys first.now + new_keys (V.view vault.now).keys later.now }
{
    count_new(vault, ceiling) + count_new(vault, first) + count_new(vault, later)
}

/// Makes room for changes: there are free parts for all new keys, and memory for all puts. Nothing else is changed.
fn make_room<V: Vault>(
    vault: &mut V,
    ceiling: &[Change],
    first: &[Change],
    later: &[Change],
) -> Result<(), FlushFault>
    requires ceiling { HaveObjects ceiling.now }
    requires first { HaveObjects first.now }
    requires later { HaveObjects later.now }
    ensures room { OnOk result (new_keys (V.view vault.old).keys ceiling.now + new_keys (V.view vault.old).keys first.now + new_keys (V.view vault.old).keys later.now ≤ (V.view vault.old).free) }
    ensures spare { OnOk result (length ceiling.now + length first.now + length later.now ≤ (V.view vault.new).spare) }
    ensures full { IfErr result (λ fault. IsFullFor (new_keys (V.view vault.old).keys ceiling.now + new_keys (V.view vault.old).keys first.now + new_keys (V.view vault.old).keys later.now) (V.view vault.old).free fault) }
    ensures bad { IfErr result (IfBad ⊥) }
    ensures failed { IfErr result (λ fault. fault ≢ faults.Failed) }
    ensures stays { V.view vault.new ≡ record (V.view vault.old) { spare = (V.view vault.new).spare } }
    ensures holds { (m : Content) → V.holds vault.old m ↔ V.holds vault.new m }
    ensures past { (t : ℕ) (m : Content) → t ≤ (V.view vault.old).moment → V.leaves vault.old t m ↔ V.leaves vault.new t m }
{
    let count = ceiling.len() + first.len() + later.len();
    if count > u32::MAX as usize {
        return Err(FlushFault::NoMemory);
    }
    let needed = count_each(vault, ceiling, first, later);
    let free = vault.free();
    if needed > free as usize {
        let needed = needed as u64;
        return Err(FlushFault::Full { needed, free });
    }
    vault.reserve(count as u32)?;
    Ok(())
}

/// Makes the changes of the ceiling, and then the first and the later ones of the others, each in puts of as many as the
/// vault takes. `Full` where all bring more keys than there are free parts, whatever keys they take away. Before the first
/// put all memory is reserved. After `Failed` the vault may no longer tell what it holds.
pub(crate) fn put_each<V: Vault>(
    vault: &mut V,
    ceiling: &[Change],
    first: &[Change],
    later: &[Change],
) -> Result<(), FlushFault>
    requires ceiling_rising { AreRising ceiling.now }
    requires ceiling_own { AllByRecursion (λ c. c.key.object ≡ ceiling_key) ceiling.now }
    requires turns { AreTurns first.now later.now }

    // All is as told.
    ensures holds { OnOk result ((m : Content) → V.holds vault.old m → V.holds vault.new (changed (changed (changed m ceiling.now) first.now) later.now)) }
    ensures told { OnOk result ((n : Content) → V.holds vault.new n → (m : Content) × (V.holds vault.old m × (n ≡ changed (changed (changed m ceiling.now) first.now) later.now))) }
    ensures room { OnOk result (new_keys (V.view vault.old).keys ceiling.now + new_keys (V.view vault.old).keys first.now + new_keys (V.view vault.old).keys later.now ≤ (V.view vault.old).free) }

    // Where it is full, or memory was refused, nothing was changed; after any error it holds what it held, if it still tells.
    ensures full { IfErr result (λ fault. IsFullFor (new_keys (V.view vault.old).keys ceiling.now + new_keys (V.view vault.old).keys first.now + new_keys (V.view vault.old).keys later.now) (V.view vault.old).free fault) }
    ensures bad { IfErr result (IfBad ⊥) }
    ensures refused { IfErr result (λ fault. fault ≢ faults.Failed → V.view vault.new ≡ record (V.view vault.old) { spare = (V.view vault.new).spare }) }
    ensures refused_holds { IfErr result (λ fault. fault ≢ faults.Failed → (m : Content) → V.holds vault.old m ↔ V.holds vault.new m) }
    ensures err { OnErr result ((m : Content) → V.holds vault.new m → V.holds vault.old m) }

    // A crash leaves what was held after some of the puts.
    ensures past { (t : ℕ) (m : Content) → t ≤ (V.view vault.old).moment → V.leaves vault.old t m ↔ V.leaves vault.new t m }
    ensures during { (m : Content) → V.holds vault.old m → (t : ℕ) (n : Content) → (V.view vault.old).moment < t → t ≤ (V.view vault.new).moment → V.leaves vault.new t n
        → IsBetweenPuts (V.view vault.old).shape.most m ceiling.now first.now later.now n }
    ensures after { OnOk result ((m n : Content) → V.holds vault.old m → V.leaves vault.new (V.view vault.new).moment n → n ≡ changed (changed (changed m ceiling.now) first.now) later.now) }
    ensures later { (V.view vault.old).moment ≤ (V.view vault.new).moment }

    // Faults, and what no call changes.
    ensures shape { (V.view vault.new).shape ≡ (V.view vault.old).shape }
    ensures cause { HasCauseOf (V.view vault.old).faults (V.view vault.new).faults result faults.Failed }
    ensures count { OnOk result ((V.view vault.new).faults ≡ (V.view vault.old).faults) }
{
    make_room(vault, ceiling, first, later)?;
    put_all(vault, ceiling)?;
    put_all(vault, first)?;
    put_all(vault, later)?;
    Ok(())
}
