//! The flush: what a step must persist is written.
ghost use Rattle.std.specs.Prelude.{◌≡◌, ◌≢◌, ◌↔◌, ◌⊎◌, ◌+◌, ◌<◌, ◌≤◌, ℕ, All, IfErr, OnErr, OnOk, length};
ghost use Rattle.std.specs.FinMap.{get};
ghost use Rattle.s38_base.specs.Faults.{HasCauseOf};
ghost use Rattle.s38_durable_state.specs.Durable.{Durable, durable_after};
ghost use Rattle.s38_durable_state.specs.Represents.{Represents};
ghost use Rattle.s38_image_writer.specs.Parts.{CanSettle};
ghost use Rattle.s38_rules.specs.state.State.{State};
ghost use Rattle.s38_rules.specs.store.Storable.{IsStorable};
ghost use Rattle.s38_space_map.specs.Forcings.{all_forced};
ghost use Rattle.s38_flush.specs.Leftovers.{RepresentsUpToOrphans, first_changes, later_changes};
ghost use Rattle.s38_page_diff.specs.FlushFaults.{IfBad, IfFull, IsFullFor};
ghost use Rattle.s38_flush.specs.Putting.{IsBetweenPuts};
ghost use Rattle.s38_flush.specs.Stepping.{AreNumbers, HaveHeaders, IsDue, Precedes, ceiling_changes, object_changes, put_forced, raised};
ghost use Rattle.s38_page_diff.specs.declared.fault.FlushFault.TheVariants as faults;
ghost use Rattle.s38_vault.specs.Content.{Content};
ghost use Rattle.s38_vault.specs.Directory.{new_keys};

use crate::objects::{add_ceiling, add_objects};
use crate::putting::put_each;
use crate::turns::turns_of;
use s38_commits::Units;
use s38_objects::Objects;
use s38_page_diff::FlushFault;
use s38_space_map::Forcing;
use s38_vault::Vault;
use std::alloc::Global;

/// Flushes what a step to these objects and units must persist: the ceiling, objects whole, and the headers and rows of
/// others, whose bodies stay as they are kept; what is there no more is taken away. Only pages that differ are put: first the
/// ceiling, and then the others in the order of their keys. Where one put does not take all others, orphan pages come last:
/// first headers, and parts of what is kept after the step. So the header of an object that is there no more
/// is taken away before its other parts. Before the first put all that differs is known, and all memory is reserved.
/// `BadHeader` never comes of a vault that represents what was durable. It is quadratic in how many objects it writes, of
/// which a step has a few.
pub fn force<V: Vault>(
    alloc: Global,
    vault: &mut V,
    objects: &Objects,
    units: &Units,
    all: &[Forcing],
) -> Result<(), FlushFault>
    requires storable { All IsStorable objects.now.objects }
    requires settles { All (λ o. CanSettle units.now o.number.0 o.body) objects.now.objects }
    requires numbers { AreNumbers (all_forced all.now) }

    // What was held for what was durable before the step is held for what is durable after it.
    ensures stands { OnOk result ((m n : Content) (d : Durable) (s : State) → V.holds vault.old m → V.holds vault.new n → Precedes objects.now units.now m d s → IsDue (all_forced all.now) d s
        → Represents n (durable_after (all_forced all.now) d s)) }
    ensures holds { OnOk result ((m : Content) (d : Durable) (s : State) → V.holds vault.old m → Precedes objects.now units.now m d s
        → V.holds vault.new (put_forced (all_forced all.now) m (durable_after (all_forced all.now) d s))) }
    ensures told { OnOk result ((n : Content) → V.holds vault.new n → (m : Content) × V.holds vault.old m) }

    // Each header that is kept after the step can be read again, as before it; so it can, whatever the result, once a put
    // was begun, and so it could, where the vault is full.
    ensures headers { OnOk result ((m : Content) (d : Durable) (s : State) → V.holds vault.old m → Precedes objects.now units.now m d s → IsDue (all_forced all.now) d s
        → HaveHeaders (durable_after (all_forced all.now) d s)) }
    ensures moved { (m : Content) (d : Durable) (s : State) → V.holds vault.old m → Precedes objects.now units.now m d s → IsDue (all_forced all.now) d s
        → (V.view vault.old).moment < (V.view vault.new).moment → HaveHeaders (durable_after (all_forced all.now) d s) }

    // Where it is full, a header is bad, or memory was refused, nothing was changed; after any error it holds what it held,
    // if it still tells.
    ensures full { IfErr result (λ fault. (m : Content) (d : Durable) (s : State) → V.holds vault.old m → Precedes objects.now units.now m d s
        → IsFullFor (new_keys (V.view vault.old).keys (ceiling_changes (all_forced all.now) (get m) (durable_after (all_forced all.now) d s)) + new_keys (V.view vault.old).keys (object_changes (all_forced all.now) (get m) (durable_after (all_forced all.now) d s))) (V.view vault.old).free fault) }
    ensures full_headers { IfErr result (IfFull ((m : Content) (d : Durable) (s : State) → V.holds vault.old m → Precedes objects.now units.now m d s → IsDue (all_forced all.now) d s
        → HaveHeaders (durable_after (all_forced all.now) d s))) }
    ensures bad { IfErr result (IfBad ((m : Content) (d : Durable) (s : State) → V.holds vault.old m → Precedes objects.now units.now m d s → ⊥)) }
    ensures refused { IfErr result (λ fault. fault ≢ faults.Failed → V.view vault.new ≡ record (V.view vault.old) { spare = (V.view vault.new).spare; faults = (V.view vault.new).faults }) }
    ensures refused_holds { IfErr result (λ fault. fault ≢ faults.Failed → (m : Content) → V.holds vault.old m ↔ V.holds vault.new m) }
    ensures err { OnErr result ((m : Content) → V.holds vault.new m → V.holds vault.old m) }

    // A crash leaves what was held after some of the puts, of which the ceiling's comes first; where one put takes all but
    // orphan pages, what it leaves represents what was durable before the step, or with the ceiling, or after it but for
    // orphan pages.
    ensures past { (t : ℕ) (m : Content) → t ≤ (V.view vault.old).moment → V.leaves vault.old t m ↔ V.leaves vault.new t m }
    ensures during { (m : Content) (d : Durable) (s : State) → V.holds vault.old m → Precedes objects.now units.now m d s
        → (t : ℕ) (n : Content) → (V.view vault.old).moment < t → t ≤ (V.view vault.new).moment → V.leaves vault.new t n
        → IsBetweenPuts (V.view vault.old).shape.most m (ceiling_changes (all_forced all.now) (get m) (durable_after (all_forced all.now) d s))
        (first_changes (V.view vault.old).shape.most (durable_after (all_forced all.now) d s) (object_changes (all_forced all.now) (get m) (durable_after (all_forced all.now) d s)))
        (later_changes (V.view vault.old).shape.most (durable_after (all_forced all.now) d s) (object_changes (all_forced all.now) (get m) (durable_after (all_forced all.now) d s))) n }
    ensures once { (m : Content) (d : Durable) (s : State) → V.holds vault.old m → Precedes objects.now units.now m d s → IsDue (all_forced all.now) d s
        → length (first_changes (V.view vault.old).shape.most (durable_after (all_forced all.now) d s) (object_changes (all_forced all.now) (get m) (durable_after (all_forced all.now) d s))) ≤ (V.view vault.old).shape.most
        → (t : ℕ) (n : Content) → (V.view vault.old).moment < t → t ≤ (V.view vault.new).moment → V.leaves vault.new t n
        → Represents n d ⊎ (Represents n (raised d s) ⊎ RepresentsUpToOrphans n (durable_after (all_forced all.now) d s)) }
    ensures after { OnOk result ((m n : Content) (d : Durable) (s : State) → V.holds vault.old m → Precedes objects.now units.now m d s → V.leaves vault.new (V.view vault.new).moment n
        → n ≡ put_forced (all_forced all.now) m (durable_after (all_forced all.now) d s)) }
    ensures later { (V.view vault.old).moment ≤ (V.view vault.new).moment }

    // Faults, and what no call changes.
    ensures shape { (V.view vault.new).shape ≡ (V.view vault.old).shape }
    ensures cause { HasCauseOf (V.view vault.old).faults (V.view vault.new).faults result faults.Failed }
    ensures count { OnOk result ((V.view vault.new).faults ≡ (V.view vault.old).faults) }
{
    // Their contracts say that the vault holds one content, and how many changes a put takes.
    let _moment = vault.moment();
    let most = vault.most();
    let mut others = Vec::new(alloc);
    add_objects(alloc, vault, objects, units, all, &mut others)?;
    let mut ceiling = Vec::new(alloc);
    add_ceiling(alloc, vault, objects, all, &mut ceiling)?;
    let turns = turns_of(alloc, objects, most, others)?;
    put_each(vault, &ceiling, &turns.first, &turns.later)?;
    Ok(())
}
