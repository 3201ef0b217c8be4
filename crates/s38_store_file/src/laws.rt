//! What holds of stores, as contracts of functions that do nothing.
ghost use Rattle.std.specs.Prelude.{◌≡◌, ◌⊎◌, ℕ, take};
ghost use Rattle.s38_durable_state.specs.Durable.{Durable};
ghost use Rattle.s38_restart.specs.catalog.Groups.{removals};
ghost use Rattle.s38_restart.specs.catalog.Stores.{ceiling_of, objects_stored_in};
ghost use Rattle.s38_restart.specs.Parts.{all_parts};
ghost use Rattle.s38_vault.specs.Content.{Content, changed};
ghost use Rattle.s38_disk.specs.declared.block.Block.{Block as Blocks};
ghost use Rattle.s38_rules.specs.state.Held.{Held};
ghost use Rattle.s38_store_file.specs.Refusals.{IsRefusal};
ghost use Rattle.s38_store_file.specs.Stores.{AllFit, AreOf, IsFullOf, Restarts};
ghost use Rattle.s38_store_file.specs.declared.fault.StoreRefusal.{StoreRefusal};
ghost use Rattle.s38_store_file.specs.declared.fault.StoreRefusal.TheVariants as refusals;

/// A store that restarts is refused only where the disk fails or memory is wanted.
pub fn a_store_that_restarts_is_opened()
    ensures { (size : ℕ) (f : ℕ → Blocks) (h : Held) → Restarts size f h → (refusal : StoreRefusal) → IsRefusal size f refusal → (refusal ≡ refusals.Failed) ⊎ (refusal ≡ refusals.NoMemory) }
{}

/// Whatever orphan pages are taken away first, a store is restarted to the same objects.
pub fn parts_that_belong_to_nothing_may_go()
    ensures { (m : Content) (count : ℕ) (h : Held) → AreOf h m → AreOf h (changed m (take count (removals (all_parts m)))) }
{}

/// Whatever orphan pages are taken away first, a restart reads the same of a store: the ceiling, and the image
/// of each object. So it does where all of them are taken away.
pub fn what_is_kept_stays()
    ensures objects { (m : Content) (count limit : ℕ) → objects_stored_in limit (all_parts (changed m (take count (removals (all_parts m))))) ≡ objects_stored_in limit (all_parts m) }
    ensures ceiling { (m : Content) (count : ℕ) → ceiling_of (all_parts (changed m (take count (removals (all_parts m))))) ≡ ceiling_of (all_parts m) }
    ensures cleaned { (m : Content) (limit : ℕ) → objects_stored_in limit (all_parts (changed m (removals (all_parts m)))) ≡ objects_stored_in limit (all_parts m) }
    ensures cleaned_ceiling { (m : Content) → ceiling_of (all_parts (changed m (removals (all_parts m)))) ≡ ceiling_of (all_parts m) }
{}

/// Where each object fits in its turn a store is not full after some of them.
pub fn where_each_fits_none_is_full()
    ensures { (size needed free : ℕ) (m : Content) (d : Durable) (h : Held) (f : ℕ → Blocks) → AllFit size m d h → IsFullOf size m d h f needed free → ⊥ }
{}
