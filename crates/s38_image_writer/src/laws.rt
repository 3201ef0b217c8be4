//! What is true of objects that can be printed, whatever holds them.
ghost use Rattle.std.specs.Prelude.{◌≤◌, ℕ};
ghost use Rattle.s38_image.specs.Fitting.{IsImage};
ghost use Rattle.s38_image.specs.declared.stored.Stored.{Stored};
ghost use Rattle.s38_rules.specs.store.Storable.{IsStorable};

/// An object that was read can be printed.
pub fn what_is_read_can_be_printed()
    ensures { (limit : ℕ) (s : Stored) → limit ≤ 16777216 → IsImage limit s → IsStorable s.object }
{}
