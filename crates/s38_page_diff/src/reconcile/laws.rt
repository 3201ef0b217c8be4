//! What changes at numbers make of a content.
ghost use Rattle.std.specs.Prelude.{◌≡◌, ◌≤◌, ℕ, List, true};
ghost use Rattle.std.specs.FinMap.{contains_key, empty, get};
ghost use Rattle.s38_base.specs.declared.page.Change.{Change};
ghost use Rattle.s38_base.specs.declared.page.Key.{Key};
ghost use Rattle.s38_page_diff.specs.Differences.{IsWanted};
ghost use Rattle.s38_page_diff.specs.reconcile.Replacing.{changes_to, each_to, range_of};
ghost use Rattle.s38_page_diff.specs.reconcile.Walking.{IsKnown};
ghost use Rattle.s38_vault.specs.Content.{Content, changed};

/// With the changes at all numbers up to one made, a content that has keys of these numbers alone has the wanted parts, and no
/// others.
pub fn changes_make_what_is_wanted()
    ensures { (m : Content) (wants : ℕ → List Change) (last : ℕ) → ((n : ℕ) → 1 ≤ n → n ≤ last → IsWanted (range_of n) (wants n)) → ((key : Key) → contains_key m key ≡ true → IsKnown last key)
        → changed m (changes_to (get m) wants last) ≡ changed empty (each_to wants last) }
{}
