//! What differences are, whatever vault they are of, and what they make of what it holds.
ghost use Rattle.std.specs.Prelude.{◌≡◌, ◌⊎◌, ◌-◌, ◌≤◌, ◌++◌, ◌∷◌, ℕ, List, [], Option, length, true, if◌then◌else◌};
ghost use Rattle.std.specs.FinMap.{get};
ghost use Rattle.std.specs.List.{AllByRecursion};
ghost use Rattle.s38_base.specs.declared.page.Change.{Change};
ghost use Rattle.s38_base.specs.declared.page.Key.{Key};
ghost use Rattle.s38_base.specs.declared.page.Page.{Page};
ghost use Rattle.s38_page_diff.specs.Aims.{Aim, RiseByObject, aimed_at, all_differences, wanted_new};
ghost use Rattle.s38_page_diff.specs.Differences.{HavePages, IsDifference, IsWanted, differences, is_part_in_range, wanted_at};
ghost use Rattle.s38_page_diff.specs.Puts.{IsAfterPuts};
ghost use Rattle.s38_page_diff.specs.declared.range.PartRange.{PartRange};
ghost use Rattle.s38_vault.specs.Content.{AreRising, Content, HaveObjects, changed};
ghost use Rattle.s38_vault.specs.Directory.{Keys, new_keys};

/// With its differences made, a content has the wanted page at each key of the range, and at each other key what it had.
pub fn differences_make_what_is_wanted()
    ensures { (m : Content) (range : PartRange) (wanted : List Change) (key : Key) → get (changed m (differences (get m) range wanted)) key ≡ (if is_part_in_range range key then wanted_at wanted key else get m key) }
{}

/// Differences are of rising keys, and none is of object 0, so a put can make them.
pub fn differences_can_be_put()
    ensures rising { (pages : Key → Option Page) (range : PartRange) (wanted : List Change) → AreRising (differences pages range wanted) }
    ensures objects { (pages : Key → Option Page) (range : PartRange) (wanted : List Change) → 1 ≤ range.object → HaveObjects (differences pages range wanted) }
{}

/// There is at most one difference a part.
pub fn differences_are_no_more_than_parts()
    ensures { (pages : Key → Option Page) (range : PartRange) (wanted : List Change) → length (differences pages range wanted) ≤ range.end - range.first }
{}

/// Each difference changes something, to what is wanted, at a key of the range.
pub fn each_difference_is_needed()
    ensures { (pages : Key → Option Page) (range : PartRange) (wanted : List Change) → AllByRecursion (IsDifference pages range wanted) (differences pages range wanted) }
{}

/// Where the wanted pages are there already, there is no difference.
pub fn what_is_there_does_not_differ()
    ensures { (pages : Key → Option Page) (range : PartRange) (wanted : List Change) → ((key : Key) → is_part_in_range range key ≡ true → pages key ≡ wanted_at wanted key) → differences pages range wanted ≡ [] }
{}

/// Differences bring as many keys as the wanted pages do: those of them that are not there.
pub fn differences_bring_the_wanted_keys()
    ensures { (keys : Keys) (pages : Key → Option Page) (range : PartRange) (wanted : List Change) → HavePages keys pages → IsWanted range wanted → new_keys keys (differences pages range wanted) ≡ new_keys keys wanted }
{}

/// With the differences of several aims made, a content has the wanted page at each key of the range of an aim, and at
/// each other key what it had.
pub fn several_aims_are_met()
    ensures { (m : Content) (aims : List Aim) (key : Key) → RiseByObject aims → get (changed m (all_differences (get m) aims)) key ≡ aimed_at (get m) aims key }
{}

/// Where aims were read one after another, of a vault that kept its keys, they are read as of one vault.
pub fn readings_are_one_reading()
    ensures { (keys : Keys) (before next : Key → Option Page) (aims : List Aim) (aim : Aim) → HavePages keys before → HavePages keys next → RiseByObject (aims ++ aim ∷ []) → (pages : Key → Option Page) × (HavePages keys pages × (all_differences pages (aims ++ aim ∷ []) ≡ all_differences before aims ++ differences next aim.range aim.wanted)) }
{}

/// The differences of several aims, one aim after another, can be put together.
pub fn several_aims_can_be_put()
    ensures rising { (pages : Key → Option Page) (aims : List Aim) → RiseByObject aims → AreRising (all_differences pages aims) }
    ensures objects { (pages : Key → Option Page) (aims : List Aim) → AllByRecursion (λ aim. 1 ≤ aim.range.object) aims → HaveObjects (all_differences pages aims) }
{}

/// The differences of several aims bring as many keys as all their wanted pages do.
pub fn several_aims_bring_the_wanted_keys()
    ensures { (keys : Keys) (pages : Key → Option Page) (aims : List Aim) → HavePages keys pages → AllByRecursion (λ aim. IsWanted aim.range aim.wanted) aims → new_keys keys (all_differences pages aims) ≡ wanted_new keys aims }
{}

/// Of changes that one put takes a crash leaves all or none.
pub fn few_changes_are_one_put()
    ensures { (most : ℕ) (m : Content) (changes : List Change) (n : Content) → length changes ≤ most → IsAfterPuts most m changes n → (n ≡ m) ⊎ (n ≡ changed m changes) }
{}
