//! Which home each change of a put goes to.
ghost use Rattle.std.specs.Prelude.{◌≡◌, ◌≤◌, ◌<◌, ◌+◌, ◌^◌, ◌++◌, ◌&&◌, [], ◌∷◌, ℕ, List, Bool, false, length, not, slice_set, true};
ghost use Rattle.std.specs.Vec.{vec_capacity, vec_len};
ghost use Rattle.std.specs.FinMap.{get};
ghost use Rattle.s38_base.specs.declared.page.Change.{Change};
ghost use Rattle.s38_vault.specs.Content.{AreRising, HaveObjects};
ghost use Rattle.s38_vault.specs.Directory.{is_new, keys_of, new_keys};
ghost use Rattle.s38_redo_log.specs.declared.layout.Layout.{Layout};
ghost use Rattle.s38_redo_log.specs.Store.{targets};
ghost use Rattle.s38_pages.specs.Index.{AreFreeHomes, HasKey, HaveOwnHomes, Homes, Index, IsHomeIndex, Planned, Tallied, count_freed, freed, frees, marked, unmarked};

use crate::marks::Marks;
use s38_base::Change;
use s38_redo_log::{Slot, block_of, key_of, zero_block};
use s38_vault::Keyed;

/// Whether a change brings a key that is not there.
fn is_new(homes: &Keyed<u32>, change: &Change) -> bool
    ensures { result ≡ is_new (keys_of homes.now.values) change.now }
{
    change.page.is_some() && !homes.contains_key(change.key)
}

/// How many keys the changes bring that are not there.
pub fn count_new(homes: &Keyed<u32>, changes: &[Change]) -> u32
    requires { length changes.now < 2 ^ 31 }
    ensures { result ≡ new_keys (keys_of homes.now.values) changes.now }
{
    let mut count = 0;
    for change in changes {
        if is_new(homes, change) {
            count += 1;
        }
    }
    count
}

/// Plans one change: its slot, and the index and the marks after it. A new key gets the lowest free home.
fn plan_one(homes: &mut Keyed<u32>, marks: &mut Marks, slots: &mut Vec<Slot>, change: &Change)
    requires room { 1 ≤ homes.old.spare }
    requires slots { vec_len slots.old < vec_capacity slots.old }
    requires free { is_new (keys_of homes.old.values) change.now ≡ true → 1 ≤ unmarked marks.old }
    requires size { length marks.old < 2 ^ 32 }
    requires object { 1 ≤ change.now.key.object }
    ensures planned { (lay : Layout) (old : Index) (cs : List Change) → AreFreeHomes lay marks.old → Planned lay old (get homes.old.values) (marked marks.old) slots.old.items cs → (HasKey cs change.now.key → ⊥)
        → Planned lay old (get homes.new.values) (marked marks.new) slots.new.items (cs ++ change.now ∷ []) }
    ensures tallied { (old : Homes) (was : List Bool) (cs : List Change) → Tallied old homes.old.values was marks.old slots.old.items cs → (HasKey cs change.now.key → ⊥)
        → Tallied old homes.new.values was marks.new slots.new.items (cs ++ change.now ∷ []) }
    ensures free { (lay : Layout) → AreFreeHomes lay marks.old → AreFreeHomes lay marks.new }
    ensures room { homes.old.spare ≤ homes.new.spare + 1 }
    ensures slots { vec_len slots.new ≤ vec_len slots.old + 1 }
    ensures capacity { vec_capacity slots.new ≡ vec_capacity slots.old }
{
    match (&change.page, homes.get(change.key)) {
        (Some(page), Some(home)) => {
            let block = block_of(change.key, page);
            slots.push_reserved(Slot { home, block });
        }
        (Some(page), None) => {
            let home = marks.take_lowest() as u32;
            homes.insert(change.key, home);
            let block = block_of(change.key, page);
            slots.push_reserved(Slot { home, block });
        }
        (None, Some(home)) => {
            homes.remove(change.key);
            let block = zero_block();
            slots.push_reserved(Slot { home, block });
        }
        (None, None) => {}
    }
}

/// Plans changes of rising keys, for whose new keys there are free homes: their slots, and the index and the marks after
/// them.
pub fn plan(homes: &mut Keyed<u32>, marks: &mut Marks, slots: &mut Vec<Slot>, changes: &[Change])
    requires room { length changes.now ≤ homes.old.spare }
    requires slots { length changes.now ≤ vec_capacity slots.old }
    requires empty { slots.old.items ≡ [] }
    requires size { length marks.old < 2 ^ 32 }
    requires free { new_keys (keys_of homes.old.values) changes.now ≤ unmarked marks.old }
    requires rising { AreRising changes.now }
    requires objects { HaveObjects changes.now }
    ensures planned { (lay : Layout) → AreFreeHomes lay marks.old → IsHomeIndex lay (get homes.old.values) (marked marks.old)
        → Planned lay (get homes.old.values) (get homes.new.values) (marked marks.new) slots.new.items changes.now }
    ensures tallied { Tallied homes.old.values homes.new.values marks.old marks.new slots.new.items changes.now }
    ensures free { (lay : Layout) → AreFreeHomes lay marks.old → AreFreeHomes lay marks.new }
    ensures room { homes.old.spare ≤ homes.new.spare + length changes.now }
    ensures capacity { vec_capacity slots.new ≡ vec_capacity slots.old }
{
    for change in changes {
        plan_one(homes, marks, slots, change);
    }
}

/// Frees the home of a slot without a page.
fn give_back_one(marks: &mut Marks, slot: &Slot)
    requires { slot.now.home < length marks.old }
    ensures freed { frees slot.now ≡ true → marks.new ≡ slice_set marks.old slot.now.home false }
    ensures kept { frees slot.now ≡ false → marks.new ≡ marks.old }
{
    if key_of(&slot.block).object == 0 {
        marks.clear(slot.home as usize);
    }
}

/// Frees the homes of the slots without a page.
pub fn give_back(marks: &mut Marks, slots: &[Slot])
    requires marked { (h : ℕ) → targets slots.now h ≡ true → marked marks.old h ≡ true }
    requires apart { HaveOwnHomes slots.now }
    ensures marks { (h : ℕ) → marked marks.new h ≡ (marked marks.old h && not (freed slots.now h)) }
    ensures count { unmarked marks.new ≡ unmarked marks.old + count_freed slots.now }
    ensures size { length marks.new ≡ length marks.old }
{
    for slot in slots {
        give_back_one(marks, slot);
    }
}
