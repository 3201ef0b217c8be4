//! The changes at numbers, one number after another.
ghost use Rattle.std.specs.Prelude.{◌≡◌, ◌<◌, ◌≤◌, ◌++◌, ◌-◌, ℕ, IfErr, List, None, Option, OnOk, [], true};
ghost use Rattle.std.specs.FinMap.{contains_key};
ghost use Rattle.s38_base.specs.Faults.{HasCauseOf};
ghost use Rattle.s38_base.specs.declared.page.Change.{Change};
ghost use Rattle.s38_base.specs.declared.page.Key.{Key};
ghost use Rattle.s38_base.specs.declared.page.Page.{Page};
ghost use Rattle.s38_page_diff.specs.Differences.{HavePages, IsWanted, change_between, differences};
ghost use Rattle.s38_page_diff.specs.FlushFaults.{IsUnread};
ghost use Rattle.s38_page_diff.specs.declared.fault.FlushFault.TheVariants as faults;
ghost use Rattle.s38_page_diff.specs.reconcile.Replacing.{last_part, range_of, short_range};
ghost use Rattle.s38_page_diff.specs.reconcile.Walking.{AreAt, AreFineTo, AreSoFar, IsKeyInRange, Stays};

use crate::reconcile::walking::next_number;
use crate::{FlushFault, PartRange, add_differences, add_removals, is_there};
use s38_base::{Change, Key, NoMemory};
use s38_vault::Vault;

/// All parts of a number but the last.
fn short_range(number: u64) -> PartRange
    ensures { result ≡ short_range number }
{
    PartRange {
        object: number,
        first: 0,
        end: u32::MAX,
    }
}

/// Adds the removal of the last part of a number, if it is there.
fn add_last<V: Vault>(vault: &V, number: u64, into: &mut Vec<Change>) -> Result<(), NoMemory>
    requires { 1 ≤ number }
    ensures { OnOk result ((pages : Key → Option Page) → HavePages (V.view vault.now).keys pages → into.new.items ≡ into.old.items ++ change_between (record { object = number; part = last_part }) (pages (record { object = number; part = last_part })) None) }
{
    let key = Key {
        object: number,
        part: u32::MAX,
    };
    if is_there(vault, key) {
        into.push(Change { key, page: None })?;
    }
    Ok(())
}

/// Adds the removals of all parts of a number.
fn add_none<V: Vault>(vault: &V, number: u64, into: &mut Vec<Change>) -> Result<(), NoMemory>
    requires { 1 ≤ number }
    ensures { OnOk result ((pages : Key → Option Page) → HavePages (V.view vault.now).keys pages → into.new.items ≡ into.old.items ++ differences pages (range_of number) []) }
{
    add_removals(vault, short_range(number), into)?;
    add_last(vault, number, into)?;
    Ok(())
}

/// Adds the removals of all parts of the numbers after one, up to another, where no part is wanted.
pub fn add_strangers<V: Vault>(
    vault: &V,
    done: u64,
    upto: u64,
    into: &mut Vec<Change>,
) -> Result<(), NoMemory>
    requires { done ≤ upto }
    ensures so_far { OnOk result ((wants : ℕ → List Change) → ((n : ℕ) → done < n → n ≤ upto → wants n ≡ []) → AreSoFar (V.view vault.now).keys (V.holds vault.now) wants done into.old.items → AreSoFar (V.view vault.now).keys (V.holds vault.now) wants upto into.new.items) }
    ensures kept { OnOk result ((rest : List Change) × (into.new.items ≡ into.old.items ++ rest)) }
    ensures fine { OnOk result (AreFineTo (V.view vault.now).keys done → (key : Key) → contains_key (V.view vault.now).keys key ≡ true → key.object ≤ upto → IsKeyInRange key) }
{
    let mut last = done;
    while let Some(number) = next_number(vault, last, upto) {
        add_none(vault, number, into)?;
        last = number;
    }
    Ok(())
}

/// Adds the changes that give a number these parts, and no others. The vault stays as it was, but for its
/// count of faults.
pub fn add_wanted<V: Vault>(
    vault: &mut V,
    number: u64,
    wanted: &[Change],
    into: &mut Vec<Change>,
) -> Result<(), FlushFault>
    requires number { 1 ≤ number }
    requires wanted { IsWanted (short_range number) wanted.now }
    ensures at { OnOk result (AreAt (V.view vault.old).keys (V.holds vault.old) number wanted.now into.old.items into.new.items) }
    ensures bad { IfErr result (IsUnread ⊥) }
    ensures stays { Stays V.view V.holds V.leaves vault.old vault.new }
    ensures cause { HasCauseOf (V.view vault.old).faults (V.view vault.new).faults result faults.Failed }
    ensures count { OnOk result ((V.view vault.new).faults ≡ (V.view vault.old).faults) }
{
    // Its contract says that the keys are those of the content.
    let _free = vault.free();
    add_differences(vault, short_range(number), wanted, into)?;
    add_last(vault, number, into)?;
    Ok(())
}
