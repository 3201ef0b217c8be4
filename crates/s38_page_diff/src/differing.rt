//! How what a vault holds differs from what it is to hold.
ghost use Rattle.std.specs.Prelude.{◌≡◌, ◌↔◌, ◌+◌, ◌≤◌, ◌++◌, ℕ, [], IfErr, IsErrOf, IsOk, OnOk, Option, false, is_some, length, vec_capacity, vec_len};
ghost use Rattle.std.specs.FinMap.{contains_key, get};
ghost use Rattle.s38_base.specs.Faults.{HasCauseOf};
ghost use Rattle.s38_base.specs.declared.page.Key.{Key};
ghost use Rattle.s38_base.specs.declared.page.Page.{Page};
ghost use Rattle.s38_page_diff.specs.Differences.{HavePages, IsWanted, change_between, differences, same_page};
ghost use Rattle.s38_page_diff.specs.FlushFaults.{IsUnread};
ghost use Rattle.s38_page_diff.specs.declared.fault.FlushFault.TheVariants as faults;
ghost use Rattle.s38_vault.specs.Content.{Content};

use crate::fault::FlushFault;
use crate::range::PartRange;
use crate::walking::first_part;
use s38_base::{Change, Key, NoMemory, Page};
use s38_vault::Vault;

/// Adds the removals of all pages in a range, in order of part. It reads no page.
pub fn add_removals<V: Vault>(
    vault: &V,
    range: PartRange,
    into: &mut Vec<Change>,
) -> Result<(), NoMemory>
    requires { 1 ≤ range.object }
    ensures ok { OnOk result ((pages : Key → Option Page) → HavePages (V.view vault.now).keys pages → into.new.items ≡ into.old.items ++ differences pages range []) }
    ensures reserved { (pages : Key → Option Page) → HavePages (V.view vault.now).keys pages → vec_len into.old + length (differences pages range []) ≤ vec_capacity into.old → IsOk result }
    ensures capacity { vec_capacity into.old ≤ vec_capacity into.new }
{
    let mut left = range;
    while let Some(part) = first_part(vault, left) {
        let key = Key {
            object: left.object,
            part,
        };
        into.push(Change { key, page: None })?;
        left.first = part + 1;
    }
    Ok(())
}

/// Whether two pages are the same.
fn is_same(page: &Option<Page>, want: &Option<Page>) -> bool
    ensures { result ≡ same_page page.now want.now }
{
    page == want
}

/// Adds a change where the vault has another page, or none.
fn add_if_other<V: Vault>(
    vault: &mut V,
    want: &Change,
    into: &mut Vec<Change>,
) -> Result<(), FlushFault>
    ensures told { OnOk result ((m : Content) → V.holds vault.old m → into.new.items ≡ into.old.items ++ change_between want.now.key (get m want.now.key) want.now.page) }
    ensures full { IsErrOf result faults.NoMemory → (page : Option Page) × ((is_some page ≡ contains_key (V.view vault.old).keys want.now.key) × ((same_page page want.now.page ≡ false) × (vec_capacity into.old ≤ vec_len into.old))) }
    ensures bad { IfErr result (IsUnread ⊥) }
    ensures capacity { vec_capacity into.old ≤ vec_capacity into.new }
    ensures read { OnOk result ((page : Option Page) × ((is_some page ≡ contains_key (V.view vault.old).keys want.now.key) × (into.new.items ≡ into.old.items ++ change_between want.now.key page want.now.page))) }
    ensures holds { (m : Content) → V.holds vault.old m ↔ V.holds vault.new m }
    ensures past { (t : ℕ) (m : Content) → t ≤ (V.view vault.old).moment → V.leaves vault.old t m ↔ V.leaves vault.new t m }
    ensures stays { V.view vault.new ≡ record (V.view vault.old) { faults = (V.view vault.new).faults } }
    ensures cause { HasCauseOf (V.view vault.old).faults (V.view vault.new).faults result faults.Failed }
    ensures count { OnOk result ((V.view vault.new).faults ≡ (V.view vault.old).faults) }
{
    let page = vault.get(want.key)?;
    if !is_same(&page, &want.page) {
        into.push(*want)?;
    }
    Ok(())
}

/// Adds the changes that make the pages of a range the wanted ones, in order of part: none where the wanted page is there
/// already, a removal where a page is there and none is wanted. It reads the pages that are there and wanted, each once.
/// The vault stays as it was, but for its count of faults. After an error some of the changes may have been added.
pub fn add_differences<V: Vault>(
    vault: &mut V,
    range: PartRange,
    wanted: &[Change],
    into: &mut Vec<Change>,
) -> Result<(), FlushFault>
    requires object { 1 ≤ range.object }
    requires wanted { IsWanted range wanted.now }

    // It is told of what is held; and a vault that tells nothing is read as some pages at its keys.
    ensures told { OnOk result ((m : Content) → V.holds vault.old m → into.new.items ≡ into.old.items ++ differences (get m) range wanted.now) }
    ensures read { OnOk result ((pages : Key → Option Page) × (HavePages (V.view vault.old).keys pages × (into.new.items ≡ into.old.items ++ differences pages range wanted.now))) }

    // Where there is room for whatever may differ, memory is not refused.
    ensures reserved { ((pages : Key → Option Page) → HavePages (V.view vault.old).keys pages → vec_len into.old + length (differences pages range wanted.now) ≤ vec_capacity into.old) → IsErrOf result faults.NoMemory → ⊥ }
    ensures capacity { vec_capacity into.old ≤ vec_capacity into.new }
    ensures bad { IfErr result (IsUnread ⊥) }

    ensures holds { (m : Content) → V.holds vault.old m ↔ V.holds vault.new m }
    ensures past { (t : ℕ) (m : Content) → t ≤ (V.view vault.old).moment → V.leaves vault.old t m ↔ V.leaves vault.new t m }
    ensures stays { V.view vault.new ≡ record (V.view vault.old) { faults = (V.view vault.new).faults } }
    ensures cause { HasCauseOf (V.view vault.old).faults (V.view vault.new).faults result faults.Failed }
    ensures count { OnOk result ((V.view vault.new).faults ≡ (V.view vault.old).faults) }
{
    // Its contract says that the keys are those of the content.
    let _free = vault.free();
    let mut left = range;
    for want in wanted {
        let end = want.key.part;
        add_removals(vault, PartRange { end, ..left }, into)?;
        add_if_other(vault, want, into)?;
        left.first = end + 1;
    }
    add_removals(vault, left, into)?;
    Ok(())
}
