//! Worked steps: what a vault is to hold is put there, and only what differs.

ghost use Rattle.std.specs.Prelude.{◌≡◌, ◌≤◌, IfOk};
ghost use Rattle.s38_page_diff.specs.Differences.{IsWanted};
ghost use Rattle.s38_vault.specs.Content.{AreRising, HaveObjects};

use crate::vault::vaults::{fill_at, key, put_at, put_one};
use s38_base::Change;
use s38_page_diff::{
    FlushFault, PartRange, add_differences, differences_can_be_put, has_room, put_all,
};
use s38_vault::{MapVault, Vault};
use std::alloc::Global;
use std::test::Fail;

/// All parts of an object.
fn whole(object: u64) -> PartRange
    ensures { result ≡ record { object = object; first = 0; end = 4294967295 } }
{
    PartRange {
        object,
        first: 0,
        end: u32::MAX,
    }
}

/// What differs.
fn to_put<V: Vault>(
    alloc: Global,
    vault: &mut V,
    range: PartRange,
    wanted: &[Change],
) -> Result<Vec<Change>, Fail>
    requires object { 1 ≤ range.object }
    requires wanted { IsWanted range wanted.now }
    ensures rising { IfOk result (λ changes. AreRising changes.items) }
    ensures objects { IfOk result (λ changes. HaveObjects changes.items) }
{
    let mut changes = Vec::new(alloc);
    add_differences(vault, range, wanted, &mut changes)?;
    // Its contract says that a put can make them.
    differences_can_be_put();
    Ok(changes)
}

/// What becomes of changes: so many are made, or none.
#[derive(Clone, Copy, PartialEq, Eq, Debug)]
enum Outcome {
    Made(usize),
    NoRoom,
    Failed,
}

/// Makes changes, with memory for them.
fn put<V: Vault>(vault: &mut V, changes: &[Change]) -> Result<Outcome, Fail>
    requires rising { AreRising changes.now }
    requires objects { HaveObjects changes.now }
{
    vault.reserve(u32::try_from(changes.len())?)?;
    if !has_room(vault, changes) {
        return Ok(Outcome::NoRoom);
    }
    match put_all(vault, changes) {
        Ok(()) => Ok(Outcome::Made(changes.len())),
        Err(_) => Ok(Outcome::Failed),
    }
}

/// Puts what differs.
fn force<V: Vault>(
    alloc: Global,
    vault: &mut V,
    range: PartRange,
    wanted: &[Change],
) -> Result<Outcome, Fail>
    requires object { 1 ≤ range.object }
    requires wanted { IsWanted range wanted.now }
{
    let changes = to_put(alloc, vault, range, wanted)?;
    put(vault, changes.as_slice())
}

#[test]
fn an_object_grows_stays_shrinks_and_goes(rt: HostRuntime) -> Result<(), Fail> {
    let alloc = rt.alloc();
    let mut vault = MapVault::new(alloc, 4);
    assert!(rt; force(alloc, &mut vault, whole(8), &[put_at(8, 5, 9)])? == Outcome::Made(1));
    let small = [put_at(7, 0, 1), put_at(7, 128, 2)];
    assert!(rt;
        force(alloc, &mut vault, whole(7), &small)? == Outcome::Made(2) && vault.free() == 1
    );
    assert!(rt;
        force(alloc, &mut vault, whole(7), &small)? == Outcome::Made(0) && vault.moment() == 2
    );
    let large = [put_at(7, 0, 3), put_at(7, 128, 2), put_at(7, 129, 4)];
    assert!(rt;
        force(alloc, &mut vault, whole(7), &large)? == Outcome::Made(2) && vault.free() == 0
    );
    let larger = [put_at(7, 0, 3), put_at(7, 1, 6), put_at(7, 128, 2)];
    assert!(rt;
        force(alloc, &mut vault, whole(7), &larger)? == Outcome::NoRoom && vault.moment() == 3
    );
    let header = PartRange {
        end: 128,
        ..whole(7)
    };
    assert!(rt; force(alloc, &mut vault, header, &[put_at(7, 0, 5)])? == Outcome::Made(1));
    assert!(rt;
        fill_at(&mut vault, key(7, 0))? == Some(5) && fill_at(&mut vault, key(7, 129))? == Some(4)
    );
    assert!(rt;
        force(alloc, &mut vault, whole(7), &[put_at(7, 0, 5)])? == Outcome::Made(2)
            && vault.free() == 2
    );
    assert!(rt; force(alloc, &mut vault, whole(7), &[])? == Outcome::Made(1) && vault.free() == 3);
    assert!(rt; fill_at(&mut vault, key(8, 5))? == Some(9) && vault.moment() == 6);
    Ok(())
}

#[test]
fn more_parts_than_a_put_takes_go_in_two(rt: HostRuntime) -> Result<(), Fail> {
    let alloc = rt.alloc();
    let mut vault = MapVault::new(alloc, 2300);
    for part in 0..2300 {
        assert!(rt; put_one(&mut vault, put_at(9, part, 1))? == Ok(()));
    }
    assert!(rt; force(alloc, &mut vault, whole(9), &[])? == Outcome::Made(2300));
    assert!(rt; vault.free() == 2300 && vault.moment() == 2302);
    Ok(())
}

#[test]
fn a_fault_has_its_text(rt: HostRuntime) -> Result<(), Fail> {
    let text = format!(in rt.alloc(); "{}, {}", FlushFault::Failed, FlushFault::NoMemory)?;
    assert_eq!(rt; text.as_str(), "the store failed, no memory");
    Ok(())
}
