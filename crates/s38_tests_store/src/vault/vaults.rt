//! Worked puts, through the trait's bound at the vault in memory.

ghost use Rattle.std.specs.Prelude.{◌≡◌, ◌≤◌};

use s38_base::{Change, Key, Page};
use s38_vault::{MapVault, Vault, VaultFault};
use std::test::Fail;

/// A page that is filled with one byte.
fn page(fill: u8) -> Page {
    Page {
        bytes: [fill; 512],
        tags: u32::from(fill),
    }
}

pub(crate) fn key(object: u64, part: u32) -> Key
    ensures { result ≡ record { object = object; part = part } }
{
    Key { object, part }
}

/// A page put at a key.
pub(crate) fn put_at(object: u64, part: u32, fill: u8) -> Change
    ensures { result.key ≡ record { object = object; part = part } }
{
    Change {
        key: Key { object, part },
        page: Some(page(fill)),
    }
}

/// A key taken away.
fn gone_at(object: u64, part: u32) -> Change
    ensures { result.key ≡ record { object = object; part = part } }
{
    Change {
        key: Key { object, part },
        page: None,
    }
}

/// Puts one change, with memory for it.
pub(crate) fn put_one<V: Vault>(
    vault: &mut V,
    change: Change,
) -> Result<Result<(), VaultFault>, Fail>
    requires { 1 ≤ change.key.object }
{
    vault.reserve(1)?;
    let _most = vault.most();
    Ok(vault.put(&[change]))
}

/// The byte with which the page at a key is filled, if the key is there.
pub(crate) fn fill_at<V: Vault>(vault: &mut V, key: Key) -> Result<Option<u8>, Fail> {
    match vault.get(key)? {
        Some(page) => Ok(Some(page.bytes[511])),
        None => Ok(None),
    }
}

/// One put after another in a vault of two parts: object and part, the fill or none, what the put answers, and how many
/// parts are free afterwards.
const PUTS: &[(u64, u32, Option<u8>, Result<(), VaultFault>, u32)] = &[
    (3, 0, Some(7), Ok(()), 1),
    (3, 1, Some(8), Ok(()), 0),
    (
        2,
        0,
        Some(9),
        Err(VaultFault::Full { needed: 1, free: 0 }),
        0,
    ),
    (3, 1, Some(10), Ok(()), 0),
    (2, 0, None, Ok(()), 0),
    (3, 0, None, Ok(()), 1),
    (u64::MAX, 0, Some(11), Ok(()), 0),
];

#[test]
fn puts_are_made_while_parts_are_free(rt: HostRuntime) -> Result<(), Fail> {
    let mut vault = MapVault::new(rt.alloc(), 2);
    for &(object, part, fill, answer, free) in PUTS {
        assert!(rt; 1 <= object);
        let change = Change {
            key: Key { object, part },
            page: fill.map(page),
        };
        let put = put_one(&mut vault, change)?;
        assert!(rt; put == answer && vault.free() == free, "at {object} {part}");
    }
    assert!(rt; fill_at(&mut vault, key(3, 0))? == None);
    assert!(rt; fill_at(&mut vault, key(3, 1))? == Some(10));
    assert!(rt; fill_at(&mut vault, key(u64::MAX, 0))? == Some(11));
    assert!(rt; vault.moment() == 6 && vault.most() == 2286 && vault.body_limit() == 1_048_576);
    Ok(())
}

#[test]
fn two_new_keys_do_not_fit_one_part(rt: HostRuntime) -> Result<(), Fail> {
    let mut vault = MapVault::new(rt.alloc(), 1);
    vault.reserve(2)?;
    let put = vault.put(&[put_at(1, 0, 5), put_at(1, 1, 6)]);
    assert!(rt; put == Err(VaultFault::Full { needed: 2, free: 1 }));
    assert!(rt; vault.free() == 1 && vault.moment() == 0 && vault.next_key(None) == None);
    Ok(())
}

#[test]
fn a_put_of_many_makes_all_changes_or_none(rt: HostRuntime) -> Result<(), Fail> {
    let mut vault = MapVault::new(rt.alloc(), 3);
    vault.reserve(5)?;
    let first = vault.put(&[put_at(2, 0, 2), put_at(7, 7, 3)]);
    let refused = vault.put(&[put_at(1, 0, 4), put_at(2, 1, 5), gone_at(7, 7)]);
    assert!(rt; first == Ok(()) && refused == Err(VaultFault::Full { needed: 2, free: 1 }));
    assert!(rt; fill_at(&mut vault, key(1, 0))? == None);
    assert!(rt; fill_at(&mut vault, key(7, 7))? == Some(3));
    vault.reserve(3)?;
    let made = vault.put(&[put_at(1, 0, 4), put_at(2, 0, 5), gone_at(7, 7)]);
    assert!(rt; made == Ok(()) && vault.free() == 1);
    assert!(rt; fill_at(&mut vault, key(2, 0))? == Some(5));
    assert!(rt; fill_at(&mut vault, key(7, 7))? == None);
    Ok(())
}

/// Keys in no order, and their places in the order.
const KEYS: &[(u64, u32)] = &[(2, 0), (u64::MAX, 0), (1, 9), (1, 0)];

const ORDER: &[usize] = &[3, 2, 0, 1];

#[test]
fn keys_come_in_their_order(rt: HostRuntime) -> Result<(), Fail> {
    let mut vault = MapVault::new(rt.alloc(), 4);
    for &(object, part) in KEYS {
        assert!(rt; 1 <= object);
        assert!(rt; put_one(&mut vault, put_at(object, part, 1))? == Ok(()));
    }
    let mut after = None;
    for &place in ORDER {
        after = vault.next_key(after);
        assert!(rt;
            after
                == KEYS.get(place).map(|key| Key {
                    object: key.0,
                    part: key.1
                })
        );
    }
    assert!(rt; vault.next_key(after) == None);
    Ok(())
}

#[test]
fn a_fault_has_its_text(rt: HostRuntime) -> Result<(), Fail> {
    let full = VaultFault::Full { needed: 3, free: 2 };
    let text = format!(in rt.alloc(); "{full}, {}", VaultFault::Failed)?;
    assert_eq!(rt;
        text.as_str(),
        "3 parts are needed, and 2 are free, the outside failed"
    );
    Ok(())
}
