//! Values by key.

use s38_base::Key;
use s38_vault::Keyed;
use std::test::Fail;

/// What is done one after another, object and part with a value or none, and how many keys there are afterwards.
const SETS: &[(u64, u32, Option<u32>, usize)] = &[
    (5, 1, Some(51), 1),
    (4, 2, Some(42), 2),
    (5, 0, Some(50), 3),
    (5, 1, Some(52), 3),
    (6, 0, None, 3),
    (4, 2, None, 2),
    (4, 3, Some(43), 3),
];

/// The keys and their values at the end, in order.
const ENTRIES: &[(u64, u32, u32)] = &[(4, 3, 43), (5, 0, 50), (5, 1, 52)];

#[test]
fn values_are_set_and_found(rt: HostRuntime) -> Result<(), Fail> {
    let mut values = Keyed::new(rt.alloc());
    for &(object, part, value, len) in SETS {
        let key = Key { object, part };
        values.reserve(1)?;
        values.set(key, value);
        assert!(rt; values.get(key) == value && values.contains_key(key) == value.is_some());
        assert!(rt; values.len() == len, "at {object} {part}");
    }
    let mut last = None;
    for &(object, part, value) in ENTRIES {
        let key = Key { object, part };
        assert!(rt; values.next_key(last) == Some(key) && values.get(key) == Some(value));
        last = Some(key);
    }
    assert!(rt; values.next_key(last) == None);
    Ok(())
}
