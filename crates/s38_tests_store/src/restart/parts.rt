//! The parts of a store in memory.

ghost use Rattle.std.specs.Prelude.{◌≡◌};

use s38_base::{Change, Key, Page};
use s38_restart::read_parts;
use s38_vault::{MapVault, Vault};
use std::test::Fail;

/// A part, filled with one byte.
fn part(object: u64, part: u32, fill: u8) -> Change
    ensures { result.key ≡ record { object = object; part = part } }
{
    Change {
        key: Key { object, part },
        page: Some(Page {
            bytes: [fill; 512],
            tags: 0,
        }),
    }
}

#[test]
fn all_parts_are_read(rt: HostRuntime) -> Result<(), Fail> {
    let mut vault = MapVault::new(rt.alloc(), 3);
    vault.reserve(4)?;
    vault.put(&[part(1, 128, 6)])?;
    vault.put(&[part(1, 0, 5), part(2, 0, 7)])?;
    let parts = read_parts(rt.alloc(), &mut vault)?;
    let wanted = [part(1, 0, 5), part(1, 128, 6), part(2, 0, 7)];
    assert!(rt; parts.as_slice() == wanted.as_slice());
    Ok(())
}
