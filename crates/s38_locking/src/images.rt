//! The locks of an object, as bytes.
ghost use Rattle.std.specs.Prelude.{◌≡◌, ◌++◌, IfOk};
ghost use Rattle.s38_rules.specs.families.Locking.{lock_image, locks_image};

use s38_base::{Bytes, LockState, NoMemory};
use s38_locks::rank;
use s38_operands::count_image;
use std::alloc::Global;

/// A process in four bytes, and the place of the state among the states.
fn lock_image(alloc: Global, lock: (u32, LockState)) -> Result<Vec<u8>, NoMemory>
    ensures { IfOk result (λ made. made.items ≡ lock_image lock) }
{
    let mut made = count_image(alloc, lock.0 as usize)?;
    made.push(rank(lock.1))?;
    Ok(made)
}

/// How many locks there are, and each in order.
pub fn locks_image(alloc: Global, locks: &[(u32, LockState)]) -> Result<Bytes, NoMemory>
    ensures { IfOk result (λ made. made ≡ locks_image locks.now) }
{
    let mut made = count_image(alloc, locks.len())?;
    for lock in locks {
        let image = lock_image(alloc, *lock)?;
        made.extend_from_slice(image.as_slice())?;
    }
    Ok(Bytes::from_vec(made))
}
