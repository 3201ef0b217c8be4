ghost use Rattle.std.specs.Prelude.{◌≡◌};
ghost use Rattle.s38_locks.specs.States.{are_compatible, blocks, rank};

use s38_base::{Category, LockState};

/// The place of a state in the order of states, from 0 on.
pub fn rank(state: LockState) -> u8
    ensures { result ≡ rank state }
{
    match state {
        LockState::Lsrd => 0,
        LockState::Lsro => 1,
        LockState::Lsup => 2,
        LockState::Lear => 3,
        LockState::Lenr => 4,
    }
}

/// Whether two processes may hold these states of one object at once.
pub fn are_compatible(one: LockState, other: LockState) -> bool
    ensures { result ≡ are_compatible one other }
{
    match one {
        LockState::Lsrd => !matches!(other, LockState::Lenr),
        LockState::Lsro => matches!(other, LockState::Lsrd | LockState::Lsro),
        LockState::Lsup => matches!(other, LockState::Lsrd | LockState::Lsup),
        LockState::Lear => matches!(other, LockState::Lsrd),
        LockState::Lenr => false,
    }
}

/// Whether a lock in this state keeps other processes from such a use of the object.
pub fn blocks(state: LockState, category: Category) -> bool
    ensures { result ≡ blocks state category }
{
    match category {
        Category::Read => matches!(state, LockState::Lenr),
        Category::Change => { matches!(state, LockState::Lsro | LockState::Lear | LockState::Lenr) }
        Category::Control => true,
    }
}
