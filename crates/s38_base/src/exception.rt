ghost use Rattle.std.specs.Prelude.{◌≡◌};

use crate::rights::{Rights, Special};
use crate::words::LockState;

/// What an exception says beside its number and its operand.
#[derive(Clone, Copy, PartialEq, Eq, Debug)]
pub enum Rule {
    Plain,
    /// The needed rights that are missing.
    Missing { rights: Rights },
    /// The needed special authority.
    NoSpecial { special: Special },
    /// The least process, and its state, that blocks.
    Held { process: u32, state: LockState },
    /// The process whose unit holds.
    Unit { process: u32 },
    /// The new parts that the step needs, and the free ones.
    StoreFull { needed: u32, free: u32 },
    /// The declaration or the instruction that creation refused.
    Creation { number: u32 },
}

/// An exception: its number, the operand that it is about (0: none), and its detail.
#[derive(Clone, Copy, PartialEq, Eq, Debug)]
pub struct Exception {
    pub id: u16,
    pub operand: u8,
    pub rule: Rule,
}

impl Exception {
    ghost use Rattle.s38_base.specs.Signals.{plain};

    /// An exception about an operand, with no detail.
    pub fn plain(id: u16, operand: u8) -> Exception
        ensures { result ≡ plain id operand }
    {
        Exception {
            id,
            operand,
            rule: Rule::Plain,
        }
    }
}
