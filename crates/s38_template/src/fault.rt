ghost use Rattle.std.specs.Prelude.{◌≡◌};
ghost use Rattle.s38_template.specs.declared.fault.DeckFault.TheVariants.{NoMemory};

use s38_base::NoMemory;
use thiserror::Error;

/// Why a text gives no deck.
#[derive(Clone, Copy, PartialEq, Eq, Debug, Error)]
pub enum DeckFault {
    /// The first line that is bad, counted from 1, and the least code of what is bad about it.
    #[error("{line} {code}")]
    Bad { line: u32, code: u8 },
    /// Memory was refused.
    #[error("no memory")]
    NoMemory,
}

impl From<NoMemory> for DeckFault {
    ghost from_gives = { λ _ e. e ≡ NoMemory };

    fn from(_: NoMemory) -> Self {
        DeckFault::NoMemory
    }
}
