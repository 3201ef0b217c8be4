ghost use Rattle.std.specs.Prelude.{◌≡◌};
ghost use Rattle.s38_image.specs.declared.fault.ImageFault.TheVariants as faults;

use s38_base::NoMemory;
use thiserror::Error;

/// Why parts hold no object.
#[derive(Clone, Copy, PartialEq, Eq, Debug, Error)]
pub enum ImageFault {
    /// The first part at fault: 0 the header, else a missing page, 1 the rows, 128 the body.
    #[error("{object} {part}")]
    BadImage { object: u64, part: u32 },
    /// Memory was refused.
    #[error("no memory")]
    NoMemory,
}

impl From<NoMemory> for ImageFault {
    ghost from_gives = { λ _ fault. fault ≡ faults.NoMemory };

    fn from(_: NoMemory) -> ImageFault {
        ImageFault::NoMemory
    }
}
