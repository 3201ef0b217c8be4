use thiserror::Error;

/// Why a put was not made, or may not have been.
#[derive(Clone, Copy, PartialEq, Eq, Debug, Error)]
pub enum VaultFault {
    /// The outside failed, and the count of faults rose. The vault no longer tells what it holds.
    #[error("the outside failed")]
    Failed,
    /// The changes bring more keys than there are free parts. Nothing was changed.
    #[error("{needed} parts are needed, and {free} are free")]
    Full { needed: u32, free: u32 },
}
