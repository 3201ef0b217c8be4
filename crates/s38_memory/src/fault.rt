use thiserror::Error;

/// Why a call of the storage was refused. A refused call leaves the storage as it was.
#[derive(Clone, Copy, PartialEq, Eq, Debug, Error)]
pub enum MemoryFault {
    /// The piece leaves the storage.
    #[error("outside the storage")]
    Bounds,
    /// The place is no multiple of 16.
    #[error("not at the begin of a cell")]
    Alignment,
    /// The cell holds bytes.
    #[error("no pointer")]
    NoPointer,
    /// Memory was refused.
    #[error("no memory")]
    NoMemory,
}
