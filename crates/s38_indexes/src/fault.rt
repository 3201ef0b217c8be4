use thiserror::Error;

/// Why a change of an index was refused.
#[derive(Clone, Copy, PartialEq, Eq, Debug, Error)]
pub enum IndexFault {
    #[error("the entry is longer than the index's longest")]
    BadLength,
    #[error("the index has this entry already")]
    Present,
    #[error("the index's image would be too large")]
    Full,
    #[error("the index has no such entry")]
    Absent,
    #[error("no memory")]
    NoMemory,
}
