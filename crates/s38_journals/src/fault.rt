use thiserror::Error;

/// Why no room was made for entries.
#[derive(Clone, Copy, PartialEq, Eq, Debug, Error)]
pub enum JournalFault {
    #[error("the journal space would be too large")]
    Full,
    #[error("no memory")]
    NoMemory,
}
