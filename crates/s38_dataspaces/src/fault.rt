use thiserror::Error;

/// Why an entry was not inserted, updated or deleted.
#[derive(Clone, Copy, PartialEq, Eq, Debug, Error)]
pub enum EntryFault {
    #[error("the entry has not the length of the fields")]
    BadLength,
    #[error("no entry has this ordinal")]
    NoEntry,
    #[error("the data space's image would be too large")]
    Full,
    #[error("no memory")]
    NoMemory,
}
