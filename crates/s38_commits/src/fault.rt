use thiserror::Error;

/// Why a change was not noted in a unit.
#[derive(Clone, Copy, PartialEq, Eq, Debug, Error)]
pub enum UnitFault {
    #[error("the unit's changes would take too many bytes of a journal")]
    Full,
    #[error("no memory")]
    NoMemory,
}
