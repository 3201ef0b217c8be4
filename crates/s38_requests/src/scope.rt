use s38_code::{Row, Val};

/// The variables that an instruction names.
#[derive(Clone, Copy)]
pub struct Scope<'a> {
    /// What each declared name means.
    pub rows: &'a [Row],
    /// The place of each declared name among all variables of the process.
    pub homes: &'a [usize],
    /// All variables of the process.
    pub values: &'a [Val],
}
