use s38_odt::{CodeLines, Odt};

/// The declarations and the code of a program.
#[derive(Drop)]
pub struct Scope<'a> {
    pub table: Odt,
    pub code: CodeLines<'a>,
}
