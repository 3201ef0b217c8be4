/// The part of the machine that does an operation.
#[derive(Clone, Copy, PartialEq, Eq, Debug)]
pub enum Family {
    /// Numbers, strings, comparisons and space pointers, among variables or in spaces.
    Computing,
    /// The flow of control and of exceptions within an invocation.
    Branching,
    /// Pointers to objects, found by name or by another pointer.
    Resolving,
    Contexts,
    Profiles,
    /// Who may do what with an object.
    Grants,
    Programs,
    Locks,
    /// Spaces, pointers into them, and cells that are copied.
    Spaces,
    Queues,
    Indexes,
    /// Data spaces and cursors.
    DataSpaces,
    /// Journals, commitment, and what is forced.
    Journals,
}
