use crate::item::Item;

/// The place of a seat: it has no ticket, it waits with one, or it has the turn.
pub enum Place {
    Idle,
    Waits(u64),
    Acts(u64),
}

/// A process, and its items in the history. No value of it is made.
pub struct ProcessList {
    pub process: u32,
    /// A clause reads an array as a list, of any length.
    pub items: [Item; 0],
}

/// What a seat knows. No value of it is made.
pub struct View<M> {
    /// The machine that the turn was made with; None where the view is spent.
    pub first: Option<M>,
    pub place: Place,
    /// A beginning of the history.
    pub seen: [Item; 0],
    /// Its processes, each with its items in the history.
    pub lists: [ProcessList; 0],
}
