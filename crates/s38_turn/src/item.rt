use s38_code::{Entry, Event};

/// What a history has: an entry, or as its last item the call that was answered Stopped first.
pub enum Item {
    Entered(Entry),
    Stopped(u32, Event),
}
