use s38_code::EndCause;

/// The status of a process between two events.
#[derive(Clone, Copy, PartialEq, Eq, Debug)]
pub enum Status {
    /// It has not started.
    Fresh,
    Running,
    /// It asks for its end, for this cause.
    Ending(EndCause),
    Ended,
}
