use s38_base::Exception;

/// What becomes of an event.
#[derive(Clone, Copy, PartialEq, Eq, Debug)]
pub enum Verdict {
    /// It takes effect.
    Permit,
    /// It waits.
    Wait,
    /// It is refused by the first rule that fails.
    Refuse(Exception),
}
