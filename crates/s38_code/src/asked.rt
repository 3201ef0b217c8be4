/// Where the reply to what a process has asked is.
#[derive(Clone, Copy, PartialEq, Eq, Debug)]
pub enum Asked {
    /// In the last entry of the history.
    Entered,
    /// The process waits already: it must wait still, and nothing is entered.
    WaitsStill,
}
