/// What is done before each shared event. All workers share it. It has no handle by which it could wait, so it returns.
pub trait Gate {
    /// Is called before a process asks for an event, outside the turn, after its local instructions.
    fn before(&self, process: u32);
}

/// Does nothing.
pub struct NoGate;

impl Gate for NoGate {
    fn before(&self, _process: u32) {}
}
