use s38_code::Event;

/// What a process does next.
#[derive(Drop, Debug)]
pub enum Next {
    /// It asks this of the machine, and the same again until it is answered.
    Step(Event),
    /// It has ended.
    Ended,
}
