/// Whether a machine over a vault goes on.
#[derive(Clone, Copy, PartialEq, Eq, Debug)]
pub enum Ending {
    /// It answers.
    Going,
    /// The vault failed while a step was kept. Nothing is put any more.
    Stopped,
    /// Memory was refused while a step was to be kept. Nothing of it was put, and nothing is any more.
    Wanting,
}
