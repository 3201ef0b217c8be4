ghost use Rattle.std.specs.Prelude.{◌≡◌};
ghost use Rattle.s38_run.specs.Ends.{end_of};

use s38_code::StepFault;

/// How a run ends.
#[derive(Clone, Copy, PartialEq, Eq, Debug)]
pub enum RunEnd {
    /// Each process has ended.
    Complete,
    /// The machine has stopped.
    Stopped,
    /// Memory was refused.
    NoMemory,
}

/// How a run ends that was made, or broken off by a fault.
pub fn end_of(run: Result<(), StepFault>) -> RunEnd
    ensures { result ≡ end_of run }
{
    match run {
        Ok(()) => RunEnd::Complete,
        Err(StepFault::Stopped) => RunEnd::Stopped,
        Err(StepFault::NoMemory) => RunEnd::NoMemory,
    }
}
