use s38_code::CreateResult;
use s38_local::Frame;

/// One invocation of a program.
#[derive(Drop)]
pub struct Invocation {
    /// The program; the first invocation has what creation made of the job's template.
    pub made: CreateResult,
    /// How far it has come.
    pub frame: Frame,
}
