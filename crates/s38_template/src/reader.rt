use crate::place::Place;
use crate::seen::Seen;
use s38_code::{Jobs, Templates, TextLines};

/// What was read of a deck so far.
#[derive(Drop)]
pub struct Reader {
    pub place: Place,
    /// The templates that have ended.
    pub templates: Templates,
    /// The lines of the template that has begun.
    pub draft: TextLines,
    /// The labels of the template that has begun.
    pub labels: Seen,
    /// How many declarations it has.
    pub declared: u32,
    /// How many instructions it has.
    pub acts: u32,
    /// The names of the templates.
    pub names: Seen,
    pub jobs: Jobs,
    /// The names of the jobs.
    pub job_names: Seen,
    /// How many stages have begun.
    pub stage: u16,
}
