ghost use Rattle.std.specs.Prelude.{◌≡◌, IfOk};

use s38_base::{Name, NoMemory};
use s38_code::Names;
use std::alloc::Global;
use std::marker::Model;

/// A job as its line says it.
#[derive(Drop, Debug)]
pub struct JobSaid {
    pub name: Name,
    pub user: Name,
    pub template: Name,
    /// The number after BUDGET; one that 64 bits do not hold is given as the largest.
    pub budget: u64,
    pub contexts: Names,
}

/// A job as its line says it, in memory of its own, so that lines which say less are small values. Contracts see the
/// job.
#[derive(Drop, Debug)]
pub struct JobLine {
    held: Box<JobSaid>,
}

impl Model for JobLine {
    ghost use Rattle.s38_template.specs.declared.said.JobSaid.{JobSaid};

    ghost Value = { JobSaid };

    ghost view = { λ j. j.held.value };
}

impl JobLine {
    /// The line of this job; where memory is refused the job is dropped.
    pub fn new(alloc: Global, said: JobSaid) -> Result<JobLine, NoMemory>
        ensures { IfOk result (λ line. line ≡ said) }
    {
        match Box::new(alloc, said) {
            Ok(held) => Ok(JobLine { held }),
            Err(_) => Err(NoMemory),
        }
    }

    /// What the line says of the job.
    pub fn said(&self) -> &JobSaid
        ensures { result.now ≡ self.now }
    {
        &self.held
    }

    /// The job, out of its memory.
    pub fn into_said(self) -> JobSaid
        ensures { result ≡ self }
    {
        Box::into_inner(self.held)
    }
}

/// What a line says.
#[derive(Drop, Debug)]
pub enum Line {
    /// A template of this name begins.
    Program(Name),
    /// A name is declared; its numbers are in their ranges or not.
    Declare(bool),
    /// A label of this name.
    Label(Name),
    /// An instruction.
    Act,
    /// The template ends.
    End,
    /// A stage begins.
    Stage,
    /// A job.
    Job(JobLine),
}
