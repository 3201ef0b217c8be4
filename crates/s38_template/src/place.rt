/// Which lines may come next.
#[derive(Clone, Copy, PartialEq, Eq, Debug)]
pub enum Place {
    /// Before the first line, and after a template: a template or a stage.
    Between,
    /// After the head of a template: a declaration, and all that may come after the declarations.
    Declaring,
    /// After a label or an instruction: one more, or the template's end.
    Acting,
    /// After the line of a stage: a job.
    Begun,
    /// After a job: a job or a stage.
    Staged,
}
