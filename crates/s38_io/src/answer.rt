//! What the answer of a call of the system comes to.
ghost use Rattle.std.specs.Prelude.{◌≡◌};
ghost use Rattle.s38_io.specs.Answers.{is_interrupted, of_error, of_flush, of_read, of_write};

use std::io;
use std::io::ErrorKind;

/// What the answer of a call of the system comes to.
#[derive(Clone, Copy, PartialEq, Eq, Debug)]
pub enum Answer {
    /// So many bytes came or went.
    Took(usize),
    /// The call was interrupted, and is to be made again.
    Again,
    /// The call failed.
    Fault,
}

fn is_interrupted(kind: ErrorKind) -> bool
    ensures { result ≡ is_interrupted kind }
{
    matches!(kind, ErrorKind::Interrupted)
}

fn of_error(error: io::Error) -> Answer
    ensures { result ≡ of_error error }
{
    if is_interrupted(error.kind()) {
        Answer::Again
    } else {
        Answer::Fault
    }
}

/// What a read comes to: no bytes at the end.
pub fn of_read(answer: io::Result<usize>) -> Answer
    ensures { result ≡ of_read answer }
{
    match answer {
        Ok(count) => Answer::Took(count),
        Err(error) => of_error(error),
    }
}

/// What a write comes to, of a piece that is not empty.
pub fn of_write(answer: io::Result<usize>) -> Answer
    ensures { result ≡ of_write answer }
{
    match answer {
        Ok(0) => Answer::Fault,
        Ok(count) => Answer::Took(count),
        Err(error) => of_error(error),
    }
}

/// What a flush or a sync comes to: every error is a fault.
pub fn of_flush(answer: io::Result<()>) -> Answer
    ensures { result ≡ of_flush answer }
{
    match answer {
        Ok(()) => Answer::Took(0),
        Err(_) => Answer::Fault,
    }
}
