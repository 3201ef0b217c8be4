ghost use Rattle.std.specs.Prelude.{◌≡◌, if◌then◌else◌};
ghost use Rattle.s38_top.specs.Outcome.{IsWrittenOut, faulted};
ghost use Rattle.s38_top.specs.Answered.{outcome_text, status_of};
ghost use Rattle.s38.specs.CommandLine.{outcome_of, refusal_of};

use s38_io::Sink;
use std::io::ErrorKind;

/// Why a command line is not served.
#[derive(Clone, Copy, PartialEq, Eq, Debug)]
pub enum Refusal {
    /// It has no path, or a word that is no text.
    BadWords,
    /// The file of the path can't be opened.
    DiskFault,
    /// Memory was refused.
    NoMemory,
}

/// Why the words of a command line could not be taken.
pub fn refusal_of(kind: ErrorKind) -> Refusal
    ensures { result ≡ refusal_of kind }
{
    match kind {
        ErrorKind::OutOfMemory => Refusal::NoMemory,
        _ => Refusal::BadWords,
    }
}

/// What is written of a refusal.
#[tactic(auto, unfolding(s38_top::specs::Lines::disk_fault_line))]
fn text(refusal: Refusal) -> &'static [u8]
    ensures { result.now ≡ outcome_text (outcome_of refusal) }
{
    match refusal {
        Refusal::BadWords => b"BAD WORDS\n",
        Refusal::DiskFault => b"DISK FAULT\n",
        Refusal::NoMemory => b"NO MEMORY\n",
    }
}

/// The status of a refusal whose text was written, or was not.
fn status(refusal: Refusal, written: bool) -> u8
    ensures { result ≡ (if written then status_of (outcome_of refusal) else faulted (outcome_of refusal)) }
{
    match refusal {
        Refusal::BadWords => { if written { 1 } else { 6 } }
        Refusal::DiskFault => { if written { 4 } else { 6 } }
        Refusal::NoMemory => 7,
    }
}

/// Writes the text of a refusal, and gives its status.
pub fn refuse<O: Sink>(refusal: Refusal, out: &mut O) -> u8
    ensures { IsWrittenOut (O.written out.old) (O.written out.new) (O.faults out.old) (O.faults out.new) result (outcome_of refusal) }
{
    match out.put(text(refusal)) {
        Ok(()) => status(refusal, true),
        Err(_) => status(refusal, false),
    }
}
