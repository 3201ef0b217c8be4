ghost use Rattle.std.specs.Prelude.{◌≡◌, ◌⊎◌, ◌++◌, IfOk, MatchBool};
ghost use Rattle.std.specs.Io.KnownBytes.{Appends};
ghost use Rattle.s38_base.specs.Faults.{Rose};
ghost use Rattle.s38_io.specs.Sink.{AppendsFront};
ghost use Rattle.s38_joblog.specs.Log.{last_line};
ghost use Rattle.s38_top.specs.Answered.{checked_text, listed_text, outcome_text, run_end_line, run_text};

use crate::lines::{bad_store_line, full_line};
use crate::outcome::{Outcome, RunEnd};
use s38_base::NoMemory;
use s38_code::{CheckedTemplate, Deck, Entry};
use s38_demo::demo_text;
use s38_io::Sink;
use s38_joblog::{bad_line, check_text, last_line, log_text};
use s38_listing::list_text;
use s38_objects::Objects;
use std::alloc::Global;

/// An outcome, and whether its text was written whole.
#[derive(Drop)]
pub struct Told {
    pub outcome: Outcome,
    pub written: bool,
}

/// A text, and the last line after it.
fn with_last_line(alloc: Global, text: Vec<u8>, count: usize) -> Result<Vec<u8>, NoMemory>
    ensures { IfOk result (λ more. more.items ≡ text.items ++ last_line count) }
{
    let mut text = text;
    let last = last_line(alloc, count as u64)?;
    text.extend_from_slice(last.as_slice())?;
    Ok(text)
}

/// The last line of a run over a store.
#[tactic(auto, unfolding(crate::specs::Lines::disk_fault_line))]
fn end_line(alloc: Global, count: usize, end: RunEnd) -> Result<Vec<u8>, NoMemory>
    ensures { IfOk result (λ line. line.items ≡ run_end_line count end) }
{
    match end {
        RunEnd::Kept => last_line(alloc, count as u64),
        RunEnd::Failed | RunEnd::Stopped => {
            let mut line = Vec::new(alloc);
            line.extend_from_slice(b"DISK FAULT\n")?;
            Ok(line)
        }
        RunEnd::Full { needed, free } => full_line(alloc, needed, free),
    }
}

/// The log of a run, and its last line.
fn run_text(alloc: Global, deck: &Deck, history: &[Entry], end: RunEnd) -> Result<Vec<u8>, NoMemory>
    ensures { IfOk result (λ text. text.items ≡ run_text deck.now history.now end) }
{
    let mut text = log_text(alloc, history, deck.jobs.as_slice())?;
    let last = end_line(alloc, history.len(), end)?;
    text.extend_from_slice(last.as_slice())?;
    Ok(text)
}

/// A line for each object, and the last line.
fn listed_text(alloc: Global, objects: &Objects) -> Result<Vec<u8>, NoMemory>
    ensures { IfOk result (λ text. text.items ≡ listed_text objects.now) }
{
    let lines = list_text(alloc, objects)?;
    with_last_line(alloc, lines, objects.len())
}

/// A line for each template, and the last line.
fn checked_text(alloc: Global, templates: &[CheckedTemplate]) -> Result<Vec<u8>, NoMemory>
    ensures { IfOk result (λ text. text.items ≡ checked_text templates.now) }
{
    let lines = check_text(alloc, templates)?;
    with_last_line(alloc, lines, templates.len())
}

fn put<O: Sink>(out: &mut O, text: &[u8]) -> bool
    ensures { MatchBool result (Appends (O.written out.old) (O.written out.new) text.now)
        (Rose (O.faults out.old) (O.faults out.new) × AppendsFront (O.written out.old) (O.written out.new) text.now) }
{
    match out.put(text) {
        Ok(()) => true,
        Err(_) => false,
    }
}

fn tell_text<O: Sink>(outcome: Outcome, text: &[u8], out: &mut O) -> Told
    requires { text.now ≡ outcome_text outcome }
    ensures outcome { result.outcome ≡ outcome }
    ensures told { MatchBool result.written (Appends (O.written out.old) (O.written out.new) (outcome_text result.outcome))
        (Rose (O.faults out.old) (O.faults out.new) × AppendsFront (O.written out.old) (O.written out.new) (outcome_text result.outcome)) }
{
    let written = put(out, text);
    Told { outcome, written }
}

/// Writes the text of an outcome. If memory was wanted for it, the outcome is that.
fn tell_made<O: Sink>(outcome: Outcome, text: Result<Vec<u8>, NoMemory>, out: &mut O) -> Told
    requires { IfOk text (λ made. made.items ≡ outcome_text outcome) }
    ensures outcome { (result.outcome ≡ outcome) ⊎ (result.outcome ≡ Outcome.NoMemory) }
    ensures told { MatchBool result.written (Appends (O.written out.old) (O.written out.new) (outcome_text result.outcome))
        (Rose (O.faults out.old) (O.faults out.new) × AppendsFront (O.written out.old) (O.written out.new) (outcome_text result.outcome)) }
{
    match text {
        Err(_) => tell_text(Outcome::NoMemory, b"NO MEMORY\n", out),
        Ok(made) => tell_text(outcome, made.as_slice(), out),
    }
}

/// Writes the text of an outcome in one piece. If memory is wanted for it, the outcome is that.
#[tactic(auto, unfolding(crate::specs::Lines::disk_fault_line))]
pub fn tell<O: Sink>(alloc: Global, outcome: Outcome, out: &mut O) -> Told
    ensures outcome { (result.outcome ≡ outcome) ⊎ (result.outcome ≡ Outcome.NoMemory) }
    ensures told { MatchBool result.written (Appends (O.written out.old) (O.written out.new) (outcome_text result.outcome))
        (Rose (O.faults out.old) (O.faults out.new) × AppendsFront (O.written out.old) (O.written out.new) (outcome_text result.outcome)) }
{
    match outcome {
        Outcome::BadWords => tell_text(Outcome::BadWords, b"BAD WORDS\n", out),
        Outcome::DeckFault => tell_text(Outcome::DeckFault, b"DECK FAULT\n", out),
        Outcome::NoMemory => tell_text(Outcome::NoMemory, b"NO MEMORY\n", out),
        Outcome::DiskFault => tell_text(Outcome::DiskFault, b"DISK FAULT\n", out),
        Outcome::BadDeck { line, code } => {
            let text = bad_line(alloc, line, code);
            tell_made(Outcome::BadDeck { line, code }, text, out)
        }
        Outcome::Refused(bad) => {
            let text = bad_store_line(alloc, bad);
            tell_made(Outcome::Refused(bad), text, out)
        }
        Outcome::Ran { turns, whole, end } => {
            let text = run_text(alloc, &whole.deck, whole.history.as_slice(), end);
            tell_made(Outcome::Ran { turns, whole, end }, text, out)
        }
        Outcome::Checked(checked) => {
            let text = checked_text(alloc, checked.templates.as_slice());
            tell_made(Outcome::Checked(checked), text, out)
        }
        Outcome::Demonstrated { size, whole } => {
            let text = demo_text(alloc, size, whole.history.as_slice());
            tell_made(Outcome::Demonstrated { size, whole }, text, out)
        }
        Outcome::Installed => {
            let text = last_line(alloc, 0);
            tell_made(Outcome::Installed, text, out)
        }
        Outcome::Listed(objects) => {
            let text = listed_text(alloc, &objects);
            tell_made(Outcome::Listed(objects), text, out)
        }
    }
}
