//! What the program came to, as its caller gets it.
ghost use Rattle.std.specs.Prelude.{◌≡◌, [], ℕ, List, Option, Some, if◌then◌else◌};
ghost use Rattle.s38_disk.specs.Disk.{DiskView};
ghost use Rattle.s38_command.specs.declared.command.Command.{Command};
ghost use Rattle.s38_top.specs.Ends.{IsDecided, IsSafeOf};
ghost use Rattle.s38_top.specs.Outcome.{IsExplained, faulted};
ghost use Rattle.s38_top.specs.Answered.{history_of, marks_of, status_of};
ghost use Rattle.s38_top.specs.Outside.{outside};

use crate::outcome::{CheckedDeck, Outcome, Whole};
use crate::store::Decided;
use crate::tell::{Told, tell};
use s38_code::{Deck, Entry};
use s38_io::Sink;
use s38_machine::State;
use s38_objects::Objects;
use std::alloc::Global;

/// What the program came to: its status, the history, a mark for each entry, and the disk that was handed in.
#[derive(Drop)]
pub struct Report<D> {
    pub status: u8,
    pub history: Vec<Entry>,
    pub marks: Vec<u64>,
    /// It is always there.
    pub disk: Option<D>,
    /// What else was held, which is dropped with the report.
    rest: Rest,
}

/// What was read and made beside the history.
#[derive(Drop)]
enum Rest {
    Nothing,
    Run { deck: Deck, state: State },
    Checked(CheckedDeck),
    Listed(Objects),
}

/// What an outcome leaves.
#[derive(Drop)]
struct Parts {
    history: Vec<Entry>,
    marks: Vec<u64>,
    rest: Rest,
}

/// The parts of a run.
fn parted(whole: Whole) -> Parts
    ensures history { result.history ≡ whole.history }
    ensures marks { result.marks ≡ whole.marks }
{
    let Whole {
        deck,
        history,
        marks,
        state,
    } = whole;
    Parts {
        history,
        marks,
        rest: Rest::Run { deck, state },
    }
}

/// The parts where no job ran.
fn without_entries(alloc: Global, rest: Rest) -> Parts
    ensures history { result.history.items ≡ [] }
    ensures marks { result.marks.items ≡ [] }
{
    Parts {
        history: Vec::new(alloc),
        marks: Vec::new(alloc),
        rest,
    }
}

/// The parts of an outcome.
fn parts_of(alloc: Global, outcome: Outcome) -> Parts
    ensures history { result.history.items ≡ history_of outcome }
    ensures marks { result.marks.items ≡ marks_of outcome }
{
    match outcome {
        Outcome::Ran { whole, .. } => parted(whole),
        Outcome::Demonstrated { whole, .. } => parted(whole),
        Outcome::Checked(checked) => without_entries(alloc, Rest::Checked(checked)),
        Outcome::Listed(objects) => without_entries(alloc, Rest::Listed(objects)),
        _ => without_entries(alloc, Rest::Nothing),
    }
}

/// What is reported of an outcome that was told.
fn report_of<D>(alloc: Global, told: Told, disk: D) -> Report<D>
    ensures status { result.status ≡ (if told.written then status_of told.outcome else faulted told.outcome) }
    ensures history { result.history.items ≡ history_of told.outcome }
    ensures marks { result.marks.items ≡ marks_of told.outcome }
    ensures disk { result.disk ≡ Some disk }
{
    let status = told.outcome.status_told(told.written);
    let Parts {
        history,
        marks,
        rest,
    } = parts_of(alloc, told.outcome);
    Report {
        status,
        history,
        marks,
        disk: Some(disk),
        rest,
    }
}

/// Tells what was decided, and reports it.
pub fn reported<D, O: Sink>(alloc: Global, decided: Decided<D>, out: &mut O) -> Report<D>
    ensures disk { result.disk ≡ Some decided.disk }
    ensures answered { (asked : Option Command) (left left' : Option (List ℕ)) (taken taken' : ℕ) (old new : DiskView) → IsDecided asked left left' taken taken' old new decided.outcome
        → IsSafeOf asked old new decided.outcome → IsExplained asked (outside left taken (O.written out.old) (O.faults out.old) old) (outside left' taken' (O.written out.new) (O.faults out.new) new)
        result.status result.history.items result.marks.items }
{
    let Decided { outcome, disk } = decided;
    let told = tell(alloc, outcome, out);
    report_of(alloc, told, disk)
}
