ghost use Rattle.std.specs.Prelude.{IfSome, IsSome, false, map, true};
ghost use Rattle.s38_command.specs.Commands.{command_on};
ghost use Rattle.s38_top.specs.Outcome.{IsExplained};
ghost use Rattle.s38_top.specs.Outside.{outside};

use crate::decide::{decide_alone, decide_on_threads};
use crate::report::{Report, reported};
use s38_disk::Disk;
use s38_io::{Sink, Source};
use s38_workers::Gate;
use std::alloc::Global;
use std::sync::Wait;
use std::thread::Threads;

/// Serves the words, and starts no thread. Under `install` a store is made on the disk. Under `list` a line for each of its
/// objects is written. Under `serial` the deck of the source is read, its jobs are run on a machine with the objects of the
/// store, the log of the run is written, and what the run leaves is kept in the store. Under `check` the deck is read, and a
/// line for each of its templates is written: what creation makes of it. Under `demo n` the generated deck of n postings is
/// run from the objects of a store that was installed, and n and the total are written. `check` and `demo` leave the disk as
/// it is. `run` is no command here. The disk comes back.
pub fn plain_top<D: Disk + Drop, I: Source, O: Sink>(
    alloc: Global,
    words: &[&str],
    deck: &mut I,
    disk: D,
    out: &mut O,
) -> Report<D>
    ensures back { IsSome result.disk }

    // Each status but that of want of memory has its cause, and its text is written; status 0 has what its command promises;
    // a good call is served, unless memory is wanted, or what a run leaves finds no room; and a crash at any moment of a run
    // leaves a store that restarts to what was durable then, and gives no number again.
    ensures answered { IfSome result.disk (λ new. IsExplained (command_on false (map (λ w. w.now) words.now)) (outside (I.left deck.old) (I.faults deck.old) (O.written out.old) (O.faults out.old) (D.view disk))
        (outside (I.left deck.new) (I.faults deck.new) (O.written out.new) (O.faults out.new) (D.view new)) result.status result.history.items result.marks.items) }
{
    let decided = decide_alone(alloc, words, deck, disk);
    reported(alloc, decided, out)
}

/// Serves `run` and `run --workers n`; other words are no command here. The jobs of the deck are run as under `serial`, on so
/// many threads, which share the machine. Before each event the gate is called, outside of the turn. It gets no handle by which
/// it could wait, so it returns; whatever it does, the clauses hold. The disk comes back. How long a job waits for others is not
/// promised.
pub fn run_top<R: Threads + Wait + Sync, D: Disk + Drop + Send, I: Source, O: Sink, G: Gate + Sync>(
    rt: &R,
    alloc: Global,
    words: &[&str],
    deck: &mut I,
    disk: D,
    out: &mut O,
    gate: &G,
) -> Report<D>
    ensures back { IsSome result.disk }

    // The same of these words: whatever the threads did when, the history is one that the one-thread machine has.
    ensures answered { IfSome result.disk (λ new. IsExplained (command_on true (map (λ w. w.now) words.now)) (outside (I.left deck.old) (I.faults deck.old) (O.written out.old) (O.faults out.old) (D.view disk))
        (outside (I.left deck.new) (I.faults deck.new) (O.written out.new) (O.faults out.new) (D.view new)) result.status result.history.items result.marks.items) }
{
    let decided = decide_on_threads(rt, alloc, words, deck, disk, gate);
    reported(alloc, decided, out)
}
