//! What the words, a source and a disk come to: where a run was prepared it is made, and what it leaves is kept.
ghost use Rattle.std.specs.Prelude.{◌≡◌, ℕ, All, false, map, true};
ghost use Rattle.s38_base.specs.Faults.{Rose};
ghost use Rattle.s38_laws_flush.specs.durable.Kept.{AreImages};
ghost use Rattle.s38_laws_images.specs.openings.Closing.{CanClose};
ghost use Rattle.s38_laws_images.specs.readable.Readable.{IsFit};
ghost use Rattle.s38_flush.specs.Stepping.{HaveHeaders};
ghost use Rattle.s38_pages.specs.Mounts.{layout_of};
ghost use Rattle.s38_pages.specs.Vaults.{page_holds, page_view};
ghost use Rattle.s38_store_file.specs.Crashes.{DuringCall, GoesOn, IsBetween};
ghost use Rattle.s38_command.specs.Commands.{AreTurnsOn, command_on};
ghost use Rattle.s38_top.specs.Runs.{all_durable_of};
ghost use Rattle.s38_top.specs.Stored.{IsBegunOver, WentOver, vault_of};
ghost use Rattle.s38_vault.specs.Content.{Content};
ghost use Rattle.s38_top.specs.Ends.{CameFrom, IsDecided, IsEnd, IsSafeOf, LeftOver, end_of};
ghost use Rattle.s38_top.specs.declared.outcome.Outcome.{Outcome};
ghost use Rattle.s38_top.specs.declared.outcome.RunEnd.{RunEnd};

use crate::closing::{closing_laws, restart_laws};
use crate::outcome::{Outcome, RunEnd, Whole};
use crate::prepare::{ReadyRun, prepare};
use crate::store::Decided;
use crate::stored::{StoredRun, run_over, run_shared_over};
use s38_command::Turns;
use s38_disk::Disk;
use s38_durable_machine::StoredEnd;
use s38_io::Source;
use s38_laws_checkpoint::headers_can_be_read;
use s38_laws_images::all_are_readable;
use s38_laws_recovery::what_is_closed_can_be_read;
use s38_page_diff::FlushFault;
use s38_pages::PageVault;
use s38_store_file::{Kept, checkpoint};
use s38_vault::Vault;
use s38_workers::Gate;
use std::alloc::Global;
use std::sync::Wait;
use std::thread::Threads;

/// How a run ended by what became of what it left; None for want of memory.
fn run_end(end: Result<(), FlushFault>) -> Option<RunEnd>
    ensures { result ≡ end_of end }
{
    match end {
        Ok(()) => Some(RunEnd::Kept),
        Err(FlushFault::Failed) => Some(RunEnd::Failed),
        Err(FlushFault::Full { needed, free }) => Some(RunEnd::Full { needed, free }),
        // A checkpoint never finds a bad header.
        Err(FlushFault::NoMemory | FlushFault::BadHeader { .. }) => None,
    }
}

/// What a run left is kept in the store over which it was made.
fn of_whole<D: Disk>(alloc: Global, turns: Turns, whole: Whole, vault: PageVault<D>) -> Decided<D>
    requires end { CanClose whole.state }
    requires fit { All IsFit whole.state.held.objects }
    requires faultless { (page_view vault).faults ≡ vault.start }
    ensures end { IsEnd turns whole vault (D.view result.disk) result.outcome }
    ensures during { (m : Content) → page_holds vault m → DuringCall vault.disk (D.view result.disk) (IsBetween (D.view result.disk).size m (all_durable_of whole.state) whole.state.held) }
    ensures goes { GoesOn vault.disk (D.view result.disk) }
    ensures placed { vault.layout ≡ layout_of (D.view result.disk).size }
    ensures headers { HaveHeaders (all_durable_of whole.state) }
    ensures images { AreImages (all_durable_of whole.state) }
{
    headers_can_be_read(&whole.state.objects, &whole.state.units);
    all_are_readable(&whole.state.objects);
    what_is_closed_can_be_read();
    let Kept { disk, end } = checkpoint(alloc, vault, &whole.state.objects, &whole.state.units);
    match run_end(end) {
        None => Decided {
            outcome: Outcome::NoMemory,
            disk,
        },
        Some(end) => Decided {
            outcome: Outcome::Ran { turns, whole, end },
            disk,
        },
    }
}

/// What a run that the disk broke off comes to.
fn of_stopped<D: Disk>(turns: Turns, whole: Whole, vault: PageVault<D>) -> Decided<D>
    ensures outcome { result.outcome ≡ Outcome.Ran turns whole RunEnd.Stopped }
    ensures disk { D.view result.disk ≡ vault.disk }
    ensures placed { vault.layout ≡ layout_of (D.view result.disk).size }
    ensures cause { Rose vault.start (page_view vault).faults → Rose vault.start (D.view result.disk).faults }
{
    Decided {
        outcome: Outcome::Ran {
            turns,
            whole,
            end: RunEnd::Stopped,
        },
        disk: vault.release(),
    }
}

/// What a run over a store comes to: where each job ran to its end, what it left is kept.
fn finish<D: Disk>(alloc: Global, turns: Turns, run: StoredRun<D>) -> Decided<D>
    requires { WentOver turns run.deck run.machine run.end }
    ensures came { CameFrom turns run.deck (vault_of run.machine) run.machine.machine.origin (D.view result.disk) result.outcome }
    ensures left { LeftOver turns run.deck (vault_of run.machine) run.machine.machine.origin (D.view result.disk) result.outcome }
{
    let StoredRun { deck, machine, end } = run;
    let StoredEnd {
        vault,
        history,
        marks,
        state,
    } = machine.end();
    closing_laws();
    restart_laws();
    // Their contracts say that the objects are lawful, and how many changes a put takes.
    let _objects = state.objects.len();
    let _most = vault.most();
    let vault = vault.end();
    let whole = Whole {
        deck,
        history,
        marks,
        state,
    };
    match end {
        s38_run::RunEnd::Complete => of_whole(alloc, turns, whole, vault),
        s38_run::RunEnd::Stopped => of_stopped(turns, whole, vault),
        s38_run::RunEnd::NoMemory => Decided {
            outcome: Outcome::NoMemory,
            disk: vault.release(),
        },
    }
}

/// Makes a run on one thread, and keeps what it leaves.
fn run_alone<D: Disk + Drop>(alloc: Global, ready: ReadyRun<D>) -> Decided<D>
    requires turns { AreTurnsOn false ready.turns }
    requires begun { IsBegunOver ready.started.deck ready.started.made.items ready.started.machine }
    ensures came { CameFrom ready.turns ready.started.deck (vault_of ready.started.machine) ready.started.machine.machine.origin (D.view result.disk) result.outcome }
    ensures left { LeftOver ready.turns ready.started.deck (vault_of ready.started.machine) ready.started.machine.machine.origin (D.view result.disk) result.outcome }
{
    let ReadyRun { turns, started } = ready;
    let Turns::Serial { pick } = turns else {
        unreachable!()
    };
    let run = run_over(alloc, started, pick);
    finish(alloc, turns, run)
}

/// Makes a run on threads, and keeps what it leaves.
fn run_on_threads<R: Threads + Wait + Sync, D: Disk + Drop + Send, G: Gate + Sync>(
    rt: &R,
    alloc: Global,
    ready: ReadyRun<D>,
    gate: &G,
) -> Decided<D>
    requires turns { AreTurnsOn true ready.turns }
    requires begun { IsBegunOver ready.started.deck ready.started.made.items ready.started.machine }
    ensures came { CameFrom ready.turns ready.started.deck (vault_of ready.started.machine) ready.started.machine.machine.origin (D.view result.disk) result.outcome }
    ensures left { LeftOver ready.turns ready.started.deck (vault_of ready.started.machine) ready.started.machine.machine.origin (D.view result.disk) result.outcome }
{
    let ReadyRun { turns, started } = ready;
    let Turns::Workers { count } = turns else {
        unreachable!()
    };
    let run = run_shared_over(rt, alloc, started, count, gate);
    finish(alloc, turns, run)
}

/// What the words, a source and a disk come to in a call that starts no thread.
pub fn decide_alone<S: Source, D: Disk + Drop>(
    alloc: Global,
    words: &[&str],
    source: &mut S,
    disk: D,
) -> Decided<D>
    ensures decided { IsDecided (command_on false (map (λ w. w.now) words.now)) (S.left source.old) (S.left source.new) (S.faults source.old) (S.faults source.new)
        (D.view disk) (D.view result.disk) result.outcome }
    ensures safe { IsSafeOf (command_on false (map (λ w. w.now) words.now)) (D.view disk) (D.view result.disk) result.outcome }
{
    match prepare(alloc, false, words, source, disk) {
        Err(decided) => decided,
        Ok(ready) => run_alone(alloc, ready),
    }
}

/// What the words, a source and a disk come to in a call that starts threads.
pub fn decide_on_threads<
    R: Threads + Wait + Sync,
    S: Source,
    D: Disk + Drop + Send,
    G: Gate + Sync,
>(rt: &R, alloc: Global, words: &[&str], source: &mut S, disk: D, gate: &G) -> Decided<D>
    ensures decided { IsDecided (command_on true (map (λ w. w.now) words.now)) (S.left source.old) (S.left source.new) (S.faults source.old) (S.faults source.new)
        (D.view disk) (D.view result.disk) result.outcome }
    ensures safe { IsSafeOf (command_on true (map (λ w. w.now) words.now)) (D.view disk) (D.view result.disk) result.outcome }
{
    match prepare(alloc, true, words, source, disk) {
        Err(decided) => decided,
        Ok(ready) => run_on_threads(rt, alloc, ready, gate),
    }
}
