//! Runs of the jobs of a deck over the store of a disk.
ghost use Rattle.std.specs.Prelude.{◌≡◌, ◌≤◌, ℕ, All, IfErr, IfOk, Some, length, slice_get};
ghost use Rattle.s38_code.specs.declared.deck.Job.{Job};
ghost use Rattle.s38_command.specs.declared.turns.Turns.{Turns};
ghost use Rattle.s38_laws_images.specs.openings.Opening.{IsOpening};
ghost use Rattle.s38_pages.specs.Vaults.{page_view};
ghost use Rattle.s38_laws_images.specs.readable.Forms.{HoldsForm};
ghost use Rattle.s38_laws_images.specs.readable.Templates.{AreMade};
ghost use Rattle.s38_space_rules.specs.Following.{Fits};
ghost use Rattle.s38_rules.specs.state.Kept.{CanBeKept};
ghost use Rattle.s38_durable_machine.specs.Seen.{beginning_of};
ghost use Rattle.s38_template.specs.Places.{HasTemplate};
ghost use Rattle.s38_top.specs.Decks.{checked_of};
ghost use Rattle.s38_top.specs.Stored.{IsBegunOver, WentOver, end_over, vault_of};

use crate::templates::made_of_jobs;
use s38_code::{Checked, CreateResult, Deck};
use s38_disk::Disk;
use s38_durable_machine::{Ending, StoredMachine};
use s38_pages::WatchedVault;
use s38_run::{NumberPicker, RunEnd, serial};
use s38_store_file::OpenStore;
use s38_workers::{Gate, run_jobs};
use std::alloc::Global;
use std::sync::Wait;
use std::thread::Threads;

/// A machine over the store of a disk that has begun the jobs of a deck, and what creation made of each job's template, in
/// the order of the jobs.
pub struct StoredStart<D: Disk> {
    pub deck: Deck,
    pub made: Vec<CreateResult>,
    pub machine: StoredMachine<WatchedVault<D>>,
}

/// A machine over the store of a disk that ran the jobs of a deck, and how the run ended.
pub struct StoredRun<D: Disk> {
    pub deck: Deck,
    pub machine: StoredMachine<WatchedVault<D>>,
    pub end: RunEnd,
}

/// Begins the jobs of a deck whose templates were checked, over a store that was opened. Where memory is refused the disk
/// comes back.
pub fn start_over<D: Disk>(
    alloc: Global,
    store: OpenStore<D>,
    deck: Deck,
    templates: Checked,
) -> Result<StoredStart<D>, D>
    requires has { (k : ℕ) (job : Job) → slice_get deck.jobs k ≡ Some job → HasTemplate deck job }
    requires checked { templates ≡ checked_of deck }
    requires few { length deck.jobs ≤ 256 }
    requires kept { CanBeKept store.objects }
    requires opening { IsOpening store.objects }
    requires forms { All HoldsForm store.objects.objects }
    requires made { AreMade (checked_of deck) }
    requires fits { Fits store.room.room.extents store.objects }
    requires faultless { (page_view store.vault).faults ≡ store.vault.start }
    ensures deck { IfOk result (λ started. started.deck ≡ deck) }
    ensures begun { IfOk result (λ started. IsBegunOver started.deck started.made.items started.machine) }
    ensures vault { IfOk result (λ started. vault_of started.machine ≡ store.vault) }
    ensures objects { IfOk result (λ started. started.machine.machine.origin.held ≡ store.objects) }
    ensures room { IfOk result (λ started. started.machine.machine.origin.room ≡ Some store.room.room) }
    ensures disk { IfErr result (λ disk. D.view disk ≡ store.vault.disk) }
{
    let OpenStore {
        vault,
        objects,
        room,
    } = store;
    let Ok(made) = made_of_jobs(alloc, &deck, templates.as_slice()) else {
        return Err(vault.release());
    };
    let watched = WatchedVault::of(vault);
    match StoredMachine::start(
        alloc,
        watched,
        objects,
        templates,
        deck.jobs.as_slice(),
        room,
    ) {
        Err((watched, _)) => Err(watched.end().release()),
        Ok(machine) => Ok(StoredStart {
            deck,
            made,
            machine,
        }),
    }
}

/// Runs the jobs that a machine has begun on one thread; the picker begins at this number.
pub fn run_over<D: Disk + Drop>(alloc: Global, started: StoredStart<D>, pick: u32) -> StoredRun<D>
    requires { IsBegunOver started.deck started.made.items started.machine }
    ensures deck { result.deck ≡ started.deck }
    ensures beginning { beginning_of result.machine ≡ beginning_of started.machine }
    ensures went { WentOver (Turns.Serial pick) started.deck result.machine result.end }
{
    let StoredStart {
        deck,
        made,
        machine,
    } = started;
    let mut picker = NumberPicker::new(u64::from(pick));
    let (machine, end) = serial(
        alloc,
        machine,
        deck.jobs.as_slice(),
        made.as_slice(),
        &mut picker,
    );
    StoredRun { deck, machine, end }
}

/// How a run on threads ended, by whether its machine goes on.
fn end_over(ending: Ending, end: RunEnd) -> RunEnd
    ensures { result ≡ end_over ending end }
{
    match ending {
        Ending::Going => match end {
            RunEnd::Complete => RunEnd::Complete,
            // A machine that goes on was not stopped, so memory was refused.
            RunEnd::Stopped | RunEnd::NoMemory => RunEnd::NoMemory,
        },
        Ending::Stopped => RunEnd::Stopped,
        Ending::Wanting => RunEnd::NoMemory,
    }
}

/// Runs the jobs that a machine has begun on so many threads, which share it. Before each event the gate is called.
pub fn run_shared_over<R: Threads + Wait + Sync, D: Disk + Drop + Send, G: Gate + Sync>(
    rt: &R,
    alloc: Global,
    started: StoredStart<D>,
    count: u32,
    gate: &G,
) -> StoredRun<D>
    requires begun { IsBegunOver started.deck started.made.items started.machine }
    requires some { 1 ≤ count }
    ensures deck { result.deck ≡ started.deck }
    ensures beginning { beginning_of result.machine ≡ beginning_of started.machine }
    ensures went { WentOver (Turns.Workers count) started.deck result.machine result.end }
{
    let StoredStart {
        deck,
        made,
        machine,
    } = started;
    let (machine, end) = run_jobs(
        rt,
        alloc,
        machine,
        deck.jobs.as_slice(),
        made.as_slice(),
        count,
        gate,
    );
    let end = end_over(machine.ending(), end);
    StoredRun { deck, machine, end }
}
