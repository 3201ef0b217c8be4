ghost use Rattle.std.specs.Prelude.{◌≡◌, ◌-◌, ◌<◌, ◌≤◌, ◌==◌, ◌^◌, not, All, IfErr, IfOk, IsErrOf, OnErr, OnOk, Some, length};
ghost use Rattle.s38_code.specs.Asking.{reply_by};
ghost use Rattle.s38_code.specs.declared.step.StepFault.{StepFault};
ghost use Rattle.s38_image_writer.specs.Parts.{CanSettle};
ghost use Rattle.s38_machine.specs.Stored.{FitsStore, stored_state_of};
ghost use Rattle.s38_laws_images.specs.readable.Readable.{IsFit};
ghost use Rattle.s38_rules.specs.state.Kept.{CanBeKept};
ghost use Rattle.s38_rules.specs.step.Legal.{IsProcess, after, begun};
ghost use Rattle.s38_rules.specs.state.State.{ready_list};
ghost use Rattle.s38_rules.specs.step.Step.{step};
ghost use Rattle.s38_flush.specs.Numbers.{numbered};
ghost use Rattle.s38_flush.specs.Stepping.{AreNumbers};
ghost use Rattle.s38_durable_machine.specs.Commits.{CommitsFew};
ghost use Rattle.s38_durable_machine.specs.Keeping.{IsFlushed};
ghost use Rattle.s38_durable_machine.specs.Seen.{beginning_of, run_of, stopped_of};
ghost use Rattle.s38_durable_machine.specs.Sound.{CanBeStored, IsSoundOver};
ghost use Rattle.s38_durable_machine.specs.declared.ending.Ending.{Ending};

use crate::ending::Ending;
use crate::keeping::flush_step;
use crate::laws::durable_laws;
use s38_base::NoMemory;
use s38_code::{Asked, Checked, Entry, Event, Job, StepFault};
use s38_laws_flush::a_commit_puts_few_parts;
use s38_machine::{Machine, State};
use s38_objects::Objects;
use s38_space_map::{Forcings, Room};
use s38_vault::Vault;
use std::alloc::Global;
use std::marker::Model;
use std::snapshot::Snapshot;

/// A machine over a vault, which keeps what each step forces before it answers. Contracts see its machine, its vault as it is
/// and as it was when the run began, and whether it goes on.
#[derive(Drop)]
pub struct StoredMachine<V: Vault> {
    pub(crate) alloc: Global,
    pub(crate) machine: Machine,
    vault: V,
    pub(crate) ending: Ending,
    first: Snapshot<V>,
}

impl<V: Vault> Model for StoredMachine<V> {
    ghost use Rattle.s38_durable_machine.specs.Seen.{StoredView};

    ghost Value = { StoredView V };

    ghost view = { λ m. record { machine = m.machine; vault = m.vault; first = m.first.value; ending = m.ending } };
}

/// What a run over a vault leaves: the vault, what was answered, and the machine's state.
pub struct StoredEnd<V> {
    pub vault: V,
    pub history: Vec<Entry>,
    pub marks: Vec<u64>,
    pub state: State,
}

impl<V: Vault> StoredMachine<V> {
    /// A machine that begins over a vault with these objects, the templates of a deck, each checked, and its jobs; the room
    /// is that of the vault. Where memory is refused the vault comes back.
    pub fn start(
        alloc: Global,
        vault: V,
        objects: Objects,
        templates: Checked,
        jobs: &[Job],
        room: Room,
    ) -> Result<StoredMachine<V>, (V, NoMemory)>
        requires kept { CanBeKept objects }
        requires fits { FitsStore (stored_state_of (Some room.room) objects templates jobs.now) }
        requires state { CanBeStored (stored_state_of (Some room.room) objects templates jobs.now) }
        ensures machine { IfOk result (λ m. m.machine ≡ begun (V.view vault).moment (stored_state_of (Some room.room) objects templates jobs.now)) }
        ensures vault { IfOk result (λ m. (m.vault ≡ vault) × (m.first ≡ vault)) }
        ensures going { IfOk result (λ m. m.ending ≡ Ending.Going) }
        ensures sound { IfOk result (λ m. IsSoundOver V.view V.holds V.leaves m) }
        ensures back { IfErr result (λ refused. refused.0 ≡ vault) }
    {
        durable_laws();
        let moment = vault.moment();
        match Machine::start_stored(alloc, objects, templates, jobs, room, moment) {
            Err(fault) => Err((vault, fault)),
            Ok(machine) => {
                let first = Snapshot::of(&vault);
                Ok(StoredMachine {
                    alloc,
                    machine,
                    vault,
                    ending: Ending::Going,
                    first,
                })
            }
        }
    }

    /// The vault keeps what a step must persist, and the step is answered.
    fn settle(&mut self, asked: Asked, all: &Forcings) -> Result<Asked, StepFault>
        requires fit { All IsFit self.old.machine.state.held.objects }
        requires settles { All (λ o. CanSettle self.old.machine.state.units o.number.0 o.body) self.old.machine.state.held.objects }
        requires numbers { AreNumbers (numbered all.now) }
        ensures { IsFlushed V.view V.holds V.leaves self.old self.new all.now asked result }
    {
        if all.as_slice().is_empty() {
            return Ok(asked);
        }
        self.ending = flush_step(
            self.alloc,
            &mut self.vault,
            self.machine.objects(),
            self.machine.units(),
            all,
        );
        match self.ending {
            Ending::Going => {
                self.machine.stamp(self.vault.moment());
                Ok(asked)
            }
            Ending::Stopped => Err(StepFault::Stopped),
            Ending::Wanting => Err(StepFault::NoMemory),
        }
    }

    /// Answers one event of a job's process by one step of the machine. What the step forces is kept in the vault before the
    /// answer. Where the vault fails, or memory is refused, the step has no answer, and the history is as it was. A COMMIT of
    /// a unit that takes effect puts few parts.
    pub fn ask(&mut self, process: u32, event: Event) -> Result<Asked, StepFault>
        requires sound { IsSoundOver V.view V.holds V.leaves self.old }
        requires going { self.old.ending ≡ Ending.Going }
        requires may { IsProcess self.old.machine.origin process }
        ensures sound { IsSoundOver V.view V.holds V.leaves self.new }
        ensures origin { beginning_of self.new ≡ beginning_of self.old }
        ensures moved { OnOk result (run_of self.new ≡ after (run_of self.old) (run_of self.new).moment process event) }
        ensures later { OnOk result ((run_of self.old).moment ≤ (run_of self.new).moment) }
        ensures reply { IfOk result (λ asked. reply_by asked (run_of self.new).history ≡ Some (step (run_of self.old).state process event).reply) }
        ensures going { OnOk result (self.new.ending ≡ Ending.Going) }
        ensures history { OnErr result ((run_of self.new).history ≡ (run_of self.old).history) }
        ensures marks { OnErr result ((run_of self.new).marks ≡ (run_of self.old).marks) }
        ensures stopped { IsErrOf result StepFault.Stopped → stopped_of self.new ≡ Some (process, event) }
        ensures refused { IsErrOf result StepFault.NoMemory → stopped_of self.new ≡ stopped_of self.old }
        ensures commits { OnOk result (CommitsFew V.holds self.old self.new process event) }
    {
        durable_laws();
        a_commit_puts_few_parts();
        match self.machine.ask_anew(process, event) {
            Err(_) => Err(StepFault::NoMemory),
            Ok((asked, all)) => self.settle(asked, &all),
        }
    }

    /// Lists the processes that are ready, in order of their numbers.
    pub fn ready_list(&self, into: &mut Vec<u32>) -> Result<(), NoMemory>
        requires going { self.now.ending ≡ Ending.Going }
        requires few { length (run_of self.now).state.processes < 2 ^ 32 - 1 }
        ensures { OnOk result (into.new.items ≡ ready_list (run_of self.now).state) }
    {
        self.machine.ready_list(into)
    }

    /// Whether some process waits.
    pub fn somebody_waits(&self) -> bool
        requires going { self.now.ending ≡ Ending.Going }
        ensures { result ≡ not (length (run_of self.now).state.waiting == 0) }
    {
        self.machine.somebody_waits()
    }

    /// Ends the run: what it leaves. Where the machine goes no more, its state says nothing.
    pub fn end(self) -> StoredEnd<V>
        ensures vault { result.vault ≡ self.vault }
        ensures history { result.history.items ≡ (run_of self).history }
        ensures marks { result.marks.items ≡ (run_of self).marks }
        ensures state { result.state ≡ self.machine.state }
    {
        let StoredMachine {
            alloc: _,
            machine,
            vault,
            ending,
            first: _first,
        } = self;
        let (mut history, mut marks, state) = machine.end();
        match ending {
            Ending::Going => {}
            Ending::Stopped | Ending::Wanting => {
                history.pop();
                marks.pop();
            }
        }
        StoredEnd {
            vault,
            history,
            marks,
            state,
        }
    }
}
