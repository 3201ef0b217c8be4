ghost use Rattle.std.specs.Prelude.{◌≡◌, ◌-◌, ◌<◌, ◌≤◌, ◌==◌, ◌^◌, not, IfOk, IsErrOf, OnErr, OnOk, Some, length};
ghost use Rattle.std.specs.Option.{option_copied};
ghost use Rattle.s38_code.specs.Asking.{last_reply, reply_by};
ghost use Rattle.s38_code.specs.declared.step.StepFault.{StepFault};
ghost use Rattle.s38_machine.specs.Answered.{run_of};
ghost use Rattle.s38_machine.specs.Stored.{FitsStore, kept_anew, stamped, stored_state_of};
ghost use Rattle.s38_rules.specs.state.Kept.{CanBeKept};
ghost use Rattle.s38_rules.specs.step.Legal.{IsProcess, IsSound, after, begun, no_moment};
ghost use Rattle.s38_rules.specs.state.Opening.{state_of};
ghost use Rattle.s38_rules.specs.state.State.{ready, ready_list};
ghost use Rattle.s38_rules.specs.step.Step.{step, verdict_of};
ghost use Rattle.s38_rights_cache.specs.Places.{IsSteady};

use crate::opening::opened;
use crate::world_machine::WorldMachine;
use s38_base::NoMemory;
use s38_code::{Asked, Checked, Entry, Event, Job, Reply, StepFault, Stepper};
use s38_commits::Units;
use s38_invoke::{Core, Profiles};
use s38_objects::Objects;
use s38_rights_cache::World;
use s38_rules::Verdict;
use s38_space_map::{Forcings, Room};
use s38_verdicts::verdict_of;
use std::alloc::Global;
use std::marker::Model;

/// The objects and the processes of a machine.
pub type State = Core<Objects, Profiles>;

/// The moment of a machine without a store.
const NO_MOMENT: u64 = 0;

/// The machine: its objects and processes, and the history of its answers. Contracts see what it was started
/// with, its state, its history and its marks, and the moments of its store at the start and now. Where it has the room of a
/// store, an event is permitted only if the store has room for what it keeps, and the room follows; that the store keeps it
/// is up to whoever has the store. What is kept beside the state of rights that were found, the contracts of `WorldMachine` say.
#[derive(Drop)]
pub struct Machine {
    seen: WorldMachine,
}

impl Model for Machine {
    ghost use Rattle.s38_machine.specs.Answered.{run_of};
    ghost use Rattle.s38_rules.specs.step.Legal.{Run};

    ghost Value = { Run };

    ghost view = { λ m. run_of m.seen };
}

impl Machine {
    /// A machine without a store, with the objects that it begins with, the templates of a deck, each checked, and its jobs.
    #[tactic(auto, using(crate::proofs::BegunLaws::nobody_of))]
    pub fn start(
        alloc: Global,
        objects: Objects,
        templates: Checked,
        jobs: &[Job],
    ) -> Result<Machine, NoMemory>
        requires kept { CanBeKept objects }
        ensures { IfOk result (λ machine. machine ≡ begun no_moment (state_of objects templates jobs.now)) }
    {
        let core = opened(alloc, objects, templates, jobs)?;
        let seen = WorldMachine::begin(alloc, core, NO_MOMENT)?;
        Ok(Machine { seen })
    }

    /// The same over a store that has this room and is at this moment.
    #[tactic(auto, using(crate::proofs::BegunLaws::nobody_of))]
    pub fn start_stored(
        alloc: Global,
        objects: Objects,
        templates: Checked,
        jobs: &[Job],
        room: Room,
        moment: u64,
    ) -> Result<Machine, NoMemory>
        requires kept { CanBeKept objects }
        requires fits { FitsStore (stored_state_of (Some room.room) objects templates jobs.now) }
        ensures { IfOk result (λ machine. machine ≡ begun moment (stored_state_of (Some room.room) objects templates jobs.now)) }
    {
        let mut core = opened(alloc, objects, templates, jobs)?;
        core.room = Some(room);
        let seen = WorldMachine::begin(alloc, core, moment)?;
        Ok(Machine { seen })
    }

    /// The objects as they are.
    pub fn objects(&self) -> &Objects
        ensures { result.now ≡ self.now.state.held }
    {
        &self.seen.world.core.objects
    }

    /// The same machine, of which contracts see the world.
    pub fn with_world(self) -> WorldMachine
        ensures run { run_of result ≡ self }
        ensures steady { IsSteady result.world }
    {
        let Machine { seen } = self;
        let _world = seen.world();
        seen
    }

    /// The state, and what is kept beside it of rights that were found, which are those that the rules find now.
    pub fn world(&self) -> &World<Objects, Profiles>
        ensures state { result.now.state ≡ self.now.state }
        ensures steady { IsSteady result.now }
    {
        self.seen.world()
    }

    /// The units of changes that are not committed.
    pub fn units(&self) -> &Units
        ensures { result.now ≡ self.now.state.units }
    {
        &self.seen.world.core.units
    }

    /// The entries of the history.
    pub fn history(&self) -> &[Entry]
        ensures { result.now ≡ self.now.history }
    {
        self.seen.log.history()
    }

    /// The moment of the store at which each entry was answered.
    pub fn marks(&self) -> &[u64]
        ensures { result.now ≡ self.now.marks }
    {
        self.seen.log.marks()
    }

    /// Gives back the history, the marks and the state.
    pub fn end(self) -> (Vec<Entry>, Vec<u64>, State)
        ensures history { result.0.items ≡ self.history }
        ensures marks { result.1.items ≡ self.marks }
        ensures state { result.2 ≡ self.state }
    {
        let Machine { seen } = self;
        let WorldMachine {
            alloc: _,
            world,
            log,
            origin: _,
        } = seen;
        let (history, marks) = log.into_parts();
        (history, marks, world.core)
    }

    /// Whether a process has not ended, is of the current stage, and does not wait.
    pub fn ready(&self, process: u32) -> bool
        ensures { result ≡ ready self.now.state process }
    {
        self.seen.world.core.ready(process)
    }

    /// Lists the processes that are ready, in order of their numbers.
    pub fn ready_list(&self, into: &mut Vec<u32>) -> Result<(), NoMemory>
        requires { length self.now.state.processes < 2 ^ 32 - 1 }
        ensures { OnOk result (into.new.items ≡ ready_list self.now.state) }
    {
        self.seen.world.core.ready_list(into)
    }

    /// Whether some process waits.
    pub fn somebody_waits(&self) -> bool
        ensures { result ≡ not (length self.now.state.waiting == 0) }
    {
        !self.seen.world.core.waiting.is_empty()
    }

    /// Whether an event may take effect, waits, or is refused by the first rule that fails.
    pub fn verdict(&self, process: u32, event: &Event) -> Verdict
        ensures { result ≡ verdict_of self.now.state process event.now }
    {
        verdict_of(&self.seen.world.core, process, event)
    }

    /// The reply of the last entry of the history.
    pub fn last_reply(&self) -> Option<&Reply>
        ensures { option_copied result ≡ last_reply self.now.history }
    {
        self.seen.log.last_reply()
    }

    /// Answers one event of a job's process as `ask` does, and says what must persist after the answer: nothing
    /// where the event does not take effect.
    pub fn ask_anew(&mut self, process: u32, event: Event) -> Result<(Asked, Forcings), NoMemory>
        requires first { 0 < process }
        requires last { process ≤ length self.old.state.processes }
        ensures ok { OnOk result (self.new ≡ after self.old self.old.moment process event) }
        ensures reply { IfOk result (λ answer. reply_by answer.0 self.new.history ≡ Some (step self.old.state process event).reply) }
        ensures anew { IfOk result (λ answer. answer.1 ≡ kept_anew self.old.state process event) }
        ensures err { OnErr result (self.new ≡ self.old) }
    {
        self.seen.ask(process, event)
    }

    /// The store has come to this moment, and the last entry, if there is one, was answered then.
    pub fn stamp(&mut self, moment: u64)
        ensures { self.new ≡ stamped moment self.old }
    {
        self.seen.stamp(moment);
    }

    /// Answers one event of a job's process, which goes into the history with its reply: it takes effect, is refused
    /// by the first rule that fails, or waits. Only what a process asks that waits already is not entered. Memory is
    /// taken before anything changes; where it is refused, machine and history are as they were. This machine never
    /// stops.
    pub fn ask(&mut self, process: u32, event: Event) -> Result<Asked, StepFault>
        requires sound { IsSound self.old }
        requires may { IsProcess self.old.origin process }
        ensures ok { OnOk result (self.new ≡ after self.old self.old.moment process event) }
        ensures reply { IfOk result (λ asked. reply_by asked self.new.history ≡ Some (step self.old.state process event).reply) }
        ensures err { OnErr result (self.new ≡ self.old) }
        ensures sound { IsSound self.new }
        ensures going { IsErrOf result StepFault.Stopped → ⊥ }
    {
        match self.ask_anew(process, event) {
            Ok((asked, _)) => Ok(asked),
            Err(_) => Err(StepFault::NoMemory),
        }
    }

    /// Answers one event of a process as `step` does.
    #[inline(always)]
    fn step_or(&mut self, process: u32, event: &Event) -> Result<Reply, NoMemory>
        requires first { 0 < process }
        requires last { process ≤ length self.old.state.processes }
        ensures ok { IfOk result (λ r. (r ≡ (step self.old.state process event.now).reply) × (self.new ≡ after self.old self.old.moment process event.now)) }
        ensures err { OnErr result (self.new ≡ self.old) }
    {
        self.seen.step(process, event)
    }

    /// Answers one event of a job's process, as `ask` does, and gives a copy of its reply.
    pub fn step(&mut self, process: u32, event: &Event) -> Result<Reply, StepFault>
        requires sound { IsSound self.old }
        requires may { IsProcess self.old.origin process }
        ensures ok { IfOk result (λ r. (r ≡ (step self.old.state process event.now).reply) × (self.new ≡ after self.old self.old.moment process event.now)) }
        ensures err { OnErr result (self.new ≡ self.old) }
        ensures sound { IsSound self.new }
        ensures going { IsErrOf result StepFault.Stopped → ⊥ }
    {
        match self.step_or(process, event) {
            Ok(reply) => Ok(reply),
            Err(_) => Err(StepFault::NoMemory),
        }
    }
}

impl Stepper for Machine {
    ghost use Rattle.std.specs.Prelude.{None, Option, ℕ};
    ghost use Rattle.s38_code.specs.declared.event.Event.{Event};
    ghost use Rattle.s38_rules.specs.state.State.{State};
    ghost use Rattle.s38_rules.specs.step.Legal.{IsProcess, IsSound};
    ghost use Rattle.s38_machine.specs.Still.{IsStillStep};

    ghost Origin = { State };

    ghost origin = { λ m. m.origin };

    ghost history = { λ m. m.history };

    ghost stopped = { λ _. None };

    ghost is_sound = { IsSound };

    ghost steps = { IsStillStep };

    ghost may_ask = { λ origin process event entries. IsProcess origin process };

    fn step(&mut self, process: u32, event: &Event) -> Result<Reply, StepFault> {
        Machine::step(self, process, event)
    }

    fn ask(&mut self, process: u32, event: Event) -> Result<Asked, StepFault> {
        Machine::ask(self, process, event)
    }

    fn last_reply(&self) -> Option<&Reply> {
        Machine::last_reply(self)
    }
}
