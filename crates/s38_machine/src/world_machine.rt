//! The machine with its world: it answers the events of processes one by one, and contracts see how places, counts and
//! visits follow.
ghost use Rattle.std.specs.Prelude.{◌≡◌, ◌≤◌, ◌<◌, IfOk, OnErr, OnOk, Some, length};
ghost use Rattle.s38_code.specs.Asking.{reply_by};
ghost use Rattle.s38_rules.specs.declared.verdict.Verdict.{Verdict};
ghost use Rattle.s38_machine.specs.Answered.{IsAnsweredWorld, IsCheckedWorld, begun_run, entered, run_of};
ghost use Rattle.s38_machine.specs.Events.{GoesAsThatOf};
ghost use Rattle.s38_machine.specs.Log.{with_last};
ghost use Rattle.s38_machine.specs.Stored.{FitsStore, kept_anew, must_persist_at, must_persist_by};
ghost use Rattle.s38_rules.specs.step.Effect.{effect_of};
ghost use Rattle.s38_rules.specs.step.Legal.{after};
ghost use Rattle.s38_rules.specs.state.State.{waits};
ghost use Rattle.s38_rules.specs.step.Step.{awake_verdict, by_verdict, step};
ghost use Rattle.s38_verdicts.specs.Asked.{checks_of, depth_of};
ghost use Rattle.s38_rights_cache.specs.Places.{AreChecked, AreOwned, IsSteady, NobodyLives};

use crate::effects::{parted_values, take_up, wait};
use crate::log::Log;
use s38_base::{Exception, NoMemory, TryClone, try_clones};
use s38_code::{Asked, Event, Reply, Val, Vals};
use s38_invoke::{Core, Profiles};
use s38_objects::Objects;
use s38_rights_cache::World;
use s38_rules::Verdict;
use s38_space_map::Forcings;
use s38_verdicts::{Judged, ask_verdict};
use std::alloc::Global;
use std::marker::Model;
use std::snapshot::Snapshot;

/// The machine: its world, and the history of its answers. Contracts see with what it was started, its world, its history and
/// its marks, and the moments of its store at the start and now.
#[derive(Drop)]
pub struct WorldMachine {
    pub(crate) alloc: Global,
    pub(crate) world: World<Objects, Profiles>,
    pub(crate) log: Log,
    pub(crate) origin: Snapshot<Core<Objects, Profiles>>,
}

impl Model for WorldMachine {
    ghost use Rattle.std.specs.Prelude.{◌≡◌, length};
    ghost use Rattle.s38_machine.specs.Answered.{WorldRun};
    ghost use Rattle.s38_machine.specs.Stored.{FitsStore};
    ghost use Rattle.s38_rights_cache.specs.Places.{IsSteady};

    ghost Value = { WorldRun };

    ghost view = { λ m. record { origin = m.origin.value; world = m.world; history = m.log.history; marks = m.log.marks; first = m.log.first; moment = m.log.moment } };

    ghost invariant = { λ m. (m.log.processes ≡ length m.world.state.processes) × FitsStore m.world.state × IsSteady m.world };
}

/// The objects of a core and their owners have numbers that were given.
fn are_owned(core: &Core<Objects, Profiles>)
    ensures { AreOwned core.now.held }
{
    let _count = core.objects.len();
}

impl WorldMachine {
    /// A machine that begins from this core, at a moment of its store.
    #[tactic(auto, using(s38_rights_cache::proofs::AskLaws::begun_steady))]
    pub(crate) fn begin(
        alloc: Global,
        core: Core<Objects, Profiles>,
        moment: u64,
    ) -> Result<WorldMachine, NoMemory>
        requires fits { FitsStore core }
        requires nobody { NobodyLives core }
        ensures { IfOk result (λ machine. machine ≡ begun_run moment core) }
    {
        let log = Log::new(alloc, core.processes.len(), moment)?;
        let origin = Snapshot::of(&core);
        are_owned(&core);
        let world = World::new(alloc, core)?;
        Ok(WorldMachine {
            alloc,
            world,
            log,
            origin,
        })
    }

    /// The machine's world, in which places are right.
    pub fn world(&self) -> &World<Objects, Profiles>
        ensures world { result.now ≡ self.now.world }
        ensures steady { IsSteady result.now }
    {
        &self.world
    }

    /// Whether a process waits already.
    #[inline(always)]
    fn waits(&self, process: u32) -> bool
        ensures { result ≡ waits self.now.world.state process }
    {
        self.world.core.waits(process)
    }

    /// A permitted event of which this must persist takes effect and is entered, with the values of its reply, and the
    /// value that goes into the space of its receiver.
    #[inline(always)]
    fn enter_permitted(
        &mut self,
        process: u32,
        event: Event,
        values: Vals,
        value: Option<Val>,
        all: &Forcings,
    ) -> Result<(), NoMemory>
        requires first { 0 < process }
        requires last { process ≤ length self.old.world.state.processes }
        requires permit { awake_verdict self.old.world.state process event ≡ Verdict.Permit }
        requires values { values ≡ (effect_of self.old.world.state process event).values }
        requires value { GoesAsThatOf self.old.world.state process event value }
        requires anew { all.now ≡ must_persist_at self.old.world.state process event }
        ensures ok { OnOk result (self.new ≡ entered self.old process event Verdict.Permit (by_verdict self.old.world.state process event Verdict.Permit)) }
        ensures err { OnErr result (self.new ≡ self.old) }
    {
        self.log.reserve()?;
        take_up(self.alloc, &mut self.world, process, &event, value, all)?;
        self.log.push(process, event, Reply::Done(values));
        Ok(())
    }

    /// A permitted event of which this must persist takes effect and is entered.
    #[inline(always)]
    fn permit(&mut self, process: u32, event: Event, all: &Forcings) -> Result<(), NoMemory>
        requires first { 0 < process }
        requires last { process ≤ length self.old.world.state.processes }
        requires permit { awake_verdict self.old.world.state process event ≡ Verdict.Permit }
        requires anew { all.now ≡ must_persist_at self.old.world.state process event }
        ensures ok { OnOk result (self.new ≡ entered self.old process event Verdict.Permit (by_verdict self.old.world.state process event Verdict.Permit)) }
        ensures err { OnErr result (self.new ≡ self.old) }
    {
        let (values, value) = parted_values(self.alloc, &self.world.core, process, &event)?;
        self.enter_permitted(process, event, values, value, all)
    }

    /// The same, with a copy of the reply.
    fn permit_copied(
        &mut self,
        process: u32,
        event: Event,
        all: &Forcings,
    ) -> Result<Reply, NoMemory>
        requires first { 0 < process }
        requires last { process ≤ length self.old.world.state.processes }
        requires permit { awake_verdict self.old.world.state process event ≡ Verdict.Permit }
        requires anew { all.now ≡ must_persist_at self.old.world.state process event }
        ensures ok { IfOk result (λ r. (r ≡ (by_verdict self.old.world.state process event Verdict.Permit).reply)
            × (self.new ≡ entered self.old process event Verdict.Permit (by_verdict self.old.world.state process event Verdict.Permit))) }
        ensures err { OnErr result (self.new ≡ self.old) }
    {
        let (values, value) = parted_values(self.alloc, &self.world.core, process, &event)?;
        let copy = try_clones(self.alloc, values.as_slice())?;
        match self.enter_permitted(process, event, values, value, all) {
            Ok(()) => Ok(Reply::Done(copy)),
            Err(fault) => Err(fault),
        }
    }

    /// An event that is not permitted is entered with its reply.
    fn refuse(&mut self, process: u32, event: Event, exception: Exception) -> Result<(), NoMemory>
        requires first { 0 < process }
        requires last { process ≤ length self.old.world.state.processes }
        ensures ok { OnOk result (self.new ≡ entered self.old process event (Verdict.Refuse exception) (by_verdict self.old.world.state process event (Verdict.Refuse exception))) }
        ensures err { OnErr result (self.new ≡ self.old) }
    {
        self.log.reserve()?;
        self.log.push(process, event, Reply::Signal(exception));
        Ok(())
    }

    /// A process joins those that wait, and that is entered.
    fn wait(&mut self, process: u32, event: Event) -> Result<(), NoMemory>
        requires first { 0 < process }
        requires last { process ≤ length self.old.world.state.processes }
        ensures ok { OnOk result (self.new ≡ entered self.old process event Verdict.Wait (by_verdict self.old.world.state process event Verdict.Wait)) }
        ensures err { OnErr result (self.new ≡ self.old) }
    {
        self.log.reserve()?;
        wait(&mut self.world, process)?;
        self.log.push(process, event, Reply::MustWait);
        Ok(())
    }

    /// What becomes of an event of a process that doesn't wait, and what of it must persist. What is found of its
    /// rights goes into the process's place.
    fn judge(&mut self, process: u32, event: &Event) -> Judged
        ensures verdict { result.verdict ≡ awake_verdict self.old.world.state process event.now }
        ensures anew { result.anew ≡ must_persist_by self.old.world.state process event.now result.verdict }
        ensures checked { AreChecked self.old.world process (depth_of event.now) (checks_of self.old.world.state process event.now) self.new.world }
        ensures same { self.new ≡ record self.old { world = self.new.world } }
    {
        ask_verdict(&mut self.world, process, event)
    }

    /// An event that was given this verdict, and of which this must persist, is entered.
    fn answer(
        &mut self,
        process: u32,
        event: Event,
        verdict: Verdict,
        all: &Forcings,
    ) -> Result<(), NoMemory>
        requires first { 0 < process }
        requires last { process ≤ length self.old.world.state.processes }
        requires verdict { awake_verdict self.old.world.state process event ≡ verdict }
        requires anew { all.now ≡ must_persist_by self.old.world.state process event verdict }
        ensures ok { OnOk result (self.new ≡ entered self.old process event verdict (by_verdict self.old.world.state process event verdict)) }
        ensures err { OnErr result (self.new ≡ self.old) }
    {
        match verdict {
            Verdict::Permit => self.permit(process, event, all),
            Verdict::Wait => self.wait(process, event),
            Verdict::Refuse(exception) => self.refuse(process, event, exception),
        }
    }

    /// Answers one event of a job's process, which goes into the history with its reply: it takes effect, is refused by the
    /// first rule that fails, or waits. Rights that it needs are found by the place of its process before it takes effect; what
    /// is found last stays there. Says too what must persist after the answer: nothing where the event does not take
    /// effect. Where memory is refused, at most the place of the process and the visits are others.
    #[inline(always)]
    pub fn ask(&mut self, process: u32, event: Event) -> Result<(Asked, Forcings), NoMemory>
        requires first { 0 < process }
        requires last { process ≤ length self.old.world.state.processes }
        ensures ok { OnOk result (run_of self.new ≡ after (run_of self.old) self.old.moment process event) }
        ensures reply { IfOk result (λ answer. reply_by answer.0 self.new.history ≡ Some (step self.old.world.state process event).reply) }
        ensures anew { IfOk result (λ answer. answer.1 ≡ kept_anew self.old.world.state process event) }
        ensures world { OnOk result (IsAnsweredWorld self.old.world process event self.new.world) }
        ensures err { OnErr result (run_of self.new ≡ run_of self.old) }
        ensures checked { OnErr result (IsCheckedWorld self.old.world process event self.new.world) }
    {
        if self.waits(process) {
            return Ok((Asked::WaitsStill, Forcings::none()));
        }
        let judged = self.judge(process, &event);
        match self.answer(process, event, judged.verdict, &judged.anew) {
            Ok(()) => Ok((Asked::Entered, judged.anew)),
            Err(fault) => Err(fault),
        }
    }

    /// An event that was given this verdict, and of which this must persist, is entered, and a copy of its reply is
    /// given.
    fn answer_copied(
        &mut self,
        process: u32,
        event: Event,
        verdict: Verdict,
        all: &Forcings,
    ) -> Result<Reply, NoMemory>
        requires first { 0 < process }
        requires last { process ≤ length self.old.world.state.processes }
        requires verdict { awake_verdict self.old.world.state process event ≡ verdict }
        requires anew { all.now ≡ must_persist_by self.old.world.state process event verdict }
        ensures ok { IfOk result (λ r. (r ≡ (by_verdict self.old.world.state process event verdict).reply) × (self.new ≡ entered self.old process event verdict (by_verdict self.old.world.state process event verdict))) }
        ensures err { OnErr result (self.new ≡ self.old) }
    {
        match verdict {
            Verdict::Permit => self.permit_copied(process, event, all),
            Verdict::Wait => match self.wait(process, event) {
                Ok(()) => Ok(Reply::MustWait),
                Err(fault) => Err(fault),
            },
            Verdict::Refuse(exception) => match self.refuse(process, event, exception) {
                Ok(()) => Ok(Reply::Signal(exception)),
                Err(fault) => Err(fault),
            },
        }
    }

    /// Answers one event of a job's process, as `ask` does, and gives a copy of its reply.
    #[inline(always)]
    pub fn step(&mut self, process: u32, event: &Event) -> Result<Reply, NoMemory>
        requires first { 0 < process }
        requires last { process ≤ length self.old.world.state.processes }
        ensures ok { IfOk result (λ r. (r ≡ (step self.old.world.state process event.now).reply) × (run_of self.new ≡ after (run_of self.old) self.old.moment process event.now)) }
        ensures world { OnOk result (IsAnsweredWorld self.old.world process event.now self.new.world) }
        ensures err { OnErr result (run_of self.new ≡ run_of self.old) }
        ensures checked { OnErr result (IsCheckedWorld self.old.world process event.now self.new.world) }
    {
        if self.waits(process) {
            return Ok(Reply::MustWait);
        }
        let judged = self.judge(process, event);
        let own = event.try_clone(self.alloc)?;
        match self.answer_copied(process, own, judged.verdict, &judged.anew) {
            Ok(reply) => Ok(reply),
            Err(fault) => Err(fault),
        }
    }

    /// The store has come to this moment, and the last entry, if there is one, was answered then.
    pub(crate) fn stamp(&mut self, moment: u64)
        ensures { self.new ≡ record self.old { marks = with_last moment self.old.marks; moment = moment } }
    {
        self.log.stamp(moment);
    }
}
