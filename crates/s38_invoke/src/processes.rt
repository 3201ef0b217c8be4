//! The processes of a world: how far each has come, and which are ready.
ghost use Rattle.std.specs.Prelude.{◌≡◌, ◌≤◌, ◌<◌, ◌+◌, ◌-◌, ◌^◌, ◌++◌, ◌∷◌, [], ℕ, OnOk, Some, if◌then◌else◌, length, nat_lt, slice_get};
ghost use Rattle.std.specs.Option.{option_copied};
ghost use Rattle.s38_rules.specs.state.Invocations.{most_frames, stack_in, stack_of};
ghost use Rattle.s38_rules.specs.state.State.{is_early, is_last_ready, no_other_ready, process_entry, ready, ready_in, ready_list, started, started_in, waits};
ghost use Rattle.s38_rules.specs.ask.Users.{contexts_in, contexts_of, user_in, user_of};

use crate::core_state::Core;
use s38_base::{NoMemory, ObjNum, UserNum};
use s38_rules::{ProcessEntry, Started, Table, UserMaps};

/// How far the process of a number has come.
pub fn entry_in(entries: &[ProcessEntry], process: u32) -> Option<&ProcessEntry>
    ensures { option_copied result ≡ slice_get entries.now (process - 1) }
{
    entries.get((process as usize).saturating_sub(1))
}

/// The start of a process, none where it has not started.
pub fn started_in(entry: Option<&ProcessEntry>) -> Option<&Started>
    ensures { option_copied result ≡ started_in (option_copied entry.entry) }
{
    match entry {
        None => None,
        Some(entry) => entry.started.as_ref(),
    }
}

/// The user of a started process, 0 for none.
pub fn user_in(started: Option<&Started>) -> UserNum
    ensures { result.0 ≡ user_in (option_copied started.entry) }
{
    match started {
        None => ObjNum(0),
        Some(started) => started.user,
    }
}

fn contexts_in(started: Option<&Started>) -> &[ObjNum]
    ensures { result.now ≡ contexts_in (option_copied started.entry) }
{
    match started {
        None => &[],
        Some(started) => started.contexts.as_slice(),
    }
}

/// The programs of a started process's invocations, the newest last; none for another.
pub fn stack_in(started: Option<&Started>) -> &[ObjNum]
    ensures value { result.now ≡ stack_in (option_copied started.entry) }
    ensures few { length result.now ≤ most_frames }
{
    match started {
        None => &[],
        Some(started) => started.stack.as_slice(),
    }
}

fn is_early_in(entries: &[ProcessEntry], stage: u16) -> bool
    ensures { result ≡ is_early entries.now stage }
{
    entries.iter().any(|x| !x.ended && x.job.stage < stage)
}

/// The least stage of a process that has not ended.
fn current_stage(entries: &[ProcessEntry]) -> u16
    ensures { (stage : ℕ) → stage < 2 ^ 16 → is_early entries.now stage ≡ nat_lt result stage }
{
    let mut least = u16::MAX;
    for x in entries {
        if !x.ended && x.job.stage < least {
            least = x.job.stage;
        }
    }
    least
}

fn push_if(is_ready: bool, into: &mut Vec<u32>, process: u32) -> Result<(), NoMemory>
    ensures { OnOk result (into.new.items ≡ into.old.items ++ (if is_ready then process ∷ [] else [])) }
{
    if is_ready {
        into.push(process)?;
    }
    Ok(())
}

impl<T: Table, P: UserMaps> Core<T, P> {
    /// How far the process of a number has come.
    pub fn process_entry(&self, process: u32) -> Option<&ProcessEntry>
        ensures { option_copied result ≡ process_entry self.now process }
    {
        entry_in(self.processes.as_slice(), process)
    }

    /// The user of a started process, 0 for none.
    pub fn user_of(&self, process: u32) -> UserNum
        ensures { result.0 ≡ user_of self.now process }
    {
        user_in(started_in(self.process_entry(process)))
    }

    /// The contexts of a started process's list, in order.
    pub fn contexts_of(&self, process: u32) -> &[ObjNum]
        ensures { result.now ≡ contexts_of self.now process }
    {
        contexts_in(started_in(self.process_entry(process)))
    }

    /// The programs of a started process's invocations, the newest last; none for another.
    pub fn stack_of(&self, process: u32) -> &[ObjNum]
        ensures value { result.now ≡ stack_of self.now process }
        ensures few { length result.now ≤ most_frames }
    {
        stack_in(started_in(self.process_entry(process)))
    }

    /// Whether a process waits.
    pub fn waits(&self, process: u32) -> bool
        ensures { result ≡ waits self.now process }
    {
        self.waiting.iter().any(|w| *w == process)
    }

    fn waits_at(&self, number: u64) -> bool
        ensures { result ≡ waits self.now number }
    {
        self.waiting.iter().any(|w| u64::from(*w) == number)
    }

    /// Whether some process of an earlier stage has not ended.
    pub fn is_early(&self, stage: u16) -> bool
        ensures { result ≡ is_early self.now.processes stage }
    {
        is_early_in(self.processes.as_slice(), stage)
    }

    /// Whether a process has not ended, is of the current stage, and does not wait.
    pub fn ready(&self, process: u32) -> bool
        ensures { result ≡ ready self.now process }
    {
        match self.process_entry(process) {
            None => false,
            Some(x) => !x.ended && !self.is_early(x.job.stage) && !self.waits(process),
        }
    }

    fn is_ready(&self, number: u64, entry: &ProcessEntry) -> bool
        ensures { result ≡ ready_in self.now number (Some entry.now) }
    {
        !entry.ended && !self.waits_at(number) && !self.is_early(entry.job.stage)
    }

    /// Whether no other process is ready: each other of the current stage waits or has ended.
    pub fn is_last_ready(&self, process: u32) -> bool
        ensures { result ≡ is_last_ready self.now process }
    {
        no_other_ready(self, process, 1, self.processes.as_slice())
    }

    /// Whether a process is ready, by the current stage.
    fn is_ready_in(&self, stage: u16, process: u32) -> bool
        requires { (k : ℕ) → k < 2 ^ 16 → is_early self.now.processes k ≡ nat_lt stage k }
        ensures { result ≡ ready self.now process }
    {
        match self.process_entry(process) {
            None => false,
            Some(x) => !x.ended && x.job.stage <= stage && !self.waits(process),
        }
    }

    /// Lists the processes that are ready, in order of their numbers.
    pub fn ready_list(&self, into: &mut Vec<u32>) -> Result<(), NoMemory>
        requires { length self.now.processes < 2 ^ 32 - 1 }
        ensures { OnOk result (into.new.items ≡ ready_list self.now) }
    {
        let stage = current_stage(self.processes.as_slice());
        into.clear();
        for at in 0..self.processes.len() {
            let process = at as u32 + 1;
            push_if(self.is_ready_in(stage, process), into, process)?;
        }
        Ok(())
    }
}

/// Whether of the processes from a number on no other is ready.
fn no_other_ready<T: Table, P: UserMaps>(
    world: &Core<T, P>,
    process: u32,
    number: u64,
    entries: &[ProcessEntry],
) -> bool
    requires { number + length entries.now < 2 ^ 64 }
    ensures { result ≡ no_other_ready world.now process number entries.now }
{
    match entries {
        [] => true,
        [entry, more @ ..] => {
            if number != u64::from(process) && world.is_ready(number, entry) {
                return false;
            }
            no_other_ready(world, process, number + 1, more)
        }
    }
}
