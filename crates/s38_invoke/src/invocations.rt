//! Other frames of a process: a program is called, or takes the place of the last.
ghost use Rattle.std.specs.Prelude.{◌≡◌, ◌<◌, OnErr, OnOk, Some, length, slice_get, slice_set};
ghost use Rattle.s38_base.specs.declared.id.ObjNum.{ObjNum};
ghost use Rattle.s38_rules.specs.declared.process.ProcessEntry.{ProcessEntry};
ghost use Rattle.s38_rules.specs.state.Invocations.{frames_used, most_frames, pushed, replaced, restack, stack_in, stack_of, with_stack};

use crate::core_state::Core;
use s38_base::{NoMemory, ObjNum};
use s38_rules::{ProcessEntry, Table, UserMaps};

fn push_entry(entry: &mut ProcessEntry, depth: u16, program: ObjNum) -> Result<(), NoMemory>
    requires { frames_used depth (stack_in entry.old.started) < most_frames }
    ensures ok { OnOk result (entry.new ≡ with_stack (pushed depth program) entry.old) }
    ensures err { OnErr result (entry.new ≡ entry.old) }
{
    match &mut entry.started {
        None => Ok(()),
        Some(started) => started.stack.push(depth, program),
    }
}

fn replace_entry(entry: &mut ProcessEntry, depth: u16, program: ObjNum)
    ensures { entry.new ≡ with_stack (replaced depth program) entry.old }
{
    match &mut entry.started {
        None => {}
        Some(started) => started.stack.replace(depth, program),
    }
}

fn push_at(
    entries: &mut [ProcessEntry],
    at: usize,
    depth: u16,
    program: ObjNum,
) -> Result<(), NoMemory>
    requires within { at < length entries.old }
    requires room { (x : ProcessEntry) → slice_get entries.old at ≡ Some x → frames_used depth (stack_in x.started) < most_frames }
    ensures ok { (x : ProcessEntry) → slice_get entries.old at ≡ Some x → OnOk result (entries.new ≡ slice_set entries.old at (with_stack (pushed depth program) x)) }
    ensures err { OnErr result (entries.new ≡ entries.old) }
{
    push_entry(&mut entries[at], depth, program)
}

fn replace_at(entries: &mut [ProcessEntry], at: usize, depth: u16, program: ObjNum)
    requires { at < length entries.old }
    ensures { (x : ProcessEntry) → slice_get entries.old at ≡ Some x → entries.new ≡ slice_set entries.old at (with_stack (replaced depth program) x) }
{
    replace_entry(&mut entries[at], depth, program);
}

impl<T: Table, P: UserMaps> Core<T, P> {
    /// A program is called by a process that has come to a depth: the frames that count stay, and the program is
    /// added. Where memory is refused nothing changes.
    pub fn push(&mut self, process: u32, depth: u16, program: ObjNum) -> Result<(), NoMemory>
        requires { frames_used depth (stack_of self.old process) < most_frames }
        ensures ok { OnOk result (self.new ≡ restack (pushed depth program) self.old process) }
        ensures err { OnErr result (self.new ≡ self.old) }
    {
        match self.process_entry(process) {
            None => Ok(()),
            Some(_) => {
                let at = (process as usize).saturating_sub(1);
                match push_at(&mut self.processes, at, depth, program) {
                    Ok(()) => Ok(()),
                    Err(fault) => Err(fault),
                }
            }
        }
    }

    /// The last frame of a process that counts at a depth becomes the program.
    pub fn replace(&mut self, process: u32, depth: u16, program: ObjNum)
        ensures { self.new ≡ restack (replaced depth program) self.old process }
    {
        match self.process_entry(process) {
            None => {}
            Some(_) => {
                let at = (process as usize).saturating_sub(1);
                replace_at(&mut self.processes, at, depth, program);
            }
        }
    }
}
