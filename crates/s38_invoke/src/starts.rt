//! The start of a process, which finds its user and its contexts, and its end.
ghost use Rattle.std.specs.Prelude.{◌≡◌, ◌+◌, ◌<◌, ◌^◌, true, IfOk, OnErr, OnOk, Some, length, slice_get, slice_set};
ghost use Rattle.std.specs.Option.{option_map};
ghost use Rattle.s38_base.specs.Limits.{last_operand, machine_context};
ghost use Rattle.s38_rules.specs.declared.process.ProcessEntry.{ProcessEntry};
ghost use Rattle.s38_rules.specs.step.Effect.{ended_at, in_machine, numbers_of, start_at, started_as};
ghost use Rattle.s38_rules.specs.state.Held.{number_found};
ghost use Rattle.s38_rules.specs.state.State.{process_entry};
ghost use Rattle.s38_rules.specs.step.Verdict.{absent, absent_context, context_id, profile_id, start_failure};

use crate::core_state::Core;
use s38_base::exceptions::OBJECT_NOT_FOUND;
use s38_base::limits::MACHINE_CONTEXT;
use s38_base::{Exception, Id, Kind, Name, NoMemory, ObjNum, Seq};
use s38_code::Job;
use s38_rules::{ProcessEntry, Stack, Started, Table, UserMaps};
use std::alloc::Global;

// ---- what a start finds

/// The identification of a user's profile.
fn profile_id(name: &Name) -> Id
    ensures { result ≡ profile_id name.now }
{
    Id {
        kind: Kind::Profile,
        sub: 0,
        name: *name,
    }
}

/// The identification of a context of a job's list.
fn context_id(name: &Name) -> Id
    ensures { result ≡ context_id name.now }
{
    Id {
        kind: Kind::Context,
        sub: 0,
        name: *name,
    }
}

fn in_machine<T: Table>(objects: &T, id: &Id) -> Option<ObjNum>
    ensures { result ≡ number_found (T.held objects.now) machine_context id.now }
{
    objects.number_of(MACHINE_CONTEXT, id)
}

fn absent(number: Option<ObjNum>, operand: u8) -> Option<Exception>
    ensures { result ≡ absent number operand }
{
    match number {
        None => Some(Exception::plain(OBJECT_NOT_FOUND, operand)),
        Some(_) => None,
    }
}

fn absent_context<T: Table>(objects: &T, names: &[Name], operand: u64) -> Option<Exception>
    requires { operand + length names.now < 2 ^ 64 }
    ensures { result ≡ absent_context (T.held objects.now) names.now operand }
{
    match names {
        [] => None,
        [name, more @ ..] => {
            let place = operand.min(255) as u8;
            match absent(in_machine(objects, &context_id(name)), place) {
                None => absent_context(objects, more, operand + 1),
                Some(failure) => Some(failure),
            }
        }
    }
}

/// A start finds the profile of the job's user, and the contexts of its list; else the first that is absent.
#[tactic(auto, unfolding(s38_rules::specs::step::Verdict::start_failure))]
pub fn start_failure<T: Table>(objects: &T, job: &Job) -> Option<Exception>
    ensures { result ≡ start_failure (T.held objects.now) job.now }
{
    match absent(in_machine(objects, &profile_id(&job.user)), 1) {
        None => absent_context(objects, job.contexts.as_slice(), 2),
        Some(failure) => Some(failure),
    }
}

// ---- what a process knows from its start

fn number_or_none<T: Table>(objects: &T, id: &Id) -> ObjNum
    ensures { result ≡ in_machine (T.held objects.now) id.now }
{
    in_machine(objects, id).unwrap_or(ObjNum(0))
}

fn numbers_of<T: Table>(alloc: Global, objects: &T, names: &[Name]) -> Result<Seq<ObjNum>, NoMemory>
    ensures { IfOk result (λ numbers. numbers ≡ numbers_of (T.held objects.now) names.now) }
{
    let mut numbers = Seq::new(alloc);
    for name in names {
        numbers.push(number_or_none(objects, &context_id(name)))?;
    }
    Ok(numbers)
}

fn started_as<T: Table>(alloc: Global, objects: &T, job: &Job) -> Result<Started, NoMemory>
    ensures { IfOk result (λ started. started ≡ started_as (T.held objects.now) job.now) }
{
    let user = number_or_none(objects, &profile_id(&job.user));
    let contexts = numbers_of(alloc, objects, job.contexts.as_slice())?;
    let stack = Stack::own_template(alloc)?;
    Ok(Started {
        user,
        contexts,
        stack,
    })
}

// ---- start and end

fn set_started(entries: &mut [ProcessEntry], at: usize, started: Started)
    requires { at < length entries.old }
    ensures { (x : ProcessEntry) → slice_get entries.old at ≡ Some x → entries.new ≡ slice_set entries.old at (record x { started = Some started }) }
{
    let entry = &mut entries[at];
    entry.started = Some(started);
}

fn set_ended(entries: &mut [ProcessEntry], at: usize)
    requires { at < length entries.old }
    ensures { (x : ProcessEntry) → slice_get entries.old at ≡ Some x → entries.new ≡ slice_set entries.old at (record x { ended = true }) }
{
    let entry = &mut entries[at];
    entry.ended = true;
}

/// What a process knows from its start, where there is one.
fn started_of<T: Table, P: UserMaps>(
    alloc: Global,
    world: &Core<T, P>,
    process: u32,
) -> Result<Option<Started>, NoMemory>
    ensures { IfOk result (λ made. made ≡ option_map (λ x. started_as world.now.held x.job) (process_entry world.now process)) }
{
    match world.process_entry(process) {
        None => Ok(None),
        Some(x) => Ok(Some(started_as(alloc, &world.objects, &x.job)?)),
    }
}

/// A process starts: it has its user, the contexts of its list as they are found now, and the job's own template
/// as its one program. Where memory is refused nothing changes.
pub fn start<T: Table, P: UserMaps>(
    alloc: Global,
    world: &mut Core<T, P>,
    process: u32,
) -> Result<(), NoMemory>
    ensures ok { OnOk result (world.new ≡ start_at world.old process (process_entry world.old process)) }
    ensures err { OnErr result (world.new ≡ world.old) }
{
    match started_of(alloc, world, process) {
        Err(fault) => Err(fault),
        Ok(None) => Ok(()),
        Ok(Some(started)) => {
            let at = (process as usize).saturating_sub(1);
            set_started(&mut world.processes, at, started);
            Ok(())
        }
    }
}

/// A process that has no unit of changes has ended, and holds no lock any more.
pub fn end<T: Table, P: UserMaps>(world: &mut Core<T, P>, process: u32)
    ensures { world.new ≡ ended_at world.old process (process_entry world.old process) }
{
    match world.process_entry(process) {
        None => {}
        Some(_) => {
            let at = (process as usize).saturating_sub(1);
            world.locks.release_all(process);
            set_ended(&mut world.processes, at);
        }
    }
}
