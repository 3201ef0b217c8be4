//! The job to which a lock is handed on.
ghost use Rattle.std.specs.Prelude.{◌≡◌, position};
ghost use Rattle.std.specs.Option.{option_copied};
ghost use Rattle.s38_rules.specs.families.Locking.{is_going_in, is_job_named, may_take, process_named, process_number_of, taker};

use s38_base::Name;
use s38_code::Operand;
use s38_invoke::{Core, Profiles};
use s38_objects::Objects;
use s38_operands::place;
use s38_rules::ProcessEntry;

/// The place of the job of a name.
fn place_of_job(entries: &[ProcessEntry], name: &Name) -> Option<usize>
    ensures { result ≡ position (is_job_named name.now) entries.now }
{
    entries
        .iter()
        .position(|x| x.job.name.as_bytes() == name.as_bytes())
}

/// The number of the process at a place, 0 for none.
fn numbered(at: Option<usize>) -> u32
    ensures { result ≡ process_number_of at }
{
    match at {
        None => 0,
        Some(at) => at.saturating_add(1).min(u32::MAX as usize) as u32,
    }
}

/// The process of the job of a name, 0 for none.
fn process_named(entries: &[ProcessEntry], operand: Option<&Operand>) -> u32
    ensures { result ≡ process_named entries.now (option_copied operand.entry) }
{
    match operand {
        Some(Operand::Text(name)) => numbered(place_of_job(entries, name)),
        _ => 0,
    }
}

/// The process of the job that operand 3 names.
pub fn taker(world: &Core<Objects, Profiles>, operands: &[Operand]) -> u32
    ensures { result ≡ taker world.now operands.now }
{
    process_named(world.processes.as_slice(), place(operands, 3))
}

fn is_going_in(entry: Option<&ProcessEntry>) -> bool
    ensures { result ≡ is_going_in (option_copied entry.entry) }
{
    match entry {
        None => false,
        Some(x) => x.started.is_some() && !x.ended,
    }
}

/// Whether this is another process, which has started and has not ended.
pub fn may_take(world: &Core<Objects, Profiles>, process: u32, taker: u32) -> bool
    ensures { result ≡ may_take world.now process taker }
{
    taker != process && taker != 0 && is_going_in(world.process_entry(taker))
}
