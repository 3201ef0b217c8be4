//! Which data spaces are journaled, and where; how many units of a journal space are open.
ghost use Rattle.std.specs.Prelude.{◌≡◌, ◌<◌, ◌^◌, filter, length};
ghost use Rattle.std.specs.Map.{keys_of};
ghost use Rattle.std.specs.Option.{option_copied, option_map};
ghost use Rattle.s38_rules.specs.state.Journaling.{begins_unit, block_port, data_port, is_journal, is_journaled_to, is_that_number, journal_for, journal_for_block, journal_named, journal_of_port, open_after, open_units};
ghost use Rattle.s38_units.specs.Blocks.{leads_to};

use s38_base::ObjNum;
use s38_commits::Units;
use s38_objects::Objects;
use s38_rules::Port;

/// The object of a number is a journal space.
fn is_journal(objects: &Objects, number: ObjNum) -> bool
    ensures { result ≡ is_journal objects.now number.0 }
{
    objects.journal(number).is_some()
}

fn journal_named(objects: &Objects, port: Option<&Port>) -> Option<ObjNum>
    ensures { option_map (λ journal. journal.0) result ≡ journal_named objects.now (option_copied port.entry) }
{
    match port {
        Some(port) => {
            if is_journal(objects, port.journal) {
                Some(port.journal)
            } else {
                None
            }
        }
        None => None,
    }
}

/// The journal space of the port of a number, where both are there.
pub fn journal_of_port(objects: &Objects, port: ObjNum) -> Option<ObjNum>
    ensures { option_map (λ journal. journal.0) result ≡ journal_of_port objects.now port.0 }
{
    journal_named(objects, objects.port(port))
}

/// The port that a data space names, 0 for none.
pub fn data_port(objects: &Objects, space: ObjNum) -> ObjNum
    ensures { result.0 ≡ data_port objects.now space.0 }
{
    match objects.data_space(space) {
        Some(held) => held.port,
        None => ObjNum(0),
    }
}

/// The journal space of a data space; None exactly where it is not journaled.
pub fn journal_for(objects: &Objects, space: ObjNum) -> Option<ObjNum>
    ensures { option_map (λ journal. journal.0) result ≡ journal_for objects.now space.0 }
{
    journal_of_port(objects, data_port(objects, space))
}

/// The port that a commit block names, 0 for none.
pub(crate) fn block_port(objects: &Objects, block: ObjNum) -> ObjNum
    ensures { result.0 ≡ block_port objects.now block.0 }
{
    match objects.block(block) {
        Some(held) => held.port,
        None => ObjNum(0),
    }
}

/// The journal space to which the unit of a commit block goes.
pub fn journal_for_block(objects: &Objects, block: ObjNum) -> Option<ObjNum>
    ensures { option_map (λ journal. journal.0) result ≡ journal_for_block objects.now block.0 }
{
    journal_of_port(objects, block_port(objects, block))
}

/// A data space is journaled to a port.
pub(crate) fn is_journaled_to(objects: &Objects, space: ObjNum, port: ObjNum) -> bool
    ensures { result ≡ is_journaled_to objects.now space.0 port.0 }
{
    data_port(objects, space).0 == port.0 && journal_for(objects, space).is_some()
}

/// A unit whose commit block names a port goes to a journal space.
fn does_lead(objects: &Objects, journal: ObjNum, port: ObjNum) -> bool
    ensures { result ≡ is_that_number journal.0 (journal_of_port objects.now port.0) }
{
    match journal_of_port(objects, port) {
        Some(other) => other.0 == journal.0,
        None => false,
    }
}

/// The same, where it is known of the last port: of that port nothing is looked up again.
fn is_known_to_lead(
    objects: &Objects,
    journal: ObjNum,
    port: ObjNum,
    last: ObjNum,
    leads: bool,
) -> bool
    requires { leads ≡ is_that_number journal.0 (journal_of_port objects.now last.0) }
    ensures { result ≡ is_that_number journal.0 (journal_of_port objects.now port.0) }
{
    if port.0 == last.0 {
        leads
    } else {
        does_lead(objects, journal, port)
    }
}

/// How many commit blocks have a unit that goes to a journal space. Where a block names the port of the one before, its
/// block alone is looked up.
fn count_blocks(objects: &Objects, units: &Units, journal: ObjNum) -> usize
    ensures { result ≡ length (filter (leads_to objects.now journal.0) (keys_of units.now)) }
{
    let mut port = ObjNum(0);
    let mut leads = does_lead(objects, journal, port);
    let mut count = 0;
    for block in units.blocks() {
        let next = block_port(objects, ObjNum(*block));
        leads = is_known_to_lead(objects, journal, next, port, leads);
        port = next;
        if leads {
            count += 1;
        }
    }
    count
}

/// How many units are open in a journal space.
#[tactic(auto, using(crate::proofs::UnitLaws::count_blocks, crate::proofs::UnitLaws::few_blocks))]
pub fn open_units(objects: &Objects, units: &Units, journal: ObjNum) -> usize
    ensures count { result ≡ open_units objects.now units.now journal.0 }
    ensures few { result < 2 ^ 63 }
{
    // Its contract says that they are few.
    let _blocks = units.blocks();
    count_blocks(objects, units, journal)
}

/// How many units are open in all journal spaces together, without counting them.
pub(crate) fn all_units(units: &Units) -> usize
    ensures count { result ≡ length units.now }
    ensures few { result < 2 ^ 63 }
{
    units.blocks().len()
}

/// A change begins a unit where its commit block, if it has one, has none.
pub(crate) fn begins_unit(units: &Units, block: ObjNum) -> bool
    ensures { result ≡ begins_unit units.now block.0 }
{
    block.0 != 0 && units.get(block).is_none()
}

/// How many units are open in a journal space after a change.
pub fn open_after(objects: &Objects, units: &Units, journal: ObjNum, block: ObjNum) -> usize
    ensures { result ≡ open_after objects.now units.now journal.0 block.0 }
{
    let open = open_units(objects, units, journal);
    if begins_unit(units, block) {
        open + 1
    } else {
        open
    }
}
