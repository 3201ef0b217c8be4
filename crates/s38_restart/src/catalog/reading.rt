ghost use Rattle.std.specs.Prelude.{◌≡◌, ◌≤◌, IfOk, find, length, map};
ghost use Rattle.std.specs.List.Sorted.{IsStrictlyIncreasing};
ghost use Rattle.std.specs.Option.{option_and_then, option_copied, option_map};
ghost use Rattle.s38_image.specs.Faults.{first_fault_of, is_bad_body, is_past, last_in as last_of, last_of_port, port_named, sound_at};
ghost use Rattle.s38_rules.specs.state.Parts.{journal_of, port_of};
ghost use Rattle.s38_restart.specs.catalog.Readings.{all_sound, first_beside, is_object, lower, stored_number};
ghost use Rattle.s38_restart.specs.catalog.Runs.{number_of};

use crate::catalog::groups::Groups;
use crate::catalog::outcomes::{Found, outcomes};
use s38_base::NoMemory;
use s38_image::{BODY_PART, Stored};
use s38_rules::{Body, Port};
use std::alloc::Global;
use std::marker::Model;

/// The groups of a store, and what each holds by itself. Contracts see the groups, the longest body and the ceiling of
/// numbers.
#[derive(Drop)]
pub struct Reading<'a> {
    groups: Groups<'a>,
    limit: u32,
    ceiling: u64,
    found: Found,
}

impl<'a> Model for Reading<'a> {
    ghost use Rattle.std.specs.Prelude.{◌≡◌, map};
    ghost use Rattle.std.specs.List.Sorted.{IsStrictlyIncreasing};
    ghost use Rattle.s38_restart.specs.catalog.Readings.{Reading as Read, all_faults, all_sound};
    ghost use Rattle.s38_restart.specs.catalog.Runs.{number_of};

    ghost Value = { Read };

    ghost view = { λ r. record { groups = r.groups; limit = r.limit; ceiling = r.ceiling } };

    ghost invariant = { λ r. record { stored : r.found.stored.items ≡ all_sound r.groups r.limit r.ceiling; faults : r.found.faults.items ≡ all_faults r.groups r.limit r.ceiling; rising : IsStrictlyIncreasing (map number_of r.groups) } };
}

/// The object of a number, among objects whose numbers rise. In logarithmic time.
fn object_in(stored: &[Stored], number: u64) -> Option<&Stored>
    requires { IsStrictlyIncreasing (map stored_number stored.now) }
    ensures { option_copied result ≡ find (is_object number) stored.now }
{
    match stored.binary_search_by_key(&number, |one| one.object.number.0) {
        Ok(at) => Some(&stored[at]),
        Err(_) => None,
    }
}

/// Of two faults that of the lower number, and the second where both have one number.
fn lower(first: Option<(u64, u32)>, second: Option<(u64, u32)>) -> Option<(u64, u32)>
    ensures { result ≡ lower first second }
{
    match (first, second) {
        (Some(one), Some(other)) => { if one.0 < other.0 { first } else { second } }
        (Some(_), None) => first,
        (None, _) => second,
    }
}

/// Whether a sequence is past the last one, where there is a last one.
fn is_past(sequence: u64, last: Option<u64>) -> bool
    ensures { result ≡ is_past sequence last }
{
    match last {
        Some(last) => last < sequence,
        None => false,
    }
}

/// The port that a body is.
fn port_in(body: &Body) -> Option<Port>
    ensures { result ≡ port_of body.now }
{
    match body {
        Body::Port(port) => Some(*port),
        _ => None,
    }
}

/// The last sequence of the journal space that a body is.
fn last_in(body: &Body) -> Option<u64>
    ensures { result ≡ option_map (λ j. length j.entries) (journal_of body.now) }
{
    match body {
        Body::Journal(journal) => Some(journal.last()),
        _ => None,
    }
}

impl<'a> Reading<'a> {
    /// Reads what each group holds. `NoMemory` where memory was refused.
    pub fn of(alloc: Global, limit: u32, ceiling: u64, groups: Groups<'a>) -> Result<Self, NoMemory>
        requires { limit ≤ 16777216 }
        ensures { IfOk result (λ reading. reading ≡ record { groups = groups.entry; limit = limit; ceiling = ceiling }) }
    {
        let found = outcomes(alloc, limit, ceiling, &groups)?;
        Ok(Reading {
            groups,
            limit,
            ceiling,
            found,
        })
    }

    /// The object of a number, where neither its header nor its own parts have a fault. In logarithmic time.
    fn sound_at(&self, number: u64) -> Option<&Stored>
        ensures { option_copied result ≡ sound_at self.now.groups self.now.limit self.now.ceiling number }
    {
        object_in(self.found.stored.as_slice(), number)
    }

    /// The port of a number.
    fn port_at(&self, number: u64) -> Option<Port>
        ensures { result ≡ option_and_then port_named (sound_at self.now.groups self.now.limit self.now.ceiling number) }
    {
        match self.sound_at(number) {
            Some(stored) => port_in(&stored.object.body),
            None => None,
        }
    }

    /// The last sequence of the journal space of a number.
    fn last_at(&self, number: u64) -> Option<u64>
        ensures { result ≡ option_and_then last_of (sound_at self.now.groups self.now.limit self.now.ceiling number) }
    {
        match self.sound_at(number) {
            Some(stored) => last_in(&stored.object.body),
            None => None,
        }
    }

    /// The last sequence of the journal space that a port names.
    fn last_of_port(&self, port: u64) -> Option<u64>
        ensures { result ≡ last_of_port self.now.groups self.now.limit self.now.ceiling port }
    {
        match self.port_at(port) {
            Some(port) => self.last_at(port.journal.0),
            None => None,
        }
    }

    /// Whether a body has a fault beside the others.
    fn is_bad_body(&self, sequence: u64, body: &Body) -> bool
        ensures { result ≡ is_bad_body self.now.groups self.now.limit self.now.ceiling sequence body.now }
    {
        match body {
            Body::DataSpace(held) => {
                self.ceiling < held.port.0 || is_past(sequence, self.last_of_port(held.port.0))
            }
            Body::Port(port) => self.ceiling < port.journal.0,
            _ => false,
        }
    }

    /// The first of some objects whose body has a fault beside the others, with the first part of its body.
    fn first_beside(&self, stored: &[Stored]) -> Option<(u64, u32)>
        ensures { result ≡ first_beside self.now.groups self.now.limit self.now.ceiling stored.now }
    {
        for one in stored {
            if self.is_bad_body(one.sequence, &one.object.body) {
                return Some((one.object.number.0, BODY_PART));
            }
        }
        None
    }

    /// The least number with a fault, and its first part at fault.
    pub fn first_fault(&self) -> Option<(u64, u32)>
        ensures fault { result ≡ first_fault_of self.now.groups self.now.limit self.now.ceiling self.now.groups }
        ensures rising { IsStrictlyIncreasing (map number_of self.now.groups) }
    {
        let beside = self.first_beside(self.found.stored.as_slice());
        lower(beside, self.found.faults.first().copied())
    }

    /// The objects that have no fault by themselves, in rising order of number.
    pub fn into_stored(self) -> Vec<Stored>
        ensures { result.items ≡ all_sound self.entry.groups self.entry.limit self.entry.ceiling }
    {
        let found = self.found;
        found.stored
    }
}
