ghost use Rattle.std.specs.Prelude.{◌≡◌, ◌==◌, ◌&&◌, IfOk, map, not};
ghost use Rattle.std.specs.List.{position_or_len};
ghost use Rattle.std.specs.List.Sorted.{IsStrictlyIncreasing};
ghost use Rattle.std.specs.Option.{option_copied};
ghost use Rattle.s38_image.specs.Faults.{group, group_has_number, group_is_on_disk, header_of_group};
ghost use Rattle.s38_vault.specs.Content.{AreRising};
ghost use Rattle.s38_restart.specs.catalog.Groups.{groups, is_header};
ghost use Rattle.s38_restart.specs.catalog.Runs.{number_of, run};

use crate::catalog::group::Group;
use crate::catalog::numbers::place_of;
use s38_base::{Change, NoMemory};
use s38_image::{CEILING_KEY, HEADER_PART, Header};
use std::alloc::Global;
use std::marker::Model;

/// Whether a part is a header page.
fn is_header(part: &Change) -> bool
    ensures { result ≡ is_header part.now }
{
    part.key.part == HEADER_PART && part.key.object != CEILING_KEY
}

/// The parts of a number that lead a list.
pub fn run_of(number: u64, parts: &[Change]) -> &[Change]
    ensures { result.now ≡ run number parts.now }
{
    for at in 0..parts.len() {
        if parts[at].key.object != number {
            return &parts[..at];
        }
    }
    parts
}

/// The numbers of a store that have a header page, in rising order, each with its parts. Contracts see their list.
#[derive(Drop)]
pub struct Groups<'a> {
    numbers: Vec<u64>,
    groups: Vec<Group<'a>>,
}

impl<'a> Model for Groups<'a> {
    ghost use Rattle.std.specs.Prelude.{◌≡◌, List, map};
    ghost use Rattle.std.specs.List.Sorted.{IsStrictlyIncreasing};
    ghost use Rattle.s38_image.specs.Faults.{Group as Parts};
    ghost use Rattle.s38_restart.specs.catalog.Runs.{number_of};

    ghost Value = { List Parts };

    ghost view = { λ g. g.groups.items };

    ghost invariant = { λ g. record { numbers : g.numbers.items ≡ map number_of g.groups.items; rising : IsStrictlyIncreasing g.numbers.items } };
}

impl<'a> Groups<'a> {
    /// The groups of all parts of a store, which rise in their keys. `NoMemory` where memory was refused.
    pub fn of(alloc: Global, parts: &'a [Change]) -> Result<Self, NoMemory>
        requires { AreRising parts.now }
        ensures { IfOk result (λ found. found ≡ groups parts.now) }
    {
        let mut numbers = Vec::new(alloc);
        let mut groups = Vec::new(alloc);
        for at in 0..parts.len() {
            if is_header(&parts[at]) {
                let number = parts[at].key.object;
                let group = Group::new(alloc, number, run_of(number, &parts[at..]))?;
                groups.push(group)?;
                numbers.push(number)?;
            }
        }
        Ok(Groups { numbers, groups })
    }

    /// The groups, in rising order of number.
    pub fn as_slice(&self) -> &[Group<'a>]
        ensures groups { result.now ≡ self.now }
        ensures rising { IsStrictlyIncreasing (map number_of self.now) }
    {
        self.groups.as_slice()
    }

    /// At which place the group of a number is, or how many groups there are, if there is none. In logarithmic time.
    pub fn place_of(&self, number: u64) -> usize
        ensures { result ≡ position_or_len (group_has_number number) self.now }
    {
        place_of(&self.numbers, number)
    }

    /// The group of a number, in logarithmic time.
    pub fn get(&self, number: u64) -> Option<&Group<'a>>
        ensures { option_copied result ≡ group self.now number }
    {
        self.groups.get(self.place_of(number))
    }

    /// Whether the number has a header page, in logarithmic time.
    pub fn is_on_disk(&self, number: u64) -> bool
        ensures { result ≡ group_is_on_disk self.now number }
    {
        self.get(number).is_some()
    }

    /// The header of a number, None also if it does not keep to its form. In logarithmic time.
    pub fn header(&self, number: u64) -> Option<Header>
        ensures { result ≡ header_of_group self.now number }
    {
        match self.get(number) {
            Some(group) => group.header(),
            None => None,
        }
    }
}
