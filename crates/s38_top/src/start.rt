//! A machine that has begun the jobs of a deck.
ghost use Rattle.std.specs.Prelude.{◌≡◌, ◌≤◌, ℕ, IfOk, Some, length, slice_get};
ghost use Rattle.s38_code.specs.declared.deck.Job.{Job};
ghost use Rattle.s38_rules.specs.state.Kept.{CanBeKept};
ghost use Rattle.s38_template.specs.Places.{HasTemplate};
ghost use Rattle.s38_top.specs.Begun.{IsStarted};
ghost use Rattle.s38_top.specs.Decks.{checked_of};

use crate::templates::made_of_jobs;
use s38_base::NoMemory;
use s38_code::{Checked, CreateResult, Deck};
use s38_machine::Machine;
use s38_objects::Objects;
use std::alloc::Global;

/// A machine that has begun the jobs of a deck, and what creation made of each job's template, in the order of the jobs.
#[derive(Drop)]
pub struct Started {
    pub deck: Deck,
    pub made: Vec<CreateResult>,
    pub machine: Machine,
}

/// Begins the jobs of a deck whose templates were checked, on a machine with these objects.
pub fn start(
    alloc: Global,
    objects: Objects,
    deck: Deck,
    templates: Checked,
) -> Result<Started, NoMemory>
    requires has { (k : ℕ) (job : Job) → slice_get deck.jobs k ≡ Some job → HasTemplate deck job }
    requires checked { templates ≡ checked_of deck }
    requires few { length deck.jobs ≤ 256 }
    requires kept { CanBeKept objects }
    ensures deck { IfOk result (λ started. started.deck ≡ deck) }
    ensures held { IfOk result (λ started. started.machine.state.held ≡ objects) }
    ensures started { IfOk result IsStarted }
{
    let made = made_of_jobs(alloc, &deck, templates.as_slice())?;
    let machine = Machine::start(alloc, objects, templates, deck.jobs.as_slice())?;
    Ok(Started {
        deck,
        made,
        machine,
    })
}
