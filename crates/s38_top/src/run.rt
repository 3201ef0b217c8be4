//! Runs of the jobs of a deck on a machine without a store.
ghost use Rattle.std.specs.Prelude.{◌≡◌, ◌≤◌, ℕ, IfOk, Some, length, slice_get};
ghost use Rattle.s38_code.specs.declared.deck.Job.{Job};
ghost use Rattle.s38_objects.specs.Lawful.{IsObjectMap};
ghost use Rattle.s38_rules.specs.state.Kept.{CanBeKept};
ghost use Rattle.s38_template.specs.Places.{HasTemplate};
ghost use Rattle.s38_top.specs.Begun.{IsStarted, IsWholeOf, held_of};
ghost use Rattle.s38_top.specs.Decks.{checked_of, turns_by};

use crate::outcome::Whole;
use crate::start::{Started, start};
use s38_base::NoMemory;
use s38_code::{Checked, Deck};
use s38_machine::Machine;
use s38_objects::Objects;
use s38_run::{Picker, RunEnd, serial};
use std::alloc::Global;

/// What a machine that ran the jobs of a deck came to.
fn whole_of(deck: Deck, machine: Machine) -> Whole
    ensures deck { result.deck ≡ deck }
    ensures history { result.history.items ≡ machine.history }
    ensures marks { result.marks.items ≡ machine.marks }
    ensures state { result.state ≡ machine.state }
    ensures lawful { IsObjectMap result.state.held }
{
    let (history, marks, state) = machine.end();
    // Its contract says that the objects are lawful.
    let _objects = state.objects.len();
    Whole {
        deck,
        history,
        marks,
        state,
    }
}

/// Runs the jobs that a machine has begun on one thread, in turns that a picker chooses.
fn run_serial<P: Picker>(alloc: Global, started: Started, picker: &mut P) -> Result<Whole, NoMemory>
    requires { IsStarted started }
    ensures { IfOk result (λ whole. IsWholeOf (held_of started) (turns_by P.answer P.after picker.old) started.deck whole) }
{
    let Started {
        deck,
        made,
        machine,
    } = started;
    let (machine, end) = serial(
        alloc,
        machine,
        deck.jobs.as_slice(),
        made.as_slice(),
        picker,
    );
    match end {
        RunEnd::Complete => Ok(whole_of(deck, machine)),
        // A machine without a store never stops, so memory was refused.
        _ => Err(NoMemory),
    }
}

/// Runs the jobs of a deck whose templates were checked on one thread, from these objects, in turns that a picker chooses.
pub fn run_deck<P: Picker>(
    alloc: Global,
    objects: Objects,
    deck: Deck,
    templates: Checked,
    picker: &mut P,
) -> Result<Whole, NoMemory>
    requires has { (k : ℕ) (job : Job) → slice_get deck.jobs k ≡ Some job → HasTemplate deck job }
    requires checked { templates ≡ checked_of deck }
    requires few { length deck.jobs ≤ 256 }
    requires kept { CanBeKept objects }
    ensures { IfOk result (λ whole. IsWholeOf objects (turns_by P.answer P.after picker.old) deck whole) }
{
    let started = start(alloc, objects, deck, templates)?;
    run_serial(alloc, started, picker)
}
