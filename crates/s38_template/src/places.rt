ghost use Rattle.std.specs.Prelude.{◌≡◌, ℕ, List, IfOk, Some, drop, length};
ghost use Rattle.std.specs.BTreeMap.{get};
ghost use Rattle.std.specs.Cmp.Lexicographic.{slice_cmp};
ghost use Rattle.std.specs.List.{slice_get};
ghost use Rattle.std.specs.Ordering.{nat_cmp};
ghost use Rattle.s38_code.specs.declared.deck.Deck.{Deck};
ghost use Rattle.s38_code.specs.declared.deck.Job.{Job};
ghost use Rattle.s38_words.specs.Text.{before};
ghost use Rattle.s38_template.specs.Grammar.{IsTemplate, Spells, name_of, template_names};
ghost use Rattle.s38_template.specs.Places.{HasTemplate, held, placed, template_place};
ghost use Rattle.s38_words.specs.Name.{object_name};
ghost use Rattle.s38_words.specs.ProgramLine.{program_word};

use s38_base::{Name, NoMemory};
use s38_code::{Deck, Template};
use s38_words::{before, object_name};
use std::alloc::Global;
use std::collections::BTreeMap;

/// What the head of a template begins with.
const PROGRAM: &[u8] = b"PROGRAM ";

/// The name in the head of a template; None where it has none.
fn name_of(template: &Template) -> Option<Name>
    ensures { result ≡ object_name (name_of template.now) }
{
    match template.lines().get(0) {
        Some(head) => name_in_head(head),
        None => None,
    }
}

fn name_in_head(head: &[u8]) -> Option<Name>
    ensures { result ≡ object_name (before 32 (drop (length program_word) head.now)) }
{
    if head.len() < PROGRAM.len() {
        return None;
    }
    object_name(before(b' ', &head[PROGRAM.len()..]))
}

/// The name of a template, as its head says it.
#[tactic(auto, using(crate::proofs::Named::template_named))]
pub fn template_name(template: &Template) -> Name
    requires { IsTemplate template.now }
    ensures { result ≡ name_of template.now }
{
    match name_of(template) {
        Some(name) => name,
        None => unreachable!(),
    }
}

/// These places and that of one more name, unless it has a place already.
fn with_name(
    places: BTreeMap<Name, usize>,
    at: usize,
    name: Name,
) -> Result<BTreeMap<Name, usize>, NoMemory>
    ensures { IfOk result (λ more. (q : List ℕ) → get (slice_cmp nat_cmp) more q ≡ held (get (slice_cmp nat_cmp) places q) at name q) }
{
    let mut places = places;
    if places.contains_key(&name) {
        return Ok(places);
    }
    match places.insert(name, at) {
        Ok(_) => Ok(places),
        Err(_) => Err(NoMemory),
    }
}

/// These places and that of one more template, unless its name has a place already.
fn with_place(
    places: BTreeMap<Name, usize>,
    at: usize,
    template: &Template,
) -> Result<BTreeMap<Name, usize>, NoMemory>
    ensures { IfOk result (λ more. (q : List ℕ) → get (slice_cmp nat_cmp) more q ≡ placed (get (slice_cmp nat_cmp) places q) at (name_of template.now) q) }
{
    match name_of(template) {
        Some(name) => with_name(places, at, name),
        None => Ok(places),
    }
}

/// The places of the templates of a deck, by their names: the run finds a job's template by it without a
/// search over all. Where two have one name, which no deck that was read has, it tells the first.
pub fn template_places(alloc: Global, deck: &Deck) -> Result<BTreeMap<Name, usize>, NoMemory>
    ensures { IfOk result (λ places. (q : List ℕ) → get (slice_cmp nat_cmp) places q ≡ template_place (template_names deck.now.templates) q) }
{
    let mut places = BTreeMap::new(alloc);
    for (at, template) in deck.templates.as_slice().iter().enumerate() {
        places = with_place(places, at, template)?;
    }
    Ok(places)
}

/// In a deck that a text spells each job's template has a place, and is there.
pub fn each_job_has_its_template()
    ensures { (text : List ℕ) (deck : Deck) → Spells text deck → (k : ℕ) (job : Job) → slice_get deck.jobs k ≡ Some job → HasTemplate deck job }
{}
