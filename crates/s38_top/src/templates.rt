ghost use Rattle.std.specs.Prelude.{◌≡◌, ℕ, List, IfOk, Some, length, map, slice_get};
ghost use Rattle.std.specs.BTreeMap.{get};
ghost use Rattle.std.specs.Cmp.Lexicographic.{slice_cmp};
ghost use Rattle.std.specs.Ordering.{nat_cmp};
ghost use Rattle.s38_code.specs.declared.deck.Job.{Job};
ghost use Rattle.s38_code.specs.declared.made.CreateResult.{CreateResult};
ghost use Rattle.s38_template.specs.Grammar.{IsTemplate, template_names};
ghost use Rattle.s38_template.specs.Places.{HasTemplate, template_place};
ghost use Rattle.s38_top.specs.Decks.{MadeAt, checked_of, checked_template, made_for};

use s38_base::{Name, NoMemory, Seq, TryClone};
use s38_code::{Checked, CheckedTemplate, CreateResult, Deck, Job, Template};
use s38_create::checked;
use s38_template::{template_name, template_places};
use std::alloc::Global;
use std::collections::BTreeMap;

/// A template by its name, and what creation makes of it.
fn checked_template(alloc: Global, template: &Template) -> Result<CheckedTemplate, NoMemory>
    requires { IsTemplate template.now }
    ensures { IfOk result (λ checked. checked ≡ checked_template template.now) }
{
    let made = checked(alloc, template)?;
    let name = template_name(template);
    Ok(CheckedTemplate { name, made })
}

/// The templates in order, each checked.
pub fn checked_templates(alloc: Global, templates: &[Template]) -> Result<Checked, NoMemory>
    requires { (k : ℕ) (lines : List (List ℕ)) → slice_get templates.now k ≡ Some lines → IsTemplate lines }
    ensures { IfOk result (λ checked. checked ≡ map checked_template templates.now) }
{
    let mut checked = Vec::with_capacity(alloc, templates.len())?;
    for template in templates {
        let one = checked_template(alloc, template)?;
        checked.push(one)?;
    }
    Ok(Seq::from_vec(checked))
}

/// The place of the template that a job names.
fn place_of_job(deck: &Deck, places: &BTreeMap<Name, usize>, job: &Job) -> usize
    requires has { HasTemplate deck.now job.now }
    requires places { (q : List ℕ) → get (slice_cmp nat_cmp) places.now q ≡ template_place (template_names deck.now.templates) q }
    ensures { template_place (template_names deck.now.templates) job.now.template ≡ Some result }
{
    let _ = deck;
    match places.get(&job.template) {
        None => unreachable!(),
        Some(at) => *at,
    }
}

/// What creation makes of the template that a job names, which is at this place.
fn made_at(
    alloc: Global,
    deck: &Deck,
    templates: &[CheckedTemplate],
    at: usize,
    job: &Job,
) -> Result<CreateResult, NoMemory>
    requires { MadeAt deck.now job.now templates.now at }
    ensures { IfOk result (λ made. made_for deck.now job.now ≡ Some made) }
{
    let _ = deck;
    let _ = job;
    templates[at].made.try_clone(alloc)
}

/// What creation makes of the template that a job names.
fn made_of_job(
    alloc: Global,
    deck: &Deck,
    templates: &[CheckedTemplate],
    places: &BTreeMap<Name, usize>,
    job: &Job,
) -> Result<CreateResult, NoMemory>
    requires has { HasTemplate deck.now job.now }
    requires checked { templates.now ≡ checked_of deck.now }
    requires places { (q : List ℕ) → get (slice_cmp nat_cmp) places.now q ≡ template_place (template_names deck.now.templates) q }
    ensures { IfOk result (λ made. made_for deck.now job.now ≡ Some made) }
{
    let at = place_of_job(deck, places, job);
    made_at(alloc, deck, templates, at, job)
}

/// For each job, in the order of the jobs, what creation makes of its template.
pub fn made_of_jobs(
    alloc: Global,
    deck: &Deck,
    templates: &[CheckedTemplate],
) -> Result<Vec<CreateResult>, NoMemory>
    requires has { (k : ℕ) (job : Job) → slice_get deck.now.jobs k ≡ Some job → HasTemplate deck.now job }
    requires checked { templates.now ≡ checked_of deck.now }
    ensures len { IfOk result (λ made. length made.items ≡ length deck.now.jobs) }
    ensures each { IfOk result (λ made. (k : ℕ) (job : Job) (one : CreateResult) → slice_get deck.now.jobs k ≡ Some job
        → slice_get made.items k ≡ Some one → made_for deck.now job ≡ Some one) }
{
    let places = template_places(alloc, deck)?;
    let mut made = Vec::with_capacity(alloc, deck.jobs.len())?;
    for job in deck.jobs.as_slice() {
        let one = made_of_job(alloc, deck, templates, &places, job)?;
        made.push(one)?;
    }
    Ok(made)
}
