ghost use Rattle.std.specs.Prelude.{◌≡◌, ◌++◌, ◌∷◌, [], codes, IfOk};
ghost use Rattle.std.specs.Option.{option_map};
ghost use Rattle.s38_words.specs.DeclarationLine.{count_spelled};
ghost use Rattle.s38_template.specs.Lines.{budget_in, contexts_spelled, head_in, job_in, job_word, names_in, run_in, terms_in, worded};
ghost use Rattle.s38_words.specs.Name.{declared_name, object_name};

use crate::cut::cut;
use crate::said::JobSaid;
use s38_base::{Name, NoMemory, Seq};
use s38_code::Names;
use s38_words::{declared_name, natural, object_name, rest_after};
use std::alloc::Global;

/// How many instructions a job may do whose line does not say it.
const BUDGET: u64 = 1_000_000;

/// The number that a text is; one that is too large as the largest.
fn count(text: &[u8]) -> Option<u64>
    ensures { result ≡ count_spelled text.now }
{
    natural(text)
}

/// The text after a word and before a blank, and the text after the blank.
#[tactic(auto, unfolding(crate::specs::Lines::worded))]
fn worded<'a>(text: &'a [u8], word: &[u8]) -> Option<(&'a [u8], &'a [u8])>
    ensures { option_map (λ parts. (parts.0.now, parts.1.now)) result ≡ worded word.now text.now }
{
    match rest_after(word, text) {
        Some(behind) => cut(behind, b' '),
        None => None,
    }
}

/// These names and the one that a text is.
fn with_name(names: Names, text: &[u8]) -> Result<Option<Names>, NoMemory>
    ensures { IfOk result (λ more. more ≡ option_map (λ name. names ++ name ∷ []) (object_name text.now)) }
{
    let mut list = names;
    match object_name(text) {
        Some(name) => {
            list.push(name)?;
            Ok(Some(list))
        }
        None => Ok(None),
    }
}

/// The names that a text is, parted by one blank.
fn names_in(alloc: Global, text: &[u8]) -> Result<Option<Names>, NoMemory>
    ensures { IfOk result (λ names. names ≡ names_in text.now) }
{
    let mut names = Seq::new(alloc);
    let mut rest = text;
    while let Some((name, more)) = cut(rest, b' ') {
        match with_name(names, name) {
            Ok(Some(longer)) => names = longer,
            Ok(None) => return Ok(None),
            Err(fault) => return Err(fault),
        }
        rest = more;
    }
    with_name(names, rest)
}

#[tactic(auto, unfolding(crate::specs::Lines::contexts_spelled))]
fn contexts_in(alloc: Global, text: &[u8]) -> Result<Option<Names>, NoMemory>
    ensures { IfOk result (λ names. names ≡ contexts_spelled text.now) }
{
    match rest_after(b"CONTEXTS ", text) {
        Some(names) => names_in(alloc, names),
        None => Ok(None),
    }
}

/// A budget, and the contexts after it.
#[tactic(auto, unfolding(crate::specs::Lines::budget_in))]
fn budget_in(alloc: Global, text: &[u8]) -> Result<Option<(u64, Names)>, NoMemory>
    ensures { IfOk result (λ terms. terms ≡ budget_in text.now) }
{
    match cut(text, b' ') {
        None => {
            let Some(budget) = count(text) else {
                return Ok(None);
            };
            Ok(Some((budget, Seq::new(alloc))))
        }
        Some((number, rest)) => {
            let Some(budget) = count(number) else {
                return Ok(None);
            };
            let Some(contexts) = contexts_in(alloc, rest)? else {
                return Ok(None);
            };
            Ok(Some((budget, contexts)))
        }
    }
}

/// The budget and the contexts of a job.
#[tactic(auto, unfolding(crate::specs::Lines::terms_in))]
fn terms_in(alloc: Global, text: &[u8]) -> Result<Option<(u64, Names)>, NoMemory>
    ensures { IfOk result (λ terms. terms ≡ terms_in text.now) }
{
    match rest_after(b"BUDGET ", text) {
        Some(rest) => budget_in(alloc, rest),
        None => {
            let Some(contexts) = contexts_in(alloc, text)? else {
                return Ok(None);
            };
            Ok(Some((BUDGET, contexts)))
        }
    }
}

/// The template that a job runs, its budget and its contexts.
#[tactic(auto, unfolding(crate::specs::Lines::run_in))]
fn run_in(alloc: Global, text: &[u8]) -> Result<Option<(Name, u64, Names)>, NoMemory>
    ensures { IfOk result (λ run. run ≡ run_in text.now) }
{
    match cut(text, b' ') {
        None => {
            let Some(name) = declared_name(text) else {
                return Ok(None);
            };
            Ok(Some((name, BUDGET, Seq::new(alloc))))
        }
        Some((template, rest)) => {
            let Some(name) = declared_name(template) else {
                return Ok(None);
            };
            let Some((budget, contexts)) = terms_in(alloc, rest)? else {
                return Ok(None);
            };
            Ok(Some((name, budget, contexts)))
        }
    }
}

/// The texts after JOB and after USER, and the text after RUN.
#[tactic(auto, unfolding(crate::specs::Lines::head_in))]
fn head_in(line: &[u8]) -> Option<(&[u8], &[u8], &[u8])>
    ensures { option_map (λ head. (head.0.now, head.1.now, head.2.now)) result ≡ head_in line.now }
{
    let (job, rest) = worded(line, b"JOB ")?;
    let (user, rest) = worded(rest, b"USER ")?;
    let run = rest_after(b"RUN ", rest)?;
    Some((job, user, run))
}

/// The job that a line says; None exactly where it has no form of one.
#[inline(never)]
#[tactic(auto, unfolding(crate::specs::Lines::job_in))]
pub fn job_in(alloc: Global, line: &[u8]) -> Result<Option<JobSaid>, NoMemory>
    ensures { IfOk result (λ job. job ≡ job_in line.now) }
{
    let Some((name, user, run)) = head_in(line) else {
        return Ok(None);
    };
    let Some(name) = declared_name(name) else {
        return Ok(None);
    };
    let Some(user) = object_name(user) else {
        return Ok(None);
    };
    let Some((template, budget, contexts)) = run_in(alloc, run)? else {
        return Ok(None);
    };
    Ok(Some(JobSaid {
        name,
        user,
        template,
        budget,
        contexts,
    }))
}
