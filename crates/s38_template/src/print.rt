ghost use Rattle.std.specs.Prelude.{◌≡◌, ◌++◌, ◌==◌, ℕ, List, Ok, decimal, IfOk, OnOk};
ghost use Rattle.std.specs.List.{flat_map};
ghost use Rattle.s38_code.specs.declared.deck.Deck.{Deck};
ghost use Rattle.s38_template.specs.Grammar.{Spells, contexts_part, with_blank, with_feed};
ghost use Rattle.s38_template.specs.Printing.{job_line, printed, printed_budget, printed_jobs, printed_lines, printed_who, stage_part};
ghost use Rattle.s38_template.specs.Reading.{read_of};

use itoa::Buffer;
use s38_base::{Name, NoMemory};
use s38_code::{Deck, Job, Lines, Template};
use std::alloc::Global;

/// The budget that is not printed.
const BUDGET: u32 = 1_000_000;

/// Adds bytes.
fn add(text: &mut Vec<u8>, bytes: &[u8]) -> Result<(), NoMemory>
    ensures { OnOk result (text.new.items ≡ text.old.items ++ bytes.now) }
{
    match text.extend_from_slice(bytes) {
        Ok(()) => Ok(()),
        Err(_) => Err(NoMemory),
    }
}

/// Adds a line and its line feed.
fn add_line(text: &mut Vec<u8>, line: &[u8]) -> Result<(), NoMemory>
    ensures { OnOk result (text.new.items ≡ text.old.items ++ with_feed line.now) }
{
    add(text, line)?;
    add(text, b"\n")?;
    Ok(())
}

/// Adds lines, each with its line feed.
fn add_lines(text: &mut Vec<u8>, lines: Lines<'_>) -> Result<(), NoMemory>
    ensures { OnOk result (text.new.items ≡ text.old.items ++ printed_lines lines.entry) }
{
    for line in lines {
        add_line(text, line)?;
    }
    Ok(())
}

/// Adds a blank and a name.
fn add_name(text: &mut Vec<u8>, name: &Name) -> Result<(), NoMemory>
    ensures { OnOk result (text.new.items ≡ text.old.items ++ with_blank name.now) }
{
    add(text, b" ")?;
    add(text, name.as_bytes())?;
    Ok(())
}

fn add_names(text: &mut Vec<u8>, names: &[Name]) -> Result<(), NoMemory>
    ensures { OnOk result (text.new.items ≡ text.old.items ++ flat_map with_blank names.now) }
{
    for name in names {
        add_name(text, name)?;
    }
    Ok(())
}

/// Adds the contexts of a job, where there are any.
fn add_contexts(text: &mut Vec<u8>, names: &[Name]) -> Result<(), NoMemory>
    ensures { OnOk result (text.new.items ≡ text.old.items ++ contexts_part names.now) }
{
    match names {
        [] => Ok(()),
        [..] => {
            add(text, b" CONTEXTS")?;
            add_names(text, names)?;
            Ok(())
        }
    }
}

/// Adds a number in decimal digits.
fn add_number(text: &mut Vec<u8>, number: u32) -> Result<(), NoMemory>
    ensures { OnOk result (text.new.items ≡ text.old.items ++ decimal number) }
{
    let mut buffer = Buffer::new();
    add(text, buffer.format(number).as_bytes())
}

/// Adds the budget of a job, where it is another than the one that is not printed.
fn add_budget(text: &mut Vec<u8>, budget: u32) -> Result<(), NoMemory>
    ensures { OnOk result (text.new.items ≡ text.old.items ++ printed_budget budget) }
{
    if budget == BUDGET {
        return Ok(());
    }
    add(text, b" BUDGET ")?;
    add_number(text, budget)?;
    Ok(())
}

/// Adds a word and a name.
fn add_word(text: &mut Vec<u8>, word: &[u8], name: &Name) -> Result<(), NoMemory>
    ensures { OnOk result (text.new.items ≡ text.old.items ++ (word.now ++ name.now)) }
{
    add(text, word)?;
    add(text, name.as_bytes())?;
    Ok(())
}

/// Adds who does what: the names of a job, its user and its template.
fn add_who(text: &mut Vec<u8>, job: &Job) -> Result<(), NoMemory>
    ensures { OnOk result (text.new.items ≡ text.old.items ++ printed_who job.now) }
{
    add_word(text, b"JOB ", &job.name)?;
    add_word(text, b" USER ", &job.user)?;
    add_word(text, b" RUN ", &job.template)?;
    Ok(())
}

/// Adds the terms of a job: its budget and its contexts.
fn add_terms(text: &mut Vec<u8>, job: &Job) -> Result<(), NoMemory>
    ensures { OnOk result (text.new.items ≡ text.old.items ++ (printed_budget job.now.budget ++ contexts_part job.now.contexts)) }
{
    add_budget(text, job.budget)?;
    add_contexts(text, job.contexts.as_slice())?;
    Ok(())
}

/// Adds the line of a job.
fn add_job(text: &mut Vec<u8>, job: &Job) -> Result<(), NoMemory>
    ensures { OnOk result (text.new.items ≡ text.old.items ++ with_feed (job_line job.now)) }
{
    add_who(text, job)?;
    add_terms(text, job)?;
    add(text, b"\n")?;
    Ok(())
}

/// Adds the line of a stage, where a job is not of the stage before it.
fn add_stage(text: &mut Vec<u8>, same: bool) -> Result<(), NoMemory>
    ensures { OnOk result (text.new.items ≡ text.old.items ++ stage_part same) }
{
    if same {
        Ok(())
    } else {
        add_line(text, b"STAGE")
    }
}

/// Adds the line of a job after a job of that stage.
fn add_staged(text: &mut Vec<u8>, before: u16, job: &Job) -> Result<(), NoMemory>
    ensures { OnOk result (text.new.items ≡ text.old.items ++ (stage_part (job.now.stage == before) ++ with_feed (job_line job.now))) }
{
    add_stage(text, job.stage == before)?;
    add_job(text, job)?;
    Ok(())
}

/// Adds the lines of jobs, and before the first of each stage the stage's.
fn add_jobs(text: &mut Vec<u8>, jobs: &[Job]) -> Result<(), NoMemory>
    ensures { OnOk result (text.new.items ≡ text.old.items ++ printed_jobs 0 jobs.now) }
{
    let mut before = 0;
    for job in jobs {
        add_staged(text, before, job)?;
        before = job.stage;
    }
    Ok(())
}

/// Adds the lines of templates.
fn add_templates(text: &mut Vec<u8>, templates: &[Template]) -> Result<(), NoMemory>
    ensures { OnOk result (text.new.items ≡ text.old.items ++ flat_map printed_lines templates.now) }
{
    for template in templates {
        add_lines(text, template.lines())?;
    }
    Ok(())
}

/// The text of a template.
pub fn print_template(alloc: Global, template: &Template) -> Result<Vec<u8>, NoMemory>
    ensures { IfOk result (λ text. text.items ≡ printed_lines template.now) }
{
    let mut text = Vec::new(alloc);
    add_lines(&mut text, template.lines())?;
    Ok(text)
}

/// The text of a deck.
pub fn print_deck(alloc: Global, deck: &Deck) -> Result<Vec<u8>, NoMemory>
    ensures { IfOk result (λ text. text.items ≡ printed deck.now) }
{
    let mut text = Vec::new(alloc);
    add_templates(&mut text, deck.templates.as_slice())?;
    add_jobs(&mut text, deck.jobs.as_slice())?;
    Ok(text)
}

/// A deck that some text spells is spelled by its printed text, which is never too long, and is read from it.
pub fn a_printed_deck_is_read()
    ensures spelled { (text : List ℕ) (deck : Deck) → Spells text deck → Spells (printed deck) deck }
    ensures read { (text : List ℕ) (deck : Deck) → Spells text deck → read_of (printed deck) ≡ Ok deck }
{}
