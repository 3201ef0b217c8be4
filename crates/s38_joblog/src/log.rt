ghost use Rattle.std.specs.Prelude.{◌≡◌, ◌+◌, ◌<◌, ◌++◌, [], codes, length, slice_set, IfOk, OnOk};
ghost use Rattle.std.specs.List.{flat_map, slice_index_or};
ghost use Rattle.s38_joblog.specs.Log.{bad_line, done_text, entry_line, event_name, job_head_line, last_line, log_text, result_text};
ghost use Rattle.s38_joblog.specs.Grouped.{AreGrouped, Gains, heads};
ghost use Rattle.s38_joblog.specs.Words.{value_text};

use crate::text::Text;
use crate::words::{add_cause, add_exception, add_value};
use s38_base::NoMemory;
use s38_code::{Entry, Event, Job, Reply, Val, mnemonic};
use std::alloc::Global;

fn add_event_name(text: &mut Text, event: &Event) -> Result<(), NoMemory>
    ensures { OnOk result (text.new ≡ text.old ++ event_name event.now) }
{
    match event {
        Event::Start => text.add(b"START"),
        Event::Act { request, .. } => text.add(mnemonic(request.op)),
        Event::Finish { .. } => text.add(b"FINISH"),
    }
}

/// Adds values, each after a blank.
fn add_values(text: &mut Text, values: &[Val]) -> Result<(), NoMemory>
    ensures { OnOk result (text.new ≡ text.old ++ flat_map value_text values.now) }
{
    for value in values {
        add_value(text, value)?;
    }
    Ok(())
}

/// Adds OK and the values.
fn add_ok(text: &mut Text, values: &[Val]) -> Result<(), NoMemory>
    ensures { OnOk result (text.new ≡ text.old ++ (codes "OK" ++ flat_map value_text values.now)) }
{
    text.add(b"OK")?;
    add_values(text, values)
}

fn add_done(text: &mut Text, event: &Event, values: &[Val]) -> Result<(), NoMemory>
    ensures { OnOk result (text.new ≡ text.old ++ done_text event.now values.now) }
{
    match event {
        Event::Finish { cause } => add_cause(text, *cause),
        _ => add_ok(text, values),
    }
}

fn add_result(alloc: Global, text: &mut Text, event: &Event, reply: &Reply) -> Result<(), NoMemory>
    ensures { OnOk result (text.new ≡ text.old ++ result_text event.now reply.now) }
{
    match reply {
        Reply::Done(values) => add_done(text, event, values.as_slice()),
        Reply::Signal(exception) => add_exception(alloc, text, *exception),
        Reply::MustWait => text.add(b"WAIT"),
    }
}

/// Adds an entry's line: its position, its name and its result.
#[tactic(auto, unfolding(crate::specs::Log::entry_line))]
fn add_entry_line(
    alloc: Global,
    text: &mut Text,
    position: u64,
    entry: &Entry,
) -> Result<(), NoMemory>
    ensures { OnOk result (text.new ≡ text.old ++ entry_line position entry.now) }
{
    text.add_number(position)?;
    text.add_byte(b' ')?;
    add_event_name(text, &entry.event)?;
    text.add_byte(b' ')?;
    add_result(alloc, text, &entry.event, &entry.reply)?;
    text.add_byte(b'\n')
}

/// Adds a job's line: its number, its name and its user.
#[tactic(auto, unfolding(crate::specs::Log::job_head_line))]
fn add_job_line(text: &mut Text, number: u64, job: &Job) -> Result<(), NoMemory>
    ensures { OnOk result (text.new ≡ text.old ++ job_head_line number job.now) }
{
    text.add(b"JOB ")?;
    text.add_number(number)?;
    text.add(b" ")?;
    text.add(job.name.as_bytes())?;
    text.add(b" USER ")?;
    text.add(job.user.as_bytes())?;
    text.add(b"\n")
}

/// A text with a job's line.
fn begun_text(alloc: Global, number: u64, job: &Job) -> Result<Text, NoMemory>
    ensures { IfOk result (λ text. text ≡ job_head_line number job.now) }
{
    let mut text = Text::new(alloc);
    add_job_line(&mut text, number, job)?;
    Ok(text)
}

/// A text for each job, which begins with the job's line.
fn begun_texts(alloc: Global, jobs: &[Job]) -> Result<Vec<Text>, NoMemory>
    ensures { IfOk result (λ texts. texts.items ≡ heads jobs.now) }
{
    let mut texts = Vec::new(alloc);
    for (k, job) in jobs.iter().enumerate() {
        let text = begun_text(alloc, k as u64 + 1, job)?;
        texts.push(text)?;
    }
    Ok(texts)
}

/// Adds an entry's line to the text at a place.
fn add_line_at(
    alloc: Global,
    texts: &mut Vec<Text>,
    at: usize,
    position: u64,
    entry: &Entry,
) -> Result<(), NoMemory>
    requires { at < length texts.old.items }
    ensures { OnOk result (texts.new.items ≡ slice_set texts.old.items at (slice_index_or texts.old.items at [] ++ entry_line position entry.now)) }
{
    add_entry_line(alloc, &mut texts[at], position, entry)
}

/// Adds an entry's line to the text of its process; an entry of no job adds none.
fn add_line(
    alloc: Global,
    texts: &mut Vec<Text>,
    position: u64,
    entry: &Entry,
) -> Result<(), NoMemory>
    ensures { OnOk result (Gains position entry.now texts.old.items texts.new.items) }
{
    if entry.process == 0 || entry.process as usize > texts.len() {
        return Ok(());
    }
    add_line_at(alloc, texts, entry.process as usize - 1, position, entry)
}

/// Each job's line, and the lines of its process.
fn grouped(alloc: Global, history: &[Entry], jobs: &[Job]) -> Result<Vec<Text>, NoMemory>
    ensures count { IfOk result (λ texts. length texts.items ≡ length jobs.now) }
    ensures lines { IfOk result (λ texts. AreGrouped (heads jobs.now) history.now texts.items) }
{
    let mut texts = begun_texts(alloc, jobs)?;
    for (k, entry) in history.iter().enumerate() {
        add_line(alloc, &mut texts, k as u64 + 1, entry)?;
    }
    Ok(texts)
}

/// The texts one after another. Each is dropped once it was added, and the first is not copied.
fn joined(alloc: Global, texts: Vec<Text>) -> Result<Text, NoMemory>
    ensures { IfOk result (λ text. text ≡ flat_map (λ t. t) texts.items) }
{
    let mut whole = Text::new(alloc);
    for text in texts {
        whole.join(text)?;
    }
    Ok(whole)
}

/// The log of a history: for each job in order a line with its number, from 1 on, its name and its user;
/// and then, for each entry of its process in order, a line with the position in the whole history, from 1
/// on, the name and the result.
#[tactic(auto, unfolding(crate::specs::Log::log_text))]
pub fn log_text(alloc: Global, history: &[Entry], jobs: &[Job]) -> Result<Vec<u8>, NoMemory>
    ensures { IfOk result (λ text. text.items ≡ log_text history.now jobs.now) }
{
    let texts = grouped(alloc, history, jobs)?;
    let whole = joined(alloc, texts)?;
    Ok(whole.into_bytes())
}

/// The last line of a run that was good: DONE and a count.
pub fn last_line(alloc: Global, count: u64) -> Result<Vec<u8>, NoMemory>
    ensures { IfOk result (λ text. text.items ≡ last_line count) }
{
    let mut text = Text::new(alloc);
    text.add(b"DONE ")?;
    text.add_number(count)?;
    text.add(b"\n")?;
    Ok(text.into_bytes())
}

/// The line of a text that is no deck: the number of its first bad line, and the code.
pub fn bad_line(alloc: Global, line: u32, code: u8) -> Result<Vec<u8>, NoMemory>
    ensures { IfOk result (λ text. text.items ≡ bad_line line code) }
{
    let mut text = Text::new(alloc);
    text.add(b"BAD DECK ")?;
    text.add_number(u64::from(line))?;
    text.add(b" ")?;
    text.add_number(u64::from(code))?;
    text.add(b"\n")?;
    Ok(text.into_bytes())
}
