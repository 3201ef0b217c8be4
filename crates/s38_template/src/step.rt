ghost use Rattle.std.specs.Prelude.{◌≡◌, ◌++◌, ◌∷◌, [], IfOk, IsTrue, OnOk};
ghost use Rattle.s38_template.specs.Grammar.{is_budget};
ghost use Rattle.s38_template.specs.Reading.{has_room, job_of, line_is_in_range, start, taken};
ghost use Rattle.s38_template.specs.declared.said.Line.{Line};
ghost use Rattle.s38_template.specs.Views.{state_of};

use crate::place::Place;
use crate::reader::Reader;
use crate::said::{JobSaid, Line};
use crate::seen::Seen;
use s38_base::{Name, NoMemory, Seq};
use s38_code::{Job, Template, TextLines};
use std::alloc::Global;

/// Nothing was read yet.
#[tactic(auto, unfolding(crate::specs::Reading::start))]
pub fn start(alloc: Global) -> Reader
    ensures { state_of result ≡ start }
{
    Reader {
        place: Place::Between,
        templates: Seq::new(alloc),
        draft: TextLines::new(alloc),
        labels: Seen::new(alloc),
        declared: 0,
        acts: 0,
        names: Seen::new(alloc),
        jobs: Seq::new(alloc),
        job_names: Seen::new(alloc),
        stage: 0,
    }
}

/// A template of this name begins with this line.
#[inline(never)]
fn begin(alloc: Global, reader: &mut Reader, line: &[u8], name: Name) -> Result<(), NoMemory>
    ensures { OnOk result (state_of reader.new ≡ taken (state_of reader.old) line.now (Line.Program name)) }
{
    reader.names.add(alloc, name)?;
    reader.draft = TextLines::new(alloc);
    reader.draft.push(line)?;
    reader.labels = Seen::new(alloc);
    reader.declared = 0;
    reader.acts = 0;
    reader.place = Place::Declaring;
    Ok(())
}

/// The template declares a name.
pub fn declare(
    alloc: Global,
    reader: &mut Reader,
    line: &[u8],
    in_range: bool,
) -> Result<(), NoMemory>
    requires { IsTrue (has_room (state_of reader.old) (Line.Declare in_range)) }
    ensures { OnOk result (state_of reader.new ≡ taken (state_of reader.old) line.now (Line.Declare in_range)) }
{
    reader.draft.push(line)?;
    reader.declared += 1;
    Ok(())
}

/// The template has a label.
#[inline(never)]
fn label(alloc: Global, reader: &mut Reader, line: &[u8], name: Name) -> Result<(), NoMemory>
    ensures { OnOk result (state_of reader.new ≡ taken (state_of reader.old) line.now (Line.Label name)) }
{
    reader.labels.add(alloc, name)?;
    reader.draft.push(line)?;
    reader.place = Place::Acting;
    Ok(())
}

/// The template has an instruction.
#[inline(always)]
pub fn act(alloc: Global, reader: &mut Reader, line: &[u8]) -> Result<(), NoMemory>
    requires { IsTrue (has_room (state_of reader.old) Line.Act) }
    ensures { OnOk result (state_of reader.new ≡ taken (state_of reader.old) line.now Line.Act) }
{
    reader.draft.push(line)?;
    reader.acts += 1;
    reader.place = Place::Acting;
    Ok(())
}

/// The template ends.
#[inline(never)]
fn end(alloc: Global, reader: &mut Reader, line: &[u8]) -> Result<(), NoMemory>
    ensures { OnOk result (state_of reader.new ≡ taken (state_of reader.old) line.now Line.End) }
{
    let mut lines = std::mem::replace(&mut reader.draft, TextLines::new(alloc));
    lines.push(line)?;
    let template = Template::new(alloc, lines)?;
    reader.templates.push(template)?;
    reader.place = Place::Between;
    Ok(())
}

/// A stage begins.
fn begin_stage(reader: &mut Reader)
    ensures { state_of reader.new ≡ taken (state_of reader.old) [] Line.Stage }
{
    reader.place = Place::Begun;
    reader.stage = reader.stage.saturating_add(1);
}

/// The job of a stage that a line says.
fn job_of(stage: u16, said: JobSaid) -> Job
    requires { IsTrue (is_budget said.budget) }
    ensures { result ≡ job_of stage said }
{
    let JobSaid {
        name,
        user,
        template,
        budget,
        contexts,
    } = said;
    Job {
        name,
        user,
        template,
        budget: budget as u32,
        contexts,
        stage,
    }
}

/// A job joins the deck.
#[inline(never)]
fn join(alloc: Global, reader: &mut Reader, said: JobSaid) -> Result<(), NoMemory>
    requires { IsTrue (is_budget said.budget) }
    ensures { OnOk result (state_of reader.new ≡ taken (state_of reader.old) [] (Line.Job said)) }
{
    reader.job_names.add(alloc, said.name)?;
    reader.jobs.push(job_of(reader.stage, said))?;
    reader.place = Place::Staged;
    Ok(())
}

/// A good line of a deck, and what it says.
pub fn take(alloc: Global, reader: &mut Reader, line: &[u8], said: Line) -> Result<(), NoMemory>
    requires room { IsTrue (has_room (state_of reader.old) said) }
    requires range { IsTrue (line_is_in_range said) }
    ensures { OnOk result (state_of reader.new ≡ taken (state_of reader.old) line.now said) }
{
    match said {
        Line::Program(name) => begin(alloc, reader, line, name),
        Line::Declare(in_range) => declare(alloc, reader, line, in_range),
        Line::Label(name) => label(alloc, reader, line, name),
        Line::Act => act(alloc, reader, line),
        Line::End => end(alloc, reader, line),
        Line::Stage => {
            begin_stage(reader);
            Ok(())
        }
        Line::Job(said) => join(alloc, reader, said.into_said()),
    }
}
