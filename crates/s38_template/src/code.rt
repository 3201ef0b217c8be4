ghost use Rattle.std.specs.Prelude.{◌≡◌};
ghost use Rattle.s38_template.specs.Grammar.{is_budget};
ghost use Rattle.s38_template.specs.Reading.{first_code, has_room, has_template, is_small, line_is_in_range, may_come, name_is_new, tests};
ghost use Rattle.s38_template.specs.Views.{state_of};
ghost use Rattle.s38_template.specs.declared.said.Line.{Line};

use crate::place::Place;
use crate::reader::Reader;
use crate::said::Line;

/// The longest deck.
const LONGEST: usize = 4_194_304;

/// The most templates of a deck.
const MOST_TEMPLATES: usize = 1024;

/// The most jobs of a deck.
const MOST_JOBS: usize = 256;

/// The most declarations of a template.
const MOST_DECLARATIONS: u32 = 1024;

/// The most instructions of a template.
const MOST_INSTRUCTIONS: u32 = 16_384;

/// The largest budget.
const MOST_BUDGET: u64 = 10_000_000;

/// Whether such a line may come there.
fn may_come(place: Place, line: &Line) -> bool
    ensures { result ≡ may_come place line.now }
{
    match (place, line) {
        (Place::Between, Line::Program(_) | Line::Stage) => true,
        (Place::Declaring, Line::Declare(_) | Line::Label(_) | Line::Act | Line::End) => true,
        (Place::Acting, Line::Label(_) | Line::Act | Line::End) => true,
        (Place::Begun, Line::Job(_)) => true,
        (Place::Staged, Line::Job(_) | Line::Stage) => true,
        _ => false,
    }
}

/// Whether the name of a template, a label or a job was not there before.
fn is_new(reader: &Reader, line: &Line) -> bool
    ensures { result ≡ name_is_new (state_of reader.now) line.now }
{
    match line {
        Line::Program(name) => !reader.names.has(name),
        Line::Label(name) => !reader.labels.has(name),
        Line::Job(said) => !reader.job_names.has(&said.said().name),
        _ => true,
    }
}

fn is_budget(budget: u64) -> bool
    ensures { result ≡ is_budget budget }
{
    1 <= budget && budget <= MOST_BUDGET
}

/// Whether the numbers of a line are in their ranges.
fn is_in_range(line: &Line) -> bool
    ensures { result ≡ line_is_in_range line.now }
{
    match line {
        Line::Declare(in_range) => *in_range,
        Line::Job(said) => is_budget(said.said().budget),
        _ => true,
    }
}

/// Whether a deck may have so many bytes.
pub fn is_small(size: usize) -> bool
    ensures { result ≡ is_small size }
{
    size <= LONGEST
}

/// Whether the limits allow one more.
fn has_room(reader: &Reader, line: &Line) -> bool
    ensures { result ≡ has_room (state_of reader.now) line.now }
{
    match line {
        Line::Program(_) => reader.templates.len() < MOST_TEMPLATES,
        Line::Declare(_) => reader.declared < MOST_DECLARATIONS,
        Line::Act => reader.acts < MOST_INSTRUCTIONS,
        Line::Job(_) => reader.jobs.len() < MOST_JOBS,
        _ => true,
    }
}

/// Whether the template of a job is in the deck.
fn has_template(reader: &Reader, line: &Line) -> bool
    ensures { result ≡ has_template (state_of reader.now) line.now }
{
    match line {
        Line::Job(said) => reader.names.has(&said.said().template),
        _ => true,
    }
}

/// The least code of a line that says this, where the deck has so many bytes up to its end.
pub fn line_code(reader: &Reader, size: usize, line: &Line) -> Option<u8>
    ensures { result ≡ first_code (tests (state_of reader.now) size line.now) }
{
    if !may_come(reader.place, line) {
        Some(2)
    } else if !is_new(reader, line) {
        Some(3)
    } else if !is_in_range(line) {
        Some(4)
    } else if !is_small(size) {
        Some(6)
    } else if !has_room(reader, line) {
        Some(7)
    } else if !has_template(reader, line) {
        Some(8)
    } else {
        None
    }
}

/// The least code of an instruction's line, where the deck has so many bytes up to its end.
pub fn act_code(reader: &Reader, size: usize) -> Option<u8>
    ensures { result ≡ first_code (tests (state_of reader.now) size Line.Act) }
{
    if !may_come(reader.place, &Line::Act) {
        Some(2)
    } else if !is_small(size) {
        Some(6)
    } else if reader.acts >= MOST_INSTRUCTIONS {
        Some(7)
    } else {
        None
    }
}

/// The least code of a declaration's line, where the deck has so many bytes up to its end.
pub fn declare_code(reader: &Reader, size: usize, in_range: bool) -> Option<u8>
    ensures { result ≡ first_code (tests (state_of reader.now) size (Line.Declare in_range)) }
{
    if !may_come(reader.place, &Line::Declare(in_range)) {
        Some(2)
    } else if !in_range {
        Some(4)
    } else if !is_small(size) {
        Some(6)
    } else if reader.declared >= MOST_DECLARATIONS {
        Some(7)
    } else {
        None
    }
}
