//! The deck's templates, from which programs are made.
ghost use Rattle.std.specs.Prelude.{◌≡◌, find, nat_lt, sum_by};
ghost use Rattle.std.specs.Option.{option_copied, option_map};
ghost use Rattle.s38_programs.specs.Rooms.{room_after, room_after_line};
ghost use Rattle.s38_rules.specs.store.Room.{line_size};
ghost use Rattle.s38_rules.specs.families.Programs.{program_by, program_in, refused_in, size_in, template_in, template_is_named, template_rule};

use s38_base::exceptions::TEMPLATE_MISSING;
use s38_base::{Exception, Name, Rule};
use s38_code::{CheckedTemplate, Code, CreateResult, Lines, Operand};

fn is_named(template: &CheckedTemplate, name: &Name) -> bool
    ensures { result ≡ template_is_named name.now template.now }
{
    template.name.as_bytes() == name.as_bytes()
}

/// The first template of a name.
fn find_named<'a>(templates: &'a [CheckedTemplate], name: &Name) -> Option<&'a CheckedTemplate>
    ensures { option_copied result ≡ find (template_is_named name.now) templates.now }
{
    templates.iter().find(|template| is_named(template, name))
}

/// The template that an operand names.
pub fn template_in<'a>(
    templates: &'a [CheckedTemplate],
    operand: Option<&Operand>,
) -> Option<&'a CheckedTemplate>
    ensures { option_copied result ≡ template_in templates.now (option_copied operand.entry) }
{
    match operand {
        Some(Operand::Text(name)) => find_named(templates, name),
        _ => None,
    }
}

fn program_by(created: &CreateResult) -> Option<&Code>
    ensures { option_map (λ code. code.now) result ≡ program_by created.now }
{
    match created {
        CreateResult::Created(code) => Some(code),
        CreateResult::Refused { .. } => None,
    }
}

/// The program that a template makes.
pub fn program_in(template: Option<&CheckedTemplate>) -> Option<&Code>
    ensures { option_map (λ code. code.now) result ≡ program_in (option_copied template.entry) }
{
    match template {
        None => None,
        Some(template) => program_by(&template.made),
    }
}

fn refused_in(created: &CreateResult) -> Option<Exception>
    ensures { result ≡ refused_in created.now }
{
    match created {
        CreateResult::Created(_) => None,
        CreateResult::Refused { id, number } => Some(Exception {
            id: *id,
            operand: 5,
            rule: Rule::Creation { number: *number },
        }),
    }
}

/// The deck has the template, and creation makes a program of it.
pub fn template_rule(template: Option<&CheckedTemplate>) -> Option<Exception>
    ensures { result ≡ template_rule (option_copied template.entry) }
{
    match template {
        None => Some(Exception::plain(TEMPLATE_MISSING, 5)),
        Some(template) => refused_in(&template.made),
    }
}

// ---- the size of a program's text

/// What is left of a room after a line and its line feed; None once a line did not fit.
fn room_after_line(room: Option<u32>, line: &[u8]) -> Option<u32>
    ensures { result ≡ room_after_line room line.now }
{
    let room = room?;
    if (room as usize) <= line.len() {
        return None;
    }
    Some(room - (line.len() as u32 + 1))
}

fn room_after(lines: Lines<'_>, room: Option<u32>) -> Option<u32>
    ensures { result ≡ room_after room lines.entry }
{
    let mut left = room;
    for line in lines {
        left = room_after_line(left, line);
    }
    left
}

/// Whether lines, each with its line feed, are longer than so many bytes.
fn are_longer(lines: Lines<'_>, limit: u32) -> bool
    ensures { result ≡ nat_lt limit (sum_by line_size lines.entry) }
{
    room_after(lines, Some(limit)).is_none()
}

/// Whether the image of the program that a template makes is longer than so many bytes.
pub fn is_larger(template: Option<&CheckedTemplate>, limit: u32) -> bool
    ensures { result ≡ nat_lt limit (size_in (option_copied template.entry)) }
{
    match program_in(template) {
        None => false,
        Some(code) => are_longer(code.program().template.lines(), limit),
    }
}
