//! The body of a program: the text of its template.
ghost use Rattle.std.specs.Prelude.{◌≡◌, IfErr, IfOk};
ghost use Rattle.s38_codec.specs.Reading.{Gives};
ghost use Rattle.s38_create.specs.Created.{program_created};
ghost use Rattle.s38_image.specs.Pages.{same_list};
ghost use Rattle.s38_image.specs.Programs.{only_template, program_form, program_of, template_spelled_in};
ghost use Rattle.s38_template.specs.Printing.{printed_lines};
ghost use Rattle.s38_template.specs.Reading.{read_of};

use s38_code::{Code, CreateFault, Deck, Program, Template};
use s38_codec::ReadFault;
use s38_create::create;
use s38_template::{DeckFault, print_template, read_deck};
use std::alloc::Global;

/// The only template of a deck that has no jobs.
fn only_template(deck: Deck) -> Result<Template, ReadFault>
    ensures { Gives (λ template. template) result (only_template deck.templates deck.jobs) }
{
    if deck.jobs.len() != 0 || deck.templates.len() != 1 {
        return Err(ReadFault::BadForm);
    }
    match deck.templates.into_vec().pop() {
        Some(template) => Ok(template),
        None => Err(ReadFault::BadForm),
    }
}

/// The template of a text that is a deck of one template and no jobs.
fn template_in(alloc: Global, text: &[u8]) -> Result<Template, ReadFault>
    ensures { Gives (λ template. template) result (template_spelled_in (read_of text.now)) }
{
    match read_deck(alloc, text) {
        Ok(deck) => only_template(deck),
        Err(DeckFault::NoMemory) => Err(ReadFault::NoMemory),
        Err(DeckFault::Bad { .. }) => Err(ReadFault::BadForm),
    }
}

/// Whether a template is printed so.
fn is_printed(alloc: Global, template: &Template, text: &[u8]) -> Result<bool, ReadFault>
    ensures ok { IfOk result (λ is. is ≡ same_list (printed_lines template.now) text.now) }
    ensures err { IfErr result (λ fault. fault ≡ ReadFault.NoMemory) }
{
    let printed = print_template(alloc, template)?;
    Ok(printed.as_slice() == text)
}

/// The program of a template.
fn program_of(alloc: Global, template: &Template) -> Result<Program, ReadFault>
    ensures { Gives (λ program_form. program_form) result (program_of (program_created template.now)) }
{
    match create(alloc, template) {
        Ok(program) => Ok(program),
        Err(CreateFault::NoMemory) => Err(ReadFault::NoMemory),
        Err(CreateFault::Bad { .. }) => Err(ReadFault::BadForm),
    }
}

/// The program of the template that the bytes of a body spell, as it is printed.
pub fn program_in(alloc: Global, bytes: &[u8]) -> Result<Code, ReadFault>
    ensures { Gives (λ code. code) result (program_form.read bytes.now) }
{
    let template = template_in(alloc, bytes)?;
    if !is_printed(alloc, &template, bytes)? {
        return Err(ReadFault::BadForm);
    }
    let program = program_of(alloc, &template)?;
    let code = Code::new(alloc, program)?;
    Ok(code)
}
