ghost use Rattle.std.specs.Prelude.{◌≡◌, ◌≤◌, IsTrue, IfOk, None, length};
ghost use Rattle.std.specs.Option.{option_map};
ghost use Rattle.s38_odt.specs.First.{initial_bytes};
ghost use Rattle.s38_odt.specs.Labels.{label_in};
ghost use Rattle.s38_odt.specs.Places.{IsTied};
ghost use Rattle.s38_odt.specs.Table.{attribute_bounded, base_in, based_form, checked_form, form_of, handler_form, is_bounded_line, parameter_count, parameter_form, place_in, row_made, variable_form};

use crate::first::first;
use crate::labels::CodeLines;
use crate::places::{Declared, base, is_declared, parameter_count};
use s38_base::{Attr, Name, NoMemory, exceptions};
use s38_code::{Form, Row};
use s38_words::{Declares, declaration, initial, is_in_range};
use std::alloc::Global;

fn attribute_bounded(declares: &Declares) -> bool
    ensures { result ≡ attribute_bounded declares.now }
{
    match declares {
        Declares::Variable { attr } => attr.is_bounded(),
        Declares::Parameter { attr, .. } => attr.is_bounded(),
        Declares::BasedItem { attr, .. } => attr.is_bounded(),
        Declares::Description { .. } => true,
    }
}

/// Its attribute keeps its bounds, and its numbers their ranges.
fn is_bounded_line(declares: &Declares) -> bool
    ensures { result ≡ is_bounded_line declares.now }
{
    is_in_range(declares) && attribute_bounded(declares)
}

/// A variable with its first bytes; refused where its attribute does not hold the literal exactly.
fn variable(
    alloc: Global,
    attr: Attr,
    literal: Option<&[u8]>,
) -> Result<Result<Form, u16>, NoMemory>
    ensures { IfOk result (λ form. form ≡ variable_form attr (initial_bytes attr (option_map (λ text. text.now) literal.entry))) }
{
    match first(alloc, attr, literal)? {
        Some(first) => Ok(Ok(Form::Local { attr, first })),
        None => Ok(Err(exceptions::DECLARATION_INVALID)),
    }
}

/// A parameter; refused where its number is not the next one.
fn parameter(rows: &[Row], k: u64, attr: Attr) -> Result<Form, u16>
    requires { k ≤ 16 }
    ensures { result ≡ parameter_form rows.now k attr }
{
    if k == parameter_count(rows) as u64 + 1 {
        Ok(Form::Parm { k: k as u8, attr })
    } else {
        Err(exceptions::NAME_INVALID)
    }
}

/// An item in a space; refused where its base is no pointer that is declared.
fn based(declared: &Declared, name: &Name, offset: u32, attr: Attr) -> Result<Form, u16>
    requires { IsTied declared.now.places declared.now.rows.items }
    ensures { result ≡ based_form offset attr (base_in declared.now.rows.items name.now) }
{
    match base(declared, name) {
        Some(base) => Ok(Form::Based { base, offset, attr }),
        None => Err(exceptions::NAME_INVALID),
    }
}

/// A description of an exception; refused where the code has no such label.
fn handler(code: &CodeLines<'_>, taken: Option<u16>, label: &Name) -> Result<Form, u16>
    ensures { result ≡ handler_form taken (label_in code.now label.now) }
{
    match code.place(label) {
        Some(at) => Ok(Form::Handler { code: taken, at }),
        None => Err(exceptions::NAME_INVALID),
    }
}

/// What a bounded line makes of its name, or the cause for which it is refused.
#[tactic(auto, unfolding(crate::specs::Table::form_of))]
fn form(
    alloc: Global,
    code: &CodeLines<'_>,
    declared: &Declared,
    literal: Option<&[u8]>,
    declares: &Declares,
) -> Result<Result<Form, u16>, NoMemory>
    requires tied { IsTied declared.now.places declared.now.rows.items }
    requires bounded { IsTrue (is_bounded_line declares.now) }
    ensures { IfOk result (λ form. form ≡ form_of code.now declared.now.rows.items (option_map (λ text. text.now) literal.entry) declares.now) }
{
    match declares {
        Declares::Variable { attr } => variable(alloc, *attr, literal),
        Declares::Parameter { k, attr } => Ok(parameter(declared.rows.as_slice(), *k, *attr)),
        Declares::BasedItem { base, offset, attr } => {
            Ok(based(declared, base, *offset as u32, *attr))
        }
        Declares::Description { code: taken, label } => Ok(handler(code, *taken, label)),
    }
}

fn checked_form(
    alloc: Global,
    code: &CodeLines<'_>,
    declared: &Declared,
    literal: Option<&[u8]>,
    declares: &Declares,
) -> Result<Result<Form, u16>, NoMemory>
    requires { IsTied declared.now.places declared.now.rows.items }
    ensures { IfOk result (λ form. form ≡ checked_form code.now declared.now.rows.items (option_map (λ text. text.now) literal.entry) declares.now) }
{
    if is_bounded_line(declares) {
        form(alloc, code, declared, literal, declares)
    } else {
        Ok(Err(exceptions::DECLARATION_INVALID))
    }
}

/// The row that a line makes after those that are declared and before the code, or the cause for which it is
/// refused.
#[tactic(auto, unfolding(crate::specs::Table::row_made))]
pub fn row(
    alloc: Global,
    code: &CodeLines<'_>,
    declared: &Declared,
    line: &[u8],
) -> Result<Result<Row, u16>, NoMemory>
    requires { IsTied declared.now.places declared.now.rows.items }
    ensures row { IfOk result (λ answer. answer ≡ row_made code.now declared.now.rows.items line.now) }
    ensures new { IfOk result (λ answer. IfOk answer (λ row. place_in declared.now.rows.items row.name ≡ None)) }
{
    let Some(declared_line) = declaration(line) else {
        return Ok(Err(exceptions::DECLARATION_INVALID));
    };
    match checked_form(
        alloc,
        code,
        declared,
        initial(line),
        &declared_line.declares,
    )? {
        Err(cause) => Ok(Err(cause)),
        Ok(form) => if is_declared(declared, &declared_line.name) {
            Ok(Err(exceptions::NAME_INVALID))
        } else {
            Ok(Ok(Row {
                name: declared_line.name,
                form,
            }))
        },
    }
}
