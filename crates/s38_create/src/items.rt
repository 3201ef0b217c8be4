ghost use Rattle.std.specs.Prelude.{◌≡◌};
ghost use Rattle.std.specs.Option.{option_copied};
ghost use Rattle.s38_odt.specs.Suits.{item_suits};
ghost use Rattle.s38_odt.specs.OperandAttributes.{are_cells, can_be_passed, has_cells, is_handler, item_row};
ghost use Rattle.s38_odt.specs.OperandRules.{is_two_local_bytes};
ghost use Rattle.s38_odt.specs.Table.{is_parameter};

use s38_base::Attr;
use s38_code::{Arg, Form, Row};

/// The declaration of an item.
fn row_of<'a>(rows: &'a [Row], arg: &Arg) -> Option<&'a Row>
    ensures { option_copied result ≡ item_row rows.now arg.now }
{
    match arg {
        Arg::Item(item) => rows.get(*item as usize),
        _ => None,
    }
}

/// Bytes that fill cells, or a pointer.
fn are_cells(attr: Attr) -> bool
    ensures { result ≡ are_cells attr }
{
    match attr {
        Attr::Chars { len } => len % 16 == 0,
        Attr::Pointer => true,
        _ => false,
    }
}

/// A pointer, or bytes in a space that fill cells.
fn has_cells(form: &Form) -> bool
    ensures { result ≡ has_cells form.now }
{
    match form {
        Form::Local { attr, .. } => attr.is_pointer(),
        Form::Parm { attr, .. } => attr.is_pointer(),
        Form::Based { attr, .. } => are_cells(*attr),
        Form::Handler { .. } => false,
    }
}

fn is_two_local_bytes(form: &Form) -> bool
    ensures { result ≡ is_two_local_bytes form.now }
{
    match form {
        Form::Local {
            attr: Attr::Chars { len },
            ..
        } => *len == 2,
        _ => false,
    }
}

/// The item is a pointer, or bytes in a space that fill cells.
pub fn item_has_cells(rows: &[Row], arg: &Arg) -> bool
    ensures { result ≡ item_suits has_cells rows.now arg.now }
{
    match row_of(rows, arg) {
        Some(row) => has_cells(&row.form),
        None => false,
    }
}

/// The item is a description of an exception.
pub fn item_is_handler(rows: &[Row], arg: &Arg) -> bool
    ensures { result ≡ item_suits is_handler rows.now arg.now }
{
    match row_of(rows, arg) {
        Some(row) => matches!(row.form, Form::Handler { .. }),
        None => false,
    }
}

/// The item is a variable or a parameter.
pub fn item_can_be_passed(rows: &[Row], arg: &Arg) -> bool
    ensures { result ≡ item_suits can_be_passed rows.now arg.now }
{
    match row_of(rows, arg) {
        Some(row) => matches!(row.form, Form::Local { .. } | Form::Parm { .. }),
        None => false,
    }
}

/// The item is a parameter.
pub fn item_is_parameter(rows: &[Row], arg: &Arg) -> bool
    ensures { result ≡ item_suits is_parameter rows.now arg.now }
{
    match row_of(rows, arg) {
        Some(row) => matches!(row.form, Form::Parm { .. }),
        None => false,
    }
}

/// The item is a variable of two bytes.
pub fn item_is_two_local_bytes(rows: &[Row], arg: &Arg) -> bool
    ensures { result ≡ item_suits is_two_local_bytes rows.now arg.now }
{
    match row_of(rows, arg) {
        Some(row) => is_two_local_bytes(&row.form),
        None => false,
    }
}
