ghost use Rattle.std.specs.Prelude.{◌≡◌};
ghost use Rattle.s38_odt.specs.OperandAttributes.{are_bytes, form_attr, is_attr_of_pointer, is_numeric_attr, item_attr, operand_attr, row_attr};

use s38_base::Attr;
use s38_code::{Arg, Form, Row};

/// The attribute that a declaration gives; None for a description of an exception.
fn form_attr(form: &Form) -> Option<Attr>
    ensures { result ≡ form_attr form.now }
{
    match form {
        Form::Local { attr, .. } => Some(*attr),
        Form::Parm { attr, .. } => Some(*attr),
        Form::Based { attr, .. } => Some(*attr),
        Form::Handler { .. } => None,
    }
}

fn row_attr(rows: &[Row], item: u16) -> Option<Attr>
    ensures { result ≡ row_attr rows.now item }
{
    match rows.get(item as usize) {
        Some(row) => form_attr(&row.form),
        None => None,
    }
}

/// The attribute of an item.
pub fn item_attr(rows: &[Row], arg: &Arg) -> Option<Attr>
    ensures { result ≡ item_attr rows.now arg.now }
{
    match arg {
        Arg::Item(item) => row_attr(rows, *item),
        _ => None,
    }
}

/// The attribute of an item or a literal.
pub fn operand_attr(rows: &[Row], arg: &Arg) -> Option<Attr>
    ensures { result ≡ operand_attr rows.now arg.now }
{
    match arg {
        Arg::Item(item) => row_attr(rows, *item),
        Arg::Literal { attr, .. } => Some(*attr),
        _ => None,
    }
}

pub fn is_number(attr: Option<Attr>) -> bool
    ensures { result ≡ is_numeric_attr attr }
{
    match attr {
        Some(attr) => attr.is_numeric(),
        None => false,
    }
}

/// Every attribute but a pointer's.
pub fn are_bytes(attr: Option<Attr>) -> bool
    ensures { result ≡ are_bytes attr }
{
    match attr {
        Some(attr) => !attr.is_pointer(),
        None => false,
    }
}

pub fn is_pointer(attr: Option<Attr>) -> bool
    ensures { result ≡ is_attr_of_pointer attr }
{
    match attr {
        Some(attr) => attr.is_pointer(),
        None => false,
    }
}
