//! Short ways to operands: variables and parameters that hold packed numbers of up to 18 digits, and such literals.
ghost use Rattle.std.specs.Prelude.{◌≡◌, ◌<◌, ◌^◌, IfSome, Some, unsigned_abs};
ghost use Rattle.std.specs.Option.{option_copied};
ghost use Rattle.s38_local.specs.Local.{argument_number};
ghost use Rattle.s38_local.specs.Variables.{argument_attr, argument_bytes, attr_in, item_place, value_at, value_bytes};

use s38_base::Attr;
use s38_code::{Arg, Form, Row, Val};
use s38_decimal::{Dec, read_short};

/// The attribute of a variable or a parameter.
#[inline(always)]
fn own_attr(row: Option<&Row>) -> Option<Attr>
    ensures { IfSome result (λ attr. attr ≡ attr_in (option_copied row.entry)) }
{
    match row {
        None => None,
        Some(row) => match &row.form {
            Form::Local { attr, .. } | Form::Parm { attr, .. } => Some(*attr),
            _ => None,
        },
    }
}

/// The bytes of the variable at a place.
#[inline(always)]
fn own_bytes(values: &[Val], at: usize) -> Option<&[u8]>
    ensures { IfSome result (λ bytes. bytes.now ≡ value_bytes (value_at values.now (Some at))) }
{
    match values.get(at) {
        Some(Val::Bytes(bytes)) => Some(bytes.as_slice()),
        _ => None,
    }
}

/// The attribute and the place of a variable or a parameter.
#[inline(always)]
pub fn own_place(rows: &[Row], homes: &[usize], arg: Option<&Arg>) -> Option<(Attr, usize)>
    ensures attr { IfSome result (λ place. place.0 ≡ argument_attr rows.now (option_copied arg.entry)) }
    ensures place { IfSome result (λ place. item_place homes.now (option_copied arg.entry) ≡ Some place.1) }
{
    match arg {
        Some(Arg::Item(item)) => {
            let k = *item as usize;
            let attr = own_attr(rows.get(k))?;
            let at = homes.get(k).copied()?;
            Some((attr, at))
        }
        _ => None,
    }
}

/// The number of a variable, a parameter or a literal, where it is short.
#[inline(always)]
pub fn short_of(rows: &[Row], homes: &[usize], values: &[Val], arg: Option<&Arg>) -> Option<Dec>
    ensures units { IfSome result (λ d. argument_number rows.now homes.now values.now (option_copied arg.entry) ≡ Some d.units) }
    ensures attr { IfSome result (λ d. d.attr ≡ argument_attr rows.now (option_copied arg.entry)) }
    ensures few { IfSome result (λ d. unsigned_abs d.units < 10 ^ 18) }
{
    match arg {
        Some(Arg::Literal { attr, bytes }) => read_short(*attr, bytes.as_slice()),
        _ => {
            let (attr, at) = own_place(rows, homes, arg)?;
            let bytes = own_bytes(values, at)?;
            read_short(attr, bytes)
        }
    }
}
