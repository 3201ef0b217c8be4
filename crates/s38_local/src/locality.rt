ghost use Rattle.std.specs.Prelude.{◌≡◌};
ghost use Rattle.std.specs.List.{list_any};
ghost use Rattle.std.specs.Option.{option_copied};
ghost use Rattle.s38_local.specs.Local.{declares_space, is_local, is_local_op, lies_in_space};
ghost use Rattle.s38_local.specs.Variables.{form_in, is_based};

use crate::way::{Way, way_of};
use s38_base::Op;
use s38_code::{Arg, Form, Instruction, Row};

/// A computation, or what goes on elsewhere or looks at the descriptions of exceptions.
#[inline(always)]
fn is_local_op(op: Op) -> bool
    ensures { result ≡ is_local_op op }
{
    !matches!(way_of(op), Way::Shared)
}

fn form_in(row: Option<&Row>) -> Option<&Form>
    ensures { option_copied result ≡ form_in (option_copied row.entry) }
{
    match row {
        None => None,
        Some(row) => Some(&row.form),
    }
}

fn is_based(form: Option<&Form>) -> bool
    ensures { result ≡ is_based (option_copied form.entry) }
{
    matches!(form, Some(Form::Based { .. }))
}

fn lies_in_space(rows: &[Row], arg: &Arg) -> bool
    ensures { result ≡ lies_in_space rows.now arg.now }
{
    match arg {
        Arg::Item(item) => is_based(form_in(rows.get(*item as usize))),
        _ => false,
    }
}

fn any_in_space(rows: &[Row], args: &[Arg]) -> bool
    ensures { result ≡ list_any (lies_in_space rows.now) args.now }
{
    args.iter().any(|arg| lies_in_space(rows, arg))
}

/// Whether some item is declared to lie in a space.
pub fn declares_space(rows: &[Row]) -> bool
    ensures { result ≡ declares_space rows.now }
{
    rows.iter().any(|row| is_based(Some(&row.form)))
}

/// Whether an instruction is done by the process itself: it is of a local operation, and no operand lies in a space.
#[inline(never)]
#[tactic(auto, unfolding(crate::specs::Local::is_local))]
pub fn is_local(rows: &[Row], instruction: &Instruction) -> bool
    ensures { result ≡ is_local rows.now instruction.now }
{
    is_local_op(instruction.op) && !any_in_space(rows, instruction.args.as_slice())
}

/// The same, by whether the declarations have an item in a space: only then are the operands looked at.
#[inline(always)]
#[tactic(auto, using(crate::proofs::SpaceLaws::local_where_none))]
pub fn is_local_by(in_spaces: bool, rows: &[Row], instruction: &Instruction) -> bool
    requires { in_spaces ≡ declares_space rows.now }
    ensures { result ≡ is_local rows.now instruction.now }
{
    if in_spaces {
        is_local(rows, instruction)
    } else {
        is_local_op(instruction.op)
    }
}
