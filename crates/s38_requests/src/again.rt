//! Whether operands that were made before are those with which an instruction asks now. What is rare is not looked at,
//! and made anew.
ghost use Rattle.std.specs.Prelude.{◌≡◌, IsTrue};
ghost use Rattle.std.specs.Option.{option_copied};
ghost use Rattle.s38_code.specs.declared.operand.Operand.{Operand};
ghost use Rattle.s38_requests.specs.Requests.{item_by, item_operand, operand_of, operands_of};

use crate::receivers::is_receiver;
use crate::scope::Scope;
use s38_base::{Attr, HeldPointer};
use s38_code::{Arg, Class, Form, Operand, Val};
use s38_local::{form_in, value_bytes, value_of_item, value_pointer};

#[inline(always)]
fn is_value(operand: &Operand, attr: Attr, given: &[u8]) -> bool
    ensures { IsTrue result → operand.now ≡ Operand.Value attr given.now }
{
    match operand {
        Operand::Value { attr: held, bytes } => *held == attr && bytes.as_slice() == given,
        _ => false,
    }
}

#[inline(always)]
fn is_in_space(operand: &Operand, base: HeldPointer, offset: u32, attr: Attr) -> bool
    ensures { IsTrue result → operand.now ≡ Operand.InSpace base offset attr }
{
    match operand {
        Operand::InSpace {
            base: space,
            offset: from,
            attr: held,
        } => space.is_same(base) && *from == offset && *held == attr,
        _ => false,
    }
}

#[inline(always)]
fn is_held(operand: &Operand, receiver: bool, attr: Attr, value: Option<&Val>) -> bool
    ensures { IsTrue result → operand.now ≡ item_operand receiver attr (option_copied value.entry) }
{
    if receiver {
        return matches!(operand, Operand::Receiver { attr: held } if *held == attr);
    }
    match attr {
        Attr::Pointer =>
            matches!(operand, Operand::Ptr(held) if held.is_same(value_pointer(value))),
        _ => is_value(operand, attr, value_bytes(value)),
    }
}

#[inline(always)]
fn is_item(
    operand: &Operand,
    scope: Scope<'_>,
    receiver: bool,
    item: usize,
    form: Option<&Form>,
) -> bool
    ensures { IsTrue result → operand.now ≡ item_by scope.entry.homes.now scope.entry.values.now receiver item (option_copied form.entry) }
{
    let attr = match form {
        Some(Form::Based { base, offset, attr }) => {
            let base = value_pointer(value_of_item(scope.homes, scope.values, *base as usize));
            return is_in_space(operand, base, *offset, *attr);
        }
        Some(Form::Local { attr, .. }) => *attr,
        Some(Form::Parm { attr, .. }) => *attr,
        _ => Attr::Pointer,
    };
    is_held(
        operand,
        receiver,
        attr,
        value_of_item(scope.homes, scope.values, item),
    )
}

#[inline(always)]
fn is_operand(operand: &Operand, scope: Scope<'_>, class: Class, arg: &Arg) -> bool
    ensures { IsTrue result → operand.now ≡ operand_of scope.entry.rows.now scope.entry.homes.now scope.entry.values.now class arg.now }
{
    match arg {
        Arg::Item(item) => {
            let item = *item as usize;
            let form = form_in(scope.rows.get(item));
            is_item(operand, scope, is_receiver(class), item, form)
        }
        Arg::Literal { attr, bytes } => is_value(operand, *attr, bytes.as_slice()),
        Arg::Word(word) => matches!(operand, Operand::Word(held) if held == word),
        Arg::Ident(id) => matches!(operand, Operand::Ident(held) if held == id),
        Arg::Nothing => matches!(operand, Operand::Nothing),
        Arg::ContextList => matches!(operand, Operand::ContextList),
        _ => false,
    }
}

/// Whether these operands are known to be those of an instruction, with the values of the variables put in.
pub fn are_operands(operands: &[Operand], scope: Scope<'_>, classes: &[Class], args: &[Arg]) -> bool
    ensures { IsTrue result → operands.now ≡ operands_of scope.entry.rows.now scope.entry.homes.now scope.entry.values.now classes.now args.now }
{
    let mut left = operands;
    let mut more = classes;
    for arg in args {
        match left {
            [] => return false,
            [operand, others @ ..] => match more {
                [] => return false,
                [class, rest @ ..] => {
                    if !is_operand(operand, scope, *class, arg) {
                        return false;
                    }
                    left = others;
                    more = rest;
                }
            },
        }
    }
    left.is_empty()
}
