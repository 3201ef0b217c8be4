//! The operands of an instruction, made anew.
ghost use Rattle.std.specs.Prelude.{◌≡◌, ◌++◌, ◌∷◌, [], IfOk, OnOk};
ghost use Rattle.std.specs.Option.{option_copied};
ghost use Rattle.s38_code.specs.Operations.{classes};
ghost use Rattle.s38_code.specs.declared.operand.Operand.{Operand};
ghost use Rattle.s38_requests.specs.Requests.{item_by, item_operand, operand_of, operand_source, operands_of};

use crate::receivers::is_receiver;
use crate::scope::Scope;
use s38_base::{Attr, AttrList, Bytes, NoMemory, Seq};
use s38_code::{Arg, Class, Form, Instruction, Operand, Operands, Val, classes};
use s38_local::{form_in, value_bytes, value_of_item, value_pointer};
use std::alloc::Global;

/// Adds an operand where it is made, which spares a copy of it.
#[inline(always)]
fn add(made: &mut Vec<Operand>, operand: Operand) -> Result<(), NoMemory>
    ensures { OnOk result (made.new.items ≡ made.old.items ++ operand ∷ []) }
{
    match made.push(operand) {
        Ok(()) => Ok(()),
        Err(_) => Err(NoMemory),
    }
}

#[inline(always)]
fn add_bytes(
    alloc: Global,
    made: &mut Vec<Operand>,
    attr: Attr,
    given: &[u8],
) -> Result<(), NoMemory>
    ensures { OnOk result (made.new.items ≡ made.old.items ++ Operand.Value attr given.now ∷ []) }
{
    match Bytes::from_slice(alloc, given) {
        Ok(bytes) => add(made, Operand::Value { attr, bytes }),
        Err(fault) => Err(fault),
    }
}

#[inline(always)]
fn add_source(
    alloc: Global,
    made: &mut Vec<Operand>,
    attr: Attr,
    value: Option<&Val>,
) -> Result<(), NoMemory>
    ensures { OnOk result (made.new.items ≡ made.old.items ++ operand_source attr (option_copied value.entry) ∷ []) }
{
    match attr {
        Attr::Pointer => add(made, Operand::Ptr(value_pointer(value))),
        _ => add_bytes(alloc, made, attr, value_bytes(value)),
    }
}

#[inline(always)]
fn add_held(
    alloc: Global,
    made: &mut Vec<Operand>,
    receiver: bool,
    attr: Attr,
    value: Option<&Val>,
) -> Result<(), NoMemory>
    ensures { OnOk result (made.new.items ≡ made.old.items ++ item_operand receiver attr (option_copied value.entry) ∷ []) }
{
    if receiver {
        add(made, Operand::Receiver { attr })
    } else {
        add_source(alloc, made, attr, value)
    }
}

/// Adds an item as the machine gets it: one with a base lies in the space of the base's pointer.
#[inline(always)]
fn add_item(
    alloc: Global,
    made: &mut Vec<Operand>,
    scope: Scope<'_>,
    receiver: bool,
    item: usize,
    form: Option<&Form>,
) -> Result<(), NoMemory>
    ensures { OnOk result (made.new.items ≡ made.old.items ++ item_by scope.entry.homes.now scope.entry.values.now receiver item (option_copied form.entry) ∷ []) }
{
    let attr = match form {
        Some(Form::Based { base, offset, attr }) => {
            let base = value_pointer(value_of_item(scope.homes, scope.values, *base as usize));
            return add(
                made,
                Operand::InSpace {
                    base,
                    offset: *offset,
                    attr: *attr,
                },
            );
        }
        Some(Form::Local { attr, .. }) => *attr,
        Some(Form::Parm { attr, .. }) => *attr,
        _ => Attr::Pointer,
    };
    let value = value_of_item(scope.homes, scope.values, item);
    add_held(alloc, made, receiver, attr, value)
}

fn add_attrs(alloc: Global, made: &mut Vec<Operand>, attrs: &AttrList) -> Result<(), NoMemory>
    ensures { OnOk result (made.new.items ≡ made.old.items ++ Operand.Attrs attrs.now ∷ []) }
{
    match Seq::from_slice(alloc, attrs.as_slice()) {
        Ok(attrs) => add(made, Operand::Attrs(attrs)),
        Err(fault) => Err(fault),
    }
}

#[inline(always)]
fn add_operand(
    alloc: Global,
    made: &mut Vec<Operand>,
    scope: Scope<'_>,
    class: Class,
    arg: &Arg,
) -> Result<(), NoMemory>
    ensures { OnOk result (made.new.items ≡ made.old.items ++ operand_of scope.entry.rows.now scope.entry.homes.now scope.entry.values.now class arg.now ∷ []) }
{
    match arg {
        Arg::Item(item) => {
            let item = *item as usize;
            let receiver = is_receiver(class);
            let form = form_in(scope.rows.get(item));
            add_item(alloc, made, scope, receiver, item, form)
        }
        Arg::Literal { attr, bytes } => add_bytes(alloc, made, *attr, bytes.as_slice()),
        Arg::Whole(number) => add(made, Operand::Whole(*number)),
        Arg::Jump(_) => add(made, Operand::Nothing),
        Arg::Word(word) => add(made, Operand::Word(*word)),
        Arg::Ident(id) => add(made, Operand::Ident(*id)),
        Arg::Text(name) => add(made, Operand::Text(*name)),
        Arg::Attrs(attrs) => add_attrs(alloc, made, attrs),
        Arg::Nothing => add(made, Operand::Nothing),
        Arg::MachineContext => add(made, Operand::MachineContext),
        Arg::ContextList => add(made, Operand::ContextList),
    }
}

fn add_operands(
    alloc: Global,
    made: &mut Vec<Operand>,
    scope: Scope<'_>,
    classes: &[Class],
    args: &[Arg],
) -> Result<(), NoMemory>
    ensures { OnOk result (made.new.items ≡ made.old.items ++ operands_of scope.entry.rows.now scope.entry.homes.now scope.entry.values.now classes.now args.now) }
{
    let mut more = classes;
    for arg in args {
        match more {
            [] => return Ok(()),
            [class, rest @ ..] => {
                match add_operand(alloc, made, scope, *class, arg) {
                    Ok(()) => {}
                    Err(fault) => return Err(fault),
                }
                more = rest;
            }
        }
    }
    Ok(())
}

/// The operands of an instruction, made anew.
#[inline(never)]
pub fn operands_anew(
    alloc: Global,
    scope: Scope<'_>,
    instruction: &Instruction,
) -> Result<Operands, NoMemory>
    ensures { IfOk result (λ operands. operands ≡ operands_of scope.entry.rows.now scope.entry.homes.now scope.entry.values.now (classes instruction.now.op) instruction.now.args) }
{
    let args = instruction.args.as_slice();
    let mut made = Vec::with_capacity(alloc, args.len())?;
    add_operands(alloc, &mut made, scope, classes(instruction.op), args)?;
    Operands::new(alloc, made)
}
