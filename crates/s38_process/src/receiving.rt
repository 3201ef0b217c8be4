//! The values of a reply go to the receivers of the instruction that was answered.
ghost use Rattle.std.specs.Prelude.{◌≡◌, ◌<◌, ◌+◌, ◌^◌, ◌∷◌, [], OnErr, OnOk, Some};
ghost use Rattle.std.specs.Option.{option_copied};
ghost use Rattle.s38_code.specs.Operations.{classes};
ghost use Rattle.s38_code.specs.declared.class.Class.{Class};
ghost use Rattle.s38_process.specs.AfterReply.{next_instruction};
ghost use Rattle.s38_process.specs.Replies.{branch_is_taken, first_label_in, label_of, place_for, put_received, takes_value, values_received};
ghost use Rattle.s38_requests.specs.Requests.{is_receiver};
ghost use Rattle.s38_local.specs.Variables.{is_based};

use crate::merging::{put, put_copy};
use s38_base::{NoMemory, Op, try_clones};
use s38_code::{Arg, Class, Form, Instruction, Row, Val, classes};
use s38_local::{form_in, place_of};
use s38_requests::is_receiver;
use std::alloc::Global;

fn is_based(form: Option<&Form>) -> bool
    ensures { result ≡ is_based (option_copied form.entry) }
{
    matches!(form, Some(Form::Based { .. }))
}

/// Whether an argument gets a value of a reply: a receiver that lies in no space does.
fn takes_value(rows: &[Row], class: Class, arg: &Arg) -> bool
    ensures { result ≡ takes_value rows.now class arg.now }
{
    match arg {
        Arg::Item(item) => is_receiver(class) && !is_based(form_in(rows.get(*item as usize))),
        _ => is_receiver(class),
    }
}

/// The values of a reply go to the receivers in order; it takes no memory.
fn receive_all(
    op: Op,
    values: &mut [Val],
    rows: &[Row],
    homes: &[usize],
    classes: &[Class],
    args: &[Arg],
    mut given: Vec<Val>,
)
    ensures { values.new ≡ values_received op rows.now homes.now classes.now args.now given.items values.old }
{
    match classes {
        [] => {}
        [class, more @ ..] => match args {
            [] => {}
            [arg, rest @ ..] => {
                if given.is_empty() {
                    return;
                }
                if takes_value(rows, *class, arg) {
                    let value = given.remove(0);
                    put(op, values, place_of(homes, Some(arg)), value);
                }
                receive_all(op, values, rows, homes, more, rest, given);
            }
        },
    }
}

/// Several values of a reply go to the receivers, once all of them are copied.
#[inline(never)]
fn receive_several(
    alloc: Global,
    instruction: &Instruction,
    values: &mut Vec<Val>,
    rows: &[Row],
    homes: &[usize],
    given: &[Val],
) -> Result<(), NoMemory>
    ensures ok { OnOk result (values.new.items ≡ values_received instruction.now.op rows.now homes.now (classes instruction.now.op) instruction.now.args given.now values.old.items) }
    ensures err { OnErr result (values.new.items ≡ values.old.items) }
{
    match try_clones(alloc, given) {
        Err(fault) => Err(fault),
        Ok(copies) => {
            let op = instruction.op;
            let args = instruction.args.as_slice();
            receive_all(
                op,
                values.as_mut_slice(),
                rows,
                homes,
                classes(op),
                args,
                copies.into_vec(),
            );
            Ok(())
        }
    }
}

/// Where the value of a reply goes that brings one.
fn place_for(rows: &[Row], homes: &[usize], classes: &[Class], args: &[Arg]) -> Option<usize>
    ensures { result ≡ place_for rows.now homes.now classes.now args.now }
{
    let mut more = classes;
    for arg in args {
        match more {
            [] => return None,
            [class, rest @ ..] => {
                if takes_value(rows, *class, arg) {
                    return place_of(homes, Some(arg));
                }
                more = rest;
            }
        }
    }
    None
}

/// A copy of the value of a reply goes to the first receiver. An error changes nothing.
fn receive_one(
    alloc: Global,
    instruction: &Instruction,
    values: &mut [Val],
    rows: &[Row],
    homes: &[usize],
    value: &Val,
) -> Result<(), NoMemory>
    ensures ok { OnOk result (values.new ≡ values_received instruction.now.op rows.now homes.now (classes instruction.now.op) instruction.now.args (value.now ∷ []) values.old) }
    ensures err { OnErr result (values.new ≡ values.old) }
{
    let op = instruction.op;
    let place = place_for(rows, homes, classes(op), instruction.args.as_slice());
    match put_copy(alloc, op, values, place, value) {
        Ok(()) => Ok(()),
        Err(fault) => Err(fault),
    }
}

fn receive_value(
    alloc: Global,
    instruction: &Instruction,
    values: &mut Vec<Val>,
    rows: &[Row],
    homes: &[usize],
    value: &Val,
) -> Result<(), NoMemory>
    ensures ok { OnOk result (values.new.items ≡ values_received instruction.now.op rows.now homes.now (classes instruction.now.op) instruction.now.args (value.now ∷ []) values.old.items) }
    ensures err { OnErr result (values.new.items ≡ values.old.items) }
{
    match receive_one(
        alloc,
        instruction,
        values.as_mut_slice(),
        rows,
        homes,
        value,
    ) {
        Ok(()) => Ok(()),
        Err(fault) => Err(fault),
    }
}

/// Copies of the values of a reply go to the receivers in order. An error changes nothing.
pub fn receive(
    alloc: Global,
    instruction: &Instruction,
    values: &mut Vec<Val>,
    rows: &[Row],
    homes: &[usize],
    given: &[Val],
) -> Result<(), NoMemory>
    ensures ok { OnOk result (values.new.items ≡ values_received instruction.now.op rows.now homes.now (classes instruction.now.op) instruction.now.args given.now values.old.items) }
    ensures err { OnErr result (values.new.items ≡ values.old.items) }
{
    match given {
        [] => Ok(()),
        [value] => receive_value(alloc, instruction, values, rows, homes, value),
        _ => receive_several(alloc, instruction, values, rows, homes, given),
    }
}

fn is_taken(given: &[Val]) -> bool
    ensures { result ≡ branch_is_taken given.now }
{
    match given {
        [Val::Branch(taken), ..] => *taken,
        _ => false,
    }
}

fn label_of(arg: &Arg) -> Option<u32>
    ensures { result ≡ label_of arg.now }
{
    match arg {
        Arg::Jump(at) => Some(*at),
        _ => None,
    }
}

fn label_in(args: &[Arg]) -> Option<u32>
    ensures { result ≡ first_label_in args.now }
{
    match args {
        [] => None,
        [arg, rest @ ..] => match label_of(arg) {
            Some(at) => Some(at),
            None => label_in(rest),
        },
    }
}

/// The place after an instruction that was answered with these values.
pub fn next_instruction(instruction: &Instruction, given: &[Val], at: usize) -> usize
    requires { at + 1 < 2 ^ 64 }
    ensures { result ≡ next_instruction (Some instruction.now) given.now at }
{
    if !is_taken(given) {
        return at + 1;
    }
    match label_in(instruction.args.as_slice()) {
        Some(label) => label as usize,
        None => at + 1,
    }
}
