//! A process calls a program, or goes on in one in place of its own: the arguments suit its parameters, and its
//! number is among the process's invocations.
ghost use Rattle.s38_rules.specs.families.Changes.{done};
ghost use Rattle.std.specs.Prelude.{◌≡◌, List, IfNone, IfOk, IfSome, None, OnErr, OnOk, drop, false};
ghost use Rattle.std.specs.Option.{option_copied, option_map};
ghost use Rattle.s38_base.specs.declared.attr.Attr.{Attr};
ghost use Rattle.s38_rules.specs.families.Calls.{are_arguments, argument_rule, call_gives, call_needs, callx_changes, callx_fails, code_in, code_of, frame_rule, is_argument, parameters_in, parameters_of, program_at, with_parameter, xctl_changes, xctl_fails};

use s38_base::exceptions::{ARGUMENT_MISMATCH, LIMIT_EXCEEDED};
use s38_base::{Attr, Category, Exception, Kind, NoMemory, Rights, TryClone};
use s38_code::{Code, Form, Operand, Row, Val};
use s38_invoke::{Core, Profiles};
use s38_objects::Objects;
use s38_operands::{Needs, fails, on_object, target};
use s38_rules::{Body, Object, Sought};
use std::alloc::Global;

/// How many frames a process has at most.
const MOST_FRAMES: usize = 64;

// ---- the program and its parameters

fn code_of(body: &Body) -> Option<&Code>
    ensures { option_map (λ code. code.now) result ≡ code_of body.now }
{
    match body {
        Body::Program(code) => Some(code),
        _ => None,
    }
}

fn code_in(object: Option<&Object>) -> Option<&Code>
    ensures { option_map (λ code. code.now) result ≡ code_in (option_copied object.entry) }
{
    match object {
        None => None,
        Some(object) => code_of(&object.body),
    }
}

/// The program that operand 1 names.
fn program_at<'a>(objects: &'a Objects, operands: &[Operand]) -> Option<&'a Code>
    ensures { option_map (λ code. code.now) result ≡ program_at objects.now operands.now }
{
    code_in(objects.get(target(objects, operands, 1)))
}

/// Whether an argument is one of this attribute.
fn is_argument(attr: Attr, argument: &Operand) -> bool
    ensures { result ≡ is_argument attr argument.now }
{
    match argument {
        Operand::Value { attr: given, .. } => attr.is_same(*given),
        Operand::Ptr(_) => attr.is_same(Attr::Pointer),
        _ => false,
    }
}

/// The arguments after that of a declaration; None where it is a parameter, and the first is no argument for it.
fn arguments_after<'a>(form: &Form, arguments: &'a [Operand]) -> Option<&'a [Operand]>
    ensures some { IfSome result (λ rest. (more : List Attr) → are_arguments (with_parameter form.now more) arguments.now ≡ are_arguments more rest.now) }
    ensures none { IfNone result ((more : List Attr) → are_arguments (with_parameter form.now more) arguments.now ≡ false) }
{
    match form {
        Form::Parm { attr, .. } => match arguments {
            [] => None,
            [argument, rest @ ..] => {
                if is_argument(*attr, argument) {
                    Some(rest)
                } else {
                    None
                }
            }
        },
        _ => Some(arguments),
    }
}

/// Whether the arguments are the parameters of these declarations, in number and attributes.
fn are_arguments(rows: &[Row], arguments: &[Operand]) -> bool
    ensures { result ≡ are_arguments (parameters_in rows.now) arguments.now }
{
    let mut rest = arguments;
    for row in rows {
        match arguments_after(&row.form, rest) {
            None => return false,
            Some(more) => rest = more,
        }
    }
    match rest {
        [] => true,
        _ => false,
    }
}

fn suits(program: Option<&Code>, arguments: &[Operand]) -> bool
    ensures { result ≡ are_arguments (parameters_of (option_map (λ code. code.now) program.entry)) arguments.now }
{
    match program {
        None => are_arguments(&[], arguments),
        Some(code) => are_arguments(code.program().rows.as_slice(), arguments),
    }
}

/// The arguments follow operand 1.
fn arguments_in(operands: &[Operand]) -> &[Operand]
    ensures { result.now ≡ drop 1 operands.now }
{
    match operands {
        [] => &[],
        [_, arguments @ ..] => arguments,
    }
}

// ---- needs and conditions

/// RETRIEVE on the program, which is read.
#[tactic(auto, unfolding(s38_rules::specs::families::Calls::call_needs))]
pub fn call_needs() -> Needs
    ensures { result ≡ call_needs }
{
    on_object(
        1,
        Sought::Of(Kind::Program),
        Rights::RETRIEVE,
        Some(Category::Read),
    )
}

/// The arguments are the parameters of the program.
fn argument_rule(objects: &Objects, operands: &[Operand]) -> Option<Exception>
    ensures { result ≡ argument_rule objects.now operands.now }
{
    let good = suits(program_at(objects, operands), arguments_in(operands));
    fails(!good, ARGUMENT_MISMATCH, 1)
}

/// A frame is left.
fn frame_rule(world: &Core<Objects, Profiles>, process: u32, depth: u16) -> Option<Exception>
    ensures { result ≡ frame_rule world.now process depth }
{
    let used = world.stack_of(process).len().min(depth as usize);
    fails(MOST_FRAMES <= used, LIMIT_EXCEEDED, 0)
}

/// The arguments suit, and a frame is left.
#[tactic(auto, unfolding(s38_rules::specs::families::Calls::callx_fails))]
pub fn callx_fails(
    world: &Core<Objects, Profiles>,
    process: u32,
    depth: u16,
    operands: &[Operand],
) -> Option<Exception>
    ensures { result ≡ callx_fails world.now process depth operands.now }
{
    if let Some(failure) = argument_rule(&world.objects, operands) {
        return Some(failure);
    }
    frame_rule(world, process, depth)
}

/// The arguments suit.
#[tactic(auto, unfolding(s38_rules::specs::families::Calls::xctl_fails))]
pub fn xctl_fails(objects: &Objects, operands: &[Operand]) -> Option<Exception>
    ensures { result ≡ xctl_fails objects.now operands.now }
{
    argument_rule(objects, operands)
}

// ---- what is given and changed

/// The program itself.
#[tactic(auto, unfolding(s38_rules::specs::families::Calls::call_gives))]
pub fn call_gives(
    alloc: Global,
    objects: &Objects,
    operands: &[Operand],
) -> Result<Option<Val>, NoMemory>
    ensures { IfOk result (λ value. value ≡ call_gives objects.now operands.now) }
{
    match program_at(objects, operands) {
        None => Ok(None),
        Some(code) => Ok(Some(Val::Code(code.try_clone(alloc)?))),
    }
}

/// The program follows the frames that count; where memory is refused nothing changes.
#[tactic(auto, using(crate::proofs::CallLaws::frame_left))]
pub fn callx(
    world: &mut Core<Objects, Profiles>,
    process: u32,
    depth: u16,
    operands: &[Operand],
) -> Result<(), NoMemory>
    requires { callx_fails world.old process depth operands.now ≡ None }
    ensures ok { OnOk result (world.new ≡ done world.old process (callx_changes world.old.held depth operands.now)) }
    ensures err { OnErr result (world.new ≡ world.old) }
{
    let program = target(&world.objects, operands, 1);
    world.push(process, depth, program)
}

/// The program takes the place of the last frame that counts.
pub fn xctl(world: &mut Core<Objects, Profiles>, process: u32, depth: u16, operands: &[Operand])
    ensures { world.new ≡ done world.old process (xctl_changes world.old.held depth operands.now) }
{
    let program = target(&world.objects, operands, 1);
    world.replace(process, depth, program);
}
