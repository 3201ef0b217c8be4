//! Pointers to objects: by identification, and from other pointers.
ghost use Rattle.std.specs.Prelude.{◌≡◌, Some, None, IfOk, map};
ghost use Rattle.std.specs.Option.{option_copied};
ghost use Rattle.s38_rules.specs.families.Resolving.{carried_rights, context_at, context_read, first_place, is_context_in, listed_need, may_search, pointer_to, resolved, resolved_by, resolving_row, rslvsp_fails, rslvsp_gives, rslvsp_needs, search_in, setspfp_gives};

use s38_authority::{available, has_rights, missing};
use s38_base::exceptions::OBJECT_NOT_FOUND;
use s38_base::limits::MACHINE_CONTEXT;
use s38_base::{
    Category, Exception, HeldPointer, Id, Kind, NoMemory, ObjNum, Op, Pointer, Rights, UserNum,
};
use s38_code::{Operand, Val};
use s38_invoke::{Core, Profiles};
use s38_objects::{Objects, kind_of};
use s38_operands::{Act, Needs, id_at, is_list, is_machine, need, pointer_at, rights_at, target};
use s38_rules::{Located, Named, Object, PointerKind, Sought};
use std::alloc::Global;

// ---- a search through the contexts of the job's list

fn is_context_in(object_used: Option<&Object>) -> bool
    ensures { result ≡ is_context_in (option_copied object_used.entry) }
{
    match object_used {
        None => false,
        Some(object_used) => kind_of(&object_used.body).code() == Kind::Context.code(),
    }
}

fn may_search(
    world: &Core<Objects, Profiles>,
    process: u32,
    users: &[UserNum],
    context: ObjNum,
) -> bool
    ensures { result ≡ may_search world.now process (map (λ u. u.0) users.now) context.0 }
{
    is_context_in(world.objects.get(context))
        && has_rights(
            Rights::RETRIEVE,
            available(world, users, context, Rights(0)),
        )
        && world
            .locks
            .blocked_by(context, process, Category::Read)
            .is_none()
}

#[tactic(auto, unfolding(s38_rules::specs::families::Resolving::search_in))]
fn search_in(
    world: &Core<Objects, Profiles>,
    process: u32,
    users: &[UserNum],
    contexts: &[ObjNum],
    id: &Id,
) -> Option<Located>
    ensures { result ≡ search_in world.now process (map (λ u. u.0) users.now) contexts.now id.now }
{
    match contexts {
        [] => None,
        [context, more @ ..] => {
            if !may_search(world, process, users, *context) {
                return search_in(world, process, users, more, id);
            }
            match world.objects.find_object(*context, id) {
                None => search_in(world, process, users, more, id),
                Some(object_found) => Some(Located {
                    context: *context,
                    object: object_found.number,
                }),
            }
        }
    }
}

// ---- what an identification names

/// The context that operand 2 names: the machine's, or that of the pointer.
pub fn context_at(objects: &Objects, operands: &[Operand]) -> ObjNum
    ensures { result.0 ≡ context_at objects.now operands.now }
{
    if is_machine(operands, 2) {
        MACHINE_CONTEXT
    } else {
        target(objects, operands, 2)
    }
}

fn located(context: ObjNum, object_found: Option<&Object>) -> Option<Located>
    ensures { result ≡ first_place context (option_copied object_found.entry) None }
{
    match object_found {
        None => None,
        Some(object_found) => Some(Located {
            context,
            object: object_found.number,
        }),
    }
}

fn resolved_by(
    world: &Core<Objects, Profiles>,
    process: u32,
    depth: u16,
    operands: &[Operand],
    id: Option<&Id>,
) -> Option<Located>
    ensures { result ≡ resolved_by world.now process depth operands.now (option_copied id.entry) }
{
    let objects = &world.objects;
    match id {
        None => None,
        Some(id) => {
            if is_list(operands, 2) {
                let users = world.acting(process, depth);
                search_in(
                    world,
                    process,
                    users.as_slice(),
                    world.contexts_of(process),
                    id,
                )
            } else {
                let context = context_at(objects, operands);
                located(context, objects.find_object(context, id))
            }
        }
    }
}

/// The object that operands 2 and 3 of RSLVSP name.
fn resolved(
    world: &Core<Objects, Profiles>,
    process: u32,
    depth: u16,
    operands: &[Operand],
) -> Option<Located>
    ensures { result ≡ resolved world.now process depth operands.now }
{
    resolved_by(world, process, depth, operands, id_at(operands, 3))
}

// ---- RSLVSP

/// The context in which the object is found is read.
pub fn context_read(named: Named) -> Needs
    ensures { result ≡ context_read named }
{
    need(
        2,
        named,
        PointerKind::System,
        Sought::Of(Kind::Context),
        Rights::RETRIEVE,
        Some(Category::Read),
    )
}

fn listed_need(located: Option<Located>) -> Needs
    ensures { result ≡ listed_need located }
{
    match located {
        None => Needs::none(),
        Some(located) => context_read(Named::Implied(located.context)),
    }
}

#[tactic(auto, unfolding(s38_rules::specs::families::Resolving::rslvsp_needs))]
fn rslvsp_needs(
    world: &Core<Objects, Profiles>,
    process: u32,
    depth: u16,
    operands: &[Operand],
) -> Needs
    ensures { result ≡ rslvsp_needs world.now process depth operands.now }
{
    if is_list(operands, 2) {
        listed_need(resolved(world, process, depth, operands))
    } else if is_machine(operands, 2) {
        context_read(Named::Implied(MACHINE_CONTEXT))
    } else {
        context_read(Named::Written)
    }
}

fn carried_rights(
    world: &Core<Objects, Profiles>,
    users: &[UserNum],
    word: Rights,
    located: Option<Located>,
) -> Option<Exception>
    ensures { result ≡ carried_rights world.now.held (map (λ u. u.0) users.now) word.0 located }
{
    match located {
        None => Some(Exception::plain(OBJECT_NOT_FOUND, 3)),
        Some(located) => {
            if word.0 == 0 {
                return None;
            }
            let needed = Rights(Rights::AUTPTR.0 | word.0);
            missing(
                0,
                needed,
                available(world, users, located.object, Rights(0)),
            )
        }
    }
}

/// The object is found; where the pointer is to carry rights, they and AUTPTR are available on it.
#[tactic(auto, unfolding(s38_rules::specs::families::Resolving::rslvsp_fails))]
fn rslvsp_fails(
    world: &Core<Objects, Profiles>,
    process: u32,
    depth: u16,
    operands: &[Operand],
) -> Option<Exception>
    ensures { result ≡ rslvsp_fails world.now process depth operands.now }
{
    let users = world.acting(process, depth);
    let located = resolved(world, process, depth, operands);
    carried_rights(world, users.as_slice(), rights_at(operands, 4), located)
}

fn pointer_to(rights: Rights, located: Option<Located>) -> Option<Pointer>
    ensures { result ≡ pointer_to rights.0 located }
{
    match located {
        None => None,
        Some(located) => Some(Pointer::System {
            object: located.object,
            rights,
        }),
    }
}

#[tactic(auto, unfolding(s38_rules::specs::families::Resolving::rslvsp_gives))]
fn rslvsp_gives(
    world: &Core<Objects, Profiles>,
    process: u32,
    depth: u16,
    operands: &[Operand],
) -> Val
    ensures { result ≡ rslvsp_gives world.now process depth operands.now }
{
    let located = resolved(world, process, depth, operands);
    Val::Ptr(HeldPointer::of(pointer_to(rights_at(operands, 4), located)))
}

// ---- SETSPFP

/// A pointer to the object, without rights.
#[tactic(auto, unfolding(s38_rules::specs::families::Resolving::setspfp_gives))]
fn setspfp_gives(objects: &Objects, operands: &[Operand]) -> Val
    ensures { result ≡ setspfp_gives objects.now operands.now }
{
    match pointer_at(objects, operands, 2) {
        None => Val::Ptr(HeldPointer::of(None)),
        Some(pointer) => Val::Ptr(HeldPointer::of(Some(Pointer::System {
            object: pointer.object(),
            rights: Rights(0),
        }))),
    }
}

// ---- the family, which changes nothing

/// What an instruction of resolving needs.
#[tactic(auto, unfolding(s38_rules::specs::families::Resolving::resolving_row, s38_rules::specs::families::Resolving::setspfp_needs))]
pub fn needs(world: &Core<Objects, Profiles>, act: Act<'_>) -> Needs
    ensures { result ≡ (resolving_row act.entry.request.now.op).needs world.now act.entry.process act.entry.depth act.entry.request.now }
{
    match act.request.op {
        Op::Rslvsp => rslvsp_needs(
            world,
            act.process,
            act.depth,
            act.request.operands.as_slice(),
        ),
        Op::Setspfp => need(
            2,
            Named::Written,
            PointerKind::Any,
            Sought::Any,
            Rights(0),
            None,
        ),
        _ => Needs::none(),
    }
}

/// The first of its conditions and limits that fails.
#[tactic(auto, unfolding(s38_rules::specs::families::Resolving::resolving_row))]
pub fn conditions(world: &Core<Objects, Profiles>, act: Act<'_>) -> Option<Exception>
    ensures { result ≡ (resolving_row act.entry.request.now.op).fails world.now act.entry.process act.entry.depth act.entry.request.now }
{
    match act.request.op {
        Op::Rslvsp => rslvsp_fails(
            world,
            act.process,
            act.depth,
            act.request.operands.as_slice(),
        ),
        _ => None,
    }
}

/// The value for its receiver.
#[tactic(auto, unfolding(s38_rules::specs::families::Resolving::resolving_row))]
pub fn value(
    alloc: Global,
    world: &Core<Objects, Profiles>,
    act: Act<'_>,
) -> Result<Option<Val>, NoMemory>
    ensures { IfOk result (λ value. value ≡ (resolving_row act.entry.request.now.op).gives world.now act.entry.process act.entry.depth act.entry.request.now) }
{
    let operands = act.request.operands.as_slice();
    match act.request.op {
        Op::Rslvsp => Ok(Some(rslvsp_gives(world, act.process, act.depth, operands))),
        Op::Setspfp => Ok(Some(setspfp_gives(&world.objects, operands))),
        _ => Ok(None),
    }
}
