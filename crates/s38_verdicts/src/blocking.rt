//! The lock rules: what the locks of other processes keep a process from.
ghost use Rattle.std.specs.Prelude.{◌≡◌};
ghost use Rattle.std.specs.Option.{option_copied};
ghost use Rattle.s38_verdicts.specs.Resolved.{Each, IsResolved, needs_of};
ghost use Rattle.s38_rules.specs.ask.Blocking.{class_use, held_by, item_lock, use_at, use_rule};
ghost use Rattle.s38_rules.specs.step.Verdict.{category_rule, lock_rule, lock_rules};

use crate::by_operand::{OperandRules, by_operand};
use crate::resolved::Resolved;
use s38_base::exceptions::OBJECT_LOCKED;
use s38_base::{Category, Exception, LockState, ObjNum, Op, Pointer, Rule};
use s38_code::{Class, Operand, Request, classes};
use s38_invoke::{Core, Profiles};
use s38_locks::LockTable;
use s38_objects::Objects;

/// A lock is in the way: the exception says whose, and its state.
fn held_by(id: u16, operand: u8, lock: Option<(u32, LockState)>) -> Option<Exception>
    ensures { result ≡ held_by id operand lock }
{
    match lock {
        None => None,
        Some((process, state)) => Some(Exception {
            id,
            operand,
            rule: Rule::Held { process, state },
        }),
    }
}

/// A use is refused that a lock of another process blocks.
#[tactic(auto, unfolding(s38_rules::specs::ask::Blocking::use_rule))]
fn use_rule(
    locks: &LockTable,
    process: u32,
    operand: u8,
    object: ObjNum,
    category: Category,
) -> Option<Exception>
    ensures { result ≡ use_rule locks.now process operand object.0 category }
{
    held_by(
        OBJECT_LOCKED,
        operand,
        locks.blocked_by(object, process, category),
    )
}

/// What an operand of a class does to the space in which it lies: a receiver changes it, a source reads it.
fn class_use(class: Option<&Class>) -> Category
    ensures { result ≡ class_use (option_copied class.entry) }
{
    match class {
        Some(Class::NumberReceiver) => Category::Change,
        Some(Class::BytesReceiver) => Category::Change,
        Some(Class::PointerReceiver) => Category::Change,
        Some(Class::CellsReceiver) => Category::Change,
        _ => Category::Read,
    }
}

#[tactic(auto, unfolding(s38_rules::specs::ask::Blocking::use_at))]
fn use_at(op: Op, k: u8) -> Category
    ensures { result ≡ use_at op k }
{
    class_use(classes(op).get((k as usize).saturating_sub(1)))
}

/// An item in a space, which is read or changed.
#[tactic(auto, unfolding(s38_rules::specs::ask::Blocking::item_lock))]
fn item_lock(
    world: &Core<Objects, Profiles>,
    process: u32,
    op: Op,
    k: u8,
    operand: &Operand,
) -> Option<Exception>
    ensures { result ≡ item_lock world.now.locks process op k operand.now }
{
    match operand {
        Operand::InSpace { base, .. } => {
            use_rule(
                &world.locks,
                process,
                k,
                Pointer::target(base.get()),
                use_at(op, k),
            )
        }
        _ => None,
    }
}

fn category_rule(
    locks: &LockTable,
    process: u32,
    operand: u8,
    object: ObjNum,
    category: Option<Category>,
) -> Option<Exception>
    ensures { result ≡ category_rule locks.now process operand object.0 category }
{
    match category {
        None => None,
        Some(category) => use_rule(locks, process, operand, object, category),
    }
}

/// What an instruction does to the object of a need.
#[tactic(auto, unfolding(s38_rules::specs::step::Verdict::lock_rule))]
fn lock_rule(
    world: &Core<Objects, Profiles>,
    process: u32,
    operands: &[Operand],
    need: &Resolved,
) -> Option<Exception>
    requires { IsResolved world.now.held operands.now need.now }
    ensures { result ≡ lock_rule world.now process operands.now need.now.need }
{
    let _ = operands;
    category_rule(
        &world.locks,
        process,
        need.need.place,
        need.object,
        need.need.category,
    )
}

/// The lock rules of a process over the operands of its request.
#[derive(Clone, Copy)]
struct Uses<'a> {
    world: &'a Core<Objects, Profiles>,
    process: u32,
    request: &'a Request,
}

impl<'a> OperandRules for Uses<'a> {
    ghost use Rattle.s38_verdicts.specs.Resolved.{IsResolved};
    ghost use Rattle.s38_rules.specs.ask.Blocking.{item_lock};
    ghost use Rattle.s38_rules.specs.step.Verdict.{lock_rule};

    ghost of_item = { λ u. item_lock u.world.now.locks u.process u.request.now.op };

    ghost of_need = { λ u. lock_rule u.world.now u.process u.request.now.operands };

    ghost Suits = { λ u. IsResolved u.world.now.held u.request.now.operands };

    fn item(&self, k: u8, operand: &Operand) -> Option<Exception> {
        item_lock(self.world, self.process, self.request.op, k, operand)
    }

    fn need(&self, need: &Resolved) -> Option<Exception> {
        lock_rule(
            self.world,
            self.process,
            self.request.operands.as_slice(),
            need,
        )
    }
}

/// The first use of an object, operand by operand, that a lock of another process blocks. Where nothing is locked no
/// operand is looked at.
#[tactic(auto, using(s38_rules::proofs::LockLaws::unlocked), unfolding(s38_rules::specs::step::Verdict::lock_rules))]
pub fn lock_rules(
    world: &Core<Objects, Profiles>,
    process: u32,
    request: &Request,
    needs: &[Resolved],
) -> Option<Exception>
    requires { Each (IsResolved world.now.held request.now.operands) needs.now }
    ensures { result ≡ lock_rules world.now process request.now (needs_of needs.now) }
{
    if world.locks.is_empty() {
        return None;
    }
    let uses = Uses {
        world,
        process,
        request,
    };
    by_operand(&uses, needs, 1, request.operands.as_slice())
}
