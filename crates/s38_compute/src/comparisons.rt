ghost use Rattle.std.specs.Prelude.{◌≡◌, IfOk, IfSome, IsTrue, Ok};
ghost use Rattle.s38_base.specs.declared.op.Op.{Op};
ghost use Rattle.s38_base.specs.Relations.{relation_of};
ghost use Rattle.s38_compute.specs.Compute.{compares, numbers_compared, pointer_kind_number, word_holds};
ghost use Rattle.s38_compute.specs.Computed.{is_branch, test_given};
ghost use Rattle.s38_compute.specs.Written.{failed};

use crate::sources::Sources;
use s38_base::exceptions::DECIMAL_DATA;
use s38_base::{Exception, NoMemory, Op, Pointer, Relation};
use s38_decimal::{compare as compare_numbers, compare_short};
use s38_strings::compare as compare_strings;
use std::alloc::Global;
use std::cmp::Ordering;

/// A comparison tells whether it branches, and has no receiver.
#[inline(always)]
pub fn is_branch(op: Op) -> bool
    ensures { result ≡ is_branch op }
{
    matches!(op, Op::Cmpnvb | Op::Cmpblab | Op::Cmpptrt)
}

/// It is a relation of two values.
fn compares(relation: Relation) -> bool
    ensures { result ≡ compares relation }
{
    !matches!(relation, Relation::Any | Relation::First | Relation::Last)
}

/// Whether the relation of a word holds; another word holds never.
#[inline(always)]
fn word_holds(relation: Option<Relation>, order: Ordering) -> bool
    ensures { result ≡ word_holds relation order }
{
    match relation {
        None => false,
        Some(relation) => compares(relation) && relation.holds(order),
    }
}

/// Whether the relation holds between two numbers.
#[inline(always)]
fn numbers_compared<S: Sources>(sources: &S) -> Result<bool, Exception>
    ensures { result ≡ numbers_compared (relation_of ((S.readings sources.now).word 3)) ((S.readings sources.now).attr 1) ((S.readings sources.now).number 1) ((S.readings sources.now).attr 2) ((S.readings sources.now).number 2) }
{
    match sources.number(1) {
        None => Err(Exception::plain(DECIMAL_DATA, 1)),
        Some(a) => match sources.number(2) {
            None => Err(Exception::plain(DECIMAL_DATA, 2)),
            Some(b) => {
                let relation = Relation::from_word(sources.word(3));
                Ok(word_holds(relation, compare_numbers(a, b)))
            }
        },
    }
}

/// Whether a relation holds between two numbers to which there is a shorter way.
#[inline(always)]
#[tactic(auto, unfolding(crate::specs::Computed::test_given))]
pub fn short_test<S: Sources>(sources: &S, op: Op) -> Option<bool>
    ensures { IfSome result (λ test. test_given op (S.readings sources.now) ≡ Ok test) }
{
    match op {
        Op::Cmpnvb => {
            let a = sources.short(1)?;
            let b = sources.short(2)?;
            let relation = Relation::from_word(sources.word(3));
            Some(word_holds(relation, compare_short(a, b)))
        }
        _ => None,
    }
}

/// Whether the relation holds between two strings, as unsigned bytes over the shorter length.
#[tactic(auto, unfolding(crate::specs::Computed::test_given))]
fn strings_compared<S: Sources>(alloc: Global, sources: &S) -> Result<bool, NoMemory>
    ensures { IfOk result (λ test. Ok test ≡ test_given Op.Cmpblab (S.readings sources.now)) }
{
    let a = sources.bytes(alloc, 1)?;
    let b = sources.bytes(alloc, 2)?;
    let order = compare_strings(a.as_slice(), b.as_slice());
    Ok(word_holds(Relation::from_word(sources.word(3)), order))
}

/// The number of the word for a pointer's kind: SYS, SPC, DTA and NONE from 0 on.
fn kind_word(pointer: Option<Pointer>) -> u32
    ensures { result ≡ pointer_kind_number pointer }
{
    match pointer {
        Some(Pointer::System { .. }) => 0,
        Some(Pointer::Space { .. }) => 1,
        Some(Pointer::Item { .. }) => 2,
        None => 3,
    }
}

/// Whether a branch is taken, or what is signalled.
#[tactic(auto, unfolding(crate::specs::Computed::test_given))]
pub fn test_given<S: Sources>(
    alloc: Global,
    sources: &S,
    op: Op,
) -> Result<Result<bool, Exception>, NoMemory>
    requires { IsTrue (is_branch op) }
    ensures { IfOk result (λ test. test ≡ test_given op (S.readings sources.now)) }
{
    match op {
        Op::Cmpnvb => Ok(numbers_compared(sources)),
        Op::Cmpblab => Ok(Ok(strings_compared(alloc, sources)?)),
        _ => Ok(Ok(kind_word(sources.pointer(1)) == sources.word(2))),
    }
}

/// What a comparison signals.
#[tactic(auto, unfolding(crate::specs::Computed::test_given))]
pub fn test_failure<S: Sources>(sources: &S, op: Op) -> Option<Exception>
    requires { IsTrue (is_branch op) }
    ensures { result ≡ failed (test_given op (S.readings sources.now)) }
{
    match op {
        Op::Cmpnvb => numbers_compared(sources).err(),
        _ => None,
    }
}
