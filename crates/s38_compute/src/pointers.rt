ghost use Rattle.std.specs.Prelude.{◌≡◌, ◌<◌, ◌^◌, MatchOption, None, Some, unsigned_abs};
ghost use Rattle.s38_base.specs.declared.attr.Attr.{Attr};
ghost use Rattle.s38_decimal.specs.Values.{exact_of, whole_part_of};
ghost use Rattle.s38_compute.specs.Compute.{is_backwards, moved_offset, offset_in, pointer_moved, pointing};
ghost use Rattle.s38_compute.specs.Computed.{pointer_given};

use crate::sources::Sources;
use s38_base::exceptions::{DECIMAL_DATA, POINTER_MISSING, POINTER_TYPE_INVALID, SPACE_ADDRESSING};
use s38_base::limits::FURTHEST;
use s38_base::{Exception, ObjNum, Op, Pointer};
use s38_decimal::{Dec, whole_part};

/// A pointer's offset, where the number is one.
fn offset_in(number: i128) -> Option<u32>
    ensures { result ≡ offset_in number }
{
    if 0 <= number && number <= FURTHEST as i128 {
        Some(number as u32)
    } else {
        None
    }
}

fn is_backwards(op: Op) -> bool
    ensures { result ≡ is_backwards op }
{
    matches!(op, Op::Subspp)
}

fn moved(backwards: bool, offset: u32, by: i128) -> Option<u32>
    requires { unsigned_abs by < 10 ^ 31 }
    ensures { result ≡ moved_offset backwards offset by }
{
    if backwards {
        offset_in(offset as i128 - by)
    } else {
        offset_in(offset as i128 + by)
    }
}

/// The offset, moved by the whole part of a number.
fn moved_by(backwards: bool, offset: u32, number: Dec) -> Option<u32>
    ensures { result ≡ moved_offset backwards offset (whole_part_of (exact_of number)) }
{
    let by = whole_part(number);
    moved(backwards, offset, by)
}

fn pointing(object: ObjNum, offset: Option<u32>) -> Result<Pointer, Exception>
    ensures { result ≡ pointing object offset }
{
    match offset {
        None => Err(Exception::plain(SPACE_ADDRESSING, 3)),
        Some(offset) => Ok(Pointer::Space { object, offset }),
    }
}

/// A space pointer, moved by the whole part of a number; None is given for a number without value.
fn pointer_moved(
    op: Op,
    pointer: Option<Pointer>,
    number: Option<Dec>,
) -> Result<Pointer, Exception>
    ensures { MatchOption number
        ((attr : Attr) → result ≡ pointer_moved op pointer attr None)
        (λ n. result ≡ pointer_moved op pointer n.attr (Some n.units)) }
{
    match pointer {
        None => Err(Exception::plain(POINTER_MISSING, 2)),
        Some(Pointer::Space { object, offset }) => match number {
            None => Err(Exception::plain(DECIMAL_DATA, 3)),
            Some(number) => pointing(object, moved_by(is_backwards(op), offset, number)),
        },
        Some(_) => Err(Exception::plain(POINTER_TYPE_INVALID, 2)),
    }
}

/// The space pointer, moved by the number, or what is signalled.
#[tactic(auto, using(crate::proofs::NumberLaws::moved_by_read), unfolding(crate::specs::Computed::pointer_given))]
pub fn pointer_given<S: Sources>(sources: &S, op: Op) -> Result<Pointer, Exception>
    ensures { result ≡ pointer_given op (S.readings sources.now) }
{
    let number = sources.number(3);
    pointer_moved(op, sources.pointer(2), number)
}
