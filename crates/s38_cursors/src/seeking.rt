//! Where a cursor goes.
ghost use Rattle.s38_rules.specs.ask.Operands.{target};
ghost use Rattle.s38_rules.specs.state.PartsAt.{on_cursor};
ghost use Rattle.std.specs.Prelude.{◌≡◌};
ghost use Rattle.s38_rules.specs.families.CursorSeeks.{at_sought, ordinal_rule, seek_fails, seek_of, seeks_ordinal, setcr_fails, sought_ordinal};

use crate::changes::move_at;
use crate::reads::{cursor_of, ordinal_in, sought_in, table_at};
use s38_base::exceptions::{DECIMAL_DATA, NO_ENTRY};
use s38_base::{Exception, Seek};
use s38_code::Operand;
use s38_invoke::{Core, Profiles};
use s38_objects::Objects;
use s38_operands::{fails, number_at, ordinal_at, target, word_at};

fn seek_of(word: u32) -> Seek
    ensures { result ≡ seek_of word }
{
    if word == 0 {
        Seek::First
    } else if word == 1 {
        Seek::Last
    } else if word == 2 {
        Seek::Next
    } else if word == 3 {
        Seek::Prev
    } else {
        Seek::At
    }
}

fn is_at(how: Seek) -> bool
    ensures { result ≡ seeks_ordinal how }
{
    matches!(how, Seek::At)
}

/// The ordinal of the entry that is sought.
fn sought_ordinal(how: Seek, objects: &Objects, operands: &[Operand]) -> Option<u32>
    ensures { result ≡ sought_ordinal how objects.now operands.now }
{
    let cursor = cursor_of(objects, operands, 1);
    let table = table_at(objects, cursor.space);
    match how {
        Seek::At => ordinal_in(table, ordinal_at(objects, operands, 3)),
        _ => sought_in(table, how, cursor.position),
    }
}

/// An ordinal that is used has a value.
fn ordinal_rule(how: Seek, objects: &Objects, operands: &[Operand]) -> Option<Exception>
    ensures { result ≡ ordinal_rule how objects.now operands.now }
{
    if is_at(how) {
        fails(number_at(objects, operands, 3).is_none(), DECIMAL_DATA, 3)
    } else {
        None
    }
}

fn seek_fails(how: Seek, objects: &Objects, operands: &[Operand]) -> Option<Exception>
    ensures { result ≡ seek_fails how objects.now operands.now }
{
    if let Some(failure) = ordinal_rule(how, objects, operands) {
        return Some(failure);
    }
    fails(
        sought_ordinal(how, objects, operands).is_none(),
        NO_ENTRY,
        1,
    )
}

/// There is such an entry.
#[tactic(auto, unfolding(s38_rules::specs::families::CursorSeeks::setcr_fails))]
pub fn setcr_fails(objects: &Objects, operands: &[Operand]) -> Option<Exception>
    ensures { result ≡ setcr_fails objects.now operands.now }
{
    seek_fails(seek_of(word_at(operands, 2)), objects, operands)
}

/// The cursor moves to the entry that is sought.
pub fn setcr(world: &mut Core<Objects, Profiles>, operands: &[Operand])
    ensures { world.new ≡ record world.old { held = on_cursor world.old.held (target world.old.held operands.now 1) (at_sought world.old.held operands.now) } }
{
    let number = target(&world.objects, operands, 1);
    let ordinal = sought_ordinal(seek_of(word_at(operands, 2)), &world.objects, operands);
    move_at(world, number, ordinal);
}
