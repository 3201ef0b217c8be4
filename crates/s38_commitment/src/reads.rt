//! Entries of a journal read by their sequence.
ghost use Rattle.std.specs.Prelude.{◌≡◌, IfOk};
ghost use Rattle.std.specs.Option.{option_copied, unwrap_or};
ghost use Rattle.s38_journals.specs.Journals.{entry_bytes_at};
ghost use Rattle.s38_rules.specs.families.Journals.{bytes_or_empty, entry_bytes, retjent_fails, retjent_gives};
ghost use Rattle.s38_rules.specs.state.PartsAt.{no_journal};

use s38_base::exceptions::{DECIMAL_DATA, NO_ENTRY};
use s38_base::{Exception, NoMemory};
use s38_code::{Operand, Val};
use s38_journals::Journal;
use s38_objects::Objects;
use s38_operands::{fails, fitted, number_at, ordinal_at, room_at, target};
use std::alloc::Global;

/// The bytes of the entry of a sequence; a number that no sequence reaches has none.
#[tactic(auto, using(crate::proofs::CommitmentLaws::no_bytes, crate::proofs::CommitmentLaws::none_after))]
fn entry_in(journal: Option<&Journal>, sequence: u128) -> Option<&[u8]>
    ensures { option_copied result ≡ entry_bytes_at (unwrap_or (option_copied journal.entry) no_journal).entries sequence }
{
    match journal {
        Some(journal) => {
            if sequence > u128::from(journal.last()) {
                return None;
            }
            journal.entry(sequence as u64)
        }
        None => None,
    }
}

/// The bytes of the entry whose sequence operand 3 is.
fn entry_bytes<'a>(objects: &'a Objects, operands: &[Operand]) -> Option<&'a [u8]>
    ensures { option_copied result ≡ entry_bytes objects.now operands.now }
{
    let journal = objects.journal(target(objects, operands, 2));
    entry_in(journal, ordinal_at(objects, operands, 3))
}

/// The number has a value, and there is such an entry.
#[tactic(auto, unfolding(s38_rules::specs::families::Journals::retjent_fails))]
pub fn retjent_fails(objects: &Objects, operands: &[Operand]) -> Option<Exception>
    ensures { result ≡ retjent_fails objects.now operands.now }
{
    if number_at(objects, operands, 3).is_none() {
        return Some(Exception::plain(DECIMAL_DATA, 3));
    }
    fails(entry_bytes(objects, operands).is_none(), NO_ENTRY, 3)
}

fn bytes_or_empty(entry: Option<&[u8]>) -> &[u8]
    ensures { result.now ≡ bytes_or_empty (option_copied entry.entry) }
{
    match entry {
        None => &[],
        Some(entry) => entry,
    }
}

/// The entry, cut or filled with zeros.
#[tactic(auto, unfolding(s38_rules::specs::families::Journals::retjent_bytes))]
pub fn retjent_gives(
    alloc: Global,
    objects: &Objects,
    operands: &[Operand],
) -> Result<Val, NoMemory>
    ensures { IfOk result (λ value. value ≡ retjent_gives objects.now operands.now) }
{
    let entry = bytes_or_empty(entry_bytes(objects, operands));
    let bytes = fitted(alloc, room_at(operands, 1), 0, entry)?;
    Ok(Val::Bytes(bytes))
}
