//! The private rows of an object.
ghost use Rattle.std.specs.Prelude.{◌≡◌};
ghost use Rattle.s38_codec.specs.Codec.{times, whole};
ghost use Rattle.s38_codec.specs.Reading.{Gives};
ghost use Rattle.s38_image.specs.Headers.{row_form as row_format, rows, users_rise};

use crate::heads::row_at;
use s38_codec::ReadFault;
use s38_rules::{PrivateRow, RowList};
use std::alloc::Global;

/// So many rows, which are all of the bytes.
fn rows_in(alloc: Global, count: u32, from: &[u8]) -> Result<Vec<PrivateRow>, ReadFault>
    ensures { Gives (λ rows. rows.items) result (whole (times count row_format) from.now) }
{
    let mut rows = Vec::new(alloc);
    let mut rest = from;
    for _ in 0..count {
        let (row, after) = row_at(rest)?;
        rows.push(row)?;
        rest = after;
    }
    if !rest.is_empty() {
        return Err(ReadFault::BadForm);
    }
    Ok(rows)
}

/// Whether the users strictly rise.
fn are_rising(rows: &[PrivateRow]) -> bool
    ensures { result ≡ users_rise rows.now }
{
    for at in 1..rows.len() {
        if rows[at - 1].user.0 >= rows[at].user.0 {
            return false;
        }
    }
    true
}

/// So many rows, whose users strictly rise.
pub fn rows_of(alloc: Global, count: u32, bytes: &[u8]) -> Result<RowList, ReadFault>
    ensures { Gives (λ rows. rows) result ((rows count).read bytes.now) }
{
    let rows = rows_in(alloc, count, bytes)?;
    if !are_rising(&rows) {
        return Err(ReadFault::BadForm);
    }
    Ok(RowList::from_rows(rows))
}
