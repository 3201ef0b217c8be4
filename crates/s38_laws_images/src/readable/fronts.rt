//! Headers and rows are read again.
ghost use Rattle.std.specs.Prelude.{◌≡◌, ◌^◌, ◌<◌, ◌≤◌, length, true};
ghost use Rattle.s38_base.specs.Limits.{most_rows};
ghost use Rattle.s38_image.specs.Fitting.{rows_codec};
ghost use Rattle.s38_laws_images.specs.readable.Readable.{IsFront};
ghost use Rattle.s38_rules.specs.state.PrivateRows.{AreRows};

use s38_rules::{Object, PrivateRow};

/// What a row can be by its type.
fn row_is_typed(row: &PrivateRow)
    ensures user { row.now.user.0 < 2 ^ 64 }
    ensures rights { row.now.rights.0 < 256 }
{
    let _user = row.user.0;
    let _rights = row.rights.0;
}

/// Private rows are read again.
pub fn rows_are_readable(rows: &[PrivateRow])
    requires { AreRows rows.now }
    ensures { (rows_codec (length rows.now)).fits rows.now ≡ true }
{
    for row in rows {
        row_is_typed(row);
    }
}

/// The header and the rows of an object are read again, however long its body is.
pub fn front_is_readable(object: &Object)
    requires { length object.now.rows ≤ most_rows }
    ensures { IsFront object.now }
{
    // What these fields can be by their types makes that the header is read again.
    let _name = object.id.name.as_bytes();
    let _sub = object.id.sub;
    let _context = object.context.0;
    let _owner = object.owner.0;
    let _public = object.public.0;
    rows_are_readable(object.rows.as_slice());
}
