ghost use Rattle.std.specs.Prelude.{◌≡◌, ◌≤◌, length};
ghost use Rattle.std.specs.List.{list_all};
ghost use Rattle.s38_dataspaces.specs.Table.{are_fields, entry_len, is_field};

use s38_base::Attr;

/// How many fields a data space may have.
const MOST_FIELDS: usize = 256;
/// How many bytes an entry may have.
const LONGEST_ENTRY: usize = 4096;

/// It may be the attribute of a field.
fn is_field(attr: Attr) -> bool
    ensures { result ≡ is_field attr }
{
    attr.is_bounded() && !attr.is_pointer()
}

/// How many bytes an entry has.
pub fn entry_len(fields: &[Attr]) -> usize
    requires { length fields.now ≤ 256 }
    ensures { result ≡ entry_len fields.now }
{
    let mut len = 0;
    for field in fields {
        len += usize::from(field.length());
    }
    len
}

/// They are all attributes of fields.
fn are_all_fields(attrs: &[Attr]) -> bool
    ensures { result ≡ list_all is_field attrs.now }
{
    attrs.iter().all(|attr| is_field(*attr))
}

/// Whether a data space may have these fields: 1 to 256, none of them a pointer, of at most 4,096 bytes together.
pub fn are_fields(fields: &[Attr]) -> bool
    ensures { result ≡ are_fields fields.now }
{
    if fields.is_empty() || fields.len() > MOST_FIELDS {
        return false;
    }
    are_all_fields(fields) && entry_len(fields) <= LONGEST_ENTRY
}
