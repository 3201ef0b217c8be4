ghost use Rattle.std.specs.Prelude.{◌≡◌, ◌≤◌, length};
ghost use Rattle.s38_dataspaces.specs.Table.{entry_len};
ghost use Rattle.s38_dataspaces.specs.Values.{have_values, is_valued};

use s38_base::Attr;
use s38_decimal::read_scalar;

/// Whether a field may hold bytes: a numeric one has a value, others hold any bytes.
pub fn is_valued(attr: Attr, bytes: &[u8]) -> bool
    ensures { result ≡ is_valued attr bytes.now }
{
    !attr.is_numeric() || read_scalar(attr, bytes).is_ok()
}

/// Whether each numeric field has a value, where the bytes are cut into fields.
pub fn have_values(fields: &[Attr], bytes: &[u8]) -> bool
    requires { entry_len fields.now ≤ length bytes.now }
    ensures { result ≡ have_values fields.now bytes.now }
{
    match fields {
        [] => true,
        [field, more @ ..] => {
            let (first, rest) = bytes.split_at(usize::from(field.length()));
            is_valued(*field, first) && have_values(more, rest)
        }
    }
}
