ghost use Rattle.std.specs.Prelude.{◌≡◌, ◌<◌, ◌^◌, ◌==◌, ◌||◌, IsTrue};
ghost use Rattle.s38_base.specs.Scalar.{fits, fits_bytes, with_minus};

use crate::tens::ten;
use s38_base::Attr;

/// A number and its sign.
pub fn signed(minus: bool, number: u128) -> i128
    requires { number < 2 ^ 127 }
    ensures { result ≡ with_minus minus number }
{
    if minus {
        -(number as i128)
    } else {
        number as i128
    }
}

/// So many bytes hold the number.
fn fits_bytes(size: u8, units: i128) -> bool
    requires { IsTrue ((size == 2) || (size == 4)) }
    ensures { result ≡ fits_bytes size units }
{
    if size == 2 {
        -0x8000 <= units && units < 0x8000
    } else {
        -0x8000_0000 <= units && units < 0x8000_0000
    }
}

/// The attribute is numeric and holds the number.
#[tactic(auto, unfolding(s38_base::specs::Scalar::fits))]
#[inline(always)]
pub fn fits(attr: Attr, units: i128) -> bool
    ensures { result ≡ fits attr units }
{
    if !attr.is_numeric() {
        return false;
    }
    match attr {
        Attr::Binary { size } => fits_bytes(size, units),
        _ => units.unsigned_abs() < ten(attr.digits()),
    }
}
