ghost use Rattle.std.specs.Prelude.{◌≡◌, ◌<◌, ◌^◌, unsigned_abs};
ghost use Rattle.s38_decimal.specs.Values.{exact_of, whole_part_of};

use crate::dec::Dec;
use crate::results::{divided, with_sign};
use crate::tens::ten;

/// The number without its fraction.
pub fn whole_part(a: Dec) -> i128
    ensures value { result ≡ whole_part_of (exact_of a) }
    ensures bound { unsigned_abs result < 10 ^ 31 }
{
    let behind = a.attr.fraction();
    let units = a.units.unsigned_abs();
    let one = ten(behind);
    let (whole, _) = divided(units, one);
    with_sign(a.units, whole)
}
