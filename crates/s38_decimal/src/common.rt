ghost use Rattle.std.specs.Prelude.{◌≡◌, ◌≤◌, ◌+◌, ◌-◌, ◌^◌, unsigned_abs};
ghost use Rattle.s38_base.specs.Attributes.{digits_of, fraction_of};
ghost use Rattle.s38_decimal.specs.Common.{brought};
ghost use Rattle.s38_decimal.specs.Forms.{IsOf};
ghost use Rattle.s38_decimal.specs.Need.{longer_fraction};

use crate::digits::longer_fraction;
use crate::signed::raised;
use s38_base::Attr;

/// A number at the longer fraction of its own attribute and another.
pub fn brought(x: i128, own: Attr, other: Attr) -> i128
    requires number { IsOf own x }
    requires room { digits_of own + (longer_fraction own other - fraction_of own) ≤ 38 }
    ensures { result ≡ brought (fraction_of own) (fraction_of other) x }
{
    let most = longer_fraction(own, other);
    let behind = own.fraction();
    raised(x, most - behind)
}
