ghost use Rattle.std.specs.Prelude.{◌≡◌, ◌≤◌, IfOk, IsTrue};
ghost use Rattle.s38_base.specs.Scalar.{fits};
ghost use Rattle.s38_base.specs.Attributes.{fraction_of};
ghost use Rattle.s38_decimal.specs.Common.{common_sum};
ghost use Rattle.s38_decimal.specs.Forms.{IsOf};
ghost use Rattle.s38_decimal.specs.Need.{order_need, sum_need};
ghost use Rattle.s38_decimal.specs.Values.{answer, difference_of, exact, exact_of, sum_of};

use crate::common::brought;
use crate::dec::{Dec, DecimalFault, Target};
use crate::digits::{has_one_fraction, longer_fraction};
use crate::results::{answer, held};
use crate::signed::{negative, sum};
use s38_base::Attr;

/// x + y, at the longer fraction.
fn common_sum(x: i128, first: Attr, y: i128, second: Attr) -> i128
    requires first { IsOf first x }
    requires second { IsOf second y }
    requires need { order_need first second ≤ 37 }
    ensures { result ≡ common_sum (fraction_of first) (fraction_of second) x y }
{
    let one = brought(x, first, second);
    let other = brought(y, second, first);
    sum(one, other)
}

/// x + y, whatever the fractions.
#[inline(never)]
fn total(x: i128, first: Attr, y: i128, second: Attr, to: Target) -> Result<i128, DecimalFault>
    requires first { IsOf first x }
    requires second { IsOf second y }
    requires need { sum_need first second to.attr ≤ 38 }
    ensures exact { result ≡ answer to (sum_of (exact x (fraction_of first)) (exact y (fraction_of second))) }
    ensures fits { IfOk result (λ units. IsTrue (fits to.attr units)) }
{
    let at = to.attr.fraction();
    let behind = longer_fraction(first, second);
    let top = common_sum(x, first, y, second);
    answer(to, top, 1, at, behind)
}

/// The sum, at the receiver's fraction. `Size` exactly where the receiver doesn't hold it.
#[inline(always)]
pub fn add(a: Dec, b: Dec, to: Target) -> Result<i128, DecimalFault>
    requires { sum_need a.attr b.attr to.attr ≤ 38 }
    ensures exact { result ≡ answer to (sum_of (exact_of a) (exact_of b)) }
    ensures fits { IfOk result (λ units. IsTrue (fits to.attr units)) }
{
    if has_one_fraction(a.attr, b.attr, to.attr) {
        held(to, sum(a.units, b.units))
    } else {
        total(a.units, a.attr, b.units, b.attr, to)
    }
}

/// The difference, at the receiver's fraction. `Size` exactly where the receiver doesn't hold it.
#[inline(always)]
pub fn sub(a: Dec, b: Dec, to: Target) -> Result<i128, DecimalFault>
    requires { sum_need a.attr b.attr to.attr ≤ 38 }
    ensures exact { result ≡ answer to (difference_of (exact_of a) (exact_of b)) }
    ensures fits { IfOk result (λ units. IsTrue (fits to.attr units)) }
{
    let negative = negative(b.units);
    if has_one_fraction(a.attr, b.attr, to.attr) {
        held(to, sum(a.units, negative))
    } else {
        total(a.units, a.attr, negative, b.attr, to)
    }
}
