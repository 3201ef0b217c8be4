//! Numbers of up to 18 digits, which are added and compared in 64 bits.
ghost use Rattle.std.specs.Prelude.{◌≡◌, ◌<◌, ◌≤◌, ◌^◌, ◌+ℤ◌, IfOk, IsTrue, unsigned_abs};
ghost use Rattle.std.specs.Ordering.{int_cmp};
ghost use Rattle.s38_base.specs.Scalar.{fits};
ghost use Rattle.s38_decimal.specs.Need.{sum_need};
ghost use Rattle.s38_decimal.specs.Values.{answer, exact_of, exact_order, sum_of};

use crate::dec::{Dec, DecimalFault, Target};
use crate::digits::has_one_fraction;
use crate::order::compare;
use crate::results::held;
use crate::sums::add;
use std::cmp::Ordering;

/// The same number in 64 bits.
#[inline(always)]
fn in_short(units: i128) -> i64
    requires { unsigned_abs units < 10 ^ 18 }
    ensures { result ≡ units }
{
    units as i64
}

/// The order of two such numbers.
#[inline(always)]
fn short_order(a: i128, b: i128) -> Ordering
    requires first { unsigned_abs a < 10 ^ 18 }
    requires second { unsigned_abs b < 10 ^ 18 }
    ensures { result ≡ int_cmp a b }
{
    let first = in_short(a);
    let second = in_short(b);
    first.cmp(&second)
}

/// The sum of two such numbers.
#[inline(always)]
fn short_sum(a: i128, b: i128) -> i128
    requires first { unsigned_abs a < 10 ^ 18 }
    requires second { unsigned_abs b < 10 ^ 18 }
    ensures { result ≡ a +ℤ b }
{
    i128::from(in_short(a) + in_short(b))
}

/// Compares two numbers of up to 18 digits.
#[inline(always)]
pub fn compare_short(a: Dec, b: Dec) -> Ordering
    requires first { unsigned_abs a.units < 10 ^ 18 }
    requires second { unsigned_abs b.units < 10 ^ 18 }
    ensures { result ≡ exact_order (exact_of a) (exact_of b) }
{
    if a.attr.fraction() == b.attr.fraction() {
        return short_order(a.units, b.units);
    }
    compare(a, b)
}

/// The sum of two numbers of up to 18 digits, at the receiver's fraction. `Size` exactly where the receiver doesn't
/// hold it.
#[inline(always)]
pub fn add_short(a: Dec, b: Dec, to: Target) -> Result<i128, DecimalFault>
    requires first { unsigned_abs a.units < 10 ^ 18 }
    requires second { unsigned_abs b.units < 10 ^ 18 }
    requires need { sum_need a.attr b.attr to.attr ≤ 38 }
    ensures exact { result ≡ answer to (sum_of (exact_of a) (exact_of b)) }
    ensures fits { IfOk result (λ units. IsTrue (fits to.attr units)) }
{
    if has_one_fraction(a.attr, b.attr, to.attr) {
        held(to, short_sum(a.units, b.units))
    } else {
        add(a, b, to)
    }
}
