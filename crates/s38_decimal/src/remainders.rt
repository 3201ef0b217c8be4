ghost use Rattle.std.specs.Prelude.{◌≡◌, ◌<◌, ◌≤◌, ◌^◌, IfOk, IsTrue, unsigned_abs};
ghost use Rattle.s38_base.specs.Scalar.{fits};
ghost use Rattle.s38_decimal.specs.Common.{rest_of};
ghost use Rattle.s38_decimal.specs.Need.{remainder_need};
ghost use Rattle.s38_decimal.specs.Values.{answer, exact_of, remainder_answer, remainder_of};

use crate::common::brought;
use crate::dec::{Dec, DecimalFault, Target};
use crate::digits::longer_fraction;
use crate::results::{answer, divided, with_sign};

/// What is left of x; it has the sign of x.
fn rest(x: i128, y: i128) -> i128
    requires small { unsigned_abs x ≤ 10 ^ 38 }
    requires divisor { 0 < unsigned_abs y }
    ensures { result ≡ rest_of x y }
{
    let (_, rest) = divided(x.unsigned_abs(), y.unsigned_abs());
    with_sign(x, rest)
}

/// The remainder by a number that is not 0.
fn remainder(a: Dec, b: Dec, to: Target) -> Result<i128, DecimalFault>
    requires divisor { 0 < unsigned_abs b.units }
    requires need { remainder_need a.attr b.attr to.attr ≤ 38 }
    ensures exact { result ≡ answer to (remainder_of (exact_of a) (exact_of b)) }
    ensures fits { IfOk result (λ units. IsTrue (fits to.attr units)) }
{
    let at = to.attr.fraction();
    let behind = longer_fraction(a.attr, b.attr);
    let x = brought(a.units, a.attr, b.attr);
    let y = brought(b.units, b.attr, a.attr);
    let top = rest(x, y);
    answer(to, top, 1, at, behind)
}

/// What is left of a once b, times their quotient cut to a whole number, is taken from it, at the
/// receiver's fraction. `ZeroDivide` exactly where the divisor is 0, else `Size` exactly where the
/// receiver doesn't hold it.
pub fn rem(a: Dec, b: Dec, to: Target) -> Result<i128, DecimalFault>
    requires { remainder_need a.attr b.attr to.attr ≤ 38 }
    ensures exact { result ≡ remainder_answer to (exact_of a) (exact_of b) }
    ensures fits { IfOk result (λ units. IsTrue (fits to.attr units)) }
{
    if b.units == 0 {
        return Err(DecimalFault::ZeroDivide);
    }
    remainder(a, b, to)
}
