ghost use Rattle.std.specs.Prelude.{◌≡◌, ◌<◌, ◌≤◌, ◌^◌, ◌*ℤ◌, IfOk, IsTrue, unsigned_abs};
ghost use Rattle.std.specs.Int.{int_signum};
ghost use Rattle.s38_base.specs.Scalar.{fits};
ghost use Rattle.s38_decimal.specs.Need.{quotient_need, remainder_need};
ghost use Rattle.s38_decimal.specs.Values.{answer, exact_of, quotient_answer, quotient_of, remainder_answer, remainder_of};

use crate::dec::{Dec, DecimalFault, Target};
use crate::results::answer;
use crate::signed::negative;

/// a, with its sign turned where b is negative.
fn turned(a: i128, b: i128) -> i128
    requires small { unsigned_abs a ≤ 10 ^ 38 }
    requires divisor { 0 < unsigned_abs b }
    ensures { result ≡ a *ℤ int_signum b }
{
    if b < 0 { negative(a) } else { a }
}

/// The quotient by a number that is not 0.
fn quotient(a: Dec, b: Dec, to: Target) -> Result<i128, DecimalFault>
    requires divisor { 0 < unsigned_abs b.units }
    requires need { quotient_need a.attr b.attr to.attr ≤ 38 }
    ensures exact { result ≡ answer to (quotient_of (exact_of a) (exact_of b)) }
    ensures fits { IfOk result (λ units. IsTrue (fits to.attr units)) }
{
    let at = to.attr.fraction();
    let first = a.attr.fraction();
    let second = b.attr.fraction();
    let top = turned(a.units, b.units);
    let bottom = b.units.unsigned_abs();
    answer(to, top, bottom, at + second, first)
}

/// The quotient, at the receiver's fraction. `ZeroDivide` exactly where the divisor is 0, else `Size`
/// exactly where the receiver doesn't hold it.
pub fn div(a: Dec, b: Dec, to: Target) -> Result<i128, DecimalFault>
    requires { quotient_need a.attr b.attr to.attr ≤ 38 }
    ensures exact { result ≡ quotient_answer to (exact_of a) (exact_of b) }
    ensures fits { IfOk result (λ units. IsTrue (fits to.attr units)) }
{
    if b.units == 0 {
        return Err(DecimalFault::ZeroDivide);
    }
    quotient(a, b, to)
}
