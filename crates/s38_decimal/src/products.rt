ghost use Rattle.std.specs.Prelude.{◌≡◌, ◌<◌, ◌≤◌, ◌-◌, pos, negsuc, IfOk, IsTrue};
ghost use Rattle.s38_base.specs.Scalar.{fits};
ghost use Rattle.s38_decimal.specs.Need.{copy_need, product_need, scale_need};
ghost use Rattle.s38_decimal.specs.Values.{answer, exact_of, negative_of, product_of, scaled_by};

use crate::dec::{Dec, DecimalFault, Target};
use crate::results::answer;
use crate::signed::{negative, product};

/// The product, at the receiver's fraction. `Size` exactly where the receiver doesn't hold it.
pub fn mult(a: Dec, b: Dec, to: Target) -> Result<i128, DecimalFault>
    requires { product_need a.attr b.attr to.attr ≤ 38 }
    ensures exact { result ≡ answer to (product_of (exact_of a) (exact_of b)) }
    ensures fits { IfOk result (λ units. IsTrue (fits to.attr units)) }
{
    let top = product(a.units, b.units);
    let at = to.attr.fraction();
    let first = a.attr.fraction();
    let second = b.attr.fraction();
    answer(to, top, 1, at, first + second)
}

/// The negative, at the receiver's fraction. `Size` exactly where the receiver doesn't hold it.
pub fn neg(a: Dec, to: Target) -> Result<i128, DecimalFault>
    requires { copy_need a.attr to.attr ≤ 38 }
    ensures exact { result ≡ answer to (negative_of (exact_of a)) }
    ensures fits { IfOk result (λ units. IsTrue (fits to.attr units)) }
{
    let top = negative(a.units);
    let at = to.attr.fraction();
    let behind = a.attr.fraction();
    answer(to, top, 1, at, behind)
}

/// The number times 10 ^ zeros.
fn times_ten(a: Dec, zeros: u8, to: Target) -> Result<i128, DecimalFault>
    requires { scale_need a.attr to.attr (pos zeros) ≤ 38 }
    ensures exact { result ≡ answer to (scaled_by (exact_of a) (pos zeros)) }
    ensures fits { IfOk result (λ units. IsTrue (fits to.attr units)) }
{
    let at = to.attr.fraction();
    let behind = a.attr.fraction();
    answer(to, a.units, 1, at + zeros, behind)
}

/// The number divided by 10 ^ zeros.
fn by_ten(a: Dec, zeros: u8, to: Target) -> Result<i128, DecimalFault>
    requires some { 0 < zeros }
    requires need { scale_need a.attr to.attr (negsuc (zeros - 1)) ≤ 38 }
    ensures exact { result ≡ answer to (scaled_by (exact_of a) (negsuc (zeros - 1))) }
    ensures fits { IfOk result (λ units. IsTrue (fits to.attr units)) }
{
    let at = to.attr.fraction();
    let behind = a.attr.fraction();
    answer(to, a.units, 1, at, behind + zeros)
}

/// The number times 10 ^ power, at the receiver's fraction. `Size` exactly where the receiver doesn't
/// hold it.
pub fn scale(a: Dec, power: i8, to: Target) -> Result<i128, DecimalFault>
    requires { scale_need a.attr to.attr power ≤ 38 }
    ensures exact { result ≡ answer to (scaled_by (exact_of a) power) }
    ensures fits { IfOk result (λ units. IsTrue (fits to.attr units)) }
{
    let zeros = power.unsigned_abs();
    if power >= 0 {
        times_ten(a, zeros, to)
    } else {
        by_ten(a, zeros, to)
    }
}
