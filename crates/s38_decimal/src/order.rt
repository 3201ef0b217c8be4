ghost use Rattle.std.specs.Prelude.{◌≡◌, ◌<◌, ◌≤◌, ◌-◌, ◌*◌, ◌^◌, max};
ghost use Rattle.std.specs.Ordering.{nat_cmp};
ghost use Rattle.s38_decimal.specs.Values.{exact_of, exact_order};

use crate::dec::Dec;
use crate::results::divided;
use crate::tens::ten;
use std::cmp::Ordering;

/// Compares n / 10 ^ f and m / 10 ^ g by their whole parts, and then by what comes after the point.
fn by_parts(n: u128, f: u8, m: u128, g: u8) -> Ordering
    requires first { f ≤ 31 }
    requires second { g ≤ 31 }
    ensures { result ≡ nat_cmp (n * 10 ^ (max f g - f)) (m * 10 ^ (max f g - g)) }
{
    let (whole, rest) = divided(n, ten(f));
    let (other_whole, other_rest) = divided(m, ten(g));
    if whole != other_whole {
        return whole.cmp(&other_whole);
    }
    let most = f.max(g);
    (rest * ten(most - f)).cmp(&(other_rest * ten(most - g)))
}

/// Compares n / 10 ^ f and m / 10 ^ g.
fn magnitudes(n: u128, f: u8, m: u128, g: u8) -> Ordering
    requires first { f ≤ 31 }
    requires second { g ≤ 31 }
    requires first_digits { n < 10 ^ 31 }
    requires second_digits { m < 10 ^ 31 }
    ensures { result ≡ nat_cmp (n * 10 ^ g) (m * 10 ^ f) }
{
    let most = f.max(g);
    if most - f <= 7 && most - g <= 7 {
        return (n * ten(most - f)).cmp(&(m * ten(most - g)));
    }
    by_parts(n, f, m, g)
}

/// Compares two numbers, whatever their fractions.
#[inline(never)]
fn compare_any(a: Dec, b: Dec) -> Ordering
    ensures { result ≡ exact_order (exact_of a) (exact_of b) }
{
    let f = a.attr.fraction();
    let g = b.attr.fraction();
    let x = a.units.unsigned_abs();
    let y = b.units.unsigned_abs();
    if a.units < 0 {
        if b.units < 0 {
            magnitudes(y, g, x, f)
        } else {
            Ordering::Less
        }
    } else if b.units < 0 {
        Ordering::Greater
    } else {
        magnitudes(x, f, y, g)
    }
}

/// Compares two numbers; any two have an order.
#[inline(always)]
pub fn compare(a: Dec, b: Dec) -> Ordering
    ensures { result ≡ exact_order (exact_of a) (exact_of b) }
{
    if a.attr.fraction() == b.attr.fraction() {
        return a.units.cmp(&b.units);
    }
    let (first, second) = (a, b);
    compare_any(first, second)
}
