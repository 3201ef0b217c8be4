ghost use Rattle.std.specs.Prelude.{◌≡◌, ◌<◌, ◌≤◌, ◌+◌, ◌-◌, ◌*◌, ◌/◌, ◌%◌, ◌^◌, IfOk, IsTrue, unsigned_abs};
ghost use Rattle.s38_base.specs.Scalar.{fits};
ghost use Rattle.s38_decimal.specs.Values.{cut_or_rounded, held_units, with_sign};

use crate::dec::{DecimalFault, Target};
use crate::tens::ten;
use crate::units::{fits, signed};

/// Quotient and rest; in 64 bits where they are enough.
pub fn divided(n: u128, m: u128) -> (u128, u128)
    requires { 0 < m }
    ensures quotient { result.0 ≡ n / m }
    ensures rest { result.1 ≡ n % m }
{
    let most = u64::MAX as u128;
    if n <= most && m <= most {
        let (n, m) = (n as u64, m as u64);
        ((n / m) as u128, (n % m) as u128)
    } else {
        (n / m, n % m)
    }
}

/// n / m, rounded with halves up.
#[tactic(auto, using(crate::proofs::Fractions::roundings))]
fn rounded(n: u128, m: u128) -> u128
    requires { 0 < m }
    ensures value { result ≡ (2 * n + m) / (2 * m) }
    ensures bound { result ≤ n }
{
    let (quotient, rest) = divided(n, m);
    if m - rest <= rest {
        quotient + 1
    } else {
        quotient
    }
}

/// n / m, cut, or rounded with halves up.
fn cut_or_rounded(round: bool, n: u128, m: u128) -> u128
    requires { 0 < m }
    ensures value { result ≡ cut_or_rounded round n m }
    ensures bound { result ≤ n }
{
    if round {
        rounded(n, m)
    } else {
        divided(n, m).0
    }
}

/// n, with the sign of z.
pub fn with_sign(z: i128, n: u128) -> i128
    requires { n < 2 ^ 127 }
    ensures { result ≡ with_sign z n }
{
    signed(z < 0, n)
}

/// n * 10 ^ up / (m * 10 ^ down), cut or rounded. Only the difference of the powers is taken.
fn whole(round: bool, n: u128, m: u128, up: u8, down: u8) -> u128
    requires bottom { 0 < m }
    requires up_few { up - down ≤ 38 }
    requires down_few { down - up ≤ 38 }
    requires top_room { n * 10 ^ (up - down) ≤ 10 ^ 38 }
    requires bottom_room { m * 10 ^ (down - up) ≤ 10 ^ 38 }
    ensures value { result ≡ cut_or_rounded round (n * 10 ^ up) (m * 10 ^ down) }
    ensures bound { result ≤ 10 ^ 38 }
{
    if down <= up {
        cut_or_rounded(round, n * ten(up - down), m)
    } else {
        cut_or_rounded(round, n, m * ten(down - up))
    }
}

/// The receiver takes the units, or they don't fit.
#[inline(always)]
pub fn held(to: Target, units: i128) -> Result<i128, DecimalFault>
    ensures value { result ≡ held_units to units }
    ensures fits { IfOk result (λ units. IsTrue (fits to.attr units)) }
{
    if fits(to.attr, units) {
        Ok(units)
    } else {
        Err(DecimalFault::Size)
    }
}

/// What the receiver answers to top * 10 ^ up / (bottom * 10 ^ down).
pub fn answer(to: Target, top: i128, bottom: u128, up: u8, down: u8) -> Result<i128, DecimalFault>
    requires bottom { 0 < bottom }
    requires up_few { up - down ≤ 38 }
    requires down_few { down - up ≤ 38 }
    requires top_room { unsigned_abs top * 10 ^ (up - down) ≤ 10 ^ 38 }
    requires bottom_room { bottom * 10 ^ (down - up) ≤ 10 ^ 38 }
    ensures exact { result ≡ held_units to
        (with_sign top (cut_or_rounded to.round (unsigned_abs top * 10 ^ up) (bottom * 10 ^ down))) }
    ensures fits { IfOk result (λ units. IsTrue (fits to.attr units)) }
{
    let units = whole(to.round, top.unsigned_abs(), bottom, up, down);
    held(to, with_sign(top, units))
}
