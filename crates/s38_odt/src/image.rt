ghost use Rattle.std.specs.Prelude.{◌≡◌, ◌^◌, ◌-◌, ◌*◌, ◌≤◌, ◌<◌, min, IsTrue, IfOk, pos};
ghost use Rattle.std.specs.Option.{option_map};
ghost use Rattle.s38_base.specs.Scalar.{fits};
ghost use Rattle.s38_base.specs.Attributes.{is_numeric};
ghost use Rattle.s38_base.specs.declared.attr.Attr.{Attr};
ghost use Rattle.s38_odt.specs.First.{fewer_digits, is_exact, magnitude_in, more_digits, number_held, units_held};

use s38_base::{Attr, Bytes, NoMemory};
use s38_decimal::write_scalar;
use s38_words::{Numeral, signed};
use std::alloc::Global;

/// The bytes of a number; None exactly where the attribute does not hold it.
#[tactic(auto, unfolding(s38_base::specs::Scalar::fits))]
pub fn units_held(alloc: Global, attr: Attr, units: i128) -> Result<Option<Bytes>, NoMemory>
    ensures { IfOk result (λ bytes. bytes ≡ units_held attr units) }
{
    if !attr.is_numeric() {
        return Ok(None);
    }
    let mut bytes = Bytes::repeated(alloc, 0, attr.length() as usize)?;
    match write_scalar(attr, units, bytes.as_mut_slice()) {
        Ok(()) => Ok(Some(bytes)),
        Err(_) => Ok(None),
    }
}

/// 10 to the power k.
fn ten(k: u8) -> u128
    requires { k ≤ 31 }
    ensures value { result ≡ 10 ^ k }
    ensures positive { 0 < result }
{
    10_u128.pow(u32::from(k))
}

/// The digits of a literal that the attribute has no place for are zeros.
fn is_exact(attr: Attr, literal: Numeral) -> bool
    requires { literal.fraction ≤ 31 }
    ensures { result ≡ is_exact attr literal }
{
    let fewer = literal.fraction.saturating_sub(attr.fraction());
    literal.units.unsigned_abs() % ten(fewer) == 0
}

/// The number of a literal in units of the attribute's last digit, without its sign; the largest number where
/// it is too large.
fn magnitude_in(attr: Attr, literal: Numeral) -> u128
    requires attr { IsTrue (is_numeric attr) }
    requires literal { literal.fraction ≤ 31 }
    ensures { result ≡ min (magnitude_in attr literal) (2 ^ 128 - 1) }
{
    let fewer = literal.fraction.saturating_sub(attr.fraction());
    let more = attr.fraction().saturating_sub(literal.fraction);
    (literal.units.unsigned_abs() / ten(fewer)).saturating_mul(ten(more))
}

/// The bytes of a number literal; None exactly where the attribute does not hold it exactly.
#[tactic(auto, unfolding(crate::specs::First::number_held))]
pub fn number_held(alloc: Global, attr: Attr, literal: Numeral) -> Result<Option<Bytes>, NoMemory>
    requires { literal.fraction ≤ 31 }
    ensures { IfOk result (λ bytes. bytes ≡ number_held attr literal) }
{
    if !attr.is_numeric() {
        return Ok(None);
    }
    if !is_exact(attr, literal) {
        return Ok(None);
    }
    let magnitude = magnitude_in(attr, literal);
    if magnitude > i128::MAX as u128 {
        return Ok(None);
    }
    units_held(alloc, attr, signed(literal.units < 0, magnitude))
}
