ghost use Rattle.std.specs.Prelude.{◌≡◌, ◌||◌, IsTrue, pos, negsuc, ◌≤ℤ◌};
ghost use Rattle.s38_base.specs.Attributes.{is_numeric};
ghost use Rattle.s38_decimal.specs.Forms.{is_short};
ghost use Rattle.s38_decimal.specs.Need.{has_one, has_one_fraction, has_receiver, has_second, longer_fraction, longer_whole, need_of, quotient_need, scale_need, whole_digits};

use s38_base::{Attr, Op};

fn whole_digits(attr: Attr) -> u8
    requires { IsTrue (is_numeric attr) }
    ensures { result ≡ whole_digits attr }
{
    attr.digits() - attr.fraction()
}

fn longer_whole(a: Attr, b: Attr) -> u8
    requires first { IsTrue (is_numeric a) }
    requires second { IsTrue (is_numeric b) }
    ensures { result ≡ longer_whole a b }
{
    whole_digits(a).max(whole_digits(b))
}

/// How many digits are after the point of the one that has more.
pub fn longer_fraction(a: Attr, b: Attr) -> u8
    ensures { result ≡ longer_fraction a b }
{
    a.fraction().max(b.fraction())
}

/// Both numbers and the receiver have as many digits after the point.
#[inline(always)]
pub fn has_one_fraction(a: Attr, b: Attr, to: Attr) -> bool
    ensures { result ≡ has_one_fraction a b to }
{
    let behind = to.fraction();
    a.fraction() == behind && b.fraction() == behind
}

/// A packed number of up to 18 digits, which 64 bits hold.
#[inline(always)]
pub fn is_short(attr: Attr) -> bool
    ensures { result ≡ is_short attr }
{
    match attr {
        Attr::Packed { digits, .. } => digits <= 18,
        _ => false,
    }
}

fn quotient_need(a: Attr, b: Attr, to: Attr) -> u8
    requires first { IsTrue (is_numeric a) }
    requires second { IsTrue (is_numeric b) }
    requires receiver { IsTrue (is_numeric to) }
    ensures { result ≡ quotient_need a b to }
{
    let behind = to.fraction() + b.fraction();
    let dividend = a.digits() + behind.saturating_sub(a.fraction());
    let divisor = b.digits() + a.fraction().saturating_sub(behind);
    dividend.max(divisor)
}

fn scale_need(a: Attr, to: Attr, power: i8) -> u8
    requires first { IsTrue (is_numeric a) }
    requires receiver { IsTrue (is_numeric to) }
    requires least { negsuc 30 ≤ℤ power }
    requires greatest { power ≤ℤ pos 31 }
    ensures { result ≡ scale_need a to power }
{
    if power >= 0 {
        whole_digits(a) + power as u8 + longer_fraction(a, to)
    } else {
        whole_digits(a) + (a.fraction() + power.unsigned_abs()).max(to.fraction())
    }
}

/// How many digits an arithmetic instruction needs. A receiver that an instruction doesn't have, a second
/// source and a power are not looked at where they don't belong to it.
pub fn need(op: Op, a: Attr, b: Attr, to: Attr, power: i8) -> u8
    requires counted { IsTrue (has_one op || has_second op) }
    requires first { IsTrue (is_numeric a) }
    requires second { IsTrue (has_second op) → IsTrue (is_numeric b) }
    requires receiver { IsTrue (has_receiver op) → IsTrue (is_numeric to) }
    requires least { negsuc 30 ≤ℤ power }
    requires greatest { power ≤ℤ pos 31 }
    ensures { result ≡ need_of op a b to power }
{
    match op {
        Op::Addn => longer_whole(a, b) + 1 + longer_fraction(a, b).max(to.fraction()),
        Op::Subn => longer_whole(a, b) + 1 + longer_fraction(a, b).max(to.fraction()),
        Op::Mult => whole_digits(a)
            + whole_digits(b)
            + (a.fraction() + b.fraction()).max(to.fraction()),
        Op::Div => quotient_need(a, b, to),
        Op::Rem => longer_whole(a, b) + longer_fraction(a, b).max(to.fraction()),
        Op::Neg => whole_digits(a) + longer_fraction(a, to),
        Op::Cpynv => whole_digits(a) + longer_fraction(a, to),
        Op::Scale => scale_need(a, to, power),
        Op::Cmpnvb => longer_whole(a, b) + longer_fraction(a, b),
        _ => unreachable!(),
    }
}
