//! Numbers that no deck can compare, since together they have more than 38 digits.

ghost use Rattle.std.specs.Prelude.{IsTrue};
ghost use Rattle.s38_base.specs.Scalar.{fits};
ghost use Rattle.s38_base.specs.declared.attr.Attr.{Attr};

use s38_base::Attr;
use s38_decimal::{Dec, compare};
use std::cmp::Ordering;

const LONGEST: i128 = 9_999_999_999_999_999_999_999_999_999_999;

/// A number of 31 digits, so many of them after the point.
fn number(units: i128, fraction: u8) -> Dec
    requires { IsTrue (fits (Attr.Packed 31 fraction) units) }
{
    Dec {
        units,
        attr: Attr::Packed {
            digits: 31,
            fraction,
        },
    }
}

#[test]
#[tactic(auto, unfolding(s38_base::specs::Scalar::fits))]
fn any_two_numbers_have_an_order(rt: HostRuntime) {
    let cases = [
        (number(1, 0), number(LONGEST, 31), Ordering::Greater),
        (number(-1, 31), number(0, 0), Ordering::Less),
    ];
    for (one, other, want) in cases {
        assert!(rt; compare(one, other) == want);
    }
}
