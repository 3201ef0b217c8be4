ghost use Rattle.std.specs.Prelude.{◌≡◌, ◌≤◌, ◌+◌, ◌*◌, ◌^◌, ◌*ℤ◌, ◌+ℤ◌, neg_ℤ, pos, unsigned_abs};

use crate::tens::ten;

/// a * b.
pub fn product(a: i128, b: i128) -> i128
    requires { unsigned_abs a * unsigned_abs b ≤ 10 ^ 38 }
    ensures { result ≡ a *ℤ b }
{
    a * b
}

/// units * 10 ^ k.
pub fn raised(units: i128, k: u8) -> i128
    requires few { k ≤ 38 }
    requires room { unsigned_abs units * 10 ^ k ≤ 10 ^ 38 }
    ensures { result ≡ units *ℤ pos (10 ^ k) }
{
    product(units, ten(k) as i128)
}

/// a + b.
pub fn sum(a: i128, b: i128) -> i128
    requires { unsigned_abs a + unsigned_abs b ≤ 10 ^ 38 }
    ensures { result ≡ a +ℤ b }
{
    a + b
}

/// -a.
pub fn negative(a: i128) -> i128
    requires { unsigned_abs a ≤ 10 ^ 38 }
    ensures { result ≡ neg_ℤ a }
{
    -a
}
