ghost use Rattle.std.specs.Prelude.{◌≡◌, length, min, take};
ghost use Rattle.std.specs.Cmp.Lexicographic.{slice_cmp};
ghost use Rattle.std.specs.Ordering.{nat_cmp};

use std::cmp::Ordering;

/// Compares as unsigned bytes over the shorter length.
pub fn compare(a: &[u8], b: &[u8]) -> Ordering
    ensures { let len = min (length a.now) (length b.now) in result ≡ slice_cmp nat_cmp (take len a.now) (take len b.now) }
{
    let len = a.len().min(b.len());
    a[..len].cmp(&b[..len])
}
