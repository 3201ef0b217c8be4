//! Numbers that rise.
ghost use Rattle.std.specs.Prelude.{◌≡◌, ◌==◌};
ghost use Rattle.std.specs.List.{position_or_len};
ghost use Rattle.std.specs.List.Sorted.{IsStrictlyIncreasing};

/// At which place a number is among numbers that rise, or how many there are, if it is not there.
pub fn place_of(numbers: &[u64], number: u64) -> usize
    requires { IsStrictlyIncreasing numbers.now }
    ensures { result ≡ position_or_len (λ n. n == number) numbers.now }
{
    match numbers.binary_search(&number) {
        Ok(at) => at,
        Err(_) => numbers.len(),
    }
}
