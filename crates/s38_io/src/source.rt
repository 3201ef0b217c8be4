ghost use Rattle.std.specs.Prelude.{◌≡◌, List, Option, ℕ, is_err};
ghost use Rattle.s38_base.specs.Faults.{HasCause};
ghost use Rattle.s38_io.specs.Calls.{faults_after};
ghost use Rattle.s38_io.specs.Source.{ReadsAtMost, Takes};

use s38_base::Failed;

/// Where bytes come from. A call that fails is counted.
pub trait Source {
    /// The bytes that are left, where the source tells them.
    ghost left: { Self → Option (List ℕ) };

    /// How often the source has failed.
    ghost faults: { Self → ℕ };

    /// Fills the front of a piece with the bytes that come next, and says how many they are: 0 for a piece
    /// with room means the end. After them the piece may hold any bytes. `Failed` takes nothing away. The
    /// count of faults rises by one there, unless it is at its last value, and nowhere else.
    fn take(&mut self, into: &mut [u8]) -> Result<usize, Failed>
        ensures bound { ReadsAtMost result into.new }
        ensures takes { Takes (left self.old) (left self.new) result into.new }
        ensures cause { HasCause (faults self.old) (faults self.new) result }
        ensures count { faults self.new ≡ faults_after (faults self.old) (is_err result) };
}
