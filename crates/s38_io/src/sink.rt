ghost use Rattle.std.specs.Prelude.{◌≡◌, List, Option, ℕ, is_err};
ghost use Rattle.s38_base.specs.Faults.{HasCause};
ghost use Rattle.s38_io.specs.Calls.{faults_after};
ghost use Rattle.s38_io.specs.Sink.{Puts};

use s38_base::Failed;

/// Where bytes go. A call that fails is counted.
pub trait Sink {
    /// The bytes that were written, where the sink tells them.
    ghost written: { Self → Option (List ℕ) };

    /// How often the sink has failed.
    ghost faults: { Self → ℕ };

    /// Writes a piece after what was written. After `Failed` some prefix of the piece was. The count of
    /// faults rises by one there, unless it is at its last value, and nowhere else.
    fn put(&mut self, piece: &[u8]) -> Result<(), Failed>
        ensures puts { Puts (written self.old) (written self.new) result piece.now }
        ensures cause { HasCause (faults self.old) (faults self.new) result }
        ensures count { faults self.new ≡ faults_after (faults self.old) (is_err result) };
}
