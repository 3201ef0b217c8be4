//! How a failed rule is told.
ghost use Rattle.std.specs.Prelude.{◌≡◌};
ghost use Rattle.s38_base.specs.Signals.{fails};

use s38_base::Exception;

/// The exception where the test holds.
pub fn fails(test: bool, id: u16, operand: u8) -> Option<Exception>
    ensures { result ≡ fails test id operand }
{
    if test {
        Some(Exception::plain(id, operand))
    } else {
        None
    }
}
