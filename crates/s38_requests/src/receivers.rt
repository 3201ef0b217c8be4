ghost use Rattle.std.specs.Prelude.{◌≡◌};
ghost use Rattle.s38_requests.specs.Requests.{is_receiver};

use s38_code::Class;

/// Whether an operand of this class gets a value.
pub fn is_receiver(class: Class) -> bool
    ensures { result ≡ is_receiver class }
{
    matches!(
        class,
        Class::NumberReceiver | Class::BytesReceiver | Class::PointerReceiver | Class::CellsReceiver
    )
}
