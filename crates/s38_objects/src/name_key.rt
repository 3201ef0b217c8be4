ghost use Rattle.std.specs.Prelude.{◌≡◌};
ghost use Rattle.s38_objects.specs.NameOrder.{key};

use s38_base::{Id, Name};

/// Where an object is found by name: its context, and the parts of its identification.
#[derive(Clone, Copy, PartialEq, Eq, PartialOrd, Ord, Debug)]
pub struct NameKey {
    pub context: u64,
    pub kind: u8,
    pub sub: u8,
    pub name: Name,
}

/// The key of an identification in a context.
pub fn key(context: u64, id: &Id) -> NameKey
    ensures { result ≡ key context id.now }
{
    NameKey {
        context,
        kind: id.kind.code(),
        sub: id.sub,
        name: id.name,
    }
}
