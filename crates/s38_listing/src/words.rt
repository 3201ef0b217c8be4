ghost use Rattle.std.specs.Prelude.{◌≡◌};
ghost use Rattle.s38_listing.specs.Listing.{kind_word};

use s38_base::Kind;

/// The word of a kind of objects, as decks spell it.
pub fn kind_word(kind: Kind) -> &'static [u8]
    ensures { result.now ≡ kind_word kind }
{
    match kind {
        Kind::Context => b"CONTEXT",
        Kind::Program => b"PROGRAM",
        Kind::Profile => b"PROFILE",
        Kind::Space => b"SPACE",
        Kind::Queue => b"QUEUE",
        Kind::Index => b"INDEX",
        Kind::DataSpace => b"DATASPACE",
        Kind::Cursor => b"CURSOR",
        Kind::Port => b"JPORT",
        Kind::Journal => b"JSPACE",
        Kind::Block => b"CBLOCK",
    }
}
