ghost use Rattle.std.specs.Prelude.{⊤, ◌≡◌, [], ◌∷◌, codes};

use bitflags::{Flag, Flags, bitflag_items};

/// Rights on an object, one bit each.
#[derive(Clone, Copy, PartialEq, Eq, PartialOrd, Ord, Debug)]
pub struct Rights(pub u8);

bitflag_items! {
    impl Rights: u8 {
        const OBJCTL = 0x80;
        const OBJMGT = 0x40;
        const AUTPTR = 0x20;
        const SPACE = 0x10;
        const RETRIEVE = 0x08;
        const INSERT = 0x04;
        const DELETE = 0x02;
        const UPDATE = 0x01;
    }
}

impl Flags for Rights {
    type Bits = u8;

    ghost exact = { ⊤ };

    ghost table = { (codes "OBJCTL", 128) ∷ (codes "OBJMGT", 64) ∷ (codes "AUTPTR", 32) ∷ (codes "SPACE", 16)
        ∷ (codes "RETRIEVE", 8) ∷ (codes "INSERT", 4) ∷ (codes "DELETE", 2) ∷ (codes "UPDATE", 1) ∷ [] };

    ghost set_of = { λ p. p.0 };

    fn flags<'a>() -> &'a [Flag<Rights>] {
        Rights::FLAGS
    }

    fn bits(&self) -> u8 {
        self.0
    }

    fn from_bits_retain(bits: u8) -> Rights {
        Rights(bits)
    }
}

/// Special authorities of a user, one bit each.
#[derive(Clone, Copy, PartialEq, Eq, PartialOrd, Ord, Debug)]
pub struct Special(pub u8);

bitflag_items! {
    impl Special: u8 {
        const ALLOBJ = 0x80;
        const PROFILE = 0x40;
    }
}

impl Flags for Special {
    type Bits = u8;

    ghost exact = { ⊤ };

    ghost table = { (codes "ALLOBJ", 128) ∷ (codes "PROFILE", 64) ∷ [] };

    ghost set_of = { λ p. p.0 };

    fn flags<'a>() -> &'a [Flag<Special>] {
        Special::FLAGS
    }

    fn bits(&self) -> u8 {
        self.0
    }

    fn from_bits_retain(bits: u8) -> Special {
        Special(bits)
    }
}
