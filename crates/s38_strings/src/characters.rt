ghost use Rattle.std.specs.Prelude.{◌≡◌};
ghost use Rattle.s38_strings.specs.Ebcdic.{ebcdic_of};

/// The EBCDIC code of an ASCII character: A to Z, 0 to 9 and the blank have one, and no others.
pub fn ebcdic(c: u8) -> Option<u8>
    ensures { result ≡ ebcdic_of c }
{
    match c {
        b'A'..=b'I' => Some(0xC1 + (c - b'A')),
        b'J'..=b'R' => Some(0xD1 + (c - b'J')),
        b'S'..=b'Z' => Some(0xE2 + (c - b'S')),
        b'0'..=b'9' => Some(0xF0 + (c - b'0')),
        b' ' => Some(0x40),
        _ => None,
    }
}
