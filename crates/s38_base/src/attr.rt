ghost use Rattle.std.specs.Prelude.{◌≡◌};
ghost use Rattle.s38_base.specs.Attributes.{are_digit_counts};

/// What a scalar or a pointer is: its form and its length.
#[derive(Clone, Copy, PartialEq, Eq, PartialOrd, Ord, Debug)]
pub enum Attr {
    /// Two digits a byte, the sign in the last half byte.
    Packed { digits: u8, fraction: u8 },
    /// A digit a byte, the sign in the zone of the last byte.
    Zoned { digits: u8, fraction: u8 },
    /// Two's complement, high byte first, 2 or 4 bytes.
    Binary { size: u8 },
    /// Bytes.
    Chars { len: u16 },
    /// A pointer, 16 bytes.
    Pointer,
}

/// 1 to 31 digits, and no more after the point than there are.
fn are_digits(digits: u8, fraction: u8) -> bool
    ensures { result ≡ are_digit_counts digits fraction }
{
    1 <= digits && digits <= 31 && fraction <= digits
}

impl Attr {
    ghost use Rattle.s38_base.specs.Attributes.{digits_of, fraction_of, is_bounded, is_numeric, is_pointer_attr, length_of, same_attr};

    /// How many bytes a value has.
    pub fn length(self) -> u16
        ensures { result ≡ length_of self }
    {
        match self {
            Attr::Packed { digits, .. } => u16::from(digits) / 2 + 1,
            Attr::Zoned { digits, .. } => u16::from(digits),
            Attr::Binary { size } => u16::from(size),
            Attr::Chars { len } => len,
            Attr::Pointer => 16,
        }
    }

    /// How many decimal digits a number has at most; 0 for bytes and pointers.
    pub fn digits(self) -> u8
        ensures { result ≡ digits_of self }
    {
        match self {
            Attr::Packed { digits, .. } => digits,
            Attr::Zoned { digits, .. } => digits,
            Attr::Binary { size } => if size == 2 { 5 } else { 10 },
            Attr::Chars { .. } => 0,
            Attr::Pointer => 0,
        }
    }

    /// How many of the digits are after the point.
    pub fn fraction(self) -> u8
        ensures { result ≡ fraction_of self }
    {
        match self {
            Attr::Packed { fraction, .. } => fraction,
            Attr::Zoned { fraction, .. } => fraction,
            _ => 0,
        }
    }

    /// It is the attribute of a number, and keeps its bounds.
    #[inline(always)]
    pub fn is_numeric(self) -> bool
        ensures { result ≡ is_numeric self }
    {
        match self {
            Attr::Packed { digits, fraction } => are_digits(digits, fraction),
            Attr::Zoned { digits, fraction } => are_digits(digits, fraction),
            Attr::Binary { size } => size == 2 || size == 4,
            Attr::Chars { .. } => false,
            Attr::Pointer => false,
        }
    }

    /// It keeps the bounds of a declaration: those of a number, or 1 to 4,096 bytes.
    pub fn is_bounded(self) -> bool
        ensures { result ≡ is_bounded self }
    {
        match self {
            Attr::Packed { digits, fraction } => are_digits(digits, fraction),
            Attr::Zoned { digits, fraction } => are_digits(digits, fraction),
            Attr::Binary { size } => size == 2 || size == 4,
            Attr::Chars { len } => 1 <= len && len <= 4096,
            Attr::Pointer => true,
        }
    }

    /// It is the attribute of a pointer.
    pub fn is_pointer(self) -> bool
        ensures { result ≡ is_pointer_attr self }
    {
        matches!(self, Attr::Pointer)
    }

    /// The two are one.
    pub fn is_same(self, other: Attr) -> bool
        ensures { result ≡ same_attr self other }
    {
        match (self, other) {
            (
                Attr::Packed { digits, fraction },
                Attr::Packed {
                    digits: others,
                    fraction: behind,
                },
            ) => { digits == others && fraction == behind }
            (
                Attr::Zoned { digits, fraction },
                Attr::Zoned {
                    digits: others,
                    fraction: behind,
                },
            ) => { digits == others && fraction == behind }
            (Attr::Binary { size }, Attr::Binary { size: other }) => size == other,
            (Attr::Chars { len }, Attr::Chars { len: other }) => len == other,
            (Attr::Pointer, Attr::Pointer) => true,
            _ => false,
        }
    }
}
