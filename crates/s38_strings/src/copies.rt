ghost use Rattle.std.specs.Prelude.{◌≡◌, ◌++◌, length};
ghost use Rattle.s38_strings.specs.Copies.{copied_left, copied_right, filled};

/// The blank of EBCDIC.
const BLANK: u8 = 0x40;

/// Copies the shorter length at the left, and leaves the rest.
pub fn copy_left(into: &mut [u8], from: &[u8])
    ensures { into.new ≡ copied_left into.old from.now }
{
    let len = into.len().min(from.len());
    into[..len].copy_from_slice(&from[..len]);
}

/// Copies the shorter length at the right, and leaves the rest.
pub fn copy_right(into: &mut [u8], from: &[u8])
    ensures { into.new ≡ copied_right into.old from.now }
{
    let len = into.len().min(from.len());
    let start = into.len() - len;
    into[start..].copy_from_slice(&from[from.len() - len..]);
}

/// Copies the shorter length at the left, and fills the rest with a byte.
pub fn copy_left_pad(into: &mut [u8], from: &[u8], pad: u8)
    ensures { into.new ≡ filled (length into.old) pad from.now }
{
    let len = into.len().min(from.len());
    into[..len].copy_from_slice(&from[..len]);
    into[len..].fill(pad);
}

/// Joins two strings, cut or filled with blanks.
pub fn cat(into: &mut [u8], a: &[u8], b: &[u8])
    ensures { into.new ≡ filled (length into.old) BLANK (a.now ++ b.now) }
{
    let len = into.len().min(a.len());
    into[..len].copy_from_slice(&a[..len]);
    copy_left_pad(&mut into[len..], b, BLANK);
}
