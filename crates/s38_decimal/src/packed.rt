ghost use Rattle.std.specs.Prelude.{◌≡◌, ◌<◌, ◌≤◌, ◌+◌, ◌-◌, ◌*◌, ◌/◌, ◌%◌, ◌^◌, ◌&&◌, IfSome, IsTrue, None, Some, length, nat_lt, if◌then◌else◌};
ghost use Rattle.s38_base.specs.declared.attr.Attr.{Attr};
ghost use Rattle.s38_base.specs.Scalar.{are_decimal, begins_right, digit_in, half_byte, number_from};
ghost use Rattle.s38_base.specs.Attributes.{length_of};

/// The number that two half bytes spell, by the byte that they are in; 255 where one is no decimal digit.
static PAIRS: [u8; 256] = [
    0, 1, 2, 3, 4, 5, 6, 7, 8, 9, 255, 255, 255, 255, 255, 255, 10, 11, 12, 13, 14, 15, 16, 17, 18,
    19, 255, 255, 255, 255, 255, 255, 20, 21, 22, 23, 24, 25, 26, 27, 28, 29, 255, 255, 255, 255,
    255, 255, 30, 31, 32, 33, 34, 35, 36, 37, 38, 39, 255, 255, 255, 255, 255, 255, 40, 41, 42, 43,
    44, 45, 46, 47, 48, 49, 255, 255, 255, 255, 255, 255, 50, 51, 52, 53, 54, 55, 56, 57, 58, 59,
    255, 255, 255, 255, 255, 255, 60, 61, 62, 63, 64, 65, 66, 67, 68, 69, 255, 255, 255, 255, 255,
    255, 70, 71, 72, 73, 74, 75, 76, 77, 78, 79, 255, 255, 255, 255, 255, 255, 80, 81, 82, 83, 84,
    85, 86, 87, 88, 89, 255, 255, 255, 255, 255, 255, 90, 91, 92, 93, 94, 95, 96, 97, 98, 99, 255,
    255, 255, 255, 255, 255, 255, 255, 255, 255, 255, 255, 255, 255, 255, 255, 255, 255, 255, 255,
    255, 255, 255, 255, 255, 255, 255, 255, 255, 255, 255, 255, 255, 255, 255, 255, 255, 255, 255,
    255, 255, 255, 255, 255, 255, 255, 255, 255, 255, 255, 255, 255, 255, 255, 255, 255, 255, 255,
    255, 255, 255, 255, 255, 255, 255, 255, 255, 255, 255, 255, 255, 255, 255, 255, 255, 255, 255,
    255, 255, 255, 255, 255, 255, 255, 255, 255, 255, 255, 255, 255, 255, 255, 255, 255, 255, 255,
    255, 255, 255, 255, 255, 255,
];

/// What that list says of a byte.
#[inline(always)]
fn pair_in(byte: u8) -> u8
    ensures { result ≡ (if nat_lt (byte / 16) 10 && nat_lt (byte % 16) 10 then byte / 16 * 10 + byte % 16 else 255) }
{
    PAIRS[byte as usize]
}

/// The number that the half bytes of the first four bytes spell; None where one is no decimal digit. Numbers of eight
/// and nine digits have as many before their last byte, and are read without a loop.
#[inline(always)]
fn four_pairs(bytes: &[u8], pairs: usize) -> Option<u64>
    requires inside { 4 ≤ length bytes.now }
    requires four { pairs ≡ 4 }
    ensures value { result ≡ (if are_decimal (half_byte bytes.now) (2 * pairs)
        then Some (number_from 10 (half_byte bytes.now) (2 * pairs)) else None) }
    ensures bound { IfSome result (λ number. number < 10 ^ (2 * pairs)) }
{
    let _ = pairs;
    let a = pair_in(bytes[0]);
    let b = pair_in(bytes[1]);
    let c = pair_in(bytes[2]);
    let d = pair_in(bytes[3]);
    if a > 99 {
        return None;
    }
    if b > 99 {
        return None;
    }
    if c > 99 {
        return None;
    }
    if d > 99 {
        return None;
    }
    Some(((a as u64 * 100 + b as u64) * 100 + c as u64) * 100 + d as u64)
}

/// The number that the half bytes of the first bytes spell; None where one is no decimal digit.
#[inline(always)]
fn pairs_number(bytes: &[u8], pairs: usize) -> Option<u64>
    requires inside { pairs ≤ length bytes.now }
    requires short { pairs ≤ 9 }
    ensures value { result ≡ (if are_decimal (half_byte bytes.now) (2 * pairs)
        then Some (number_from 10 (half_byte bytes.now) (2 * pairs)) else None) }
    ensures bound { IfSome result (λ number. number < 10 ^ (2 * pairs)) }
{
    if pairs == 4 {
        return four_pairs(bytes, pairs);
    }
    let mut number = 0;
    for k in 0..pairs {
        let pair = pair_in(bytes[k]);
        if pair > 99 {
            return None;
        }
        number = number * 100 + pair as u64;
    }
    Some(number)
}

/// The number that all half bytes before the sign spell.
#[inline(always)]
fn before_sign(bytes: &[u8]) -> Option<u64>
    requires some { 0 < length bytes.now }
    requires few { length bytes.now ≤ 10 }
    ensures { result ≡ (if are_decimal (half_byte bytes.now) (2 * (length bytes.now - 1) + 1)
        then Some (number_from 10 (half_byte bytes.now) (2 * (length bytes.now - 1) + 1)) else None) }
{
    let last = bytes.len() - 1;
    let high = bytes[last] / 16;
    let number = pairs_number(bytes, last)?;
    if high > 9 {
        None
    } else {
        Some(number * 10 + high as u64)
    }
}

/// A packed number of up to 18 digits without its sign; None where a half byte is no decimal digit. It reads two
/// digits at a time.
#[inline(always)]
pub fn short_packed(digits: u8, fraction: u8, bytes: &[u8]) -> Option<u64>
    requires long { length bytes.now ≡ length_of (Attr.Packed digits fraction) }
    requires some { 0 < digits }
    requires short { digits ≤ 18 }
    requires begins { IsTrue (begins_right (Attr.Packed digits fraction) bytes.now) }
    ensures value { result ≡ (if are_decimal (digit_in (Attr.Packed digits fraction) bytes.now) digits
        then Some (number_from 10 (digit_in (Attr.Packed digits fraction) bytes.now) digits) else None) }
    ensures bound { IfSome result (λ number. number < 10 ^ digits) }
{
    let _ = (digits, fraction);
    before_sign(bytes)
}
