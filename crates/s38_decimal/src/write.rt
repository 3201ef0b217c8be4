ghost use Rattle.std.specs.Prelude.{◌≡◌, ◌<◌, ◌≤◌, ◌+◌, ◌-◌, ◌*◌, ◌/◌, ◌%◌, ◌^◌, ◌==◌, ◌||◌, ℕ, Ok, Err, IsTrue, length, map, slice_index, unsigned_abs, if◌then◌else◌};
ghost use Rattle.std.specs.List.{range_with_len};
ghost use Rattle.s38_base.specs.Scalar.{bits_of, digit_at, fits, fits_bytes, scalar_image, sign_of};
ghost use Rattle.s38_base.specs.Attributes.{is_numeric, length_of};
ghost use Rattle.s38_decimal.specs.Images.{packed_with, zoned_with};

use crate::dec::DecimalFault;
use crate::units::fits;
use s38_base::Attr;

/// The last digits of a number, the last of them first.
fn spread(number: u64, into: &mut [u8])
    ensures { into.new ≡ map (digit_at 10 number) (range_with_len 0 (length into.old)) }
{
    let mut rest = number;
    for k in 0..into.len() {
        into[k] = (rest % 10) as u8;
        rest /= 10;
    }
}

/// The same for a number of more than 64 bits.
fn spread_long(number: u128, into: &mut [u8])
    requires some { 16 ≤ length into.old }
    requires few { length into.old ≤ 32 }
    requires all { number < 10 ^ length into.old }
    ensures { into.new ≡ map (digit_at 10 number) (range_with_len 0 (length into.old)) }
{
    let (low, high) = into.split_at_mut(16);
    spread((number % 10_000_000_000_000_000) as u64, low);
    spread((number / 10_000_000_000_000_000) as u64, high);
}

/// The digits of a number of up to 31, the last of them first.
fn digits(number: u128, count: usize) -> [u8; 32]
    requires few { count ≤ 31 }
    requires all { number < 10 ^ count }
    ensures { (k : ℕ) → k < count → slice_index result k ≡ digit_at 10 number k }
{
    let mut digits = [0; 32];
    if count <= 18 {
        spread(number as u64, &mut digits[..count]);
    } else {
        spread_long(number, &mut digits[..count]);
    }
    digits
}

/// F is plus and D minus.
fn sign_of(units: i128) -> u8
    ensures value { result ≡ sign_of units }
    ensures half { result < 16 }
{
    if units < 0 { 13 } else { 15 }
}

/// Two digits in a byte.
static PAIRS: [u8; 100] = [
    0, 1, 2, 3, 4, 5, 6, 7, 8, 9, 16, 17, 18, 19, 20, 21, 22, 23, 24, 25, 32, 33, 34, 35, 36, 37,
    38, 39, 40, 41, 48, 49, 50, 51, 52, 53, 54, 55, 56, 57, 64, 65, 66, 67, 68, 69, 70, 71, 72, 73,
    80, 81, 82, 83, 84, 85, 86, 87, 88, 89, 96, 97, 98, 99, 100, 101, 102, 103, 104, 105, 112, 113,
    114, 115, 116, 117, 118, 119, 120, 121, 128, 129, 130, 131, 132, 133, 134, 135, 136, 137, 144,
    145, 146, 147, 148, 149, 150, 151, 152, 153,
];

/// The two digits of a number below 100, each in a half byte.
#[inline(always)]
fn pair_of(number: u8) -> u8
    requires { number < 100 }
    ensures { result ≡ number / 10 * 16 + number % 10 }
{
    PAIRS[number as usize]
}

/// Writes the digits of a number in 64 bits, two at a time from the last one on, and the sign in the last half byte.
#[inline(always)]
fn write_pairs(number: u64, sign: u8, into: &mut [u8])
    requires some { 0 < length into.old }
    requires sign { sign < 16 }
    ensures { into.new ≡ map (packed_with (length into.old - 1) number sign) (range_with_len 0 (length into.old)) }
{
    let last = into.len() - 1;
    into[last] = (number % 10) as u8 * 16 + sign;
    let mut rest = number / 10;
    for k in 0..last {
        into[last - 1 - k] = pair_of((rest % 100) as u8);
        rest /= 100;
    }
}

/// The same for five bytes, whose pairs are found in 32 bits and without a loop.
#[inline(always)]
fn write_five(number: u32, sign: u8, into: &mut [u8])
    requires five { length into.old ≡ 5 }
    requires few { number < 10 ^ 9 }
    requires sign { sign < 16 }
    ensures { into.new ≡ map (packed_with (length into.old - 1) number sign) (range_with_len 0 (length into.old)) }
{
    let rest = number / 10;
    let high = rest / 10_000;
    let low = rest % 10_000;
    into[0] = pair_of((high / 100) as u8);
    into[1] = pair_of((high % 100) as u8);
    into[2] = pair_of((low / 100) as u8);
    into[3] = pair_of((low % 100) as u8);
    into[4] = (number % 10) as u8 * 16 + sign;
}

/// Writes a number in 64 bits, by the shortest way for its length.
#[inline(always)]
fn write_short(number: u64, sign: u8, into: &mut [u8])
    requires some { 0 < length into.old }
    requires sign { sign < 16 }
    ensures { into.new ≡ map (packed_with (length into.old - 1) number sign) (range_with_len 0 (length into.old)) }
{
    if into.len() == 5 && number < 1_000_000_000 {
        write_five(number as u32, sign, into);
    } else {
        write_pairs(number, sign, into);
    }
}

/// The same for a number of up to 31 digits.
#[inline(never)]
fn write_long(number: u128, sign: u8, into: &mut [u8])
    requires some { 0 < length into.old }
    requires few { length into.old ≤ 16 }
    requires all { number < 10 ^ (2 * length into.old - 1) }
    requires sign { sign < 16 }
    ensures { into.new ≡ map (packed_with (length into.old - 1) number sign) (range_with_len 0 (length into.old)) }
{
    let last = into.len() - 1;
    let digits = digits(number, 2 * last + 1);
    for k in 0..into.len() {
        let low = if k == last {
            sign
        } else {
            digits[2 * (last - k) - 1]
        };
        into[k] = digits[2 * (last - k)] * 16 + low;
    }
}

/// Writes two digits a byte, and the sign in the last half byte.
fn write_packed(number: u128, sign: u8, into: &mut [u8])
    requires some { 0 < length into.old }
    requires few { length into.old ≤ 16 }
    requires all { number < 10 ^ (2 * length into.old - 1) }
    requires sign { sign < 16 }
    ensures { into.new ≡ map (packed_with (length into.old - 1) number sign) (range_with_len 0 (length into.old)) }
{
    if into.len() <= 10 {
        write_pairs(number as u64, sign, into);
    } else {
        write_long(number, sign, into);
    }
}

/// Writes a digit a byte, and the sign in the zone of the last byte; the other zones are F.
#[inline(never)]
fn write_zoned(number: u128, sign: u8, into: &mut [u8])
    requires few { length into.old ≤ 31 }
    requires all { number < 10 ^ length into.old }
    requires sign { sign < 16 }
    ensures { into.new ≡ map (zoned_with (length into.old) number sign) (range_with_len 0 (length into.old)) }
{
    let len = into.len();
    let digits = digits(number, len);
    for k in 0..len {
        let zone = if k + 1 == len { sign } else { 15 };
        into[k] = zone * 16 + digits[len - 1 - k];
    }
}

/// Writes two's complement, high byte first.
#[inline(never)]
fn write_binary(units: i128, into: &mut [u8])
    requires size { IsTrue ((length into.old == 2) || (length into.old == 4)) }
    requires fits { IsTrue (fits_bytes (length into.old) units) }
    ensures { into.new ≡ map
        (λ k. digit_at 256 (bits_of (length into.old) units) (length into.old - 1 - k))
        (range_with_len 0 (length into.old)) }
{
    if into.len() == 2 {
        into.copy_from_slice(&(units as i16).to_be_bytes());
    } else {
        into.copy_from_slice(&(units as i32).to_be_bytes());
    }
}

#[inline(never)]
#[tactic(auto, unfolding(s38_base::specs::Scalar::fits, s38_base::specs::Scalar::scalar_image))]
fn write_image(attr: Attr, units: i128, into: &mut [u8])
    requires long { length into.old ≡ length_of attr }
    requires fits { IsTrue (fits attr units) }
    ensures { into.new ≡ scalar_image attr units }
{
    let number = units.unsigned_abs();
    let sign = sign_of(units);
    match attr {
        Attr::Packed { .. } => write_packed(number, sign, into),
        Attr::Zoned { .. } => write_zoned(number, sign, into),
        _ => write_binary(units, into),
    }
}

/// Writes a number. `Size` exactly where the attribute doesn't hold it; nothing is written then.
pub fn write_scalar(attr: Attr, units: i128, into: &mut [u8]) -> Result<(), DecimalFault>
    requires numeric { IsTrue (is_numeric attr) }
    requires long { length into.old ≡ length_of attr }
    ensures answer { result ≡ (if fits attr units then Ok tt else Err DecimalFault.Size) }
    ensures bytes { into.new ≡ (if fits attr units then scalar_image attr units else into.old) }
{
    if !fits(attr, units) {
        return Err(DecimalFault::Size);
    }
    write_image(attr, units, into);
    Ok(())
}

/// Writes a number that its attribute holds.
#[inline(always)]
#[tactic(auto, unfolding(s38_base::specs::Scalar::fits, s38_base::specs::Scalar::scalar_image))]
pub fn write_fitting(attr: Attr, units: i128, into: &mut [u8])
    requires long { length into.old ≡ length_of attr }
    requires fits { IsTrue (fits attr units) }
    ensures { into.new ≡ scalar_image attr units }
{
    match attr {
        Attr::Packed { digits, .. } if digits <= 18 => {
            let number = units.unsigned_abs();
            write_short(number as u64, sign_of(units), into);
        }
        other => write_image(other, units, into),
    }
}
