//! The ceiling of numbers, as a store keeps it.
ghost use Rattle.std.specs.Prelude.{◌≡◌, IfOk, length};
ghost use Rattle.s38_codec.specs.Codec.{byte_is_zero, only};
ghost use Rattle.s38_codec.specs.Formats.{u32 as word, u64 as long};
ghost use Rattle.s38_codec.specs.Reading.{Gives};
ghost use Rattle.s38_image.specs.Faults.{ceiling_in, ceiling_mark, ceiling_page, is_ceiling, is_ceiling_mark};
ghost use Rattle.s38_image.specs.PartPlaces.{ceiling_key};
ghost use Rattle.s38_image.specs.Pages.{needed, no_tags};
ghost use Rattle.s38_image.specs.Steps.{read_tagged};
ghost use Rattle.s38_vault.specs.Content.{AreRising};
ghost use Rattle.s38_restart.specs.catalog.Groups.{parts_of_number};

use crate::catalog::groups::run_of;
use s38_base::limits::PAGE_BYTES;
use s38_base::{Change, NoMemory, limits};
use s38_codec::{ReadFault, bytes_at, is_zeros, u32_at, u64_at};
use s38_image::{CEILING_KEY, CEILING_MARK, CEILING_PARTS, are_untagged, split_at_part, stream_of};
use std::alloc::Global;

/// How many bytes of the ceiling's page say nothing.
const UNUSED: usize = 496;

/// The mark.
fn mark_at(from: &[u8]) -> Result<&[u8], ReadFault>
    ensures { Gives (λ x. (ceiling_mark, x.now)) result ((only is_ceiling_mark word).read from.now) }
{
    let (number, rest) = u32_at(from)?;
    if number != CEILING_MARK {
        return Err(ReadFault::BadForm);
    }
    Ok(rest)
}

/// A zero number.
fn zero_at(from: &[u8]) -> Result<&[u8], ReadFault>
    ensures { Gives (λ x. (0, x.now)) result ((only byte_is_zero word).read from.now) }
{
    let (number, rest) = u32_at(from)?;
    if number != 0 {
        return Err(ReadFault::BadForm);
    }
    Ok(rest)
}

/// A number that may be the ceiling.
fn number_at(from: &[u8]) -> Result<(u64, &[u8]), ReadFault>
    ensures { Gives (λ x. (x.0, x.1.now)) result ((only is_ceiling long).read from.now) }
{
    let (number, rest) = u64_at(from)?;
    if number > limits::LAST_NUMBER + limits::CEILING_STEP {
        return Err(ReadFault::BadForm);
    }
    Ok((number, rest))
}

/// The ceiling that a page's bytes hold.
fn ceiling_of(bytes: &[u8]) -> Result<u64, ReadFault>
    ensures { Gives (λ ceiling. ceiling) result (ceiling_page.read bytes.now) }
{
    let rest = mark_at(bytes)?;
    let rest = zero_at(rest)?;
    let (ceiling, rest) = number_at(rest)?;
    let (unused, rest) = bytes_at(UNUSED, rest)?;
    if !is_zeros(unused) || !rest.is_empty() {
        return Err(ReadFault::BadForm);
    }
    Ok(ceiling)
}

/// The ceiling that all bytes of these parts hold.
fn ceiling_from(front: &[Change], bytes: &[u8]) -> Result<u64, ReadFault>
    requires { needed (length bytes.now) ≡ length front.now }
    ensures { Gives (λ ceiling. ceiling) result (read_tagged ceiling_page (no_tags ceiling_page) front.now bytes.now) }
{
    let ceiling = ceiling_of(bytes)?;
    if !are_untagged(front) {
        return Err(ReadFault::BadForm);
    }
    Ok(ceiling)
}

/// The ceiling that some parts of its number hold.
fn ceiling_in(alloc: Global, parts: &[Change]) -> Result<u64, ReadFault>
    ensures { Gives (λ ceiling. ceiling) result (ceiling_in parts.now) }
{
    let (front, _) = split_at_part(CEILING_PARTS, parts);
    let bytes = stream_of(alloc, CEILING_KEY, 0, PAGE_BYTES, front)?;
    ceiling_from(front, &bytes)
}

/// The parts of the ceiling's number, of all parts of a store, which rise in their keys.
fn ceiling_parts(parts: &[Change]) -> &[Change]
    requires { AreRising parts.now }
    ensures { result.now ≡ parts_of_number ceiling_key parts.now }
{
    for at in 0..parts.len() {
        if parts[at].key.object == CEILING_KEY {
            return run_of(CEILING_KEY, &parts[at..]);
        }
    }
    &[]
}

/// The ceiling of numbers, from all parts of a store, which rise in their keys; None if it is missing or does
/// not keep to its form. `NoMemory` where memory was refused.
pub fn ceiling(alloc: Global, parts: &[Change]) -> Result<Option<u64>, NoMemory>
    requires { AreRising parts.now }
    ensures { IfOk result (λ ceiling. ceiling ≡ ceiling_in (parts_of_number ceiling_key parts.now)) }
{
    match ceiling_in(alloc, ceiling_parts(parts)) {
        Ok(ceiling) => Ok(Some(ceiling)),
        Err(ReadFault::BadForm) => Ok(None),
        Err(ReadFault::NoMemory) => Err(NoMemory),
    }
}
