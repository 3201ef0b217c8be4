//! Each single bit of the pages and the tags of an object of each kind, changed.

use crate::image::parts::written;
use crate::image::samples::{LIMIT, SAMPLES, Sample, parts_of};
use s38_base::Change;
use s38_image::{ImageFault, from_parts};
use std::alloc::Global;
use std::test::Fail;

/// How many bits a page and its tags have.
const BITS: usize = 4128;

/// How many changes are refused, by the first part at fault, and how many give another object. A page of the rows or
/// the body may also be missing.
#[derive(Clone, Copy, PartialEq, Eq, Debug)]
struct Counts {
    header: u32,
    missing: u32,
    rows: u32,
    body: u32,
    read: u32,
}

fn counts_of(header: u32, missing: u32, rows: u32, body: u32, read: u32) -> Counts {
    Counts {
        header,
        missing,
        rows,
        body,
        read,
    }
}

/// Of each kind, as a second program counted them by the rules of images.
fn wanted() -> [Counts; 11] {
    [
        counts_of(3930, 6, 4063, 24, 233),
        counts_of(3931, 17, 4063, 4122, 251),
        counts_of(3930, 17, 4063, 4107, 267),
        counts_of(3932, 17, 4063, 3934, 438),
        counts_of(3931, 17, 4063, 4088, 285),
        counts_of(3931, 17, 4063, 4118, 255),
        counts_of(3931, 17, 4063, 4044, 329),
        counts_of(3932, 17, 4063, 3979, 393),
        counts_of(3931, 17, 4063, 4075, 298),
        counts_of(3927, 21, 4063, 3960, 413),
        counts_of(3931, 17, 4063, 4075, 298),
    ]
}

/// A part with a bit of its page, or of its tags, changed.
fn with_bit(part: Change, bit: usize) -> Change {
    let mut part = part;
    if let Some(page) = &mut part.page {
        match page.bytes.get_mut(bit / 8) {
            Some(byte) => *byte ^= 1u8 << (bit % 8),
            None => page.tags ^= 1u32 << (bit % 32),
        }
    }
    part
}

/// One more.
fn add(count: &mut u32) {
    *count = count.saturating_add(1);
}

/// Counts a refusal by the first part at fault.
fn refused(fault: ImageFault, counts: &mut Counts) -> Result<(), Fail> {
    match fault {
        ImageFault::BadImage { object: 7, part } => match part {
            0 => add(&mut counts.header),
            1 => add(&mut counts.rows),
            128 => add(&mut counts.body),
            _ => add(&mut counts.missing),
        },
        _ => return Err(Fail::new(fault)),
    }
    Ok(())
}

/// Counts whether parts are read; what is read has these parts.
fn try_parts(alloc: Global, parts: &[Change], counts: &mut Counts) -> Result<(), Fail> {
    let stored = match from_parts(alloc, LIMIT, 7, parts) {
        Ok(stored) => stored,
        Err(fault) => return refused(fault, counts),
    };
    if written(alloc, &stored)?.as_slice() != parts {
        return Err(Fail::new("the image of another object"));
    }
    add(&mut counts.read);
    Ok(())
}

/// Tries each bit of a part.
fn try_part(
    alloc: Global,
    parts: &mut [Change],
    place: usize,
    counts: &mut Counts,
) -> Result<(), Fail> {
    let Some(whole) = parts.get(place).copied() else {
        return Ok(());
    };
    for bit in 0..BITS {
        parts[place] = with_bit(whole, bit);
        try_parts(alloc, parts, counts)?;
    }
    parts[place] = whole;
    Ok(())
}

/// Tries each bit of the parts of a sample.
fn counted(alloc: Global, sample: &Sample) -> Result<Counts, Fail> {
    let mut parts = parts_of(alloc, sample)?;
    let mut counts = counts_of(0, 0, 0, 0, 0);
    for place in 0..parts.len() {
        try_part(alloc, &mut parts, place, &mut counts)?;
    }
    Ok(counts)
}

#[test]
fn each_bit_of_an_object_is_refused_or_another_object(rt: HostRuntime) -> Result<(), Fail> {
    for (sample, wanted) in SAMPLES.iter().zip(wanted()) {
        assert_eq!(rt;
            counted(rt.alloc(), sample)?,
            wanted,
            "of kind {}",
            sample.kind
        );
    }
    Ok(())
}
