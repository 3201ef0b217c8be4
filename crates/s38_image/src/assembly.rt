//! The object that some parts hold, or the first part at fault.
ghost use Rattle.std.specs.Bool.{OnTrue};
ghost use Rattle.std.specs.Prelude.{◌≡◌, ◌+◌, ◌*◌, ◌<◌, ◌≤◌, ◌^◌, IfOk, is_some, length};
ghost use Rattle.std.specs.List.{range_with_len};
ghost use Rattle.s38_codec.specs.Reading.{Gives};
ghost use Rattle.s38_image.specs.Headers.{header, header_is_within, longest_body, rows};
ghost use Rattle.s38_image.specs.Images.{after_leading, first_missing, has_part, header_in_parts, leading, limited, object_of_parts, or_fault, rows_in_parts, wanted_parts, with_all_pages, with_body, with_row_parts, ◌>>>◌};
ghost use Rattle.s38_image.specs.Pages.{needed, no_tags};
ghost use Rattle.s38_image.specs.Steps.{read_tagged};
ghost use Rattle.s38_image.specs.Telling.{Tells, fault_of, missing};

use crate::body_images::body_in;
use crate::fault::ImageFault;
use crate::header::Header;
use crate::heads::header_of;
use crate::part_places::{BODY_PART, ROW_BYTES, ROWS_PART};
use crate::rows::rows_of;
use crate::stored::Stored;
use crate::stream::{are_untagged, is_page, needed, stream_of};
use s38_base::{Change, Kind, ObjNum};
use s38_codec::ReadFault;
use s38_rules::{Object, RowList};
use std::alloc::Global;

/// How many private rows an object has at most.
const MOST_ROWS: u32 = 4096;
/// How many bytes the body of a journal space has at most.
const LONGEST_JOURNAL: u32 = 16_777_216;

/// What a part at fault is told as.
fn fault_of(number: u64, part: u32, fault: ReadFault) -> ImageFault
    ensures { result ≡ fault_of number part fault }
{
    match fault {
        ReadFault::BadForm => ImageFault::BadImage {
            object: number,
            part,
        },
        ReadFault::NoMemory => ImageFault::NoMemory,
    }
}

/// The parts below a number that lead a list, and the others.
pub fn split_at_part(limit: u32, parts: &[Change]) -> (&[Change], &[Change])
    ensures front { result.0.now ≡ leading limit parts.now }
    ensures rest { result.1.now ≡ after_leading limit parts.now }
{
    for at in 0..parts.len() {
        if parts[at].key.part >= limit {
            return parts.split_at(at);
        }
    }
    (parts, &[])
}

/// The header that all bytes of these parts hold.
fn header_from(front: &[Change], bytes: &[u8]) -> Result<Header, ReadFault>
    requires { needed (length bytes.now) ≡ length front.now }
    ensures { Gives (λ header. header) result (read_tagged header (no_tags header) front.now bytes.now) }
{
    let found = header_of(bytes)?;
    if !are_untagged(front) {
        return Err(ReadFault::BadForm);
    }
    Ok(found)
}

/// The header of a number, from its parts below 1. Its limits are not looked at.
pub fn header_in(alloc: Global, number: u64, front: &[Change]) -> Result<Header, ReadFault>
    ensures { Gives (λ header. header) result (header_in_parts number front.now) }
{
    let bytes = stream_of(alloc, number, 0, 512, front)?;
    header_from(front, &bytes)
}

/// The longest body of a kind, where that of most kinds is given.
fn longest_body(limit: u32, kind: Kind) -> u32
    requires { limit ≤ 16777216 }
    ensures value { result ≡ longest_body limit kind }
    ensures bound { result ≤ 16777216 }
{
    match kind {
        Kind::Journal => LONGEST_JOURNAL,
        _ => limit,
    }
}

/// Whether there are not too many rows, and the body is not too long.
fn is_within(limit: u32, header: &Header) -> bool
    requires { limit ≤ 16777216 }
    ensures within { result ≡ header_is_within limit header.now }
    ensures rows { OnTrue result (header.now.rows ≤ 4096) }
    ensures body { OnTrue result (header.now.body ≤ 16777216) }
{
    header.rows <= MOST_ROWS && header.body <= longest_body(limit, header.id.kind)
}

/// The header, where it keeps to its limits.
fn limited_header(
    alloc: Global,
    limit: u32,
    number: u64,
    front: &[Change],
) -> Result<Header, ImageFault>
    requires { limit ≤ 16777216 }
    ensures tells { Tells (λ header. header) number result (or_fault 0 (header_in_parts number front.now) >>> limited limit) }
    ensures rows { IfOk result (λ header. header.rows ≤ 4096) }
    ensures body { IfOk result (λ header. header.body ≤ 16777216) }
{
    match header_in(alloc, number, front) {
        Ok(header) => {
            if is_within(limit, &header) {
                Ok(header)
            } else {
                Err(fault_of(number, 0, ReadFault::BadForm))
            }
        }
        Err(fault) => Err(fault_of(number, 0, fault)),
    }
}

/// The first place where a part is.
fn first_place(number: u64, parts: &[Change], part: u32) -> Option<usize>
    ensures { is_some result ≡ has_part number parts.now part }
{
    for at in 0..parts.len() {
        if is_page(number, part, &parts[at]) {
            return Some(at);
        }
    }
    None
}

/// A place where a part is; most are where they are expected.
fn place_of(number: u64, parts: &[Change], part: u32, expected: usize) -> Option<usize>
    ensures { is_some result ≡ has_part number parts.now part }
{
    if expected < parts.len() && is_page(number, part, &parts[expected]) {
        return Some(expected);
    }
    first_place(number, parts, part)
}

/// The first of so many parts that is not there. They are expected from a place on.
fn missing_from(
    number: u64,
    parts: &[Change],
    first: u32,
    count: u32,
    expected: usize,
) -> Option<u32>
    requires { first + count < 2 ^ 32 }
    ensures { first_missing number parts.now (range_with_len first count) ≡ missing result }
{
    let mut expected = expected;
    for part in first..first + count {
        match place_of(number, parts, part, expected) {
            Some(place) => expected = place.saturating_add(1),
            None => return Some(part),
        }
    }
    None
}

/// The first part of the rows that is not there.
fn missing_rows(number: u64, parts: &[Change], header: &Header) -> Option<u32>
    requires { header.now.rows ≤ 4096 }
    ensures { first_missing number parts.now (range_with_len 1 (needed (9 * header.now.rows))) ≡ missing result }
{
    missing_from(number, parts, ROWS_PART, needed(ROW_BYTES * header.rows), 1)
}

/// The first part of the body that is not there.
fn missing_body(number: u64, parts: &[Change], header: &Header) -> Option<u32>
    requires rows { header.now.rows ≤ 4096 }
    requires body { header.now.body ≤ 16777216 }
    ensures { first_missing number parts.now (range_with_len 128 (needed header.now.body)) ≡ missing result }
{
    let before = needed(ROW_BYTES * header.rows) as usize + 1;
    missing_from(number, parts, BODY_PART, needed(header.body), before)
}

/// The first part of the rows or the body that is not there.
fn missing(number: u64, parts: &[Change], header: &Header) -> Option<u32>
    requires rows { header.now.rows ≤ 4096 }
    requires body { header.now.body ≤ 16777216 }
    ensures { first_missing number parts.now (wanted_parts header.now) ≡ missing result }
{
    match missing_rows(number, parts, header) {
        Some(part) => Some(part),
        None => missing_body(number, parts, header),
    }
}

/// So many rows that all bytes of these parts hold.
fn rows_from(
    alloc: Global,
    count: u32,
    middle: &[Change],
    bytes: &[u8],
) -> Result<RowList, ReadFault>
    requires { needed (length bytes.now) ≡ length middle.now }
    ensures { Gives (λ rows. rows) result (read_tagged (rows count) (no_tags (rows count)) middle.now bytes.now) }
{
    let found = rows_of(alloc, count, bytes)?;
    if !are_untagged(middle) {
        return Err(ReadFault::BadForm);
    }
    Ok(found)
}

/// So many rows, from the parts below 128.
fn rows_in(alloc: Global, number: u64, count: u32, middle: &[Change]) -> Result<RowList, ReadFault>
    requires { count ≤ 4096 }
    ensures { Gives (λ rows. rows) result (rows_in_parts number count middle.now) }
{
    let bytes = stream_of(alloc, number, ROWS_PART, ROW_BYTES * count, middle)?;
    rows_from(alloc, count, middle, &bytes)
}

/// The object of a header, rows, and the parts of a body.
fn with_body(
    alloc: Global,
    number: u64,
    header: &Header,
    rows: RowList,
    last: &[Change],
) -> Result<Stored, ImageFault>
    requires { header.now.body ≤ 16777216 }
    ensures { Tells (λ stored. stored) number result (with_body number header.now rows last.now) }
{
    let (body, sequence) = match body_in(alloc, number, header.id.kind, header.body, last) {
        Ok(found) => found,
        Err(fault) => return Err(fault_of(number, BODY_PART, fault)),
    };
    let object = Object {
        number: ObjNum(number),
        id: header.id,
        context: header.context,
        owner: header.owner,
        public: header.public,
        rows,
        on_disk: true,
        body,
    };
    Ok(Stored { object, sequence })
}

/// The object of a header, and the parts of rows and body.
fn with_rows(
    alloc: Global,
    number: u64,
    header: &Header,
    middle: &[Change],
    last: &[Change],
) -> Result<Stored, ImageFault>
    requires rows { header.now.rows ≤ 4096 }
    requires body { header.now.body ≤ 16777216 }
    ensures { Tells (λ stored. stored) number result (with_row_parts number header.now middle.now last.now) }
{
    match rows_in(alloc, number, header.rows, middle) {
        Ok(rows) => with_body(alloc, number, header, rows, last),
        Err(fault) => Err(fault_of(number, ROWS_PART, fault)),
    }
}

/// The object of a header, and the parts from 1 on, where none of all parts is missing.
fn with_all(
    alloc: Global,
    number: u64,
    parts: &[Change],
    header: &Header,
    later: &[Change],
) -> Result<Stored, ImageFault>
    requires rows { header.now.rows ≤ 4096 }
    requires body { header.now.body ≤ 16777216 }
    ensures { Tells (λ stored. stored) number result (with_all_pages number parts.now header.now later.now) }
{
    if let Some(part) = missing(number, parts, header) {
        return Err(fault_of(number, part, ReadFault::BadForm));
    }
    let (middle, last) = split_at_part(BODY_PART, later);
    with_rows(alloc, number, header, middle, last)
}

/// The object of a number that its parts hold, where bodies have so many bytes at most, and those of journal spaces
/// 16,777,216. `BadImage` exactly where the parts are those of no object; it names the first part at fault, in the order
/// header, missing page, rows, body.
#[tactic(auto, unfolding(crate::specs::Images::object_of_parts))]
pub fn from_parts(
    alloc: Global,
    limit: u32,
    number: u64,
    parts: &[Change],
) -> Result<Stored, ImageFault>
    requires { limit ≤ 16777216 }
    ensures { Tells (λ stored. stored) number result (object_of_parts limit number parts.now) }
{
    let (front, later) = split_at_part(ROWS_PART, parts);
    match limited_header(alloc, limit, number, front) {
        Ok(header) => with_all(alloc, number, parts, &header, later),
        Err(fault) => Err(fault),
    }
}
