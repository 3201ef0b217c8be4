//! The stream of bytes that some parts hold.
ghost use Rattle.std.specs.Prelude.{◌≡◌, ◌+◌, ◌≤◌, ◌<◌, ◌^◌, ◌++◌, IfErr, IfOk, OnOk, Some, is_some, length, true};
ghost use Rattle.s38_image.specs.Fitting.{AreWhole};
ghost use Rattle.std.specs.List.{list_all};
ghost use Rattle.s38_codec.specs.Codec.{byte_is_zero};
ghost use Rattle.s38_codec.specs.Reading.{Gives};
ghost use Rattle.s38_image.specs.Pages.{are_pages, bytes_of_page, is_page, needed, stream, stream_of, tags_in, tags_of, unfilled};

use s38_base::limits::PAGE_BYTES;
use s38_base::{Change, Page};
use s38_codec::{ReadFault, is_zeros};
use std::alloc::Global;

/// How many pages so many bytes begin.
pub fn needed(len: u32) -> u32
    requires { len ≤ 16777216 }
    ensures value { result ≡ needed len }
    ensures bound { result ≤ 32768 }
{
    (len + 511) / PAGE_BYTES
}

/// Whether a change puts the page of a part of an object.
pub fn is_page(number: u64, part: u32, change: &Change) -> bool
    ensures { result ≡ is_page number part change.now }
{
    change.key.object == number && change.key.part == part && change.page.is_some()
}

/// Whether the changes put so many parts of an object, from a first one on, and nothing else.
pub fn are_pages(number: u64, first: u32, count: u32, parts: &[Change]) -> bool
    requires { first + count < 2 ^ 32 }
    ensures { result ≡ are_pages number first count parts.now }
{
    if parts.len() != count as usize {
        return false;
    }
    let mut part = first;
    for change in parts {
        if !is_page(number, part, change) {
            return false;
        }
        part += 1;
    }
    true
}

/// Adds the bytes of a page.
fn push_page(bytes: &mut Vec<u8>, page: &Option<Page>) -> Result<(), ReadFault>
    ensures ok { OnOk result (bytes.new.items ≡ bytes.old.items ++ bytes_of_page page.now) }
    ensures whole { is_some page.now ≡ true → length (bytes_of_page page.now) ≡ 512 }
    ensures err { IfErr result (λ fault. fault ≡ ReadFault.NoMemory) }
{
    if let Some(page) = page {
        bytes.extend_from_slice(&page.bytes)?;
    }
    Ok(())
}

/// The bytes of all pages. Each page is whole.
fn joined(alloc: Global, parts: &[Change]) -> Result<Vec<u8>, ReadFault>
    ensures whole { OnOk result (AreWhole parts.now) }
    ensures read { Gives (λ bytes. bytes.items) result (Some (stream parts.now)) }
{
    let mut bytes = Vec::new(alloc);
    for change in parts {
        push_page(&mut bytes, &change.page)?;
    }
    Ok(bytes)
}

/// A stream without the zeros that fill its last page.
fn unfilled(bytes: Vec<u8>, len: usize) -> Result<Vec<u8>, ReadFault>
    ensures { Gives (λ bytes. bytes.items) result (unfilled len bytes.items) }
{
    let mut bytes = bytes;
    if bytes.len() <= len {
        return Ok(bytes);
    }
    if !is_zeros(&bytes[len..]) {
        return Err(ReadFault::BadForm);
    }
    bytes.truncate(len);
    Ok(bytes)
}

/// The stream of this length that the parts of an object hold from a first one on.
pub fn stream_of(
    alloc: Global,
    number: u64,
    first: u32,
    len: u32,
    parts: &[Change],
) -> Result<Vec<u8>, ReadFault>
    requires len { len ≤ 16777216 }
    requires first { first ≤ 128 }
    ensures read { Gives (λ bytes. bytes.items) result (stream_of number first len parts.now) }
    ensures len { IfOk result (λ bytes. length bytes.items ≡ len) }
    ensures pages { IfOk result (λ bytes. needed (length bytes.items) ≡ length parts.now) }
{
    if !are_pages(number, first, needed(len), parts) {
        return Err(ReadFault::BadForm);
    }
    let bytes = joined(alloc, parts)?;
    unfilled(bytes, len as usize)
}

/// The tags of the pages.
pub fn tags_in(alloc: Global, parts: &[Change]) -> Result<Vec<u32>, ReadFault>
    ensures { Gives (λ tags. tags.items) result (Some (tags_in parts.now)) }
{
    let mut tags = Vec::new(alloc);
    for change in parts {
        tags.push(tags_of(&change.page))?;
    }
    Ok(tags)
}

fn tags_of(page: &Option<Page>) -> u32
    ensures { result ≡ tags_of page.now }
{
    match page {
        Some(page) => page.tags,
        None => 0,
    }
}

/// Whether no page has tags.
pub fn are_untagged(parts: &[Change]) -> bool
    ensures { result ≡ list_all byte_is_zero (tags_in parts.now) }
{
    for change in parts {
        if tags_of(&change.page) != 0 {
            return false;
        }
    }
    true
}
