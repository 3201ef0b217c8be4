//! The body of an object, from its bytes and the tags of its pages.
ghost use Rattle.std.specs.Prelude.{◌≡◌, ◌≤◌, [], length};
ghost use Rattle.std.specs.List.{list_all};
ghost use Rattle.s38_codec.specs.Codec.{byte_is_zero};
ghost use Rattle.s38_codec.specs.Reading.{Gives};
ghost use Rattle.s38_image.specs.Bodies.{body, body_tags};
ghost use Rattle.s38_image.specs.Pages.{needed, tags_in};
ghost use Rattle.s38_image.specs.Images.{body_in};
ghost use Rattle.s38_image.specs.Steps.{body_image, has_tags, read_tagged};

use crate::data_spaces::data_space_in;
use crate::indexes::index_in;
use crate::journals::journal_in;
use crate::part_places::BODY_PART;
use crate::programs::program_in;
use crate::queues::queue_in;
use crate::small_bodies::{block_in, cursor_in, port_in, profile_in};
use crate::spaces::{are_tags, space_in};
use crate::stream::{stream_of, tags_in};
use s38_base::{Change, Kind};
use s38_codec::ReadFault;
use s38_rules::Body;
use std::alloc::Global;

/// A context has no bytes.
fn context_in(bytes: &[u8]) -> Result<(Body, u64), ReadFault>
    ensures { Gives (λ x. body_image x.0 x.1) result ((body Kind.Context []).read bytes.now) }
{
    if !bytes.is_empty() {
        return Err(ReadFault::BadForm);
    }
    Ok((Body::Context, 0))
}

fn user_in(bytes: &[u8]) -> Result<(Body, u64), ReadFault>
    ensures { Gives (λ x. body_image x.0 x.1) result ((body Kind.Profile []).read bytes.now) }
{
    let (special, limit) = profile_in(bytes)?;
    Ok((Body::Profile { special, limit }, 0))
}

fn entries_in(alloc: Global, bytes: &[u8]) -> Result<(Body, u64), ReadFault>
    ensures { Gives (λ x. body_image x.0 x.1) result ((body Kind.Journal []).read bytes.now) }
{
    let journal = journal_in(alloc, bytes)?;
    Ok((Body::Journal(journal), 0))
}

fn data_in(alloc: Global, bytes: &[u8]) -> Result<(Body, u64), ReadFault>
    ensures { Gives (λ x. body_image x.0 x.1) result ((body Kind.DataSpace []).read bytes.now) }
{
    let (held, sequence) = data_space_in(alloc, bytes)?;
    Ok((Body::DataSpace(held), sequence))
}

/// The body of a kind that the bytes hold under the tags of their pages, and of a data space the last journal entry
/// that is counted in.
pub fn body_of(
    alloc: Global,
    kind: Kind,
    tags: &[u32],
    bytes: &[u8],
) -> Result<(Body, u64), ReadFault>
    requires { length bytes.now ≤ 16777216 }
    ensures { Gives (λ x. body_image x.0 x.1) result ((body kind tags.now).read bytes.now) }
{
    match kind {
        Kind::Context => context_in(bytes),
        Kind::Program => Ok((Body::Program(program_in(alloc, bytes)?), 0)),
        Kind::Profile => user_in(bytes),
        Kind::Space => Ok((Body::Space(space_in(alloc, tags, bytes)?), 0)),
        Kind::Queue => Ok((Body::Queue(queue_in(alloc, bytes)?), 0)),
        Kind::Index => Ok((Body::Index(index_in(alloc, bytes)?), 0)),
        Kind::DataSpace => data_in(alloc, bytes),
        Kind::Cursor => Ok((Body::Cursor(cursor_in(bytes)?), 0)),
        Kind::Port => Ok((Body::Port(port_in(bytes)?), 0)),
        Kind::Journal => entries_in(alloc, bytes),
        Kind::Block => Ok((Body::Block(block_in(bytes)?), 0)),
    }
}

fn are_zero(tags: &[u32]) -> bool
    ensures { result ≡ list_all byte_is_zero tags.now }
{
    tags.iter().all(|tag| *tag == 0)
}

/// Whether the pages of a body have the tags that it gives them: of a space those of its cells, else none.
fn has_tags(kind: Kind, body: &Body, tags: &[u32]) -> bool
    ensures { result ≡ has_tags kind body.now tags.now }
{
    match (kind, body) {
        (Kind::Space, Body::Space(cells)) => are_tags(cells.cells(), tags),
        _ => are_zero(tags),
    }
}

/// The body of a kind that all bytes of these parts hold.
fn body_from(
    alloc: Global,
    kind: Kind,
    parts: &[Change],
    bytes: &[u8],
) -> Result<(Body, u64), ReadFault>
    requires pages { needed (length bytes.now) ≡ length parts.now }
    requires len { length bytes.now ≤ 16777216 }
    ensures { Gives (λ x. body_image x.0 x.1) result
        (read_tagged (body kind (tags_in parts.now)) (body_tags kind) parts.now bytes.now) }
{
    let tags = tags_in(alloc, parts)?;
    let (body, sequence) = body_of(alloc, kind, &tags, bytes)?;
    if !has_tags(kind, &body, &tags) {
        return Err(ReadFault::BadForm);
    }
    Ok((body, sequence))
}

/// The body of a kind in so many bytes, from the parts from 128 on.
pub fn body_in(
    alloc: Global,
    number: u64,
    kind: Kind,
    len: u32,
    parts: &[Change],
) -> Result<(Body, u64), ReadFault>
    requires { len ≤ 16777216 }
    ensures { Gives (λ x. body_image x.0 x.1) result (body_in number kind len parts.now) }
{
    let bytes = stream_of(alloc, number, BODY_PART, len, parts)?;
    body_from(alloc, kind, parts, &bytes)
}
