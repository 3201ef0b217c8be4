//! The parts that are written of an object are those that it was read from.

ghost use Rattle.std.specs.Bool.{OnTrue};
ghost use Rattle.std.specs.Prelude.{◌≡◌, OnOk};
ghost use Rattle.s38_rules.specs.store.Storable.{HasShortText, IsStorable};
ghost use Rattle.s38_rules.specs.state.Held.{kind_of};

use crate::image::samples::{LIMIT, SAMPLES, parts_of};
use s38_base::{Change, Kind};
use s38_commits::Units;
use s38_image::{Stored, from_parts};
use s38_image_writer::{part_count, to_parts, write_parts};
use s38_rules::{Body, Object};
use s38_template::print_template;
use std::alloc::Global;
use std::test::Fail;

/// Whether the body is of the kind that the object says.
fn is_of_its_kind(object: &Object) -> bool
    ensures { OnTrue result (kind_of object.now.body ≡ object.now.id.kind) }
{
    match (&object.body, object.id.kind) {
        (Body::Context, Kind::Context) => true,
        (Body::Program(_), Kind::Program) => true,
        (Body::Profile { .. }, Kind::Profile) => true,
        (Body::Space(_), Kind::Space) => true,
        (Body::Queue(_), Kind::Queue) => true,
        (Body::Index(_), Kind::Index) => true,
        (Body::DataSpace(_), Kind::DataSpace) => true,
        (Body::Cursor(_), Kind::Cursor) => true,
        (Body::Port(_), Kind::Port) => true,
        (Body::Journal(_), Kind::Journal) => true,
        (Body::Block(_), Kind::Block) => true,
        _ => false,
    }
}

/// Nothing where the text of a program is not too long.
fn short_text(alloc: Global, body: &Body) -> Result<(), Fail>
    ensures { OnOk result (HasShortText body.now) }
{
    let Body::Program(code) = body else {
        return Ok(());
    };
    if print_template(alloc, code.program().template())?.len() > 16_777_216 {
        return Err(Fail::new("too long a text"));
    }
    Ok(())
}

/// Nothing where an object can be printed.
fn printable(alloc: Global, object: &Object) -> Result<(), Fail>
    ensures { OnOk result (IsStorable object.now) }
{
    short_text(alloc, &object.body)?;
    if object.rows.len() > 4096 || !is_of_its_kind(object) {
        return Err(Fail::new("not printable"));
    }
    Ok(())
}

/// The parts of what was read, where no change is uncommitted.
pub fn written(alloc: Global, stored: &Stored) -> Result<Vec<Change>, Fail> {
    printable(alloc, &stored.object)?;
    let units = Units::new(alloc);
    Ok(to_parts(alloc, &stored.object, &units, stored.sequence)?)
}

/// The same after a part, in room for so many and no more.
fn appended(alloc: Global, first: &Change, stored: &Stored) -> Result<Vec<Change>, Fail> {
    printable(alloc, &stored.object)?;
    let units = Units::new(alloc);
    let mut parts = Vec::with_capacity(alloc, 1 + part_count(&stored.object) as usize)?;
    parts.push_reserved(*first);
    write_parts(&mut parts, &stored.object, &units, stored.sequence);
    Ok(parts)
}

#[test]
fn what_is_read_is_written_again(rt: HostRuntime) -> Result<(), Fail> {
    for sample in SAMPLES.iter() {
        let parts = parts_of(rt.alloc(), sample)?;
        let stored = from_parts(rt.alloc(), LIMIT, 7, &parts)?;
        let again = written(rt.alloc(), &stored)?;
        assert!(rt; again.as_slice() == parts.as_slice());
        let Some(first) = parts.first() else {
            return Err(Fail::new("no part"));
        };
        let more = appended(rt.alloc(), first, &stored)?;
        assert!(rt; more.len() == more.capacity());
        assert!(rt;
            more.split_first()
                .is_some_and(|(_, rest)| rest == parts.as_slice())
        );
    }
    Ok(())
}
