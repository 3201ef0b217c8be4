//! Objects of each kind are read of their parts.

use crate::image::samples::{LIMIT, SAMPLES, parts_of};
use s38_image::from_parts;
use s38_rules::Body;
use std::test::Fail;

/// The name of each object.
const NAME: &[u8] = b"ITEM";

/// The entry that is in the data space.
const ENTRY: &[u8] = b"\x01\x2cAB";

/// Whether a body is that of the sample of its kind.
fn is_sample(body: &Body) -> bool {
    match body {
        Body::Context => true,
        Body::Program(code) => code.program().code.len() == 0,
        Body::Profile { special, limit } => special.0 == 0xc0 && *limit == 100,
        Body::Space(cells) => cells.len() == 32
            && cells.get_pointer(0).is_ok()
            && cells.get_pointer(16).is_err(),
        Body::Queue(queue) => queue.len() == 2 && queue.longest() == 8,
        Body::Index(index) => index.len() == 2 && index.longest() == 8,
        Body::DataSpace(held) => held.space.ordinals() == 2
            && held.space.get(1).is_some_and(|entry| entry == ENTRY)
            && held.space.get(2).is_none(),
        Body::Cursor(cursor) => cursor.space.0 == 7
            && cursor.block.0 == 9
            && cursor.position == 258,
        Body::Port(port) => port.journal.0 == 513,
        Body::Journal(journal) => journal.last() == 2 && journal.unforced() == 0,
        Body::Block(block) => block.port.0 == 513,
    }
}

#[test]
fn each_kind_is_read(rt: HostRuntime) -> Result<(), Fail> {
    for sample in SAMPLES.iter() {
        let parts = parts_of(rt.alloc(), sample)?;
        let stored = from_parts(rt.alloc(), LIMIT, 7, &parts)?;
        let object = &stored.object;
        assert!(rt; object.id.kind.code() == sample.kind && object.id.name.as_bytes() == NAME);
        assert!(rt; object.number.0 == 7 && object.context.0 == 3 && object.owner.0 == 2);
        assert!(rt; object.rows.len() == 1 && object.on_disk && stored.sequence == 0);
        assert!(rt; is_sample(&object.body));
    }
    Ok(())
}
