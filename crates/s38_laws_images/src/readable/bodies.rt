//! Bodies are read again.
ghost use Rattle.std.specs.Prelude.{◌≡◌, ◌^◌, ◌<◌, ℕ, true};
ghost use Rattle.s38_base.specs.Limits.{body_limit};
ghost use Rattle.s38_commits.specs.Units.{UnitMap};
ghost use Rattle.s38_codec.specs.Formats.{fits_from};
ghost use Rattle.s38_image.specs.Bodies.{block, cursor, is_special_byte, port, profile_form};
ghost use Rattle.s38_image.specs.DataSpaces.{data_space};
ghost use Rattle.s38_image.specs.Fitting.{FitsSpace};
ghost use Rattle.s38_image.specs.Indexes.{index};
ghost use Rattle.s38_image.specs.Journals.{entry};
ghost use Rattle.s38_image.specs.Queues.{queue};
ghost use Rattle.s38_image.specs.Spaces.{space_tags};
ghost use Rattle.s38_image_writer.specs.Restoring.{AreRestorable, settled_data};
ghost use Rattle.s38_laws_images.specs.openings.Bodies.{IsBody, IsIndex, IsQueue, IsShortTable};
ghost use Rattle.s38_laws_images.specs.readable.Forms.{HasForm, has_keys};
ghost use Rattle.s38_laws_images.specs.readable.Readable.{IsReadableBody};

use s38_base::Special;
use s38_indexes::Index;
use s38_journals::Journal;
use s38_memory::Tagged;
use s38_queues::Queue;
use s38_rules::{Block, Body, Cursor, DataBody, Port};

/// A profile is read again.
pub fn profile_is_readable(special: Special, limit: u32)
    requires { is_special_byte special.0 ≡ true }
    ensures { profile_form.fits (special, limit) ≡ true }
{}

/// A space is read again, with its pointers.
pub fn space_is_readable(held: &Tagged)
    ensures { FitsSpace (space_tags held.now) held.now }
{
    let _cells = held.cells();
}

/// A queue is read again.
pub fn queue_is_readable(held: &Queue)
    requires limits { IsQueue body_limit held.now }
    requires keys { has_keys held.now.order held.now.key_len ≡ true }
    ensures { queue.fits held.now ≡ true }
{}

/// An index is read again.
pub fn index_is_readable(held: &Index)
    requires { IsIndex body_limit held.now }
    ensures { index.fits held.now ≡ true }
{}

/// A data space is read again, with every uncommitted change taken back.
pub fn data_space_is_readable(held: &DataBody)
    requires { IsShortTable body_limit held.now.space }
    ensures { (units : UnitMap) (number last : ℕ) → last < 2 ^ 64 → AreRestorable units number held.now.space → data_space.fits (settled_data units number last held.now) ≡ true }
{
    let _port = held.port.0;
    let _fields = held.space.fields();
    let _ordinals = held.space.ordinals();
}

/// A cursor is read again.
pub fn cursor_is_readable(held: &Cursor)
    ensures { cursor.fits held.now ≡ true }
{
    let _space = held.space.0;
    let _block = held.block.0;
    let _position = held.position;
}

/// A journal port is read again.
pub fn port_is_readable(held: &Port)
    ensures { port.fits held.now ≡ true }
{
    let _journal = held.journal.0;
}

/// A journal space is read again, as if all its entries were forced.
pub fn journal_is_readable(held: &Journal)
    ensures { fits_from entry 1 held.now.entries ≡ true }
{
    let _last = held.last();
}

/// A commit block is read again.
pub fn block_is_readable(held: &Block)
    ensures { block.fits held.now ≡ true }
{
    let _port = held.port.0;
}

/// A body is read again that keeps to its limits and has its form.
pub fn body_is_readable(body: &Body)
    requires limits { IsBody body_limit body.now }
    requires form { HasForm body.now }
    ensures { IsReadableBody body.now }
{
    match body {
        Body::Context | Body::Program(_) => {}
        Body::Profile { special, limit } => profile_is_readable(*special, *limit),
        Body::Space(held) => space_is_readable(held),
        Body::Queue(held) => queue_is_readable(held),
        Body::Index(held) => index_is_readable(held),
        Body::DataSpace(held) => data_space_is_readable(held),
        Body::Cursor(held) => cursor_is_readable(held),
        Body::Port(held) => port_is_readable(held),
        Body::Journal(held) => journal_is_readable(held),
        Body::Block(held) => block_is_readable(held),
    }
}
