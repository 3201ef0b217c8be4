//! What a body of one kind holds, read and lent to be written; one impl for each kind.
ghost use Rattle.std.specs.Prelude.{◌≡◌};
ghost use Rattle.std.specs.Borrow.{sem};
ghost use Rattle.std.specs.Option.{option_copied, option_copied_mut};
ghost use Rattle.s38_rules.specs.state.Lending.{LendsPart};
ghost use Rattle.s38_rules.specs.state.Parts.{Part, block_part, cursor_part, data_part, index_part, journal_part, port_part, queue_part, space_part};
ghost use Rattle.s38_rules.specs.state.LawfulParts.{IsPart, block_lawful, cursor_lawful, data_lawful, index_lawful, journal_lawful, port_lawful, queue_lawful, space_lawful};

use crate::block::Block;
use crate::cursor::Cursor;
use crate::data_body::DataBody;
use crate::object::Body;
use crate::port::Port;
use s38_indexes::Index;
use s38_journals::Journal;
use s38_memory::Tagged;
use s38_queues::Queue;

/// What a body of one kind holds.
pub trait BodyPart {
    ghost part: { Part Self };

    /// What the body holds; None exactly where it is of another kind.
    fn of(body: &Body) -> Option<&Self>
        ensures { option_copied result ≡ part.of body.now };

    /// The same, to be written.
    fn of_mut(body: &mut Body) -> Option<&mut Self>
        ensures* writes_back { sem 𝓛 (LendsPart Self.row part body.entry result) }
        ensures value { option_copied_mut result ≡ part.of body.old };

    ghost lawful: { IsPart Self part };
}

impl BodyPart for Queue {
    ghost part = { queue_part };

    ghost lawful = { queue_lawful };

    fn of(body: &Body) -> Option<&Queue> {
        match body {
            Body::Queue(queue) => Some(queue),
            _ => None,
        }
    }

    fn of_mut(body: &mut Body) -> Option<&mut Queue> {
        match body {
            Body::Queue(queue) => Some(queue),
            _ => None,
        }
    }
}

impl BodyPart for Tagged {
    ghost part = { space_part };

    ghost lawful = { space_lawful };

    fn of(body: &Body) -> Option<&Tagged> {
        match body {
            Body::Space(cells) => Some(cells),
            _ => None,
        }
    }

    fn of_mut(body: &mut Body) -> Option<&mut Tagged> {
        match body {
            Body::Space(cells) => Some(cells),
            _ => None,
        }
    }
}

impl BodyPart for Index {
    ghost part = { index_part };

    ghost lawful = { index_lawful };

    fn of(body: &Body) -> Option<&Index> {
        match body {
            Body::Index(index) => Some(index),
            _ => None,
        }
    }

    fn of_mut(body: &mut Body) -> Option<&mut Index> {
        match body {
            Body::Index(index) => Some(index),
            _ => None,
        }
    }
}

impl BodyPart for DataBody {
    ghost part = { data_part };

    ghost lawful = { data_lawful };

    fn of(body: &Body) -> Option<&DataBody> {
        match body {
            Body::DataSpace(held) => Some(held),
            _ => None,
        }
    }

    fn of_mut(body: &mut Body) -> Option<&mut DataBody> {
        match body {
            Body::DataSpace(held) => Some(held),
            _ => None,
        }
    }
}

impl BodyPart for Cursor {
    ghost part = { cursor_part };

    ghost lawful = { cursor_lawful };

    fn of(body: &Body) -> Option<&Cursor> {
        match body {
            Body::Cursor(cursor) => Some(cursor),
            _ => None,
        }
    }

    fn of_mut(body: &mut Body) -> Option<&mut Cursor> {
        match body {
            Body::Cursor(cursor) => Some(cursor),
            _ => None,
        }
    }
}

impl BodyPart for Port {
    ghost part = { port_part };

    ghost lawful = { port_lawful };

    fn of(body: &Body) -> Option<&Port> {
        match body {
            Body::Port(port) => Some(port),
            _ => None,
        }
    }

    fn of_mut(body: &mut Body) -> Option<&mut Port> {
        match body {
            Body::Port(port) => Some(port),
            _ => None,
        }
    }
}

impl BodyPart for Journal {
    ghost part = { journal_part };

    ghost lawful = { journal_lawful };

    fn of(body: &Body) -> Option<&Journal> {
        match body {
            Body::Journal(journal) => Some(journal),
            _ => None,
        }
    }

    fn of_mut(body: &mut Body) -> Option<&mut Journal> {
        match body {
            Body::Journal(journal) => Some(journal),
            _ => None,
        }
    }
}

impl BodyPart for Block {
    ghost part = { block_part };

    ghost lawful = { block_lawful };

    fn of(body: &Body) -> Option<&Block> {
        match body {
            Body::Block(block) => Some(block),
            _ => None,
        }
    }

    fn of_mut(body: &mut Body) -> Option<&mut Block> {
        match body {
            Body::Block(block) => Some(block),
            _ => None,
        }
    }
}
