//! What the object of a number holds, by kind: to be read, and to be written.
ghost use Rattle.std.specs.Prelude.{◌≡◌};
ghost use Rattle.std.specs.Borrow.{sem};
ghost use Rattle.std.specs.Option.{option_copied, option_copied_mut};
ghost use Rattle.s38_memory.specs.contracts.tagged.Tagged.{the_row as tagged_row};
ghost use Rattle.s38_indexes.specs.contracts.index.Index.{the_row as index_row};
ghost use Rattle.s38_queues.specs.contracts.queue.Queue.{the_row as queue_row};
ghost use Rattle.s38_journals.specs.contracts.journal.Journal.{the_row as journal_row};
ghost use Rattle.s38_rules.specs.contracts.cursor.Cursor.{the_row as cursor_row};
ghost use Rattle.s38_rules.specs.contracts.data_body.DataBody.{the_row as data_row};
ghost use Rattle.s38_rules.specs.state.Parts.{block_part, cursor_part, data_part, index_part, journal_part, part_at, port_part, queue_part, space_part};
ghost use Rattle.s38_objects.specs.Lending.{LendsHeld};

use crate::objects::Objects;
use s38_base::ObjNum;
use s38_indexes::Index;
use s38_journals::Journal;
use s38_memory::Tagged;
use s38_queues::Queue;
use s38_rules::{Block, BodyPart, Cursor, DataBody, Port};

impl Objects {
    /// What the object of a number holds; None exactly where there is no such object or it is of another kind.
    fn part<P: BodyPart>(&self, number: ObjNum) -> Option<&P>
        ensures { option_copied result ≡ part_at P.part self.now number.0 }
    {
        match self.get(number) {
            Some(object) => P::of(&object.body),
            None => None,
        }
    }

    /// The queue of a number, in logarithmic time.
    pub fn queue(&self, number: ObjNum) -> Option<&Queue>
        ensures { option_copied result ≡ part_at queue_part self.now number.0 }
    {
        self.part::<Queue>(number)
    }

    /// The space of a number, in logarithmic time.
    pub fn space(&self, number: ObjNum) -> Option<&Tagged>
        ensures { option_copied result ≡ part_at space_part self.now number.0 }
    {
        self.part::<Tagged>(number)
    }

    /// The index of a number, in logarithmic time.
    pub fn index(&self, number: ObjNum) -> Option<&Index>
        ensures { option_copied result ≡ part_at index_part self.now number.0 }
    {
        self.part::<Index>(number)
    }

    /// The data space of a number, in logarithmic time.
    pub fn data_space(&self, number: ObjNum) -> Option<&DataBody>
        ensures { option_copied result ≡ part_at data_part self.now number.0 }
    {
        self.part::<DataBody>(number)
    }

    /// The cursor of a number, in logarithmic time.
    pub fn cursor(&self, number: ObjNum) -> Option<&Cursor>
        ensures { option_copied result ≡ part_at cursor_part self.now number.0 }
    {
        self.part::<Cursor>(number)
    }

    /// The journal port of a number, in logarithmic time.
    pub fn port(&self, number: ObjNum) -> Option<&Port>
        ensures { option_copied result ≡ part_at port_part self.now number.0 }
    {
        self.part::<Port>(number)
    }

    /// The journal space of a number, in logarithmic time.
    pub fn journal(&self, number: ObjNum) -> Option<&Journal>
        ensures { option_copied result ≡ part_at journal_part self.now number.0 }
    {
        self.part::<Journal>(number)
    }

    /// The commit block of a number, in logarithmic time.
    pub fn block(&self, number: ObjNum) -> Option<&Block>
        ensures { option_copied result ≡ part_at block_part self.now number.0 }
    {
        self.part::<Block>(number)
    }

    /// The queue of a number, to be written, in logarithmic time; None exactly where there is no such object or
    /// it is no queue.
    pub fn queue_mut(&mut self, number: ObjNum) -> Option<&mut Queue>
        ensures* writes_back { sem 𝓛 (LendsHeld queue_row queue_part self.entry number.0 result) }
        ensures value { option_copied_mut result ≡ part_at queue_part self.old number.0 }
    {
        self.part_mut::<Queue>(number)
    }

    /// The space of a number, to be written, in logarithmic time; None exactly where there is no such object or
    /// it is no space.
    pub fn space_mut(&mut self, number: ObjNum) -> Option<&mut Tagged>
        ensures* writes_back { sem 𝓛 (LendsHeld tagged_row space_part self.entry number.0 result) }
        ensures value { option_copied_mut result ≡ part_at space_part self.old number.0 }
    {
        self.part_mut::<Tagged>(number)
    }

    /// The index of a number, to be written, in logarithmic time; None exactly where there is no such object or
    /// it is no index.
    pub fn index_mut(&mut self, number: ObjNum) -> Option<&mut Index>
        ensures* writes_back { sem 𝓛 (LendsHeld index_row index_part self.entry number.0 result) }
        ensures value { option_copied_mut result ≡ part_at index_part self.old number.0 }
    {
        self.part_mut::<Index>(number)
    }

    /// The data space of a number, to be written, in logarithmic time; None exactly where there is no such object or
    /// it is no data space.
    pub fn data_space_mut(&mut self, number: ObjNum) -> Option<&mut DataBody>
        ensures* writes_back { sem 𝓛 (LendsHeld data_row data_part self.entry number.0 result) }
        ensures value { option_copied_mut result ≡ part_at data_part self.old number.0 }
    {
        self.part_mut::<DataBody>(number)
    }

    /// The cursor of a number, to be written, in logarithmic time; None exactly where there is no such object or
    /// it is no cursor.
    pub fn cursor_mut(&mut self, number: ObjNum) -> Option<&mut Cursor>
        ensures* writes_back { sem 𝓛 (LendsHeld cursor_row cursor_part self.entry number.0 result) }
        ensures value { option_copied_mut result ≡ part_at cursor_part self.old number.0 }
    {
        self.part_mut::<Cursor>(number)
    }

    /// The journal space of a number, to be written, in logarithmic time; None exactly where there is no such object or
    /// it is no journal space.
    pub fn journal_mut(&mut self, number: ObjNum) -> Option<&mut Journal>
        ensures* writes_back { sem 𝓛 (LendsHeld journal_row journal_part self.entry number.0 result) }
        ensures value { option_copied_mut result ≡ part_at journal_part self.old number.0 }
    {
        self.part_mut::<Journal>(number)
    }
}
