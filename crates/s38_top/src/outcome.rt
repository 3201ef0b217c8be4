ghost use Rattle.std.specs.Prelude.{◌≡◌, if◌then◌else◌};
ghost use Rattle.s38_top.specs.Outcome.{faulted};
ghost use Rattle.s38_top.specs.Answered.{end_status, status_of};

use s38_code::{Checked, Deck, Entry};
use s38_command::Turns;
use s38_machine::State;
use s38_objects::Objects;
use s38_store_file::BadStore;

/// A run: the deck, the history, a mark for each of its entries, and what the machine came to, which says nothing where the
/// disk failed in the midst of the run.
#[derive(Drop)]
pub struct Whole {
    pub deck: Deck,
    pub history: Vec<Entry>,
    pub marks: Vec<u64>,
    pub state: State,
}

/// A deck, and what creation makes of each of its templates.
#[derive(Drop)]
pub struct CheckedDeck {
    pub deck: Deck,
    pub templates: Checked,
}

/// How a run over a store ended.
#[derive(Clone, Copy, PartialEq, Eq, Debug)]
pub enum RunEnd {
    /// What the run left is kept.
    Kept,
    /// The disk failed.
    Failed,
    /// The store has too few free parts, and is as it was after the run.
    Full { needed: u64, free: u32 },
    /// The disk failed in the midst of the run.
    Stopped,
}

/// What the program came to.
#[derive(Drop)]
pub enum Outcome {
    /// The words are no command.
    BadWords,
    /// The text is no deck: its first bad line, and the code.
    BadDeck {
        line: u32,
        code: u8,
    },
    /// The source failed.
    DeckFault,
    /// Memory was refused.
    NoMemory,
    /// The jobs were run over the store, in these turns: each to its end, unless the disk failed.
    Ran {
        turns: Turns,
        whole: Whole,
        end: RunEnd,
    },
    /// Each template was checked.
    Checked(CheckedDeck),
    /// Each job of the generated deck of so many postings ran to its end.
    Demonstrated {
        size: u32,
        whole: Whole,
    },
    /// A store was made.
    Installed,
    /// The objects of the store.
    Listed(Objects),
    /// Something is wrong with the store.
    Refused(BadStore),
    /// The disk failed before a job ran.
    DiskFault,
}

/// The status of want of memory.
const NO_MEMORY: u8 = 7;
/// The status of a sink that failed.
const SINK_FAULT: u8 = 6;
/// The status of a disk that failed.
const DISK_FAULT: u8 = 4;

impl RunEnd {
    /// The status of a run that ended so.
    fn status(self) -> u8
        ensures { result ≡ end_status self }
    {
        match self {
            RunEnd::Kept => 0,
            RunEnd::Failed | RunEnd::Stopped => DISK_FAULT,
            RunEnd::Full { .. } => 8,
        }
    }
}

impl Outcome {
    /// The status, if the text was written.
    pub fn status(&self) -> u8
        ensures { result ≡ status_of self.now }
    {
        match self {
            Outcome::BadWords => 1,
            Outcome::BadDeck { .. } => 2,
            Outcome::Refused(_) => 3,
            Outcome::DiskFault => DISK_FAULT,
            Outcome::DeckFault => 5,
            Outcome::NoMemory => NO_MEMORY,
            Outcome::Ran { end, .. } => end.status(),
            Outcome::Installed | Outcome::Listed(_) => 0,
            Outcome::Checked(_) | Outcome::Demonstrated { .. } => 0,
        }
    }

    /// The status by whether the text was written.
    pub fn status_told(&self, written: bool) -> u8
        ensures { result ≡ (if written then status_of self.now else faulted self.now) }
    {
        let status = self.status();
        if written || status == NO_MEMORY {
            status
        } else {
            SINK_FAULT
        }
    }
}
