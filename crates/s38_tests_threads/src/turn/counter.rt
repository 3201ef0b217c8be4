ghost use Rattle.std.specs.Prelude.{◌≡◌, ◌++◌, ◌∷◌, [], OnErr, OnOk};
ghost use Rattle.s38_code.specs.History.{entry_after, entry_count};
ghost use Rattle.s38_code.specs.declared.reply.Reply.{Reply};

use s38_base::{NoMemory, Seq, TryClone};
use s38_code::{Asked, Entry, Event, Reply, StepFault, Stepper};
use std::alloc::Global;
use std::marker::Model;

/// A machine that answers each event at once, with no value. Contracts see its history.
#[derive(Drop)]
pub struct Counter {
    alloc: Global,
    entries: Vec<Entry>,
}

impl Model for Counter {
    ghost use Rattle.std.specs.Prelude.{List};
    ghost use Rattle.s38_code.specs.declared.entry.Entry.{Entry};

    ghost Value = { List Entry };

    ghost view = { λ m. m.entries.items };
}

/// How many entries a process has.
fn count_of(entries: &[Entry], process: u32) -> u64
    ensures { result ≡ entry_count process entries.now }
{
    entries
        .iter()
        .filter(|entry| entry.process == process)
        .count() as u64
}

impl Counter {
    /// A machine without an entry.
    pub fn new(alloc: Global) -> Counter
        ensures { result ≡ [] }
    {
        Counter {
            alloc,
            entries: Vec::new(alloc),
        }
    }

    /// The entries.
    pub fn history(&self) -> &[Entry]
        ensures { result.now ≡ self.now }
    {
        self.entries.as_slice()
    }

    /// Enters an event and its reply.
    fn enter(&mut self, process: u32, event: Event) -> Result<(), NoMemory>
        ensures ok { OnOk result (self.new ≡ self.old ++ entry_after self.old process event (Reply.Done []) ∷ []) }
        ensures err { OnErr result (self.new ≡ self.old) }
    {
        let entry = Entry {
            process,
            seq: count_of(self.entries.as_slice(), process),
            event,
            reply: Reply::Done(Seq::new(self.alloc)),
        };
        match self.entries.push(entry) {
            Ok(()) => Ok(()),
            Err(_) => Err(NoMemory),
        }
    }
}

impl Stepper for Counter {
    ghost use Rattle.std.specs.Prelude.{ℕ, None};

    ghost Origin = { ℕ };

    ghost origin = { λ _. 0 };

    ghost history = { λ m. m };

    ghost stopped = { λ _. None };

    ghost is_sound = { λ _. Unit {0} };

    ghost steps = { λ _ _ _ _ _. Unit {0} };

    ghost may_ask = { λ _ _ _ _. Unit {0} };

    fn step(&mut self, process: u32, event: &Event) -> Result<Reply, StepFault> {
        let Ok(event) = event.try_clone(self.alloc) else {
            return Err(StepFault::NoMemory);
        };
        match self.enter(process, event) {
            Ok(()) => Ok(Reply::Done(Seq::new(self.alloc))),
            Err(_) => Err(StepFault::NoMemory),
        }
    }

    fn ask(&mut self, process: u32, event: Event) -> Result<Asked, StepFault> {
        match self.enter(process, event) {
            Ok(()) => Ok(Asked::Entered),
            Err(_) => Err(StepFault::NoMemory),
        }
    }

    fn last_reply(&self) -> Option<&Reply> {
        match self.entries.last() {
            Some(entry) => Some(&entry.reply),
            None => None,
        }
    }
}
