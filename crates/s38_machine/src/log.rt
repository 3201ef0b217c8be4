ghost use Rattle.std.specs.Prelude.{◌≡◌, ◌++◌, ◌∷◌, ◌+◌, ◌<◌, ◌≤◌, ◌^◌, [], ℕ, IfOk, OnOk, length, slice_index, slice_set, vec_capacity, vec_len};
ghost use Rattle.std.specs.Option.{option_copied};
ghost use Rattle.s38_code.specs.History.{entry_after};
ghost use Rattle.s38_code.specs.Asking.{last_reply};
ghost use Rattle.s38_machine.specs.Log.{with_last};

use s38_base::NoMemory;
use s38_code::{Entry, Event, Reply};
use std::alloc::Global;
use std::marker::Model;

/// The history, a mark for each entry, how many entries each process has, and the moments of the store at the start and now.
#[derive(Drop)]
pub struct Log {
    entries: Vec<Entry>,
    marks: Vec<u64>,
    counts: Vec<u64>,
    first: u64,
    moment: u64,
}

impl Model for Log {
    ghost use Rattle.std.specs.Prelude.{◌≡◌, ◌<◌, ◌+◌, ◌-◌, ℕ, min, vec_capacity, vec_len, slice_index};
    ghost use Rattle.s38_code.specs.History.{entry_count};
    ghost use Rattle.s38_machine.specs.Log.{Logged};

    ghost Value = { Logged };

    ghost view = { λ l. record {
      history = l.entries.items;
      marks = l.marks.items;
      processes = vec_len l.counts;
      spare = min (vec_capacity l.entries - vec_len l.entries) (vec_capacity l.marks - vec_len l.marks);
      first = l.first;
      moment = l.moment;
    } };

    ghost invariant = { λ l. (k : ℕ) → k < vec_len l.counts → slice_index l.counts.items k ≡ entry_count (k + 1) l.entries.items };
}

/// As many zeros as there are processes.
fn zeros(alloc: Global, processes: usize) -> Result<Vec<u64>, NoMemory>
    ensures len { IfOk result (λ made. vec_len made ≡ processes) }
    ensures zero { IfOk result (λ made. (k : ℕ) → slice_index made.items k ≡ 0) }
{
    let mut made = Vec::new(alloc);
    made.resize(processes, 0)?;
    Ok(made)
}

/// Counts one more at a place, which had less than all.
fn count(counts: &mut Vec<u64>, at: usize, all: usize)
    requires within { at < vec_len counts.old }
    requires room { slice_index counts.old.items at < all }
    ensures items { counts.new.items ≡ slice_set counts.old.items at (slice_index counts.old.items at + 1) }
    ensures len { vec_len counts.new ≡ vec_len counts.old }
{
    counts[at] += 1;
}

/// The last mark becomes another one.
fn set_last(marks: &mut Vec<u64>, moment: u64)
    ensures { marks.new.items ≡ with_last moment marks.old.items }
{
    if let Some(last) = marks.last_mut() {
        *last = moment;
    }
}

impl Log {
    /// A log without an entry, for this many processes, over a store at this moment.
    pub fn new(alloc: Global, processes: usize, moment: u64) -> Result<Log, NoMemory>
        ensures { IfOk result (λ log. (log.history ≡ []) × (log.marks ≡ []) × (log.processes ≡ processes) × (log.first ≡ moment) × (log.moment ≡ moment)) }
    {
        Ok(Log {
            entries: Vec::new(alloc),
            marks: Vec::new(alloc),
            counts: zeros(alloc, processes)?,
            first: moment,
            moment,
        })
    }

    /// The entries.
    pub fn history(&self) -> &[Entry]
        ensures { result.now ≡ self.now.history }
    {
        self.entries.as_slice()
    }

    /// The marks.
    pub fn marks(&self) -> &[u64]
        ensures { result.now ≡ self.now.marks }
    {
        self.marks.as_slice()
    }

    /// The reply of the last entry.
    #[tactic(auto, unfolding(s38_code::specs::Asking::last_reply))]
    pub fn last_reply(&self) -> Option<&Reply>
        ensures { option_copied result ≡ last_reply self.now.history }
    {
        match self.entries.last() {
            None => None,
            Some(entry) => Some(&entry.reply),
        }
    }

    /// The store has come to this moment, and the last entry, if there is one, was answered then.
    pub fn stamp(&mut self, moment: u64)
        ensures marks { self.new.marks ≡ with_last moment self.old.marks }
        ensures moment { self.new.moment ≡ moment }
        ensures same { (self.new.history ≡ self.old.history) × (self.new.processes ≡ self.old.processes) × (self.new.first ≡ self.old.first) }
    {
        set_last(&mut self.marks, moment);
        self.moment = moment;
    }

    /// The entries and the marks.
    pub fn into_parts(self) -> (Vec<Entry>, Vec<u64>)
        ensures { (result.0.items ≡ self.history) × (result.1.items ≡ self.marks) }
    {
        let Log {
            entries,
            marks,
            counts: _,
            first: _,
            moment: _,
        } = self;
        (entries, marks)
    }

    /// Takes the memory of one further entry.
    #[inline(always)]
    pub fn reserve(&mut self) -> Result<(), NoMemory>
        ensures ok { OnOk result (0 < self.new.spare) }
        ensures same { (self.new.history ≡ self.old.history) × (self.new.marks ≡ self.old.marks) × (self.new.processes ≡ self.old.processes) }
        ensures moments { (self.new.first ≡ self.old.first) × (self.new.moment ≡ self.old.moment) }
    {
        self.entries.reserve(1)?;
        self.marks.reserve(1)?;
        Ok(())
    }

    /// Adds the entry of an answer, with the moment at which the store is; it takes no memory.
    #[inline(always)]
    pub fn push(&mut self, process: u32, event: Event, reply: Reply)
        requires room { 0 < self.old.spare }
        requires first { 0 < process }
        requires last { process ≤ self.old.processes }
        ensures history { self.new.history ≡ self.old.history ++ entry_after self.old.history process event reply ∷ [] }
        ensures marks { self.new.marks ≡ self.old.marks ++ self.old.moment ∷ [] }
        ensures processes { self.new.processes ≡ self.old.processes }
        ensures moments { (self.new.first ≡ self.old.first) × (self.new.moment ≡ self.old.moment) }
    {
        let at = process as usize - 1;
        let seq = self.counts[at];
        push_reserved(
            &mut self.entries,
            Entry {
                process,
                seq,
                event,
                reply,
            },
        );
        push_reserved(&mut self.marks, self.moment);
        let all = self.entries.len();
        count(&mut self.counts, at, all);
    }
}

fn push_reserved<T: Drop>(items: &mut Vec<T>, item: T)
    requires { vec_len items.old < vec_capacity items.old }
    ensures items { items.new.items ≡ items.old.items ++ item ∷ [] }
    ensures len { vec_len items.new ≡ length items.old.items + 1 }
{
    items.push_reserved(item);
}
