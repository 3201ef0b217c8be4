//! The numbers of the frames of a process.
ghost use Rattle.std.specs.Prelude.{◌≡◌, ◌<◌, ◌≤◌, ◌++◌, ◌∷◌, [], IfOk, length, replicate, slice_get, slice_set, take};
ghost use Rattle.s38_rights_cache.specs.Numbers.{begun_numbers, frames_in, no_numbers, number_at, renumbered};

use s38_base::NoMemory;
use std::alloc::Global;
use std::marker::Model;

/// How many frames a process has at most.
const MOST_FRAMES: usize = 64;

/// The numbers of the frames of a process, the oldest first, and the last that was given.
#[derive(Drop)]
pub struct Numbers {
    held: [u64; MOST_FRAMES],
    count: usize,
    last: u64,
}

impl Model for Numbers {
    ghost use Rattle.std.specs.Prelude.{◌≤◌, take};
    ghost use Rattle.s38_rights_cache.specs.Numbers.{FrameNumbers};

    ghost Value = { FrameNumbers };

    ghost view = { λ n. record { numbers = take n.count n.held; last = n.last } };

    ghost invariant = { λ n. n.count ≤ 64 };
}

impl Numbers {
    /// Those of a process that has no frame.
    pub fn none() -> Numbers
        ensures { result ≡ no_numbers }
    {
        Numbers {
            held: [0; MOST_FRAMES],
            count: 0,
            last: 0,
        }
    }

    fn as_slice(&self) -> &[u64]
        ensures { result.now ≡ self.now.numbers }
    {
        &self.held[..self.count]
    }

    /// The number of the last of so many frames; 0 where there is none.
    pub fn number_at(&self, used: usize) -> u64
        ensures { result ≡ number_at used self.now.numbers }
    {
        if used == 0 {
            return 0;
        }
        match self.as_slice().get(used - 1) {
            None => 0,
            Some(number) => *number,
        }
    }

    /// The frame after so many others has a number, and is the last.
    fn end_with(&mut self, place: usize, number: u64)
        requires within { place ≤ length self.old.numbers }
        requires few { place < 64 }
        ensures numbers { self.new.numbers ≡ take place self.old.numbers ++ number ∷ [] }
        ensures last { self.new.last ≡ self.old.last }
    {
        self.held[place] = number;
        self.count = place + 1;
    }

    /// A process begins: its first frame has the number 0.
    pub fn begin(&mut self)
        ensures { self.new ≡ begun_numbers self.old }
    {
        self.end_with(0, 0);
    }

    /// The frame after so many others is new.
    #[tactic(auto, using(std::proofs::lemmas::List::take_min))]
    pub fn renumber(&mut self, place: usize)
        requires { place < 64 }
        ensures { self.new ≡ renumbered place self.old }
    {
        let number = self.last.saturating_add(1);
        let place = place.min(self.count);
        self.end_with(place, number);
        self.last = number;
    }
}

/// The numbers of so many processes, none of which has a frame.
#[tactic(auto, using(crate::proofs::ListLaws::replicate_more))]
pub fn no_numbers(alloc: Global, processes: usize) -> Result<Vec<Numbers>, NoMemory>
    ensures { IfOk result (λ made. made.items ≡ replicate processes no_numbers) }
{
    let mut made = Vec::new(alloc);
    while made.len() < processes {
        made.push(Numbers::none())?;
    }
    Ok(made)
}

/// A process begins: its first frame has the number 0.
#[tactic(auto, using(std::proofs::lemmas::List::set_past))]
pub fn begin_at(frames: &mut [Numbers], place: usize)
    ensures { frames.new ≡ slice_set frames.old place (begun_numbers (frames_in (slice_get frames.old place))) }
{
    if place < frames.len() {
        let own = &mut frames[place];
        own.begin();
    }
}

/// The frame of a process after so many others is new.
#[tactic(auto, using(std::proofs::lemmas::List::set_past))]
pub fn renumber_at(frames: &mut [Numbers], place: usize, others: usize)
    requires { others < 64 }
    ensures { frames.new ≡ slice_set frames.old place (renumbered others (frames_in (slice_get frames.old place))) }
{
    if place < frames.len() {
        let own = &mut frames[place];
        own.renumber(others);
    }
}
