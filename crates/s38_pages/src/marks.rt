ghost use Rattle.std.specs.Prelude.{◌≡◌, ◌≤◌, ◌<◌, ℕ, IfOk, false, length, slice_set, true};
ghost use Rattle.s38_pages.specs.Index.{first_marks, marked, unmarked};

use s38_base::NoMemory;
use s38_redo_log::Layout;
use std::alloc::Global;
use std::marker::Model;

/// Which blocks are no free homes. Contracts see the list of marks.
#[derive(Drop)]
pub struct Marks {
    used: Vec<bool>,
    /// No block below this one is free.
    lowest: usize,
}

impl Model for Marks {
    ghost use Rattle.std.specs.Prelude.{◌≡◌, ◌≤◌, ◌<◌, ℕ, Bool, List, length, true};
    ghost use Rattle.s38_pages.specs.Index.{marked};

    ghost Value = { List Bool };

    ghost view = { λ m. m.used.items };

    ghost invariant = { λ m. record { within : m.lowest ≤ length m.used.items; below : (i : ℕ) → i < m.lowest → marked m.used.items i ≡ true } };
}

/// The lowest block from one on that is free.
fn lowest_from(used: &[bool], from: usize) -> usize
    requires some { 1 ≤ unmarked used.now }
    requires below { (i : ℕ) → i < from → marked used.now i ≡ true }
    ensures free { marked used.now result ≡ false }
    ensures within { result < length used.now }
    ensures lowest { (i : ℕ) → i < result → marked used.now i ≡ true }
{
    for home in from..used.len() {
        if !used[home] {
            return home;
        }
    }
    from
}

impl Marks {
    /// The marks of a store without a page.
    pub fn new(alloc: Global, layout: &Layout) -> Result<Self, NoMemory>
        requires { layout.now.first ≤ layout.now.size }
        ensures { IfOk result (λ marks. marks ≡ first_marks layout.now) }
    {
        let mut used = Vec::new(alloc);
        used.resize(layout.first as usize, true)?;
        used.resize(layout.size as usize, false)?;
        if layout.first <= layout.hole && layout.hole < layout.size {
            used[layout.hole as usize] = true;
        }
        Ok(Marks { used, lowest: 0 })
    }

    /// Marks the lowest free home, and gives it.
    pub fn take_lowest(&mut self) -> usize
        requires { 1 ≤ unmarked self.old }
        ensures free { marked self.old result ≡ false }
        ensures within { result < length self.old }
        ensures lowest { (i : ℕ) → i < result → marked self.old i ≡ true }
        ensures marks { self.new ≡ slice_set self.old result true }
    {
        let home = lowest_from(&self.used, self.lowest);
        self.used[home] = true;
        self.lowest = home;
        home
    }

    /// Marks a block.
    pub fn mark(&mut self, home: usize)
        requires { home < length self.old }
        ensures { self.new ≡ slice_set self.old home true }
    {
        self.used[home] = true;
    }

    /// Frees a home.
    pub fn clear(&mut self, home: usize)
        requires { home < length self.old }
        ensures { self.new ≡ slice_set self.old home false }
    {
        self.used[home] = false;
        if home < self.lowest {
            self.lowest = home;
        }
    }
}
