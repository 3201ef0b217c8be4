ghost use Rattle.std.specs.Prelude.{◌≡◌, ◌++◌, ◌∷◌, ◌≤◌, ◌<◌, ◌^◌, [], drop, length, sum, take, OnOk, OnErr};
ghost use Rattle.std.specs.List.{slice_get};
ghost use Rattle.std.specs.Option.{option_map};
ghost use Rattle.std.specs.Iterator.{YieldsFirstRef, item_count};

use s38_base::NoMemory;
use std::alloc::Global;
use std::marker::Model;

/// Adds a line to a text, and its size to the sizes; an error leaves both as they were.
#[inline(always)]
fn add(text: &mut Vec<u8>, sizes: &mut Vec<usize>, line: &[u8]) -> Result<(), NoMemory>
    ensures text { OnOk result (text.new.items ≡ text.old.items ++ line.now) }
    ensures sizes { OnOk result (sizes.new.items ≡ sizes.old.items ++ length line.now ∷ []) }
    ensures err { OnErr result ((text.new.items ≡ text.old.items) × (sizes.new.items ≡ sizes.old.items)) }
{
    if sizes.push(line.len()).is_err() {
        return Err(NoMemory);
    }
    if text.extend_from_slice(line).is_err() {
        sizes.pop();
        return Err(NoMemory);
    }
    Ok(())
}

/// How many bytes lines of these sizes have.
fn total(sizes: &[usize]) -> usize
    requires { sum sizes.now < 2 ^ 64 }
    ensures { result ≡ sum sizes.now }
{
    sizes.iter().sum()
}

/// Lines without their line feeds, in one piece of memory. Contracts see it as the list of the lines.
#[derive(Drop, Debug)]
pub struct TextLines {
    text: Vec<u8>,
    sizes: Vec<usize>,
}

impl Model for TextLines {
    ghost use Rattle.std.specs.Prelude.{List, ℕ};
    ghost use Rattle.s38_code.specs.TextLines.{AreAll, lines_of};

    ghost Value = { List (List ℕ) };

    ghost view = { λ t. lines_of t.text.items t.sizes.items };

    ghost invariant = { λ t. AreAll t.text.items t.sizes.items };
}

impl TextLines {
    /// No lines; it takes no memory until there is one.
    pub fn new(alloc: Global) -> TextLines
        ensures { result ≡ [] }
    {
        TextLines {
            text: Vec::new(alloc),
            sizes: Vec::new(alloc),
        }
    }

    /// Adds a line at the end; an error leaves the lines as they were.
    #[inline(always)]
    #[tactic(auto, using(crate::proofs::LineLaws::more_lines))]
    pub fn push(&mut self, line: &[u8]) -> Result<(), NoMemory>
        ensures ok { OnOk result (self.new ≡ self.old ++ line.now ∷ []) }
        ensures err { OnErr result (self.new ≡ self.old) }
    {
        add(&mut self.text, &mut self.sizes, line)
    }

    /// The lines, in order.
    pub fn lines(&self) -> Lines<'_>
        ensures { result ≡ self.now }
    {
        Lines {
            text: self.text.as_slice(),
            sizes: self.sizes.as_slice(),
        }
    }
}

/// Lines that lie one after another in one piece of memory, from the first on. Contracts see it as the list of
/// the lines.
#[derive(Drop, Debug)]
pub struct Lines<'a> {
    text: &'a [u8],
    sizes: &'a [usize],
}

impl<'a> Model for Lines<'a> {
    ghost use Rattle.std.specs.Prelude.{List, ℕ};
    ghost use Rattle.s38_code.specs.TextLines.{AreAll, lines_of};

    ghost Value = { List (List ℕ) };

    ghost view = { λ l. lines_of l.text.now l.sizes.now };

    ghost invariant = { λ l. AreAll l.text.now l.sizes.now };
}

impl<'a> Lines<'a> {
    /// How many lines there are.
    #[tactic(auto, using(crate::proofs::LineLaws::lines_count))]
    pub fn len(&self) -> usize
        ensures { result ≡ length self.now }
    {
        self.sizes.len()
    }

    /// The same lines, from the first on.
    #[tactic(auto, using(crate::proofs::LineLaws::lines_count))]
    pub fn iter(&self) -> Lines<'a>
        ensures lines { result ≡ self.now }
        ensures bound { length result < 2 ^ 64 }
    {
        Lines {
            text: self.text,
            sizes: self.sizes,
        }
    }

    /// The first lines, so many of them, and the others.
    #[tactic(auto, using(crate::proofs::LineLaws::lines_count, crate::proofs::LineLaws::front_lines, crate::proofs::LineLaws::back_lines, crate::proofs::LineLaws::front_size, crate::proofs::LineLaws::back_size))]
    pub fn split_at(&self, count: usize) -> (Lines<'a>, Lines<'a>)
        requires { count ≤ length self.now }
        ensures front { result.0 ≡ take count self.now }
        ensures back { result.1 ≡ drop count self.now }
    {
        let (first, others) = self.sizes.split_at(count);
        let (front, back) = self.text.split_at(total(first));
        (
            Lines {
                text: front,
                sizes: first,
            },
            Lines {
                text: back,
                sizes: others,
            },
        )
    }

    /// The line of this number, from 0 on.
    pub fn get(&self, at: usize) -> Option<&'a [u8]>
        ensures { option_map (λ line. line.now) result ≡ slice_get self.now at }
    {
        if at >= self.len() {
            return None;
        }
        let (_, mut others) = self.split_at(at);
        others.next()
    }
}

impl<'a> Iterator for Lines<'a> {
    type Item = &'a [u8];

    ghost next_gives = { YieldsFirstRef (λ lines. lines) };

    ghost remaining = { item_count (λ lines. lines) };

    fn next(&mut self) -> Option<&'a [u8]> {
        let (size, sizes) = self.sizes.split_first()?;
        let (line, text) = self.text.split_at(*size);
        *self = Lines { text, sizes };
        Some(line)
    }
}
