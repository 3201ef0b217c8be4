ghost use Rattle.std.specs.Prelude.{◌≡◌, ◌≤◌, IfOk, OnOk};
ghost use Rattle.s38_odt.specs.Labels.{EntersNew, HasLabels, instruction_count, is_label, label_in};

use s38_base::{Name, NoMemory};
use s38_code::Lines;
use s38_words::label;
use std::alloc::Global;
use std::collections::BTreeMap;
use std::marker::Model;

/// The place in the code of each label, from 0 on.
type LabelPlaces = BTreeMap<Name, u32>;

/// Whether a line of code is a label; every other is an instruction.
pub fn is_label(line: &[u8]) -> bool
    ensures { result ≡ is_label line.now }
{
    label(line).is_some()
}

/// How many of the lines are no labels.
pub fn instruction_count(code: &Lines<'_>) -> usize
    ensures { result ≡ instruction_count code.now }
{
    code.iter().filter(|line| !is_label(line)).count()
}

/// Enters a label that is not there yet.
fn enter(labels: &mut LabelPlaces, name: Name, at: u32) -> Result<(), NoMemory>
    ensures { OnOk result (EntersNew labels.old labels.new name at) }
{
    if !labels.contains_key(&name) {
        labels.insert(name, at)?;
    }
    Ok(())
}

/// The place of each label: before how many instructions it is. The first of two labels of one name counts.
fn labels_of(alloc: Global, code: &Lines<'_>) -> Result<LabelPlaces, NoMemory>
    requires { instruction_count code.now ≤ 16384 }
    ensures { IfOk result (λ labels. HasLabels code.now labels) }
{
    let mut labels = BTreeMap::new(alloc);
    let mut at: u32 = 0;
    for line in code.iter() {
        match label(line) {
            Some(name) => enter(&mut labels, name, at)?,
            None => at += 1,
        }
    }
    Ok(labels)
}

/// The lines of a program's code, and the place of each label in them. Contracts see it as the list of the
/// lines.
#[derive(Drop)]
pub struct CodeLines<'a> {
    lines: Lines<'a>,
    labels: LabelPlaces,
}

impl<'a> Model for CodeLines<'a> {
    ghost use Rattle.std.specs.Prelude.{List, ℕ};
    ghost use Rattle.s38_odt.specs.Labels.{HasLabels};

    ghost Value = { List (List ℕ) };

    ghost view = { λ c. c.lines };

    ghost invariant = { λ c. HasLabels c.lines c.labels };
}

impl<'a> CodeLines<'a> {
    /// Finds the labels in these lines.
    pub fn new(alloc: Global, lines: Lines<'a>) -> Result<CodeLines<'a>, NoMemory>
        requires { instruction_count lines ≤ 16384 }
        ensures { IfOk result (λ code. code ≡ lines.entry) }
    {
        let labels = labels_of(alloc, &lines)?;
        Ok(CodeLines { lines, labels })
    }

    /// The lines, in order.
    pub fn lines(&self) -> Lines<'a>
        ensures { result ≡ self.now }
    {
        self.lines.iter()
    }

    /// The place of a label: the number of the instruction before which it is, from 0 on; None exactly where
    /// no line is this label.
    pub fn place(&self, name: &Name) -> Option<u32>
        ensures { result ≡ label_in self.now name.now }
    {
        self.labels.get(name).copied()
    }
}
