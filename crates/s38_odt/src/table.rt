ghost use Rattle.std.specs.Prelude.{◌≡◌, ◌⊎◌, ◌≤◌, ◌<◌, length, [], Ok, Err, IfOk, IfErr, OnOk};
ghost use Rattle.s38_odt.specs.Formed.{AreFormed};
ghost use Rattle.s38_odt.specs.Labels.{instruction_count};
ghost use Rattle.s38_odt.specs.Table.{item_of, more_rows, place_in, row_made, rows_from, rows_of};
ghost use Rattle.s38_odt.specs.Places.{IsTied};
ghost use Rattle.s38_code.specs.declared.program.CreateFault.{CreateFault};

use crate::form::row;
use crate::labels::CodeLines;
use crate::places::{Declared, Places, add};
use s38_base::{Name, NoMemory, Seq};
use s38_code::{CreateFault, Lines, Row, Rows};
use std::alloc::Global;
use std::collections::BTreeMap;
use std::marker::Model;

/// The object definition table of a program: its declarations in order. Contracts see it as the list of its
/// rows.
#[derive(Drop)]
pub struct Odt {
    rows: Vec<Row>,
    places: Places,
}

impl Model for Odt {
    ghost use Rattle.std.specs.Prelude.{List};
    ghost use Rattle.s38_code.specs.declared.program.Row.{Row};
    ghost use Rattle.s38_odt.specs.Places.{IsTied};

    ghost Value = { List Row };

    ghost view = { λ t. t.rows.items };

    ghost invariant = { λ t. IsTied t.places t.rows.items };
}

impl Odt {
    /// The rows, in order.
    pub fn rows(&self) -> &[Row]
        ensures { result.now ≡ self.now }
    {
        self.rows.as_slice()
    }

    /// The number, from 0 on, of the item that a word names; None exactly where it names none.
    pub fn item(&self, word: &[u8]) -> Option<u16>
        ensures { result ≡ item_of self.now word.now }
    {
        match Name::parse(word) {
            Ok(name) => self.place(&name),
            Err(_) => None,
        }
    }

    /// The number, from 0 on, of the item that has a name; None exactly where none has it.
    pub fn place(&self, name: &Name) -> Option<u16>
        ensures { result ≡ place_in self.now name.now }
    {
        self.places.get(name).copied()
    }

    /// The rows alone, without a copy.
    pub fn into_rows(self) -> Rows
        ensures { result ≡ self }
    {
        Seq::from_vec(self.rows)
    }
}

/// Checks one more line after those that are declared; the cause, if it is refused.
fn declare(
    alloc: Global,
    code: &CodeLines<'_>,
    declared: &mut Declared,
    line: &[u8],
) -> Result<Result<(), u16>, NoMemory>
    requires tied { IsTied declared.old.places declared.old.rows.items }
    requires few { length declared.old.rows.items < 1024 }
    ensures tied { IfOk result (λ answer. OnOk answer (IsTied declared.new.places declared.new.rows.items)) }
    ensures rows { IfOk result (λ answer. OnOk answer (more_rows declared.old.rows.items (row_made code.now declared.old.rows.items line.now) ≡ Ok declared.new.rows.items)) }
    ensures refused { IfOk result (λ answer. IfErr answer (λ cause. row_made code.now declared.old.rows.items line.now ≡ Err cause)) }
{
    match row(alloc, code, declared, line)? {
        Err(cause) => Ok(Err(cause)),
        Ok(row) => {
            add(declared, row)?;
            Ok(Ok(()))
        }
    }
}

/// The declarations of these lines, and the place of each name among them.
fn declarations(
    alloc: Global,
    code: &CodeLines<'_>,
    lines: &Lines<'_>,
) -> Result<Declared, CreateFault>
    requires { length lines.now ≤ 1024 }
    ensures made { IfOk result (λ declared. rows_from code.now [] lines.now ≡ Ok declared.rows.items) }
    ensures tied { IfOk result (λ declared. IsTied declared.places declared.rows.items) }
    ensures bad { IfErr result (λ fault. (fault ≡ CreateFault.NoMemory) ⊎ (rows_from code.now [] lines.now ≡ Err fault)) }
{
    let mut declared = Declared {
        rows: Vec::new(alloc),
        places: BTreeMap::new(alloc),
    };
    for line in lines.iter() {
        let number = declared.rows.len() as u32 + 1;
        match declare(alloc, code, &mut declared, line) {
            Ok(Ok(())) => {}
            Ok(Err(id)) => return Err(CreateFault::Bad { id, number }),
            Err(NoMemory) => return Err(CreateFault::NoMemory),
        }
    }
    Ok(declared)
}

/// The object definition table of a program's declarations, which come before this code. `Bad` exactly where one
/// of them is bad: at the first, with its number from 1 on, and 2A02 or 2A03 as its cause.
#[tactic(auto, unfolding(crate::specs::Table::rows_of))]
pub fn definition_table(
    alloc: Global,
    code: &CodeLines<'_>,
    lines: &Lines<'_>,
) -> Result<Odt, CreateFault>
    requires { length lines.now ≤ 1024 }
    ensures made { IfOk result (λ table. rows_of code.now lines.now ≡ Ok table) }
    ensures bad { IfErr result (λ fault. (fault ≡ CreateFault.NoMemory) ⊎ (rows_of code.now lines.now ≡ Err fault)) }
    ensures formed { IfOk result (λ table. AreFormed (instruction_count code.now) table) }
    ensures few { IfOk result (λ table. length table ≡ length lines.now) }
{
    match declarations(alloc, code, lines) {
        Ok(Declared { rows, places }) => Ok(Odt { rows, places }),
        Err(fault) => Err(fault),
    }
}

/// The rows of a program's declarations, which come before this code. `Bad` exactly where one of them is bad: at
/// the first, with its number from 1 on, and 2A02 or 2A03 as its cause.
pub fn rows(alloc: Global, code: &CodeLines<'_>, lines: &Lines<'_>) -> Result<Rows, CreateFault>
    requires { length lines.now ≤ 1024 }
    ensures made { IfOk result (λ rows. rows_of code.now lines.now ≡ Ok rows) }
    ensures bad { IfErr result (λ fault. (fault ≡ CreateFault.NoMemory) ⊎ (rows_of code.now lines.now ≡ Err fault)) }
    ensures formed { IfOk result (λ rows. AreFormed (instruction_count code.now) rows) }
    ensures few { IfOk result (λ rows. length rows ≡ length lines.now) }
{
    match definition_table(alloc, code, lines) {
        Ok(table) => Ok(table.into_rows()),
        Err(fault) => Err(fault),
    }
}
