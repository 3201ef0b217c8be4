ghost use Rattle.std.specs.Prelude.{◌≡◌, ◌≤◌, ◌<◌, ◌++◌, ◌∷◌, [], length, slice_get, is_some, None, OnOk};
ghost use Rattle.s38_odt.specs.Places.{IsTied};
ghost use Rattle.s38_odt.specs.Table.{base_in, is_base_form, is_base_row, is_parameter, item_of, parameter_count, place_in};

use s38_base::{Name, NoMemory};
use s38_code::{Form, Row};
use std::collections::BTreeMap;

/// The number of each declared name's item.
pub type Places = BTreeMap<Name, u16>;

/// Rows, and the place of each name among them.
#[derive(Drop)]
pub struct Declared {
    pub rows: Vec<Row>,
    pub places: Places,
}

/// Whether a name is there already.
pub fn is_declared(declared: &Declared, name: &Name) -> bool
    requires { IsTied declared.now.places declared.now.rows.items }
    ensures { result ≡ is_some (place_in declared.now.rows.items name.now) }
{
    declared.places.contains_key(name)
}

/// A variable or a parameter that holds a pointer.
fn is_base(form: &Form) -> bool
    ensures { result ≡ is_base_form form.now }
{
    match form {
        Form::Local { attr, .. } => attr.is_pointer(),
        Form::Parm { attr, .. } => attr.is_pointer(),
        _ => false,
    }
}

fn is_base_row(rows: &[Row], at: u16) -> bool
    ensures { result ≡ is_base_row (slice_get rows.now at) }
{
    match rows.get(at as usize) {
        Some(row) => is_base(&row.form),
        None => false,
    }
}

/// The row is a parameter.
fn is_parameter(row: &Row) -> bool
    ensures { result ≡ is_parameter row.now.form }
{
    matches!(row.form, Form::Parm { .. })
}

/// How many of the rows are parameters.
pub fn parameter_count(rows: &[Row]) -> usize
    ensures count { result ≡ parameter_count rows.now }
    ensures few { result ≤ length rows.now }
{
    rows.iter().filter(|row| is_parameter(row)).count()
}

/// The number of the base that a name is.
pub fn base(declared: &Declared, name: &Name) -> Option<u16>
    requires { IsTied declared.now.places declared.now.rows.items }
    ensures { result ≡ base_in declared.now.rows.items name.now }
{
    match declared.places.get(name).copied() {
        Some(at) => if is_base_row(declared.rows.as_slice(), at) {
            Some(at)
        } else {
            None
        },
        None => None,
    }
}

/// Adds a row whose name is new.
pub fn add(declared: &mut Declared, row: Row) -> Result<(), NoMemory>
    requires tied { IsTied declared.old.places declared.old.rows.items }
    requires few { length declared.old.rows.items < 1024 }
    requires absent { place_in declared.old.rows.items row.name ≡ None }
    ensures tied { OnOk result (IsTied declared.new.places declared.new.rows.items) }
    ensures rows { OnOk result (declared.new.rows.items ≡ declared.old.rows.items ++ row ∷ []) }
{
    declared
        .places
        .insert(row.name, declared.rows.len() as u16)?;
    declared.rows.push(row)?;
    Ok(())
}
