//! The values with which variables begin.
ghost use Rattle.std.specs.Prelude.{◌≡◌, ◌++◌, IfOk, OnErr, OnOk, length, take};
ghost use Rattle.s38_process.specs.Invocations.{blank_bytes, blank_values, first_value, first_values, initial_value};

use s38_base::{Attr, Bytes, HeldPointer, NoMemory, TryClone};
use s38_code::{Form, Row, Val};
use s38_odt::blank;
use std::alloc::Global;

/// What a variable begins with: a pointer variable with no pointer, another with its first bytes.
fn first_by(attr: Attr, first: Bytes) -> Val
    ensures { result ≡ initial_value attr first }
{
    match attr {
        Attr::Pointer => Val::Ptr(HeldPointer::of(None)),
        _ => Val::Bytes(first),
    }
}

/// The bytes with which a variable begins that a job gives for a parameter.
fn blank_bytes(alloc: Global, attr: Attr) -> Result<Bytes, NoMemory>
    ensures { IfOk result (λ bytes. bytes ≡ blank_bytes attr) }
{
    match blank(alloc, attr)? {
        Some(bytes) => Ok(bytes),
        None => Ok(Bytes::new(alloc)),
    }
}

/// What the place of a declared name begins with; nothing uses that of a name without a variable of its own.
fn first_value(alloc: Global, form: &Form) -> Result<Val, NoMemory>
    ensures { IfOk result (λ v. v ≡ first_value form.now) }
{
    match form {
        Form::Local { attr, first } => Ok(first_by(*attr, first.try_clone(alloc)?)),
        Form::Parm { .. } => Ok(Val::Ptr(HeldPointer::of(None))),
        Form::Based { .. } => Ok(Val::Ptr(HeldPointer::of(None))),
        Form::Handler { .. } => Ok(Val::Ptr(HeldPointer::of(None))),
    }
}

/// Adds the values with which the variables begin; after an error some of them may have been added.
fn add_each(alloc: Global, values: &mut Vec<Val>, rows: &[Row]) -> Result<(), NoMemory>
    ensures ok { OnOk result (values.new.items ≡ values.old.items ++ first_values rows.now) }
    ensures err { OnErr result (take (length values.old.items) values.new.items ≡ values.old.items) }
{
    for row in rows {
        let value = first_value(alloc, &row.form)?;
        values.push(value)?;
    }
    Ok(())
}

/// The values with which the variables begin.
pub fn first_values(alloc: Global, rows: &[Row]) -> Result<Vec<Val>, NoMemory>
    ensures { IfOk result (λ values. values.items ≡ first_values rows.now) }
{
    let mut values = Vec::with_capacity(alloc, rows.len())?;
    add_each(alloc, &mut values, rows)?;
    Ok(values)
}

/// Adds the values with which the variables begin after others. An error changes nothing.
pub fn add_first_values(alloc: Global, values: &mut Vec<Val>, rows: &[Row]) -> Result<(), NoMemory>
    ensures ok { OnOk result (values.new.items ≡ values.old.items ++ first_values rows.now) }
    ensures err { OnErr result (values.new.items ≡ values.old.items) }
{
    let count = values.len();
    match add_each(alloc, values, rows) {
        Ok(()) => Ok(()),
        Err(fault) => {
            values.truncate(count);
            Err(fault)
        }
    }
}

/// The variables that a job gives, one for each parameter of its template.
pub fn blank_values(alloc: Global, rows: &[Row]) -> Result<Vec<Val>, NoMemory>
    ensures { IfOk result (λ values. values.items ≡ blank_values rows.now) }
{
    let mut values = Vec::new(alloc);
    for row in rows {
        if let Form::Parm { attr, .. } = &row.form {
            let value = first_by(*attr, blank_bytes(alloc, *attr)?);
            values.push(value)?;
        }
    }
    Ok(values)
}
