ghost use Rattle.std.specs.Prelude.{◌≡◌, ℕ, IfOk, slice_get};
ghost use Rattle.std.specs.List.{range_with_len};
ghost use Rattle.std.specs.Option.{option_copied};
ghost use Rattle.s38_process.specs.Invocations.{first_frame, home_for, homes_from, lent};
ghost use Rattle.s38_process.specs.Passed.{places_passed};

use s38_base::{NoMemory, Pile, Seq};
use s38_code::{Arg, Form, Row};
use s38_local::{Frame, place_of};
use std::alloc::Global;

/// Where the caller's argument lies, if that stays while the invocation lasts; else the name's own place.
fn lent(base: usize, place: Option<usize>, own: usize) -> usize
    ensures { result ≡ lent base place own }
{
    match place {
        Some(place) if place < base => place,
        _ => own,
    }
}

/// What lies under the parameters of an invocation that begins: the variables that a job gives, by their places, or the
/// arguments of a call, by the caller's homes.
#[derive(Clone, Copy)]
pub enum Passed<'a> {
    Given(&'a [usize]),
    Arguments {
        homes: &'a [usize],
        arguments: &'a [Arg],
    },
}

/// The place that is passed for a parameter; what is no item lies nowhere.
fn place_passed(passed: Passed<'_>, at: usize) -> Option<usize>
    ensures { (base own : ℕ) → lent base result own ≡ lent base (slice_get (places_passed base passed.entry) at) own }
{
    match passed {
        Passed::Given(places) => places.get(at).copied(),
        Passed::Arguments { homes, arguments } => place_of(homes, arguments.get(at)),
    }
}

/// Where a declared name lies: a parameter with what is passed for it, another name at its own place.
fn home_for(base: usize, passed: Passed<'_>, own: usize, form: &Form) -> usize
    ensures { result ≡ home_for base (places_passed base passed.entry) own form.now }
{
    match form {
        Form::Parm { k, .. } => {
            let place = place_passed(passed, (*k as usize).saturating_sub(1));
            lent(base, place, own)
        }
        _ => own,
    }
}

/// The places of the declared names of an invocation; each has its own place after the base, in order.
fn homes_from(
    alloc: Global,
    base: usize,
    passed: Passed<'_>,
    rows: &[Row],
) -> Result<Vec<usize>, NoMemory>
    ensures { IfOk result (λ homes. homes.items ≡ homes_from base (places_passed base passed.entry) base rows.now) }
{
    let mut homes = Vec::with_capacity(alloc, rows.len())?;
    let mut own = base;
    for row in rows {
        homes.push(home_for(base, passed, own, &row.form))?;
        own = own.checked_add(1).ok_or(NoMemory)?;
    }
    Ok(homes)
}

/// The places of the variables that a job gives.
pub fn own_places(alloc: Global, count: usize) -> Result<Vec<usize>, NoMemory>
    ensures { IfOk result (λ places. places.items ≡ range_with_len 0 count) }
{
    let places = (0..count).collect(alloc)?;
    Ok(places)
}

/// An invocation begins with its first instruction, and each description of exceptions is on.
pub fn first_frame(
    alloc: Global,
    rows: &[Row],
    base: usize,
    passed: Passed<'_>,
) -> Result<Frame, NoMemory>
    ensures { IfOk result (λ frame. frame ≡ first_frame rows.now base (places_passed base passed.entry)) }
{
    Ok(Frame {
        at: 0,
        base,
        homes: Seq::from_vec(homes_from(alloc, base, passed, rows)?),
        on: Seq::from_vec(vec![in alloc; true; rows.len()]?),
        returns: Pile::new(alloc),
        latest: 0,
    })
}
