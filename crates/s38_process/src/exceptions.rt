//! Who takes an exception: the newest invocation with a description of it, or nobody, which ends the process.
ghost use Rattle.std.specs.Prelude.{◌≡◌, ◌<◌, ◌+◌};
ghost use Rattle.s38_process.specs.Exceptions.{label_by, label_for, names, offered, taken_by};
ghost use Rattle.s38_process.specs.Process.{after_signal, unhandled_by};
ghost use Rattle.s38_process.specs.Progress.{process_state};

use crate::invocations::Invocations;
use crate::made::rows_of;
use crate::progress::Progress;
use crate::status::Status;
use s38_code::{EndCause, Form, Row};
use std::alloc::Global;

/// Whether a description names a code.
fn names(taken: Option<u16>, code: u16) -> bool
    ensures { result ≡ names taken code }
{
    match taken {
        None => true,
        Some(one) => one == code,
    }
}

fn taken_by(form: &Form, on: bool, code: u16) -> Option<usize>
    ensures { result ≡ taken_by form.now on code }
{
    match form {
        Form::Handler { code: taken, at } => {
            if on && names(*taken, code) {
                Some(*at as usize)
            } else {
                None
            }
        }
        _ => None,
    }
}

/// Where the first description goes on that is on and names the code.
fn label_for(rows: &[Row], on: &[bool], code: u16) -> Option<usize>
    ensures { result ≡ label_for rows.now on.now code }
{
    match rows {
        [] => None,
        [row, rows @ ..] => match on {
            [] => None,
            [is_on, on @ ..] => match taken_by(&row.form, *is_on, code) {
                Some(at) => Some(at),
                None => label_for(rows, on, code),
            },
        },
    }
}

/// Why a process ends by an exception that no description takes.
fn unhandled(done: u32, budget: u32, id: u16) -> EndCause
    requires { done < budget }
    ensures { result ≡ unhandled_by budget done id }
{
    if budget <= done + 1 {
        EndCause::Budget
    } else {
        EndCause::Unhandled { id }
    }
}

/// Where the newest invocation goes on, if a description of it takes the exception.
fn label_by(invocations: &Invocations, code: u16) -> Option<usize>
    ensures { result ≡ label_by invocations.now.top code }
{
    label_for(
        rows_of(invocations.made()),
        invocations.frame().on.as_slice(),
        code,
    )
}

/// Offers an exception to the newest invocation and then to its callers, the newest first, and says whether one of
/// them takes it. Invocations that do not take it end, but for the first.
#[tactic(auto, using(crate::proofs::OfferLaws::offered_here, crate::proofs::OfferLaws::offered_last, crate::proofs::OfferLaws::offered_next))]
fn offer(alloc: Global, invocations: &mut Invocations, code: u16) -> bool
    ensures stack { invocations.new ≡ (offered code invocations.old).stack }
    ensures taken { result ≡ (offered code invocations.old).taken }
{
    match label_by(invocations, code) {
        Some(at) => {
            invocations.take(alloc, code, at);
            true
        }
        None => invocations.pop() && offer(alloc, invocations, code),
    }
}

/// An exception is taken by an invocation, or the process comes to its end; the instruction counts.
pub fn take_signal(
    alloc: Global,
    budget: u32,
    invocations: &mut Invocations,
    progress: &mut Progress,
    id: u16,
)
    requires { progress.old.done < budget }
    ensures signal { process_state invocations.new budget progress.new ≡ after_signal (process_state invocations.old budget progress.old) id }
    ensures count { progress.new.done ≡ progress.old.done + 1 }
{
    if !offer(alloc, invocations, id) {
        progress.status = Status::Ending(unhandled(progress.done, budget, id));
    }
    progress.done += 1;
}
