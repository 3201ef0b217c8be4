ghost use Rattle.std.specs.Prelude.{◌≡◌, ◌≤◌, IfOk, option_copied};
ghost use Rattle.s38_demo.specs.Total.{asks_entry, demo_text, given, reply_bytes, total_bytes, total_of};

use crate::text::{add, add_number, add_signed};
use s38_base::{Attr, NoMemory, Op};
use s38_code::{Entry, Event, Reply, Val};
use s38_decimal::read_scalar;
use std::alloc::Global;

/// Whether an entry of a data space is asked for.
fn asks_entry(event: &Event) -> bool
    ensures { result ≡ asks_entry event.now }
{
    match event {
        Event::Act { request, .. } => request.op == Op::Retdsen,
        _ => false,
    }
}

/// The bytes that came back.
fn bytes_of(reply: &Reply) -> Option<&[u8]>
    ensures { option_copied result ≡ reply_bytes reply.now }
{
    match reply {
        Reply::Done(values) => match values.as_slice() {
            [Val::Bytes(bytes), ..] => Some(bytes.as_slice()),
            _ => None,
        },
        _ => None,
    }
}

/// What a process was given by a RETDSEN.
fn given(process: u64, entry: &Entry) -> Option<&[u8]>
    ensures { option_copied result ≡ given process entry.now }
{
    if u64::from(entry.process) == process && asks_entry(&entry.event) {
        bytes_of(&entry.reply)
    } else {
        None
    }
}

/// What the last process of the deck was given first.
fn total_bytes(size: u32, history: &[Entry]) -> Option<&[u8]>
    ensures { option_copied result ≡ total_bytes size history.now }
{
    for entry in history {
        if let Some(bytes) = given(u64::from(size) + 2, entry) {
            return Some(bytes);
        }
    }
    None
}

/// The total that the run of the generated deck came to: the number in what its last process was given first, and 0
/// where there is none.
#[tactic(auto, unfolding(crate::specs::Total::total_of))]
pub fn total(size: u32, history: &[Entry]) -> i128
    ensures { result ≡ total_of size history.now }
{
    let Some(bytes) = total_bytes(size, history) else {
        return 0;
    };
    let attr = Attr::Packed {
        digits: 9,
        fraction: 0,
    };
    match read_scalar(attr, bytes) {
        Ok(number) => number.units,
        Err(_) => 0,
    }
}

/// What is printed of the run of the generated deck: the number of its postings, and the total.
#[tactic(auto, unfolding(crate::specs::Total::demo_text))]
pub fn demo_text(alloc: Global, size: u32, history: &[Entry]) -> Result<Vec<u8>, NoMemory>
    ensures { IfOk result (λ text. text.items ≡ demo_text size history.now) }
{
    let mut text = Vec::new(alloc);
    add(&mut text, b"JOBS ")?;
    add_number(&mut text, size)?;
    add(&mut text, b"\nTOTAL ")?;
    add_signed(&mut text, total(size, history))?;
    add(&mut text, b"\n")?;
    Ok(text)
}
