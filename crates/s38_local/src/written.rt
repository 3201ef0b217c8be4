ghost use Rattle.std.specs.Prelude.{◌≡◌};
ghost use Rattle.s38_local.specs.Overlap.{end_after, end_at, value_after};

use crate::local_end::LocalEnd;
use s38_base::{Exception, Op};
use s38_code::Val;
use s38_compute::write_string;

fn end_after(signal: Option<Exception>) -> LocalEnd
    ensures { result ≡ end_after signal }
{
    match signal {
        None => LocalEnd::Next,
        Some(exception) => LocalEnd::Signal(exception),
    }
}

/// The receiver, once its bytes are written, and how that ends.
pub fn written(op: Op, value: Val, a: &[u8], b: &[u8], c: &[u8]) -> (Val, LocalEnd)
    ensures value { result.0 ≡ value_after op value a.now b.now c.now }
    ensures end { result.1 ≡ end_at op value a.now b.now c.now }
{
    match value {
        Val::Bytes(bytes) => {
            let mut held = bytes;
            let signal = write_string(op, held.as_mut_slice(), a, b, c);
            (Val::Bytes(held), end_after(signal))
        }
        other => (other, LocalEnd::Next),
    }
}
