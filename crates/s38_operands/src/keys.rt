//! Questions about a key that an instruction reads, also where it lies in a space. No memory is taken: the bytes of a
//! space are copied into room on the stack.
ghost use Rattle.std.specs.Prelude.{◌≡◌, ◌≤◌, ◌<◌, ◌^◌, [], IsTrue, length, take, drop};
ghost use Rattle.std.specs.Option.{option_copied, unwrap_or};
ghost use Rattle.s38_memory.specs.Tagged.{bytes_in, is_within};
ghost use Rattle.s38_rules.specs.state.Cells.{bytes_there};
ghost use Rattle.s38_rules.specs.ask.Operands.{bytes_at, bytes_of};
ghost use Rattle.s38_rules.specs.families.Queues.{relation_at};

use crate::operands::{place, word_at};
use s38_base::{Pointer, Relation};
use s38_code::Operand;
use s38_memory::Tagged;
use s38_objects::Objects;

/// Room for a key of a queue or an entry of an index.
const KEY_ROOM: usize = 256;
/// Room for any scalar.
const SCALAR_ROOM: usize = 65_536;

/// A question about a key.
pub trait Question {
    ghost use Rattle.std.specs.Prelude.{◌≡◌, ℕ, Bool, List};

    ghost answer: { Self → List ℕ → Bool };

    fn ask(&self, key: &[u8]) -> bool
        ensures { result ≡ answer self.now key.now };
}

/// The relation that a word names; ANY where it names none.
pub fn relation_at(operands: &[Operand], k: usize) -> Relation
    ensures { result ≡ relation_at operands.now k }
{
    match Relation::from_word(word_at(operands, k)) {
        Some(relation) => relation,
        None => Relation::Any,
    }
}

/// Asks by the bytes of a piece, which go through the room.
fn ask_through<Q: Question>(question: &Q, space: &Tagged, at: u64, room: &mut [u8]) -> bool
    requires within { IsTrue (is_within at (length room.old) space.now) }
    requires near { at < 2 ^ 32 }
    ensures { result ≡ Q.answer question.now (take (length room.old) (drop at (bytes_in space.now))) }
{
    match space.read(at as u32, room) {
        Ok(()) => question.ask(room),
        Err(_) => question.ask(&[]),
    }
}

fn ask_short<Q: Question>(question: &Q, space: &Tagged, at: u64, len: usize) -> bool
    requires within { IsTrue (is_within at len space.now) }
    requires near { at < 2 ^ 32 }
    requires short { len ≤ 256 }
    ensures { result ≡ Q.answer question.now (take len (drop at (bytes_in space.now))) }
{
    let mut room = [0; KEY_ROOM];
    ask_through(question, space, at, &mut room[..len])
}

fn ask_long<Q: Question>(question: &Q, space: &Tagged, at: u64, len: usize) -> bool
    requires within { IsTrue (is_within at len space.now) }
    requires near { at < 2 ^ 32 }
    requires short { len ≤ 65536 }
    ensures { result ≡ Q.answer question.now (take len (drop at (bytes_in space.now))) }
{
    let mut room = [0; SCALAR_ROOM];
    ask_through(question, space, at, &mut room[..len])
}

fn ask_piece<Q: Question>(question: &Q, space: &Tagged, at: u64, len: u16) -> bool
    ensures { result ≡ Q.answer question.now (bytes_there space.now at len) }
{
    let len = len as usize;
    if !space.has_piece(at, len) {
        return question.ask(&[]);
    }
    if len <= KEY_ROOM {
        ask_short(question, space, at, len)
    } else {
        ask_long(question, space, at, len)
    }
}

fn ask_space<Q: Question>(question: &Q, space: Option<&Tagged>, at: u64, len: u16) -> bool
    ensures { result ≡ Q.answer question.now (bytes_there (unwrap_or (option_copied space.entry) []) at len) }
{
    match space {
        None => question.ask(&[]),
        Some(space) => ask_piece(question, space, at, len),
    }
}

fn ask_of<Q: Question>(question: &Q, objects: &Objects, operand: Option<&Operand>) -> bool
    ensures { result ≡ Q.answer question.now (bytes_of objects.now (option_copied operand.entry)) }
{
    match operand {
        Some(Operand::Value { bytes, .. }) => question.ask(bytes.as_slice()),
        Some(Operand::InSpace { base, offset, attr }) => ask_space(
            question,
            objects.space(Pointer::target(base.get())),
            Pointer::start(base.get(), *offset),
            attr.length(),
        ),
        _ => question.ask(&[]),
    }
}

/// Asks by the bytes that are read at an operand.
pub fn ask_at<Q: Question>(question: &Q, objects: &Objects, operands: &[Operand], k: usize) -> bool
    ensures { result ≡ Q.answer question.now (bytes_at objects.now operands.now k) }
{
    ask_of(question, objects, place(operands, k))
}
