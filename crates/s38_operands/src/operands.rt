//! What an operand is, where no object is asked.
ghost use Rattle.std.specs.Prelude.{◌≡◌};
ghost use Rattle.std.specs.Option.{option_copied};
ghost use Rattle.s38_rules.specs.ask.Operands.{attr_at, attr_of, id_at, id_of, is_given, is_given_in, is_list, is_list_in, is_machine, is_machine_in, place, rights_at, room_at, room_of, scalar_attr, whole_at, whole_of, word_at, word_of};
ghost use Rattle.s38_rules.specs.ask.Receivers.{is_in_space};

use s38_base::{Attr, Id, Rights};
use s38_code::Operand;

/// What is written at an operand; operands count from 1.
#[inline(always)]
pub fn place(operands: &[Operand], k: usize) -> Option<&Operand>
    ensures { option_copied result ≡ place operands.now k }
{
    operands.get(k.saturating_sub(1))
}

fn is_given_in(operand: Option<&Operand>) -> bool
    ensures { result ≡ is_given_in (option_copied operand.entry) }
{
    match operand {
        Some(Operand::Nothing) => false,
        None => false,
        _ => true,
    }
}

/// Whether something is written there, and not `*NONE`.
pub fn is_given(operands: &[Operand], k: usize) -> bool
    ensures { result ≡ is_given operands.now k }
{
    is_given_in(place(operands, k))
}

fn is_list_in(operand: Option<&Operand>) -> bool
    ensures { result ≡ is_list_in (option_copied operand.entry) }
{
    match operand {
        Some(Operand::ContextList) => true,
        _ => false,
    }
}

/// Whether it is `*LIST`.
pub fn is_list(operands: &[Operand], k: usize) -> bool
    ensures { result ≡ is_list operands.now k }
{
    is_list_in(place(operands, k))
}

fn word_of(operand: Option<&Operand>) -> u32
    ensures { result ≡ word_of (option_copied operand.entry) }
{
    match operand {
        Some(Operand::Word(word)) => *word,
        _ => 0,
    }
}

/// The number of a word.
pub fn word_at(operands: &[Operand], k: usize) -> u32
    ensures { result ≡ word_at operands.now k }
{
    word_of(place(operands, k))
}

/// A word of rights: its eight bits.
pub fn rights_at(operands: &[Operand], k: usize) -> Rights
    ensures { result.0 ≡ rights_at operands.now k }
{
    Rights((word_at(operands, k) & 0xff) as u8)
}

fn id_of(operand: Option<&Operand>) -> Option<&Id>
    ensures { option_copied result ≡ id_of (option_copied operand.entry) }
{
    match operand {
        Some(Operand::Ident(id)) => Some(id),
        _ => None,
    }
}

/// The identification.
pub fn id_at(operands: &[Operand], k: usize) -> Option<&Id>
    ensures { option_copied result ≡ id_at operands.now k }
{
    id_of(place(operands, k))
}

fn room_of(operand: Option<&Operand>) -> u16
    ensures { result ≡ room_of (option_copied operand.entry) }
{
    match operand {
        Some(Operand::Receiver { attr }) => attr.length(),
        Some(Operand::InSpace { attr, .. }) => attr.length(),
        _ => 0,
    }
}

/// How many bytes the receiver takes.
pub fn room_at(operands: &[Operand], k: usize) -> u16
    ensures { result ≡ room_at operands.now k }
{
    room_of(place(operands, k))
}

/// Whether an operand lies in a space.
pub fn is_in_space(operand: Option<&Operand>) -> bool
    ensures { result ≡ is_in_space (option_copied operand.entry) }
{
    matches!(operand, Some(Operand::InSpace { .. }))
}

fn is_machine_in(operand: Option<&Operand>) -> bool
    ensures { result ≡ is_machine_in (option_copied operand.entry) }
{
    matches!(operand, Some(Operand::MachineContext))
}

/// Whether it is `*MACHINE`.
pub fn is_machine(operands: &[Operand], k: usize) -> bool
    ensures { result ≡ is_machine operands.now k }
{
    is_machine_in(place(operands, k))
}

fn whole_of(operand: Option<&Operand>) -> u64
    ensures { result ≡ whole_of (option_copied operand.entry) }
{
    match operand {
        Some(Operand::Whole(number)) => (*number).max(0) as u64,
        _ => 0,
    }
}

/// A whole number that is written, 0 for another operand.
pub fn whole_at(operands: &[Operand], k: usize) -> u64
    ensures { result ≡ whole_at operands.now k }
{
    whole_of(place(operands, k))
}

fn attr_of(operand: Option<&Operand>) -> Attr
    ensures { result ≡ attr_of (option_copied operand.entry) }
{
    match operand {
        Some(Operand::Attrs(attrs)) => match attrs.as_slice() {
            [attr] => *attr,
            _ => Attr::Chars { len: 0 },
        },
        _ => Attr::Chars { len: 0 },
    }
}

/// The attribute of a list of one.
pub fn attr_at(operands: &[Operand], k: usize) -> Attr
    ensures { result ≡ attr_at operands.now k }
{
    attr_of(place(operands, k))
}

/// The attribute of a scalar that is read.
pub fn scalar_attr(operand: Option<&Operand>) -> Attr
    ensures { result ≡ scalar_attr (option_copied operand.entry) }
{
    match operand {
        Some(Operand::Value { attr, .. }) => *attr,
        Some(Operand::InSpace { attr, .. }) => *attr,
        _ => Attr::Chars { len: 0 },
    }
}
