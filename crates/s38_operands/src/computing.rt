//! Computations that the machine does, since an operand lies in a space.
ghost use Rattle.std.specs.Prelude.{◌≡◌, IfOk, length, replicate};
ghost use Rattle.std.specs.Option.{option_copied};
ghost use Rattle.s38_rules.specs.families.Computing.{computing_fails, computing_gives, computing_needs, held_in, is_call, of_operands, offset_needs, power_of, receiver_at, receiver_attr, shift_at};
ghost use Rattle.s38_rules.specs.ask.Operands.{place as operand};

use crate::hex::are_hex_of;
use crate::needs::{Needs, need};
use crate::numbers::number_at;
use crate::operands::{place, room_at, word_at};
use crate::reads::{bytes_at, piece_at, pointer_at, size_at};
use s38_base::{Attr, Bytes, Exception, NoMemory, Op, Pointer, Rights};
use s38_code::{Operand, Request, Val};
use s38_compute::{Piece, Sources, copies_right, failure, is_branch, value};
use s38_decimal::Dec;
use s38_objects::Objects;
use s38_rules::{Named, PointerKind, Sought};
use std::alloc::Global;

/// What a computation reads at the operands of an instruction.
#[derive(Clone, Copy)]
pub struct AtOperands<'a> {
    pub objects: &'a Objects,
    pub operands: &'a [Operand],
}

fn receiver_attr(receiver: Option<&Operand>) -> Attr
    ensures { result ≡ receiver_attr (option_copied receiver.entry) }
{
    match receiver {
        Some(Operand::Receiver { attr }) => *attr,
        Some(Operand::InSpace { attr, .. }) => *attr,
        _ => Attr::Chars { len: 0 },
    }
}

fn power_of(power: Option<&Operand>) -> i64
    ensures { result ≡ power_of (option_copied power.entry) }
{
    match power {
        Some(Operand::Whole(power)) => *power,
        _ => 0,
    }
}

/// What the receiver holds; of a variable that is neither known nor needed.
fn held_in(alloc: Global, objects: &Objects, operands: &[Operand]) -> Result<Bytes, NoMemory>
    ensures { IfOk result (λ made. made ≡ held_in objects.now operands.now (operand operands.now 1)) }
{
    match place(operands, 1) {
        Some(Operand::InSpace { .. }) => bytes_at(alloc, objects, operands, 1),
        _ => Bytes::repeated(alloc, 0, room_at(operands, 1) as usize),
    }
}

fn size_held(objects: &Objects, operands: &[Operand]) -> usize
    ensures { result ≡ length (held_in objects.now operands.now (operand operands.now 1)) }
{
    match place(operands, 1) {
        Some(Operand::InSpace { .. }) => size_at(objects, operands, 1),
        _ => room_at(operands, 1) as usize,
    }
}

impl<'a> Sources for AtOperands<'a> {
    ghost readings = { λ s. of_operands s.objects.now s.operands.now };

    fn number(&self, k: usize) -> Option<Dec> {
        number_at(self.objects, self.operands, k)
    }

    fn short(&self, _k: usize) -> Option<Dec> {
        None
    }

    fn bytes(&self, alloc: Global, k: usize) -> Result<Piece<'_>, NoMemory> {
        piece_at(alloc, self.objects, self.operands, k)
    }

    fn size(&self, k: usize) -> usize {
        size_at(self.objects, self.operands, k)
    }

    fn are_hex(&self, k: usize) -> bool {
        are_hex_of(self.objects, place(self.operands, k))
    }

    fn pointer(&self, k: usize) -> Option<Pointer> {
        pointer_at(self.objects, self.operands, k)
    }

    fn word(&self, k: usize) -> u32 {
        word_at(self.operands, k)
    }

    fn power(&self) -> i64 {
        power_of(place(self.operands, 3))
    }

    fn receiver(&self) -> Attr {
        receiver_attr(place(self.operands, 1))
    }

    fn room(&self) -> usize {
        room_at(self.operands, 1) as usize
    }

    fn held(&self, alloc: Global) -> Result<Bytes, NoMemory> {
        held_in(alloc, self.objects, self.operands)
    }

    fn size_held(&self) -> usize {
        size_held(self.objects, self.operands)
    }

    fn keeps_rest(&self) -> bool {
        false
    }
}

/// What a computation signals; None also for another instruction. It takes no memory.
#[tactic(auto, unfolding(s38_rules::specs::families::Computing::computing_fails))]
pub fn computing_fails(objects: &Objects, request: &Request) -> Option<Exception>
    ensures { result ≡ computing_fails objects.now request.now }
{
    let operands = request.operands.as_slice();
    failure(&AtOperands { objects, operands }, request.op, request.round)
}

/// The value that a computation gives; None where it signals, and for another instruction.
#[tactic(auto, unfolding(s38_rules::specs::families::Computing::computing_gives))]
pub fn computing_gives(
    alloc: Global,
    objects: &Objects,
    request: &Request,
) -> Result<Option<Val>, NoMemory>
    ensures { IfOk result (λ made. made ≡ computing_gives objects.now request.now) }
{
    let operands = request.operands.as_slice();
    let sources = AtOperands { objects, operands };
    value(alloc, &sources, request.op, request.round)
}

/// A space pointer, whose object is not looked at.
fn offset_needs() -> Needs
    ensures { result ≡ offset_needs }
{
    need(
        2,
        Named::Written,
        PointerKind::Space,
        Sought::Ignored,
        Rights(0),
        None,
    )
}

/// What a computation needs of its operands.
#[tactic(auto, unfolding(s38_rules::specs::families::Computing::computing_needs))]
pub fn computing_needs(op: Op) -> Needs
    ensures { result ≡ computing_needs op }
{
    if matches!(op, Op::Addspp | Op::Subspp) {
        offset_needs()
    } else {
        Needs::none()
    }
}

/// Whether an instruction gives the program that is called.
fn is_call(op: Op) -> bool
    ensures { result ≡ is_call op }
{
    matches!(op, Op::Callx | Op::Xctl)
}

/// The operand that gets the value of an instruction; that of a branch and of a call comes back with the reply.
#[inline(always)]
pub fn receiver_at(op: Op, operands: &[Operand]) -> Option<&Operand>
    ensures { option_copied result ≡ receiver_at op operands.now }
{
    if is_branch(op) || is_call(op) {
        None
    } else {
        place(operands, 1)
    }
}

/// How many bytes past the beginning of its receiver a copy at the right begins.
pub fn shift_at(objects: &Objects, op: Op, operands: &[Operand]) -> u16
    ensures { result ≡ shift_at objects.now op operands.now }
{
    if copies_right(op) {
        (room_at(operands, 1) as usize).saturating_sub(size_at(objects, operands, 2)) as u16
    } else {
        0
    }
}
