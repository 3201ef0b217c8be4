//! What an instruction reads at its operands, also where they lie in a space.
ghost use Rattle.std.specs.Prelude.{◌≡◌, [], All, IfOk, IfSome, length};
ghost use Rattle.std.specs.Option.{option_copied, unwrap_or};
ghost use Rattle.s38_memory.specs.Cell.{IsCell};
ghost use Rattle.s38_rules.specs.state.Held.{Held};
ghost use Rattle.s38_rules.specs.ask.Operands.{bytes_at, bytes_of, cells_of, pointer_at, pointer_in, pointer_of, size_at, source_cells, target};
ghost use Rattle.s38_compute.specs.Piece.{piece_bytes};

use crate::operands::place;
use crate::storage::{bytes_there, cells_there, one_cell, pointer_there, size_there};
use s38_base::{Attr, Bytes, NoMemory, ObjNum, Pointer, TryClone};
use s38_code::Operand;
use s38_compute::Piece;
use s38_memory::{Cell, Tagged};
use s38_objects::Objects;
use std::alloc::Global;

/// The pointer in the cell at a place of a space.
#[inline(never)]
fn pointer_in(space: Option<&Tagged>, at: u64, attr: Attr) -> Option<Pointer>
    ensures { result ≡ pointer_in (unwrap_or (option_copied space.entry) []) at attr }
{
    if attr.is_pointer() {
        pointer_there(space, at)
    } else {
        None
    }
}

#[inline(always)]
fn pointer_of(objects: &Objects, operand: Option<&Operand>) -> Option<Pointer>
    ensures { result ≡ pointer_of objects.now (option_copied operand.entry) }
{
    match operand {
        Some(Operand::Ptr(pointer)) => pointer.get(),
        Some(Operand::InSpace { base, offset, attr }) => pointer_in(
            objects.space(Pointer::target(base.get())),
            Pointer::start(base.get(), *offset),
            *attr,
        ),
        _ => None,
    }
}

/// The pointer that is used.
#[inline(always)]
pub fn pointer_at(objects: &Objects, operands: &[Operand], k: usize) -> Option<Pointer>
    ensures { result ≡ pointer_at objects.now operands.now k }
{
    pointer_of(objects, place(operands, k))
}

/// The number of the object that the used pointer names, 0 for none.
#[inline(always)]
pub fn target(objects: &Objects, operands: &[Operand], k: usize) -> ObjNum
    ensures { result.0 ≡ target objects.now operands.now k }
{
    Pointer::target(pointer_at(objects, operands, k))
}

fn bytes_of(alloc: Global, objects: &Objects, operand: Option<&Operand>) -> Result<Bytes, NoMemory>
    ensures { IfOk result (λ made. made ≡ bytes_of objects.now (option_copied operand.entry)) }
{
    match operand {
        Some(Operand::Value { bytes, .. }) => bytes.try_clone(alloc),
        Some(Operand::InSpace { base, offset, attr }) => bytes_there(
            alloc,
            objects.space(Pointer::target(base.get())),
            Pointer::start(base.get(), *offset),
            attr.length(),
        ),
        _ => Ok(Bytes::new(alloc)),
    }
}

/// The bytes that are read.
pub fn bytes_at(
    alloc: Global,
    objects: &Objects,
    operands: &[Operand],
    k: usize,
) -> Result<Bytes, NoMemory>
    ensures { IfOk result (λ made. made ≡ bytes_at objects.now operands.now k) }
{
    bytes_of(alloc, objects, place(operands, k))
}

fn piece_of<'a>(
    alloc: Global,
    objects: &Objects,
    operand: Option<&'a Operand>,
) -> Result<Piece<'a>, NoMemory>
    ensures { IfOk result (λ piece. piece_bytes piece ≡ bytes_of objects.now (option_copied operand.entry)) }
{
    match operand {
        Some(Operand::Value { bytes, .. }) => Ok(Piece::Lent(bytes.as_slice())),
        Some(Operand::InSpace { .. }) => Ok(Piece::Made(bytes_of(alloc, objects, operand)?)),
        _ => Ok(Piece::Lent(&[])),
    }
}

fn lent_of(operand: Option<&Operand>) -> Option<&[u8]>
    ensures { (h : Held) → IfSome result (λ bytes. bytes.now ≡ bytes_of h (option_copied operand.entry)) }
{
    match operand {
        Some(Operand::Value { bytes, .. }) => Some(bytes.as_slice()),
        Some(Operand::InSpace { .. }) => None,
        _ => Some(&[]),
    }
}

/// The bytes that are read, where they lie in the operand itself.
#[inline(always)]
pub fn lent_at(operands: &[Operand], k: usize) -> Option<&[u8]>
    ensures { (h : Held) → IfSome result (λ bytes. bytes.now ≡ bytes_at h operands.now k) }
{
    lent_of(place(operands, k))
}

/// The bytes that are read; those of a value are not copied.
pub fn piece_at<'a>(
    alloc: Global,
    objects: &Objects,
    operands: &'a [Operand],
    k: usize,
) -> Result<Piece<'a>, NoMemory>
    ensures { IfOk result (λ piece. piece_bytes piece ≡ bytes_at objects.now operands.now k) }
{
    piece_of(alloc, objects, place(operands, k))
}

#[inline(always)]
fn size_of(objects: &Objects, operand: Option<&Operand>) -> usize
    ensures { result ≡ length (bytes_of objects.now (option_copied operand.entry)) }
{
    match operand {
        Some(Operand::Value { bytes, .. }) => bytes.len(),
        Some(Operand::InSpace { base, offset, attr }) => size_there(
            objects.space(Pointer::target(base.get())),
            Pointer::start(base.get(), *offset),
            attr.length(),
        ),
        _ => 0,
    }
}

/// How many they are.
#[inline(always)]
pub fn size_at(objects: &Objects, operands: &[Operand], k: usize) -> usize
    ensures { result ≡ size_at objects.now operands.now k }
{
    size_of(objects, place(operands, k))
}

fn cells_of(
    alloc: Global,
    objects: &Objects,
    operand: Option<&Operand>,
) -> Result<Vec<Cell>, NoMemory>
    ensures cells { IfOk result (λ made. made.items ≡ cells_of objects.now (option_copied operand.entry)) }
    ensures whole { IfOk result (λ made. All IsCell made.items) }
{
    match operand {
        Some(Operand::Ptr(pointer)) => one_cell(alloc, pointer.get()),
        Some(Operand::InSpace { base, offset, attr }) => cells_there(
            alloc,
            objects.space(Pointer::target(base.get())),
            Pointer::start(base.get(), *offset),
            attr.length(),
        ),
        _ => Ok(Vec::new(alloc)),
    }
}

/// The cells that are read, a pointer of a variable as one cell.
pub fn source_cells(
    alloc: Global,
    objects: &Objects,
    operands: &[Operand],
    k: usize,
) -> Result<Vec<Cell>, NoMemory>
    ensures cells { IfOk result (λ made. made.items ≡ source_cells objects.now operands.now k) }
    ensures whole { IfOk result (λ made. All IsCell made.items) }
{
    cells_of(alloc, objects, place(operands, k))
}
