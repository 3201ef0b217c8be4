ghost use Rattle.std.specs.Prelude.{◌≡◌};

use crate::operands::{
    attr_of, bytes_of, held_at, number_of, operand, pointer_of, receiver_of, whole_of, word_of,
};
use crate::short::short_of;
use s38_base::{Attr, Bytes, NoMemory, Pointer};
use s38_code::{Arg, Row, Val};
use s38_compute::{Piece, Sources, are_hex};
use s38_decimal::Dec;
use std::alloc::Global;

/// The variables of an invocation, as an instruction reads them.
#[derive(Clone, Copy)]
pub struct Variables<'a> {
    pub rows: &'a [Row],
    pub homes: &'a [usize],
    pub values: &'a [Val],
    pub args: &'a [Arg],
}

impl<'a> Sources for Variables<'a> {
    ghost use Rattle.s38_local.specs.Local.{of_variables};

    ghost readings = { λ v. of_variables v.rows.now v.homes.now v.values.now v.args.now };

    #[inline(always)]
    fn number(&self, k: usize) -> Option<Dec> {
        number_of(self.rows, self.homes, self.values, operand(self.args, k))
    }

    #[inline(always)]
    fn short(&self, k: usize) -> Option<Dec> {
        short_of(self.rows, self.homes, self.values, operand(self.args, k))
    }

    fn bytes(&self, _alloc: Global, k: usize) -> Result<Piece<'_>, NoMemory> {
        Ok(Piece::Lent(bytes_of(self.homes, self.values, operand(self.args, k))))
    }

    fn size(&self, k: usize) -> usize {
        bytes_of(self.homes, self.values, operand(self.args, k)).len()
    }

    fn are_hex(&self, k: usize) -> bool {
        are_hex(bytes_of(self.homes, self.values, operand(self.args, k)))
    }

    fn pointer(&self, k: usize) -> Option<Pointer> {
        pointer_of(self.homes, self.values, operand(self.args, k))
    }

    fn word(&self, k: usize) -> u32 {
        word_of(operand(self.args, k))
    }

    fn power(&self) -> i64 {
        whole_of(operand(self.args, 3))
    }

    fn receiver(&self) -> Attr {
        attr_of(self.rows, operand(self.args, 1))
    }

    fn room(&self) -> usize {
        held_at(self.values, receiver_of(self.homes, self.args)).len()
    }

    fn held(&self, alloc: Global) -> Result<Bytes, NoMemory> {
        Bytes::from_slice(
            alloc,
            held_at(self.values, receiver_of(self.homes, self.args)),
        )
    }

    fn size_held(&self) -> usize {
        held_at(self.values, receiver_of(self.homes, self.args)).len()
    }

    fn keeps_rest(&self) -> bool {
        true
    }
}
