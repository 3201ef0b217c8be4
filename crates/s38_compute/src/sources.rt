ghost use Rattle.std.specs.Prelude.{◌≡◌, ◌<◌, ◌^◌, IfOk, IfSome, Some, length, unsigned_abs};
ghost use Rattle.std.specs.Option.{option_map};
ghost use Rattle.s38_compute.specs.Piece.{piece_bytes};
ghost use Rattle.s38_compute.specs.Readings.{Readings};
ghost use Rattle.s38_strings.specs.Hex.{are_hex};

use crate::piece::Piece;
use s38_base::{Attr, Bytes, NoMemory, Pointer};
use s38_decimal::Dec;
use std::alloc::Global;

/// What a computation reads. Operands are numbered from 1.
pub trait Sources {
    ghost readings: { Self → Readings };

    /// The number at an operand; None where its bytes have no value.
    fn number(&self, k: usize) -> Option<Dec>
        ensures units { option_map (λ d. d.units) result ≡ (readings self.now).number k }
        ensures attr { IfSome result (λ d. d.attr ≡ (readings self.now).attr k) };

    /// The number at an operand, where it has up to 18 digits and there is a shorter way to it; else `number` tells it.
    fn short(&self, k: usize) -> Option<Dec>
        ensures units { IfSome result (λ d. (readings self.now).number k ≡ Some d.units) }
        ensures attr { IfSome result (λ d. d.attr ≡ (readings self.now).attr k) }
        ensures few { IfSome result (λ d. unsigned_abs d.units < 10 ^ 18) };

    /// The bytes at an operand.
    fn bytes(&self, alloc: Global, k: usize) -> Result<Piece<'_>, NoMemory>
        ensures { IfOk result (λ piece. piece_bytes piece ≡ (readings self.now).bytes k) };

    /// How many bytes those are.
    fn size(&self, k: usize) -> usize
        ensures { result ≡ length ((readings self.now).bytes k) };

    /// Whether each of them is a hexadecimal character.
    fn are_hex(&self, k: usize) -> bool
        ensures { result ≡ are_hex ((readings self.now).bytes k) };

    /// The pointer at an operand.
    fn pointer(&self, k: usize) -> Option<Pointer>
        ensures { result ≡ (readings self.now).pointer k };

    /// The number of the word at an operand.
    fn word(&self, k: usize) -> u32
        ensures { result ≡ (readings self.now).word k };

    /// The power of SCALE.
    fn power(&self) -> i64
        ensures { result ≡ (readings self.now).power };

    /// The attribute of the receiver.
    fn receiver(&self) -> Attr
        ensures { result ≡ (readings self.now).receiver };

    /// How many bytes the receiver takes.
    fn room(&self) -> usize
        ensures { result ≡ (readings self.now).room };

    /// What the receiver holds.
    fn held(&self, alloc: Global) -> Result<Bytes, NoMemory>
        ensures { IfOk result (λ made. made ≡ (readings self.now).held) };

    /// How many bytes those are.
    fn size_held(&self) -> usize
        ensures { result ≡ length (readings self.now).held };

    /// Whether a copy leaves the rest of what the receiver holds; else it gives the bytes alone that it copies.
    fn keeps_rest(&self) -> bool
        ensures { result ≡ (readings self.now).keeps_rest };
}
