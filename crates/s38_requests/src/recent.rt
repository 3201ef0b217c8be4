ghost use Rattle.std.specs.Prelude.{◌≡◌, Some};
ghost use Rattle.std.specs.Option.{option_copied};
ghost use Rattle.s38_requests.specs.Recent.{latest, nothing_kept, with_latest};

use s38_code::Operands;
use std::marker::Model;

/// How many places of a program are told apart.
const PLACES: usize = 8;

/// The latest operands of the instructions of a program, by their places, which are counted round. Contracts see them
/// as a list.
#[derive(Drop)]
pub struct Recent {
    kept: [Option<Operands>; PLACES],
}

impl Model for Recent {
    ghost use Rattle.std.specs.Prelude.{List, Option};
    ghost use Rattle.s38_code.specs.declared.operand.Operand.{Operand};

    ghost Value = { List (Option (List Operand)) };

    ghost view = { λ r. r.kept };
}

impl Recent {
    /// Nothing was asked yet.
    pub fn new() -> Recent
        ensures { result ≡ nothing_kept }
    {
        Recent {
            kept: [None, None, None, None, None, None, None, None],
        }
    }

    /// The latest operands that are kept for an instruction.
    #[inline(always)]
    pub fn get(&self, at: usize) -> Option<&Operands>
        ensures { option_copied result ≡ latest self.now at }
    {
        self.kept[at % PLACES].as_ref()
    }

    /// Keeps these operands for an instruction, in place of those that were kept there.
    pub fn keep_operands(&mut self, at: usize, operands: Operands)
        ensures { self.new ≡ with_latest self.old at operands }
    {
        self.kept[at % PLACES] = Some(operands);
    }
}
