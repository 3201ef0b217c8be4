ghost use Rattle.std.specs.Prelude.{◌≡◌, IfOk};

use crate::program::Program;
use s38_base::{NoMemory, TryClone};
use std::alloc::Global;
use std::marker::Model;
use std::sync::Arc;

/// A program that is shared. Contracts see it as the program.
#[derive(Drop, Debug)]
pub struct Code {
    held: Arc<Program>,
}

impl Model for Code {
    ghost use Rattle.s38_code.specs.declared.program.Program.{Program};

    ghost Value = { Program };

    ghost view = { λ c. c.held.value };
}

impl Code {
    /// Puts a program where it can be shared; where memory is refused the program is dropped.
    pub fn new(alloc: Global, program: Program) -> Result<Code, NoMemory>
        ensures { IfOk result (λ code. code ≡ program) }
    {
        match Arc::new(alloc, program) {
            Ok(held) => Ok(Code { held }),
            Err(_) => Err(NoMemory),
        }
    }

    /// The program.
    pub fn program(&self) -> &Program
        ensures { result.now ≡ self.now }
    {
        &self.held
    }
}

impl TryClone for Code {
    fn try_clone(&self, _: Global) -> Result<Self, NoMemory> {
        match Arc::try_clone(&self.held) {
            Ok(held) => Ok(Code { held }),
            Err(_) => Err(NoMemory),
        }
    }
}
