ghost use Rattle.std.specs.Prelude.{◌≡◌, IfOk};
ghost use Rattle.s38_create.specs.Checked.{IsFormed, made_of};

use crate::creation::create;
use s38_base::NoMemory;
use s38_code::{Code, CreateFault, CreateResult, Template};
use std::alloc::Global;

/// What creation makes of a template: its program, where it can be shared, or the cause for which it is refused
/// with the number of its first bad declaration or instruction.
pub fn checked(alloc: Global, template: &Template) -> Result<CreateResult, NoMemory>
    ensures made { IfOk result (λ created. created ≡ made_of template.now) }
    ensures formed { IfOk result (λ created. IsFormed created) }
{
    match create(alloc, template) {
        Ok(program) => Ok(CreateResult::Created(Code::new(alloc, program)?)),
        Err(CreateFault::Bad { id, number }) => Ok(CreateResult::Refused { id, number }),
        Err(CreateFault::NoMemory) => Err(NoMemory),
    }
}
