ghost use Rattle.std.specs.Prelude.{◌≡◌};
ghost use Rattle.s38_process.specs.Invocations.{instructions_in, program_rows_in};
ghost use Rattle.s38_process.specs.AfterReply.{begun_by};

use crate::status::Status;
use s38_code::{CreateResult, EndCause, Instruction, Row};

/// The declarations of a program; a template that was refused has none.
pub fn rows_of(made: &CreateResult) -> &[Row]
    ensures { result.now ≡ program_rows_in made.now }
{
    match made {
        CreateResult::Created(code) => code.program().rows.as_slice(),
        CreateResult::Refused { .. } => &[],
    }
}

/// The instructions of a program; a template that was refused has none.
pub fn code_of(made: &CreateResult) -> &[Instruction]
    ensures { result.now ≡ instructions_in made.now }
{
    match made {
        CreateResult::Created(code) => code.program().code.as_slice(),
        CreateResult::Refused { .. } => &[],
    }
}

/// The status of a process once it has started: where its template was refused, before its end.
pub fn begun_by(made: &CreateResult) -> Status
    ensures { result ≡ begun_by made.now }
{
    match made {
        CreateResult::Created(_) => Status::Running,
        CreateResult::Refused { id, number } => {
            let cause = EndCause::Create {
                id: *id,
                number: *number,
            };
            Status::Ending(cause)
        }
    }
}
