ghost use Rattle.std.specs.Prelude.{◌≡◌, ◌⊎◌, ◌≤◌, ◌&&◌, length, nat_le, Ok, Err, IfOk, IfErr};
ghost use Rattle.s38_create.specs.Created.{created_by, created_inner, program_created, program_with_rows};
ghost use Rattle.s38_create.specs.WellFormed.{WellFormed};
ghost use Rattle.s38_odt.specs.Formed.{AreFormed};
ghost use Rattle.s38_odt.specs.Labels.{instruction_count};
ghost use Rattle.s38_odt.specs.Suited.{AreSuited};

use crate::frame::{declaration_count, is_ended};
use crate::instruction::instructions;
use crate::scope::Scope;
use s38_base::{TryClone, exceptions};
use s38_code::{CreateFault, Lines, Program, Template};
use s38_odt::{CodeLines, definition_table, instruction_count};
use s38_words::{Head, program_head};
use std::alloc::Global;

/// The most declarations of a program.
const MOST_DECLARATIONS: usize = 1024;

/// The most instructions of a program.
const MOST_INSTRUCTIONS: usize = 16384;

/// A template that no deck has.
const NO_TEMPLATE: CreateFault = CreateFault::Bad {
    id: exceptions::OPERANDS_INVALID,
    number: 0,
};

/// The program of these declarations and this code.
fn with_rows(
    alloc: Global,
    template: &Template,
    head: Head,
    scope: Scope<'_>,
) -> Result<Program, CreateFault>
    requires rows { length scope.table ≤ 1024 }
    requires formed { AreFormed (instruction_count scope.code) scope.table }
    requires code { instruction_count scope.code ≤ 16384 }
    ensures formed { IfOk result (λ program. WellFormed program) }
    ensures created { IfOk result (λ program. program_with_rows template.now head scope.entry.code scope.entry.table ≡ Ok program) }
    ensures bad { IfErr result (λ fault. (fault ≡ CreateFault.NoMemory) ⊎ (program_with_rows template.now head scope.entry.code scope.entry.table ≡ Err fault)) }
{
    let code = instructions(alloc, &scope)?;
    let template = template.try_clone(alloc)?;
    Ok(Program {
        template,
        rows: scope.table.into_rows(),
        code,
        adopts: head.adopts,
        propagates: head.propagates,
    })
}

/// At most so many declarations and instructions.
fn is_small(declarations: usize, code: &Lines<'_>) -> bool
    ensures { result ≡ (nat_le declarations 1024 && nat_le (instruction_count code.now) 16384) }
{
    declarations <= MOST_DECLARATIONS && instruction_count(code) <= MOST_INSTRUCTIONS
}

/// The program of the lines between the first and the last.
fn created_inner(
    alloc: Global,
    template: &Template,
    head: Head,
    body: &Lines<'_>,
) -> Result<Program, CreateFault>
    ensures formed { IfOk result (λ program. WellFormed program) }
    ensures created { IfOk result (λ program. created_inner template.now head body.now ≡ Ok program) }
    ensures bad { IfErr result (λ fault. (fault ≡ CreateFault.NoMemory) ⊎ (created_inner template.now head body.now ≡ Err fault)) }
{
    let count = declaration_count(body);
    let (declarations, code) = body.split_at(count);
    if !is_small(count, &code) {
        return Err(NO_TEMPLATE);
    }
    let code = CodeLines::new(alloc, code)?;
    let table = definition_table(alloc, &code, &declarations)?;
    with_rows(alloc, template, head, Scope { table, code })
}

fn created_by(
    alloc: Global,
    template: &Template,
    head: Option<Head>,
) -> Result<Program, CreateFault>
    requires { 2 ≤ length template.now }
    ensures formed { IfOk result (λ program. WellFormed program) }
    ensures created { IfOk result (λ program. created_by template.now head ≡ Ok program) }
    ensures bad { IfErr result (λ fault. (fault ≡ CreateFault.NoMemory) ⊎ (created_by template.now head ≡ Err fault)) }
{
    let Some(head) = head else {
        return Err(NO_TEMPLATE);
    };
    let lines = template.lines();
    let (_, behind) = lines.split_at(1);
    let (body, _) = behind.split_at(lines.len() - 2);
    created_inner(alloc, template, head, &body)
}

/// Makes a checked program of a template. `Bad` is the first bad declaration, or else the first bad
/// instruction, with its cause. The instructions of a program suit its declarations.
#[tactic(auto, using(crate::proofs::FitLemmas::well_formed_suited), unfolding(crate::specs::Created::program_created))]
pub fn create(alloc: Global, template: &Template) -> Result<Program, CreateFault>
    ensures created { IfOk result (λ program. program_created template.now ≡ Ok program) }
    ensures formed { IfOk result (λ program. WellFormed program) }
    ensures suited { IfOk result (λ program. AreSuited program.rows program.code) }
    ensures bad { IfErr result (λ fault. (fault ≡ CreateFault.NoMemory) ⊎ (program_created template.now ≡ Err fault)) }
{
    let lines = template.lines();
    if !is_ended(&lines) {
        return Err(NO_TEMPLATE);
    }
    let Some(head) = lines.get(0) else {
        return Err(NO_TEMPLATE);
    };
    created_by(alloc, template, program_head(head))
}

/// A template is refused at a place, and never for want of memory: what the definition answers is a program or
/// `Bad`.
pub fn refusals_have_a_place(template: &Template)
    ensures { program_created template.now ≡ Err CreateFault.NoMemory → ⊥ }
{}
