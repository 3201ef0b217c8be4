ghost use Rattle.std.specs.Prelude.{◌≡◌, ◌++◌, IfOk, OnOk};
ghost use Rattle.s38_joblog.specs.Check.{check_line, check_text, made_text};

use crate::text::Text;
use s38_base::NoMemory;
use s38_code::{CheckedTemplate, CreateResult};
use std::alloc::Global;

/// Adds OK, or a cause and the number of the first bad place.
fn add_made(text: &mut Text, made: &CreateResult) -> Result<(), NoMemory>
    ensures { OnOk result (text.new ≡ text.old ++ made_text made.now) }
{
    match made {
        CreateResult::Created(_) => text.add(b"OK"),
        CreateResult::Refused { id, number } => {
            text.add_hex_code(*id)?;
            text.add(b" ")?;
            text.add_number(u64::from(*number))
        }
    }
}

/// Adds a template's line: its name, and what was made of it.
fn add_check_line(text: &mut Text, template: &CheckedTemplate) -> Result<(), NoMemory>
    ensures { OnOk result (text.new ≡ text.old ++ check_line template.now) }
{
    text.add(template.name.as_bytes())?;
    text.add(b" ")?;
    add_made(text, &template.made)?;
    text.add(b"\n")
}

/// What is printed of templates that were checked: for each in order a line with its name, and then OK, or the
/// cause for which it was refused in four hexadecimal digits and the number of its first bad place.
#[tactic(auto, unfolding(crate::specs::Check::check_text))]
pub fn check_text(alloc: Global, templates: &[CheckedTemplate]) -> Result<Vec<u8>, NoMemory>
    ensures { IfOk result (λ text. text.items ≡ check_text templates.now) }
{
    let mut text = Text::new(alloc);
    for template in templates {
        add_check_line(&mut text, template)?;
    }
    Ok(text.into_bytes())
}
