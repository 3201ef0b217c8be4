ghost use Rattle.std.specs.Prelude.{◌≡◌, [], IfOk};
ghost use Rattle.std.specs.Option.{option_map};
ghost use Rattle.s38_create.specs.Parsed.{parsed_from};
ghost use Rattle.s38_create.specs.Said.{said_from, said_of};
ghost use Rattle.s38_odt.specs.Suits.{class_is_argument};

use crate::by_class::say;
use crate::said::Said;
use crate::scope::Scope;
use s38_base::NoMemory;
use s38_code::Class;
use s38_words::parted;
use std::alloc::Global;

/// For how many operands memory is taken at first where some may be left out.
const FEW_ARGUMENTS: usize = 2;

pub fn is_argument(class: Class) -> bool
    ensures { result ≡ class_is_argument class }
{
    matches!(class, Class::Argument)
}

/// What the words of a text say, parted by commas, one for each class; arguments at the end may be left out.
/// None where a word says nothing at its place, or their number is another.
#[tactic(auto, using(crate::proofs::SaidLemmas::said_from_map))]
pub fn said_operands(
    alloc: Global,
    scope: &Scope,
    classes: &[Class],
    text: Option<&[u8]>,
) -> Result<Option<Said>, NoMemory>
    ensures { IfOk result (λ said. said ≡ option_map said_of (parsed_from scope.now.table scope.now.code [] classes.now (option_map (λ t. t.now) text.entry))) }
{
    let room = match classes.last() {
        Some(Class::Argument) => FEW_ARGUMENTS,
        _ => classes.len(),
    };
    let mut said = Said::nothing(alloc, room)?;
    let mut rest = text;
    for class in classes {
        let Some(text) = rest else {
            return if is_argument(*class) {
                Ok(Some(said))
            } else {
                Ok(None)
            };
        };
        let (word, more) = parted(b',', text);
        if !say(alloc, scope, *class, word, &mut said)? {
            return Ok(None);
        }
        rest = more;
    }
    if rest.is_some() {
        return Ok(None);
    }
    Ok(Some(said))
}
