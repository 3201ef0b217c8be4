ghost use Rattle.std.specs.Prelude.{◌≡◌};
ghost use Rattle.s38_odt.specs.Suits.{all_suit, constant_suits, keyword_suits, suits};

use crate::attributes::{are_bytes, is_number, is_pointer, item_attr, operand_attr};
use crate::items::{item_can_be_passed, item_has_cells, item_is_handler};
use crate::operands::is_argument;
use crate::shapes::{
    is_attribute, is_fields, is_id, is_jump, is_list, is_machine, is_name, is_nothing, is_power,
    is_size, is_word, is_word_to,
};
use s38_code::{Arg, Class, Constant, Keyword, Row};

/// The number of the last relation of two values.
const LAST_COMPARISON: u32 = 5;

/// Whether an operand suits a place where this is written out in the program.
#[tactic(auto, unfolding(s38_odt::specs::Suits::constant_suits))]
fn suits_constant(constant: Constant, arg: &Arg) -> bool
    ensures { result ≡ constant_suits constant arg.now }
{
    match constant {
        Constant::Identification => is_id(arg),
        Constant::Label => is_jump(arg),
        Constant::Whole => is_size(arg),
        Constant::Power => is_power(arg),
        Constant::Attribute => is_attribute(arg),
        Constant::Attributes => is_fields(arg),
        Constant::ExceptionCode => is_word(arg),
        Constant::TemplateName | Constant::JobName => is_name(arg),
    }
}

/// Whether an operand suits a place of a word of this list.
#[tactic(auto, unfolding(s38_odt::specs::Suits::keyword_suits))]
fn suits_keyword(keyword: Keyword, arg: &Arg) -> bool
    ensures { result ≡ keyword_suits keyword arg.now }
{
    match keyword {
        Keyword::Comparison => is_word_to(LAST_COMPARISON, arg),
        _ => is_word(arg),
    }
}

/// Whether an operand suits a place of a class, by the declared attributes.
#[tactic(auto, unfolding(s38_odt::specs::Suits::suits))]
fn suits(rows: &[Row], class: Class, arg: &Arg) -> bool
    ensures { result ≡ suits rows.now class arg.now }
{
    match class {
        Class::NumberSource => is_number(operand_attr(rows, arg)),
        Class::NumberReceiver => is_number(item_attr(rows, arg)),
        Class::BytesSource => are_bytes(operand_attr(rows, arg)),
        Class::BytesOrNone => is_nothing(arg) || are_bytes(operand_attr(rows, arg)),
        Class::BytesReceiver => are_bytes(item_attr(rows, arg)),
        Class::PointerSource | Class::PointerReceiver => is_pointer(item_attr(rows, arg)),
        Class::CellsSource | Class::CellsReceiver => item_has_cells(rows, arg),
        Class::Context => is_machine(arg) || is_pointer(item_attr(rows, arg)),
        Class::ContextOrList => {
            is_list(arg) || is_machine(arg) || is_pointer(item_attr(rows, arg))
        }
        Class::PointerOrNone | Class::UserOrPublic => {
            is_nothing(arg) || is_pointer(item_attr(rows, arg))
        }
        Class::Handler => item_is_handler(rows, arg),
        Class::Argument => item_can_be_passed(rows, arg),
        Class::Constant(constant) => suits_constant(constant, arg),
        Class::Keyword(keyword) => suits_keyword(keyword, arg),
    }
}

/// Whether there is an operand for each class, each in its place; arguments at the end may be left out.
pub fn all_suit(rows: &[Row], classes: &[Class], args: &[Arg]) -> bool
    ensures { result ≡ all_suit rows.now classes.now args.now }
{
    match classes {
        [] => args.is_empty(),
        [class, classes @ ..] => match args {
            [] => is_argument(*class),
            [arg, args @ ..] => suits(rows, *class, arg) && all_suit(rows, classes, args),
        },
    }
}
