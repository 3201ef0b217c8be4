//! The words of a deck: what a text spells at an operand's place, and what a line of a template says. Each
//! parse is total, and answers None exactly where the text spells nothing of its kind.
#![tactic(auto)]

mod attribute_words;
mod declarations;
mod forms;
mod literals;
mod names;
mod numbers;
mod operations;
mod program_lines;
mod right_words;
mod row_words;
mod texts;

pub use attribute_words::{attribute, attributes};
pub use declarations::{
    DeclarationLine, Declares, declaration, initial, is_declaration, is_in_range,
};
pub use forms::has_form;
pub use literals::{is_text, number_literal, text_literal, text_value};
pub use names::{declared_name, exception_code, identification, object_name};
pub use numbers::{Numeral, natural, number, signed, whole};
pub use operations::{operation, operations_are_read};
pub use program_lines::{Head, InstructionLine, instruction, label, program_head, rounds_right};
pub use right_words::rights;
pub use row_words::{
    StarWord, lock_state, order, pointer_kind, relation, seek, specials, star, switch, wait,
};
pub use texts::{after_byte, before, is_word, parted, place_of, rest_after};
