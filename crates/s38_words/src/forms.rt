ghost use Rattle.std.specs.Prelude.{◌≡◌, IsTrue};
ghost use Rattle.s38_words.specs.Form.{are_attributes, has_form, is_plain, is_special_word};

use crate::attribute_words::attribute;
use crate::literals::is_text;
use crate::names::{declared_name, exception_code, identification};
use crate::numbers::number;
use crate::right_words::rights;
use crate::row_words::{specials, star};

fn are_attributes(word: &[u8]) -> bool
    ensures { result ≡ are_attributes word.now }
{
    word.split(|byte| *byte == b'+')
        .all(|part| attribute(part).is_some())
}

/// A name or a literal.
fn is_plain(word: &[u8]) -> bool
    ensures { result ≡ is_plain word.now }
{
    declared_name(word).is_some() || is_text(word) || number(word).is_some()
}

/// Rights, specials, a word with a star, or the number of an exception.
fn is_special(word: &[u8]) -> bool
    ensures { result ≡ is_special_word word.now }
{
    rights(word).is_some()
        || specials(word).is_some()
        || star(word).is_some()
        || exception_code(word).is_some()
}

/// Whether it has the form that its first byte tells of: a word with a star, or a text.
#[tactic(auto, unfolding(crate::specs::Form::has_form))]
fn is_starred_or_quoted(word: &[u8]) -> bool
    ensures { IsTrue result → IsTrue (has_form word.now) }
{
    match word {
        [b'*', ..] => star(word).is_some(),
        [b'\'', ..] => is_text(word),
        _ => false,
    }
}

/// Whether some operand of some instruction may be written so: as a name, a literal, an identification,
/// attributes or a word. Whether it is what its place asks for is another question.
#[tactic(auto, unfolding(crate::specs::Form::has_form))]
pub fn has_form(word: &[u8]) -> bool
    ensures { result ≡ has_form word.now }
{
    is_starred_or_quoted(word)
        || is_plain(word)
        || identification(word).is_some()
        || are_attributes(word)
        || is_special(word)
}
