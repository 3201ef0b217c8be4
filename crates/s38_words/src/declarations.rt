ghost use Rattle.std.specs.Prelude.{◌≡◌, is_some};
ghost use Rattle.std.specs.Option.{option_map};
ghost use Rattle.s38_words.specs.DeclarationLine.{after_dcl, after_init, based_of, count_spelled, declaration_after_dcl, declaration_of, declares_of, description_of, initial_of, is_in_range, is_initial, is_literal, parameter_of, taken_of, variable_from};
ghost use Rattle.s38_words.specs.Attribute.{attr_spelled};

use crate::attribute_words::attribute;
use crate::literals::is_text;
use crate::names::{declared_name, exception_code};
use crate::numbers::{natural, number};
use crate::texts::{after_byte, before, is_word, parted, rest_after};
use s38_base::{Attr, Name};

/// What a line declares its name to be.
#[derive(Clone, Copy, Debug)]
pub enum Declares {
    /// A variable of the invocation.
    Variable { attr: Attr },
    /// The variable that the caller passes at place k.
    Parameter { k: u64, attr: Attr },
    /// An item in a space, at an offset from the pointer in another item.
    BasedItem { base: Name, offset: u64, attr: Attr },
    /// A description of an exception (None: of each), and the label where it goes on.
    Description { code: Option<u16>, label: Name },
}

/// A line that declares a name.
#[derive(Clone, Copy, Debug)]
pub struct DeclarationLine {
    pub name: Name,
    pub declares: Declares,
}

/// A number or a text.
fn is_literal(text: &[u8]) -> bool
    ensures { result ≡ is_literal text.now }
{
    number(text).is_some() || is_text(text)
}

fn after_init(text: &[u8]) -> Option<&[u8]>
    ensures { option_map (λ rest. rest.now) result ≡ after_init text.now }
{
    rest_after(b"INIT ", text)
}

/// INIT and a literal.
fn is_initial(text: &[u8]) -> bool
    ensures { result ≡ is_initial text.now }
{
    match after_init(text) {
        Some(literal) => is_literal(literal),
        None => false,
    }
}

/// What a text declares that is this word and what comes after it.
#[inline(always)]
fn variable(word: &[u8], rest: Option<&[u8]>) -> Option<Declares>
    ensures { result ≡ variable_from (attr_spelled word.now) (option_map (λ r. r.now) rest.entry) }
{
    let attr = attribute(word)?;
    match rest {
        None => Some(Declares::Variable { attr }),
        Some(rest) => if is_initial(rest) {
            Some(Declares::Variable { attr })
        } else {
            None
        },
    }
}

fn parameter(text: &[u8]) -> Option<Declares>
    ensures { result ≡ parameter_of text.now }
{
    let k = natural(before(b' ', text))?;
    let attr = attribute(after_byte(b' ', text)?)?;
    Some(Declares::Parameter { k, attr })
}

fn based(text: &[u8]) -> Option<Declares>
    ensures { result ≡ based_of text.now }
{
    let base = declared_name(before(b' ', text))?;
    let rest = after_byte(b' ', text)?;
    let offset = natural(before(b' ', rest))?;
    let attr = attribute(after_byte(b' ', rest)?)?;
    Some(Declares::BasedItem { base, offset, attr })
}

/// The code of the exception that is taken, or * for each.
fn taken(word: &[u8]) -> Option<Option<u16>>
    ensures { result ≡ taken_of word.now }
{
    if is_word(b"*", word) {
        return Some(None);
    }
    match exception_code(word) {
        Some(code) => Some(Some(code)),
        None => None,
    }
}

fn description(text: &[u8]) -> Option<Declares>
    ensures { result ≡ description_of text.now }
{
    let code = taken(before(b' ', text))?;
    let label = declared_name(after_byte(b' ', text)?)?;
    Some(Declares::Description { code, label })
}

#[tactic(auto, unfolding(crate::specs::DeclarationLine::declares_of))]
fn what_is_declared(text: &[u8]) -> Option<Declares>
    ensures { result ≡ declares_of text.now }
{
    let (word, rest) = parted(b' ', text);
    if is_word(b"PARM", word) {
        return parameter(rest?);
    }
    if is_word(b"BASED", word) {
        return based(rest?);
    }
    if is_word(b"EXCM", word) {
        return description(rest?);
    }
    variable(word, rest)
}

fn declaration_after_dcl(text: &[u8]) -> Option<DeclarationLine>
    ensures { result ≡ declaration_after_dcl text.now }
{
    let (word, rest) = parted(b' ', text);
    let name = declared_name(word)?;
    let declares = what_is_declared(rest?)?;
    Some(DeclarationLine { name, declares })
}

fn after_dcl(line: &[u8]) -> Option<&[u8]>
    ensures { option_map (λ rest. rest.now) result ≡ after_dcl line.now }
{
    rest_after(b"DCL ", line)
}

/// Whether a line begins as a declaration.
pub fn is_declaration(line: &[u8]) -> bool
    ensures { result ≡ is_some (after_dcl line.now) }
{
    after_dcl(line).is_some()
}

/// What a line declares; None exactly where it has no form of a declaration. Bounds of attributes and ranges
/// of numbers are further questions.
#[tactic(auto, unfolding(crate::specs::DeclarationLine::declaration_of))]
pub fn declaration(line: &[u8]) -> Option<DeclarationLine>
    ensures { result ≡ declaration_of line.now }
{
    match after_dcl(line) {
        Some(text) => declaration_after_dcl(text),
        None => None,
    }
}

/// The literal with which a variable's line lets it begin.
#[tactic(auto, unfolding(crate::specs::DeclarationLine::initial_of))]
pub fn initial(line: &[u8]) -> Option<&[u8]>
    ensures { option_map (λ literal. literal.now) result ≡ initial_of line.now }
{
    let text = after_dcl(line)?;
    let declared = after_byte(b' ', text)?;
    let rest = after_byte(b' ', declared)?;
    after_init(rest)
}

/// Whether the numbers of a line are in their ranges: a parameter's place is 1 to 16, and an offset is at
/// most 16,777,216.
pub fn is_in_range(declares: &Declares) -> bool
    ensures { result ≡ is_in_range declares.now }
{
    match declares {
        Declares::Parameter { k, .. } => 1 <= *k && *k <= 16,
        Declares::BasedItem { offset, .. } => *offset <= 16_777_216,
        _ => true,
    }
}
