ghost use Rattle.std.specs.Prelude.{◌≡◌, unsigned_abs, nat_le, pos, if◌then◌else◌, IfOk};
ghost use Rattle.s38_words.specs.Name.{exception_code_of};
ghost use Rattle.s38_create.specs.Parsed.{parsed_attribute, parsed_attributes, parsed_id, parsed_label, parsed_name, parsed_power, parsed_size, parsed_word, power_bounded};

use crate::parsed::ParsedOperand;
use crate::scope::Scope;
use s38_base::{NoMemory, Seq};
use s38_code::Arg;
use s38_words::{
    attribute, attributes, declared_name, exception_code, identification, natural, whole,
};
use std::alloc::Global;

/// A number above every range of a whole literal.
const TOO_LARGE: u64 = 4_294_967_296;

pub fn parsed_label(scope: &Scope, word: &[u8]) -> Option<ParsedOperand>
    ensures { result ≡ parsed_label scope.now.code word.now }
{
    match declared_name(word) {
        Some(name) => Some(ParsedOperand::Label(scope.code.place(&name))),
        None => None,
    }
}

pub fn parsed_code(word: &[u8]) -> Option<ParsedOperand>
    ensures { result ≡ parsed_word (exception_code_of word.now) }
{
    match exception_code(word) {
        Some(code) => Some(ParsedOperand::Given(Arg::Word(u32::from(code)))),
        None => None,
    }
}

pub fn parsed_name(word: &[u8]) -> Option<ParsedOperand>
    ensures { result ≡ parsed_name word.now }
{
    match declared_name(word) {
        Some(name) => Some(ParsedOperand::Given(Arg::Text(name))),
        None => None,
    }
}

pub fn parsed_id(word: &[u8]) -> Option<ParsedOperand>
    ensures { result ≡ parsed_id word.now }
{
    match identification(word) {
        Some(id) => Some(ParsedOperand::Given(Arg::Ident(id))),
        None => None,
    }
}

pub fn parsed_size(word: &[u8]) -> Option<ParsedOperand>
    ensures { result ≡ parsed_size word.now }
{
    match natural(word) {
        Some(number) => Some(ParsedOperand::Given(Arg::Whole(number.min(TOO_LARGE) as i64))),
        None => None,
    }
}

pub fn parsed_power(word: &[u8]) -> Option<ParsedOperand>
    ensures { result ≡ parsed_power word.now }
{
    match whole(word) {
        Some(number) => Some(ParsedOperand::Given(Arg::Whole(power_of(number)))),
        None => None,
    }
}

/// A power of ten from -31 to 31, or 32 for every other.
fn power_of(number: i128) -> i64
    ensures { result ≡ power_bounded number }
{
    if number.unsigned_abs() <= 31 {
        number as i64
    } else {
        32
    }
}

pub fn parsed_attribute(alloc: Global, word: &[u8]) -> Result<Option<ParsedOperand>, NoMemory>
    ensures { IfOk result (λ operand. operand ≡ parsed_attribute word.now) }
{
    match attribute(word) {
        Some(attr) => Ok(Some(ParsedOperand::Given(Arg::Attrs(Seq::from_slice(alloc, &[attr])?)))),
        None => Ok(None),
    }
}

pub fn parsed_attributes(alloc: Global, word: &[u8]) -> Result<Option<ParsedOperand>, NoMemory>
    ensures { IfOk result (λ operand. operand ≡ parsed_attributes word.now) }
{
    match attributes(alloc, word)? {
        Some(attrs) => Ok(Some(ParsedOperand::Given(Arg::Attrs(attrs)))),
        None => Ok(None),
    }
}
