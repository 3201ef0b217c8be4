ghost use Rattle.std.specs.Prelude.{◌≡◌, IfOk, Some, codes};
ghost use Rattle.std.specs.Option.{option_map, option_or};
ghost use Rattle.s38_code.specs.declared.program.Arg.TheVariants as args;
ghost use Rattle.s38_odt.specs.Table.{place_in};
ghost use Rattle.s38_create.specs.Parsed.{parsed_argument, parsed_bytes, parsed_constant, parsed_item, parsed_keyword, parsed_number, parsed_operand, parsed_star, parsed_word};
ghost use Rattle.s38_create.specs.Said.{where_found, with_operand};
ghost use Rattle.s38_create.specs.declared.parsed.ParsedOperand.TheVariants as parsed_as;

use crate::forms::{
    parsed_attribute, parsed_attributes, parsed_code, parsed_id, parsed_label, parsed_name,
    parsed_power, parsed_size,
};
use crate::parsed::ParsedOperand;
use crate::said::Said;
use crate::scope::Scope;
use s38_base::{Name, NoMemory};
use s38_code::{Arg, Class, Constant, Keyword};
use s38_words::{
    declared_name, is_word, lock_state, number_literal, order, pointer_kind, relation, rights,
    seek, specials, switch, text_literal, wait,
};
use std::alloc::Global;

/// The item of a name.
fn say_name(scope: &Scope, name: &Name, said: &mut Said) -> Result<bool, NoMemory>
    ensures { IfOk result (λ found. where_found found said.new ≡ Some (with_operand said.old (parsed_as.Item (place_in scope.now.table name.now)))) }
{
    said.add_item(scope.table.place(name))?;
    Ok(true)
}

/// An item, if the word is a name.
fn say_item(scope: &Scope, word: &[u8], said: &mut Said) -> Result<bool, NoMemory>
    ensures { IfOk result (λ found. where_found found said.new ≡ option_map (with_operand said.old) (parsed_item scope.now.table word.now)) }
{
    match declared_name(word) {
        Some(name) => say_name(scope, &name, said),
        None => Ok(false),
    }
}

/// An operand that needs no name, if there is one.
fn say_given(arg: Option<Arg>, said: &mut Said) -> Result<bool, NoMemory>
    ensures { IfOk result (λ found. where_found found said.new ≡ option_map (with_operand said.old) (parsed_argument arg)) }
{
    match arg {
        Some(arg) => {
            said.add_given(arg)?;
            Ok(true)
        }
        None => Ok(false),
    }
}

/// An item or a number.
#[inline(never)]
fn say_number(alloc: Global, scope: &Scope, word: &[u8], said: &mut Said) -> Result<bool, NoMemory>
    ensures { IfOk result (λ found. where_found found said.new ≡ option_map (with_operand said.old) (parsed_number scope.now.table word.now)) }
{
    match declared_name(word) {
        Some(name) => say_name(scope, &name, said),
        None => say_given(number_literal(alloc, word)?, said),
    }
}

/// An item or a text.
#[inline(never)]
fn say_bytes(alloc: Global, scope: &Scope, word: &[u8], said: &mut Said) -> Result<bool, NoMemory>
    ensures { IfOk result (λ found. where_found found said.new ≡ option_map (with_operand said.old) (parsed_bytes scope.now.table word.now)) }
{
    match declared_name(word) {
        Some(name) => say_name(scope, &name, said),
        None => say_given(text_literal(alloc, word)?, said),
    }
}

/// What a word with a star means, or an item.
fn say_star_or_item(
    scope: &Scope,
    star: &[u8],
    arg: Arg,
    word: &[u8],
    said: &mut Said,
) -> Result<bool, NoMemory>
    ensures { IfOk result (λ found. where_found found said.new ≡ option_map (with_operand said.old) (option_or (parsed_star star.now arg word.now) (parsed_item scope.now.table word.now))) }
{
    if is_word(star, word) {
        say_given(Some(arg), said)
    } else {
        say_item(scope, word, said)
    }
}

fn say_bytes_or_none(
    alloc: Global,
    scope: &Scope,
    word: &[u8],
    said: &mut Said,
) -> Result<bool, NoMemory>
    ensures { IfOk result (λ found. where_found found said.new ≡ option_map (with_operand said.old) (option_or (parsed_star (codes "*NONE") args.Nothing word.now) (parsed_bytes scope.now.table word.now))) }
{
    if is_word(b"*NONE", word) {
        say_given(Some(Arg::Nothing), said)
    } else {
        say_bytes(alloc, scope, word, said)
    }
}

#[inline(never)]
fn say_context_or_list(scope: &Scope, word: &[u8], said: &mut Said) -> Result<bool, NoMemory>
    ensures { IfOk result (λ found. where_found found said.new ≡ option_map (with_operand said.old) (option_or (parsed_star (codes "*LIST") args.ContextList word.now) (option_or (parsed_star (codes "*MACHINE") args.MachineContext word.now) (parsed_item scope.now.table word.now)))) }
{
    if is_word(b"*LIST", word) {
        say_given(Some(Arg::ContextList), said)
    } else {
        say_star_or_item(scope, b"*MACHINE", Arg::MachineContext, word, said)
    }
}

/// What a word says that is written out in the program; None where it says nothing there.
#[tactic(auto, unfolding(crate::specs::Parsed::parsed_constant))]
fn parsed_constant(
    alloc: Global,
    scope: &Scope,
    constant: Constant,
    word: &[u8],
) -> Result<Option<ParsedOperand>, NoMemory>
    ensures { IfOk result (λ operand. operand ≡ parsed_constant scope.now.code constant word.now) }
{
    match constant {
        Constant::Identification => Ok(parsed_id(word)),
        Constant::Label => Ok(parsed_label(scope, word)),
        Constant::Whole => Ok(parsed_size(word)),
        Constant::Power => Ok(parsed_power(word)),
        Constant::Attribute => parsed_attribute(alloc, word),
        Constant::Attributes => parsed_attributes(alloc, word),
        Constant::ExceptionCode => Ok(parsed_code(word)),
        Constant::TemplateName | Constant::JobName => Ok(parsed_name(word)),
    }
}

#[inline(never)]
fn say_constant(
    alloc: Global,
    scope: &Scope,
    constant: Constant,
    word: &[u8],
    said: &mut Said,
) -> Result<bool, NoMemory>
    ensures { IfOk result (λ found. where_found found said.new ≡ option_map (with_operand said.old) (parsed_constant scope.now.code constant word.now)) }
{
    match parsed_constant(alloc, scope, constant, word)? {
        Some(operand) => {
            said.add(operand)?;
            Ok(true)
        }
        None => Ok(false),
    }
}

/// The number of a word of a fixed list; None where it is not on the list.
#[inline(never)]
#[tactic(auto, unfolding(crate::specs::Parsed::parsed_keyword))]
fn keyword_number(keyword: Keyword, word: &[u8]) -> Option<u32>
    ensures { parsed_word result ≡ parsed_keyword keyword word.now }
{
    match keyword {
        Keyword::Rights => wide(rights(word)),
        Keyword::Specials => wide(specials(word)),
        Keyword::LockState => lock_state(word),
        Keyword::Wait => wait(word),
        Keyword::Relation | Keyword::Comparison => relation(word),
        Keyword::Order => order(word),
        Keyword::Seek => seek(word),
        Keyword::PointerKind => pointer_kind(word),
        Keyword::Switch => switch(word),
    }
}

/// The same number in a wider type.
fn wide(number: Option<u8>) -> Option<u32>
    ensures { result ≡ number }
{
    match number {
        Some(number) => Some(u32::from(number)),
        None => None,
    }
}

fn say_keyword(keyword: Keyword, word: &[u8], said: &mut Said) -> Result<bool, NoMemory>
    ensures { IfOk result (λ found. where_found found said.new ≡ option_map (with_operand said.old) (parsed_keyword keyword word.now)) }
{
    match keyword_number(keyword, word) {
        Some(number) => {
            said.add_given(Arg::Word(number))?;
            Ok(true)
        }
        None => Ok(false),
    }
}

/// Adds what a word says at a place of a class; false where it says nothing there.
#[tactic(auto, unfolding(crate::specs::Parsed::parsed_operand))]
pub fn say(
    alloc: Global,
    scope: &Scope,
    class: Class,
    word: &[u8],
    said: &mut Said,
) -> Result<bool, NoMemory>
    ensures { IfOk result (λ found. where_found found said.new ≡ option_map (with_operand said.old) (parsed_operand scope.now.table scope.now.code class word.now)) }
{
    match class {
        Class::NumberSource => say_number(alloc, scope, word, said),
        Class::BytesSource => say_bytes(alloc, scope, word, said),
        Class::BytesOrNone => say_bytes_or_none(alloc, scope, word, said),
        Class::NumberReceiver
        | Class::BytesReceiver
        | Class::PointerSource
        | Class::PointerReceiver
        | Class::CellsSource
        | Class::CellsReceiver
        | Class::Handler
        | Class::Argument => say_item(scope, word, said),
        Class::Context => say_star_or_item(scope, b"*MACHINE", Arg::MachineContext, word, said),
        Class::ContextOrList => say_context_or_list(scope, word, said),
        Class::PointerOrNone => say_star_or_item(scope, b"*NONE", Arg::Nothing, word, said),
        Class::UserOrPublic => say_star_or_item(scope, b"*PUBLIC", Arg::Nothing, word, said),
        Class::Constant(constant) => say_constant(alloc, scope, constant, word, said),
        Class::Keyword(keyword) => say_keyword(keyword, word, said),
    }
}
