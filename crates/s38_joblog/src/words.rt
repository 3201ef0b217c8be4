ghost use Rattle.std.specs.Prelude.{◌≡◌, ◌++◌, codes, decimal, drop, IfOk, OnOk};
ghost use Rattle.s38_joblog.specs.Words.{answer_text, byte_as_hex, cause_text, detail_text, exception_text, hex_code, named_bit, pointer_text, right_names, rights_word, special_names, special_word, state_word, value_text};

use crate::text::Text;
use s38_base::{Exception, LockState, NoMemory, Pointer, Rights, Rule, Special};
use s38_code::{EndCause, Val};
use std::alloc::Global;

/// Adds a name after a `+`, where its bit is set.
fn add_named_bit(text: &mut Text, bits: u8, bit: u8, name: &[u8]) -> Result<(), NoMemory>
    ensures { OnOk result (text.new ≡ text.old ++ named_bit bits bit name.now) }
{
    if bits & bit != bit {
        return Ok(());
    }
    text.add(b"+")?;
    text.add(name)
}

/// The names of the rights, each after a `+`.
fn right_names(alloc: Global, bits: u8) -> Result<Text, NoMemory>
    ensures { IfOk result (λ text. text ≡ right_names bits) }
{
    let mut text = Text::new(alloc);
    add_named_bit(&mut text, bits, Rights::OBJCTL.0, b"OBJCTL")?;
    add_named_bit(&mut text, bits, Rights::OBJMGT.0, b"OBJMGT")?;
    add_named_bit(&mut text, bits, Rights::AUTPTR.0, b"AUTPTR")?;
    add_named_bit(&mut text, bits, Rights::SPACE.0, b"SPACE")?;
    add_named_bit(&mut text, bits, Rights::RETRIEVE.0, b"RETRIEVE")?;
    add_named_bit(&mut text, bits, Rights::INSERT.0, b"INSERT")?;
    add_named_bit(&mut text, bits, Rights::DELETE.0, b"DELETE")?;
    add_named_bit(&mut text, bits, Rights::UPDATE.0, b"UPDATE")?;
    Ok(text)
}

/// The names of the special authorities, each after a `+`.
fn special_names(alloc: Global, bits: u8) -> Result<Text, NoMemory>
    ensures { IfOk result (λ text. text ≡ special_names bits) }
{
    let mut text = Text::new(alloc);
    add_named_bit(&mut text, bits, Special::ALLOBJ.0, b"ALLOBJ")?;
    add_named_bit(&mut text, bits, Special::PROFILE.0, b"PROFILE")?;
    Ok(text)
}

/// All but the first byte.
fn after_first(bytes: &[u8]) -> &[u8]
    ensures { result.now ≡ drop 1 bytes.now }
{
    if bytes.is_empty() { bytes } else { &bytes[1..] }
}

/// Adds the names of rights, joined by `+`; all are ALL, and none are NONE.
#[tactic(auto, unfolding(crate::specs::Words::rights_word))]
pub fn add_rights(alloc: Global, text: &mut Text, rights: Rights) -> Result<(), NoMemory>
    ensures { OnOk result (text.new ≡ text.old ++ rights_word rights.0) }
{
    if rights.0 == 255 {
        return text.add(b"ALL");
    }
    if rights.0 == 0 {
        return text.add(b"NONE");
    }
    let names = right_names(alloc, rights.0)?;
    text.add(after_first(names.as_slice()))
}

/// Adds the names of special authorities, joined by `+`; none are NONE.
#[tactic(auto, unfolding(crate::specs::Words::special_word))]
fn add_special(alloc: Global, text: &mut Text, special: Special) -> Result<(), NoMemory>
    ensures { OnOk result (text.new ≡ text.old ++ special_word special.0) }
{
    if special.0 == 0 {
        return text.add(b"NONE");
    }
    let names = special_names(alloc, special.0)?;
    text.add(after_first(names.as_slice()))
}

/// Adds a letter, an object's number, a `+` and an offset.
fn add_place(text: &mut Text, letter: &[u8], object: u64, offset: u32) -> Result<(), NoMemory>
    ensures { OnOk result (text.new ≡ text.old ++ (letter.now ++ (decimal object ++ (codes "+" ++ decimal offset)))) }
{
    text.add(letter)?;
    text.add_number(object)?;
    text.add(b"+")?;
    text.add_number(u64::from(offset))
}

/// Adds a system pointer: its object's number, and its rights as two digits.
fn add_system(text: &mut Text, object: u64, rights: u8) -> Result<(), NoMemory>
    ensures { OnOk result (text.new ≡ text.old ++ (codes "S" ++ (decimal object ++ (codes "/" ++ byte_as_hex rights)))) }
{
    text.add_byte(b'S')?;
    text.add_number(object)?;
    text.add_byte(b'/')?;
    text.add_hex_byte(rights)
}

/// Adds a pointer, or `-` for none.
fn add_pointer(text: &mut Text, pointer: Option<Pointer>) -> Result<(), NoMemory>
    ensures { OnOk result (text.new ≡ text.old ++ pointer_text pointer) }
{
    match pointer {
        None => text.add(b"-"),
        Some(Pointer::System { object, rights }) => add_system(text, object.0, rights.0),
        Some(Pointer::Space { object, offset }) => add_place(text, b"A", object.0, offset),
        Some(Pointer::Item { object, offset, .. }) => add_place(text, b"D", object.0, offset),
    }
}

fn add_answer(text: &mut Text, answer: bool) -> Result<(), NoMemory>
    ensures { OnOk result (text.new ≡ text.old ++ answer_text answer) }
{
    if answer {
        text.add(b" YES")
    } else {
        text.add(b" NO")
    }
}

/// Adds a value after a blank; a program adds nothing.
#[tactic(auto, unfolding(crate::specs::Words::value_text))]
pub fn add_value(text: &mut Text, value: &Val) -> Result<(), NoMemory>
    ensures { OnOk result (text.new ≡ text.old ++ value_text value.now) }
{
    match value {
        Val::Bytes(bytes) => {
            text.add_byte(b' ')?;
            text.add_hex_bytes(bytes.as_slice())
        }
        Val::Ptr(pointer) => {
            text.add_byte(b' ')?;
            add_pointer(text, pointer.get())
        }
        Val::Branch(taken) => add_answer(text, *taken),
        Val::Code(_) => Ok(()),
    }
}

fn add_state(text: &mut Text, state: LockState) -> Result<(), NoMemory>
    ensures { OnOk result (text.new ≡ text.old ++ state_word state) }
{
    match state {
        LockState::Lsrd => text.add(b"LSRD"),
        LockState::Lsro => text.add(b"LSRO"),
        LockState::Lsup => text.add(b"LSUP"),
        LockState::Lear => text.add(b"LEAR"),
        LockState::Lenr => text.add(b"LENR"),
    }
}

/// Adds a number after a blank.
fn add_detail_number(text: &mut Text, number: u32) -> Result<(), NoMemory>
    ensures { OnOk result (text.new ≡ text.old ++ (codes " " ++ decimal number)) }
{
    text.add(b" ")?;
    text.add_number(u64::from(number))
}

/// Adds what an exception says beside its code and operand, each part after a blank.
#[tactic(auto, unfolding(crate::specs::Words::detail_text))]
fn add_detail(alloc: Global, text: &mut Text, rule: Rule) -> Result<(), NoMemory>
    ensures { OnOk result (text.new ≡ text.old ++ detail_text rule) }
{
    match rule {
        Rule::Plain => Ok(()),
        Rule::Missing { rights } => {
            text.add(b" ")?;
            add_rights(alloc, text, rights)
        }
        Rule::NoSpecial { special } => {
            text.add(b" ")?;
            add_special(alloc, text, special)
        }
        Rule::Held { process, state } => {
            add_detail_number(text, process)?;
            text.add(b" ")?;
            add_state(text, state)
        }
        Rule::Unit { process } => add_detail_number(text, process),
        Rule::StoreFull { needed, free } => {
            add_detail_number(text, needed)?;
            add_detail_number(text, free)
        }
        Rule::Creation { number } => add_detail_number(text, number),
    }
}

/// Adds an exception: its code, its operand and its detail.
pub fn add_exception(alloc: Global, text: &mut Text, exception: Exception) -> Result<(), NoMemory>
    ensures { OnOk result (text.new ≡ text.old ++ exception_text exception) }
{
    text.add_hex_code(exception.id)?;
    text.add(b" ")?;
    text.add_number(u64::from(exception.operand))?;
    add_detail(alloc, text, exception.rule)
}

/// Adds a word and the code after it.
fn add_coded(text: &mut Text, word: &[u8], code: u16) -> Result<(), NoMemory>
    ensures { OnOk result (text.new ≡ text.old ++ (word.now ++ hex_code code)) }
{
    text.add(word)?;
    text.add_hex_code(code)
}

/// Adds why a process ends.
#[tactic(auto, unfolding(crate::specs::Words::cause_text))]
pub fn add_cause(text: &mut Text, cause: EndCause) -> Result<(), NoMemory>
    ensures { OnOk result (text.new ≡ text.old ++ cause_text cause) }
{
    match cause {
        EndCause::Return => text.add(b"RETURN"),
        EndCause::Unhandled { id } => add_coded(text, b"UNHANDLED ", id),
        EndCause::Budget => text.add(b"BUDGET"),
        EndCause::Start { id } => add_coded(text, b"START ", id),
        EndCause::Create { id, number } => {
            add_coded(text, b"CREATE ", id)?;
            add_detail_number(text, number)
        }
    }
}
