ghost use Rattle.std.specs.Prelude.{◌≡◌, ◌++◌, IfOk, OnOk};
ghost use Rattle.s38_listing.specs.Listing.{head_word, id_word, list_line, list_text, number_word, place_words};

use crate::words::kind_word;
use s38_base::{Id, NoMemory};
use s38_joblog::{Text, add_rights};
use s38_objects::Objects;
use s38_rules::Object;
use std::alloc::Global;

/// Adds an identification: kind, subtype in two hexadecimal digits, and name, parted by `/`.
fn add_id(text: &mut Text, id: &Id) -> Result<(), NoMemory>
    ensures { OnOk result (text.new ≡ text.old ++ id_word id.now) }
{
    text.add(kind_word(id.kind))?;
    text.add_byte(b'/')?;
    text.add_hex_byte(id.sub)?;
    text.add_byte(b'/')?;
    text.add(id.name.as_bytes())
}

/// Adds a word and a number after it.
fn add_word_and_number(text: &mut Text, word: &[u8], number: u64) -> Result<(), NoMemory>
    ensures { OnOk result (text.new ≡ text.old ++ number_word word.now number) }
{
    text.add(word)?;
    text.add_number(number)
}

/// Adds the number and the identification of an object.
fn add_head(text: &mut Text, object: &Object) -> Result<(), NoMemory>
    ensures { OnOk result (text.new ≡ text.old ++ head_word object.now) }
{
    text.add_number(object.number.0)?;
    text.add_byte(b' ')?;
    add_id(text, &object.id)
}

/// Adds the numbers of the context and of the owner of an object.
fn add_places(text: &mut Text, object: &Object) -> Result<(), NoMemory>
    ensures { OnOk result (text.new ≡ text.old ++ place_words object.now) }
{
    add_word_and_number(text, b" IN ", object.context.0)?;
    add_word_and_number(text, b" OWNER ", object.owner.0)
}

/// Adds the line of an object.
fn add_line(alloc: Global, text: &mut Text, object: &Object) -> Result<(), NoMemory>
    ensures { OnOk result (text.new ≡ text.old ++ list_line object.now) }
{
    add_head(text, object)?;
    add_places(text, object)?;
    text.add(b" PUBLIC ")?;
    add_rights(alloc, text, object.public)?;
    text.add_byte(b'\n')
}

/// What is printed of the objects of a store: for each, in rising order of number, a line with its number, its
/// identification, the number of its context, that of its owner, and the rights of everybody. The context need not be
/// there. `NoMemory` where memory was refused.
pub fn list_text(alloc: Global, objects: &Objects) -> Result<Vec<u8>, NoMemory>
    ensures { IfOk result (λ text. text.items ≡ list_text objects.now.objects) }
{
    let mut text = Text::new(alloc);
    for object in objects.all() {
        add_line(alloc, &mut text, object)?;
    }
    Ok(text.into_bytes())
}
