ghost use Rattle.std.specs.Prelude.{◌≡◌, ◌⊎◌, ℕ, List, Ok, Err, IfOk, IfErr, IsTrue, Some, None, is_some};
ghost use Rattle.s38_words.specs.DeclarationLine.{after_dcl};
ghost use Rattle.s38_code.specs.declared.deck.Deck.{Deck};
ghost use Rattle.s38_template.specs.Grammar.{Spells, line_is_plain};
ghost use Rattle.s38_template.specs.Lines.{line_of};
ghost use Rattle.s38_template.specs.Reading.{Answers, after_line, bad_line_code, deck_at_end, read_of, rest_at, said_code, taken_if};
ghost use Rattle.s38_template.specs.Views.{state_of};
ghost use Rattle.s38_template.specs.declared.said.Line.{Line};

use crate::code::{act_code, declare_code, is_small, line_code};
use crate::fault::DeckFault;
use crate::forms::{declared_range, line_of, says_act};
use crate::line::{NextLine, is_kept, next_line};
use crate::place::Place;
use crate::reader::Reader;
use crate::step::{act, declare, start, take};
use s38_base::NoMemory;
use s38_code::Deck;
use s38_words::is_declaration;
use std::alloc::Global;

/// An instruction's line, where the deck has so many bytes up to its end: it is taken, or its code tells what is
/// bad.
fn keep_act(
    alloc: Global,
    reader: &mut Reader,
    size: usize,
    line: &[u8],
) -> Result<Option<u8>, NoMemory>
    ensures code { IfOk result (λ code. code ≡ said_code (state_of reader.old) size (Some Line.Act)) }
    ensures after { IfOk result (λ code. code ≡ None → state_of reader.new ≡ taken_if (state_of reader.old) line.now (Some Line.Act)) }
{
    let code = act_code(reader, size);
    if code.is_some() {
        return Ok(code);
    }
    act(alloc, reader, line)?;
    Ok(None)
}

/// The same for a line that begins as a declaration.
fn keep_declaration(
    alloc: Global,
    reader: &mut Reader,
    size: usize,
    line: &[u8],
) -> Result<Option<u8>, NoMemory>
    requires { IsTrue (is_some (after_dcl line.now)) }
    ensures code { IfOk result (λ code. code ≡ said_code (state_of reader.old) size (line_of line.now)) }
    ensures after { IfOk result (λ code. code ≡ None → state_of reader.new ≡ taken_if (state_of reader.old) line.now (line_of line.now)) }
{
    let Some(in_range) = declared_range(line) else {
        return Ok(Some(2));
    };
    let code = declare_code(reader, size, in_range);
    if code.is_some() {
        return Ok(code);
    }
    declare(alloc, reader, line, in_range)?;
    Ok(None)
}

/// The same for any line.
#[inline(never)]
fn keep_other(
    alloc: Global,
    reader: &mut Reader,
    size: usize,
    line: &[u8],
) -> Result<Option<u8>, NoMemory>
    ensures code { IfOk result (λ code. code ≡ said_code (state_of reader.old) size (line_of line.now)) }
    ensures after { IfOk result (λ code. code ≡ None → state_of reader.new ≡ taken_if (state_of reader.old) line.now (line_of line.now)) }
{
    let Some(said) = line_of(alloc, line)? else {
        return Ok(Some(2));
    };
    let code = line_code(reader, size, &said);
    if code.is_some() {
        return Ok(code);
    }
    take(alloc, reader, line, said)?;
    Ok(None)
}

/// A line that says something, where the deck has so many bytes up to its end: it is taken, or its code tells
/// what is bad.
fn keep_line(
    alloc: Global,
    reader: &mut Reader,
    size: usize,
    line: &[u8],
) -> Result<Option<u8>, NoMemory>
    ensures code { IfOk result (λ code. code ≡ said_code (state_of reader.old) size (line_of line.now)) }
    ensures after { IfOk result (λ code. code ≡ None → state_of reader.new ≡ taken_if (state_of reader.old) line.now (line_of line.now)) }
{
    if is_declaration(line) {
        keep_declaration(alloc, reader, size, line)
    } else if says_act(line) {
        keep_act(alloc, reader, size, line)
    } else {
        keep_other(alloc, reader, size, line)
    }
}

/// Any line, without its line feed, and whether it is plain: it is taken, or its code tells what is bad.
#[tactic(auto, unfolding(crate::specs::Reading::bad_line_code, crate::specs::Reading::after_line))]
fn turn(
    alloc: Global,
    reader: &mut Reader,
    size: usize,
    line: &[u8],
    plain: bool,
) -> Result<Option<u8>, NoMemory>
    requires { plain ≡ line_is_plain line.now }
    ensures code { IfOk result (λ code. code ≡ bad_line_code (state_of reader.old) size line.now) }
    ensures after { IfOk result (λ code. code ≡ None → state_of reader.new ≡ after_line (state_of reader.old) line.now) }
{
    if !plain {
        return Ok(Some(1));
    }
    if is_kept(line) {
        return keep_line(alloc, reader, size, line);
    }
    if is_small(size) {
        Ok(None)
    } else {
        Ok(Some(6))
    }
}

/// The deck, where one may end here, before a line of this number.
#[tactic(auto, unfolding(crate::specs::Reading::deck_at_end))]
fn end_at(reader: Reader, number: u32) -> Result<Deck, DeckFault>
    ensures { Answers result (deck_at_end (state_of reader) number) }
{
    let Reader {
        place,
        templates,
        jobs,
        ..
    } = reader;
    match place {
        Place::Between | Place::Staged => Ok(Deck { templates, jobs }),
        _ => Err(DeckFault::Bad {
            line: number,
            code: 5,
        }),
    }
}

/// The deck, where nothing comes after the last line feed.
#[tactic(auto, unfolding(crate::specs::Reading::rest_at))]
fn rest_at(reader: Reader, number: u32, rest: &[u8]) -> Result<Deck, DeckFault>
    ensures { Answers result (rest_at (state_of reader) number rest.now) }
{
    match rest {
        [] => end_at(reader, number),
        [..] => Err(DeckFault::Bad {
            line: number,
            code: 1,
        }),
    }
}

/// The deck of a text, or its first bad line.
fn read(alloc: Global, text: &[u8]) -> Result<Deck, DeckFault>
    ensures { Answers result (read_of text.now) }
{
    let mut reader = start(alloc);
    let mut size = 0;
    let mut number = 1;
    let mut rest = text;
    while let Some(NextLine { line, more, plain }) = next_line(rest) {
        size = size + line.len() + 1;
        match turn(alloc, &mut reader, size, line, plain) {
            Ok(None) => {}
            Ok(Some(code)) => return Err(DeckFault::Bad { line: number, code }),
            Err(_) => return Err(DeckFault::NoMemory),
        }
        number += 1;
        rest = more;
    }
    rest_at(reader, number, rest)
}

/// The deck that a text spells, or the number of its first bad line and that line's least code.
pub fn read_deck(alloc: Global, text: &[u8]) -> Result<Deck, DeckFault>
    ensures found { IfOk result (λ deck. Spells text.now deck) }
    ensures only { IfOk result (λ deck. (other : Deck) → Spells text.now other → other ≡ deck) }
    ensures bad { IfErr result (λ fault. (fault ≡ DeckFault.NoMemory) ⊎ (read_of text.now ≡ Err fault)) }
    ensures none { IfErr result (λ fault. (fault ≡ DeckFault.NoMemory) ⊎ ((deck : Deck) → Spells text.now deck → ⊥)) }
{
    read(alloc, text)
}

/// A text spells at most one deck.
pub fn one_deck()
    ensures { (text : List ℕ) (one other : Deck) → Spells text one → Spells text other → one ≡ other }
{}
