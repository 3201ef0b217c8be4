ghost use Rattle.std.specs.Prelude.{◌≡◌, ◌++◌, IfOk, OnOk};
ghost use Rattle.s38_top.specs.Lines.{bad_store_line, bad_store_word, full_line, word_one, word_two};

use s38_base::NoMemory;
use s38_joblog::Text;
use s38_store_file::BadStore;
use std::alloc::Global;

/// Adds a word and a number.
fn add_one(text: &mut Text, word: &[u8], number: u64) -> Result<(), NoMemory>
    ensures { OnOk result (text.new ≡ text.old ++ word_one word.now number) }
{
    text.add(word)?;
    text.add_byte(b' ')?;
    text.add_number(number)
}

/// Adds a word and two numbers.
fn add_two(text: &mut Text, word: &[u8], first: u64, second: u64) -> Result<(), NoMemory>
    ensures { OnOk result (text.new ≡ text.old ++ word_two word.now first second) }
{
    add_one(text, word, first)?;
    text.add_byte(b' ')?;
    text.add_number(second)
}

/// Adds what is wrong with a store.
fn add_bad_store(text: &mut Text, bad: BadStore) -> Result<(), NoMemory>
    ensures { OnOk result (text.new ≡ text.old ++ bad_store_word bad) }
{
    match bad {
        BadStore::TooSmall { blocks } => add_one(text, b"STORE TOO SMALL", u64::from(blocks)),
        BadStore::NotInstalled => text.add(b"NOT INSTALLED"),
        BadStore::AlreadyInstalled => text.add(b"ALREADY INSTALLED"),
        BadStore::LogDamaged { block } => add_one(text, b"LOG DAMAGED", u64::from(block)),
        BadStore::TwoBlocks { first, second } => {
            add_two(text, b"TWO BLOCKS", u64::from(first), u64::from(second))
        }
        BadStore::BadImage { object, part } => {
            add_two(text, b"BAD IMAGE", object, u64::from(part))
        }
    }
}

/// The line that says what is wrong with a store.
#[tactic(auto, unfolding(crate::specs::Lines::bad_store_line))]
pub fn bad_store_line(alloc: Global, bad: BadStore) -> Result<Vec<u8>, NoMemory>
    ensures { IfOk result (λ line. line.items ≡ bad_store_line bad) }
{
    let mut text = Text::new(alloc);
    add_bad_store(&mut text, bad)?;
    text.add_byte(b'\n')?;
    Ok(text.into_bytes())
}

/// The line that says how many parts a full store wants, and how many are free.
#[tactic(auto, unfolding(crate::specs::Lines::full_line))]
pub fn full_line(alloc: Global, needed: u64, free: u32) -> Result<Vec<u8>, NoMemory>
    ensures { IfOk result (λ line. line.items ≡ full_line needed free) }
{
    let mut text = Text::new(alloc);
    add_two(&mut text, b"STORE FULL", needed, u64::from(free))?;
    text.add_byte(b'\n')?;
    Ok(text.into_bytes())
}
