ghost use Rattle.std.specs.Prelude.{◌≡◌, ◌++◌, decimal, map, OnOk};
ghost use Rattle.std.specs.Fmt.{signed_decimal};
ghost use Rattle.s38_demo.specs.GeneratedDeck.{line_with_feed, text_of_lines};

use itoa::Buffer;
use s38_base::NoMemory;

/// Adds bytes.
pub fn add(text: &mut Vec<u8>, bytes: &[u8]) -> Result<(), NoMemory>
    ensures { OnOk result (text.new.items ≡ text.old.items ++ bytes.now) }
{
    match text.extend_from_slice(bytes) {
        Ok(()) => Ok(()),
        Err(_) => Err(NoMemory),
    }
}

/// Adds a number in decimal digits.
pub fn add_number(text: &mut Vec<u8>, number: u32) -> Result<(), NoMemory>
    ensures { OnOk result (text.new.items ≡ text.old.items ++ decimal number) }
{
    let mut buffer = Buffer::new();
    add(text, buffer.format(number).as_bytes())
}

/// Adds a number in decimal digits, after a minus where it is below 0.
pub fn add_signed(text: &mut Vec<u8>, number: i128) -> Result<(), NoMemory>
    ensures { OnOk result (text.new.items ≡ text.old.items ++ signed_decimal number) }
{
    let mut buffer = Buffer::new();
    add(text, buffer.format(number).as_bytes())
}

/// Adds a line and its line feed.
pub fn add_line(text: &mut Vec<u8>, line: &[u8]) -> Result<(), NoMemory>
    ensures { OnOk result (text.new.items ≡ text.old.items ++ line_with_feed line.now) }
{
    add(text, line)?;
    add(text, b"\n")
}

/// Adds lines, each with its line feed.
pub fn add_lines(text: &mut Vec<u8>, lines: &[&[u8]]) -> Result<(), NoMemory>
    ensures { OnOk result (text.new.items ≡ text.old.items ++ text_of_lines (map (λ line. line.now) lines.now)) }
{
    for line in lines {
        add_line(text, *line)?;
    }
    Ok(())
}
