//! What is printed of a program: the text of its template. Nothing here takes memory.
ghost use Rattle.std.specs.Prelude.{◌≡◌, ◌≤◌, length};
ghost use Rattle.s38_image_writer.specs.Writing.{Adds};
ghost use Rattle.s38_template.specs.Printing.{printed_lines};

use crate::writer::PageWriter;
use s38_code::Lines;

/// How many bytes lines have, each with its line feed.
pub fn text_len(lines: Lines<'_>) -> u32
    requires { length (printed_lines lines) ≤ 16777216 }
    ensures { result ≡ length (printed_lines lines.entry) }
{
    let mut len = 0;
    for line in lines {
        len += 1 + line.len() as u32;
    }
    len
}

/// Lines, each with its line feed.
pub fn put_text(into: &mut PageWriter, lines: Lines<'_>)
    requires { length (printed_lines lines) ≤ into.old.room }
    ensures { Adds into.old into.new (length (printed_lines lines.entry)) (printed_lines lines.entry) }
{
    for line in lines {
        into.put(line);
        into.put_byte(b'\n');
    }
}
