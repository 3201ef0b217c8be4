ghost use Rattle.std.specs.Prelude.{◌≡◌, ◌≤◌, length};
ghost use Rattle.s38_create.specs.Created.{declaration_count, is_declaration_line, is_ended};

use s38_code::Lines;
use s38_words::{is_declaration, is_word};

/// The last of two or more lines is END.
pub fn is_ended(lines: &Lines<'_>) -> bool
    ensures { result ≡ is_ended lines.now }
{
    if lines.len() < 2 {
        return false;
    }
    match lines.get(lines.len() - 1) {
        Some(line) => is_word(b"END", line),
        None => false,
    }
}

/// How many lines come before the first that is no declaration.
pub fn declaration_count(body: &Lines<'_>) -> usize
    ensures count { result ≡ declaration_count body.now }
    ensures bound { result ≤ length body.now }
{
    body.iter().take_while(|line| is_declaration(line)).count()
}
