ghost use Rattle.std.specs.Prelude.{◌≡◌, ◌<◌, IfSome, length};
ghost use Rattle.std.specs.List.{list_all, position};
ghost use Rattle.std.specs.Option.{option_map};
ghost use Rattle.s38_template.specs.Cut.{cut};
ghost use Rattle.s38_template.specs.Grammar.{is_kept, is_odd, is_plain_byte, line_is_plain};

use crate::cut::cut;

/// The longest line, without its line feed.
const LONGEST: usize = 255;

fn is_plain_byte(byte: u8) -> bool
    ensures { result ≡ is_plain_byte byte }
{
    byte >= 0x20 && byte <= 0x7E
}

fn are_plain_bytes(line: &[u8]) -> bool
    ensures { result ≡ list_all is_plain_byte line.now }
{
    line.iter().all(|byte| is_plain_byte(*byte))
}

/// Whether a line has at most 255 bytes, each of 20 to 7E.
#[inline(never)]
fn is_plain(line: &[u8]) -> bool
    ensures { result ≡ line_is_plain line.now }
{
    line.len() <= LONGEST && are_plain_bytes(line)
}

/// The place of the first byte that is not plain; None where there is none.
#[inline(always)]
fn odd_place(text: &[u8]) -> Option<usize>
    ensures place { result ≡ position is_odd text.now }
    ensures bound { IfSome result (λ at. at < length text.now) }
{
    text.iter().position(|byte| !is_plain_byte(*byte))
}

/// A line without its line feed, what comes after that, and whether the line is plain.
#[derive(Clone, Copy)]
pub struct NextLine<'a> {
    pub line: &'a [u8],
    pub more: &'a [u8],
    pub plain: bool,
}

/// The first line of a text; None where there is no line feed.
#[inline(always)]
fn any_line(text: &[u8]) -> Option<NextLine<'_>>
    ensures parts { option_map (λ next. (next.line.now, next.more.now)) result ≡ cut 10 text.now }
    ensures plain { IfSome result (λ next. next.plain ≡ line_is_plain next.line.now) }
{
    match cut(text, b'\n') {
        Some((line, more)) => Some(NextLine {
            line,
            more,
            plain: is_plain(line),
        }),
        None => None,
    }
}

/// The first line of a text; None where there is no line feed. A good line is gone through once, up to its line feed.
#[inline(always)]
pub fn next_line(text: &[u8]) -> Option<NextLine<'_>>
    ensures parts { option_map (λ next. (next.line.now, next.more.now)) result ≡ cut 10 text.now }
    ensures plain { IfSome result (λ next. next.plain ≡ line_is_plain next.line.now) }
{
    match odd_place(text) {
        Some(at) if text[at] == b'\n' => Some(NextLine {
            line: &text[..at],
            more: &text[at + 1..],
            plain: at <= LONGEST,
        }),
        _ => any_line(text),
    }
}

/// Whether a line says something: it is not empty and no comment.
pub fn is_kept(line: &[u8]) -> bool
    ensures { result ≡ is_kept line.now }
{
    match line {
        [] => false,
        [first, ..] => *first != b'*',
    }
}
