ghost use Rattle.std.specs.Prelude.{◌≡◌};
ghost use Rattle.std.specs.Option.{option_map};
ghost use Rattle.s38_template.specs.Cut.{cut};

use s38_words::place_of;

/// The text before the first separator, and the text after it; None where there is no separator.
pub fn cut(text: &[u8], separator: u8) -> Option<(&[u8], &[u8])>
    ensures { option_map (λ parts. (parts.0.now, parts.1.now)) result ≡ cut separator text.now }
{
    match place_of(separator, text) {
        Some(at) => Some((&text[..at], &text[at + 1..])),
        None => None,
    }
}
