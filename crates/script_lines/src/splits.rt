//! Where a separator splits a text.

ghost use Rattle.std.specs.Prelude.{◌≡◌, [], ◌∷◌, ◌==◌, position, option_map, MatchOption};
ghost use Rattle.script_lines.specs.Parts.{parts, parts_left};

use memchr::memchr;

/// The text up to the first separator, and the text behind that.
pub(crate) fn cut(text: &[u8], separator: u8) -> (&[u8], Option<&[u8]>)
    ensures { parts separator text.now
        ≡ result.0.now ∷ parts_left separator (option_map (λ t. t.now) result.1) }
{
    match split_once(text, separator) {
        Some((first, rest)) => (first, Some(rest)),
        None => (text, None),
    }
}

/// The text up to the first separator and the text behind that, or None where there is no separator.
pub(crate) fn split_once(text: &[u8], separator: u8) -> Option<(&[u8], &[u8])>
    ensures { MatchOption result (parts separator text.now ≡ text.now ∷ [])
        (λ two. parts separator text.now ≡ two.0.now ∷ parts separator two.1.now) }
{
    match find(text, separator) {
        Some(at) => Some((&text[..at], &text[at + 1..])),
        None => None,
    }
}

fn find(text: &[u8], byte: u8) -> Option<usize>
    ensures { result ≡ position (λ b. b == byte) text.now }
{
    memchr(byte, text)
}
