//! The first line of a text.
ghost use Rattle.std.specs.Prelude.{◌≡◌, ◌∷◌, ◌<◌, length};
ghost use Rattle.cap_replies.specs.TextLines.{split_lines};

use memchr::memchr;

/// The first line of the text, and the text behind its line feed.
pub fn first_line(text: &[u8]) -> (&[u8], &[u8])
    requires some { 0 < length text.now }
    ensures first { split_lines text.now ≡ result.0.now ∷ split_lines result.1.now }
    ensures left { length result.1.now < length text.now }
{
    match memchr(b'\n', text) {
        Some(at) => (&text[..at], &text[at + 1..]),
        None => (text, &[]),
    }
}
