//! The tokens of a filter's text.
ghost use Rattle.std.specs.Prelude.{◌≡◌, ◌≢◌, ◌<◌, ◌++◌, ◌∷◌, ℕ, List, Bool, false, length, take_while};
ghost use Rattle.std.specs.Prelude.{MatchOption, IsTrue};
ghost use Rattle.cap_filter.specs.Printed.{quote};
ghost use Rattle.cap_filter.specs.Read.{IsRead, BeginsAs};
ghost use Rattle.cap_filter.specs.Tokens.{tokens_of, is_word_byte, is_word, begins_word, has_quote, blank};

// What a text begins with, behind blanks.
#[derive(Clone, Copy)]
pub(crate) enum Token<'a> {
    // The longest run of letters, digits and `_`.
    Word(&'a str),
    Opening,
    Closing,
    Comma,
    // The quote before a quoted text.
    Quote,
    // A byte that begins no token.
    Other,
    // The text has no more tokens.
    End,
}

// The first token of a text.
#[derive(Clone, Copy)]
pub(crate) struct Read<'a> {
    pub(crate) token: Token<'a>,
    // How many bytes there are from the token's first to the end of the text.
    pub(crate) left: usize,
    // The text behind the token.
    pub(crate) rest: &'a str,
}

pub(crate) fn next_token(text: &str) -> Read<'_>
    ensures { IsRead (tokens_of text.now) result }
{
    let text = after_blanks(text);
    let left = text.len();
    let (word, rest) = split_word(text);
    if !word.is_empty() {
        return Read {
            token: Token::Word(word),
            left,
            rest,
        };
    }
    let (token, rest) = sign(text);
    Read { token, left, rest }
}

fn sign(text: &str) -> (Token<'_>, &str)
    requires no_blank { (rest : List ℕ) → text.now ≢ blank ∷ rest }
    requires no_word { begins_word text.now ≡ false }
    ensures { BeginsAs (tokens_of text.now) (length text.now) result.1.now result.0 }
{
    if let Some(rest) = after(text, '(') {
        (Token::Opening, rest)
    } else if let Some(rest) = after(text, ')') {
        (Token::Closing, rest)
    } else if let Some(rest) = after(text, ',') {
        (Token::Comma, rest)
    } else if let Some(rest) = after(text, '\'') {
        (Token::Quote, rest)
    } else if text.is_empty() {
        (Token::End, text)
    } else {
        (Token::Other, text)
    }
}

/// The text behind its first character, where that is this ASCII one.
pub fn after<'a>(text: &'a str, first: char) -> Option<&'a str>
    requires { first < 128 }
    ensures { MatchOption result ((rest : List ℕ) → text.now ≢ first ∷ rest)
        (λ rest. text.now ≡ first ∷ rest.now) }
{
    text.strip_prefix(first)
}

fn after_blanks(text: &str) -> &str
    ensures same { tokens_of result.now ≡ tokens_of text.now }
    ensures no_blank { (rest : List ℕ) → result.now ≢ blank ∷ rest }
{
    let mut text = text;
    while let Some(rest) = after(text, ' ') {
        text = rest;
    }
    text
}

// The word that the text begins with, which may be empty, and the text behind it.
fn split_word(text: &str) -> (&str, &str)
    ensures parts { text.now ≡ result.0.now ++ result.1.now }
    ensures word { IsTrue (is_word result.0.now) }
    ensures whole { begins_word result.1.now ≡ false }
{
    text.split_at(word_len(text.as_bytes()))
}

/// The length of the word that the bytes begin with: 0 where they begin with none.
pub fn word_len(bytes: &[u8]) -> usize
    ensures { result ≡ length (take_while is_word_byte bytes.now) }
{
    bytes.iter().take_while(|byte| is_word_byte(**byte)).count()
}

/// Whether a byte is an ASCII letter, a digit or `_`.
pub fn is_word_byte(byte: u8) -> bool
    ensures { result ≡ is_word_byte byte }
{
    byte.is_ascii_alphanumeric() || byte == b'_'
}

/// The text before its first quote, and the text behind that quote.
pub fn split_at_quote(text: &str) -> Option<(&str, &str)>
    ensures { MatchOption result
        (has_quote text.now ≡ false)
        (λ parts. (has_quote parts.0.now ≡ false) × (text.now ≡ parts.0.now ++ quote ∷ parts.1.now)) }
{
    text.split_once('\'')
}
