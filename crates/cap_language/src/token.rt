//! The token at the beginning of a text.
ghost use Rattle.std.specs.Prelude.{◌≡◌, ◌≤◌, ◌<◌, ◌^◌, ◌++◌, ◌∷◌, [], ◌⊎◌, ℕ, List, Bool, true, false};
ghost use Rattle.std.specs.Prelude.{length, take_while, take, drop};
ghost use Rattle.std.specs.Prelude.{Some, None, Ok, MatchOption, IfOk, IfSome, string_bytes, ◌≢◌};
ghost use Rattle.cap_language.specs.Grammar.{sign_at};
ghost use Rattle.hex.specs.Hex.{decode_of};
ghost use Rattle.cap_filter.specs.Tokens.{is_word_byte};
ghost use Rattle.cap_language.specs.Forms.{a_number, a_word};
ghost use Rattle.cap_language.specs.Grammar.{wanted_in};
ghost use Rattle.cap_language.specs.Scanning.{AreDigits, digits_at, no_quote, number_at, quoted_of};
ghost use Rattle.cap_language.specs.Scanning.{quoted_on, run_of};
ghost use Rattle.cap_language.specs.Scanning.{start_at, start_of, token_at, with_bytes};
ghost use Rattle.cap_language.specs.Tokens.{Blob, Integer, Text, begins_quote, behind_blanks, is_blank};
ghost use Rattle.cap_language.specs.Tokens.{is_letter, signed};

use cap_filter::word_len;
use cap_value::{AllocHandle, OutOfMemory};
use hex::FromHexError;

// The greatest number behind a minus sign.
const NUMBER_MAX: u64 = 1 << 63;

// What a text begins with.
#[derive(Clone, Copy, Drop)]
pub(crate) enum Start {
    Quote,
    // The `x` and the quote of a blob.
    X,
    Letter,
    Minus,
    Digit,
    Other,
}

/// The text after its leading spaces.
pub fn after_blanks(text: &str) -> &str
    ensures { result.now ≡ behind_blanks text.now }
{
    text.split_at(blanks_len(text.as_bytes())).1
}

fn blanks_len(bytes: &[u8]) -> usize
    ensures { result ≡ length (take_while is_blank bytes.now) }
{
    bytes.iter().take_while(|byte| **byte == b' ').count()
}

// The text behind the sign, where it begins with it.
pub(crate) fn after_sign(text: &str, wanted: u8) -> Option<&str>
    requires { wanted < 128 }
    ensures { MatchOption result (sign_at wanted text.now ≡ None)
        (λ rest. sign_at wanted text.now ≡ Some rest.now) }
{
    match text.as_bytes() {
        [first, ..] if *first == wanted => Some(text.split_at(1).1),
        _ => None,
    }
}

// The word at the beginning of the text, and the text behind it.
pub(crate) fn word_at(text: &str) -> Option<(&str, &str)>
    ensures { MatchOption result (wanted_in a_word (token_at text.now) ≡ None)
        (λ found. wanted_in a_word (token_at text.now) ≡ Some (found.0.now, found.1.now)) }
{
    match start_of(text.as_bytes()) {
        Start::Letter => Some(text.split_at(word_len(text.as_bytes()))),
        _ => None,
    }
}

// What the bytes begin with.
pub(crate) fn start_of(bytes: &[u8]) -> Start
    ensures { result ≡ start_of bytes.now }
{
    match bytes {
        [] => Start::Other,
        [first, rest @ ..] => start_at(*first, rest),
    }
}

#[inline(always)]
fn start_at(first: u8, rest: &[u8]) -> Start
    ensures { result ≡ start_at first rest.now }
{
    if first == b'\'' {
        Start::Quote
    } else if is_letter(first) {
        if first == b'x' && begins_quote(rest) {
            Start::X
        } else {
            Start::Letter
        }
    } else if first == b'-' {
        Start::Minus
    } else if first.is_ascii_digit() {
        Start::Digit
    } else {
        Start::Other
    }
}

#[inline(always)]
pub(crate) fn begins_quote(bytes: &[u8]) -> bool
    ensures { result ≡ begins_quote bytes.now }
{
    match bytes {
        [] => false,
        [first, ..] => *first == b'\'',
    }
}

fn is_letter(byte: u8) -> bool
    ensures { result ≡ is_letter byte }
{
    byte.is_ascii_alphabetic() || byte == b'_'
}

// The integer without `-` at the beginning of the text, and the text behind it.
pub(crate) fn natural_at(text: &str) -> Option<(u64, &str)>
    ensures { MatchOption result (wanted_in a_number (token_at text.now) ≡ None)
        (λ found. wanted_in a_number (token_at text.now) ≡ Some (found.0, found.1.now)) }
{
    match start_of(text.as_bytes()) {
        Start::Digit => number_at(text, false),
        _ => None,
    }
}

// The number whose digits the text begins with, and the text behind it; after a minus sign one of 2^63 too.
pub(crate) fn number_at(text: &str, negative: bool) -> Option<(u64, &str)>
    ensures { MatchOption result (number_at negative text.now ≡ None)
        (λ found. (number_at negative text.now ≡ Some (Integer negative found.0, found.1.now))
        × (found.0 ≤ 2 ^ 63) × (negative ≡ false → found.0 < 2 ^ 63)) }
{
    let (number, count) = digits_at(text.as_bytes())?;
    if !negative && number == NUMBER_MAX {
        return None;
    }
    Some((number, text.split_at(count).1))
}

// The number of at most 2^63 whose digits the bytes begin with, and how many digits.
fn digits_at(bytes: &[u8]) -> Option<(u64, usize)>
    ensures { MatchOption result (digits_at bytes.now ≡ None)
        (λ found. (digits_at bytes.now ≡ Some (found.0, drop found.1 bytes.now)) × (found.0 ≤ 2 ^ 63)
        × (found.1 ≤ length bytes.now) × AreDigits (take found.1 bytes.now)) }
{
    let mut number: u64 = 0;
    for (i, byte) in bytes.iter().enumerate() {
        if !byte.is_ascii_digit() {
            return if i == 0 { None } else { Some((number, i)) };
        }
        if number > NUMBER_MAX / 10 {
            return None;
        }
        number = number * 10 + u64::from(*byte - b'0');
        if number > NUMBER_MAX {
            return None;
        }
    }
    if bytes.is_empty() {
        None
    } else {
        Some((number, bytes.len()))
    }
}

// The number with a minus sign.
pub(crate) fn negated(number: u64) -> i64
    requires { number ≤ 2 ^ 63 }
    ensures { result ≡ signed true number }
{
    if number == NUMBER_MAX {
        i64::MIN
    } else {
        -(number as i64)
    }
}

// The bytes of the text before its first quote, and the text behind that quote.
pub(crate) fn split_quote(text: &str) -> Option<(&str, &str)>
    ensures piece { MatchOption result (quoted_of text.now ≡ None)
        (λ found. quoted_of text.now ≡ with_bytes found.0.now (quoted_on true found.1.now)) }
    ensures run { MatchOption result ((front : List ℕ) × (run_of no_quote text.now ≡ (front, [])))
        (λ found. run_of no_quote text.now ≡ (found.0.now, 39 ∷ found.1.now)) }
    ensures less { IfSome result (λ found. length found.1.now < length text.now) }
{
    let (piece, behind) = text.split_at(unquoted_len(text.as_bytes()));
    match after_sign(behind, b'\'') {
        Some(rest) => Some((piece, rest)),
        None => None,
    }
}

fn unquoted_len(bytes: &[u8]) -> usize
    ensures { result ≡ length (take_while no_quote bytes.now) }
{
    bytes.iter().take_while(|byte| **byte != b'\'').count()
}

// The content of a quoted text, given the text after its first quote, and the text after it. None where no
// quote ends it.
pub(crate) fn split_quoted<A: AllocHandle>(
    alloc: A,
    text: &str,
) -> Result<Option<(String<A>, &str)>, OutOfMemory>
    ensures { IfOk result (λ found. MatchOption found (quoted_of text.now ≡ None)
        (λ parts. quoted_of text.now ≡ Some (string_bytes parts.0, parts.1.now))) }
{
    let mut word = String::new(alloc);
    let mut rest = text;
    while let Some((piece, behind)) = split_quote(rest) {
        word.push_str(piece)?;
        let Some(more) = after_sign(behind, b'\'') else {
            return Ok(Some((word, behind)));
        };
        word.push_str("'")?;
        rest = more;
    }
    Ok(None)
}

// The content of the quoted text that the text begins with, where it has no quote, and the text behind it.
pub(crate) fn short_text(here: &str) -> Option<(&str, &str)>
    requires { start_of here.now ≡ Start.Quote }
    ensures { IfSome result (λ found. token_at here.now ≡ Some (Text found.0.now, found.1.now)) }
{
    let Some(begun) = after_sign(here, b'\'') else {
        return None;
    };
    let Some((piece, behind)) = split_quote(begun) else {
        return None;
    };
    match after_sign(behind, b'\'') {
        Some(_) => None,
        None => Some((piece, behind)),
    }
}

// The content of the quoted text that the text begins with, and the text behind it.
#[tactic(auto, using(crate::proofs::ScanLaws::quote_token, crate::proofs::ScanLaws::no_opening))]
pub(crate) fn long_text<A: AllocHandle>(
    alloc: A,
    here: &str,
) -> Result<Option<(String<A>, &str)>, OutOfMemory>
    requires { start_of here.now ≡ Start.Quote }
    ensures { IfOk result (λ found. MatchOption found (token_at here.now ≡ None)
        (λ parts. token_at here.now ≡ Some (Text (string_bytes parts.0), parts.1.now))) }
{
    match after_sign(here, b'\'') {
        Some(begun) => match split_quoted(alloc, begun)? {
            Some((text, rest)) => Ok(Some((text, rest))),
            None => Ok(None),
        },
        None => Ok(None),
    }
}

// The bytes of the blob that the text begins with, and the text behind it.
#[tactic(auto, using(crate::proofs::ScanLaws::no_blob_token, crate::proofs::ScanLaws::no_begun_token))]
pub(crate) fn blob_at<A: AllocHandle>(
    alloc: A,
    here: &str,
) -> Result<Option<(Vec<u8, A>, &str)>, OutOfMemory>
    requires { start_of here.now ≡ Start.X }
    ensures { IfOk result (λ found. MatchOption found (token_at here.now ≡ None)
        (λ parts. token_at here.now ≡ Some (Blob parts.0.items, parts.1.now))) }
{
    let Some(opened) = after_sign(here, b'x') else {
        return Ok(None);
    };
    let Some(begun) = after_sign(opened, b'\'') else {
        return Ok(None);
    };
    let Some((digits, rest)) = split_quote(begun) else {
        return Ok(None);
    };
    match bytes_of(alloc, digits)? {
        Some(bytes) => Ok(Some((bytes, rest))),
        None => Ok(None),
    }
}

// The bytes that pairs of hex digits spell. None where the text is anything else.
fn bytes_of<A: AllocHandle>(alloc: A, text: &str) -> Result<Option<Vec<u8, A>>, OutOfMemory>
    ensures { IfOk result (λ found. MatchOption found
        ((bytes : List ℕ) → decode_of text.now ≢ Ok bytes) (λ bytes. decode_of text.now ≡ Ok bytes.items)) }
{
    match hex::decode(alloc, text) {
        Ok(bytes) => Ok(Some(bytes)),
        Err(FromHexError::OutOfMemory) => Err(OutOfMemory),
        Err(_) => Ok(None),
    }
}
