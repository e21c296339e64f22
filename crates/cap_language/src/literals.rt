//! Reads values, and references to rows.
ghost use Rattle.std.specs.Prelude.{◌≡◌, ◌≤◌, ◌++◌, ◌∷◌, [], ◌⊎◌, List, ℕ, Ok, IfOk, IfErr, IfSome, MatchResult, length};
ghost use Rattle.cap_language.specs.Grammar.{Fails, Reads, read};
ghost use Rattle.cap_language.specs.Forms.{name, separated, value, value_here, values};
ghost use Rattle.cap_language.specs.Scanning.{start_of};
ghost use Rattle.cap_value.specs.declared.limits.TheConstants.{VALUE_BYTES_MAX};
ghost use Rattle.cap_value.specs.declared.value.Value.{Value};
ghost use Rattle.cap_value.specs.declared.value.Value.TheVariants.{Text};

use crate::cursor::Cursor;
use crate::fault::LineFault;
use crate::token::{
    Start, after_sign, blob_at, long_text, negated, number_at, short_text, start_of, word_at,
};
use cap_row::{KeyValues, Row, RowBuilder};
use cap_value::{AllocHandle, Name, VALUE_BYTES_MAX, Value};
use smallvec::SmallVec;

/// Reads the name of a table or of a saved database.
#[tactic(auto, unfolding(crate::specs::Forms::name))]
pub fn name<A: AllocHandle>(alloc: A, cursor: &mut Cursor<'_>) -> Result<Name<A>, LineFault>
    ensures reads { Reads result cursor.new.rest.now (read name cursor.old.rest.now) }
{
    let word = cursor.word()?;
    Ok(Name::new(alloc, word.text)?)
}

/// Reads a value, the next token.
#[tactic(auto, unfolding(crate::specs::Forms::value))]
pub fn value<A: AllocHandle>(alloc: A, cursor: &mut Cursor<'_>) -> Result<Value<A>, LineFault>
    ensures reads { Reads result cursor.new.rest.now (read value cursor.old.rest.now) }
{
    cursor.skip_spaces();
    value_here(alloc, cursor)
}

// Reads the value that begins right here.
#[tactic(auto, using(crate::proofs::ScanLaws::other_token))]
fn value_here<A: AllocHandle>(alloc: A, cursor: &mut Cursor<'_>) -> Result<Value<A>, LineFault>
    ensures reads { Reads result cursor.new.rest.now (value_here cursor.old.rest.now) }
{
    match start_of(cursor.rest.as_bytes()) {
        Start::Quote => text(alloc, cursor),
        Start::X => blob(alloc, cursor),
        Start::Letter => null(cursor),
        Start::Minus => minus(cursor),
        Start::Digit => digits(cursor),
        Start::Other => Err(cursor.misfit()),
    }
}

#[tactic(auto, using(crate::proofs::ScanLaws::minus_token, crate::proofs::ScanLaws::no_minus))]
fn minus<A: AllocHandle>(cursor: &mut Cursor<'_>) -> Result<Value<A>, LineFault>
    requires { start_of cursor.old.rest.now ≡ Start.Minus }
    ensures reads { Reads result cursor.new.rest.now (value_here cursor.old.rest.now) }
{
    let misfit = cursor.misfit();
    let Some(digits) = after_sign(cursor.rest, b'-') else {
        return Err(misfit);
    };
    match number_at(digits, true) {
        Some((number, rest)) => {
            cursor.rest = rest;
            Ok(Value::Int(negated(number)))
        }
        None => Err(misfit),
    }
}

#[tactic(auto, using(crate::proofs::ScanLaws::digit_token))]
fn digits<A: AllocHandle>(cursor: &mut Cursor<'_>) -> Result<Value<A>, LineFault>
    requires { start_of cursor.old.rest.now ≡ Start.Digit }
    ensures reads { Reads result cursor.new.rest.now (value_here cursor.old.rest.now) }
{
    match number_at(cursor.rest, false) {
        Some((number, rest)) => {
            cursor.rest = rest;
            Ok(Value::Int(number as i64))
        }
        None => Err(cursor.misfit()),
    }
}

#[tactic(auto, using(crate::proofs::ScanLaws::letter_token))]
fn null<A: AllocHandle>(cursor: &mut Cursor<'_>) -> Result<Value<A>, LineFault>
    requires { start_of cursor.old.rest.now ≡ Start.Letter }
    ensures reads { Reads result cursor.new.rest.now (value_here cursor.old.rest.now) }
{
    let misfit = cursor.misfit();
    match word_at(cursor.rest) {
        Some((word, rest)) => {
            cursor.rest = rest;
            if word == "null" {
                Ok(Value::Null)
            } else {
                Err(misfit)
            }
        }
        None => Err(misfit),
    }
}

fn text<A: AllocHandle>(alloc: A, cursor: &mut Cursor<'_>) -> Result<Value<A>, LineFault>
    requires { start_of cursor.old.rest.now ≡ Start.Quote }
    ensures reads { Reads result cursor.new.rest.now (value_here cursor.old.rest.now) }
{
    match short_text(cursor.rest) {
        Some((text, rest)) => {
            cursor.rest = rest;
            Ok(Value::text(alloc, text)?)
        }
        None => doubled_text(alloc, cursor),
    }
}

// Reads a text that may have quotes.
#[inline(never)]
fn doubled_text<A: AllocHandle>(alloc: A, cursor: &mut Cursor<'_>) -> Result<Value<A>, LineFault>
    requires { start_of cursor.old.rest.now ≡ Start.Quote }
    ensures reads { Reads result cursor.new.rest.now (value_here cursor.old.rest.now) }
{
    match long_text(alloc, cursor.rest)? {
        Some((text, rest)) => {
            cursor.rest = rest;
            Ok(Value::text(alloc, text.as_str())?)
        }
        None => Err(cursor.misfit()),
    }
}

fn blob<A: AllocHandle>(alloc: A, cursor: &mut Cursor<'_>) -> Result<Value<A>, LineFault>
    requires { start_of cursor.old.rest.now ≡ Start.X }
    ensures reads { Reads result cursor.new.rest.now (value_here cursor.old.rest.now) }
{
    match blob_at(alloc, cursor.rest)? {
        Some((bytes, rest)) => {
            cursor.rest = rest;
            Ok(Value::blob(alloc, bytes.as_slice())?)
        }
        None => Err(cursor.misfit()),
    }
}

/// Reads one value or more in parentheses, separated by commas, for a key.
#[tactic(auto, unfolding(crate::specs::Forms::values))]
pub fn values<A: AllocHandle>(alloc: A, cursor: &mut Cursor<'_>) -> Result<KeyValues<A>, LineFault>
    ensures reads { MatchResult result
        (λ made. read values cursor.old.rest.now ≡ Ok (made.items, cursor.new.rest.now))
        (λ fault. Fails fault (read (values {A = A}) cursor.old.rest.now)) }
{
    cursor.sign(b'(')?;
    let values = items(alloc, cursor)?;
    cursor.sign(b')')?;
    Ok(values)
}

fn items<A: AllocHandle>(alloc: A, cursor: &mut Cursor<'_>) -> Result<KeyValues<A>, LineFault>
    ensures reads { MatchResult result
        (λ made. read (separated 44 (λ _. value)) cursor.old.rest.now ≡ Ok (made.items, cursor.new.rest.now))
        (λ fault. Fails fault (read (separated 44 (λ _. value {A = A})) cursor.old.rest.now)) }
{
    let mut values = SmallVec::new(alloc);
    values.push(value(alloc, cursor)?)?;
    while cursor.takes_sign(b',') {
        values.push(value(alloc, cursor)?)?;
    }
    Ok(values)
}

/// Reads the same values as a row. No value takes memory of its own, but for a blob and a text with a quote.
#[tactic(auto, unfolding(crate::specs::Forms::values))]
pub fn row<A: AllocHandle>(alloc: A, cursor: &mut Cursor<'_>) -> Result<Row<A>, LineFault>
    ensures reads { Reads result cursor.new.rest.now (read values cursor.old.rest.now) }
{
    cursor.sign(b'(')?;
    let builder = row_items(alloc, cursor)?;
    cursor.sign(b')')?;
    Ok(builder.finish()?)
}

fn row_items<A: AllocHandle>(alloc: A, cursor: &mut Cursor<'_>) -> Result<RowBuilder<A>, LineFault>
    ensures reads { Reads result cursor.new.rest.now
        (read (separated 44 (λ _. value)) cursor.old.rest.now) }
{
    let mut builder = RowBuilder::new(alloc);
    push_value(alloc, cursor, &mut builder)?;
    while cursor.takes_sign(b',') {
        push_value(alloc, cursor, &mut builder)?;
    }
    Ok(builder)
}

// Reads a value, the next token, and appends it.
#[tactic(auto, unfolding(crate::specs::Forms::value))]
fn push_value<A: AllocHandle>(
    alloc: A,
    cursor: &mut Cursor<'_>,
    builder: &mut RowBuilder<A>,
) -> Result<(), LineFault>
    ensures reads { MatchResult result
        (λ _. (x : Value A) × (read value cursor.old.rest.now ≡ Ok (x, cursor.new.rest.now))
        × (builder.new ≡ builder.old ++ x ∷ []))
        (λ fault. Fails fault (read (value {A = A}) cursor.old.rest.now)) }
{
    cursor.skip_spaces();
    push_here(alloc, cursor, builder)
}

// Reads the value that begins right here, and appends it.
fn push_here<A: AllocHandle>(
    alloc: A,
    cursor: &mut Cursor<'_>,
    builder: &mut RowBuilder<A>,
) -> Result<(), LineFault>
    ensures reads { MatchResult result
        (λ _. (x : Value A) × (value_here cursor.old.rest.now ≡ Ok (x, cursor.new.rest.now))
        × (builder.new ≡ builder.old ++ x ∷ []))
        (λ fault. Fails fault (value_here {A = A} cursor.old.rest.now)) }
{
    if let Some((text, rest)) = text_here::<A>(cursor.rest) {
        cursor.rest = rest;
        builder.push_text(text)?;
        return Ok(());
    }
    let value = value_here(alloc, cursor)?;
    builder.push(&value)?;
    Ok(())
}

// The text of at most so many bytes that begins right here, where it has no quote, and the rest behind it.
fn text_here<A: AllocHandle>(here: &str) -> Option<(&str, &str)>
    ensures { IfSome result (λ found. (value_here {A = A} here.now ≡ Ok (Text found.0.now, found.1.now))
        × (length found.0.now ≤ VALUE_BYTES_MAX)) }
{
    let Start::Quote = start_of(here.as_bytes()) else {
        return None;
    };
    match short_text(here) {
        Some((text, rest)) if text.len() <= VALUE_BYTES_MAX => Some((text, rest)),
        _ => None,
    }
}
