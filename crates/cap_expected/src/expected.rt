//! What a line may go on with.
ghost use Rattle.std.specs.Prelude.{◌≡◌, ◌++◌, IfOk, OnOk, length, string_bytes};
ghost use Rattle.std.specs.List.{flat_map};
ghost use Rattle.cap_expected.specs.Expected.{begun, expected_text, first_words, goes_on, is_stop, keywords};
ghost use Rattle.cap_expected.specs.Expected.{later_words, listed, literals, reads_on, signs_or_end};
ghost use Rattle.cap_expected.specs.Expected.{where_on, words_or_name};

use cap_language::after_blanks;
use cap_script::{COMMAND_WORDS, ScriptFault, read_line};
use cap_value::{AllocHandle, Fault, OutOfMemory};

const INNER_WORDS: [&str; 19] = [
    "to", "key", "loose", "set", "on", "off", "ask", "places", "report", "buffer", "null", "all",
    "nothing", "is", "starts", "ends", "not", "and", "or",
];

const SIGNS: [&str; 6] = ["(", ")", ",", ";", "=", "@"];

/// What may follow these first bytes of a line, as those before the token of a fault of syntax: `expected`,
/// and each behind a space. It is a word or a sign of the language, or `NAME`, `NUMBER`, `TEXT`, `BLOB` or
/// `END`. With each of them the line is read to its end, where it may go on. No word is listed where any name
/// is expected.
pub fn print_expected<A: AllocHandle>(alloc: A, front: &str) -> Result<String<A>, OutOfMemory>
    ensures { IfOk result (λ text. string_bytes text ≡ expected_text A front.now) }
{
    let before = begun(alloc, front)?;
    let mut text = String::from_str(alloc, "expected")?;
    list(alloc, before.as_str(), &mut text)?;
    Ok(text)
}

// The first bytes, with a space behind them, which may not follow `@`.
fn begun<A: AllocHandle>(alloc: A, front: &str) -> Result<String<A>, OutOfMemory>
    ensures { IfOk result (λ before. string_bytes before ≡ begun front.now) }
{
    let mut before = String::from_str(alloc, front)?;
    if after_blanks(front) != "@" {
        before.push_str(" ")?;
    }
    Ok(before)
}

#[tactic(auto, unfolding(crate::specs::Expected::listed))]
fn list<A: AllocHandle>(alloc: A, before: &str, out: &mut String<A>) -> Result<(), OutOfMemory>
    ensures { OnOk result (string_bytes out.new ≡ string_bytes out.old ++ listed A before.now) }
{
    list_words(alloc, before, out)?;
    list_literals(alloc, before, out)?;
    list_signs(alloc, before, out)
}

#[tactic(auto, unfolding(crate::specs::Expected::words_or_name))]
fn list_words<A: AllocHandle>(
    alloc: A,
    before: &str,
    out: &mut String<A>,
) -> Result<(), OutOfMemory>
    ensures { OnOk result (string_bytes out.new ≡ string_bytes out.old ++ words_or_name A before.now) }
{
    if goes_on(alloc, before, "name")? {
        out.push_str(" NAME")
    } else {
        list_keywords(alloc, before, out)
    }
}

#[tactic(auto, unfolding(crate::specs::Expected::keywords))]
fn list_keywords<A: AllocHandle>(
    alloc: A,
    before: &str,
    out: &mut String<A>,
) -> Result<(), OutOfMemory>
    ensures { OnOk result (string_bytes out.new ≡ string_bytes out.old ++ keywords A before.now) }
{
    list_first_words(alloc, before, out)?;
    list_later_words(alloc, before, out)
}

#[tactic(auto, unfolding(crate::specs::Expected::first_words))]
fn list_first_words<A: AllocHandle>(
    alloc: A,
    before: &str,
    out: &mut String<A>,
) -> Result<(), OutOfMemory>
    ensures { OnOk result (string_bytes out.new ≡ string_bytes out.old ++ first_words A before.now) }
{
    let words = COMMAND_WORDS;
    list_among(alloc, before, words.as_slice(), out)
}

#[tactic(auto, unfolding(crate::specs::Expected::later_words))]
fn list_later_words<A: AllocHandle>(
    alloc: A,
    before: &str,
    out: &mut String<A>,
) -> Result<(), OutOfMemory>
    ensures { OnOk result (string_bytes out.new ≡ string_bytes out.old ++ later_words A before.now) }
{
    let words: [&str; 19] = INNER_WORDS;
    list_among(alloc, before, words.as_slice(), out)
}

#[tactic(auto, unfolding(crate::specs::Expected::literals))]
fn list_literals<A: AllocHandle>(
    alloc: A,
    before: &str,
    out: &mut String<A>,
) -> Result<(), OutOfMemory>
    ensures { OnOk result (string_bytes out.new ≡ string_bytes out.old ++ literals A before.now) }
{
    list_where_on(alloc, before, "0", "NUMBER", out)?;
    list_where_on(alloc, before, "''", "TEXT", out)?;
    list_where_on(alloc, before, "x''", "BLOB", out)
}

#[tactic(auto, unfolding(crate::specs::Expected::signs_or_end))]
fn list_signs<A: AllocHandle>(
    alloc: A,
    before: &str,
    out: &mut String<A>,
) -> Result<(), OutOfMemory>
    ensures { OnOk result (string_bytes out.new ≡ string_bytes out.old ++ signs_or_end A before.now) }
{
    let signs: [&str; 6] = SIGNS;
    list_among(alloc, before, signs.as_slice(), out)?;
    list_where_on(alloc, before, "", "END", out)
}

// Lists those of these words or signs with which the line goes on.
fn list_among<A: AllocHandle>(
    alloc: A,
    before: &str,
    texts: &[&str],
    out: &mut String<A>,
) -> Result<(), OutOfMemory>
    ensures { OnOk result (string_bytes out.new ≡ string_bytes out.old
        ++ flat_map (λ word. where_on A before.now word.now word.now) texts.now) }
{
    for word in texts {
        list_where_on(alloc, before, word, word, out)?;
    }
    Ok(())
}

// Lists this name, where the line goes on with this text.
fn list_where_on<A: AllocHandle>(
    alloc: A,
    before: &str,
    text: &str,
    name: &str,
    out: &mut String<A>,
) -> Result<(), OutOfMemory>
    ensures { OnOk result (string_bytes out.new
        ≡ string_bytes out.old ++ where_on A before.now text.now name.now) }
{
    if goes_on(alloc, before, text)? {
        out.push_str(" ")?;
        out.push_str(name)
    } else {
        Ok(())
    }
}

// Whether a line that begins so goes on with this text.
#[tactic(auto, unfolding(crate::specs::Expected::goes_on))]
fn goes_on<A: AllocHandle>(alloc: A, before: &str, text: &str) -> Result<bool, OutOfMemory>
    ensures { IfOk result (λ on. on ≡ goes_on A before.now text.now) }
{
    let mut line = String::from_str(alloc, before)?;
    line.push_str(text)?;
    reads_on(alloc, text.is_empty(), line.as_str())
}

// Whether the line is none that is ignored, and is read to its end.
fn reads_on<A: AllocHandle>(alloc: A, whole: bool, line: &str) -> Result<bool, OutOfMemory>
    ensures { IfOk result (λ on. on ≡ reads_on A whole line.now) }
{
    cap_script::laws::a_line_without_fault::<A>();
    match read_line(alloc, 1, line) {
        Ok(Some(_)) => Ok(true),
        Ok(None) => Ok(false),
        Err(Fault::Refused(fault)) => Ok(!is_stop(whole, line.len(), fault)),
        Err(Fault::OutOfMemory) => Err(OutOfMemory),
    }
}

// Whether the line of this length is not read to its end: the fault is one of syntax before the end, or at it
// where the line is to be whole.
fn is_stop(whole: bool, len: usize, fault: ScriptFault) -> bool
    ensures { result ≡ is_stop whole len fault }
{
    match fault {
        ScriptFault::Syntax { at, .. } => whole || at != len as u64,
        _ => false,
    }
}
