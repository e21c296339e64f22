//! An iterator over the lines of a workload.
ghost use Rattle.std.specs.Prelude.{◌≡◌, ◌==◌, ◌≤◌, ◌<◌, ◌++◌, ◌∷◌, [], List, length, nat_lt, if◌then◌else◌};
ghost use Rattle.std.specs.Prelude.{IfOk, IfErr, IfSome, MatchResult, OnOk};
ghost use Rattle.cap_language.specs.Tokens.{begins};
ghost use Rattle.cap_script.specs.FirstRefused.{FaultOfFirstRefused, SpellsWithin};
ghost use Rattle.cap_script.specs.Kept.{kept_with};
ghost use Rattle.cap_script.specs.RefusedLines.{NoLines};
ghost use Rattle.cap_script.specs.Script.{IsLeft, SpellsScript, TakesFirst, begins_at};
ghost use Rattle.cap_script.specs.declared.line.Line.{Line};

use crate::ScriptFault;
use crate::line::Line;
use crate::rest::Rest;
use cap_language::after_blanks;
use cap_value::{AllocHandle, Fault, OutOfMemory};
use std::collections::VecDeque;
use std::marker::Model;

// The most lines that are kept, and the most bytes of a text whose lines are.
const KEPT_LINES_MAX: usize = 1 << 16;

const KEPT_TEXT_MAX: usize = 1 << 22;

/// The remaining lines of a workload's text.
///
/// The whole text is parsed before the first line is given, so every line is valid. Of a text of at most 4 MiB
/// the first 65,536 lines are kept until they are given. Each other line is parsed again when it is given.
#[derive(Drop)]
pub struct Lines<'t, A: AllocHandle> {
    alloc: A,
    rest: Rest<'t>,
    // The first of the remaining lines, as they were parsed.
    kept: VecDeque<Line<A>, A>,
}

impl<'t, A: AllocHandle> Model for Lines<'t, A> {
    ghost use Rattle.std.specs.Prelude.{ℕ, List};
    ghost use Rattle.cap_script.specs.Kept.{SpellsKept};

    ghost Value = { List ℕ };

    ghost view = { λ l. l.rest.text.now };

    // The rest spells lines within the limits, first those that are kept.
    ghost invariant = { λ l. ∥ SpellsKept l.kept.items l.rest.text.now ∥₁ };
}

impl<'t, A: AllocHandle> Lines<'t, A> {
    /// The lines of this text, after all of it is parsed once.
    ///
    /// Refused with the first fault by line, and within a line by offset. At one token `Syntax` comes before
    /// `Limit`, and `Limit` before `BadBlob`.
    pub fn new(alloc: A, text: &'t str) -> Result<Self, Fault<ScriptFault>>
        // All of the text remains, and it spells some lines, which are within the limits.
        ensures whole { IfOk result (λ rest. rest ≡ text.now) }
        ensures spelled { IfOk result (λ rest. (lines : List (Line A)) × SpellsScript lines text.now) }
        ensures within { IfOk result (λ rest. SpellsWithin A text.now) }
        // A text that spells lines within the limits is not refused.
        ensures none { IfErr result (λ fault. NoLines A fault text.now) }
        // A fault is that of the first line that is neither ignored nor a command within the limits.
        ensures first { IfErr result (λ fault. FaultOfFirstRefused A 1 fault text.now) }
    {
        let mut rest = Rest::new(text);
        let mut kept = VecDeque::new(alloc);
        let most = kept_most(text);
        while let Some(line) = rest.read(alloc)? {
            keep(&mut kept, most, line)?;
        }
        Ok(Lines {
            alloc,
            rest: Rest::new(text),
            kept,
        })
    }

    /// The next line, or none after the last. Where memory runs out, the line is still the next.
    pub fn next_line(&mut self) -> Result<Option<Line<A>>, OutOfMemory>
        // The first of the lines that the text spells.
        ensures next { (lines : List (Line A)) → SpellsScript lines self.old
            → MatchResult result (λ found. TakesFirst found lines self.new) (λ none. IsLeft lines self.new) }
        ensures left { IfOk result (λ found. IfSome found (λ line. length self.new < length self.old)) }
    {
        cap_filter::laws::one_filter();
        if let Some(line) = self.kept.pop_front() {
            self.rest.pass::<A>();
            return Ok(Some(line));
        }
        match self.rest.read(self.alloc) {
            Ok(found) => return Ok(found),
            Err(Fault::OutOfMemory) => return Err(OutOfMemory),
            Err(Fault::Refused(_)) => unreachable!(),
        }
    }

    /// Whether the next line begins with `@`.
    pub fn begins_at(&mut self) -> bool
        ensures next { (lines : List (Line A)) → SpellsScript lines self.old
            → (result ≡ begins_at lines) × SpellsScript lines self.new }
        ensures left { length self.new ≤ length self.old }
    {
        let Some((text, _)) = self.rest.next_text::<A>() else {
            return false;
        };
        begins_worker(after_blanks(text))
    }
}

// How many lines of the text are kept.
fn kept_most(text: &str) -> usize {
    if text.len() <= KEPT_TEXT_MAX {
        KEPT_LINES_MAX
    } else {
        0
    }
}

// Keeps the line, where fewer than the most are kept.
fn keep<A: AllocHandle>(
    kept: &mut VecDeque<Line<A>, A>,
    most: usize,
    line: Line<A>,
) -> Result<(), Fault<ScriptFault>>
    ensures kept { OnOk result (kept.new.items ≡ kept_with most kept.old.items line) }
    ensures memory { IfErr result (λ fault. fault ≡ Fault.OutOfMemory) }
{
    if kept.len() >= most {
        return Ok(());
    }
    Ok(kept.push_back(line).map_err(OutOfMemory::from)?)
}

// Whether the text begins with `@`.
fn begins_worker(text: &str) -> bool
    ensures { result ≡ begins (λ byte. byte == 64) text.now }
{
    text.as_bytes().first() == Some(&b'@')
}
