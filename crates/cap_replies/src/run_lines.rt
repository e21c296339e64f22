//! An iterator over the lines of a run.
ghost use Rattle.std.specs.Prelude.{◌≡◌, ◌≤◌, ◌<◌, List, length, IfErr, IfOk, IfSome, MatchResult};
ghost use Rattle.cap_replies.specs.Lines.{IsLeft, SpellsLines, SpellsRun, TakesFirst, all_lines, begins_at};
ghost use Rattle.cap_replies.specs.declared.run_line.RunLine.{RunLine};
ghost use Rattle.cap_script.specs.FirstRefused.{FaultOfFirstRefused, SpellsWithin};
ghost use Rattle.cap_script.specs.RefusedLines.{NoLines};

use crate::numbers::Numbers;
use crate::{ReplyForm, RunLine};
use cap_script::{Lines, ScriptFault};
use cap_value::{AllocHandle, Fault, OutOfMemory};
use std::marker::Model;

/// The remaining lines of a workload's text, each with its number and the form of its reply.
///
/// The whole text is parsed before the first line is given, so every line is valid. The first lines of a short
/// text are kept until they are given, as `Lines` of `cap_script` has it.
#[derive(Drop)]
pub struct RunLines<'t, A: AllocHandle> {
    form: ReplyForm,
    lines: Lines<'t, A>,
    numbers: Numbers<'t>,
}

impl<'t, A: AllocHandle> Model for RunLines<'t, A> {
    ghost use Rattle.cap_replies.specs.Lines.{LinesLeft};

    ghost Value = { LinesLeft };

    ghost view = { λ l. record {
      form = l.form;
      text = l.lines;
      number = l.numbers.number;
      rest = l.numbers.rest.now;
    } };
}

impl<'t, A: AllocHandle> RunLines<'t, A> {
    /// The lines of this text, after all of it is parsed once.
    ///
    /// Refused with the first fault by line, and within a line by offset.
    pub fn new(alloc: A, form: ReplyForm, text: &'t str) -> Result<Self, Fault<ScriptFault>>
        // All of the text remains, and it spells some lines, which are within the limits.
        ensures whole { IfOk result (λ left. left ≡ all_lines form text.now) }
        ensures spelled { IfOk result (λ left. (lines : List (RunLine A)) × SpellsLines form lines text.now) }
        ensures within { IfOk result (λ left. SpellsWithin A text.now) }
        // A text that spells lines within the limits is not refused.
        ensures none { IfErr result (λ fault. NoLines A fault text.now) }
        // A fault is that of the first line that is neither ignored nor a command within the limits.
        ensures first { IfErr result (λ fault. FaultOfFirstRefused A 1 fault text.now) }
    {
        let lines = Lines::new(alloc, text)?;
        Ok(RunLines {
            form,
            lines,
            numbers: Numbers::new(text),
        })
    }

    /// The next line, or none after the last. Where memory runs out, the line is still the next.
    #[tactic(auto, using(crate::proofs::NumberLemmas::numbered_some))]
    pub fn next_line(&mut self) -> Result<Option<RunLine<A>>, OutOfMemory>
        // The first of the lines that are left.
        ensures next { (lines : List (RunLine A)) → SpellsRun lines self.old
            → MatchResult result (λ found. TakesFirst found lines self.new) (λ none. IsLeft lines self.new) }
        ensures left { IfOk result (λ found.
            IfSome found (λ line. length self.new.text < length self.old.text)) }
    {
        match self.lines.next_line() {
            Ok(Some(line)) => Ok(Some(RunLine {
                form: self.form,
                number: self.numbers.next_number(),
                line,
            })),
            Ok(None) => Ok(None),
            Err(OutOfMemory) => Err(OutOfMemory),
        }
    }

    /// Whether the next line begins with `@`.
    pub fn begins_at(&mut self) -> bool
        ensures next { (lines : List (RunLine A)) → SpellsRun lines self.old
            → (result ≡ begins_at lines) × SpellsRun lines self.new }
        ensures left { length self.new.text ≤ length self.old.text }
    {
        self.lines.begins_at()
    }
}
