//! The part of a workload's text that is left to parse.
ghost use Rattle.std.specs.Prelude.{◌≡◌, ◌+◌, ◌≤◌, ◌<◌, ◌^◌, ◌++◌, ◌∷◌, Bool, List, [], false, length};
ghost use Rattle.std.specs.Prelude.{IfOk, IfErr, IfSome, MatchOption, MatchResult};
ghost use Rattle.cap_script.specs.FirstRefused.{IsFirstRefused, FaultOfFirstRefused, SpellsWithin};
ghost use Rattle.cap_script.specs.RefusedLines.{NoLines};
ghost use Rattle.cap_script.specs.Script.{IsCut, IsLeftBy, IsRead, ScriptSpelled, TakesFirstBy};
ghost use Rattle.cap_script.specs.Script.{has_line_feed, is_ignored};
ghost use Rattle.cap_script.specs.declared.fault.ScriptFault.{ScriptFault};
ghost use Rattle.cap_script.specs.declared.line.Line.{Line};

use crate::ScriptFault;
use crate::fault::in_line;
use crate::line::{Line, is_ignored};
use cap_value::{AllocHandle, Fault};

// What is left of a workload's text.
#[derive(Drop)]
pub(crate) struct Rest<'t> {
    text: &'t str,
    // The number of the first line that is left.
    number: u64,
    ghost few: { number + length text.now ≤ 2 ^ 63 },
}

impl<'t> Rest<'t> {
    // The whole text, none of which is parsed.
    pub(crate) fn new(text: &'t str) -> Self
        ensures text { result.text.now ≡ text.now }
        ensures number { result.number ≡ 1 }
    {
        Rest { text, number: 1 }
    }

    // The next line, or none after the last. A refused line is still the next.
    pub(crate) fn read<A: AllocHandle>(
        &mut self,
        alloc: A,
    ) -> Result<Option<Line<A>>, Fault<ScriptFault>>
        ensures read { IfOk result (λ found. (limits : Bool)
            → IsRead limits found self.old.text.now self.new.text.now) }
        ensures none { IfErr result (λ fault. NoLines A fault self.old.text.now) }
        ensures first { IfErr result (λ fault.
            FaultOfFirstRefused A self.old.number fault self.old.text.now) }
        ensures later { IfOk result (λ found. IfSome found (λ line. (fault : ScriptFault)
            → IsFirstRefused A self.new.number fault self.new.text.now
            → IsFirstRefused A self.old.number fault self.old.text.now)) }
        ensures next { (limits : Bool) (lines : List (Line A)) → ScriptSpelled limits lines self.old.text.now
            → MatchResult result
            (λ found. TakesFirstBy limits found lines self.new.text.now)
            (λ fault. IsLeftBy limits lines self.new.text.now) }
        ensures kept { SpellsWithin A self.old.text.now → SpellsWithin A self.new.text.now }
        ensures left { IfOk result (λ found. IfSome found (λ line.
            length self.new.text.now < length self.old.text.now)) }
    {
        cap_filter::laws::one_filter();
        let Some((text, behind)) = self.next_text::<A>() else {
            return Ok(None);
        };
        match Line::parse(alloc, text) {
            Ok(line) => {
                self.text = behind;
                self.number += 1;
                Ok(Some(line))
            }
            Err(fault) => Err(in_line(fault, self.number, text)),
        }
    }

    // Goes past the next line, which is there.
    pub(crate) fn pass<A: AllocHandle>(&mut self)
        ensures others { (limits : Bool) (line : Line A) (others : List (Line A))
            → ScriptSpelled limits (line ∷ others) self.old.text.now
            → ScriptSpelled limits others self.new.text.now }
        ensures left { (limits : Bool) (line : Line A) (others : List (Line A))
            → ScriptSpelled limits (line ∷ others) self.old.text.now
            → length self.new.text.now < length self.old.text.now }
    {
        if let Some((_, behind)) = self.next_text::<A>() {
            self.text = behind;
            self.number += 1;
        }
    }

    // Skips ignored lines. The text of the next line, and the text after it.
    pub(crate) fn next_text<A: AllocHandle>(&mut self) -> Option<(&'t str, &'t str)>
        ensures here { MatchOption result (self.new.text.now ≡ [])
            (λ parts. IsCut self.new.text.now parts.0.now parts.1.now × (is_ignored parts.0.now ≡ false)) }
        ensures passed { (limits : Bool) (lines : List (Line A))
            → ScriptSpelled limits lines self.old.text.now → ScriptSpelled limits lines self.new.text.now }
        ensures back { (limits : Bool) (lines : List (Line A))
            → ScriptSpelled limits lines self.new.text.now → ScriptSpelled limits lines self.old.text.now }
        ensures first { (fault : ScriptFault) → IsFirstRefused A self.new.number fault self.new.text.now
            → IsFirstRefused A self.old.number fault self.old.text.now }
        ensures left { length self.new.text.now ≤ length self.old.text.now }
    {
        while !self.text.is_empty() {
            let (line, behind) = first_line(self.text);
            if !is_ignored(line) {
                return Some((line, behind));
            }
            self.text = behind;
            self.number += 1;
        }
        None
    }
}

// The first line of the text, and the text after it.
fn first_line(text: &str) -> (&str, &str)
    ensures { IsCut text.now result.0.now result.1.now }
{
    match split_line(text) {
        Some(parts) => parts,
        None => (text, ""),
    }
}

// The text before the first line feed, and the text after it.
fn split_line(text: &str) -> Option<(&str, &str)>
    ensures { MatchOption result (has_line_feed text.now ≡ false)
        (λ parts. (text.now ≡ parts.0.now ++ 10 ∷ parts.1.now) × (has_line_feed parts.0.now ≡ false)) }
{
    text.split_once('\n')
}
