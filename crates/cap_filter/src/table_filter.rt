//! Filters within the limits, and their text.
ghost use Rattle.std.specs.Prelude.{◌≡◌, ◌↔◌, IfOk, IfErr, IsOk, IsTrue, Ok, string_bytes};

use crate::reading::{read_whole, refusal};
use crate::{DEPTH_MAX, Filter, NODES_MAX};
use cap_value::{AllocHandle, Fault, Name, OutOfMemory, Refusal};
use std::marker::Model;

/// A filter within the limits: at most `DEPTH_MAX` levels and `NODES_MAX` filters in all.
#[derive(Drop)]
pub struct TableFilter<A: AllocHandle> {
    filter: Filter<A>,
}

impl<A: AllocHandle> Model for TableFilter<A> {
    ghost use Rattle.std.specs.Prelude.{IsTrue};
    ghost use Rattle.cap_filter.specs.Rule.{Rule, coded_rule};

    ghost Value = { Rule };

    ghost coded = { coded_rule };

    ghost use Rattle.cap_filter.specs.Limits.{is_within_limits};
    ghost use Rattle.cap_filter.specs.Plain.{rule_of};

    ghost view = { λ t. rule_of t.filter };

    ghost invariant = { λ t. IsTrue (is_within_limits (rule_of t.filter)) };
}

impl<A: AllocHandle> TableFilter<A> {
    ghost use Rattle.cap_value.specs.Memory.{AnswersUnlessMemory};
    ghost use Rattle.cap_filter.specs.Plain.{rule_of};
    ghost use Rattle.cap_filter.specs.Grammar.{Spells};
    ghost use Rattle.cap_filter.specs.Reading.{filter_of};
    ghost use Rattle.cap_filter.specs.Rule.{Rule};
    ghost use Rattle.cap_filter.specs.Accepts.{accepts};
    ghost use Rattle.cap_filter.specs.Limits.{is_within_limits};
    ghost use Rattle.cap_filter.specs.Printed.{filter_text};

    /// Checks the limits. Where the filter exceeds one, it is handed back with `TooDeep`. Takes no memory.
    pub fn new(filter: Filter<A>) -> Result<Self, (Filter<A>, Refusal)>
        ensures kept { IfOk result (λ made. made ≡ rule_of filter) }
        ensures within { IsOk result ↔ IsTrue (is_within_limits (rule_of filter)) }
        ensures handed_back { IfErr result
            (λ refused. (refused.0 ≡ filter) × (refused.1 ≡ Refusal.TooDeep)) }
    {
        if filter.room_left(DEPTH_MAX, NODES_MAX).is_none() {
            return Err((filter, Refusal::TooDeep));
        }
        Ok(TableFilter { filter })
    }

    /// The filter that the text spells. Refused with `BadFilter` where a token does not fit or the text ends
    /// too early, and with `TooDeep` where a filter exceeds a limit: whichever comes first in the text.
    pub fn parse(alloc: A, text: &str) -> Result<Self, Fault<Refusal>>
        // Which filter, or which refusal and where.
        ensures reading { AnswersUnlessMemory result (filter_of text.now) }
        // The text spells the filter.
        ensures found { IfOk result (λ filter. Spells text.now filter) }
        // A filter within the limits that the text spells is the answer.
        ensures only { (r : Rule) → Spells text.now r → IsTrue (is_within_limits r) →
            AnswersUnlessMemory result (Ok r) }
        ensures within { IfOk result (λ filter. IsTrue (is_within_limits filter)) }
    {
        Self::read(alloc, text)
    }

    fn read(alloc: A, text: &str) -> Result<Self, Fault<Refusal>>
        ensures reading { AnswersUnlessMemory result (filter_of text.now) }
        ensures within { IfOk result (λ filter. IsTrue (is_within_limits filter)) }
    {
        match read_whole(alloc, text) {
            Ok(filter) => Ok(TableFilter { filter }),
            Err(Fault::Refused(stop)) => Err(Fault::Refused(refusal(text, stop))),
            Err(Fault::OutOfMemory) => Err(Fault::OutOfMemory),
        }
    }

    /// Whether the filter accepts the name.
    pub fn accepts(&self, name: &Name<A>) -> bool
        ensures answer { result ≡ accepts self.now name.now }
        // So the recursion goes no deeper than the limit, here and in the calls below.
        ensures within { IsTrue (is_within_limits self.now) }
    {
        self.filter.accepts(name.as_str().as_bytes())
    }

    /// The filter's text, which parses to the same filter: each word quoted, one space after `is`, `starts`,
    /// `ends` and `not`, and no other space.
    pub fn print(&self, alloc: A) -> Result<String<A>, OutOfMemory>
        ensures { IfOk result (λ text. string_bytes text ≡ filter_text self.now) }
    {
        let mut text = String::new(alloc);
        self.filter.write(&mut text)?;
        Ok(text)
    }

    /// A copy, whose words share their bytes.
    pub fn copy(&self) -> Result<Self, OutOfMemory>
        ensures { IfOk result (λ copy. copy ≡ self.now) }
    {
        Ok(TableFilter {
            filter: self.filter.copy()?,
        })
    }
}
