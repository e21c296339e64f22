//! Filters: which names one accepts, its size and its text.
ghost use Rattle.std.specs.Prelude.{◌≡◌, ◌+◌, ◌<◌, ◌≤◌, ◌⊎◌, ◌++◌, ◌∷◌, [], map, MatchOption, IfOk, OnErr};
ghost use Rattle.std.specs.Prelude.{OnOk, string_bytes};
ghost use mathlib.Core.List.{IsPrefix};
ghost use Rattle.cap_filter.specs.Printed.{double_quotes, quote, quoted};

use crate::Word;
use crate::token::split_at_quote;
use cap_value::{AllocHandle, OutOfMemory};

/// A set of names.
#[derive(Drop)]
pub enum Filter<A: AllocHandle> {
    /// Every name.
    All,
    /// No name.
    Nothing,
    /// This name alone.
    Is(Word<A>),
    /// The names that begin with the word's bytes.
    StartsWith(Word<A>),
    /// The names that end with the word's bytes.
    EndsWith(Word<A>),
    /// The names that the filter does not accept.
    Not(Box<Filter<A>, A>),
    /// The names that every one of the filters accepts: every name where the list is empty.
    And(Vec<Filter<A>, A>),
    /// The names that one of the filters accepts: no name where the list is empty.
    Or(Vec<Filter<A>, A>),
}

impl<A: AllocHandle> Filter<A> {
    ghost use Rattle.cap_filter.specs.Plain.{rule_of, rules};
    ghost use Rattle.cap_filter.specs.Accepts.{accepts, all_accept, any_accepts};
    ghost use Rattle.cap_filter.specs.Limits.{depth, nodes, depth_of_all, nodes_of_all};
    ghost use Rattle.cap_filter.specs.Printed.{filter_text, members_text};

    #[cycle(accepts)]
    pub(crate) fn accepts(&self, name: &[u8]) -> bool
        ensures { result ≡ accepts (rule_of self.now) name.now }
    {
        match self {
            Filter::All => true,
            Filter::Nothing => false,
            Filter::Is(word) => name == word.as_str().as_bytes(),
            Filter::StartsWith(word) => name.starts_with(word.as_str().as_bytes()),
            Filter::EndsWith(word) => name.ends_with(word.as_str().as_bytes()),
            Filter::Not(filter) => !filter.accepts(name),
            Filter::And(filters) => Self::all_accept(filters, name),
            Filter::Or(filters) => Self::any_accepts(filters, name),
        }
    }

    #[cycle(accepts)]
    fn all_accept(filters: &[Self], name: &[u8]) -> bool
        ensures { result ≡ all_accept (rules (map rule_of filters.now)) name.now }
    {
        for filter in filters {
            if !filter.accepts(name) {
                return false;
            }
        }
        true
    }

    #[cycle(accepts)]
    fn any_accepts(filters: &[Self], name: &[u8]) -> bool
        ensures { result ≡ any_accepts (rules (map rule_of filters.now)) name.now }
    {
        for filter in filters {
            if filter.accepts(name) {
                return true;
            }
        }
        false
    }

    // How many of `room` filters are left after this one and those inside it. `None` where they are more than
    // `room`, or have more than `levels` levels. The recursion goes no deeper than that.
    #[cycle(left)]
    pub(crate) fn room_left(&self, levels: u32, room: u32) -> Option<u32>
        ensures { MatchOption result
            ((levels < depth (rule_of self.now)) ⊎ (room < nodes (rule_of self.now)))
            (λ left. (depth (rule_of self.now) ≤ levels) × (left + nodes (rule_of self.now) ≡ room)) }
    {
        let levels = levels.checked_sub(1)?;
        let room = room.checked_sub(1)?;
        match self {
            Filter::Not(filter) => filter.room_left(levels, room),
            Filter::And(filters) => Self::room_left_by_all(filters, levels, room),
            Filter::Or(filters) => Self::room_left_by_all(filters, levels, room),
            _ => Some(room),
        }
    }

    #[cycle(left)]
    fn room_left_by_all(filters: &[Self], levels: u32, room: u32) -> Option<u32>
        ensures { MatchOption result
            ((levels < depth_of_all (rules (map rule_of filters.now)))
            ⊎ (room < nodes_of_all (rules (map rule_of filters.now))))
            (λ left. (depth_of_all (rules (map rule_of filters.now)) ≤ levels)
            × (left + nodes_of_all (rules (map rule_of filters.now)) ≡ room)) }
    {
        let mut left = room;
        for filter in filters {
            left = filter.room_left(levels, left)?;
        }
        Some(left)
    }

    // A copy of the filter, whose words share their bytes.
    #[cycle(copy)]
    pub(crate) fn copy(&self) -> Result<Self, OutOfMemory>
        ensures { IfOk result (λ copy. rule_of copy ≡ rule_of self.now) }
    {
        match self {
            Filter::All => Ok(Filter::All),
            Filter::Nothing => Ok(Filter::Nothing),
            Filter::Is(word) => Ok(Filter::Is(word.copy()?)),
            Filter::StartsWith(word) => Ok(Filter::StartsWith(word.copy()?)),
            Filter::EndsWith(word) => Ok(Filter::EndsWith(word.copy()?)),
            Filter::Not(filter) => {
                let copy = filter.copy()?;
                Ok(Filter::Not(Box::new(*Box::allocator(filter), copy)?))
            }
            Filter::And(filters) => Ok(Filter::And(Self::copy_all(*filters.allocator(), filters)?)),
            Filter::Or(filters) => Ok(Filter::Or(Self::copy_all(*filters.allocator(), filters)?)),
        }
    }

    #[cycle(copy)]
    fn copy_all(alloc: A, filters: &[Self]) -> Result<Vec<Self, A>, OutOfMemory>
        ensures { IfOk result (λ copies. map rule_of copies.items ≡ map rule_of filters.now) }
    {
        let mut copies = Vec::with_capacity(alloc, filters.len())?;
        for filter in filters {
            copies.push(filter.copy()?)?;
        }
        Ok(copies)
    }

    // Appends the filter's text to `out`.
    #[cycle(write)]
    pub(crate) fn write(&self, out: &mut String<A>) -> Result<(), OutOfMemory>
        ensures { OnOk result
            (string_bytes out.new ≡ string_bytes out.old ++ filter_text (rule_of self.now)) }
    {
        match self {
            Filter::All => out.push_str("all"),
            Filter::Nothing => out.push_str("nothing"),
            Filter::Is(word) => {
                out.push_str("is ")?;
                write_quoted(word.as_str(), out)
            }
            Filter::StartsWith(word) => {
                out.push_str("starts ")?;
                write_quoted(word.as_str(), out)
            }
            Filter::EndsWith(word) => {
                out.push_str("ends ")?;
                write_quoted(word.as_str(), out)
            }
            Filter::Not(filter) => {
                out.push_str("not ")?;
                filter.write(out)
            }
            Filter::And(filters) => {
                out.push_str("and(")?;
                Self::write_list(filters, out)?;
                out.push_str(")")?;
                Ok(())
            }
            Filter::Or(filters) => {
                out.push_str("or(")?;
                Self::write_list(filters, out)?;
                out.push_str(")")?;
                Ok(())
            }
        }
    }

    #[cycle(write)]
    fn write_list(filters: &[Self], out: &mut String<A>) -> Result<(), OutOfMemory>
        ensures { OnOk result
            (string_bytes out.new ≡ string_bytes out.old ++ members_text (rules (map rule_of filters.now))) }
    {
        let Some((first, rest)) = filters.split_first() else {
            return Ok(());
        };
        first.write(out)?;
        for filter in rest {
            out.push_str(",")?;
            filter.write(out)?;
        }
        Ok(())
    }
}

/// Appends the word in quotes to `out`, with each quote in it doubled. On an error `out` is as before.
pub fn write_quoted<A: AllocHandle>(word: &str, out: &mut String<A>) -> Result<(), OutOfMemory>
    ensures text { OnOk result (string_bytes out.new ≡ string_bytes out.old ++ quoted word.now) }
    ensures kept { OnErr result (string_bytes out.new ≡ string_bytes out.old) }
{
    let before = out.len();
    out.push_str("'")?;
    match write_doubled(word, out) {
        Ok(()) => Ok(()),
        Err(_) => {
            out.truncate(before);
            Err(OutOfMemory)
        }
    }
}

// Writes the word with each quote in it doubled, and the quote behind it.
fn write_doubled<A: AllocHandle>(word: &str, out: &mut String<A>) -> Result<(), OutOfMemory>
    ensures text { OnOk result (string_bytes out.new
        ≡ string_bytes out.old ++ double_quotes word.now ++ quote ∷ []) }
    ensures begins { OnErr result (IsPrefix (string_bytes out.old) (string_bytes out.new)) }
{
    let mut rest = word;
    while let Some((piece, after)) = split_at_quote(rest) {
        out.push_str(piece)?;
        out.push_str("''")?;
        rest = after;
    }
    out.push_str(rest)?;
    out.push_str("'")?;
    Ok(())
}
