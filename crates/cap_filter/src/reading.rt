//! The parser of a filter's text.
ghost use Rattle.std.specs.Prelude.{◌≡◌, ◌+◌, ◌≤◌, ℕ, Bool, List, [], Result, Ok, option_map, map, length};
ghost use Rattle.std.specs.Prelude.{IfOk, OnOk, IsTrue, ◌++◌, ◌∷◌};
ghost use Rattle.cap_filter.specs.Limits.{is_within_limits, depth, nodes, depth_of_all, nodes_of_all};
ghost use Rattle.cap_filter.specs.Plain.{rule_of, rules};
ghost use Rattle.cap_value.specs.Memory.{LeadsUnlessMemory};
ghost use Rattle.cap_filter.specs.Reading.{Frame, run, a_filter, a_list, behind_filter, list_of, keyword_of};
ghost use Rattle.cap_filter.specs.Reading.{keyword_at, text_at, opening_at, closing_at, separator_at, end_at};
ghost use Rattle.cap_filter.specs.Reading.{refusal};
ghost use Rattle.cap_filter.specs.Tokens.{tokens_of, tokens_from, inside};

use crate::token::{Token, after, next_token, split_at_quote};
use crate::{DEPTH_MAX, Filter, NODES_MAX, Word};
use cap_value::{AllocHandle, Fault, OutOfMemory, Refusal};

// The words that filters begin with.
#[derive(Clone, Copy)]
pub(crate) enum Keyword {
    All,
    Nothing,
    Is,
    Starts,
    Ends,
    Not,
    And,
    Or,
}

// Why a text is refused.
#[derive(Clone, Copy, Drop)]
pub(crate) enum Stop {
    // A token does not fit. From its first byte to the end of the text there are this many bytes.
    Unfit(usize),
    // A filter exceeds a limit.
    Deep,
}

// What was parsed, the text behind it, and how many filters may still follow.
#[derive(Drop)]
pub(crate) struct Parsed<'a, T> {
    pub(crate) value: T,
    pub(crate) rest: &'a str,
    pub(crate) room: u32,
}

impl<'a, T> Parsed<'a, T> {
    fn of(value: T, rest: &'a str, room: u32) -> Self
        ensures value { result.value ≡ value }
        ensures rest { result.rest.now ≡ rest.now }
        ensures room { result.room ≡ room }
    {
        Parsed { value, rest, room }
    }
}

#[tactic(auto, unfolding(crate::specs::Reading::keyword_of))]
fn keyword_of(word: &str) -> Option<Keyword>
    ensures { result ≡ keyword_of word.now }
{
    if word == "all" {
        Some(Keyword::All)
    } else if word == "nothing" {
        Some(Keyword::Nothing)
    } else if word == "is" {
        Some(Keyword::Is)
    } else if word == "starts" {
        Some(Keyword::Starts)
    } else if word == "ends" {
        Some(Keyword::Ends)
    } else if word == "not" {
        Some(Keyword::Not)
    } else if word == "and" {
        Some(Keyword::And)
    } else if word == "or" {
        Some(Keyword::Or)
    } else {
        None
    }
}

// The keyword that the text begins with, and the text behind it.
fn read_keyword(text: &str) -> Result<(Keyword, &str), Fault<Stop>>
    ensures { LeadsUnlessMemory (λ x. Ok (x.0, tokens_of x.1.now)) result (keyword_at (tokens_of text.now)) }
{
    let read = next_token(text);
    match read.token {
        Token::Word(word) => match keyword_of(word) {
            Some(keyword) => Ok((keyword, read.rest)),
            None => Err(Fault::Refused(Stop::Unfit(read.left))),
        },
        _ => Err(Fault::Refused(Stop::Unfit(read.left))),
    }
}

// The word or quoted text that the text begins with, and the text behind it.
fn read_text<A: AllocHandle>(alloc: A, text: &str) -> Result<(Word<A>, &str), Fault<Stop>>
    ensures { LeadsUnlessMemory (λ x. Ok (x.0, tokens_of x.1.now)) result (text_at (tokens_of text.now)) }
{
    let read = next_token(text);
    match read.token {
        Token::Word(word) => Ok((Word::new(alloc, word)?, read.rest)),
        Token::Quote => read_quoted(alloc, read.left, read.rest),
        _ => Err(Fault::Refused(Stop::Unfit(read.left))),
    }
}

// The quoted text behind its first quote, and the text behind it. From that quote on there are `left` bytes.
fn read_quoted<A: AllocHandle>(
    alloc: A,
    left: usize,
    text: &str,
) -> Result<(Word<A>, &str), Fault<Stop>>
    ensures { LeadsUnlessMemory (λ x. Ok (x.0, tokens_of x.1.now)) result
        (text_at (tokens_from (inside left []) text.now)) }
{
    let mut word = String::new(alloc);
    let mut rest = text;
    while let Some((piece, behind)) = split_at_quote(rest) {
        word.push_str(piece)?;
        let Some(more) = after(behind, '\'') else {
            return Ok((Word::new(alloc, word.as_str())?, behind));
        };
        word.push_str("'")?;
        rest = more;
    }
    Err(Fault::Refused(Stop::Unfit(left)))
}

// The text behind its opening parenthesis.
fn read_opening(text: &str) -> Result<&str, Fault<Stop>>
    ensures { LeadsUnlessMemory (λ rest. Ok (tokens_of rest.now)) result (opening_at (tokens_of text.now)) }
{
    let read = next_token(text);
    match read.token {
        Token::Opening => Ok(read.rest),
        _ => Err(Fault::Refused(Stop::Unfit(read.left))),
    }
}

// The text behind its closing parenthesis, where it begins with one.
fn after_closing(text: &str) -> Option<&str>
    ensures { option_map (λ rest. tokens_of rest.now) result ≡ closing_at (tokens_of text.now) }
{
    let read = next_token(text);
    match read.token {
        Token::Closing => Some(read.rest),
        _ => None,
    }
}

// Whether a list continues, by a comma, or ends, by a closing parenthesis, and the text behind that.
fn read_separator(text: &str) -> Result<(bool, &str), Fault<Stop>>
    ensures { LeadsUnlessMemory (λ x. Ok (x.0, tokens_of x.1.now)) result
        (separator_at (tokens_of text.now)) }
{
    let read = next_token(text);
    match read.token {
        Token::Comma => Ok((true, read.rest)),
        Token::Closing => Ok((false, read.rest)),
        _ => Err(Fault::Refused(Stop::Unfit(read.left))),
    }
}

// Accepts the end of the text.
fn read_end(text: &str) -> Result<(), Fault<Stop>>
    ensures { LeadsUnlessMemory (λ x. Ok x) result (end_at (tokens_of text.now)) }
{
    let read = next_token(text);
    match read.token {
        Token::End => Ok(()),
        _ => Err(Fault::Refused(Stop::Unfit(read.left))),
    }
}

// The filter that the whole text spells.
pub(crate) fn read_whole<A: AllocHandle>(alloc: A, text: &str) -> Result<Filter<A>, Fault<Stop>>
    ensures reads { LeadsUnlessMemory (λ filter. Ok (rule_of filter)) result
        (run (a_filter []) 1000 (tokens_of text.now)) }
    ensures limits { IfOk result (λ filter. IsTrue (is_within_limits (rule_of filter))) }
{
    let Parsed { value, rest, .. } = read_filter(alloc, text, DEPTH_MAX, NODES_MAX)?;
    read_end(rest)?;
    Ok(value)
}

// The refusal for a stop.
pub(crate) fn refusal(text: &str, stop: Stop) -> Refusal
    ensures { result ≡ refusal text.now stop }
{
    match stop {
        Stop::Unfit(left) => Refusal::BadFilter {
            at: text.len().saturating_sub(left) as u64,
        },
        Stop::Deep => Refusal::TooDeep,
    }
}

// The filter that the text begins with. It has at most `levels` levels, and the recursion goes no deeper.
#[cycle(filter)]
pub(crate) fn read_filter<'a, A: AllocHandle>(
    alloc: A,
    text: &'a str,
    levels: u32,
    room: u32,
) -> Result<Parsed<'a, Filter<A>>, Fault<Stop>>
    ensures reads { (frames : List Frame) → length frames + levels ≡ 32 →
        LeadsUnlessMemory
        (λ p. run (behind_filter (rule_of p.value) frames) p.room (tokens_of p.rest.now)) result
        (run (a_filter frames) room (tokens_of text.now)) }
    ensures limits { IfOk result
        (λ p. (depth (rule_of p.value) ≤ levels) × (p.room + nodes (rule_of p.value) ≡ room)) }
{
    let (keyword, rest) = read_keyword(text)?;
    if levels == 0 || room == 0 {
        return Err(Fault::Refused(Stop::Deep));
    }
    let (levels, room) = (levels - 1, room - 1);
    match keyword {
        Keyword::All => Ok(Parsed::of(Filter::All, rest, room)),
        Keyword::Nothing => Ok(Parsed::of(Filter::Nothing, rest, room)),
        Keyword::Is => {
            let (word, rest) = read_text(alloc, rest)?;
            Ok(Parsed::of(Filter::Is(word), rest, room))
        }
        Keyword::Starts => {
            let (word, rest) = read_text(alloc, rest)?;
            Ok(Parsed::of(Filter::StartsWith(word), rest, room))
        }
        Keyword::Ends => {
            let (word, rest) = read_text(alloc, rest)?;
            Ok(Parsed::of(Filter::EndsWith(word), rest, room))
        }
        Keyword::Not => {
            let Parsed { value, rest, room } = read_filter(alloc, rest, levels, room)?;
            let boxed = box_of(alloc, value)?;
            Ok(Parsed::of(Filter::Not(boxed), rest, room))
        }
        Keyword::And => {
            let Parsed { value, rest, room } = read_members(alloc, rest, levels, room)?;
            Ok(Parsed::of(Filter::And(value), rest, room))
        }
        Keyword::Or => {
            let Parsed { value, rest, room } = read_members(alloc, rest, levels, room)?;
            Ok(Parsed::of(Filter::Or(value), rest, room))
        }
    }
}

// The filters between the parentheses that the text begins with, each of at most `levels` levels.
#[cycle(filter)]
fn read_members<'a, A: AllocHandle>(
    alloc: A,
    text: &'a str,
    levels: u32,
    room: u32,
) -> Result<Parsed<'a, Vec<Filter<A>, A>>, Fault<Stop>>
    ensures reads { (every : Bool) (frames : List Frame) → length frames + 1 + levels ≡ 32 →
        LeadsUnlessMemory (λ p.
        run (behind_filter (list_of every (map rule_of p.value.items)) frames) p.room (tokens_of p.rest.now))
        result
        (run (a_list every frames) room (tokens_of text.now)) }
    ensures limits { IfOk result (λ p.
        (depth_of_all (rules (map rule_of p.value.items)) ≤ levels)
        × (p.room + nodes_of_all (rules (map rule_of p.value.items)) ≡ room)) }
{
    let mut rest = read_opening(text)?;
    let mut room_left = room;
    let mut members = Vec::new(alloc);
    if let Some(rest) = after_closing(rest) {
        return Ok(Parsed {
            value: members,
            rest,
            room,
        });
    }
    loop {
        let member = read_filter(alloc, rest, levels, room_left)?;
        push(&mut members, member.value)?;
        room_left = member.room;
        let (goes_on, behind) = read_separator(member.rest)?;
        rest = behind;
        if !goes_on {
            return Ok(Parsed {
                value: members,
                rest,
                room: room_left,
            });
        }
    }
}

fn box_of<A: AllocHandle>(alloc: A, filter: Filter<A>) -> Result<Box<Filter<A>, A>, OutOfMemory>
    ensures { IfOk result (λ made. made.value ≡ filter) }
{
    Ok(Box::new(alloc, filter)?)
}

fn push<A: AllocHandle>(
    filters: &mut Vec<Filter<A>, A>,
    filter: Filter<A>,
) -> Result<(), OutOfMemory>
    ensures { OnOk result (filters.new.items ≡ filters.old.items ++ filter ∷ []) }
{
    Ok(filters.push(filter)?)
}
