//! Table filters and their text, against their definitions, and in memory of which each request is refused.
use crate::refused::{Call, requests_refused};
use cap_filter::{Filter, TableFilter, Word};
use cap_value::{AllocHandle, Fault, Name, OutOfMemory, Refusal};
use std::alloc::Global;

// Whether the filter of the text is printed as that text.
fn prints(alloc: Global, text: &str, expected: &str) -> bool {
    match TableFilter::parse(alloc, text) {
        Ok(filter) => is_printed(alloc, &filter, expected) == Ok(true),
        Err(_) => false,
    }
}

// Whether the filter of the text accepts the name.
fn accepts(alloc: Global, text: &str, name: &str) -> Option<bool> {
    let name = Name::new(alloc, name).ok()?;
    match TableFilter::parse(alloc, text) {
        Ok(filter) => Some(filter.accepts(&name)),
        Err(_) => None,
    }
}

// Why there is no filter of the text, or nothing where there is one.
fn refusal(alloc: Global, text: &str) -> Option<Refusal> {
    match TableFilter::parse(alloc, text) {
        Err(Fault::Refused(refusal)) => Some(refusal),
        _ => None,
    }
}

// A text of repeated parts: `front`, `part` so many times, and `end`.
type Repeated = (&'static str, &'static str, u64, &'static str);

fn repeat_text(alloc: Global, (front, part, times, end): Repeated) -> Result<String, OutOfMemory> {
    let mut text = String::new(alloc);
    text.push_str(front)?;
    for _ in 0..times {
        text.push_str(part)?;
    }
    text.push_str(end)?;
    Ok(text)
}

// Whether the filter of the repeated text is printed as that text.
fn prints_repeated(alloc: Global, repeated: Repeated) -> bool {
    match repeat_text(alloc, repeated) {
        Ok(text) => prints(alloc, text.as_str(), text.as_str()),
        Err(_) => false,
    }
}

// Why there is no filter of the repeated text.
fn refusal_of(alloc: Global, repeated: Repeated) -> Option<Refusal> {
    match repeat_text(alloc, repeated) {
        Ok(text) => refusal(alloc, text.as_str()),
        Err(_) => None,
    }
}

// The name of a table, and whether a rule with a list accepts it.
const RULE: &[(&str, bool)] = &[("abc", true), ("audit", false), ("b", false)];

#[test]
fn a_rule_with_a_list(rt: HostRuntime) {
    let text = "and(starts 'a',not is audit)";
    assert!(rt; prints(rt.alloc(), text, "and(starts 'a',not is 'audit')"));
    for (name, expected) in RULE {
        assert!(rt;
            accepts(rt.alloc(), text, name) == Some(*expected),
            "{name}"
        );
    }
}

// A filter, the name of a table, and whether it is accepted.
const FILTERS: &[(&str, &str, bool)] = &[
    ("all", "t", true),
    ("nothing", "t", false),
    ("is t", "t", true),
    ("is t", "tt", false),
    ("is T", "t", false),
    ("starts ab", "abc", true),
    ("starts ab", "ab", true),
    ("starts ab", "a", false),
    ("starts ''", "t", true),
    ("ends bc", "abc", true),
    ("ends ab", "abc", false),
    ("ends bc", "c", false),
    ("not is t", "t", false),
    ("not not is t", "t", true),
    ("and()", "t", true),
    ("or()", "t", false),
    ("and(all,is t,all)", "t", true),
    ("and(all,is t,all)", "u", false),
    ("or(nothing,is t,nothing)", "t", true),
    ("or(nothing,is t,nothing)", "u", false),
];

#[test]
fn each_filter(rt: HostRuntime) {
    for (text, name, expected) in FILTERS {
        assert!(rt;
            accepts(rt.alloc(), text, name) == Some(*expected),
            "{text} {name}"
        );
    }
}

// Whether a filter of a longer word than names may have, so many bytes, accepts a name of one byte.
fn accepts_a_byte(alloc: Global, word: u64) -> Option<bool> {
    match repeat_text(alloc, ("starts ", "a", word, "")) {
        Ok(text) => accepts(alloc, text.as_str(), "a"),
        Err(_) => None,
    }
}

#[test]
fn a_word_longer_than_names(rt: HostRuntime) {
    assert!(rt; accepts_a_byte(rt.alloc(), 1000) == Some(false));
}

// A text, and what its filter is printed as.
const PRINTED: &[(&str, &str)] = &[
    ("  all  ", "all"),
    ("not    nothing", "not nothing"),
    (" and ( all , nothing ) ", "and(all,nothing)"),
    ("and ( )", "and()"),
    ("or( )", "or()"),
    ("is'a'", "is 'a'"),
    ("is ''", "is ''"),
    ("is ''''", "is ''''"),
    ("is 'a''b'", "is 'a''b'"),
    ("is 'a b'", "is 'a b'"),
    ("is '(,)'", "is '(,)'"),
    ("is all", "is 'all'"),
    ("ends _9", "ends '_9'"),
    ("starts 'é'", "starts 'é'"),
    (
        "or(is a,or(ends 'b',not all))",
        "or(is 'a',or(ends 'b',not all))",
    ),
];

#[test]
fn blanks_and_quotes(rt: HostRuntime) {
    for (text, expected) in PRINTED {
        let is_so = prints(rt.alloc(), text, expected) && prints(rt.alloc(), expected, expected);
        assert!(rt; is_so, "{text}");
    }
}

// A text that is no filter, and where the first token is that does not fit.
const UNFIT: &[(&str, u64)] = &[
    ("", 0),
    ("   ", 3),
    ("not", 3),
    ("not  ", 5),
    ("notall", 0),
    ("not(all)", 3),
    ("ALL", 0),
    ("all all", 4),
    ("all,", 3),
    ("all'", 3),
    ("(all)", 0),
    ("\tall", 0),
    ("is", 2),
    ("is(a)", 2),
    ("is 'a", 3),
    ("is 'a''", 3),
    ("is 'a' 'b'", 7),
    ("is a b", 5),
    ("is a-b", 4),
    ("starts é", 7),
    ("and", 3),
    ("and (", 5),
    ("and all", 4),
    ("and(,all)", 4),
    ("and(all,)", 8),
    ("and(all all)", 8),
    ("and(all,all", 11),
    ("and(all))", 8),
    ("and(is ,all)", 7),
    ("or(is 'x", 6),
];

#[test]
fn the_first_token_that_does_not_fit(rt: HostRuntime) {
    for (text, at) in UNFIT {
        let expected = Some(Refusal::BadFilter { at: *at });
        assert!(rt; refusal(rt.alloc(), text) == expected, "{text}");
    }
}

// Texts that are no filters, and why.
const DEEP: &[(Repeated, Refusal)] = &[
    (("", "not ", 32, "all"), Refusal::TooDeep),
    (("", "not ", 32, "all all"), Refusal::TooDeep),
    (("", "not ", 10_000, "all"), Refusal::TooDeep),
    (("", "not ", 32, ""), Refusal::BadFilter { at: 128 }),
    (("", "not ", 32, "foo all"), Refusal::BadFilter { at: 128 }),
    (("", "and(", 32, ""), Refusal::BadFilter { at: 128 }),
    (("", "and(", 33, ""), Refusal::TooDeep),
    (("", "and(", 100_000, ""), Refusal::TooDeep),
];

#[test]
fn levels(rt: HostRuntime) {
    assert!(rt; prints_repeated(rt.alloc(), ("", "not ", 31, "all")));
    for (repeated, expected) in DEEP {
        assert!(rt; refusal_of(rt.alloc(), *repeated) == Some(*expected));
    }
}

#[test]
fn nodes(rt: HostRuntime) {
    assert!(rt; prints_repeated(rt.alloc(), ("or(", "all,", 998, "all)")));
    let too_deep = Some(Refusal::TooDeep);
    assert!(rt; refusal_of(rt.alloc(), ("or(", "all,", 999, "all)")) == too_deep);
    let cut_off = Some(Refusal::BadFilter { at: 3 + 4 * 999 });
    assert!(rt; refusal_of(rt.alloc(), ("or(", "all,", 999, "")) == cut_off);
}

fn words(alloc: Global) -> Result<Filter<Global>, OutOfMemory> {
    let front = Word::new(alloc, "ord")?;
    let end = Word::new(alloc, "ers")?;
    let whole = Word::new(alloc, "orders")?;
    let members = [
        Filter::StartsWith(front),
        Filter::EndsWith(end),
        Filter::Is(whole),
    ];
    Ok(Filter::And(Vec::from_array(alloc, members)?))
}

// Whether a copy of the filter prints this text.
fn copy_prints(filter: &TableFilter<Global>, alloc: Global, text: &str) -> bool {
    match filter.copy() {
        Ok(copy) => is_printed(alloc, &copy, text) == Ok(true),
        Err(_) => false,
    }
}

// Whether a copy of the filter that is made prints this text, and it accepts the name.
fn is_made(alloc: Global, text: &str, name: &str) -> Option<bool> {
    let name = Name::new(alloc, name).ok()?;
    let made = TableFilter::new(words(alloc).ok()?);
    match &made {
        Ok(filter) => Some(copy_prints(filter, alloc, text) && filter.accepts(&name)),
        Err(_) => None,
    }
}

#[test]
fn made_of_a_filter(rt: HostRuntime) {
    let text = "and(starts 'ord',ends 'ers',is 'orders')";
    assert!(rt; is_made(rt.alloc(), text, "orders") == Some(true));
}

// `not` so many times around `all`.
fn nest(alloc: Global, times: u64) -> Option<Filter<Global>> {
    let mut filter = Filter::All;
    for _ in 0..times {
        filter = Filter::Not(Box::new(alloc, filter).ok()?);
    }
    Some(filter)
}

// The list of so many members.
fn list(alloc: Global, count: u64) -> Option<Filter<Global>> {
    let mut members = Vec::new(alloc);
    for _ in 0..count {
        members.push(Filter::Nothing).ok()?;
    }
    Some(Filter::Or(members))
}

// The members of the list, or of what `not` is of.
fn members(filter: &Filter<Global>) -> Option<usize> {
    match filter {
        Filter::Not(_) => Some(1),
        Filter::Or(members) => Some(members.len()),
        _ => None,
    }
}

// How many members a filter past a limit has when it is handed back.
fn members_handed_back(filter: Filter<Global>) -> Option<usize> {
    let made = TableFilter::new(filter);
    match &made {
        Ok(_filter) => None,
        Err(back) => if back.1 == Refusal::TooDeep {
            members(&back.0)
        } else {
            None
        },
    }
}

fn nested_handed_back(alloc: Global, times: u64) -> Option<Option<usize>> {
    Some(members_handed_back(nest(alloc, times)?))
}

fn list_handed_back(alloc: Global, count: u64) -> Option<Option<usize>> {
    Some(members_handed_back(list(alloc, count)?))
}

#[test]
fn a_filter_past_a_limit_is_handed_back(rt: HostRuntime) {
    assert!(rt; nested_handed_back(rt.alloc(), 31) == Some(None));
    assert!(rt; nested_handed_back(rt.alloc(), 32) == Some(Some(1)));
    assert!(rt; list_handed_back(rt.alloc(), 1000) == Some(Some(1000)));
}

/// Whether there is a filter of the text.
pub(crate) fn read<A: AllocHandle>(alloc: A, text: &str) -> Result<bool, Fault<Refusal>> {
    let _filter = TableFilter::parse(alloc, text)?;
    Ok(true)
}

const READ: &[&str] = &[
    "is a",
    "is 'a long word with a '' in it'",
    "not all",
    "or(all)",
    "and(starts 'a''b',not or(is 'c',ends 'd'),all)",
    "and(starts 'a''b',not or(is 'c',ends 'd'),all",
];

#[test]
fn each_request_of_a_reading_is_refused_in_turn(rt: HostRuntime) {
    for text in READ {
        assert!(rt;
            requests_refused(rt.alloc(), Call::ReadFilter(text)) >= 1,
            "{text}"
        );
    }
}

// Whether the filter prints this text.
fn is_printed<A: AllocHandle>(
    alloc: A,
    filter: &TableFilter<A>,
    text: &str,
) -> Result<bool, OutOfMemory> {
    Ok(filter.print(alloc)?.as_str() == text)
}

/// Reads a filter, and prints it: whether that is the text. Where the print is out of memory, it is made
/// again of the same filter.
pub(crate) fn print<A: AllocHandle>(alloc: A, text: &str) -> Result<bool, Fault<Refusal>> {
    let filter = TableFilter::parse(alloc, text)?;
    match is_printed(alloc, &filter, text) {
        Ok(is_so) => Ok(is_so),
        Err(OutOfMemory) => out_of_memory(is_printed(alloc, &filter, text)),
    }
}

// Out of memory, if the call is done now.
fn out_of_memory(again: Result<bool, OutOfMemory>) -> Result<bool, Fault<Refusal>> {
    match again {
        Ok(true) => Err(Fault::OutOfMemory),
        _ => Ok(false),
    }
}

#[test]
fn each_request_of_printing_is_refused_in_turn(rt: HostRuntime) {
    let text = "and(starts 'a''b',not or(is 'c',ends 'd'),all)";
    let read = requests_refused(rt.alloc(), Call::ReadFilter(text));
    assert!(rt; requests_refused(rt.alloc(), Call::PrintFilter(text)) > read);
}

// A filter with a box, a list and a word.
fn not_one_of_one<A: AllocHandle>(alloc: A) -> Result<Filter<A>, OutOfMemory> {
    let mut members = Vec::with_capacity(alloc, 1)?;
    members.push(Filter::Is(Word::new(alloc, "t")?))?;
    Ok(Filter::Not(Box::new(alloc, Filter::Or(members))?))
}

/// Makes that filter: whether it is within the limits.
pub(crate) fn make<A: AllocHandle>(alloc: A) -> Result<bool, Fault<Refusal>> {
    Ok(TableFilter::new(not_one_of_one(alloc)?).is_ok())
}

#[test]
fn each_request_of_making_is_refused_in_turn(rt: HostRuntime) {
    assert!(rt; requests_refused(rt.alloc(), Call::MakeFilter) >= 3);
}

/// Makes that filter, and copies it. Where the copy is out of memory, it is made again of the same filter.
pub(crate) fn copy<A: AllocHandle>(alloc: A) -> Result<bool, Fault<Refusal>> {
    let Ok(filter) = TableFilter::new(not_one_of_one(alloc)?) else {
        return Ok(false);
    };
    match filter.copy() {
        Ok(_copy) => Ok(true),
        Err(OutOfMemory) => out_of_memory(is_copied(alloc, &filter)),
    }
}

// Whether the filter and its copy print that filter.
fn is_copied<A: AllocHandle>(alloc: A, filter: &TableFilter<A>) -> Result<bool, OutOfMemory> {
    let copy = filter.copy()?;
    if !is_printed(alloc, filter, "not or(is 't')")? {
        return Ok(false);
    }
    is_printed(alloc, &copy, "not or(is 't')")
}

#[test]
fn each_request_of_a_copy_is_refused_in_turn(rt: HostRuntime) {
    let made = requests_refused(rt.alloc(), Call::MakeFilter);
    assert!(rt; requests_refused(rt.alloc(), Call::CopyFilter) > made);
}
