//! Values, names and refusals: limits, order, texts and copies.
use crate::refused::{Call, requests_refused};
use cap_value::{AllocHandle, Blob, Fault, NAME_BYTES_MAX, Name, Refusal, Text, Value};
use std::alloc::Global;

// A value as plain data.
#[derive(Clone, Copy, Drop)]
enum Plain {
    Null,
    Int(i64),
    Text(&'static str),
    Blob(&'static [u8]),
}

const ASCENDING: &[Plain] = &[
    Plain::Null,
    Plain::Int(i64::MIN),
    Plain::Int(-1),
    Plain::Int(0),
    Plain::Int(i64::MAX),
    Plain::Text(""),
    Plain::Text("10"),
    Plain::Text("9"),
    Plain::Text("A"),
    Plain::Text("a"),
    Plain::Text("aa"),
    Plain::Text("é"),
    Plain::Blob(b""),
    Plain::Blob(b"\x00"),
    Plain::Blob(b"a"),
    Plain::Blob(b"\xff"),
];

fn value(alloc: Global, plain: Plain) -> Result<Value<Global>, Fault<Refusal>> {
    match plain {
        Plain::Null => Ok(Value::Null),
        Plain::Int(number) => Ok(Value::Int(number)),
        Plain::Text(text) => Value::text(alloc, text),
        Plain::Blob(bytes) => Value::blob(alloc, bytes),
    }
}

// Whether the values compare as their places do.
fn compare_as(alloc: Global, a: (usize, Plain), b: (usize, Plain)) -> Result<bool, Fault<Refusal>> {
    let order = a.0.cmp(&b.0);
    let a = value(alloc, a.1)?;
    let b = value(alloc, b.1)?;
    Ok(a.order(&b) == order && a.cmp(&b) == order && a.same(&b) == order.is_eq())
}

// Whether the value is the same as its copy, and NULL where it should be.
fn is_copied(alloc: Global, plain: Plain, is_null: bool) -> Result<bool, Fault<Refusal>> {
    let value = value(alloc, plain)?;
    value.keeps_limits();
    Ok(value.copy()? == value.copy()? && value.is_null() == is_null)
}

fn prints(alloc: Global, plain: Plain, text: &str) -> Option<bool> {
    let value = value(alloc, plain).ok()?;
    let printed = format!(in alloc; "{value:?}").ok()?;
    Some(printed.as_str() == text)
}

#[test]
fn values_are_in_the_order_of_sqlite(rt: HostRuntime) {
    for a in ASCENDING.iter().enumerate() {
        for b in ASCENDING.iter().enumerate() {
            let is_so = compare_as(rt.alloc(), (a.0, *a.1), (b.0, *b.1));
            assert!(rt; is_so == Ok(true), "{} and {}", a.0, b.0);
        }
        assert!(rt; is_copied(rt.alloc(), *a.1, a.0 == 0) == Ok(true));
    }
    assert!(rt; prints(rt.alloc(), Plain::Text("10"), "Text(\"10\")") == Some(true));
    assert!(rt; prints(rt.alloc(), Plain::Blob(b"a"), "Blob([97])") == Some(true));
}

// Whether the text is a name, which is the same as a copy of it.
fn is_name(alloc: Global, text: &str) -> Result<bool, Fault<Refusal>> {
    match Name::new(alloc, text) {
        Ok(name) => Ok(name.as_str() == text && name.copy()?.same(&name)),
        Err(Fault::Refused(Refusal::BadName)) => Ok(false),
        Err(fault) => Err(fault),
    }
}

// Whether a text of so many bytes is a name.
fn is_long_name(alloc: Global, bytes: usize) -> Result<bool, Fault<Refusal>> {
    let mut text = String::new(alloc);
    for _ in 0..bytes {
        text.push('n')?;
    }
    is_name(alloc, text.as_str())
}

fn is_less(alloc: Global, name: &str, other: &str) -> Result<bool, Fault<Refusal>> {
    Ok(Name::new(alloc, name)? < Name::new(alloc, other)?)
}

#[test]
fn names_have_1_to_255_bytes(rt: HostRuntime) {
    assert!(rt; NAME_BYTES_MAX == 255);
    assert!(rt; is_long_name(rt.alloc(), 255) == Ok(true));
    assert!(rt; is_long_name(rt.alloc(), 256) == Ok(false));
    assert!(rt; is_name(rt.alloc(), "") == Ok(false));
    assert!(rt; is_name(rt.alloc(), "a\0") == Ok(false));
    assert!(rt; is_less(rt.alloc(), "T", "t") == Ok(true));
}

// The text of each refusal.
const TEXTS: &[(Refusal, &str)] = &[
    (Refusal::TooLong, "E1 TooLong"),
    (Refusal::BadSchema, "E2 BadSchema"),
    (Refusal::WrongWidth, "E3 WrongWidth"),
    (Refusal::BadColumn, "E4 BadColumn"),
    (Refusal::Duplicate, "E5 Duplicate"),
    (Refusal::NoRow, "E6 NoRow"),
    (Refusal::IdsSpent, "E7 IdsSpent"),
    (Refusal::NoTable, "E8 NoTable"),
    (Refusal::TableExists, "E9 TableExists"),
    (Refusal::TooMany, "E10 TooMany"),
    (
        Refusal::Stale {
            base: 1,
            now: 2,
            item: None,
        },
        "E11 Stale base 1 now 2",
    ),
    (
        Refusal::Stale {
            base: 1,
            now: 2,
            item: Some(7),
        },
        "E11 Stale base 1 now 2 item 7",
    ),
    (Refusal::BadFilter { at: 3 }, "E12 BadFilter"),
    (Refusal::TooDeep, "E13 TooDeep"),
    (Refusal::Incompatible, "E14 Incompatible"),
    (Refusal::Aborted { at: 3 }, "E15 Aborted"),
    (Refusal::Misuse { at: 3 }, "E16 Misuse"),
    (Refusal::BadName, "E17 BadName"),
    (Refusal::NoSession, "E18 NoSession"),
    (Refusal::NoDatabase, "E19 NoDatabase"),
    (Refusal::NoMark, "E20 NoMark"),
];

fn is_printed(alloc: Global, refusal: Refusal, text: &str) -> bool {
    match format!(in alloc; "{refusal}") {
        Ok(printed) => printed.as_str() == text,
        Err(_) => false,
    }
}

#[test]
fn texts_of_refusals(rt: HostRuntime) {
    for (refusal, text) in TEXTS {
        assert!(rt; is_printed(rt.alloc(), *refusal, text), "{text}");
    }
}

// A copy of a text, of a blob and of a name: whether each is as what it copies.
pub(crate) fn make<A: AllocHandle>(alloc: A) -> Result<bool, Fault<Refusal>> {
    Ok(make_text(alloc)? && make_blob(alloc)? && make_name(alloc)?)
}

fn make_text<A: AllocHandle>(alloc: A) -> Result<bool, Fault<Refusal>> {
    let text = Text::new(alloc, "a text that is stored")?;
    Ok(text.copy()?.as_str() == "a text that is stored")
}

fn make_blob<A: AllocHandle>(alloc: A) -> Result<bool, Fault<Refusal>> {
    let blob = Blob::new(alloc, b"a blob that is stored")?;
    Ok(blob.copy()?.as_slice() == b"a blob that is stored".as_slice())
}

fn make_name<A: AllocHandle>(alloc: A) -> Result<bool, Fault<Refusal>> {
    let name = Name::new(alloc, "a name that is stored")?;
    Ok(name.copy()?.as_str() == "a name that is stored")
}

#[test]
fn each_allocation_may_be_refused(rt: HostRuntime) {
    assert!(rt; requests_refused(rt.alloc(), Call::MakeValues) >= 3);
}
