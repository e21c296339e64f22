//! What a line may go on with.

use cap_expected::print_expected;
use std::alloc::Global;
use std::test::*;

// The first bytes of lines, and what may follow them.
const ROWS: &[(&str, &str)] = &[
    ("commit ", "expected insert update delete cascade"),
    ("commit cascade", "expected insert update delete"),
    ("commit insert t (", "expected null NUMBER TEXT BLOB"),
    ("commit insert t (1", "expected ) ,"),
    ("commit insert t (1)", "expected ; END"),
    ("commit update t", "expected key loose"),
    ("commit update t loose 1 set 0", "expected ="),
    ("attach 1", "expected NAME"),
    ("attach 1 t", "expected END"),
    ("enable 1", "expected on off ask"),
    ("changeset 1", "expected places END"),
    (
        "filter 1 ",
        "expected all nothing is starts ends not and or",
    ),
    (
        "filter 1 and(",
        "expected all nothing is starts ends not and or )",
    ),
    ("drop", "expected NUMBER"),
    (
        "apply x'' omit omit omit",
        "expected filter report buffer END",
    ),
    ("apply x'' omit omit omit report", "expected filter END"),
    (
        "apply x'' omit omit omit buffer filter ",
        "expected all nothing is starts ends not and or",
    ),
    ("cascade ", "expected insert update delete"),
    ("delete t loose 1", "expected END"),
    ("applyeach x''", "expected filter END"),
    ("put", "expected ("),
    ("omit ", "expected END"),
    ("rollback ", "expected to END"),
    ("rollback to", "expected NUMBER"),
    ("@", "expected NUMBER"),
];

fn is_expected(alloc: Global, front: &str, wanted: &str) -> bool {
    match print_expected(alloc, front) {
        Ok(text) => text.as_str() == wanted,
        Err(_) => false,
    }
}

#[test]
fn what_may_follow(rt: HostRuntime) {
    for (front, wanted) in ROWS {
        assert!(rt; is_expected(rt.alloc(), front, wanted), "{front}");
    }
}
