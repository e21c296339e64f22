//! Changegroups. The table of two changes of one row, beside what SQLite makes of the same blobs, is in the
//! program's examples (examples/convert/concat.calls).
use cap_codec::{BlobFault, Contents, FaultKind, KeyFlags, read_blob};
use cap_group::{BlobRefusal, ChangeGroup, ConcatRefusal, GroupRefusal, concat};
use cap_test_support::Memory;
use cap_value::{AllocHandle, Fault};
use linked_list_allocator::LocalHeap;
use std::alloc::Global;
use std::fmt::Display;
use std::test::*;

// A blob, or none where the digits spell none.
fn blob<A: AllocHandle>(alloc: A, digits: &str) -> Option<Contents<A>> {
    match hex::decode(alloc, digits) {
        Ok(bytes) => read_blob(alloc, bytes.as_slice()).ok(),
        Err(_) => None,
    }
}

// Whether the changegroup has these bytes.
fn has<A: AllocHandle>(alloc: A, group: &ChangeGroup<A>, digits: &str) -> bool {
    match (group.bytes(KeyFlags::Ones), hex::decode(alloc, digits)) {
        (Ok(bytes), Ok(expected)) => bytes.as_slice() == expected.as_slice(),
        _ => false,
    }
}

// Adds a blob, and answers whether it was added, or why it was refused; none where it is out of memory.
fn add<A: AllocHandle>(
    alloc: A,
    group: &mut ChangeGroup<A>,
    digits: &str,
) -> Option<Result<(), GroupRefusal>> {
    let added = blob(alloc, digits)?;
    match group.add(&added) {
        Ok(()) => Some(Ok(())),
        Err(Fault::Refused(why)) => Some(Err(why)),
        Err(Fault::OutOfMemory) => None,
    }
}

// Inserts into u and t, and a group of e without changes.
const FIRST: &str =
    "540201007500120001000000000000000203017812000100000000000000010301795401016500540201007400\
    120001000000000000000505";
// The first of these alone, in order and without the empty group.
const FIRST_ALONE: &str =
    "540201007500120001000000000000000103017912000100000000000000020301785402010074001200010000\
    00000000000505";
// Changes of t, which has lost its first row after them, of s and of u.
const SECOND: &str =
    "540201007400120001000000000000000403017a09000100000000000000050554010173001200010000000000\
    000001540201007500170001000000000000000203017800030177";
// Tables in the order of their first change, keys in their own order. A group without changes adds no table.
const TOGETHER: &str =
    "540201007500120001000000000000000103017912000100000000000000020301775402010074001200010000\
    00000000000403017a54010173001200010000000000000001";
// An insert into v, and a group of u with another key.
const OTHER_KEY: &str =
    "540101760012000100000000000000015402010275001200010000000000000001010000000000000002";
// A patchset, and one without changes.
const PATCH: &str = "5002010075000900010000000000000001";

const NO_PATCH: &str = "500201007500";

// The concatenation of two blobs.
fn together(alloc: Global, first: &str, second: &str) -> Option<Contents<Global>> {
    let first = blob(alloc, first)?;
    let second = blob(alloc, second)?;
    let blobs = Vec::from_array(alloc, [first, second]).ok()?;
    concat(alloc, &blobs).ok()
}

// Whether a changegroup of the concatenation has these bytes.
fn concatenates_to(alloc: Global, first: &str, second: &str, digits: &str) -> bool {
    let mut group = ChangeGroup::new(alloc);
    match together(alloc, first, second) {
        Some(made) => group.add(&made).is_ok() && has(alloc, &group, digits),
        None => false,
    }
}

#[test]
fn several_tables(rt: HostRuntime) {
    assert!(rt; concatenates_to(rt.alloc(), FIRST, SECOND, TOGETHER));
}

#[test]
fn blobs_that_are_refused(rt: HostRuntime) -> Result<(), Fail> {
    let alloc = rt.alloc();
    let mut group = ChangeGroup::new(alloc);
    assert!(rt; add(alloc, &mut group, FIRST) == Some(Ok(())));
    assert!(rt; add(alloc, &mut group, SECOND) == Some(Ok(())));
    let columns = GroupRefusal::OtherColumns { group: 1 };
    assert!(rt; add(alloc, &mut group, OTHER_KEY) == Some(Err(columns)));
    assert!(rt; has(alloc, &group, TOGETHER));
    assert!(rt; add(alloc, &mut group, PATCH) == Some(Err(GroupRefusal::OtherKind)));
    assert!(rt; has(alloc, &group, TOGETHER));
    assert!(rt; add(alloc, &mut group, NO_PATCH) == Some(Ok(())));
    assert!(rt; has(alloc, &group, TOGETHER));
    Ok(())
}

// An insert of a row, and its delete.
const INSERT: &str = "540301000074001200010000000000000001030161010000000000000007";

const DELETE: &str = "540301000074000900010000000000000001030161010000000000000007";

// A changegroup from which every change is gone is of the kind that it was.
#[test]
fn a_kind_stays(rt: HostRuntime) -> Result<(), Fail> {
    let alloc = rt.alloc();
    let mut group = ChangeGroup::new(alloc);
    assert!(rt; add(alloc, &mut group, NO_PATCH) == Some(Ok(())));
    assert!(rt; add(alloc, &mut group, INSERT) == Some(Ok(())));
    assert!(rt; add(alloc, &mut group, DELETE) == Some(Ok(())));
    assert!(rt; add(alloc, &mut group, PATCH) == Some(Err(GroupRefusal::OtherKind)));
    assert!(rt; has(alloc, &group, ""));
    Ok(())
}

// An update of u, and one that takes it back.
const THERE: &str = "54020100750017000100000000000000010301790003017a";

const BACK: &str = "540201007500170001000000000000000103017a00030179";

// The changes are more than a thousand on the way, and are made one for each row.
#[test]
fn a_row_that_changes_often(rt: HostRuntime) -> Result<(), Fail> {
    let alloc = rt.alloc();
    let mut group = ChangeGroup::new(alloc);
    assert!(rt; add(alloc, &mut group, FIRST) == Some(Ok(())));
    for _ in 0..600u32 {
        assert!(rt; add(alloc, &mut group, THERE) == Some(Ok(())));
        assert!(rt; add(alloc, &mut group, BACK) == Some(Ok(())));
    }
    assert!(rt; has(alloc, &group, FIRST_ALONE));
    Ok(())
}

// Adds the blob with this request for memory refused: whether it is added, or else the call is out of memory
// and the changegroup as before. None where anything else comes of it.
fn add_with_a_request_refused<A: AllocHandle>(
    alloc: A,
    memory: &Memory<&LocalHeap>,
    group: &mut ChangeGroup<A>,
    added: &Contents<A>,
    number: u64,
) -> Option<bool> {
    memory.refuse(number);
    let answer = group.add(added);
    memory.refuse(0);
    if memory.has_refused() {
        let is_kept = answer == Err(Fault::OutOfMemory) && has(alloc, group, FIRST_ALONE);
        return is_kept.then_some(false);
    }
    (answer == Ok(()) && has(alloc, group, TOGETHER)).then_some(true)
}

// Adds a blob with each request refused in turn, until it is added: whether there were such requests.
fn add_in_refused_memory<A: AllocHandle>(alloc: A, memory: &Memory<&LocalHeap>) -> bool {
    let mut group = ChangeGroup::new(alloc);
    if add(alloc, &mut group, FIRST) != Some(Ok(())) {
        return false;
    }
    let Some(added) = blob(alloc, SECOND) else {
        return false;
    };
    for number in 1..1_000u64 {
        match add_with_a_request_refused(alloc, memory, &mut group, &added, number) {
            Some(true) => return number > 1,
            Some(false) => {}
            None => return false,
        }
    }
    false
}

#[test]
fn each_growth_refused(rt: HostRuntime) -> Result<(), Fail> {
    let heap = LocalHeap::new(rt.alloc(), 65536)?;
    let memory = Memory::new(&heap);
    assert!(rt; add_in_refused_memory(&memory, &memory));
    assert!(rt; heap.used() == 0);
    Ok(())
}

// Whether this is printed so.
pub(crate) fn prints<T: Display>(alloc: Global, shown: &T, text: &str) -> bool {
    match format!(in alloc; "{shown}") {
        Ok(printed) => printed.as_str() == text,
        Err(_) => false,
    }
}

#[test]
fn the_text_of_a_refusal(rt: HostRuntime) {
    let alloc = rt.alloc();
    let columns = GroupRefusal::OtherColumns { group: 3 };
    assert!(rt; prints(alloc, &columns, "other columns in group 3"));
    let kind = ConcatRefusal {
        blob: 1,
        why: BlobRefusal::Group(GroupRefusal::OtherKind),
    };
    assert!(rt; prints(alloc, &kind, "blob 1: changeset and patchset"));
    let malformed = ConcatRefusal {
        blob: 0,
        why: BlobRefusal::Malformed(BlobFault {
            at: 1,
            kind: FaultKind::Truncated,
        }),
    };
    assert!(rt; prints(alloc, &malformed, "blob 0: D1 Truncated at 1"));
}
