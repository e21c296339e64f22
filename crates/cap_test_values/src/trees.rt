//! Trees against an ordered map, beside snapshots, and in memory of which each request is refused.
use cap_test_support::{CountingHook, Memory};
use cap_tree::{Modify, Tree};
use cap_value::{AllocHandle, Fault, OutOfMemory};
use linked_list_allocator::LocalHeap;
use std::alloc::{AllocError, Global};
use std::collections::BTreeMap;
use std::test::Fail;

type Numbers<A> = Tree<u64, u64, A>;

// The numbers from 1 up to `count`, each with ten times itself.
fn rising<A: AllocHandle>(alloc: A, count: u64) -> Result<Numbers<A>, OutOfMemory> {
    let mut tree = Tree::empty(alloc);
    for n in 1..=count {
        tree.insert(n, n.wrapping_mul(10))?;
    }
    Ok(tree)
}

// Whether the tree has just those numbers, but for `gap`.
fn is_rising_but_for<A: AllocHandle>(tree: &Numbers<A>, count: u64, gap: u64) -> bool {
    let mut last = 0u64;
    for (key, value) in tree.iter() {
        last = last.wrapping_add(1);
        if last == gap {
            last = last.wrapping_add(1);
        }
        if *key != last || *value != last.wrapping_mul(10) {
            return false;
        }
    }
    last == count
}

fn is_rising<A: AllocHandle>(tree: &Numbers<A>, count: u64) -> bool {
    tree.len() == count as usize && is_rising_but_for(tree, count, 0)
}

// The tree without the even numbers up to twice this.
fn without_even(tree: &Numbers<Global>, half: u64) -> Result<Numbers<Global>, OutOfMemory> {
    let mut taken = tree.snapshot()?;
    for n in 1..=half {
        taken.remove(&n.wrapping_mul(2))?;
    }
    Ok(taken)
}

#[test]
fn even_numbers_taken_beside_a_snapshot(rt: HostRuntime) -> Result<(), Fail> {
    let snapshot = rising(rt.alloc(), 1000)?;
    let tree = without_even(&snapshot, 500)?;
    assert!(rt; tree.len() == 500 && tree.height() <= 4);
    assert!(rt; tree.seek(&500).next() == Some((&501, &5010)));
    assert!(rt; tree.seek(&500).len() == 250);
    assert!(rt; tree.first() == Some((&1, &10)) && tree.last() == Some((&999, &9990)));
    assert!(rt; is_rising(&snapshot, 1000) && snapshot.height() <= 3);
    Ok(())
}

#[test]
fn each_call_succeeds_with_ample_memory(rt: HostRuntime) -> Result<(), Fail> {
    let mut tree: Numbers<Global> = Tree::empty(rt.alloc());
    assert!(rt; tree.is_empty() && tree.height() == 0 && tree.iter().next() == None);
    assert!(rt; tree.insert(7, 70) == Ok(None));
    assert!(rt; tree.insert(7, 71) == Ok(Some(70)));
    assert!(rt; tree.insert(8, 80) == Ok(None));
    assert!(rt; tree.get(&7) == Some(&71));
    assert!(rt; tree.remove(&7) == Ok(Some(71)));
    assert!(rt; tree.remove(&7) == Ok(None));
    assert!(rt; tree.len() == 1);
    Ok(())
}

// 501 in place of any value.
#[derive(Clone, Copy, Drop)]
struct Is501;

impl Modify<u64> for Is501 {
    ghost can_modify = { λ modify present. Unit {0} };

    ghost modified = { λ modify present. 501 };

    fn modify(&self, _present: &u64) -> Result<u64, OutOfMemory> {
        Ok(501)
    }
}

// The changes that are refused their memory in turn: each of the tree of the numbers up to 100.
#[derive(Clone, Copy, Drop)]
enum Change {
    Insert,
    InsertHooked,
    Modify,
    Remove,
    RemoveHooked,
}

const CHANGES: &[Change] = &[
    Change::Insert,
    Change::InsertHooked,
    Change::Modify,
    Change::Remove,
    Change::RemoveHooked,
];

// Puts 101, modifies 50 or takes it, and answers the value that was there.
fn make_change<A: AllocHandle>(
    tree: &mut Numbers<A>,
    change: Change,
    hook: &mut CountingHook,
) -> Result<Option<u64>, Fault<()>> {
    match change {
        Change::Insert => in_place(tree.insert(101, 1010)),
        Change::InsertHooked => tree.insert_hooked(101, 1010, hook),
        Change::Modify => tree.modify_hooked(&50, &Is501, hook),
        Change::Remove => in_place(tree.remove(&50)),
        Change::RemoveHooked => tree.remove_hooked(&50, hook),
    }
}

fn in_place(answer: Result<Option<u64>, OutOfMemory>) -> Result<Option<u64>, Fault<()>> {
    Ok(answer?)
}

// Whether the change was made, with this answer, and nothing else.
fn is_made<A: AllocHandle>(
    tree: &Numbers<A>,
    change: Change,
    answer: Result<Option<u64>, Fault<()>>,
) -> bool {
    match change {
        Change::Insert | Change::InsertHooked => answer == Ok(None) && is_rising(tree, 101),
        Change::Modify => answer == Ok(Some(500)) && has_501(tree),
        Change::Remove | Change::RemoveHooked => answer == Ok(Some(500)) && lacks_50(tree),
    }
}

// Whether 50 has 501, and the tree has as many entries as before.
fn has_501<A: AllocHandle>(tree: &Numbers<A>) -> bool {
    tree.get(&50) == Some(&501) && tree.len() == 100
}

// Whether the tree has the numbers up to 100 but for 50.
fn lacks_50<A: AllocHandle>(tree: &Numbers<A>) -> bool {
    tree.len() == 99 && is_rising_but_for(tree, 100, 50)
}

// Takes the change back.
fn undo_change<A: AllocHandle>(tree: &mut Numbers<A>, change: Change) -> Result<(), OutOfMemory> {
    match change {
        Change::Insert | Change::InsertHooked => tree.remove(&101)?,
        Change::Modify | Change::Remove | Change::RemoveHooked => tree.insert(50, 500)?,
    };
    Ok(())
}

// Makes the change with the request of this number refused. Where it is refused it leaves the tree as it was,
// and is made again on the same tree. Answers whether it was refused, or nothing where something else
// happened.
fn refuse_in_turn<A: AllocHandle>(
    memory: &Memory<&LocalHeap>,
    tree: &mut Numbers<A>,
    change: Change,
    number: u64,
) -> Option<bool> {
    let mut hook = CountingHook::new(true);
    memory.refuse(number);
    let answer = make_change(tree, change, &mut hook);
    memory.refuse(0);
    if !memory.has_refused() {
        return is_made(tree, change, answer).then_some(false);
    }
    if answer.is_ok() || hook.asked != 0 || !is_rising(tree, 100) {
        return None;
    }
    let answer = make_change(tree, change, &mut hook);
    is_made(tree, change, answer).then_some(true)
}

// The same beside a snapshot, which stays as it is; the change is taken back.
fn refuse_beside_a_snapshot<A: AllocHandle>(
    memory: &Memory<&LocalHeap>,
    tree: &mut Numbers<A>,
    change: Change,
    number: u64,
) -> Option<bool> {
    let snapshot = tree.snapshot().ok()?;
    let is_refused = refuse_in_turn(memory, tree, change, number)?;
    if !is_rising(&snapshot, 100) || undo_change(tree, change).is_err() {
        return None;
    }
    Some(is_refused)
}

// How many requests the change makes, each of which is refused in turn.
fn requests_refused<A: AllocHandle>(
    memory: &Memory<&LocalHeap>,
    tree: &mut Numbers<A>,
    change: Change,
) -> Option<u64> {
    for number in 1..100u64 {
        if !refuse_beside_a_snapshot(memory, tree, change, number)? {
            return Some(number - 1);
        }
    }
    None
}

// Whether each change makes more than two requests, each of which is refused in turn.
fn each_change_refused<A: AllocHandle>(alloc: A, memory: &Memory<&LocalHeap>) -> Option<bool> {
    let mut tree = rising(alloc, 100).ok()?;
    for change in CHANGES {
        if requests_refused(memory, &mut tree, *change)? <= 2 {
            return Some(false);
        }
    }
    Some(true)
}

// Every node is shared, so that each change needs memory.
#[test]
fn each_request_of_a_change_is_refused_in_turn(rt: HostRuntime) -> Result<(), Fail> {
    let heap = LocalHeap::new(rt.alloc(), 32768)?;
    let memory = Memory::new(&heap);
    assert!(rt; each_change_refused(&memory, &memory) == Some(true));
    assert!(rt; heap.used() == 0);
    Ok(())
}

// A change beside a snapshot asks for memory for the nodes of one way down alone.
#[test]
fn a_snapshot_makes_no_request(rt: HostRuntime) -> Result<(), Fail> {
    let memory = Memory::new(rt.alloc());
    let mut tree = rising(&memory, 1000)?;
    memory.refuse(0);
    let snapshot = tree.snapshot()?;
    assert!(rt; memory.requests() == 0);
    assert!(rt; tree.insert(1001, 10010) == Ok(None));
    assert!(rt; 0 < memory.requests() && memory.requests() < 20);
    assert!(rt; is_rising(&tree, 1001) && is_rising(&snapshot, 1000));
    Ok(())
}

// The next of a row of numbers that look random.
fn next_random(seed: u64) -> u64 {
    let mixed = seed ^ (seed << 13);
    let mixed = mixed ^ (mixed >> 7);
    mixed ^ (mixed << 17)
}

fn entries_of(alloc: Global, map: &BTreeMap<u64, u64>) -> Result<Vec<(u64, u64)>, AllocError> {
    let mut entries = Vec::new(alloc);
    for (key, value) in map.iter() {
        entries.push((*key, *value))?;
    }
    Ok(entries)
}

// Whether the tree has just those entries.
fn has_just(tree: &Numbers<Global>, entries: &[(u64, u64)]) -> bool {
    let mut rest = tree.iter();
    for (key, value) in entries {
        if rest.next() != Some((key, value)) {
            return false;
        }
    }
    rest.next() == None
}

// Changes both in the same way, and answers whether what was there before is the same.
fn change_both(
    tree: &mut Numbers<Global>,
    map: &mut BTreeMap<u64, u64>,
    seed: u64,
    value: u64,
) -> Result<bool, AllocError> {
    let key = seed % 512;
    if seed % 3 == 0 {
        Ok(tree.remove(&key)? == map.remove(&key))
    } else {
        Ok(tree.insert(key, value)? == map.insert(key, value)?)
    }
}

// Nothing else holds a node that was made a tree's own, so no call wants for memory that is there.
// A snapshot of the tree, and the entries of the map beside it.
type Kept = (Numbers<Global>, Vec<(u64, u64)>);

fn kept(
    alloc: Global,
    tree: &Numbers<Global>,
    map: &BTreeMap<u64, u64>,
) -> Result<Kept, AllocError> {
    let entries = entries_of(alloc, map)?;
    Ok((tree.snapshot()?, entries))
}

// Changes both five hundred times, from this number and seed on: the next seed, or none where anything
// differs.
fn changed(
    tree: &mut Numbers<Global>,
    map: &mut BTreeMap<u64, u64>,
    mut seed: u64,
    from: u64,
) -> Option<u64> {
    for n in 0..500u64 {
        seed = next_random(seed);
        if change_both(tree, map, seed, from.wrapping_add(n)) != Ok(true) {
            return None;
        }
    }
    Some(seed)
}

// Ten thousand changes of both: a snapshot after every 500, or none where anything differs.
fn snapshots(alloc: Global) -> Option<Vec<Kept>> {
    let mut tree: Numbers<Global> = Tree::empty(alloc);
    let mut map = BTreeMap::new(alloc);
    let mut snapshots = Vec::new(alloc);
    let mut seed = 88_172_645_463_325_252u64;
    for n in 0..20u64 {
        seed = changed(&mut tree, &mut map, seed, 500 * n)?;
        snapshots.push(kept(alloc, &tree, &map).ok()?).ok()?;
    }
    Some(snapshots)
}

// How many snapshots there are, each with just the entries of the map beside it.
fn snapshots_kept(alloc: Global) -> Option<usize> {
    let snapshots = snapshots(alloc)?;
    for (snapshot, entries) in &snapshots {
        if !has_just(snapshot, entries.as_slice()) {
            return None;
        }
    }
    Some(snapshots.len())
}

#[test]
fn ten_thousand_changes_beside_a_map_and_snapshots(rt: HostRuntime) {
    assert!(rt; snapshots_kept(rt.alloc()) == Some(20));
}

#[test]
fn a_change_waits_for_one_answer(rt: HostRuntime) -> Result<(), Fail> {
    let mut tree = rising(rt.alloc(), 100)?;
    let (mut no, mut yes) = (CountingHook::new(false), CountingHook::new(true));
    let refused = Err(Fault::Refused(()));
    assert!(rt; tree.insert_hooked(101, 1010, &mut no) == refused);
    assert!(rt; tree.modify_hooked(&50, &Is501, &mut no) == refused);
    assert!(rt; tree.remove_hooked(&50, &mut no) == refused);
    assert!(rt; no.asked == 3 && is_rising(&tree, 100));
    assert!(rt; tree.insert_hooked(101, 1010, &mut yes) == Ok(None));
    assert!(rt; is_rising(&tree, 101));
    assert!(rt; tree.remove_hooked(&101, &mut yes) == Ok(Some(1010)));
    assert!(rt; tree.remove_hooked(&101, &mut yes) == Ok(None));
    assert!(rt; tree.modify_hooked(&101, &Is501, &mut yes) == Ok(None));
    assert!(rt; yes.asked == 4 && is_rising(&tree, 100));
    assert!(rt; tree.modify_hooked(&50, &Is501, &mut yes) == Ok(Some(500)));
    assert!(rt; has_501(&tree));
    Ok(())
}

#[test]
fn put_and_taken_in_each_direction(rt: HostRuntime) -> Result<(), Fail> {
    let mut tree: Numbers<Global> = Tree::empty(rt.alloc());
    for n in 0..3000u64 {
        assert!(rt; tree.insert(3000 - n, n) == Ok(None));
    }
    assert!(rt; tree.height() <= 5);
    for n in 0..1500u64 {
        assert!(rt; tree.remove(&(n + 1)) == Ok(Some(2999 - n)));
        assert!(rt; tree.remove(&(3000 - n)) == Ok(Some(n)));
        assert!(rt; tree.len() as u64 == 2998 - 2 * n);
    }
    assert!(rt; tree.is_empty() && tree.height() == 0);
    assert!(rt; tree.first() == None && tree.iter().len() == 0);
    Ok(())
}

// It stands in docs/manual/rattle.md too.
#[test]
fn a_snapshot_keeps_what_it_had(rt: HostRuntime) -> Result<(), Fail> {
    let mut scores: Tree<u64, u64, Global> = Tree::empty(rt.alloc());
    scores.insert(7, 70)?;
    scores.insert(9, 90)?;
    let before = scores.snapshot()?;
    scores.insert(7, 71)?;
    scores.remove(&9)?;
    assert_eq!(rt; (scores.get(&7), scores.len()), (Some(&71), 1));
    assert_eq!(rt; before.seek(&8).next(), Some((&9, &90)));
    Ok(())
}
