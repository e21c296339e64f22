//! The positions of the changes of a blob, in order.
ghost use Rattle.std.specs.Prelude.{◌≡◌, ◌+◌, ◌<◌, ◌^◌, IfSome, MatchOption, length, map, slice_index_or};
ghost use Rattle.cap_connection.specs.Iter as iter;
ghost use Rattle.cap_connection.specs.Positions.{IsFirstFrom, IsNoneFrom, counts};

use cap_changes::{Entry, TableGroup};
use cap_codec::Contents;
use std::alloc::Global;

/// The position of a change: its group, and its number within the group, both from 0 on.
#[derive(Clone, Copy, Drop)]
pub struct Position {
    /// The group.
    pub group: usize,
    /// The change within it.
    pub change: usize,
}

/// The first change at this position or behind it.
pub(crate) fn first_from(contents: &Contents<Global>, from: Position) -> Option<Position>
    ensures first { MatchOption result (IsNoneFrom (counts contents.now) from)
        (λ found. IsFirstFrom (counts contents.now) from found) }
    ensures fits { IfSome result (λ found. found.change + 1 < 2 ^ 64) }
{
    let groups = group_count(contents);
    let mut position = from;
    while position.group < groups {
        if position.change < change_count(contents, position.group) {
            return Some(position);
        }
        position = Position {
            group: position.group + 1,
            change: 0,
        };
    }
    None
}

/// The number of the change at a position, counted from 0 over the whole blob. No memory holds a blob of which
/// it has none.
pub(crate) fn number_at(contents: &Contents<Global>, position: Position) -> Option<u64>
    ensures { IfSome result (λ number. number ≡ iter.number_at contents.now position) }
{
    let mut number = position.change as u64;
    for group in 0..position.group {
        number = number.checked_add(change_count(contents, group) as u64)?;
    }
    Some(number)
}

fn group_count(contents: &Contents<Global>) -> usize
    ensures { result ≡ length (counts contents.now) }
{
    match contents {
        Contents::Changes(list) => list.groups().len(),
        Contents::Patches(list) => list.groups().len(),
    }
}

fn change_count(contents: &Contents<Global>, group: usize) -> usize
    ensures { result ≡ slice_index_or (counts contents.now) group 0 }
{
    match contents {
        Contents::Changes(list) => count_in(list.groups(), group),
        Contents::Patches(list) => count_in(list.groups(), group),
    }
}

fn count_in<C: Entry>(groups: &[TableGroup<C, Global>], group: usize) -> usize
    ensures { result ≡ slice_index_or (map (λ group. length group.changes) groups.now) group 0 }
{
    match groups.get(group) {
        Some(group) => group.changes().len(),
        None => 0,
    }
}
