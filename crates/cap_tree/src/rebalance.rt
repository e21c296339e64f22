//! Underfull nodes take items of a sibling, or are merged with it.
ghost use Rattle.std.specs.Prelude.{◌≡◌, ◌+◌, ◌<◌, ◌≤◌, ◌⊎◌, vec_len, IfOk};
ghost use Rattle.cap_tree.specs.Shape.{branches, place};
ghost use Rattle.cap_tree.specs.Siblings.{AreSiblings, IsRearrangement, IsReady};

use crate::child::side_of;
use crate::divide::divide;
use crate::node::{Child, FEWEST, MOST};
use crate::room::insert_in_room;
use cap_value::{AllocHandle, Exact, OutOfMemory};

// How many of so many items the first of two neighbours gets: all where one node can have them, else half.
fn share_of(total: usize) -> usize
    requires some { 8 ≤ total }
    requires most { total ≤ 32 }
    ensures more { 4 < result }
    ensures most { result ≤ 16 }
    ensures rest { (result ≡ total) ⊎ (result + 4 < total) }
    ensures back { total ≤ result + 16 }
{
    if total <= MOST { total } else { total / 2 }
}

// Divides the items of the child at `at` and of the one behind it anew, of which one is underfull, and
// answers where the key, which belongs to one of them, belongs then.
fn refill<K: Ord + Exact + Drop, V: Exact + Drop, A: AllocHandle>(
    children: &mut Vec<Child<K, V, A>, A>,
    height: u64,
    at: usize,
    key: &K,
) -> Result<usize, OutOfMemory>
    requires within { at + 1 < vec_len children.old }
    requires siblings { AreSiblings K.cmp height (branches children.old.items) }
    requires place { (place K.cmp key.now (branches children.old.items) ≡ at + 1)
        ⊎ (place K.cmp key.now (branches children.old.items) ≡ at + 2) }
    ensures same { IsRearrangement K.cmp height (branches children.old.items) (branches children.new.items) }
    ensures not_more { vec_len children.new ≤ vec_len children.old }
    ensures one_less { vec_len children.old ≤ vec_len children.new + 1 }
    ensures ready { IfOk result (IsReady K.cmp key.now (λ n. 4 < n) (branches children.new.items)) }
{
    let mut back = children.remove(at + 1);
    let front = &mut children[at];
    let cut = share_of(front.node.len() + back.node.len());
    match divide(&mut front.node, &mut back.node, &back.least, cut) {
        Ok(None) => Ok(at),
        Ok(Some(least)) => {
            let side = side_of(key, &least, at);
            back.least = least;
            insert_in_room(children, at + 1, back);
            Ok(side)
        }
        Err(why) => {
            insert_in_room(children, at + 1, back);
            Err(why)
        }
    }
}

// Sees to it that the child into which the key belongs can lose an item, and answers which it is then.
pub(crate) fn make_spare<K: Ord + Exact + Drop, V: Exact + Drop, A: AllocHandle>(
    children: &mut Vec<Child<K, V, A>, A>,
    height: u64,
    at: usize,
    key: &K,
) -> Result<usize, OutOfMemory>
    requires two { 1 < vec_len children.old }
    requires siblings { AreSiblings K.cmp height (branches children.old.items) }
    requires ready { IsReady K.cmp key.now (λ n. n ≤ 16) (branches children.old.items) at }
    ensures same { IsRearrangement K.cmp height (branches children.old.items) (branches children.new.items) }
    ensures not_more { vec_len children.new ≤ vec_len children.old }
    ensures one_less { vec_len children.old ≤ vec_len children.new + 1 }
    ensures ready { IfOk result (IsReady K.cmp key.now (λ n. 4 < n) (branches children.new.items)) }
{
    if children[at].node.len() > FEWEST {
        return Ok(at);
    }
    // The neighbour in front, or the one behind where none is in front.
    refill(children, height, at.saturating_sub(1), key)
}
