//! Items that move between two vectors, of which one goes on where the other ends.
ghost use Rattle.std.specs.Prelude.{◌≡◌, ◌+◌, ◌<◌, ◌≤◌, ◌^◌, ◌++◌, length, vec_len, take, drop};
ghost use Rattle.std.specs.Prelude.{slice_index_or, OnOk, OnErr, IfOk, MatchOption};
ghost use Rattle.std.specs.Vec.{vec_capacity};

use crate::node::Child;
use crate::room::insert_in_room;
use cap_value::{AllocHandle, Exact, OutOfMemory};

/// An item of a node: an entry or a child.
pub(crate) trait Item<K> {
    ghost first_key: { Self → K };

    // A key that nothing in the item is below.
    fn first_key(&self) -> &K
        ensures { result.now ≡ first_key self.now };
}

impl<K, V> Item<K> for (K, V) {
    ghost first_key = { λ e. e.0 };

    fn first_key(&self) -> &K {
        &self.0
    }
}

impl<K: Ord, V, A: AllocHandle> Item<K> for Child<K, V, A> {
    ghost first_key = { λ p. p.least };

    fn first_key(&self) -> &K {
        &self.least
    }
}

// Moves the items of the front one from `at` on to the back one, which has room for them.
pub(crate) fn shift_back<T: Drop, A: AllocHandle>(
    front: &mut Vec<T, A>,
    back: &mut Vec<T, A>,
    at: usize,
)
    requires within { at ≤ vec_len front.old }
    requires room { vec_len front.old + vec_len back.old ≤ at + vec_capacity back.old }
    ensures front { front.new.items ≡ take at (front.old.items ++ back.old.items) }
    ensures front_len { vec_len front.new ≡ at }
    ensures back { back.new.items ≡ drop at (front.old.items ++ back.old.items) }
    ensures back_len { vec_len back.new + at ≡ vec_len front.old + vec_len back.old }
{
    while front.len() > at {
        let Some(item) = front.pop() else {
            unreachable!()
        };
        insert_in_room(back, 0, item);
    }
}

// Moves as many of the first items of the back one to the front one that the front one has `at`, for which it
// has room.
fn shift_front<T: Drop, A: AllocHandle>(front: &mut Vec<T, A>, back: &mut Vec<T, A>, at: usize)
    requires more { vec_len front.old ≤ at }
    requires enough { at ≤ vec_len front.old + vec_len back.old }
    requires room { at ≤ vec_capacity front.old }
    ensures front { front.new.items ≡ take at (front.old.items ++ back.old.items) }
    ensures front_len { vec_len front.new ≡ at }
    ensures back { back.new.items ≡ drop at (front.old.items ++ back.old.items) }
    ensures back_len { vec_len back.new + at ≡ vec_len front.old + vec_len back.old }
{
    while front.len() < at {
        let item = back.remove(0);
        let Ok(()) = front.push(item) else {
            unreachable!()
        };
    }
}

// Redistributes the items of both, so that the front one has `at` of them.
fn divide<T: Drop, A: AllocHandle>(front: &mut Vec<T, A>, back: &mut Vec<T, A>, at: usize)
    requires enough { at ≤ vec_len front.old + vec_len back.old }
    requires front_room { at ≤ vec_capacity front.old }
    requires back_room { vec_len front.old + vec_len back.old ≤ at + vec_capacity back.old }
    ensures front { front.new.items ≡ take at (front.old.items ++ back.old.items) }
    ensures front_len { vec_len front.new ≡ at }
    ensures back { back.new.items ≡ drop at (front.old.items ++ back.old.items) }
    ensures back_len { vec_len back.new + at ≡ vec_len front.old + vec_len back.old }
{
    if at < front.len() {
        shift_back(front, back, at);
    } else {
        shift_front(front, back, at);
    }
}

// Reserves memory for `at` items in the front one and for the others in the back one.
fn reserve_for<T, A: AllocHandle>(
    front: &mut Vec<T, A>,
    back: &mut Vec<T, A>,
    at: usize,
) -> Result<(), OutOfMemory>
    requires front_small { vec_len front.old ≤ 16 }
    requires back_small { vec_len back.old ≤ 16 }
    requires enough { at ≤ vec_len front.old + vec_len back.old }
    ensures front { front.new.items ≡ front.old.items }
    ensures front_len { vec_len front.new ≡ vec_len front.old }
    ensures back { back.new.items ≡ back.old.items }
    ensures back_len { vec_len back.new ≡ vec_len back.old }
    ensures front_room { OnOk result (at ≤ vec_capacity front.new) }
    ensures back_room { OnOk result (vec_len front.old + vec_len back.old ≤ at + vec_capacity back.new) }
{
    let rest = front.len() + back.len() - at;
    front.try_reserve(at.saturating_sub(front.len()))?;
    back.try_reserve(rest.saturating_sub(back.len()))
}

// The item that is at `at` where the back ones go on behind the front ones.
fn item_at<'a, T>(front: &'a [T], back: &'a [T], at: usize) -> &'a T
    requires { at < length front.now + length back.now }
    ensures { result.now ≡ slice_index_or (front.now ++ back.now) at result.now }
{
    if at < front.len() {
        return &front[at];
    }
    &back[at - front.len()]
}

// The first key of the item that is at `at` where the back ones go on behind the front ones, if one is there.
fn key_at<T: Item<K>, K: Exact + Drop>(
    front: &[T],
    back: &[T],
    at: usize,
) -> Result<Option<K>, OutOfMemory>
    requires small { length front.now + length back.now < 2 ^ 64 }
    requires within { at ≤ length front.now + length back.now }
    ensures { IfOk result (λ o. MatchOption o (at ≡ length front.now + length back.now)
        (λ k. (at < length front.now + length back.now)
        × ((d : T) × ((d ≡ slice_index_or (front.now ++ back.now) at d) × (k ≡ T.first_key d))))) }
{
    if at == front.len() + back.len() {
        return Ok(None);
    }
    let key = item_at(front, back, at).first_key().clone()?;
    Ok(Some(key))
}

// Divides the items of both anew, so that the front one has `at` of them, and answers the first key of the
// back one, if it has any items.
pub(crate) fn cut_items<T: Item<K> + Drop, K: Exact + Drop, A: AllocHandle>(
    front: &mut Vec<T, A>,
    back: &mut Vec<T, A>,
    at: usize,
) -> Result<Option<K>, OutOfMemory>
    requires front_small { vec_len front.old ≤ 16 }
    requires back_small { vec_len back.old ≤ 16 }
    requires within { at ≤ vec_len front.old + vec_len back.old }
    ensures err { OnErr result (front.new.items ≡ front.old.items) }
    ensures err_len { OnErr result (vec_len front.new ≡ vec_len front.old) }
    ensures back_err { OnErr result (back.new.items ≡ back.old.items) }
    ensures back_err_len { OnErr result (vec_len back.new ≡ vec_len back.old) }
    ensures key { IfOk result (λ o. MatchOption o (at ≡ vec_len front.old + vec_len back.old)
        (λ k. (at < vec_len front.old + vec_len back.old) × ((d : T)
        × ((d ≡ slice_index_or (front.old.items ++ back.old.items) at d) × (k ≡ T.first_key d))))) }
    ensures front { OnOk result (front.new.items ≡ take at (front.old.items ++ back.old.items)) }
    ensures front_len { OnOk result (vec_len front.new ≡ at) }
    ensures back { OnOk result (back.new.items ≡ drop at (front.old.items ++ back.old.items)) }
    ensures back_len { OnOk result (vec_len back.new + at ≡ vec_len front.old + vec_len back.old) }
{
    let key = key_at(front.as_slice(), back.as_slice(), at)?;
    reserve_for(front, back, at)?;
    divide(front, back, at);
    Ok(key)
}
