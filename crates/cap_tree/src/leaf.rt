//! Entries of a leaf.
ghost use Rattle.std.specs.Prelude.{◌≡◌, ℕ, ◌+◌, ◌<◌, ◌≤◌, length, slice_set, slice_index_or, vec_len, true};
ghost use Rattle.std.specs.Prelude.{MatchResult, Some, None};
ghost use Rattle.std.specs.List.{insert, remove};
ghost use Rattle.std.specs.Vec.{vec_capacity};
ghost use Rattle.cap_tree.specs.Tree.{IsOrdered, get, put_entry, take_entry};
ghost use Rattle.cap_tree.specs.Shape.{EachBelow};

use std::cmp::Ordering;

// Whether the key is above that of the last entry.
#[inline]
fn is_past_last<K: Ord, V>(entries: &[(K, V)], key: &K) -> bool
    requires { IsOrdered K.cmp entries.now }
    ensures { result ≡ true → EachBelow K.cmp key.now entries.now }
{
    let Some(last) = entries.last() else {
        return true;
    };
    match key.cmp(&last.0) {
        Ordering::Less | Ordering::Equal => false,
        Ordering::Greater => true,
    }
}

// The index of the key, or the index where it belongs. It looks at the last entry first, since rising keys
// belong behind it.
#[inline]
pub(crate) fn search<K: Ord, V>(entries: &[(K, V)], key: &K) -> Result<usize, usize>
    requires { IsOrdered K.cmp entries.now }
    ensures within { MatchResult result (λ i. i < length entries.now) (λ i. i ≤ length entries.now) }
    ensures put { MatchResult result
        (λ i. (v : V) → put_entry K.cmp entries.now key.now v ≡ slice_set entries.now i (key.now, v))
        (λ i. (v : V) → put_entry K.cmp entries.now key.now v ≡ insert entries.now i (key.now, v)) }
    ensures get { MatchResult result
        (λ i. (d : K × V) → get K.cmp entries.now key.now ≡ Some (slice_index_or entries.now i d).1)
        (λ i. get K.cmp entries.now key.now ≡ None) }
    ensures take { MatchResult result
        (λ i. take_entry K.cmp entries.now key.now ≡ remove entries.now i)
        (λ i. take_entry K.cmp entries.now key.now ≡ entries.now) }
{
    if is_past_last(entries, key) {
        return Err(entries.len());
    }
    let mut at = 0;
    while at < entries.len() {
        match key.cmp(&entries[at].0) {
            Ordering::Less => return Err(at),
            Ordering::Equal => return Ok(at),
            Ordering::Greater => at += 1,
        }
    }
    Err(at)
}
