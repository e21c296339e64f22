//! The tables of a database, in the order of their names: where a name is, and changes at that index.
ghost use Rattle.std.specs.Prelude.{◌≡◌, ◌<◌, ◌≤◌, List, ℕ, length, slice_set, slice_index_or, MatchResult};
ghost use Rattle.std.specs.Prelude.{Some, None, Ok, IfOk, OnOk, OnErr, is_some, true, false};
ghost use Rattle.std.specs.List.{insert};
ghost use Rattle.cap_value.specs.Bytes.{bytes_cmp};
ghost use Rattle.cap_tree.specs.Tree.{IsOrdered, get, put_entry};
ghost use Rattle.cap_table.specs.WithHook.{LeavesIfAllowed};
ghost use Rattle.cap_database.specs.Tables.{Tables};
ghost use Rattle.cap_value.specs.Memory.{LeavesUnlessMemory, RefusesFirst};
ghost use Rattle.cap_table.specs.ChangeFault.{RefusesAtOnce};
ghost use Rattle.cap_table.specs.Table.{TableState};
ghost use Rattle.cap_database.specs.KeptKey.{kept_key, row_left};
ghost use Rattle.cap_database.specs.Operation.{step, changes_made, changes, refused_step};
ghost use Rattle.cap_database.specs.Read.{row_at};

use crate::kept_key::act_keyed;
use crate::{Effect, Op};
use cap_row::{Key, Row};
use cap_table::{ChangeFault, Table};
use cap_tree::Hook;
use cap_value::{AllocHandle, Fault, Name, OutOfMemory, Refusal};
use std::cmp::Ordering;

// The index of the name, or the index where it belongs.
pub(crate) fn place_of<A: AllocHandle>(
    tables: &[(Name<A>, Table<A>)],
    name: &Name<A>,
) -> Result<usize, usize>
    requires { IsOrdered bytes_cmp tables.now }
    ensures within { MatchResult result (λ i. i < length tables.now) (λ i. i ≤ length tables.now) }
    ensures put { MatchResult result
        (λ i. (d : List ℕ × TableState A) (t : TableState A) → put_entry bytes_cmp tables.now name.now t
        ≡ slice_set tables.now i ((slice_index_or tables.now i d).0, t))
        (λ i. (t : TableState A) → put_entry bytes_cmp tables.now name.now t
        ≡ insert tables.now i (name.now, t)) }
    ensures get { MatchResult result
        (λ i. (d : List ℕ × TableState A) → get bytes_cmp tables.now name.now ≡ Some
        (slice_index_or tables.now i d).1)
        (λ i. get bytes_cmp tables.now name.now ≡ None) }
    ensures there { MatchResult result
        (λ i. is_some (get bytes_cmp tables.now name.now) ≡ true)
        (λ i. is_some (get bytes_cmp tables.now name.now) ≡ false) }
{
    let mut at = 0;
    while at < tables.len() {
        match name.order(&tables[at].0) {
            Ordering::Less => return Err(at),
            Ordering::Equal => return Ok(at),
            Ordering::Greater => at += 1,
        }
    }
    Err(at)
}

// Inserts a table at the index.
pub(crate) fn put_at<A: AllocHandle>(
    tables: &mut Vec<(Name<A>, Table<A>), A>,
    place: usize,
    name: Name<A>,
    table: Table<A>,
) -> Result<(), OutOfMemory>
    requires { place ≤ length tables.old.items }
    ensures ok { OnOk result (tables.new.items ≡ insert tables.old.items place (name, table)) }
    ensures err { OnErr result (tables.new.items ≡ tables.old.items) }
{
    tables.insert(place, (name, table))?;
    Ok(())
}

// Makes an operation on the table at the index of its name.
pub(crate) fn step_at<A: AllocHandle>(
    tables: &mut [(Name<A>, Table<A>)],
    place: usize,
    op: &Op<A>,
) -> Result<Effect<A>, Fault<Refusal>>
    requires within { place < length tables.old }
    requires get { (d : List ℕ × TableState A) → get bytes_cmp tables.old op.now.table ≡ Some
        (slice_index_or tables.old place d).1 }
    requires put { (d : List ℕ × TableState A) (t : TableState A)
        → put_entry bytes_cmp tables.old op.now.table t
        ≡ slice_set tables.old place ((slice_index_or tables.old place d).0, t) }
    ensures tables { LeavesUnlessMemory result (step tables.old op.now) tables.new }
    ensures kept { OnErr result (tables.new ≡ tables.old) }
    ensures changes { IfOk result (λ step. changes_made step ≡ changes tables.old op.now) }
    ensures first { RefusesFirst (refused_step tables.old op.now) result }
    ensures ordered { IsOrdered bytes_cmp tables.old → IsOrdered bytes_cmp tables.new }
{
    let (_, table) = &mut tables[place];
    Effect::make(table, op)
}

// Makes an operation on a row that keeps this key, on the table at the index of its name, if the hook allows
// it.
pub(crate) fn step_keyed_at<A: AllocHandle, H: Hook<Row<A>>>(
    tables: &mut [(Name<A>, Table<A>)],
    place: usize,
    op: &Op<A>,
    key: &Key<A>,
    hook: &mut H,
) -> Result<(), ChangeFault<H::Refusal>>
    requires within { place < length tables.old }
    requires get { (d : List ℕ × TableState A) → get bytes_cmp tables.old op.now.table ≡ Some
        (slice_index_or tables.old place d).1 }
    requires put { (d : List ℕ × TableState A) (t : TableState A)
        → put_entry bytes_cmp tables.old op.now.table t
        ≡ slice_set tables.old place ((slice_index_or tables.old place d).0, t) }
    requires key { kept_key tables.old op.now ≡ Some key.now }
    requires can_ask { (after : Tables A) → step tables.old op.now ≡ Ok after
        → H.can_ask hook.old (row_at tables.old op.now.table key.now)
        (row_left op.now.action (row_at tables.old op.now.table key.now)) }
    ensures tables { LeavesIfAllowed result (step tables.old op.now) tables.new (hook.new ≡ hook.old)
        (λ answer. H.gives hook.old (row_at tables.old op.now.table key.now)
        (row_left op.now.action (row_at tables.old op.now.table key.now)) answer hook.new) }
    ensures kept { OnErr result (tables.new ≡ tables.old) }
    ensures first { RefusesAtOnce (refused_step tables.old op.now) result }
    ensures ordered { IsOrdered bytes_cmp tables.old → IsOrdered bytes_cmp tables.new }
{
    let (_, table) = &mut tables[place];
    act_keyed(table, &op.action, key, hook)
}

pub(crate) fn copies<A: AllocHandle>(
    alloc: A,
    tables: &[(Name<A>, Table<A>)],
) -> Result<Vec<(Name<A>, Table<A>), A>, OutOfMemory>
    ensures { IfOk result (λ copies. copies.items ≡ tables.now) }
{
    let mut copies = Vec::with_capacity(alloc, tables.len())?;
    for entry in tables {
        copies.push(copy_of(entry)?)?;
    }
    Ok(copies)
}

fn copy_of<A: AllocHandle>(entry: &(Name<A>, Table<A>)) -> Result<(Name<A>, Table<A>), OutOfMemory>
    ensures { IfOk result (λ copy. copy ≡ entry.now) }
{
    Ok((entry.0.copy()?, entry.1.snapshot()?))
}
