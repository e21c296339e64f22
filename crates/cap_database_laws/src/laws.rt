//! Laws of operations on tables and databases, over the definitions alone. The functions do nothing at run time.
ghost use Rattle.std.specs.Prelude.{◌≡◌, ◌+◌, ℕ, List, Some, None, Ok, IfOk, false, [], ◌∷◌, ◌++◌, Err, length};
ghost use Rattle.std.specs.Ordering.{nat_cmp};
ghost use Rattle.cap_row.specs.Fields.{Fields};
ghost use Rattle.cap_row.specs.Key.{key_of};
ghost use Rattle.cap_value.specs.declared.value.Value.{Value};
ghost use Rattle.cap_tree.specs.Tree.{get};
ghost use Rattle.cap_table.specs.Operation.{delete_row, insert_row, update_row, without};
ghost use Rattle.cap_table.specs.Table.{TableState};
ghost use Rattle.cap_table.specs.declared.row_ref.RowRef.{RowRef};
ghost use Rattle.cap_value.specs.Bytes.{bytes_eq};
ghost use Rattle.cap_value.specs.declared.refusal.Refusal.{Refusal};
ghost use Rattle.cap_table.specs.Sound.{IsRising};
ghost use Rattle.cap_database_laws.specs.Apart.{AreApart, Commute, CommuteIn, rows_touched};
ghost use Rattle.cap_database_laws.specs.Batches.{accepted_ops, batches_left};
ghost use Rattle.cap_database.specs.Carried.{CarryFirstRows};
ghost use Rattle.cap_database_laws.specs.Front.{IsFirstRefused};
ghost use Rattle.cap_database_laws.specs.Ids.{GiveIdsOnce, GivesIdsOnce};
ghost use Rattle.cap_database.specs.Operation.{act, changes, run, step};
ghost use Rattle.cap_database.specs.Outcome.{OutcomeState};
ghost use Rattle.cap_database.specs.Tables.{AreRising, Tables, table_of};
ghost use Rattle.cap_database.specs.declared.cause.Cause.{Cause};
ghost use Rattle.cap_database.specs.declared.op.Action.{Action};
ghost use Rattle.cap_database.specs.declared.op.Op.{Op};
ghost use Rattle.cap_database.specs.declared.refused_at.RefusedAt.{RefusedAt};

use cap_value::AllocHandle;

/// An insert, and then a delete of the new row's key, leave the table as it was.
#[tactic(auto, using(crate::proofs::IdLemmas::insert_then_delete))]
pub fn delete_undoes_insert<A: AllocHandle>()
    ensures { (before after : TableState A) (row key : Fields A) → key_of before.schema row ≡ Some key →
        insert_row before row ≡ Ok after → delete_row after (RowRef.Key key) ≡ Ok before }
{}

/// A new row without a key gets the next id, which is never the next one again.
#[tactic(auto, using(crate::proofs::IdLemmas::next_given))]
pub fn insert_takes_next_id<A: AllocHandle>()
    ensures { (before after : TableState A) (row : Fields A) → key_of before.schema row ≡ None
        → insert_row before row ≡ Ok after →
        (after.next_id ≡ before.next_id + 1) × (get nat_cmp after.loose before.next_id ≡ Some row) }
{}

/// Ids are never given again: the next id never falls, a row under an id that no row had stands under one
/// that was not given before and is now, and an id that was given and whose row is gone names no row ever
/// after. It holds from each state to the next, and so over any number of operations.
#[tactic(auto, using(crate::proofs::IdLemmas::ids_once))]
pub fn ids_are_given_once<A: AllocHandle>()
    ensures insert { (table : TableState A) (row : Fields A) →
        IfOk (insert_row table row) (GivesIdsOnce table) }
    ensures update { (table : TableState A) (name : RowRef A) (fields : List (ℕ × Value A)) →
        IfOk (update_row table name fields) (GivesIdsOnce table) }
    ensures delete { (table : TableState A) (name : RowRef A) →
        IfOk (delete_row table name) (GivesIdsOnce table) }
    ensures none { (table : TableState A) → GivesIdsOnce table table }
    ensures over { (before between after : TableState A) → GivesIdsOnce before between
        → GivesIdsOnce between after → GivesIdsOnce before after }
{}

/// Where the operations in front are accepted and the next one is refused on what they leave, the list is
/// refused at its place, whatever follows.
#[tactic(auto, using(crate::proofs::BatchesLemmas::run_laws))]
pub fn first_refusal_ends_the_list<A: AllocHandle>()
    ensures { (tables : Tables A) (front back : List (Op A)) (op : Op A)
        (left : OutcomeState A) (why : Refusal) →
        run tables front ≡ Ok left → step left.database op ≡ Err why →
        run tables (front ++ op ∷ back) ≡ Err (record { at = length front; why = why }) }
{}

/// A list that is refused has operations in front of the refused one that are all accepted, and leave what
/// they leave alone; on that the one at the index answered is refused.
#[tactic(auto, using(crate::proofs::BatchesLemmas::first_refused))]
pub fn operations_in_front_are_accepted<A: AllocHandle>()
    ensures { (tables : Tables A) (ops : List (Op A)) (refused : RefusedAt) → run tables ops ≡ Err refused →
        IsFirstRefused tables ops refused }
{}

/// Two operations on different tables, of which the second is accepted after the first, are accepted the
/// other way round as well and leave the same database.
#[tactic(auto, using(crate::proofs::UndoneLemmas::commute))]
pub fn operations_on_different_tables_commute<A: AllocHandle>()
    ensures { (tables one both : Tables A) (first second : Op A) → AreRising tables →
        bytes_eq first.table second.table ≡ false → step tables first ≡ Ok one → step one second ≡ Ok both →
        (other : Tables A) × (step tables second ≡ Ok other) × (step other first ≡ Ok both) }
{}

/// Two operations that speak of different rows of one table, by their keys and ids, and are each accepted on
/// it, the second also after the first: so is the first after the second. Either order leaves the same keyed
/// rows and the same next id, and where only one of them gives an id, the same table. In a database it is so
/// as well.
pub fn operations_on_different_rows_commute<A: AllocHandle>()
    ensures table { (table one other both : TableState A) (first second : Action A) → IsRising table →
        AreApart (rows_touched table first) (rows_touched table second) →
        act table first ≡ Ok one → act table second ≡ Ok other → act one second ≡ Ok both →
        Commute table one other both first }
    ensures database { (tables one other both : Tables A) (first second : Op A) (table : TableState A) →
        AreRising tables → second.table ≡ first.table → table_of tables first.table ≡ Some table →
        AreApart (rows_touched table first.action) (rows_touched table second.action) →
        step tables first ≡ Ok one → step tables second ≡ Ok other → step one second ≡ Ok both →
        CommuteIn tables one other both first }
{}

/// One operation more, which is accepted on what the others leave, adds its changes to theirs.
#[tactic(auto, using(crate::proofs::BatchesLemmas::run_laws))]
pub fn last_operation_adds_its_changes<A: AllocHandle>()
    ensures { (tables after : Tables A) (front : List (Op A)) (op : Op A) (left : OutcomeState A) →
        run tables front ≡ Ok left → step left.database op ≡ Ok after →
        run tables (front ++ op ∷ []) ≡ Ok (record {
          database = after;
          changes = left.changes ++ changes left.database op;
        }) }
{}

/// A refused batch leaves nothing: batches one after another leave the database and the changes that the
/// operations of the accepted ones alone leave, made as one list.
#[tactic(auto, using(crate::proofs::BatchesLemmas::batches_accepted))]
pub fn refused_batches_leave_nothing<A: AllocHandle>()
    ensures refused { (tables : Tables A) (batch : List (Op A)) (batches : List (List (Op A)))
        (why : RefusedAt) → run tables batch ≡ Err why →
        batches_left tables (batch ∷ batches) ≡ batches_left tables batches }
    ensures accepted { (tables : Tables A) (batches : List (List (Op A))) →
        run tables (accepted_ops tables batches) ≡ Ok (batches_left tables batches) }
{}

/// The first change of each row by a list of operations carries the row that was there before all of them, or
/// its absence: the first image of whoever follows the changes.
#[tactic(auto, using(crate::proofs::BatchesLemmas::run_laws))]
pub fn first_changes_carry_the_rows_before<A: AllocHandle>()
    ensures { (tables : Tables A) (ops : List (Op A)) →
        IfOk (run tables ops) (λ left. CarryFirstRows tables left.changes) }
{}

/// In a database, too, an insert, and then a delete of the new row's key, leave everything as it was.
pub fn deletes_undo_inserts<A: AllocHandle>()
    ensures { (tables after : Tables A) (name : List ℕ) (table : TableState A) (row key : Fields A)
        (first second : Cause) → AreRising tables → table_of tables name ≡ Some table →
        key_of table.schema row ≡ Some key →
        step tables (record { table = name; action = Action.Insert row; cause = first }) ≡ Ok after →
        step after (record { table = name; action = Action.Delete (RowRef.Key key); cause = second })
        ≡ Ok tables }
{
    delete_undoes_insert::<A>();
}

/// Over any list of operations each table's next id never falls, a row under an id that no row had is under
/// one that was not given before, and an id that was given and whose row was deleted names no row ever after.
pub fn lists_give_ids_once<A: AllocHandle>()
    ensures { (tables : Tables A) (ops : List (Op A)) →
        IfOk (run tables ops) (λ left. GiveIdsOnce tables left.database) }
{
    ids_are_given_once::<A>();
}
