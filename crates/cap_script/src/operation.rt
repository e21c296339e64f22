//! Reads the operations of a transaction.
ghost use Rattle.std.specs.Prelude.{◌≡◌, ◌<◌, ◌++◌, ◌∷◌, [], true, false, None, length, nat_le, IfErr};
ghost use Rattle.std.specs.Prelude.{MatchResult, OnOk};
ghost use Rattle.cap_language.specs.Forms.{separated};
ghost use Rattle.cap_language.specs.Grammar.{Reads, read, seen_items};
ghost use Rattle.cap_script.specs.Language.{batch, cascaded, delete, field, fields, insert, operation, row};
ghost use Rattle.cap_script.specs.Language.{update};

use cap_database::{Action, Assignments, Cause, Op};
use cap_language::{Cursor, LineFault, name, row, value, values};
use cap_row::Key;
use cap_table::RowRef;
use cap_txn::{Batch, OPS_MAX};
use cap_value::{AllocHandle, Refusal, Value};

// Reads a reference to a row: `key(V,..)` or `loose N`. A key with a NULL is read as `loose 0`, which names
// no row.
#[tactic(auto, unfolding(crate::specs::Language::row))]
pub(crate) fn row_ref<A: AllocHandle>(
    alloc: A,
    cursor: &mut Cursor<'_>,
) -> Result<RowRef<A>, LineFault>
    ensures reads { Reads result cursor.new.rest.now (read row cursor.old.rest.now) }
{
    let word = cursor.word()?;
    if word.is("key") {
        let values = values(alloc, cursor)?;
        return match Key::of_values(alloc, values)? {
            Some(key) => Ok(RowRef::Key(key)),
            None => Ok(RowRef::Loose(0)),
        };
    }
    if word.is("loose") {
        return Ok(RowRef::Loose(cursor.natural()?));
    }
    Err(word.misfit)
}

// Reads operations into an empty batch: `OP ; OP ..`.
#[tactic(auto, unfolding(crate::specs::Language::batch))]
pub(crate) fn batch<A: AllocHandle>(
    alloc: A,
    cursor: &mut Cursor<'_>,
    empty: Batch<A>,
) -> Result<Batch<A>, LineFault>
    requires { (empty.ops ≡ []) × (empty.reads ≡ None) }
    ensures reads { Reads result cursor.new.rest.now (read (batch empty.base) cursor.old.rest.now) }
{
    let mut made = empty;
    push(&mut made, operation(alloc, cursor, false)?)?;
    while cursor.takes_sign(b';') {
        let is_full = is_full(&made);
        push(&mut made, operation(alloc, cursor, is_full)?)?;
    }
    Ok(made)
}

// Whether there is no room behind these operations.
fn is_full<A: AllocHandle>(batch: &Batch<A>) -> bool
    ensures { result ≡ nat_le 10000 (length batch.now.ops) }
{
    batch.ops().len() >= OPS_MAX
}

// Appends the operation, for which there is room.
fn push<A: AllocHandle>(batch: &mut Batch<A>, op: Op<A>) -> Result<(), LineFault>
    requires { length batch.old.ops < 10000 }
    ensures base { OnOk result (batch.new.base ≡ batch.old.base) }
    ensures reads { OnOk result (batch.new.reads ≡ None) }
    ensures ops { OnOk result (batch.new.ops ≡ batch.old.ops ++ op ∷ []) }
    ensures memory { IfErr result (λ fault. fault ≡ LineFault.OutOfMemory) }
{
    Ok(batch.push(op)?)
}

// Reads an operation: `insert T (V,..)`, `update T REF set I = V , ..` or `delete T REF`, after `cascade`
// where that is its cause. Where there is no room for it, its first token exceeds the limit.
#[tactic(auto, unfolding(crate::specs::Language::operation))]
fn operation<A: AllocHandle>(
    alloc: A,
    cursor: &mut Cursor<'_>,
    is_full: bool,
) -> Result<Op<A>, LineFault>
    ensures reads { Reads result cursor.new.rest.now (read (operation is_full) cursor.old.rest.now) }
    ensures room { OnOk result (is_full ≡ false) }
{
    let word = cursor.word()?;
    if word.is("insert") {
        has_room(is_full)?;
        insert(alloc, cursor, Cause::Direct)
    } else if word.is("update") {
        has_room(is_full)?;
        update(alloc, cursor, Cause::Direct)
    } else if word.is("delete") {
        has_room(is_full)?;
        delete(alloc, cursor, Cause::Direct)
    } else if word.is("cascade") {
        has_room(is_full)?;
        cascaded(alloc, cursor)
    } else {
        Err(word.misfit)
    }
}

// Reads the operation behind the word `cascade`.
#[tactic(auto, unfolding(crate::specs::Language::cascaded))]
pub(crate) fn cascaded<A: AllocHandle>(
    alloc: A,
    cursor: &mut Cursor<'_>,
) -> Result<Op<A>, LineFault>
    ensures reads { Reads result cursor.new.rest.now (read cascaded cursor.old.rest.now) }
{
    let word = cursor.word()?;
    if word.is("insert") {
        insert(alloc, cursor, Cause::Cascade)
    } else if word.is("update") {
        update(alloc, cursor, Cause::Cascade)
    } else if word.is("delete") {
        delete(alloc, cursor, Cause::Cascade)
    } else {
        Err(word.misfit)
    }
}

// Refuses an operation where there is no room for it.
fn has_room(is_full: bool) -> Result<(), LineFault>
    ensures { MatchResult result (λ _. is_full ≡ false)
        (λ fault. (is_full ≡ true) × (fault ≡ LineFault.Limit Refusal.TooMany)) }
{
    if is_full {
        Err(LineFault::Limit(Refusal::TooMany))
    } else {
        Ok(())
    }
}

// Reads a new row of a table: `T (V,..)`.
#[tactic(auto, unfolding(crate::specs::Language::insert))]
pub(crate) fn insert<A: AllocHandle>(
    alloc: A,
    cursor: &mut Cursor<'_>,
    cause: Cause,
) -> Result<Op<A>, LineFault>
    ensures reads { Reads result cursor.new.rest.now (read (insert cause) cursor.old.rest.now) }
{
    let table = name(alloc, cursor)?;
    let action = Action::Insert(row(alloc, cursor)?);
    Ok(Op {
        table,
        cause,
        action,
    })
}

// Reads a row of a table and what is set in it: `T REF set I = V , ..`.
#[tactic(auto, unfolding(crate::specs::Language::update))]
pub(crate) fn update<A: AllocHandle>(
    alloc: A,
    cursor: &mut Cursor<'_>,
    cause: Cause,
) -> Result<Op<A>, LineFault>
    ensures reads { Reads result cursor.new.rest.now (read (update cause) cursor.old.rest.now) }
{
    let table = name(alloc, cursor)?;
    let row = row_ref(alloc, cursor)?;
    let action = Action::Update(row, fields(alloc, cursor)?);
    Ok(Op {
        table,
        cause,
        action,
    })
}

// Reads a row of a table that is deleted: `T REF`.
#[tactic(auto, unfolding(crate::specs::Language::delete))]
pub(crate) fn delete<A: AllocHandle>(
    alloc: A,
    cursor: &mut Cursor<'_>,
    cause: Cause,
) -> Result<Op<A>, LineFault>
    ensures reads { Reads result cursor.new.rest.now (read (delete cause) cursor.old.rest.now) }
{
    let table = name(alloc, cursor)?;
    let action = Action::Delete(row_ref(alloc, cursor)?);
    Ok(Op {
        table,
        cause,
        action,
    })
}

// Reads the assignments of an update: `set I = V , ..`.
#[tactic(auto, unfolding(crate::specs::Language::fields))]
fn fields<A: AllocHandle>(alloc: A, cursor: &mut Cursor<'_>) -> Result<Assignments<A>, LineFault>
    ensures reads { Reads result cursor.new.rest.now (read fields cursor.old.rest.now) }
{
    cursor.keyword("set")?;
    Ok(Assignments::new(assignments(alloc, cursor)?))
}

fn assignments<A: AllocHandle>(
    alloc: A,
    cursor: &mut Cursor<'_>,
) -> Result<Vec<(usize, Value<A>), A>, LineFault>
    ensures reads { Reads (seen_items result) cursor.new.rest.now
        (read (separated 44 (λ _. field)) cursor.old.rest.now) }
{
    let mut fields = Vec::new(alloc);
    fields.push(field(alloc, cursor)?)?;
    while cursor.takes_sign(b',') {
        fields.push(field(alloc, cursor)?)?;
    }
    Ok(fields)
}

// Reads a column number, from 0, and its new value: `I = V`.
#[tactic(auto, unfolding(crate::specs::Language::field))]
fn field<A: AllocHandle>(alloc: A, cursor: &mut Cursor<'_>) -> Result<(usize, Value<A>), LineFault>
    ensures reads { Reads result cursor.new.rest.now (read field cursor.old.rest.now) }
{
    let column = cursor.natural()? as usize;
    cursor.sign(b'=')?;
    Ok((column, value(alloc, cursor)?))
}
