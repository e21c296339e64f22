//! Copies of operations.
ghost use Rattle.std.specs.Prelude.{◌≡◌, IfOk};

use cap_database::{Action, Assignments, Op};
use cap_value::{AllocHandle, OutOfMemory};

/// The same operation, which shares its name and values.
pub fn copy_of_op<A: AllocHandle>(alloc: A, op: &Op<A>) -> Result<Op<A>, OutOfMemory>
    ensures { IfOk result (λ copy. copy ≡ op.now) }
{
    let action = match &op.action {
        Action::Insert(row) => Action::Insert(row.copy()?),
        Action::Update(row, fields) => {
            Action::Update(row.copy()?, copy_of_fields(alloc, fields)?)
        }
        Action::Delete(row) => Action::Delete(row.copy()?),
    };
    Ok(Op {
        table: op.table.copy()?,
        cause: op.cause,
        action,
    })
}

fn copy_of_fields<A: AllocHandle>(
    alloc: A,
    fields: &Assignments<A>,
) -> Result<Assignments<A>, OutOfMemory>
    ensures { IfOk result (λ copy. copy ≡ fields.now) }
{
    let mut copies = Vec::with_capacity(alloc, fields.fields().len())?;
    for (column, value) in fields.fields() {
        copies.push((*column, value.copy()?))?;
    }
    Ok(Assignments::new(copies))
}
