//! Laws of lists of operations, over the definitions alone. The functions do nothing.
ghost use Rattle.std.specs.Prelude.{◌≡◌, ℕ, Bool, Some, [], List, IfOk};
ghost use Rattle.cap_database.specs.Operation.{run};
ghost use Rattle.cap_database.specs.Tables.{AreRising, Tables, create, schema_of};
ghost use Rattle.cap_database.specs.declared.op.Op.{Op};

use cap_value::AllocHandle;

/// Whatever is made of a database, a table keeps its columns.
pub fn tables_keep_columns<A: AllocHandle>()
    ensures run { (tables : Tables A) (ops : List (Op A)) → IfOk (run tables ops)
        (λ left. (name : List ℕ) → schema_of left.database name ≡ schema_of tables name) }
    ensures create { (tables : Tables A) (name : List ℕ) (schema : List Bool) →
        IfOk (create tables name schema) (λ after. (other : List ℕ) (columns : List Bool)
        → schema_of tables other ≡ Some columns → schema_of after other ≡ Some columns) }
{
    cap_table::laws::operations_keep_columns::<A>();
}

/// In a database that tables and operations were made in, names, keys and ids rise, each row has its table's
/// width, and is stored under its own key, or where it has none under an id that was given.
pub fn tables_keep_order<A: AllocHandle>()
    ensures empty { AreRising {A = A} [] }
    ensures run { (tables : Tables A) (ops : List (Op A)) → AreRising tables
        → IfOk (run tables ops) (λ left. AreRising left.database) }
    ensures create { (tables : Tables A) (name : List ℕ) (schema : List Bool) → AreRising tables
        → IfOk (create tables name schema) AreRising }
{
    cap_table::laws::operations_keep_tables::<A>();
}
