//! Laws of operations on a table, over the definitions alone. The functions do nothing.
ghost use Rattle.std.specs.Prelude.{◌≡◌, ℕ, Bool, List, length, Some, None, IfOk};
ghost use Rattle.cap_row.specs.Fields.{Fields};
ghost use Rattle.cap_row.specs.Key.{fields_cmp, key_of};
ghost use Rattle.cap_value.specs.declared.value.Value.{Value};
ghost use Rattle.cap_tree.specs.Tree.{get};
ghost use Rattle.cap_table.specs.Operation.{delete_row, empty_table, insert_row, update_row, with_key};
ghost use Rattle.cap_table.specs.Operation.{without};
ghost use Rattle.cap_table.specs.Sound.{IsRising};
ghost use Rattle.cap_table.specs.Table.{TableState};
ghost use Rattle.cap_table.specs.declared.row_ref.RowRef.{RowRef};

use crate::RowRef;
use cap_value::AllocHandle;

/// An operation leaves the columns as they were.
pub fn operations_keep_columns<A: AllocHandle>()
    ensures insert { (table : TableState A) (row : Fields A) →
        IfOk (insert_row table row) (λ after. after.schema ≡ table.schema) }
    ensures update { (table : TableState A) (name : RowRef A) (fields : List (ℕ × Value A)) →
        IfOk (update_row table name fields) (λ after. after.schema ≡ table.schema) }
    ensures delete { (table : TableState A) (name : RowRef A) →
        IfOk (delete_row table name) (λ after. after.schema ≡ table.schema) }
{}

/// In a table that operations have left, keys and ids rise, each row has the table's width, and stands under
/// its own key, or where it has none under an id that was given.
pub fn operations_keep_tables<A: AllocHandle>()
    ensures empty { (schema : List Bool) → IsRising (empty_table {A = A} schema) }
    ensures insert { (table : TableState A) (row : Fields A) → IsRising table
        → IfOk (insert_row table row) IsRising }
    ensures update { (table : TableState A) (name : RowRef A) (fields : List (ℕ × Value A)) → IsRising table
        → IfOk (update_row table name fields) IsRising }
    ensures delete { (table : TableState A) (name : RowRef A) → IsRising table
        → IfOk (delete_row table name) IsRising }
{}

/// A row that is put under its own key, or taken out from under it, leaves such a table too, and a row that
/// is found under a key has the table's width and that key.
pub fn keyed_rows_keep_tables<A: AllocHandle>()
    ensures put { (table : TableState A) (key row : Fields A) → IsRising table
        → length row ≡ length table.schema → key_of table.schema row ≡ Some key
        → IsRising (with_key table key row) }
    ensures take { (table : TableState A) (key : Fields A) → IsRising table
        → IsRising (without table (RowRef.Key key)) }
    ensures found { (table : TableState A) (key row : Fields A) → IsRising table
        → get fields_cmp table.keyed key ≡ Some row
        → (length row ≡ length table.schema) × (key_of table.schema row ≡ Some key) }
{}
