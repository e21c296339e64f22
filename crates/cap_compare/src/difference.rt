//! One key at which two tables differ.

use cap_row::{Key, Row};
use cap_value::AllocHandle;

/// A key at which two tables differ.
#[derive(Drop)]
pub struct Difference<A: AllocHandle> {
    /// The key, of a row of either table or of both.
    pub key: Key<A>,
    /// The row of the first table under the key, `None` where it has none.
    pub image: Option<Row<A>>,
}
