//! The refusals of the rules, by number.
use std::fmt;
use std::fmt::{Display, Formatter, Write};
use thiserror::Error;

/// Why the rules refuse a call. Its text is its number and name. The comment of each begins with its number;
/// the numbers never change.
#[derive(Clone, Copy, Debug, PartialEq, Eq, Drop, Error)]
pub enum Refusal {
    /// E1. A text or blob has more than 1,000,000,000 bytes.
    #[error("E1 TooLong")]
    TooLong,
    /// E2. A schema has no column, or more than 2,000.
    #[error("E2 BadSchema")]
    BadSchema,
    /// E3. A row has more or fewer fields than its table has columns.
    #[error("E3 WrongWidth")]
    WrongWidth,
    /// E4. An update names a column outside the table, or one twice.
    #[error("E4 BadColumn")]
    BadColumn,
    /// E5. Another row has the primary key already.
    #[error("E5 Duplicate")]
    Duplicate,
    /// E6. No row has the name.
    #[error("E6 NoRow")]
    NoRow,
    /// E7. A row without a key is to be made, and the last id, 2^63 - 1, was given.
    #[error("E7 IdsSpent")]
    IdsSpent,
    /// E8. No table has the name.
    #[error("E8 NoTable")]
    NoTable,
    /// E9. A table has the name already.
    #[error("E9 TableExists")]
    TableExists,
    /// E10. One more than a limit allows.
    #[error("E10 TooMany")]
    TooMany,
    /// E11. A batch was made on version `base`, and the version is `now`; where it is a transaction's,
    /// something that the transaction looked at has changed since.
    #[error("E11 Stale base {base} now {now}{}", ItemText(*.item))]
    Stale {
        /// The version that the batch was made on.
        base: u64,
        /// The version of the database.
        now: u64,
        /// The first item of the batch's footprint that has changed, counted from 0; none where its base is a
        /// number alone.
        item: Option<u64>,
    },
    /// E12. A filter's text is not in the grammar, from byte `at` on.
    #[error("E12 BadFilter")]
    BadFilter {
        /// The byte of the first token that does not fit, or the text's length.
        at: u64,
    },
    /// E13. A filter passes 32 levels or 1,000 nodes.
    #[error("E13 TooDeep")]
    TooDeep,
    /// E14. The table to compare with is missing, or has another schema.
    #[error("E14 Incompatible")]
    Incompatible,
    /// E15. The policy answered ABORT at change `at` of a blob.
    #[error("E15 Aborted")]
    Aborted {
        /// The number of the change, from 0.
        at: u64,
    },
    /// E16. The policy answered REPLACE to NOTFOUND at change `at` of a blob.
    #[error("E16 Misuse")]
    Misuse {
        /// The number of the change, from 0.
        at: u64,
    },
    /// E17. A name is empty, longer than 255 bytes, or has a zero byte.
    #[error("E17 BadName")]
    BadName,
    /// E18. No live session has the number.
    #[error("E18 NoSession")]
    NoSession,
    /// E19. No saved database has the name.
    #[error("E19 NoDatabase")]
    NoDatabase,
    /// E20. The transaction has no savepoint of the mark's number, or it was undone.
    #[error("E20 NoMark")]
    NoMark,
}

// The place of an item, where there is one.
#[derive(Clone, Copy, Drop)]
struct ItemText(Option<u64>);

impl Display for ItemText {
    fn fmt<W: Write>(&self, f: &mut Formatter<W>) -> fmt::Result {
        match self.0 {
            Some(place) => write!(f, " item {place}"),
            None => Ok(()),
        }
    }
}
