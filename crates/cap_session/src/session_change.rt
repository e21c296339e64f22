//! Session settings: the rule, the flags, and clearing the records.

use cap_filter::TableFilter;
use cap_value::AllocHandle;

/// A change of a session that takes no memory.
#[derive(Drop)]
pub enum SessionChange<A: AllocHandle> {
    /// Attaches every table from now on when one of its rows changes. A filter, set before or later, takes
    /// precedence.
    AttachAll,
    /// Attaches a table from now on when one of its rows changes and the filter accepts its name. Attached
    /// tables stay attached.
    SetFilter(TableFilter<A>),
    /// Enables or disables the session, or leaves it as it is (`None`). A disabled session records no commit
    /// and attaches no table by itself.
    Enable(Option<bool>),
    /// Sets or clears the indirect flag, or leaves it as it is (`None`).
    Indirect(Option<bool>),
    /// Clears all records. The flags, the rule and the attached tables stay.
    Restart,
}
