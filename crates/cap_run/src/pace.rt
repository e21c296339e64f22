//! Whether the workers of a block wait for each other.

/// Whether the workers of a block wait for each other. Whatever the pace, a run promises the same of the
/// order of the calls.
#[derive(Clone, Copy, Debug, PartialEq, Eq, Drop)]
pub enum Pace {
    /// No worker waits for another one, so their calls overlap, and come in any order.
    Free,
    /// A worker waits before each line until all lines of the block before it were called, for an hour at
    /// most. So the calls come in the order of the lines, and the replies are those of one thread, unless a
    /// line is held up for an hour or has a fault, behind which nobody waits. A gate must not hold a line up
    /// until a later one is called.
    InTurn,
}

impl Pace {
    // Whether each line waits for the lines of its block before it.
    pub(crate) fn is_in_turn(self) -> bool {
        matches!(self, Pace::InTurn)
    }
}
