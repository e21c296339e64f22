//! What caused an operation.
/// Why a row changed.
#[derive(Clone, Copy, Debug, PartialEq, Eq, Drop)]
pub enum Cause {
    /// The operation itself.
    Direct,
    /// A trigger or a foreign key action: the operation is what it did.
    Cascade,
}
