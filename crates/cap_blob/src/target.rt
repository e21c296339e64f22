//! What a changeset is converted to.
/// What a changeset is converted to.
#[derive(Clone, Copy, Debug, PartialEq, Eq, Drop)]
pub enum Target {
    /// Its inverse.
    Inverse,
    /// Its patchset.
    Patchset,
}
