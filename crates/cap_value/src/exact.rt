//! Clones that equal what they were made from.
ghost use Rattle.std.specs.Prelude.{◌≡◌};

/// A type whose clones equal what they were made from, as every key and value of a tree's do.
///
/// Rust's `Clone` alone promises a clone of some kind; this trait adds the law that it is the same value.
pub trait Exact: Clone {
    ghost exact: { (x y : Self) → Self.is_clone x y → y ≡ x };
}

impl Exact for bool {
    ghost exact = { λ x y same. same };
}

impl Exact for u64 {
    ghost exact = { λ x y same. same };
}
