//! Out of memory, refusals beside it, and the bound on allocators.
ghost use Rattle.std.specs.Prelude.{◌≡◌};
ghost use Rattle.cap_value.specs.Handle.{IsHandle};

use std::alloc::{Allocator, Global};
use std::error::Error;
use std::fmt;
use std::fmt::{Debug, Display};

/// Out of memory. Every call that allocates may answer it, and then it has changed nothing.
pub use std::alloc::AllocError as OutOfMemory;

/// A handle to an allocator that every value can keep a copy of: `Global`, and each reference to an
/// allocator.
///
/// The one bound on allocators in this workspace. It is `Allocator + Copy` with a law: a handle has no
/// size or that of a reference, so that a value that holds one inline has a size that is known to be small.
pub trait AllocHandle: Allocator + Copy {
    ghost handle: { IsHandle Self.row };
}

impl AllocHandle for Global {
    ghost use Rattle.std.proofs.Common.{refl, inl};

    ghost handle = { inl (refl, refl) };
}

impl<'a, A: Allocator> AllocHandle for &'a A {
    ghost use Rattle.std.proofs.Common.{refl, inr};

    ghost handle = { inr (refl, refl) };
}

/// Why a call gave no answer: the rules refuse it, or it ran out of memory.
#[derive(Clone, Copy, Debug, PartialEq, Eq, Drop)]
pub enum Fault<E> {
    /// Refused by the rules. The same call is refused again.
    Refused(E),
    /// Out of memory, whatever the rules say. Nothing has changed, and the call may be made again.
    OutOfMemory,
}

impl<E: Display> Display for Fault<E> {
    fn fmt<W: fmt::Write>(&self, f: &mut fmt::Formatter<W>) -> fmt::Result {
        match self {
            Fault::Refused(why) => why.fmt(f),
            Fault::OutOfMemory => f.write_str("out of memory"),
        }
    }
}

impl<E: Debug + Display + Drop> Error for Fault<E> {}

impl<E> From<OutOfMemory> for Fault<E> {
    ghost use Rattle.cap_value.specs.declared.memory.Fault.TheVariants.{OutOfMemory};

    ghost from_gives = { λ _ fault. fault ≡ OutOfMemory };

    fn from(_error: OutOfMemory) -> Fault<E> {
        Fault::OutOfMemory
    }
}
