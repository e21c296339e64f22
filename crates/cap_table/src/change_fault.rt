//! Why a change with a commit hook was not made.
use cap_value::Refusal;
use std::error::Error;
use std::fmt;
use std::fmt::{Debug, Display};

/// Why a change with a commit hook was not made.
#[derive(Clone, Copy, Debug, PartialEq, Eq, Drop)]
pub enum ChangeFault<E> {
    /// The rules refuse it. The hook was not asked.
    Refused(Refusal),
    /// Out of memory. The hook was not asked.
    OutOfMemory,
    /// The hook refused it.
    Vetoed(E),
}

impl<E: Display> Display for ChangeFault<E> {
    fn fmt<W: fmt::Write>(&self, f: &mut fmt::Formatter<W>) -> fmt::Result {
        match self {
            ChangeFault::Refused(why) => write!(f, "{why}"),
            ChangeFault::OutOfMemory => f.write_str("out of memory"),
            ChangeFault::Vetoed(why) => write!(f, "the commit hook refused it: {why}"),
        }
    }
}

impl<E: Debug + Display + Drop> Error for ChangeFault<E> {}
