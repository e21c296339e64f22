//! The words that filters compare names with.
ghost use Rattle.std.specs.Prelude.{◌≡◌, IfOk};

use cap_value::{AllocHandle, OutOfMemory};
use std::marker::Model;
use std::sync::ArcStr;

/// A text that a filter compares names with. It may have any length. Copies share the bytes.
#[derive(Drop)]
pub struct Word<A: AllocHandle> {
    word: ArcStr<A>,
}

impl<A: AllocHandle> Model for Word<A> {
    ghost use Rattle.std.specs.Prelude.{List, ℕ};
    ghost use Rattle.std.specs.Arc.{arc_str_bytes};

    ghost Value = { List ℕ };

    ghost view = { λ w. arc_str_bytes w.word };
}

impl<A: AllocHandle> Word<A> {
    pub fn new(alloc: A, word: &str) -> Result<Self, OutOfMemory>
        ensures { IfOk result (λ made. made ≡ word.now) }
    {
        Ok(Word {
            word: ArcStr::from_str(alloc, word)?,
        })
    }

    pub fn as_str(&self) -> &str
        ensures { result.now ≡ self.now }
    {
        self.word.as_str()
    }

    /// A copy, which shares the bytes.
    pub fn copy(&self) -> Result<Self, OutOfMemory>
        ensures { IfOk result (λ copy. copy ≡ self.now) }
    {
        Ok(Word {
            word: self.word.clone()?,
        })
    }
}
