//! A growing buffer of bytes whose final length is not known.
ghost use Rattle.std.specs.Prelude.{◌≡◌, ◌++◌, [], IfOk, OnOk};

use cap_value::{AllocHandle, OutOfMemory};
use std::collections::VecDeque;
use std::marker::Model;
use std::mem;

// The capacity of a piece, so large that the system maps and unmaps its memory separately.
const PIECE_LEN: usize = 1 << 18;

// Bytes in pieces, which are not moved as more bytes come. A vector that grows has all bytes twice while it
// moves them.
#[derive(Drop)]
pub(crate) struct Pieces<A: AllocHandle> {
    // The pieces that are complete.
    full: VecDeque<Vec<u8, A>, A>,
    last: Vec<u8, A>,
    // The number of bytes, saturating.
    len: usize,
}

impl<A: AllocHandle> Model for Pieces<A> {
    ghost use Rattle.std.specs.Prelude.{ℕ, List, ◌++◌};
    ghost use Rattle.cap_run.specs.Pieces.{joined};

    ghost Value = { List ℕ };

    ghost view = { λ p. joined p.full.items ++ p.last.items };
}

impl<A: AllocHandle> Pieces<A> {
    pub(crate) fn new(alloc: A) -> Self
        ensures { result ≡ [] }
    {
        Pieces {
            full: VecDeque::new(alloc),
            last: Vec::new(alloc),
            len: 0,
        }
    }

    // Appends the bytes.
    pub(crate) fn push(&mut self, alloc: A, bytes: &[u8]) -> Result<(), OutOfMemory>
        ensures { OnOk result (self.new ≡ self.old ++ bytes.now) }
    {
        if self.last.capacity() - self.last.len() < bytes.len() {
            self.begin_piece(alloc)?;
        }
        self.last.extend_from_slice(bytes)?;
        self.len = self.len.saturating_add(bytes.len());
        Ok(())
    }

    // Begins a new piece.
    fn begin_piece(&mut self, alloc: A) -> Result<(), OutOfMemory>
        ensures { OnOk result (self.new ≡ self.old) }
    {
        let piece = Vec::with_capacity(alloc, PIECE_LEN)?;
        let last = mem::replace(&mut self.last, piece);
        Ok(self.full.push_back(last)?)
    }

    // All bytes in one vector. Each piece is freed as soon as it is copied.
    pub(crate) fn join(self, alloc: A) -> Result<Vec<u8, A>, OutOfMemory>
        ensures { IfOk result (λ bytes. bytes.items ≡ self) }
    {
        let Pieces {
            mut full,
            last,
            len,
        } = self;
        let mut bytes = Vec::with_capacity(alloc, len)?;
        while let Some(piece) = full.pop_front() {
            bytes.extend_from_slice(piece.as_slice())?;
        }
        bytes.extend_from_slice(last.as_slice())?;
        Ok(bytes)
    }
}
