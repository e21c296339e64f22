//! A decoder that gets a blob in pieces.
ghost use Rattle.std.specs.Prelude.{◌≡◌, [], IfOk};
ghost use Rattle.cap_value.specs.Memory.{AnswersUnlessMemory};
ghost use Rattle.cap_codec.specs.Spelling.{Spells};
ghost use Rattle.cap_connection.specs.Decoder.{Feeds};
ghost use Rattle.cap_connection.specs.Iter.{iter_at};

use crate::iter::BlobIter;
use cap_codec::{BlobFault, Decoder};
use cap_value::Fault;
use std::alloc::Global;
use std::marker::Model;

/// A decoder that gets a blob in pieces of any lengths, as it comes from a file or a socket. Contracts see it
/// as the bytes that it has.
#[derive(Drop)]
pub struct PieceDecoder {
    pieces: Decoder<Global>,
}

impl Model for PieceDecoder {
    ghost use Rattle.std.specs.Prelude.{List, ℕ};

    ghost Value = { List ℕ };

    ghost view = { λ d. d.pieces };
}

impl PieceDecoder {
    /// A decoder without bytes. Takes no memory.
    pub fn new(alloc: Global) -> Self
        ensures { result ≡ [] }
    {
        PieceDecoder {
            pieces: Decoder::new(alloc),
        }
    }

    /// Takes the next piece, or answers the fault that no further bytes can mend.
    pub fn feed(&mut self, piece: &[u8]) -> Result<(), Fault<BlobFault>>
        ensures fed { Feeds piece.now self.old self.new result }
    {
        self.pieces.feed(piece)
    }

    /// An iterator over the changes of all the pieces, before the first.
    pub fn finish(self, alloc: Global) -> Result<BlobIter, Fault<BlobFault>>
        ensures opened { AnswersUnlessMemory result (iter_at self) }
        // It goes over what the pieces spell.
        ensures spelled { IfOk result (λ it. Spells it.contents self) }
    {
        let PieceDecoder { pieces } = self;
        match pieces.finish() {
            Ok(contents) => Ok(BlobIter::new(alloc, contents)),
            Err(Fault::Refused(wrong)) => Err(Fault::Refused(wrong)),
            Err(Fault::OutOfMemory) => Err(Fault::OutOfMemory),
        }
    }
}
