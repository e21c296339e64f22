//! An incremental decoder.

ghost use Rattle.std.specs.Prelude.{◌≡◌, ◌++◌, [], Ok, Err, IfOk, OnOk};
ghost use Rattle.cap_value.specs.declared.memory.Fault.TheVariants.{Refused};
ghost use Rattle.cap_value.specs.Memory.{AnswersUnlessMemory};
ghost use Rattle.cap_field.specs.declared.fault.BlobFault.{BlobFault as Wrong};
ghost use Rattle.cap_codec.specs.declared.read.Contents.{Contents as Spelled};
ghost use Rattle.cap_codec.specs.BlobReading.{blob_at};
ghost use Rattle.cap_codec.specs.Spelling.{Spells};
ghost use Rattle.cap_codec.specs.Pieces.{lasting, KeepsFault};

use crate::read::{Contents, read_blob};
use crate::scan::{ScanPosition, scan};
use cap_field::BlobFault;
use cap_value::{AllocHandle, Fault};
use std::marker::Model;

/// An incremental decoder of a blob in pieces of any lengths.
///
/// It keeps the bytes. `feed` scans each complete change once and copies none; `finish` reads all of them
/// again. A change that is not complete is scanned again from its start, once the field that its bytes end in
/// may be complete: a few times for each of its fields, however small the pieces are. Any other piece inside
/// a change costs its own bytes alone. A header that is not complete is scanned again with each piece.
#[derive(Drop)]
pub struct Decoder<A: AllocHandle> {
    alloc: A,
    // The bytes so far. None is added behind a fault.
    bytes: Vec<u8, A>,
    // How far the bytes are scanned. `None` also after `OutOfMemory`: the next piece is then scanned with all
    // bytes before it.
    place: Option<ScanPosition<A>>,
    // The fault that was answered, if any.
    fault: Option<BlobFault>,
}

impl<A: AllocHandle> Model for Decoder<A> {
    ghost use Rattle.std.specs.Prelude.{List, ℕ};
    ghost use Rattle.cap_codec.specs.Pieces.{IsLookedAt};

    ghost Value = { List ℕ };

    ghost view = { λ d. d.bytes.items };

    ghost invariant = { λ d. IsLookedAt d.bytes.items d.place d.fault };
}

impl<A: AllocHandle> Decoder<A> {
    /// A decoder without bytes. Takes no memory.
    #[tactic(auto, unfolding(crate::specs::BlobReading::blob_at))]
    pub fn new(alloc: A) -> Self
        ensures { result ≡ [] }
    {
        Decoder {
            alloc,
            bytes: Vec::new(alloc),
            place: None,
            fault: None,
        }
    }

    /// Takes the next piece. Refused with the fault of the bytes so far, where no further bytes can mend it
    /// (any but `Truncated`), and from then on with the same fault. Its offset is counted from the first byte
    /// ever fed. On `OutOfMemory` the decoder is unchanged.
    #[tactic(auto, using(crate::proofs::Looking::err_lasts, crate::proofs::Looking::looked_place))]
    pub fn feed(&mut self, piece: &[u8]) -> Result<(), Fault<BlobFault>>
        // A fault that no further bytes can mend is answered again, and takes no memory.
        ensures again { (fault : Wrong) → lasting (blob_at {A = A} self.old) ≡ Err fault →
            result ≡ Err (Refused fault) }
        ensures answers { AnswersUnlessMemory result (lasting (blob_at {A = A} (self.old ++ piece.now))) }
        ensures ok { OnOk result (self.new ≡ self.old ++ piece.now) }
        ensures err { KeepsFault A result self.old self.new }
    {
        if let Some(fault) = self.fault {
            return Err(Fault::Refused(fault));
        }
        let len = self.bytes.len();
        self.bytes.extend_from_slice(piece)?;
        let place = self.place.take();
        match scan(self.alloc, &self.bytes, place) {
            Ok(place) => {
                self.place = place;
                Ok(())
            }
            Err(Fault::Refused(fault)) => {
                self.fault = Some(fault);
                Err(Fault::Refused(fault))
            }
            Err(Fault::OutOfMemory) => {
                self.bytes.truncate(len);
                Err(Fault::OutOfMemory)
            }
        }
    }

    /// The contents of all the bytes, as `read_blob` answers.
    #[tactic(auto, using(crate::proofs::BlobAgain::blob_again))]
    pub fn finish(self) -> Result<Contents<A>, Fault<BlobFault>>
        // A fault that `feed` answers takes no memory.
        ensures again { (fault : Wrong) → lasting (blob_at {A = A} self) ≡ Err fault →
            result ≡ Err (Refused fault) }
        // As `read_blob` answers for all the bytes.
        ensures spelled { IfOk result (λ blob. Spells blob self) }
        ensures read { (blob : Spelled A) → Spells blob self → AnswersUnlessMemory result (Ok blob) }
        ensures answers { AnswersUnlessMemory result (blob_at self) }
    {
        match self.fault {
            Some(fault) => Err(Fault::Refused(fault)),
            None => read_blob(self.alloc, &self.bytes),
        }
    }
}
