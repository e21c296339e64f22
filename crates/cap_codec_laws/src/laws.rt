//! Laws of blobs, over the grammar alone. The functions do nothing at run time.
ghost use Rattle.std.specs.Prelude.{◌≡◌, ◌++◌, ℕ, List, Ok, Err};
ghost use Rattle.cap_value.specs.Bytes.{AreBytes};
ghost use Rattle.cap_codec.specs.declared.key_flags.KeyFlags.{KeyFlags};
ghost use Rattle.cap_codec.specs.declared.read.Contents.{Contents};
ghost use Rattle.cap_codec.specs.BlobReading.{blob_at};
ghost use Rattle.cap_field.specs.declared.fault.BlobFault.{BlobFault};
ghost use Rattle.cap_codec_laws.specs.FaultPlace.{IsFaultAt};
ghost use Rattle.cap_codec.specs.Pieces.{lasting};
ghost use Rattle.cap_codec.specs.Spelling.{Spells};
ghost use Rattle.cap_codec.specs.Writable.{HasNoEmptyGroup, IsWritable, blob_bytes, blob_bytes_with, with_some};

use cap_value::AllocHandle;

/// Bytes spell at most one blob.
#[tactic(auto, using(cap_codec::proofs::BlobAgain::blob_again))]
pub fn no_bytes_spell_two<A: AllocHandle>()
    ensures { (bytes : List ℕ) (a b : Contents A) → Spells a bytes → Spells b bytes → a ≡ b }
{}

/// Bytes are read as a blob exactly where they spell it.
#[tactic(auto, using(cap_codec::proofs::BlobAgain::blob_again, cap_codec::proofs::SpelledBlob::blob_spelled, cap_codec::proofs::SpelledBlob::low_bytes))]
pub fn read_is_spelled<A: AllocHandle>()
    ensures read { (bytes : List ℕ) (blob : Contents A) → Spells blob bytes → blob_at bytes ≡ Ok blob }
    ensures spelled { (bytes : List ℕ) (blob : Contents A) → AreBytes bytes → blob_at bytes ≡ Ok blob →
        Spells blob bytes }
{}

/// With either key flags, the written bytes of a list spell and are read as that list, without its empty
/// groups.
#[tactic(auto, using(crate::proofs::WrittenLemmas::written_spelled, crate::proofs::WrittenLemmas::written_again))]
pub fn written_is_read_again<A: AllocHandle>()
    ensures spelled { (key_flags : KeyFlags) (blob : Contents A) → IsWritable blob →
        Spells (with_some blob) (blob_bytes_with key_flags blob) }
    ensures read { (key_flags : KeyFlags) (blob : Contents A) → IsWritable blob →
        blob_at (blob_bytes_with key_flags blob) ≡ Ok (with_some blob) }
{}

/// No two lists without empty groups have the same bytes, be they changesets or patchsets.
#[tactic(auto, using(crate::proofs::WrittenLemmas::whole_again))]
pub fn no_two_have_the_same_bytes<A: AllocHandle>()
    ensures { (a b : Contents A) → IsWritable a → IsWritable b → HasNoEmptyGroup a → HasNoEmptyGroup b →
        blob_bytes a ≡ blob_bytes b → a ≡ b }
{}

/// A fault other than `Truncated` of a prefix is the fault of the blob, whatever follows.
#[tactic(auto, using(cap_codec::proofs::Looking::err_lasts))]
pub fn a_fault_lasts<A: AllocHandle>()
    ensures { (front more : List ℕ) (fault : BlobFault) → lasting (blob_at {A = A} front) ≡ Err fault →
        lasting (blob_at {A = A} (front ++ more)) ≡ Err fault }
{}

/// A fault other than `Truncated` is reported at the part that has it: some blob begins with the bytes before
/// its offset, and none with these and that part.
#[tactic(auto, using(crate::proofs::FaultBlobs::fault_placed))]
pub fn fault_place<A: AllocHandle>()
    ensures { (bytes : List ℕ) (fault : BlobFault) → AreBytes bytes →
        lasting (blob_at {A = A} bytes) ≡ Err fault → IsFaultAt A bytes fault }
{}
