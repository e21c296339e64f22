//! The blobs of an input that has several.
ghost use Rattle.std.specs.Prelude.{◌≡◌, ◌∷◌, ◌<◌, ◌≤◌, false, length, IfErr};
ghost use Rattle.std.specs.Option.{option_map};
ghost use Rattle.cap_value.specs.Memory.{LeavesUnlessMemory, ShowsUnlessMemory};
ghost use Rattle.cap_run.specs.BlobList.{frame_at, texts_in};
ghost use Rattle.cap_run.specs.Combination.{group_fault, listed_bytes, numbered, numbered_fault};
ghost use Rattle.cap_run.specs.Combination.{rebase_fault, text_added, text_bytes, texts_added};
ghost use Rattle.cap_run.specs.RunFault.{input_fault, is_read, RunsNothing};

use crate::fault::{BlobListFault, ListedFault};
use crate::{Encoding, RunFault};
use cap_group::ChangeGroup;
use cap_rebase::Rebaser;
use cap_replies::first_line;
use cap_value::{AllocHandle, Fault};
use hex::FromHexError;

// What blobs are added to, one after the other.
pub(crate) trait AddBlob {
    ghost use Rattle.std.specs.Prelude.{ℕ, List, Result};
    ghost use Rattle.cap_value.specs.Memory.{LeavesUnlessMemory};
    ghost use Rattle.cap_run.specs.declared.fault.ListedFault.{ListedFault};

    // What is left by the blob with these bytes.
    ghost added: { Self → List ℕ → Result Self ListedFault };

    /// Adds the blob with these bytes.
    fn add_listed(&mut self, bytes: &[u8]) -> Result<(), Fault<ListedFault>>
        ensures { LeavesUnlessMemory result (added self.old bytes.now) self.new };
}

impl<A: AllocHandle> AddBlob for ChangeGroup<A> {
    ghost use Rattle.cap_run.specs.Combination.{group_added};

    ghost added = { group_added };

    fn add_listed(&mut self, bytes: &[u8]) -> Result<(), Fault<ListedFault>> {
        match self.add_bytes(bytes) {
            Ok(()) => Ok(()),
            Err(Fault::Refused(why)) => Err(Fault::Refused(group_fault(why))),
            Err(Fault::OutOfMemory) => Err(Fault::OutOfMemory),
        }
    }
}

impl<A: AllocHandle> AddBlob for Rebaser<A> {
    ghost use Rattle.cap_run.specs.Combination.{buffer_added};

    ghost added = { buffer_added };

    fn add_listed(&mut self, bytes: &[u8]) -> Result<(), Fault<ListedFault>> {
        match self.configure_bytes(bytes) {
            Ok(()) => Ok(()),
            Err(Fault::Refused(why)) => Err(Fault::Refused(rebase_fault(why))),
            Err(Fault::OutOfMemory) => Err(Fault::OutOfMemory),
        }
    }
}

// Why a blob is not added to a changegroup.
fn group_fault(why: cap_group::BlobRefusal) -> ListedFault
    ensures { result ≡ group_fault why }
{
    match why {
        cap_group::BlobRefusal::Malformed(fault) => ListedFault::Malformed(fault),
        cap_group::BlobRefusal::Group(why) => ListedFault::Group(why),
    }
}

// Why a blob is no buffer or no local changeset.
pub(crate) fn rebase_fault(why: cap_rebase::BlobRefusal) -> ListedFault
    ensures { result ≡ rebase_fault why }
{
    match why {
        cap_rebase::BlobRefusal::Malformed(fault) => ListedFault::Malformed(fault),
        cap_rebase::BlobRefusal::Patchset => ListedFault::Patchset,
        cap_rebase::BlobRefusal::Columns(why) => ListedFault::Columns(why),
    }
}

// Adds the blobs that were given, one after the other, of which the first has this number.
pub(crate) fn add_blobs<A: AllocHandle, B: AddBlob>(
    alloc: A,
    encoding: Encoding,
    first: u64,
    to: &mut B,
    given: &[u8],
) -> Result<(), Fault<RunFault>>
    requires few { first ≤ 2 }
    ensures content { LeavesUnlessMemory result
        (texts_added B.added encoding first to.old (texts_in encoding given.now)) to.new }
    ensures no_failed_read { IfErr result (λ fault. is_read (input_fault fault) ≡ false) }
    ensures early { IfErr result (λ fault. RunsNothing (input_fault fault)) }
{
    let mut rest = given;
    let mut number = first;
    while !rest.is_empty() {
        let (text, behind) = first_text(encoding, rest);
        add_numbered(alloc, encoding, number, to, text)?;
        rest = behind;
        number += 1;
    }
    Ok(())
}

// Adds the blob with this number.
fn add_numbered<A: AllocHandle, B: AddBlob>(
    alloc: A,
    encoding: Encoding,
    number: u64,
    to: &mut B,
    text: Option<&[u8]>,
) -> Result<(), Fault<RunFault>>
    ensures content { LeavesUnlessMemory result (numbered encoding number
        (text_added B.added encoding to.old (option_map (λ t. t.now) text.entry))) to.new }
    ensures no_failed_read { IfErr result (λ fault. is_read (input_fault fault) ≡ false) }
    ensures early { IfErr result (λ fault. RunsNothing (input_fault fault)) }
{
    match add_text(alloc, encoding, to, text) {
        Ok(()) => Ok(()),
        Err(Fault::Refused(why)) => Err(Fault::Refused(numbered_fault(encoding, number, why))),
        Err(Fault::OutOfMemory) => Err(Fault::OutOfMemory),
    }
}

// The fault of the blob with this number.
pub(crate) fn numbered_fault(encoding: Encoding, number: u64, why: ListedFault) -> RunFault
    ensures { result ≡ numbered_fault encoding number why }
{
    match encoding {
        Encoding::Hex => RunFault::BlobList(BlobListFault::Line { line: number, why }),
        Encoding::Binary => RunFault::BlobList(BlobListFault::Blob { blob: number, why }),
    }
}

// Adds the blob with this text.
fn add_text<A: AllocHandle, B: AddBlob>(
    alloc: A,
    encoding: Encoding,
    to: &mut B,
    text: Option<&[u8]>,
) -> Result<(), Fault<ListedFault>>
    ensures { LeavesUnlessMemory result
        (text_added B.added encoding to.old (option_map (λ t. t.now) text.entry)) to.new }
{
    let bytes = listed_bytes(alloc, encoding, text)?;
    to.add_listed(bytes.as_slice())
}

// The bytes of the blob with this text, or none where the input ends inside it.
pub(crate) fn listed_bytes<A: AllocHandle>(
    alloc: A,
    encoding: Encoding,
    text: Option<&[u8]>,
) -> Result<Vec<u8, A>, Fault<ListedFault>>
    ensures { ShowsUnlessMemory (λ bytes. bytes.items) result
        (listed_bytes encoding (option_map (λ t. t.now) text.entry)) }
{
    match text {
        None => Err(Fault::Refused(ListedFault::Truncated)),
        Some(text) => text_bytes(alloc, encoding, text),
    }
}

// The bytes of the blob with this text.
fn text_bytes<A: AllocHandle>(
    alloc: A,
    encoding: Encoding,
    text: &[u8],
) -> Result<Vec<u8, A>, Fault<ListedFault>>
    ensures { ShowsUnlessMemory (λ bytes. bytes.items) result (text_bytes encoding text.now) }
{
    match encoding {
        Encoding::Hex => line_bytes(alloc, text),
        Encoding::Binary => Ok(Vec::from_slice(alloc, text)?),
    }
}

// The bytes that these hex digits spell.
fn line_bytes<A: AllocHandle>(alloc: A, line: &[u8]) -> Result<Vec<u8, A>, Fault<ListedFault>>
    ensures { ShowsUnlessMemory (λ bytes. bytes.items) result (text_bytes Encoding.Hex line.now) }
{
    match hex::decode(alloc, line) {
        Ok(bytes) => Ok(bytes),
        Err(FromHexError::OutOfMemory) => Err(Fault::OutOfMemory),
        Err(_) => Err(Fault::Refused(ListedFault::NotHex)),
    }
}

// The text of the first blob, or none where the bytes end inside it, and what is behind it.
#[tactic(auto, using(crate::proofs::BlobListLemmas::frame_first, crate::proofs::BlobListLemmas::frame_none, crate::proofs::BlobListLemmas::frame_shorter))]
pub(crate) fn first_text(encoding: Encoding, given: &[u8]) -> (Option<&[u8]>, &[u8])
    requires some { 0 < length given.now }
    ensures first { texts_in encoding given.now
        ≡ option_map (λ t. t.now) result.0 ∷ texts_in encoding result.1.now }
    ensures left { length result.1.now < length given.now }
{
    match encoding {
        Encoding::Hex => {
            let (line, behind) = first_line(given);
            (Some(line), behind)
        }
        Encoding::Binary => match first_frame(given) {
            Some((blob, behind)) => (Some(blob), behind),
            None => (None, &[]),
        },
    }
}

// The first blob behind its length, and the bytes behind it, where there are as many.
fn first_frame(bytes: &[u8]) -> Option<(&[u8], &[u8])>
    ensures { option_map (λ parts. (parts.0.now, parts.1.now)) result ≡ frame_at bytes.now }
{
    let (len, rest) = bytes.split_first_chunk::<8>()?;
    rest.split_at_checked(usize::from_be_bytes(*len))
}
