//! Reads the input.
ghost use Rattle.std.specs.Prelude.{◌≡◌, IfOk, IfSome, IfErr};
ghost use Rattle.cap_run.specs.Reads.{EndsReads};
ghost use Rattle.cap_run.specs.RunFault.{IsUnread};

use crate::RunFault;
use crate::pieces::Pieces;
use cap_stream::{CALLS_MAX, Source, is_interrupted};
use cap_value::AllocHandle;

// The most bytes of one read.
pub(crate) const READ_LEN: usize = 8192;

/// Reads to the end of the reader. A reader that has not ended after `CALLS_MAX` reads has failed.
pub fn read_whole<A: AllocHandle, R: Source>(
    alloc: A,
    reader: &mut R,
) -> Result<Vec<u8, A>, RunFault>
    ensures whole { IfOk result (λ bytes.
        IfSome (R.remaining reader.old) (λ given. bytes.items ≡ given)) }
    ensures unread { IfErr result IsUnread }
    ensures read_reported { EndsReads R.gave R.failed result reader.old reader.new }
{
    let pieces = read_pieces(alloc, reader)?;
    pieces.join(alloc).map_err(|_| RunFault::OutOfMemory)
}

// Reads to the end of the reader, in pieces. An interrupted read is made again.
fn read_pieces<A: AllocHandle, R: Source>(alloc: A, reader: &mut R) -> Result<Pieces<A>, RunFault>
    ensures whole { IfOk result (λ pieces.
        IfSome (R.remaining reader.old) (λ given. pieces ≡ given)) }
    ensures unread { IfErr result IsUnread }
    ensures read_reported { EndsReads R.gave R.failed result reader.old reader.new }
{
    let mut bytes = [0u8; READ_LEN];
    let mut pieces = Pieces::new(alloc);
    for _ in 0..CALLS_MAX {
        let count = match reader.read_some(&mut bytes) {
            Ok(count) => count,
            Err(error) if is_interrupted(&error) => continue,
            Err(_) => return Err(RunFault::Read),
        };
        if count == 0 {
            return Ok(pieces);
        }
        pieces
            .push(alloc, &bytes[..count])
            .map_err(|_| RunFault::OutOfMemory)?;
    }
    Err(RunFault::Read)
}
