//! Reads an input line by line.
ghost use Rattle.std.specs.Prelude.{◌≡◌, ◌⊎◌, ◌*◌, ◌+◌, ◌<◌, ◌≤◌, ◌++◌, ◌∷◌, ℕ, List, [], false, length};
ghost use Rattle.std.specs.Prelude.{IfErr, IfOk, IfSome, MatchOption, drop, take};
ghost use Rattle.std.specs.Io.KnownBytes.{Consumes, IsAtEnd, prepend_known};
ghost use Rattle.cap_run.specs.Code.Unread.{Counted, CutsLine, Failed, HasLine, HasPart, IsGiven, IsTaken};
ghost use Rattle.cap_run.specs.Code.Unread.{MatchRead};
ghost use Rattle.cap_script.specs.Script.{has_line_feed};

use crate::input::READ_LEN;
use cap_stream::{Source, is_interrupted};
use cap_value::{AllocHandle, OutOfMemory};
use std::marker::Model;

// Why there is no next line.
#[derive(Clone, Copy, Drop)]
pub(crate) enum ReadFault {
    // A read failed, or too many were made.
    Failed,
    OutOfMemory,
}

// The bytes that were read and not taken.
#[derive(Drop)]
pub(crate) struct Unread<A: AllocHandle> {
    bytes: Vec<u8, A>,
    // How many of them are taken.
    taken: usize,
}

impl<A: AllocHandle> Model for Unread<A> {
    ghost use Rattle.std.specs.Prelude.{ℕ, List, ◌≤◌, drop, length};

    ghost Value = { List ℕ };

    ghost view = { λ u. drop u.taken u.bytes.items };

    ghost invariant = { λ u. u.taken ≤ length u.bytes.items };
}

impl<A: AllocHandle> Unread<A> {
    pub(crate) fn new(alloc: A) -> Self
        ensures { result ≡ [] }
    {
        Unread {
            bytes: Vec::new(alloc),
            taken: 0,
        }
    }

    // Has these bytes in place of those before.
    fn set(&mut self, bytes: &[u8]) -> Result<(), OutOfMemory>
        ensures { IfOk result (λ done. self.new ≡ bytes.now) }
    {
        self.taken = 0;
        self.bytes.clear();
        Ok(self.bytes.extend_from_slice(bytes)?)
    }

    // Moves the bytes before the first line feed to the line, and takes the line feed. False where there is
    // none: then all bytes are moved.
    fn take_line(&mut self, line: &mut Vec<u8, A>) -> Result<bool, OutOfMemory>
        ensures taken { IfOk result (λ is_whole. (front : List ℕ)
            × (line.new.items ≡ line.old.items ++ front) × IsTaken is_whole front self.old self.new) }
        ensures some { IfErr result (λ fault. 0 < length self.old) }
    {
        let rest = &self.bytes.as_slice()[self.taken..];
        if rest.is_empty() {
            return Ok(false);
        }
        match line_feed(rest) {
            Some(at) => {
                line.extend_from_slice(&rest[..at])?;
                self.taken += at + 1;
                Ok(true)
            }
            None => {
                line.extend_from_slice(rest)?;
                self.taken = self.bytes.len();
                Ok(false)
            }
        }
    }
}

// Where the first line feed is.
#[tactic(auto, using(cap_replies::proofs::TextLineLemmas::line_more))]
fn line_feed(bytes: &[u8]) -> Option<usize>
    ensures { MatchOption result (has_line_feed bytes.now ≡ false) (λ at. (at < length bytes.now)
        × (bytes.now ≡ take at bytes.now ++ 10 ∷ drop (at + 1) bytes.now)
        × (has_line_feed (take at bytes.now) ≡ false)) }
{
    for at in 0..bytes.len() {
        if bytes[at] == b'\n' {
            return Some(at);
        }
    }
    None
}

// One read, where no byte is left. False at the end of the reader. An interrupted read gives no bytes.
// `reads` counts down.
fn fill<A: AllocHandle, R: Source>(
    reader: &mut R,
    unread: &mut Unread<A>,
    reads: &mut u64,
) -> Result<bool, ReadFault>
    requires none { unread.old ≡ [] }
    ensures given { IfOk result (λ more.
        IsGiven more unread.new (R.remaining reader.old) (R.remaining reader.new)) }
    ensures gave { IfOk result (λ more. (reads.old ≡ reads.new + 1) × R.gave reader.old reader.new) }
    ensures failed { IfErr result (λ fault. MatchRead fault
        ((reads.old ≡ reads.new + 1) × R.gave reader.old reader.new × ((piece : List ℕ)
        × Consumes (R.remaining reader.old) (R.remaining reader.new) piece × (1 ≤ length piece)))
        (((R.failed reader.old reader.new) ⊎ ((reads.old ≡ 0) × (reader.old ≡ reader.new)))
        × Consumes (R.remaining reader.old) (R.remaining reader.new) [])) }
{
    if *reads == 0 {
        return Err(ReadFault::Failed);
    }
    *reads -= 1;
    let mut piece = [0u8; READ_LEN];
    match reader.read_some(&mut piece) {
        Ok(0) => Ok(false),
        Ok(count) => match unread.set(&piece[..count]) {
            Ok(()) => Ok(true),
            Err(_) => Err(ReadFault::OutOfMemory),
        },
        Err(error) if is_interrupted(&error) => Ok(true),
        Err(_) => Err(ReadFault::Failed),
    }
}

// The next line, without its line feed, or none at the end of the input. The last line may lack its line
// feed.
pub(crate) fn next_line<A: AllocHandle, R: Source>(
    alloc: A,
    reader: &mut R,
    unread: &mut Unread<A>,
    reads: &mut u64,
) -> Result<Option<Vec<u8, A>>, ReadFault>
    ensures line { IfOk result (λ found. MatchOption found
        (IsAtEnd (prepend_known unread.old (R.remaining reader.old)))
        (λ line. CutsLine line.items (prepend_known unread.old (R.remaining reader.old))
        (prepend_known unread.new (R.remaining reader.new)))) }
    ensures fewer { IfOk result (λ found. IfSome found (λ line.
        reads.new * 8192 + length unread.new < reads.old * 8192 + length unread.old)) }
    ensures gave { IfOk result (λ found. Counted R.gave reads.old reads.new reader.old reader.new) }
    ensures failed { IfErr result (λ fault. MatchRead fault
        (Counted R.gave reads.old reads.new reader.old reader.new
        × HasLine (prepend_known unread.old (R.remaining reader.old)))
        (Failed R.gave R.failed reads.old reader.old reader.new
        × HasPart (prepend_known unread.old (R.remaining reader.old)) (R.remaining reader.new))) }
{
    let mut line = Vec::new(alloc);
    loop {
        match unread.take_line(&mut line) {
            Ok(true) => return Ok(Some(line)),
            Ok(false) => {}
            Err(_) => return Err(ReadFault::OutOfMemory),
        }
        let has_more = match fill(reader, unread, reads) {
            Ok(has_more) => has_more,
            Err(fault) => return Err(fault),
        };
        if has_more {
            continue;
        }
        if line.is_empty() {
            return Ok(None);
        }
        return Ok(Some(line));
    }
}
