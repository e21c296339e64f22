//! How many bytes a change lacks that is not complete.

ghost use Rattle.std.specs.Prelude.{◌≡◌, ◌<◌, ◌≤◌, length, Ok, Err, IfOk, IfErr};
ghost use Rattle.cap_codec.specs.Missing.{skip_at};
ghost use Rattle.cap_codec.specs.Pieces.{Lacks};

use cap_changes::Operation;
use cap_field::{BLOB, INTEGER, TEXT, take_varint};
use cap_value::AllocHandle;

// The bytes behind the field, or how many bytes it lacks at least.
fn skip_field(total: usize, bytes: &[u8]) -> Result<&[u8], usize>
    ensures ok { IfOk result (λ rest. skip_at total bytes.now ≡ Ok rest.now) }
    ensures err { IfErr result (λ missing. skip_at total bytes.now ≡ Err missing) }
    ensures behind { IfOk result (λ rest. length rest.now < length bytes.now) }
{
    let [kind, rest @ ..] = bytes else {
        return Err(1);
    };
    let part = match *kind {
        INTEGER => Ok((8, rest)),
        TEXT | BLOB => take_varint(total, rest),
        _ => Ok((0, rest)),
    };
    let Ok((len, content)) = part else {
        return Err(1);
    };
    if content.len() < len {
        return Err(len - content.len());
    }
    Ok(&content[len..])
}

/// How many bytes at least the change lacks that these bytes begin, where it is not complete. 1 at a header.
#[tactic(auto, using(crate::proofs::Looking::one_lacks))]
pub fn missing<A: AllocHandle>(total: usize, bytes: &[u8]) -> usize
    ensures { Lacks A total bytes.now result }
{
    let [first, _, fields @ ..] = bytes else {
        return 1;
    };
    if Operation::of(*first).is_none() {
        return 1;
    }
    let mut rest = fields;
    loop {
        match skip_field(total, rest) {
            Ok(behind) => rest = behind,
            Err(missing) => return missing,
        }
    }
}
