//! The bytes around a place of a blob.
ghost use Rattle.std.specs.Prelude.{◌≡◌, ◌≤◌, ◌++◌, IfOk, OnOk, length, string_bytes};
ghost use Rattle.std.specs.List.{flat_map};
ghost use Rattle.cap_files.specs.Place.{around, spaced};

use cap_value::{AllocHandle, OutOfMemory};

// How many bytes are shown on each side.
const SHOWN: usize = 8;

/// The eight bytes before a place, `|`, and the eight bytes from there on, each as two hex digits behind a
/// space.
#[tactic(auto, unfolding(crate::specs::Place::around))]
pub fn around<A: AllocHandle>(alloc: A, at: usize, bytes: &[u8]) -> Result<String<A>, OutOfMemory>
    requires { at ≤ length bytes.now }
    ensures { IfOk result (λ text. string_bytes text ≡ around at bytes.now) }
{
    let (before, behind) = bytes.split_at(at);
    let mut text = String::new(alloc);
    push_bytes(alloc, &before[at.saturating_sub(SHOWN)..], &mut text)?;
    text.push_str(" |")?;
    push_bytes(alloc, &behind[..behind.len().min(SHOWN)], &mut text)?;
    Ok(text)
}

// Appends bytes, each as two hex digits behind a space.
fn push_bytes<A: AllocHandle>(
    alloc: A,
    bytes: &[u8],
    out: &mut String<A>,
) -> Result<(), OutOfMemory>
    ensures { OnOk result (string_bytes out.new ≡ string_bytes out.old ++ flat_map spaced bytes.now) }
{
    for byte in bytes {
        let digits = hex::encode(alloc, [*byte])?;
        out.push_str(" ")?;
        out.push_str(digits.as_str())?;
    }
    Ok(())
}
