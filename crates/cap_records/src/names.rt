//! Names as bytes.
ghost use Rattle.std.specs.Prelude.{◌≡◌, MatchOption, is_some};
ghost use Rattle.cap_value.specs.Bytes.{is_name};
ghost use Rattle.cap_records.specs.Names.{IsName, is_name_text};

use cap_value::NAME_BYTES_MAX;

/// The text of a name, where the bytes are one.
#[tactic(auto, unfolding(crate::specs::Names::is_name_text))]
pub fn name_text(bytes: &[u8]) -> Option<&str>
    ensures text { MatchOption result (¬ (IsName bytes.now))
        (λ text. (text.now ≡ bytes.now) × IsName bytes.now) }
    ensures tested { is_some result ≡ is_name_text bytes.now }
{
    if !is_name(bytes) {
        return None;
    }
    match str::from_utf8(bytes) {
        Ok(text) => Some(text),
        Err(_) => None,
    }
}

fn is_name(bytes: &[u8]) -> bool
    ensures { result ≡ is_name bytes.now }
{
    !bytes.is_empty() && bytes.len() <= NAME_BYTES_MAX && !bytes.contains(&0)
}
