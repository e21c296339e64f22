//! Laws of filter texts. The functions do nothing at run time.
ghost use Rattle.std.specs.Prelude.{◌≡◌, ℕ, List, Ok, Err, IsTrue};
ghost use Rattle.cap_filter.specs.Faults.{IsUnfitAt, IsPastLimits};
ghost use Rattle.cap_filter.specs.Grammar.{Spells};
ghost use Rattle.cap_filter.specs.Limits.{is_within_limits};
ghost use Rattle.cap_filter.specs.Printed.{filter_text};
ghost use Rattle.cap_filter.specs.Reading.{filter_of};
ghost use Rattle.cap_filter.specs.Rule.{Rule};

use cap_value::Refusal;

/// A filter within the limits is read from each text that spells it.
pub fn spelled_is_read()
    ensures { (text : List ℕ) (r : Rule) → Spells text r → IsTrue (is_within_limits r) →
        filter_of text ≡ Ok r }
{}

/// A text spells the filter that is read from it.
pub fn read_is_spelled()
    ensures { (text : List ℕ) (r : Rule) → filter_of text ≡ Ok r → Spells text r }
{}

/// A text spells at most one filter.
pub fn one_filter()
    ensures { (text : List ℕ) (r s : Rule) → Spells text r → Spells text s → r ≡ s }
{}

/// What `print` writes spells its filter.
pub fn printed_is_spelled()
    ensures { (r : Rule) → Spells (filter_text r) r }
{}

/// A text is refused with `BadFilter` at the first token that does not fit, or at its end: what is before it
/// begins the text of a filter, which may exceed the limits, and no filter's text, of any size, goes on with
/// that token or ends there.
pub fn unfit_place()
    ensures { (text : List ℕ) (at : ℕ) → filter_of text ≡ Err (Refusal.BadFilter at) →
        IsUnfitAt text at }
{}

/// A text is refused with `TooDeep` where its first tokens begin the text of a filter, and every filter whose
/// text begins with them exceeds a limit.
pub fn too_deep_text()
    ensures { (text : List ℕ) → filter_of text ≡ Err Refusal.TooDeep → IsPastLimits text }
{}
