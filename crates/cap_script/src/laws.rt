//! Laws of the texts of workloads.
ghost use Rattle.std.specs.Prelude.{◌≡◌, ℕ, List, None};
ghost use Rattle.cap_script.specs.LineFaults.{line_fault};
ghost use Rattle.cap_script.specs.LineLimits.{LineWithin};
ghost use Rattle.cap_script.specs.Script.{SpellsLine};
ghost use Rattle.cap_script.specs.declared.line.Line.{Line};

use cap_value::AllocHandle;

/// A line has no fault exactly where it spells a command within the limits.
pub fn a_line_without_fault<A: AllocHandle>()
    ensures spelled { (text : List ℕ) → line_fault A text ≡ None
        → (line : Line A) × SpellsLine line text × LineWithin line text }
    ensures read { (text : List ℕ) (line : Line A) → LineWithin line text → line_fault A text ≡ None }
{
    cap_filter::laws::spelled_is_read();
    cap_filter::laws::read_is_spelled();
}
