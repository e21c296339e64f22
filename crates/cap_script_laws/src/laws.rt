//! Laws of the texts of workloads, over the grammar alone. The functions do nothing at run time.
ghost use Rattle.std.specs.Prelude.{◌≡◌, ℕ, List, All};
ghost use Rattle.cap_core.specs.Table.{BlobFits};
ghost use Rattle.cap_script_laws.specs.FaultPlace.{BeginsLine, HasSyntaxFault, KeepsSyntaxFault, ReachesFilter};
ghost use Rattle.cap_script.specs.Script.{SpellsScript};
ghost use Rattle.cap_script.specs.declared.line.Line.{Line};

use cap_value::AllocHandle;

/// A text spells at most one workload.
pub fn one_workload<A: AllocHandle>()
    ensures { (text : List ℕ) (a b : List (Line A)) → SpellsScript a text → SpellsScript b text → a ≡ b }
{
    cap_filter::laws::one_filter();
}

/// The blobs of the commands that a text spells fit their tables.
pub fn spelled_commands_fit<A: AllocHandle>()
    ensures { (text : List ℕ) (lines : List (Line A)) → SpellsScript lines text
        → All (λ line. BlobFits line.command) lines }
{
    cap_apply_laws::laws::spelled_blobs_fit_their_columns::<A>();
    cap_codec_laws::laws::read_is_spelled::<A>();
}

/// A fault of syntax depends on nothing behind its token: each line that has the same bytes before, and the
/// same token there, has the fault there. Lines whose filter is reached are left out: in a filter's text
/// `cap_filter::laws::unfit_place` says which token does not fit.
pub fn syntax_fault_lasts<A: AllocHandle>()
    ensures { (line : List ℕ) (left : ℕ) → HasSyntaxFault A line left → (ReachesFilter A line → ⊥)
        → KeepsSyntaxFault A line left }
{}

/// What is before the token of a fault of syntax begins some line: there is a text behind which the line is
/// read, or has a 10,001st operation. Lines whose filter is reached are left out: of a filter's text
/// `cap_filter::laws::unfit_place` says the same.
pub fn syntax_fault_place<A: AllocHandle>()
    ensures { (line : List ℕ) (left : ℕ) → HasSyntaxFault A line left → (ReachesFilter A line → ⊥)
        → BeginsLine A line left }
{}
