//! Lines with and without a fault of syntax: what the laws on faults say of them.
ghost use Rattle.std.specs.Prelude.{codes};
ghost use Rattle.cap_script_laws.specs.FaultPlace.{BeginsLine, KeepsSyntaxFault};
ghost use Rattle.cap_script.specs.LineLimits.{LineWithin};
ghost use Rattle.cap_script.specs.Script.{SpellsLine};
ghost use Rattle.cap_script.specs.declared.line.Line.{Line};

use cap_value::AllocHandle;

/// The line `frob`, whose word is no command: its fault is at the first byte.
pub fn an_unknown_command<A: AllocHandle>()
    ensures lasts { KeepsSyntaxFault A (codes "frob") 4 }
    ensures place { BeginsLine A (codes "frob") 4 }
    ensures none { (line : Line A) → LineWithin line (codes "frob") → ⊥ }
{
    cap_script_laws::laws::syntax_fault_lasts::<A>();
    cap_script_laws::laws::syntax_fault_place::<A>();
    cap_script::laws::a_line_without_fault::<A>();
}

/// The line `filter x`, whose session has no number: its fault is at the last byte.
pub fn a_filter_without_a_session<A: AllocHandle>()
    ensures lasts { KeepsSyntaxFault A (codes "filter x") 1 }
    ensures place { BeginsLine A (codes "filter x") 1 }
{
    cap_script_laws::laws::syntax_fault_lasts::<A>();
    cap_script_laws::laws::syntax_fault_place::<A>();
}

/// The line `session`, which has no fault.
pub fn a_new_session<A: AllocHandle>()
    ensures { (line : Line A) × SpellsLine line (codes "session") × LineWithin line (codes "session") }
{
    cap_script::laws::a_line_without_fault::<A>();
}
