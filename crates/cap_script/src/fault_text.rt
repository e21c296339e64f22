//! Prints faults.
ghost use Rattle.std.specs.Prelude.{◌≡◌, IfOk, string_bytes};
ghost use Rattle.cap_script.specs.FaultText.{fault_text};

use crate::ScriptFault;
use crate::refusal_text::RefusalText;
use cap_value::{AllocHandle, OutOfMemory};

/// The text of a fault, without a line feed at its end. The fault itself is printed so too.
#[tactic(auto, unfolding(crate::specs::FaultText::fault_text))]
pub fn print_fault<A: AllocHandle>(alloc: A, fault: ScriptFault) -> Result<String<A>, OutOfMemory>
    ensures { IfOk result (λ text. string_bytes text ≡ fault_text fault) }
{
    match fault {
        ScriptFault::Syntax { line, at } => format!(in alloc; "line {line}: G1 Syntax at {at}"),
        ScriptFault::Limit { line, why } => {
            format!(in alloc; "line {line}: G2 {}", RefusalText(why))
        }
        ScriptFault::BadBlob { line, fault } => {
            let name = fault.kind.name();
            let at = fault.at;
            format!(in alloc; "line {line}: G3 {name} at {at}")
        }
    }
}
