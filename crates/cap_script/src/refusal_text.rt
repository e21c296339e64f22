//! The text of refusals.
ghost use Rattle.std.specs.Prelude.{◌≡◌};
ghost use Rattle.cap_script.specs.RefusalText.{refusal_name};

use cap_value::Refusal;
use std::fmt;
use std::fmt::{Display, Formatter, Write};

// The number and the name of a refusal, with its versions where it has any.
#[derive(Clone, Copy, Drop)]
pub(crate) struct RefusalText(pub(crate) Refusal);

impl Display for RefusalText {
    ghost use Rattle.std.specs.Prelude.{Some};
    ghost use Rattle.cap_script.specs.RefusalText.{refusal_text};

    ghost output = { λ text. Some (refusal_text text.0) };

    #[tactic(auto, unfolding(crate::specs::RefusalText::refusal_text))]
    fn fmt<W: Write>(&self, f: &mut Formatter<W>) -> fmt::Result {
        let name = refusal_name(self.0);
        match self.0 {
            Refusal::Stale {
                base,
                now,
                item: None,
            } => write!(f, "{name} base {base} now {now}"),
            Refusal::Stale {
                base,
                now,
                item: Some(item),
            } => write!(f, "{name} base {base} now {now} item {item}"),
            _ => f.write_str(name),
        }
    }
}

/// The number and the name of a refusal, as `E5 Duplicate`.
#[tactic(auto, unfolding(crate::specs::RefusalText::refusal_name))]
pub fn refusal_name(why: Refusal) -> &'static str
    ensures { result.now ≡ refusal_name why }
{
    match why {
        Refusal::TooLong => "E1 TooLong",
        Refusal::BadSchema => "E2 BadSchema",
        Refusal::WrongWidth => "E3 WrongWidth",
        Refusal::BadColumn => "E4 BadColumn",
        Refusal::Duplicate => "E5 Duplicate",
        Refusal::NoRow => "E6 NoRow",
        Refusal::IdsSpent => "E7 IdsSpent",
        Refusal::NoTable => "E8 NoTable",
        Refusal::TableExists => "E9 TableExists",
        Refusal::TooMany => "E10 TooMany",
        Refusal::Stale { .. } => "E11 Stale",
        Refusal::BadFilter { .. } => "E12 BadFilter",
        Refusal::TooDeep => "E13 TooDeep",
        Refusal::Incompatible => "E14 Incompatible",
        Refusal::Aborted { .. } => "E15 Aborted",
        Refusal::Misuse { .. } => "E16 Misuse",
        Refusal::BadName => "E17 BadName",
        Refusal::NoSession => "E18 NoSession",
        Refusal::NoDatabase => "E19 NoDatabase",
        Refusal::NoMark => "E20 NoMark",
    }
}
