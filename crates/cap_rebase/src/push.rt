//! What is left of a change and of a group, put into its list.
ghost use Rattle.std.specs.Prelude.{◌≡◌, ◌++◌, ◌∷◌, [], filter, IfSome, IsTrue, OnOk};
ghost use Rattle.std.specs.List.{cons_option};
ghost use Rattle.cap_changes.specs.Fits.{change_fits};
ghost use Rattle.cap_codec.specs.Writable.{has_some};

use crate::ChangeLeft;
use cap_changes::{ChangeList, Group};
use cap_value::{AllocHandle, OutOfMemory};

// Appends the change, if there is one.
pub(crate) fn push_change<A: AllocHandle>(
    group: &mut Group<A>,
    change: &ChangeLeft<'_, A>,
) -> Result<(), OutOfMemory>
    requires { IfSome change.now (λ one. IsTrue (change_fits group.old.schema one)) }
    ensures { OnOk result (group.new
        ≡ record group.old { changes = group.old.changes ++ cons_option change.now [] }) }
{
    match change.get() {
        Some(change) => group.push(change.as_bytes()),
        None => Ok(()),
    }
}

// Appends the group, if it has changes.
pub(crate) fn push_group<A: AllocHandle>(
    list: &mut ChangeList<A>,
    group: Group<A>,
) -> Result<(), OutOfMemory>
    ensures { OnOk result (list.new ≡ list.old ++ filter (λ one. has_some one.changes) (group ∷ [])) }
{
    if has_changes(&group) {
        list.push(group)
    } else {
        Ok(())
    }
}

fn has_changes<A: AllocHandle>(group: &Group<A>) -> bool
    ensures { result ≡ has_some group.now.changes }
{
    !group.changes().is_empty()
}
