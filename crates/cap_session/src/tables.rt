//! The attached tables of a session, as they are made anew.
ghost use Rattle.std.specs.Prelude.{◌≡◌, ◌∷◌, ◌++◌, ◌&&◌, ◌||◌, [], false, not, IfOk, OnOk};
ghost use Rattle.std.specs.Option.{option_copied};
ghost use Rattle.cap_session.specs.Recording.{attach_by, attach_by_rule, is_cascade, touch_table};
ghost use Rattle.cap_session.specs.Recording.{touch_tables, touches_found, touches_of};
ghost use Rattle.cap_session.specs.Session.{accepts_by, is_listed};

use crate::attached::Attached;
use crate::touch::touch;
use crate::{AutomaticRule, Records};
use cap_compare::Difference;
use cap_database::{Cause, Change};
use cap_row::{Key, Row};
use cap_value::{AllocHandle, Name, OutOfMemory};
use indexmap::IndexMap;
use std::hash::{BuildHasherDefault, FoldHasher};

// The attached tables by name, in the order in which they were attached, each with its records.
pub(crate) type Tables<A> = IndexMap<Name<A>, Records<A>, BuildHasherDefault<FoldHasher>, A>;

// A copy, which shares the records.
#[tactic(auto, using(crate::proofs::TableLemmas::pushing))]
pub(crate) fn copy_of<A: AllocHandle>(
    alloc: A,
    tables: &Tables<A>,
) -> Result<Tables<A>, OutOfMemory>
    ensures { IfOk result (λ copy. copy.entries ≡ tables.now.entries) }
{
    let mut all = IndexMap::with_capacity(alloc, tables.len())?;
    let mut rest = Attached::over(tables.as_slice());
    while let Some((name, records)) = rest.next() {
        // No name comes twice.
        let Ok(None) = all.insert(name.copy()?, records.copy()?) else {
            return Err(OutOfMemory);
        };
    }
    Ok(all)
}

// Whether the rule attaches a table of these changes.
#[tactic(auto, using(crate::proofs::TableLemmas::attaching))]
pub(crate) fn is_any_new<A: AllocHandle>(
    tables: &Tables<A>,
    rule: &AutomaticRule<A>,
    changes: &[Change<A>],
) -> bool
    ensures { result ≡ false → attach_by_rule rule.now changes.now tables.now.entries ≡ tables.now.entries }
{
    if let AutomaticRule::Nothing = rule {
        return false;
    }
    for change in changes {
        if is_new(tables, rule, &change.table) {
            return true;
        }
    }
    false
}

// Attaches those tables of these changes that the rule accepts.
#[tactic(auto, using(crate::proofs::TableLemmas::attaching))]
pub(crate) fn attach_by_rule<A: AllocHandle>(
    alloc: A,
    tables: &mut Tables<A>,
    rule: &AutomaticRule<A>,
    changes: &[Change<A>],
) -> Result<(), OutOfMemory>
    ensures { OnOk result (tables.new.entries ≡ attach_by_rule rule.now changes.now tables.old.entries) }
{
    for change in changes {
        attach_by(alloc, tables, rule, &change.table)?;
    }
    Ok(())
}

// Attaches the table of this name, where it is new and the rule accepts it.
#[tactic(auto, using(crate::proofs::TableLemmas::attaching))]
pub(crate) fn attach_by<A: AllocHandle>(
    alloc: A,
    tables: &mut Tables<A>,
    rule: &AutomaticRule<A>,
    name: &Name<A>,
) -> Result<(), OutOfMemory>
    ensures { OnOk result (tables.new.entries ≡ attach_by rule.now tables.old.entries name.now) }
{
    if is_new(tables, rule, name) {
        return push(alloc, tables, name);
    }
    Ok(())
}

// Whether the rule attaches the table of this name.
fn is_new<A: AllocHandle>(tables: &Tables<A>, rule: &AutomaticRule<A>, name: &Name<A>) -> bool
    ensures { result ≡ (not (is_listed name.now tables.now.entries) && accepts_by rule.now name.now) }
{
    !is_listed(tables, name) && rule.accepts(name)
}

#[tactic(auto, using(crate::proofs::TableLemmas::listed))]
fn is_listed<A: AllocHandle>(tables: &Tables<A>, name: &Name<A>) -> bool
    ensures { result ≡ is_listed name.now tables.now.entries }
{
    tables.get_index_of(name).is_some()
}

// Attaches one more table, which is not there.
#[tactic(auto, using(crate::proofs::TableLemmas::pushing))]
fn push<A: AllocHandle>(alloc: A, tables: &mut Tables<A>, name: &Name<A>) -> Result<(), OutOfMemory>
    requires absent { is_listed name.now tables.old.entries ≡ false }
    ensures { OnOk result (tables.new.entries ≡ tables.old.entries ++ (name.now, []) ∷ []) }
{
    match tables.insert(name.copy()?, Records::empty(alloc)) {
        Ok(_) => Ok(()),
        Err(_) => Err(OutOfMemory),
    }
}

// The touches by the changes of a commit.
#[tactic(auto, using(crate::proofs::TableLemmas::touching))]
pub(crate) fn touch_changed<A: AllocHandle>(
    tables: &mut Tables<A>,
    indirect: bool,
    changes: &[Change<A>],
) -> Result<(), OutOfMemory>
    ensures { OnOk result (tables.new.entries ≡ touch_tables indirect changes.now tables.old.entries) }
{
    for change in changes {
        touch_by(tables, indirect, change)?;
    }
    Ok(())
}

// The touch by a change, if its row has a key.
#[tactic(auto, using(crate::proofs::TableLemmas::touching))]
fn touch_by<A: AllocHandle>(
    tables: &mut Tables<A>,
    indirect: bool,
    change: &Change<A>,
) -> Result<(), OutOfMemory>
    ensures { OnOk result (tables.new.entries
        ≡ touch_table change.now.table (touches_of indirect change.now.table (change.now ∷ []))
        tables.old.entries) }
{
    match &change.key {
        Some(key) => {
            let indirect = is_indirect(indirect, change.cause);
            touch_in(tables, &change.table, key, change.before.as_ref(), indirect)
        }
        None => Ok(()),
    }
}

// The touches by the differences of the table of this name.
#[tactic(auto, using(crate::proofs::TableLemmas::touching))]
pub(crate) fn touch_found<A: AllocHandle>(
    tables: &mut Tables<A>,
    indirect: bool,
    name: &Name<A>,
    differences: &[Difference<A>],
) -> Result<(), OutOfMemory>
    ensures { OnOk result (tables.new.entries
        ≡ touch_table name.now (touches_found indirect differences.now) tables.old.entries) }
{
    for difference in differences {
        let image = difference.image.as_ref();
        touch_in(tables, name, &difference.key, image, indirect)?;
    }
    Ok(())
}

// Touches a key of the table of this name, if it is there.
#[tactic(auto, using(crate::proofs::TableLemmas::noted_none))]
fn touch_in<A: AllocHandle>(
    tables: &mut Tables<A>,
    name: &Name<A>,
    key: &Key<A>,
    image: Option<&Row<A>>,
    indirect: bool,
) -> Result<(), OutOfMemory>
    ensures { OnOk result (tables.new.entries ≡ touch_table name.now (record {
      key = key.now;
      image = option_copied image.entry;
      indirect = indirect;
    } ∷ []) tables.old.entries) }
{
    match tables.get_index_of(name) {
        Some(place) => touch(&mut tables[place], key, image, indirect),
        None => Ok(()),
    }
}

// Whether a touch by a change of this cause is indirect.
pub(crate) fn is_indirect(indirect: bool, cause: Cause) -> bool
    ensures { result ≡ (indirect || is_cascade cause) }
{
    match cause {
        Cause::Direct => indirect,
        Cause::Cascade => true,
    }
}
