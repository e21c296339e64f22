//! How many changes a blob has, table by table.
ghost use Rattle.std.specs.Prelude.{◌≡◌, ◌++◌, IfOk, OnOk, string_bytes};
ghost use Rattle.cap_files.specs.Summary as spec;

use cap_changes::{ChangeRef, Entry, EntryRef, Patch, PatchRef, RowChange, TableGroup};
use cap_codec::Contents;
use cap_value::{AllocHandle, OutOfMemory};

// What is counted.
#[derive(Clone, Copy, Debug, PartialEq, Eq, Drop)]
pub enum Counted {
    Inserts,
    Updates,
    Deletes,
    Indirect,
}

// What a group holds, as it is counted.
trait CountedEntry: Entry {
    ghost use Rattle.std.specs.Prelude.{Bool};
    ghost use Rattle.cap_files.specs.declared.counts.Counted.{Counted};

    // Whether one is counted.
    ghost is: { Counted → Self → Bool };

    fn is_counted(change: &EntryRef<'_, Self>, counted: Counted) -> bool
    where
        Self: Sized,
        ensures { result ≡ is counted change.now };
}

impl<A: AllocHandle> CountedEntry for RowChange<A> {
    ghost use Rattle.cap_files.specs.Summary.{is_change};

    ghost is = { is_change };

    fn is_counted(change: &EntryRef<'_, Self>, counted: Counted) -> bool {
        match (counted, change.read()) {
            (Counted::Inserts, ChangeRef::Insert { .. })
            | (Counted::Updates, ChangeRef::Update { .. })
            | (Counted::Deletes, ChangeRef::Delete { .. }) => true,
            (
                Counted::Indirect,
                ChangeRef::Insert { indirect, .. }
                | ChangeRef::Update { indirect, .. }
                | ChangeRef::Delete { indirect, .. },
            ) => indirect,
            _ => false,
        }
    }
}

impl<A: AllocHandle> CountedEntry for Patch<A> {
    ghost use Rattle.cap_files.specs.Summary.{is_patch};

    ghost is = { is_patch };

    fn is_counted(change: &EntryRef<'_, Self>, counted: Counted) -> bool {
        match (counted, change.read()) {
            (Counted::Inserts, PatchRef::Insert { .. })
            | (Counted::Updates, PatchRef::Update { .. })
            | (Counted::Deletes, PatchRef::Delete { .. }) => true,
            (
                Counted::Indirect,
                PatchRef::Insert { indirect, .. }
                | PatchRef::Update { indirect, .. }
                | PatchRef::Delete { indirect, .. },
            ) => indirect,
            _ => false,
        }
    }
}

/// A line for each group of a blob: its table, and how many inserts, updates and deletes it has, and how many
/// of these are indirect.
pub fn summary<A: AllocHandle>(alloc: A, contents: &Contents<A>) -> Result<String<A>, OutOfMemory>
    ensures { IfOk result (λ text. string_bytes text ≡ spec.summary contents.now) }
{
    match contents {
        Contents::Changes(list) => lines::<RowChange<A>, A>(alloc, list.groups()),
        Contents::Patches(list) => lines::<Patch<A>, A>(alloc, list.groups()),
    }
}

fn lines<C: CountedEntry, A: AllocHandle>(
    alloc: A,
    groups: &[TableGroup<C, A>],
) -> Result<String<A>, OutOfMemory>
    ensures { IfOk result (λ text. string_bytes text ≡ spec.table_lines C.is groups.now) }
{
    let mut text = String::new(alloc);
    for group in groups {
        push_line(group, &mut text)?;
    }
    Ok(text)
}

#[tactic(auto, unfolding(crate::specs::Summary::table_line))]
fn push_line<C: CountedEntry, A: AllocHandle>(
    group: &TableGroup<C, A>,
    text: &mut String<A>,
) -> Result<(), OutOfMemory>
    ensures { OnOk result (string_bytes text.new
        ≡ string_bytes text.old ++ spec.table_line C.is group.now) }
{
    let inserts = count(Counted::Inserts, group);
    let updates = count(Counted::Updates, group);
    let deletes = count(Counted::Deletes, group);
    let indirect = count(Counted::Indirect, group);
    let table = group.table().as_str();
    writeln!(
        text,
        "{table}: inserts {inserts}, updates {updates}, deletes {deletes}, indirect {indirect}"
    )
}

fn count<C: CountedEntry, A: AllocHandle>(counted: Counted, group: &TableGroup<C, A>) -> usize
    ensures { result ≡ spec.count C.is counted group.now.changes }
{
    let mut left = group.changes();
    let mut found = 0usize;
    for _place in 0..left.len() {
        if let Some(change) = left.next_entry()
            && C::is_counted(&change, counted)
        {
            found += 1;
        }
    }
    found
}
