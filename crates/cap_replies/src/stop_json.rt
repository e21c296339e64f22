//! The object of where an application stands.
ghost use Rattle.std.specs.Prelude.{◌≡◌, ◌++◌, ◌∷◌, [], IfOk, codes, string_bytes};
ghost use Rattle.std.specs.Option.{option_copied};
ghost use Rattle.json.specs.Token as token;
ghost use Rattle.cap_replies.specs.ReplyJson as spec;
ghost use Rattle.cap_replies.specs.StopJson.{change_in, conflict_members, next_change, stop_json, stop_members};
ghost use Rattle.cap_show.specs.Json.{Appends, change, patch};

use crate::members::{write_key, write_kind, write_number};
use crate::reply_json::{text_of, write_line};
use crate::rows::write_found;
use cap_applier::{Applier, RowConflict};
use cap_changes::{Group, PatchGroup};
use cap_codec::Contents;
use cap_script::kind_word;
use cap_show::{write_change_json, write_patch_json, write_text_member};
use cap_value::{AllocHandle, OutOfMemory};
use json::Writer;

// Where an application stands behind the line with this number, as JSON: an object.
#[tactic(auto, unfolding(crate::specs::StopJson::stop_json))]
pub(crate) fn print_stop_json<A: AllocHandle>(
    alloc: A,
    number: u64,
    worker: Option<u64>,
    applier: &Applier<A>,
) -> Result<String<A>, OutOfMemory>
    ensures { IfOk result (λ text. string_bytes text ≡ stop_json number worker applier.now) }
{
    let mut writer = Writer::new(Vec::new(alloc));
    write_object(alloc, &mut writer, number, worker, applier)?;
    text_of(writer)
}

fn write_object<A: AllocHandle>(
    alloc: A,
    writer: &mut Writer<A>,
    number: u64,
    worker: Option<u64>,
    applier: &Applier<A>,
) -> Result<(), OutOfMemory>
    ensures { Appends result writer.old writer.new (token.begin_object
        ∷ (spec.line_members number worker
        ++ (stop_members applier.now ++ token.end_object ∷ []))) }
{
    writer.begin_object()?;
    write_line(writer, number, worker)?;
    write_stop(alloc, writer, applier)?;
    writer.end_object()
}

fn write_stop<A: AllocHandle>(
    alloc: A,
    writer: &mut Writer<A>,
    applier: &Applier<A>,
) -> Result<(), OutOfMemory>
    ensures { Appends result writer.old writer.new (stop_members applier.now) }
{
    match applier.conflict() {
        Some(conflict) => write_conflict(alloc, writer, applier, conflict),
        None => write_kind(writer, "noconflict"),
    }
}

fn write_conflict<A: AllocHandle>(
    alloc: A,
    writer: &mut Writer<A>,
    applier: &Applier<A>,
    conflict: &RowConflict<A>,
) -> Result<(), OutOfMemory>
    ensures { Appends result writer.old writer.new (conflict_members applier.now conflict.now) }
{
    write_kind(writer, "conflict")?;
    write_number(writer, "change", applier.number())?;
    write_text_member(writer, "kind", kind_word(conflict.kind))?;
    write_content(alloc, writer, applier)?;
    writer.key("row")?;
    write_found(alloc, writer, conflict.row.as_ref())
}

// Writes the change that comes next, as a member.
fn write_content<A: AllocHandle>(
    alloc: A,
    writer: &mut Writer<A>,
    applier: &Applier<A>,
) -> Result<(), OutOfMemory>
    ensures { Appends result writer.old writer.new (token.key (codes "content")
        ∷ next_change applier.now.blob applier.now.progress) }
{
    write_key(writer, "content")?;
    write_next_change(alloc, writer, applier)
}

fn write_next_change<A: AllocHandle>(
    alloc: A,
    writer: &mut Writer<A>,
    applier: &Applier<A>,
) -> Result<(), OutOfMemory>
    ensures { Appends result writer.old writer.new (next_change applier.now.blob applier.now.progress) }
{
    let (group, place) = (applier.group(), applier.change());
    match applier.blob() {
        Contents::Changes(list) => write_change(alloc, writer, list.groups().get(group), place),
        Contents::Patches(list) => write_patch(alloc, writer, list.groups().get(group), place),
    }
}

fn write_change<A: AllocHandle>(
    alloc: A,
    writer: &mut Writer<A>,
    group: Option<&Group<A>>,
    place: usize,
) -> Result<(), OutOfMemory>
    ensures { Appends result writer.old writer.new
        (change_in change (option_copied group.entry) place) }
{
    let Some(group) = group else {
        return writer.null();
    };
    match group.changes().get(place) {
        Some(change) => { write_change_json(alloc, writer, group.table(), group.schema(), &change) }
        None => writer.null(),
    }
}

fn write_patch<A: AllocHandle>(
    alloc: A,
    writer: &mut Writer<A>,
    group: Option<&PatchGroup<A>>,
    place: usize,
) -> Result<(), OutOfMemory>
    ensures { Appends result writer.old writer.new
        (change_in patch (option_copied group.entry) place) }
{
    let Some(group) = group else {
        return writer.null();
    };
    match group.changes().get(place) {
        Some(patch) => write_patch_json(alloc, writer, group.table(), group.schema(), &patch),
        None => writer.null(),
    }
}
