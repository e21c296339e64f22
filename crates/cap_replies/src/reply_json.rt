//! The object of a reply.
ghost use Rattle.std.specs.Prelude.{◌≡◌, ◌++◌, ◌∷◌, [], IfOk, codes, string_bytes};
ghost use Rattle.json.specs.Print.{print};
ghost use Rattle.json.specs.Token as token;
ghost use Rattle.std.specs.Option.{option_map};
ghost use Rattle.cap_replies.specs.ReplyJson as spec;
ghost use Rattle.cap_script.specs.ReplyText.{place_in};
ghost use Rattle.cap_changes.specs.Patch.{patch_list_of};
ghost use Rattle.cap_codec.specs.Changeset.{list_bytes_with};
ghost use Rattle.cap_codec.specs.Patchset.{patch_list_bytes_with};
ghost use Rattle.cap_dump.specs.Dump.{dump_bytes};
ghost use Rattle.cap_show.specs.Json.{Appends};

use crate::lists::{write_databases, write_sessions, write_tables};
use crate::members::{
    write_blob, write_flag, write_kind, write_kind_at, write_number, write_optional,
};
use crate::report::{write_buffer, write_own_report, write_passed, write_refused, write_report};
use crate::rows::write_snapshot;
use cap_apply::Report;
use cap_codec::KeyFlags;
use cap_core::{Capture, Dump, Reply};
use cap_script::{Line, Show, place_in};
use cap_value::{AllocHandle, OutOfMemory};
use json::Writer;

/// The reply to a line's command as JSON, without a line feed at its end: an object.
///
/// It has the number of the `line`, the number of the `worker` after its `@` where it has one, and in `reply`
/// which reply it is: `done`, `written`, `applied`, `session`, `sessions`, `databases`, `tables`, `row`,
/// `rows`, `flag`, `changeset`, `patchset` or `refused`. What the reply has are members of their own: the
/// `version` of the tables, the number of the `session`, a `row` or `rows`, each an array of values as in a
/// shown blob, a `flag`, the hex digits of a blob, or the `refusal`, as `E5 Duplicate`.
#[tactic(auto, unfolding(crate::specs::ReplyJson::reply_json))]
pub fn print_reply_json<A: AllocHandle>(
    alloc: A,
    number: u64,
    line: &Line<A>,
    reply: &Reply<A>,
) -> Result<String<A>, OutOfMemory>
    ensures { IfOk result (λ text. string_bytes text ≡ spec.reply_json number line.now reply.now) }
{
    let mut writer = Writer::new(Vec::new(alloc));
    write_object(alloc, &mut writer, number, line, reply)?;
    text_of(writer)
}

// The text that was written.
pub(crate) fn text_of<A: AllocHandle>(writer: Writer<A>) -> Result<String<A>, OutOfMemory>
    requires { writer.before ≡ [] }
    ensures { IfOk result (λ text. string_bytes text ≡ print writer.tokens) }
{
    match String::from_utf8(writer.into_inner()) {
        Ok(text) => Ok(text),
        Err(_) => unreachable!(),
    }
}

fn write_object<A: AllocHandle>(
    alloc: A,
    writer: &mut Writer<A>,
    number: u64,
    line: &Line<A>,
    reply: &Reply<A>,
) -> Result<(), OutOfMemory>
    ensures { Appends result writer.old writer.new (token.begin_object
        ∷ (spec.line_members number line.now.worker
        ++ (spec.reply_members line.now reply.now ++ token.end_object ∷ []))) }
{
    writer.begin_object()?;
    write_line(writer, number, line.worker)?;
    write_reply(alloc, writer, line, reply)?;
    writer.end_object()
}

// Writes the number of the line, and of its worker where it has one.
pub(crate) fn write_line<A: AllocHandle>(
    writer: &mut Writer<A>,
    number: u64,
    worker: Option<u64>,
) -> Result<(), OutOfMemory>
    ensures { Appends result writer.old writer.new (spec.line_members number worker) }
{
    write_number(writer, "line", number)?;
    write_optional(writer, "worker", worker)
}

fn write_reply<A: AllocHandle>(
    alloc: A,
    writer: &mut Writer<A>,
    line: &Line<A>,
    reply: &Reply<A>,
) -> Result<(), OutOfMemory>
    ensures { Appends result writer.old writer.new (spec.reply_members line.now reply.now) }
{
    match reply {
        Reply::Done => write_kind(writer, "done"),
        Reply::Written { version } => write_written(writer, &line.show, *version),
        Reply::Applied { version, report } => write_applied(alloc, writer, line, *version, report),
        Reply::Session(number) => write_session(writer, *number),
        Reply::Databases(names) => write_databases(writer, names),
        Reply::Sessions(sessions) => write_sessions(writer, sessions),
        Reply::Tables(tables) => write_tables(alloc, writer, tables),
        Reply::Snapshot(snapshot) => write_snapshot(alloc, writer, &line.show, snapshot),
        Reply::Flag(flag) => write_flag_reply(writer, *flag),
        Reply::Capture(capture) => write_capture(alloc, writer, &line.show, capture),
        Reply::Dump(dump) => write_dump(alloc, writer, &line.show, dump),
        Reply::Refused { at, why } => {
            let at = place_of(&line.show, *at);
            write_refused(writer, at, *why)
        }
    }
}

// The number of a refused operation or change, where there is one.
fn place_of<A: AllocHandle>(show: &Show<A>, at: Option<u64>) -> Option<u64>
    ensures { result ≡ option_map (place_in show.now) at }
{
    match at {
        Some(place) => Some(place_in(show, place)),
        None => None,
    }
}

fn write_session<A: AllocHandle>(writer: &mut Writer<A>, number: u64) -> Result<(), OutOfMemory>
    ensures { Appends result writer.old writer.new
        (spec.kind (codes "session") ++ spec.number_member (codes "session") number) }
{
    write_kind(writer, "session")?;
    write_number(writer, "session", number)
}

fn write_flag_reply<A: AllocHandle>(writer: &mut Writer<A>, flag: bool) -> Result<(), OutOfMemory>
    ensures { Appends result writer.old writer.new
        (spec.kind (codes "flag") ++ spec.flag_member (codes "flag") flag) }
{
    write_kind(writer, "flag")?;
    write_flag(writer, "flag", flag)
}

// Writes the version that was made, and what an application that was committed so did.
fn write_written<A: AllocHandle>(
    writer: &mut Writer<A>,
    show: &Show<A>,
    version: u64,
) -> Result<(), OutOfMemory>
    ensures { Appends result writer.old writer.new (spec.written show.now version) }
{
    match show {
        Show::Decided(report, passed) => {
            write_kind_at(writer, "applied", version)?;
            write_own_report(writer, report)?;
            write_optional(writer, "passed", *passed)
        }
        _ => write_kind_at(writer, "written", version),
    }
}

fn write_applied<A: AllocHandle>(
    alloc: A,
    writer: &mut Writer<A>,
    line: &Line<A>,
    version: u64,
    report: &Report<A>,
) -> Result<(), OutOfMemory>
    ensures { Appends result writer.old writer.new
        (spec.kind_at (codes "applied") version
        ++ (spec.report (spec.report_in line.now.show report.now) ++ (spec.passed_member line.now.show
        ++ spec.buffer_member line.now.show line.now.command report.now.conflicts))) }
{
    write_kind_at(writer, "applied", version)?;
    write_report(alloc, writer, &line.show, report)?;
    write_passed(writer, &line.show)?;
    write_buffer(alloc, writer, &line.show, &line.command, report.conflicts())
}

fn write_capture<A: AllocHandle>(
    alloc: A,
    writer: &mut Writer<A>,
    show: &Show<A>,
    capture: &Capture<A>,
) -> Result<(), OutOfMemory>
    ensures { Appends result writer.old writer.new (spec.capture_reply show.now capture.now) }
{
    match show {
        Show::Changeset(flags) => write_changeset(alloc, writer, *flags, capture),
        Show::Patchset(flags) => write_patchset(alloc, writer, *flags, capture),
        _ => write_kind(writer, "done"),
    }
}

fn write_changeset<A: AllocHandle>(
    alloc: A,
    writer: &mut Writer<A>,
    flags: KeyFlags,
    capture: &Capture<A>,
) -> Result<(), OutOfMemory>
    ensures { Appends result writer.old writer.new (spec.blob_reply (codes "changeset")
        capture.now.version (list_bytes_with flags capture.now.changes)) }
{
    let bytes = capture.changeset_with(alloc, flags)?;
    write_blob(
        alloc,
        writer,
        "changeset",
        capture.version(),
        bytes.as_slice(),
    )
}

fn write_patchset<A: AllocHandle>(
    alloc: A,
    writer: &mut Writer<A>,
    flags: KeyFlags,
    capture: &Capture<A>,
) -> Result<(), OutOfMemory>
    ensures { Appends result writer.old writer.new (spec.blob_reply (codes "patchset")
        capture.now.version (patch_list_bytes_with flags (patch_list_of capture.now.changes))) }
{
    let bytes = capture.patchset_with(alloc, flags)?;
    write_blob(
        alloc,
        writer,
        "patchset",
        capture.version(),
        bytes.as_slice(),
    )
}

fn write_dump<A: AllocHandle>(
    alloc: A,
    writer: &mut Writer<A>,
    show: &Show<A>,
    dump: &Dump<A>,
) -> Result<(), OutOfMemory>
    ensures { Appends result writer.old writer.new (spec.dump_reply show.now dump.now) }
{
    match show {
        Show::Changeset(flags) => write_whole(alloc, writer, *flags, dump),
        _ => write_kind(writer, "done"),
    }
}

fn write_whole<A: AllocHandle>(
    alloc: A,
    writer: &mut Writer<A>,
    flags: KeyFlags,
    dump: &Dump<A>,
) -> Result<(), OutOfMemory>
    ensures { Appends result writer.old writer.new (spec.blob_reply (codes "changeset")
        dump.now.version (dump_bytes flags dump.now.database)) }
{
    let bytes = dump.changeset_with(alloc, flags)?;
    let version = dump.snapshot().version();
    write_blob(alloc, writer, "changeset", version, bytes.as_slice())
}
