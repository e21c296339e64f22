//! Runs of the sequential server, commands that are prepared, and captures as bytes.
use crate::calls::{REPLIES, WORKLOAD};
use crate::carried::{carry_out, line_of, push_line};
use cap_core::{Capture, Command, Core, EVENTS_MAX, NoHook, Reply};
use cap_database::{Action, Cause, Op};
use cap_row::{Row, Schema};
use cap_script::{Line, parse, print_reply};
use cap_txn::Batch;
use cap_value::{Name, OutOfMemory, Value};
use std::alloc::Global;

// The batch that inserts the row (1,'x').
fn batch_of_a_row(alloc: Global, table: &Name<Global>) -> Option<Batch<Global>> {
    let row = vec![in alloc; Value::Int(1), Value::text(alloc, "x").ok()?].ok()?;
    let mut batch = Batch::blind(alloc);
    let op = Op {
        table: table.copy().ok()?,
        cause: Cause::Direct,
        action: Action::Insert(Row::new(row).ok()?),
    };
    batch.push(op).ok()?;
    Some(batch)
}

// A session, and what it is to capture.
fn session_and_row(alloc: Global) -> Option<Vec<Command<Global>>> {
    let table = Name::new(alloc, "t").ok()?;
    let batch = batch_of_a_row(alloc, &table)?;
    let commands = vec![in alloc;
        Command::CreateTable {
            table: table.copy().ok()?,
            schema: Schema::new(alloc, &[true, false]).ok()?
        },
        Command::NewSession,
        Command::attach(1, table),
        Command::Commit(batch),
        Command::capture(1),
    ];
    commands.ok()
}

// SQLite's changeset of the inserted row.
const INSERTED: &[u8] = &[
    0x54, 2, 1, 0, 0x74, 0, 0x12, 0, 1, 0, 0, 0, 0, 0, 0, 0, 1, 3, 1, 0x78,
];

fn are_bytes(found: Result<Vec<u8>, OutOfMemory>, expected: &[u8]) -> bool {
    match found {
        Ok(bytes) => bytes.as_slice() == expected,
        Err(_) => false,
    }
}

// Whether the last reply is the capture of that row, at this version.
fn ends_with_a_capture(alloc: Global, replies: &[Reply<Global>]) -> bool {
    match replies.last() {
        Some(Reply::Capture(capture)) => {
            capture.version() == 2 && are_bytes(capture.changeset(alloc), INSERTED)
        }
        _ => false,
    }
}

fn captures_a_row(alloc: Global) -> Option<bool> {
    let commands = session_and_row(alloc)?;
    if commands.len() != 5 {
        return None;
    }
    let (_core, replies) = Core::run(alloc, &commands).ok()?;
    Some(ends_with_a_capture(alloc, replies.as_slice()))
}

// It is the first example of docs/manual/rattle.md.
#[test]
fn a_session_and_what_it_captures(rt: HostRuntime) {
    assert!(rt; captures_a_row(rt.alloc()) == Some(true));
}

// The commands of a workload.
fn commands(alloc: Global, text: &str) -> Option<Vec<Command<Global>>> {
    let mut commands = Vec::new(alloc);
    for line in parse(alloc, text).ok()?.lines {
        commands.push(line.into_command()).ok()?;
    }
    Some(commands)
}

// Adds the texts of the replies to the commands of these lines.
fn push_replies(
    alloc: Global,
    texts: &mut String,
    lines: &[Line<Global>],
    replies: &[Reply<Global>],
) -> Option<()> {
    for (line, reply) in lines.iter().zip(replies) {
        let text = print_reply(alloc, line, reply).ok()?;
        push_line(texts, text.as_str())?;
    }
    Some(())
}

// Whether a run of all commands has the replies of the calls.
fn run_answers(
    alloc: Global,
    lines: &[Line<Global>],
    commands: &[Command<Global>],
) -> Option<bool> {
    if commands.len() != 29 {
        return None;
    }
    let (core, replies) = Core::run(alloc, commands).ok()?;
    let mut texts = String::new(alloc);
    push_replies(alloc, &mut texts, lines, replies.as_slice())?;
    Some(core.events() == 29 && texts.as_str() == REPLIES)
}

fn is_answered(alloc: Global) -> Option<bool> {
    let parsed = parse(alloc, WORKLOAD).ok()?;
    let commands = commands(alloc, WORKLOAD)?;
    run_answers(alloc, parsed.lines.as_slice(), commands.as_slice())
}

#[test]
fn a_run_answers_each_command(rt: HostRuntime) {
    assert!(rt; is_answered(rt.alloc()) == Some(true));
}

// The events of the server that a command makes, and the version that it writes.
fn prepared(core: &Core<Global>, command: &Command<Global>) -> Option<(u64, u64)> {
    if core.events() >= EVENTS_MAX {
        return None;
    }
    let (made, reply) = core.prepare(command).ok()?;
    match reply {
        Reply::Written { version } => Some((made.events(), version)),
        _ => None,
    }
}

// The server on which a command was prepared goes on as if nothing had been.
fn is_as_it_was(alloc: Global) -> bool {
    let core = Core::new(alloc);
    match line_of(alloc, "create t kv") {
        Some(line) => {
            prepared(&core, &line.command) == Some((1, 1))
                && core.events() == 0
                && prepared(&core, &line.command) == Some((1, 1))
        }
        None => false,
    }
}

#[test]
fn a_prepared_command_is_another_server(rt: HostRuntime) {
    assert!(rt; is_as_it_was(rt.alloc()));
}

// A session that saw the update of (1,'x') to (1,'y').
const UPDATE: &str = "create t kv\n\
     commit insert t (1,'x')\n\
     session\n\
     attach 1 t\n\
     commit update t key(1) set 1 = 'y'";

// Commits to the same table, and to the records of the session.
const LATER: &str = "commit update t key(1) set 1 = 'z'\n\
     commit insert t (2,'w')\n\
     restart 1";

const CHANGESET: &[u8] = &[
    0x54, 2, 1, 0, 0x74, 0, 0x17, 0, 1, 0, 0, 0, 0, 0, 0, 0, 1, 3, 1, 0x78, 0, 3, 1, 0x79,
];

const PATCHSET: &[u8] = &[
    0x50, 2, 1, 0, 0x74, 0, 0x17, 0, 1, 0, 0, 0, 0, 0, 0, 0, 1, 3, 1, 0x79,
];

// The capture that a reply is.
fn capture_in(reply: Reply<Global>) -> Option<Capture<Global>> {
    match reply {
        Reply::Capture(capture) => Some(capture),
        _ => None,
    }
}

// The capture of session 1.
fn captured(core: &mut Core<Global>) -> Option<Capture<Global>> {
    if core.events() >= EVENTS_MAX {
        return None;
    }
    match core.step(&Command::capture(1), &mut NoHook) {
        Ok(reply) => capture_in(reply),
        Err(_) => None,
    }
}

fn is_the_update(alloc: Global, capture: &Capture<Global>) -> bool {
    capture.version() == 3
        && are_bytes(capture.changeset(alloc), CHANGESET)
        && are_bytes(capture.patchset(alloc), PATCHSET)
}

// Whether the capture is that of the update, and stays so whatever is committed later.
fn stays_the_update(alloc: Global) -> Option<bool> {
    let mut core = Core::new(alloc);
    carry_out(alloc, &mut core, UPDATE)?;
    let capture = captured(&mut core)?;
    let is_captured = is_the_update(alloc, &capture);
    carry_out(alloc, &mut core, LATER)?;
    Some(is_captured && is_the_update(alloc, &capture))
}

#[test]
fn a_capture_as_a_changeset_and_a_patchset(rt: HostRuntime) {
    assert!(rt; stays_the_update(rt.alloc()) == Some(true));
}
