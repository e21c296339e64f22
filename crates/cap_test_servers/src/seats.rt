//! What the tests of servers share: calls from a seat, and the rows of two databases side by side.
use cap_compare::compare;
use cap_core::{Command, Reply};
use cap_database::{Database, Snapshot};
use cap_script::{Line, parse, print_reply, read_line};
use cap_server::{Naming, Seat, Server};
use cap_value::Name;
use std::alloc::Global;
use std::sync::Wait;

// A table that session 1 watches, with two rows, and the replies.
const BEFORE: &str =
    "create t kv\nsession\nattach 1 t\ncommit insert t (1,'x') ; insert t (2,'y')\nrestart 1";

const BEFORE_REPLIES: &str = "ok version 1\nsession 1\nok\nok version 2\n\
     changeset 54020100740012000100000000000000010301781200010000000000000002030179\n";

// Three changes of its rows.
const CHANGES: &str = "commit update t key(1) set 1 = 'z' ; delete t key(2) ; insert t (3,'w')";

// The command of a text of one line.
pub(crate) fn line_of(alloc: Global, text: &str) -> Option<Line<Global>> {
    match read_line(alloc, 1, text) {
        Ok(line) => line,
        Err(_) => None,
    }
}

// The text of the reply to a line's command.
fn answer<J: Naming>(
    rt: &impl Wait,
    alloc: Global,
    server: &Server<J, Global>,
    seat: &mut Seat<J, Global>,
    line: &Line<Global>,
) -> Option<String> {
    match server.call(rt, seat, &line.command) {
        Ok(reply) => print_reply(alloc, line, &reply).ok(),
        Err(_) => None,
    }
}

// The texts of the replies to the commands of these lines, each on a line.
fn answers<J: Naming>(
    rt: &impl Wait,
    alloc: Global,
    server: &Server<J, Global>,
    seat: &mut Seat<J, Global>,
    lines: &[Line<Global>],
) -> Option<String> {
    let mut texts = String::new(alloc);
    for line in lines {
        let text = answer(rt, alloc, server, seat, line)?;
        texts.push_str(text.as_str()).ok()?;
        texts.push_str("\n").ok()?;
    }
    Some(texts)
}

// Whether these are the replies to a workload's commands.
pub(crate) fn is_answered<J: Naming>(
    rt: &impl Wait,
    alloc: Global,
    server: &Server<J, Global>,
    seat: &mut Seat<J, Global>,
    (workload, replies): (&str, &str),
) -> bool {
    let Ok(parsed) = parse(alloc, workload) else {
        return false;
    };
    match answers(rt, alloc, server, seat, &parsed.lines) {
        Some(texts) => texts.as_str() == replies,
        None => false,
    }
}

// The tables that a reply is.
fn tables_in(reply: Reply<Global>) -> Option<Snapshot<Global>> {
    match reply {
        Reply::Snapshot(snapshot) => Some(snapshot),
        _ => None,
    }
}

// The tables as they are.
pub(crate) fn snapshot<J: Naming>(
    rt: &impl Wait,
    server: &Server<J, Global>,
    seat: &mut Seat<J, Global>,
) -> Option<Snapshot<Global>> {
    match server.call(rt, seat, &Command::Read) {
        Ok(reply) => tables_in(reply),
        Err(_) => None,
    }
}

// The tables before three changes that session 1 sees, and behind them.
pub(crate) fn changed<J: Naming>(
    rt: &impl Wait,
    alloc: Global,
    server: &Server<J, Global>,
    seat: &mut Seat<J, Global>,
) -> Option<(Snapshot<Global>, Snapshot<Global>)> {
    if !is_answered(rt, alloc, server, seat, (BEFORE, BEFORE_REPLIES)) {
        return None;
    }
    let before = snapshot(rt, server, seat)?;
    if !is_answered(rt, alloc, server, seat, (CHANGES, "ok version 3\n")) {
        return None;
    }
    let after = snapshot(rt, server, seat)?;
    Some((before, after))
}

// Whether t has the same rows in both databases.
pub(crate) fn have_same_rows(
    alloc: Global,
    first: &Database<Global>,
    second: &Database<Global>,
) -> bool {
    let Ok(name) = Name::new(alloc, "t") else {
        return false;
    };
    match second.table(&name) {
        Some(table) => match compare(alloc, first.table(&name), table) {
            Ok(differences) => differences.is_empty(),
            Err(_) => false,
        },
        None => false,
    }
}
