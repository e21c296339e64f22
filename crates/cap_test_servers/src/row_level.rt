//! Transactions beside other commits.
ghost use Rattle.std.specs.Prelude.{◌≡◌};

use crate::looks::{Looked, Told, are_items, is_trace};
use crate::seats::{is_answered, line_of, snapshot};
use cap_core::{Command, Reply};
use cap_database::{Op, Snapshot};
use cap_history::Opened;
use cap_script::{Line, Show, print_reply};
use cap_server::{Naming, Seat, Server};
use cap_txn::{Batch, Mark, Txn, copy_of_op};
use cap_value::Refusal;
use std::alloc::Global;
use std::marker::Brand;
use std::process::Abort;
use std::sync::Wait;

// The rows that each transaction begins from, and the replies.
const ROWS: (&str, &str) = (
    "create t kv\ncommit insert t (1,'a')\ncommit insert t (2,'b')",
    "ok version 1\nok version 2\nok version 3\n",
);

// A transaction, and the commit of it beside other commits.
struct Case<'a> {
    // The transaction's calls. It begins at version 3, where t has (1,'a') and (2,'b').
    calls: &'a [&'a str],
    // What it looks at, in order.
    footprint: &'a [Looked],
    // Its calls and their answers.
    trace: &'a [(&'a str, Told<'a>)],
    // A workload that is carried out meanwhile, and the replies to it.
    meanwhile: (&'a str, &'a str),
    // The reply to the transaction's commit.
    reply: &'a str,
    // What a scan of t shows then.
    scan: &'a str,
}

const UPDATE: &[&str] = &["get t key(1)", "commit update t key(1) set 1 = 'c'"];

const UPDATE_LOOKS: &[Looked] = &[Looked::Table, Looked::Row(1)];

const UPDATE_TRACE: &[(&str, Told<'static>)] = &[
    ("get", Told::Row((1, "a"))),
    ("update", Told::Done),
];

const CASES: &[Case<'static>] = &[
    Case {
        calls: UPDATE,
        footprint: UPDATE_LOOKS,
        trace: UPDATE_TRACE,
        meanwhile: ("commit update t key(2) set 1 = 'q'", "ok version 4\n"),
        reply: "ok version 5",
        scan: "rows 2\n(1,'c')\n(2,'q')\n",
    },
    Case {
        calls: UPDATE,
        footprint: UPDATE_LOOKS,
        trace: UPDATE_TRACE,
        meanwhile: ("commit update t key(1) set 1 = 'q'", "ok version 4\n"),
        reply: "refused: E11 Stale base 3 now 4 item 1",
        scan: "rows 2\n(1,'q')\n(2,'b')\n",
    },
    Case {
        calls: UPDATE,
        footprint: UPDATE_LOOKS,
        trace: UPDATE_TRACE,
        meanwhile: (
            "commit update t key(1) set 1 = 'q'\ncommit update t key(1) set 1 = 'a'",
            "ok version 4\nok version 5\n",
        ),
        reply: "ok version 6",
        scan: "rows 2\n(1,'c')\n(2,'b')\n",
    },
    Case {
        calls: &["scan t", "commit insert t (9,'z')"],
        footprint: &[Looked::Table, Looked::Scan, Looked::Row(9)],
        trace: &[
            ("scan", Told::Rows(&[(1, "a"), (2, "b")])),
            ("insert", Told::Done),
        ],
        meanwhile: ("commit insert t (5,'e')", "ok version 4\n"),
        reply: "refused: E11 Stale base 3 now 4 item 1",
        scan: "rows 3\n(1,'a')\n(2,'b')\n(5,'e')\n",
    },
    Case {
        calls: &["commit insert t (5,'x')"],
        footprint: &[Looked::Table, Looked::Row(5)],
        trace: &[("insert", Told::Done)],
        meanwhile: ("commit insert t (5,'e')", "ok version 4\n"),
        reply: "refused: E11 Stale base 3 now 4 item 1",
        scan: "rows 3\n(1,'a')\n(2,'b')\n(5,'e')\n",
    },
    Case {
        calls: &["commit insert t (null,'l')"],
        footprint: &[Looked::Table, Looked::NextId],
        trace: &[("insert", Told::Done)],
        meanwhile: ("commit insert t (null,'m')", "ok version 4\n"),
        reply: "refused: E11 Stale base 3 now 4 item 1",
        scan: "rows 3\n(1,'a')\n(2,'b')\nloose 1 (null,'m')\n",
    },
    Case {
        calls: &[
            "savepoint",
            "commit delete t key(2)",
            "back",
            "commit insert t (9,'z')",
        ],
        footprint: &[Looked::Table, Looked::Row(2), Looked::Row(9)],
        trace: &[
            ("savepoint", Told::Mark(0)),
            ("delete", Told::Done),
            ("back", Told::Done),
            ("insert", Told::Done),
        ],
        meanwhile: ("commit delete t key(2)", "ok version 4\n"),
        reply: "refused: E11 Stale base 3 now 4 item 1",
        scan: "rows 1\n(1,'a')\n",
    },
    Case {
        calls: &["commit insert t (1,'z')", "commit insert t (9,'z')"],
        footprint: &[Looked::Table, Looked::Row(1), Looked::Row(9)],
        trace: &[
            ("insert", Told::Refused(Refusal::Duplicate)),
            ("insert", Told::Done),
        ],
        meanwhile: ("commit update t key(2) set 1 = 'q'", "ok version 4\n"),
        reply: "ok version 5",
        scan: "rows 3\n(1,'a')\n(2,'q')\n(9,'z')\n",
    },
];

// Operations of the transaction. What they are answered is in its trace.
fn operate(alloc: Global, txn: &mut Txn<Global>, ops: &[Op<Global>]) -> bool {
    for op in ops {
        match copy_of_op(alloc, op) {
            Ok(op) => {
                let _answer = txn.op(op);
            }
            Err(_) => return false,
        }
    }
    true
}

// The call of the transaction that a line of a workload says.
fn call_of(alloc: Global, txn: &mut Txn<Global>, line: &Line<Global>) -> bool {
    match &line.show {
        Show::Get(table, row) => txn.get(table, row).is_ok(),
        Show::Scan(table) => txn.scan(table).is_ok(),
        _ => match &line.command {
            Command::Commit(batch) => operate(alloc, txn, batch.ops()),
            _ => false,
        },
    }
}

// One call of the transaction.
fn call(alloc: Global, txn: &mut Txn<Global>, text: &str) -> bool {
    if text == "savepoint" {
        return txn.savepoint().is_ok();
    }
    if text == "back" {
        return txn.back_to(Mark { number: 0 }).is_ok();
    }
    match line_of(alloc, text) {
        Some(line) => call_of(alloc, txn, &line),
        None => false,
    }
}

// The batch of a transaction on the snapshot that makes these calls.
fn transact(alloc: Global, base: &Snapshot<Global>, calls: &[&str]) -> Option<Batch<Global>> {
    let mut txn = Txn::begin(alloc, base).ok()?;
    for text in calls {
        if !call(alloc, &mut txn, text) {
            return None;
        }
    }
    Some(txn.into_batch())
}

// The text of the reply to a commit.
fn text_of(alloc: Global, reply: &Reply<Global>) -> Option<String> {
    match line_of(alloc, "session") {
        Some(line) => print_reply(alloc, &line, reply).ok(),
        None => None,
    }
}

// The text of the reply to the commit of a batch.
fn committed<J: Naming>(
    rt: &impl Wait,
    alloc: Global,
    server: &Server<J, Global>,
    seat: &mut Seat<J, Global>,
    batch: Batch<Global>,
) -> Option<String> {
    match server.commit(rt, seat, batch) {
        Ok(reply) => text_of(alloc, &reply),
        Err(_) => None,
    }
}

// The batch of the case's transaction, on the tables as they are.
fn begun<J: Naming>(
    rt: &impl Wait,
    alloc: Global,
    server: &Server<J, Global>,
    seat: &mut Seat<J, Global>,
    case: &Case<'_>,
) -> Option<Batch<Global>> {
    let base = snapshot(rt, server, seat)?;
    transact(alloc, &base, case.calls)
}

// Whether the commit of a batch has the case's reply.
fn is_committed<J: Naming>(
    rt: &impl Wait,
    alloc: Global,
    server: &Server<J, Global>,
    seat: &mut Seat<J, Global>,
    batch: Batch<Global>,
    case: &Case<'_>,
) -> bool {
    match committed(rt, alloc, server, seat, batch) {
        Some(reply) => reply.as_str() == case.reply,
        None => false,
    }
}

// Commits a transaction from one seat, where the other made commits since it began.
fn commit_beside<J: Naming, R: Wait + Abort>(
    rt: &R,
    alloc: Global,
    server: &Server<J, Global>,
    zero: &mut Seat<J, Global>,
    one: &mut Seat<J, Global>,
    case: &Case<'_>,
) -> Option<()> {
    let batch = begun(rt, alloc, server, zero, case)?;
    assert!(rt; are_items(batch.footprint(), case.footprint));
    assert!(rt; is_trace(batch.trace(), case.trace));
    assert!(rt; is_answered(rt, alloc, server, one, case.meanwhile));
    assert!(rt;
        is_committed(rt, alloc, server, zero, batch, case),
        "{}",
        case.reply
    );
    assert!(rt; is_answered(rt, alloc, server, zero, ("scan t", case.scan)));
    Some(())
}

// A case on a server of its own.
fn judged<J: Naming + Send + Sync, R: Wait + Abort>(
    rt: &R,
    opened: Opened<Global>,
    alloc: Global,
    case: &Case<'_>,
) -> Option<()>
    requires history { opened.seen.book ≡ J.book }
    requires seats { J.seats ≡ 2 }
{
    let (server, mut seats) = Server::<J, Global>::open(opened, alloc, 2).ok()?;
    let mut one = seats.pop()?;
    let mut zero = seats.pop()?;
    assert!(rt; is_answered(rt, alloc, &server, &mut zero, ROWS));
    commit_beside(rt, alloc, &server, &mut zero, &mut one, case)
}

#[test]
fn transactions_are_refused_where_what_they_looked_at_has_changed(rt: HostRuntime) {
    for case in CASES {
        let judged = judged::<Brand, _>(&rt, Opened::new(), rt.alloc(), case);
        assert!(rt; judged == Some(()));
    }
}
