//! What the tests of commands share: workloads that are carried out on the sequential server.
use cap_core::{Core, EVENTS_MAX, NoHook};
use cap_script::{Line, parse, print_reply, read_line};
use cap_value::AllocHandle;

// The command of a text of one line.
pub(crate) fn line_of<A: AllocHandle>(alloc: A, text: &str) -> Option<Line<A>> {
    match read_line(alloc, 1, text) {
        Ok(line) => line,
        Err(_) => None,
    }
}

// The text of the reply to a line's command.
fn answer<A: AllocHandle>(alloc: A, core: &mut Core<A>, line: &Line<A>) -> Option<String<A>> {
    if core.events() >= EVENTS_MAX {
        return None;
    }
    match core.step(&line.command, &mut NoHook) {
        Ok(reply) => print_reply(alloc, line, &reply).ok(),
        Err(_) => None,
    }
}

// Adds a line to a text.
pub(crate) fn push_line<A: AllocHandle>(texts: &mut String<A>, line: &str) -> Option<()> {
    texts.push_str(line).ok()?;
    texts.push_str("\n").ok()
}

// The texts of the replies to the commands of these lines, each on a line.
pub(crate) fn give<A: AllocHandle>(
    alloc: A,
    core: &mut Core<A>,
    lines: &[Line<A>],
) -> Option<String<A>> {
    let mut texts = String::new(alloc);
    for line in lines {
        let text = answer(alloc, core, line)?;
        push_line(&mut texts, text.as_str())?;
    }
    Some(texts)
}

// The same of the lines of a workload.
pub(crate) fn carry_out<A: AllocHandle>(
    alloc: A,
    core: &mut Core<A>,
    text: &str,
) -> Option<String<A>> {
    match parse(alloc, text) {
        Ok(workload) => give(alloc, core, &workload.lines),
        Err(_) => None,
    }
}
