//! Two commits captured in two parts and as a whole.

use crate::carried::carry_out;
use cap_captures::{InParts, captured_in_two_parts};
use cap_codec::{Contents, write_changes};
use cap_core::Core;
use cap_script::{Line, parse};
use std::alloc::Global;

const START: &str = "create t kv\nsession\nattach 1 t\ncommit insert t (1,'x') ; insert t (2,'y')";

// The captures of the commits on two lines.
fn in_parts(alloc: Global, core: &Core<Global>, lines: &[Line<Global>]) -> Option<InParts<Global>> {
    let first = lines.first()?;
    let second = lines.get(1)?;
    captured_in_two_parts(alloc, core, 1, &first.command, &second.command).ok()?
}

// Whether the bytes of the concatenation are those of the one capture.
fn is_whole(alloc: Global, made: &InParts<Global>) -> Option<bool> {
    let Contents::Changes(list) = &made.together else {
        return None;
    };
    let together = write_changes(alloc, list).ok()?;
    let whole = made.whole.changeset(alloc).ok()?;
    Some(together.as_slice() == whole.as_slice())
}

// The same for two commits, a line each.
fn are_same(alloc: Global, commits: &str) -> Option<bool> {
    let mut core = Core::new(alloc);
    carry_out(alloc, &mut core, START)?;
    let parsed = parse(alloc, commits).ok()?;
    let made = in_parts(alloc, &core, &parsed.lines)?;
    is_whole(alloc, &made)
}

#[test]
fn two_parts_are_the_whole(rt: HostRuntime) {
    let commits = "commit update t key(1) set 1 = 'z' ; delete t key(2)\n\
                   commit update t key(1) set 1 = 'w' ; insert t (2,'v') ; insert t (3,'u')";
    assert!(rt; are_same(rt.alloc(), commits) == Some(true));
}

// The first commit changes the row and takes it back: it has no change, and its direct touch is lost.
#[test]
fn a_flag_without_a_change_is_lost(rt: HostRuntime) {
    let commits = "commit update t key(1) set 1 = 'z' ; update t key(1) set 1 = 'x'\n\
                   commit cascade update t key(1) set 1 = 'w'";
    assert!(rt; are_same(rt.alloc(), commits) == Some(false));
}
