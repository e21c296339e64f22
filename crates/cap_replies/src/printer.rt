//! The commit hook that prints a reply before its command takes effect.
ghost use Rattle.std.specs.Prelude.{◌≡◌, ◌++◌, OnOk, string_bytes};
ghost use Rattle.cap_replies.specs.Printed.{HasRoomFor, IsMade};

use crate::{RunLine, write_run_reply};
use cap_core::{CommitHook, Reply};
use cap_value::{AllocHandle, OutOfMemory};

/// Prints the reply to a line's command, with a line feed, before the command takes effect, and reserves room
/// for it in the output. Out of memory for that, the command is refused, and leaves nothing.
#[derive(Drop)]
pub struct Printer<'a, 'l, 't, 'o, A: AllocHandle> {
    /// Where memory comes from.
    pub alloc: &'a A,
    /// The line.
    pub line: &'l RunLine<A>,
    /// The text of the reply. What it held before is dropped.
    pub made: &'t mut String<A>,
    /// Where the caller appends the text when the command has taken effect.
    pub output: &'o mut String<A>,
}

impl<'a, 'l, 't, 'o, A: AllocHandle> CommitHook<A> for Printer<'a, 'l, 't, 'o, A> {
    type Refusal = OutOfMemory;

    ghost use Rattle.std.specs.Prelude.{◌≡◌, OnOk, string_bytes};
    ghost use Rattle.cap_replies.specs.Printed.{HasRoomFor, IsMade};

    ghost can_ask = { λ printer reply. Unit {0} };

    ghost gives = { λ old reply answer new. (new.made.ghost_name ≡ old.made.ghost_name)
        × (new.output.ghost_name ≡ old.output.ghost_name)
        × (string_bytes new.output.now ≡ string_bytes old.output.now)
        × OnOk answer (IsMade old.line.now reply new.made.now × HasRoomFor new.made.now new.output.now) };

    fn before_commit(&mut self, reply: &Reply<A>) -> Result<(), OutOfMemory> {
        print(*self.alloc, self.line, reply, self.made)?;
        self.output.reserve(self.made.as_bytes().len())
    }
}

// Prints the reply and a line feed.
fn print<A: AllocHandle>(
    alloc: A,
    line: &RunLine<A>,
    reply: &Reply<A>,
    made: &mut String<A>,
) -> Result<(), OutOfMemory>
    ensures { OnOk result (IsMade line.now reply.now made.new) }
{
    made.clear();
    write_run_reply(alloc, line, reply, made)?;
    made.push_str("\n")
}

/// Appends what a printer has made, for which it has reserved room.
pub fn append_made<A: AllocHandle>(output: &mut String<A>, made: &String<A>)
    requires { HasRoomFor made.now output.old }
    ensures { string_bytes output.new ≡ string_bytes output.old ++ string_bytes made.now }
{
    match output.push_str(made.as_str()) {
        Ok(()) => {}
        Err(_) => unreachable!(),
    }
}
