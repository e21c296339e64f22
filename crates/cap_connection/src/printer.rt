//! The commit hook that prints a reply before the command takes effect.
ghost use Rattle.std.specs.Prelude.{◌≡◌, IfOk, string_bytes};
ghost use Rattle.cap_script.specs.ReplyText.{reply_text};

use cap_core::{CommitHook, Reply};
use cap_script::{Line, print_reply};
use cap_value::OutOfMemory;
use std::alloc::Global;

/// Prints the reply to a line's command. Out of memory for that, the command is refused, and leaves nothing.
#[derive(Drop)]
pub(crate) struct Printer<'l, 'o> {
    pub(crate) alloc: Global,
    pub(crate) line: &'l Line<Global>,
    pub(crate) output: &'o mut Vec<u8, Global>,
}

impl<'l, 'o> CommitHook<Global> for Printer<'l, 'o> {
    type Refusal = OutOfMemory;

    ghost use Rattle.std.specs.Prelude.{◌≡◌, MatchResult};
    ghost use Rattle.cap_script.specs.ReplyText.{reply_text};

    ghost can_ask = { λ printer reply. Unit {0} };

    ghost gives = { λ old reply answer new. (new.output.ghost_name ≡ old.output.ghost_name)
        × MatchResult answer
        (λ _. new.output.now.items ≡ reply_text old.line.now reply)
        (λ _. new.output.now ≡ old.output.now) };

    fn before_commit(&mut self, reply: &Reply<Global>) -> Result<(), OutOfMemory> {
        match printed(self.alloc, self.line, reply) {
            Ok(text) => {
                *self.output = text;
                Ok(())
            }
            Err(fault) => Err(fault),
        }
    }
}

fn printed(
    alloc: Global,
    line: &Line<Global>,
    reply: &Reply<Global>,
) -> Result<Vec<u8, Global>, OutOfMemory>
    ensures { IfOk result (λ text. text.items ≡ reply_text line.now reply.now) }
{
    match print_reply(alloc, line, reply) {
        Ok(text) => Ok(text.into_bytes()),
        Err(fault) => Err(fault),
    }
}
