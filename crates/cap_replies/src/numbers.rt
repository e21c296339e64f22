//! The numbers of the lines that have a command.
ghost use Rattle.std.specs.Prelude.{◌≡◌, ◌==◌, ◌+◌, ◌≤◌, ◌^◌, length};
ghost use Rattle.cap_replies.specs.Numbers.{first, line_numbers, others};
ghost use Rattle.cap_script.specs.Script.{is_ignored};
ghost use Rattle.cap_language.specs.Tokens.{behind_blanks};

use crate::first_line;

// The part of a text whose lines are not numbered yet.
#[derive(Drop)]
pub(crate) struct Numbers<'t> {
    rest: &'t [u8],
    // The number of the first line of the rest.
    number: u64,
    ghost few: { number + length rest.now ≤ 2 ^ 63 },
}

impl<'t> Numbers<'t> {
    // The whole text.
    pub(crate) fn new(text: &'t str) -> Self
        ensures rest { result.rest.now ≡ text.now }
        ensures number { result.number ≡ 1 }
    {
        Numbers {
            rest: text.as_bytes(),
            number: 1,
        }
    }

    // The number of the next line that is not ignored, or 0 where there is none.
    pub(crate) fn next_number(&mut self) -> u64
        ensures here { result ≡ first (line_numbers self.old.number self.old.rest.now) }
        ensures behind { line_numbers self.new.number self.new.rest.now
            ≡ others (line_numbers self.old.number self.old.rest.now) }
    {
        while !self.rest.is_empty() {
            let (line, behind) = first_line(self.rest);
            let number = self.number;
            self.rest = behind;
            self.number += 1;
            if !is_ignored(line) {
                return number;
            }
        }
        0
    }
}

// Whether the line is ignored: it begins with `#`, or has only spaces.
fn is_ignored(line: &[u8]) -> bool
    ensures { result ≡ is_ignored line.now }
{
    line.first() == Some(&b'#') || is_blank(line)
}

// Whether the line has only spaces.
fn is_blank(line: &[u8]) -> bool
    ensures { result ≡ (length (behind_blanks line.now) == 0) }
{
    for byte in line {
        if *byte != b' ' {
            return false;
        }
    }
    true
}
