//! What is said on standard error beside the fault of a line, and beside refusals of commands.
use crate::refusals::{REFUSALS, refusal_in, refusal_of};
use std::alloc::{AllocError, Global};
use std::cell::RefCell;
use std::io;
use std::io::Write;
use unicode_width::UnicodeWidthChar;

// How many bytes of a line are shown before the place of a fault, and from there on.
const SHOWN_BEFORE: usize = 60;

const SHOWN_BEHIND: usize = 20;

// How many bytes of a reply are looked at for a refusal.
const HEAD_LEN: usize = 128;

/// The language of lines.
pub trait Language {
    /// What may stand at the end of these first bytes of a line, as a text; empty where nothing is said of it.
    fn expected(&self, front: &str) -> Result<String, AllocError>;
}

/// What stands below the fault of a line: the line, a caret under the place with what is expected there, and what is
/// meant where it is a limit.
pub fn explanation<L: Language>(
    alloc: Global,
    language: &L,
    fault: &str,
    line: &[u8],
) -> Result<String, AllocError> {
    let mut text = String::new(alloc);
    if let Ok(line) = str::from_utf8(line) {
        let line = line.strip_suffix('\n').unwrap_or(line);
        push_line(language, &mut text, line, place_in(fault, line))?;
    }
    if let Some((name, sentence)) = refusal_in(fault) {
        writeln!(text, "{name}: {sentence}")?;
    }
    Ok(text)
}

// Where a fault is: its offset in the line, and whether it is one of syntax.
#[derive(Clone, Copy, Drop)]
struct Place {
    at: usize,
    is_syntax: bool,
}

// The place in the line that its fault names. The offset of a fault of a blob is one in the blob, whose digits stand
// behind the first `x'` of the line.
fn place_in(fault: &str, line: &str) -> Option<Place> {
    let (_, digits) = fault.rsplit_once(" at ")?;
    let at = digits.trim_end().parse::<usize>().ok()?;
    if !fault.contains(": G3 ") {
        return Some(Place {
            at,
            is_syntax: true,
        });
    }
    let begin = line.find("x'")?;
    Some(Place {
        at: at.saturating_mul(2).saturating_add(begin).saturating_add(2),
        is_syntax: false,
    })
}

// The line, with a caret below the place. Of a long line the part around the place is shown.
fn push_line<L: Language>(
    language: &L,
    text: &mut String,
    line: &str,
    place: Option<Place>,
) -> Result<(), AllocError> {
    let Some(place) = place else {
        return push_part(text, line, 0, SHOWN_BEFORE.saturating_add(SHOWN_BEHIND));
    };
    let begin = place.at.saturating_sub(SHOWN_BEFORE);
    push_part(text, line, begin, place.at.saturating_add(SHOWN_BEHIND))?;
    push_blanks(text, line, begin, place.at)?;
    text.push_str("^")?;
    if place.is_syntax {
        push_expected(language, text, line.get(..place.at).unwrap_or(line))?;
    }
    text.push_str("\n")
}

fn push_expected<L: Language>(
    language: &L,
    text: &mut String,
    front: &str,
) -> Result<(), AllocError> {
    let expected = language.expected(front)?;
    if expected.is_empty() {
        return Ok(());
    }
    text.push_str(" ")?;
    text.push_str(expected.as_str())
}

// The characters of the line between two offsets, as a line, with `..` for those that are left out.
fn push_part(text: &mut String, line: &str, begin: usize, end: usize) -> Result<(), AllocError> {
    if begin > 0 {
        text.push_str("..")?;
    }
    let mut at = 0usize;
    for next in line.chars() {
        if begin <= at && at < end {
            text.push(next)?;
        }
        at = at.saturating_add(next.len_utf8());
    }
    text.push_str(if end < line.len() { "..\n" } else { "\n" })
}

// Blanks as wide as these characters.
fn push_blanks(text: &mut String, line: &str, begin: usize, end: usize) -> Result<(), AllocError> {
    if begin > 0 {
        text.push_str("  ")?;
    }
    let mut at = 0usize;
    for next in line.chars() {
        if begin <= at && at < end {
            push_blank(text, next)?;
        }
        at = at.saturating_add(next.len_utf8());
    }
    Ok(())
}

// As many blanks as the character is wide.
fn push_blank(below: &mut String, next: char) -> Result<(), AllocError> {
    if next == '\t' {
        return below.push(next);
    }
    for _ in 0..next.width().unwrap_or(0) {
        below.push(' ')?;
    }
    Ok(())
}

/// The faults of a shell's lines, each with what is said of it, if that is asked for.
#[derive(Drop)]
pub struct Faults<'a, E: Write, L: Language> {
    alloc: Global,
    language: &'a L,
    output: &'a mut E,
    // The line that is run.
    line: &'a RefCell<Vec<u8>>,
    explains: bool,
    // What was written since the last flush.
    fault: Vec<u8>,
}

impl<'a, E: Write, L: Language> Faults<'a, E, L> {
    pub fn new(
        alloc: Global,
        language: &'a L,
        output: &'a mut E,
        line: &'a RefCell<Vec<u8>>,
        explains: bool,
    ) -> Self {
        Faults {
            alloc,
            language,
            output,
            line,
            explains,
            fault: Vec::new(alloc),
        }
    }

    // Writes what is said of the fault that was written.
    fn explain(&mut self) -> io::Result<()> {
        let Ok(line) = self.line.try_borrow() else {
            return Ok(());
        };
        let Ok(fault) = str::from_utf8(self.fault.as_slice()) else {
            return Ok(());
        };
        let text = explanation(self.alloc, self.language, fault, line.as_slice())?;
        self.output.write_all(text.as_str().as_bytes())
    }
}

impl<'a, E: Write, L: Language> Write for Faults<'a, E, L> {
    fn write(&mut self, buf: &[u8]) -> io::Result<usize> {
        let count = self.output.write(buf)?;
        if self.explains {
            self.fault.extend_from_slice(&buf[..count])?;
        }
        Ok(count)
    }

    fn flush(&mut self) -> io::Result<()> {
        if !self.fault.is_empty() {
            self.explain()?;
            self.fault.clear();
        }
        self.output.flush()
    }
}

/// Replies. If that is asked for, each kind of refusal among them is explained on standard error when they are
/// flushed: in a shell behind each reply, in a run at its end.
#[derive(Drop)]
pub struct Replies<'a, W: Write + Drop, P: Eprint> {
    output: W,
    to: &'a P,
    explains: bool,
    // The beginning of the line that is written.
    head: Vec<u8>,
    // Which refusals there were since the last flush, by their places in the table.
    found: Vec<usize>,
}

impl<'a, W: Write + Drop, P: Eprint> Replies<'a, W, P> {
    pub fn new(alloc: Global, output: W, to: &'a P, explains: bool) -> Self {
        Replies {
            output,
            to,
            explains,
            head: Vec::new(alloc),
            found: Vec::new(alloc),
        }
    }

    fn look_at(&mut self, bytes: &[u8]) -> Result<(), AllocError> {
        for byte in bytes {
            if *byte == b'\n' {
                self.look_at_line()?;
                self.head.clear();
            } else if self.head.len() < HEAD_LEN {
                self.head.push(*byte)?;
            }
        }
        Ok(())
    }

    fn look_at_line(&mut self) -> Result<(), AllocError> {
        match refusal_of(self.head.as_slice()) {
            Some(at) if !self.found.contains(&at) => Ok(self.found.push(at)?),
            _ => Ok(()),
        }
    }

    fn explain(&mut self) -> io::Result<()> {
        for at in self.found.as_slice() {
            if let Some((name, sentence)) = REFUSALS.get(*at) {
                eprintln!(self.to; "{name}: {sentence}")?;
            }
        }
        self.found.clear();
        Ok(())
    }
}

impl<'a, W: Write + Drop, P: Eprint> Write for Replies<'a, W, P> {
    fn write(&mut self, buf: &[u8]) -> io::Result<usize> {
        let count = self.output.write(buf)?;
        if self.explains {
            self.look_at(&buf[..count])?;
        }
        Ok(count)
    }

    fn flush(&mut self) -> io::Result<()> {
        self.output.flush()?;
        self.explain()
    }
}
