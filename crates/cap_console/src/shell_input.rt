//! The lines of a shell: those of standard input and of files, and the words that are for the shell itself.
ghost use Rattle.std.specs.Io.{ReadsAtMost};

use std::alloc::{AllocError, Global};
use std::cell::RefCell;
use std::fs::Files;
use std::io::Read;
use std::{fs, io};

const READ_LEN: usize = 8192;

// How many files may read one another.
const DEPTH_MAX: usize = 16;

const SHELL_HELP: &str = "
In a shell besides:
  help [WORD]         print this, or what it says of a word: help commit
  .read FILE          run the lines of a file
  .load FILE          make the tables and rows of the dump in a file
  quit                end the shell
";

/// What is made of a dump.
#[derive(Drop)]
pub enum Loaded {
    /// The lines of a workload that make its tables and rows.
    Lines(Vec<u8>),
    /// It is refused: a line that says why.
    Refused(String),
}

/// What makes lines of dumps.
pub trait Dumps {
    /// The lines of the dump in a file with this name and these bytes.
    fn loaded(&self, name: &str, bytes: Vec<u8>) -> Result<Loaded, AllocError>;
}

// Bytes of which lines are taken.
#[derive(Drop)]
struct Unread {
    bytes: Vec<u8>,
    taken: usize,
}

impl Unread {
    // Moves bytes to the line, up to a line feed. False where there is none: then all are moved.
    fn take(&mut self, line: &mut Vec<u8>) -> Result<bool, AllocError> {
        let Some(rest) = self.bytes.get(self.taken..) else {
            return Ok(false);
        };
        for byte in rest {
            self.taken = self.taken.saturating_add(1);
            line.push(*byte)?;
            if *byte == b'\n' {
                return Ok(true);
            }
        }
        Ok(false)
    }
}

/// The input of a shell. Each read gives one line, or a part of it.
#[derive(Drop)]
pub struct ShellInput<'a, R: Files + Print + Eprint + AllocGlobal, D: Dumps, I: Read + Drop> {
    rt: &'a R,
    dumps: &'a D,
    // The commands, which `help` prints.
    commands: &'a str,
    input: I,
    // Whether there is a prompt before each read of the input.
    has_prompt: bool,
    unread: Unread,
    // The files that are read before more of the input, the innermost last.
    files: Vec<Unread>,
    // The line that is given, and how many of its bytes are.
    line: &'a RefCell<Vec<u8>>,
    given: usize,
    has_ended: bool,
}

impl<'a, R: Files + Print + Eprint + AllocGlobal, D: Dumps, I: Read + Drop> ShellInput<
    'a,
    R,
    D,
    I,
> {
    /// The lines of this input, of which the one that is given stands in `line`.
    pub fn new(
        rt: &'a R,
        dumps: &'a D,
        commands: &'a str,
        input: I,
        line: &'a RefCell<Vec<u8>>,
        has_prompt: bool,
    ) -> Self {
        ShellInput {
            rt,
            dumps,
            commands,
            input,
            has_prompt,
            unread: Unread {
                bytes: Vec::new(rt.alloc()),
                taken: 0,
            },
            files: Vec::new(rt.alloc()),
            line,
            given: 0,
            has_ended: false,
        }
    }

    /// The lines of this file come next.
    pub fn open(&mut self, name: &str) -> io::Result<()> {
        let bytes = fs::read(self.rt, name)?;
        self.files.push(Unread { bytes, taken: 0 })?;
        Ok(())
    }

    // The next line, with its line feed where it has one. None at the end.
    fn next_line(&mut self) -> io::Result<Option<Vec<u8>>> {
        let mut line = Vec::new(self.rt.alloc());
        if self.take_of_files(&mut line)? || self.take_of_input(&mut line)? {
            Ok(Some(line))
        } else {
            Ok(None)
        }
    }

    // The last line of a file has a line feed, so that the next line is one of its own.
    fn take_of_files(&mut self, line: &mut Vec<u8>) -> Result<bool, AllocError> {
        for _ in 0..self.files.len() {
            if let Some(file) = self.files.last_mut() {
                if file.take(line)? {
                    return Ok(true);
                }
            }
            let _ended = self.files.pop();
            if !line.is_empty() {
                line.push(b'\n')?;
                return Ok(true);
            }
        }
        Ok(false)
    }

    fn take_of_input(&mut self, line: &mut Vec<u8>) -> io::Result<bool> {
        for _ in 0..u64::MAX {
            if self.unread.take(line)? {
                return Ok(true);
            }
            if !self.read_more()? {
                break;
            }
        }
        Ok(!line.is_empty())
    }

    // Reads some of the input. False at its end.
    fn read_more(&mut self) -> io::Result<bool> {
        if self.has_prompt {
            eprint!(self.rt; "changecap> ")?;
        }
        let mut bytes = [0u8; READ_LEN];
        let count = self.input.read(&mut bytes)?;
        self.unread.taken = 0;
        self.unread.bytes.clear();
        self.unread.bytes.extend_from_slice(&bytes[..count])?;
        Ok(count > 0)
    }

    // Does what a line for the shell itself asks for. True where it is one.
    fn carry_out(&mut self, text: &str) -> io::Result<bool> {
        let (word, rest) = match text.split_once(' ') {
            Some((word, rest)) => (word, rest.trim()),
            None => (text, ""),
        };
        match (word, rest) {
            ("quit", "") => self.has_ended = true,
            ("help", _) => help(self.rt, self.commands, rest)?,
            (".read", name) if !name.is_empty() => self.read_file(name)?,
            (".load", name) if !name.is_empty() => self.load_file(name)?,
            _ => return Ok(false),
        }
        Ok(true)
    }

    fn read_file(&mut self, name: &str) -> io::Result<()> {
        if self.files.len() >= DEPTH_MAX {
            return eprintln!(self.rt; "{name}: files read one another {DEPTH_MAX} deep");
        }
        match self.open(name) {
            Ok(()) => Ok(()),
            Err(error) => eprintln!(self.rt; "{name}: {error}"),
        }
    }

    // The lines that make the tables and rows of the dump in this file come next.
    fn load_file(&mut self, name: &str) -> io::Result<()> {
        let bytes = match fs::read(self.rt, name) {
            Ok(bytes) => bytes,
            Err(error) => return eprintln!(self.rt; "{name}: {error}"),
        };
        match self.dumps.loaded(name, bytes)? {
            Loaded::Lines(bytes) => Ok(self.files.push(Unread { bytes, taken: 0 })?),
            Loaded::Refused(line) => eprintln!(self.rt; "{line}"),
        }
    }

    // Makes the next line the one that is given. For a line for the shell itself an empty line is given, so that
    // lines are counted. False at the end.
    fn take_line(&mut self) -> io::Result<bool> {
        if self.has_ended {
            return Ok(false);
        }
        let Some(mut line) = self.next_line()? else {
            return Ok(false);
        };
        let is_for_shell = match str::from_utf8(line.as_slice()) {
            Ok(text) => self.carry_out(text.trim())?,
            Err(_) => false,
        };
        if is_for_shell {
            line.clear();
            line.push(b'\n')?;
        }
        self.given = 0;
        if let Ok(mut place) = self.line.try_borrow_mut() {
            *place = line;
        }
        Ok(!self.has_ended)
    }

    // Gives bytes of the line.
    fn give(&mut self, buf: &mut [u8]) -> io::Result<usize>
        ensures bound { ReadsAtMost result buf.new }
    {
        let Ok(line) = self.line.try_borrow() else {
            return Ok(0);
        };
        let mut rest = line.get(self.given..).unwrap_or(&[]);
        let count = rest.read(buf)?;
        self.given = self.given.saturating_add(count);
        Ok(count)
    }
}

impl<'a, R: Files + Print + Eprint + AllocGlobal, D: Dumps, I: Read + Drop> Read
    for ShellInput<'a, R, D, I> {
    fn read(&mut self, buf: &mut [u8]) -> io::Result<usize> {
        let count = self.give(buf)?;
        if count > 0 || !self.take_line()? {
            return Ok(count);
        }
        self.give(buf)
    }
}

// Prints the commands of a workload and those of a shell, or what is said there of a word.
fn help(rt: &(impl Print + Eprint), commands: &str, word: &str) -> io::Result<()> {
    if word.is_empty() {
        return print!(rt; "{commands}{SHELL_HELP}");
    }
    let is_found = print_lines(rt, commands, word)?;
    let is_found = print_lines(rt, SHELL_HELP, word)? || is_found;
    if is_found {
        Ok(())
    } else {
        eprintln!(rt; "no help on {word}")
    }
}

// Prints the lines that have this word, each with the lines that go on with it. False where there is none.
fn print_lines(rt: &impl Print, text: &str, word: &str) -> io::Result<bool> {
    let mut is_found = false;
    let mut goes_on = false;
    for line in text.lines() {
        goes_on = has_word(line, word) || (goes_on && line.starts_with("          "));
        if goes_on {
            println!(rt; "{line}")?;
            is_found = true;
        }
    }
    Ok(is_found)
}

fn has_word(line: &str, wanted: &str) -> bool {
    for word in line.split_whitespace() {
        if word == wanted {
            return true;
        }
    }
    false
}
