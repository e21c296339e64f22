//! The program `changecap`. `run` and `shell` run workloads; `show`, `check` and `summary` look at blobs;
//! `invert`, `patchset`, `concat` and `rebase` make blobs of blobs; `load` prints lines that make what dumps
//! have. All but `shell` also read files.
#![tactic(auto)]

ghost use Rattle.cap_command_line.specs.Options.{IsInRange};
ghost use Rattle.cap_run.specs.Threads.{IsThreadCount};

mod files;

use crate::files::{FileFault, ShellDumps, with_files};
use cap_command_line::{Asked, LANGUAGE, Options, OptionsFault, options};
use cap_console::{Faults, Language, Progress, Replies, ShellInput, Shown, explanation};
use cap_expected::print_expected;
use cap_run::{
    NoGate, Pace, ReplyForm, RunFault, combine_blobs, convert_blob, run_core, run_shell,
    run_workload, show_blob,
};
use std::alloc::{AllocError, Global};
use std::cell::RefCell;
use std::fmt::Display;
use std::fs::Files;
use std::io::{IsTerminal, Read, Write};
use std::process::ExitCode;
use std::rt::Env;
use std::sync::Wait;
use std::thread::Threads;
use std::time::Clock;
use std::{env, fs, io};

// The exit statuses: the input is refused, the command line is refused, or memory ran out or a read or write
// failed.
const REFUSED: u8 = 1;

const MISUSED: u8 = 2;

const FAILED: u8 = 3;

// Whether the words ask that the program says what failed. They are looked at themselves, since memory may
// run out while they are parsed.
fn asks_what_failed(words: &[String]) -> bool {
    for word in words {
        if word.as_str() == "-v" || word.as_str() == "--verbose" {
            return true;
        }
    }
    false
}

// Prints the fault where the input is refused or the caller is verbose, and gives the exit status.
fn report(rt: &impl Eprint, is_verbose: bool, outcome: Result<(), RunFault>) -> u8 {
    let Err(fault) = outcome else {
        return 0;
    };
    let status = fault.status();
    let is_told = status == REFUSED || is_verbose;
    if is_told && eprintln!(rt; "{fault}").is_err() {
        return FAILED;
    }
    status
}

// Prints the message of a command line that asks for no run, and gives the exit status.
fn explain(rt: &(impl Print + Eprint), is_verbose: bool, fault: &OptionsFault) -> u8 {
    let printed = match fault {
        OptionsFault::Refused(text) => eprint!(rt; "{text}"),
        OptionsFault::Help(text) => print!(rt; "{text}"),
        OptionsFault::OutOfMemory => return report(rt, is_verbose, Err(RunFault::OutOfMemory)),
    };
    if printed.is_err() {
        return report(rt, is_verbose, Err(RunFault::Write));
    }
    fault.status()
}

// The exit status where the command line cannot be read.
fn without_words(rt: &impl Eprint, error: &io::Error) -> u8 {
    let is_refused = error.kind() == io::ErrorKind::InvalidData;
    if is_refused && eprintln!(rt; "error: the command line is not UTF-8").is_ok() {
        MISUSED
    } else {
        FAILED
    }
}

// How a workload is run, and what is said of it.
#[derive(Clone, Copy, Drop)]
struct Settings {
    is_verbose: bool,
    threads: u64,
    pace: Pace,
    form: ReplyForm,
    explains: bool,
    shown: Shown,
}

// Runs the workload from the reader. One thread needs no other.
fn run_lines<R: AllocGlobal + Threads + Wait + Sync, I: Read, W: Write>(
    rt: &R,
    settings: Settings,
    reader: &mut I,
    writer: &mut W,
) -> Result<(), RunFault>
    requires threads { IsThreadCount settings.threads }
{
    let alloc = rt.alloc();
    let Settings {
        threads,
        pace,
        form,
        ..
    } = settings;
    let outcome = if threads == 1 {
        run_core(alloc, form, reader, writer)
    } else {
        let gate = &NoGate;
        run_workload(rt, alloc, gate, threads, pace, form, reader, writer)
    };
    outcome
}

// Runs the workload from the reader, and shows how far it is.
fn run_shown<R: Print + Eprint + AllocGlobal + Clock + Threads + Wait + Sync, I: Read>(
    rt: &R,
    settings: Settings,
    reader: &mut I,
) -> Result<(), RunFault>
    requires threads { IsThreadCount settings.threads }
{
    let replies = Replies::new(rt.alloc(), io::writer(rt), rt, settings.explains);
    let Ok(mut writer) = Progress::new(replies, rt, settings.shown) else {
        return Err(RunFault::Read);
    };
    let outcome = run_lines(rt, settings, reader, &mut writer);
    match writer.end() {
        Ok(()) => outcome,
        Err(_) => Err(RunFault::Write),
    }
}

// Runs the workload from the reader, and gives the exit status. Where its faults are explained, it is read first.
fn run_reader<R: Print + Eprint + AllocGlobal + Clock + Threads + Wait + Sync, I: Read>(
    rt: &R,
    settings: Settings,
    name: Option<&str>,
    reader: &mut I,
) -> u8
    requires threads { IsThreadCount settings.threads }
{
    if !settings.explains {
        let outcome = run_shown(rt, settings, reader);
        return end_run(rt, settings, name, outcome);
    }
    let mut text = Vec::new(rt.alloc());
    if reader.read_to_end(&mut text).is_err() {
        return end_run(rt, settings, name, Err(RunFault::Read));
    }
    let outcome = run_shown(rt, settings, &mut text.as_slice());
    let status = end_run(rt, settings, name, outcome);
    match outcome {
        Err(fault) if status == REFUSED => explain_line(rt, status, &fault, text.as_slice()),
        _ => status,
    }
}

// Prints why a run failed, if that is told, and gives the exit status.
fn end_run(
    rt: &impl Eprint,
    settings: Settings,
    name: Option<&str>,
    outcome: Result<(), RunFault>,
) -> u8 {
    match (name, outcome) {
        (Some(name), Err(fault)) if fault.status() == REFUSED => refuse(rt, name, &fault),
        (Some(name), Err(RunFault::Read)) => refuse(rt, name, &"it cannot be read"),
        _ => report(rt, settings.is_verbose, outcome),
    }
}

// The language of workloads.
#[derive(Drop)]
struct Workloads {
    alloc: Global,
}

impl Language for Workloads {
    fn expected(&self, front: &str) -> Result<String, AllocError> {
        let text = print_expected(self.alloc, front)?;
        if text.as_str() == "expected" {
            return Ok(String::new(self.alloc));
        }
        Ok(text)
    }
}

// Prints what is said of the fault of a text, and gives the exit status, which is this one otherwise.
fn explain_line<R: Eprint + AllocGlobal>(rt: &R, status: u8, fault: &RunFault, text: &[u8]) -> u8 {
    match explained(rt, fault, text) {
        Ok(()) => status,
        Err(_) => FAILED,
    }
}

fn explained<R: Eprint + AllocGlobal>(rt: &R, fault: &RunFault, text: &[u8]) -> io::Result<()> {
    let fault = format!(in rt.alloc(); "{fault}")?;
    let line = match str::from_utf8(text) {
        Ok(text) => line_of(fault.as_str(), text),
        Err(_) => "",
    };
    let language = Workloads { alloc: rt.alloc() };
    let said = explanation(rt.alloc(), &language, fault.as_str(), line.as_bytes())?;
    eprint!(rt; "{said}")
}

// The line that a fault names by its number.
fn line_of<'a>(fault: &str, text: &'a str) -> &'a str {
    let number = number_of(fault).unwrap_or(0);
    for (at, line) in text.split('\n').enumerate() {
        if at.saturating_add(1) == number {
            return line;
        }
    }
    ""
}

fn number_of(fault: &str) -> Option<usize> {
    let (digits, _) = fault.strip_prefix("line ")?.split_once(':')?;
    digits.parse::<usize>().ok()
}

// Runs the workload in the file, or on standard input, and gives the exit status.
fn run<R: Files + Input + Print + Eprint + AllocGlobal + Clock + Threads + Wait + Sync>(
    rt: &R,
    settings: Settings,
    name: Option<&str>,
) -> u8
    requires threads { IsThreadCount settings.threads }
{
    let Some(file) = name else {
        return run_reader(rt, settings, None, &mut rt.reader());
    };
    match fs::open(rt, file) {
        Ok(mut opened) => run_reader(rt, settings, name, &mut opened),
        Err(error) => refuse(rt, file, &error),
    }
}

// Prints why a file is refused, and gives the exit status.
fn refuse(rt: &impl Eprint, name: &str, why: &impl Display) -> u8 {
    match eprintln!(rt; "{name}: {why}") {
        Ok(()) => REFUSED,
        Err(_) => FAILED,
    }
}

// Does what is asked for with files, and gives the exit status.
fn run_on_files<R: Files + Input + Print + Eprint + AllocGlobal>(
    rt: &R,
    is_verbose: bool,
    asked: &Asked,
) -> u8 {
    match with_files(rt, asked) {
        Ok(()) => 0,
        Err(FileFault::Refused(line)) => tell(rt, REFUSED, line.as_str()),
        Err(FileFault::Misused(line)) => tell(rt, MISUSED, line.as_str()),
        Err(FileFault::Failed) => report(rt, is_verbose, Err(RunFault::Write)),
    }
}

// Prints a line, and gives this exit status.
fn tell(rt: &impl Eprint, status: u8, line: &str) -> u8 {
    match eprintln!(rt; "{line}") {
        Ok(()) => status,
        Err(_) => FAILED,
    }
}

// Which of the standard streams are terminals.
#[derive(Clone, Copy, Drop)]
struct Terminals {
    input: bool,
    output: bool,
    error: bool,
}

// The commands in the help of `run`, without what it says of runs.
fn commands() -> &'static str {
    match LANGUAGE.split_once("\nA line may begin") {
        Some((front, _)) => front,
        None => LANGUAGE,
    }
}

// Runs the lines of a file, if one is named, and those of standard input, each as it is read, and gives the exit
// status. At a terminal the end of the input leaves the prompt on its line.
fn shell<R: Files + Input + Print + Eprint + AllocGlobal, E: Write>(
    rt: &R,
    is_verbose: bool,
    asked: &Asked,
    faults: &mut E,
    terminals: Terminals,
) -> u8 {
    let explains = asked.manner.explains || (terminals.input && terminals.error);
    let line = RefCell::new(Vec::new(rt.alloc()));
    let dumps = ShellDumps { alloc: rt.alloc() };
    let commands = commands();
    let mut reader = ShellInput::new(rt, &dumps, commands, rt.reader(), &line, terminals.input);
    if let Some(name) = asked.files.first() {
        if let Err(error) = reader.open(name.as_str()) {
            return refuse(rt, name.as_str(), &error);
        }
    }
    let mut replies = Replies::new(rt.alloc(), io::writer(rt), rt, explains);
    let language = Workloads { alloc: rt.alloc() };
    let mut faults = Faults::new(rt.alloc(), &language, faults, &line, explains);
    let outcome = run_shell(rt.alloc(), &mut reader, &mut replies, &mut faults);
    if terminals.input && eprintln!(rt; "").is_err() {
        return FAILED;
    }
    report(rt, is_verbose, outcome)
}

// Does what the command line asks for, and gives the exit status. A shell writes the faults of its lines to
// `faults`.
fn run_program<
    R: Files + Input + Print + Eprint + Env + AllocGlobal + Clock + Threads + Wait + Sync,
    E: Write,
>(rt: &R, faults: &mut E, terminals: Terminals) -> Result<u8, AllocError> {
    let alloc = rt.alloc();
    let arguments = match env::args(rt) {
        Ok(arguments) => arguments,
        Err(error) => return Ok(without_words(rt, &error)),
    };
    let words: Vec<String> = arguments.skip(1).collect(alloc)?;
    let is_verbose = asks_what_failed(words.as_slice());
    match options(alloc, words.as_slice()) {
        Ok(asked) => Ok(run_asked(rt, is_verbose, &asked, faults, terminals)),
        Err(fault) => Ok(explain(rt, is_verbose, &fault)),
    }
}

// Does what is asked for, and gives the exit status.
fn run_asked<
    R: Files + Input + Print + Eprint + AllocGlobal + Clock + Threads + Wait + Sync,
    E: Write,
>(rt: &R, is_verbose: bool, asked: &Asked, faults: &mut E, terminals: Terminals) -> u8
    requires range { IsInRange asked.now.options }
{
    match asked.options {
        Options::Run {
            threads,
            pace,
            form,
        } => {
            let settings = Settings {
                is_verbose,
                threads,
                pace,
                form,
                explains: asked.manner.explains,
                shown: shown(asked.manner.progress, terminals),
            };
            run(rt, settings, first(asked.files.as_slice()))
        }
        Options::Shell => shell(rt, is_verbose, asked, faults, terminals),
        options => run_on_blobs(rt, is_verbose, asked, options),
    }
}

fn first(names: &[String]) -> Option<&str> {
    match names.first() {
        Some(name) => Some(name.as_str()),
        None => None,
    }
}

// When the progress of a run is shown: as it is asked for, or else at a terminal that shows nothing else.
fn shown(progress: Option<bool>, terminals: Terminals) -> Shown {
    match progress {
        Some(true) => Shown::Always,
        None if terminals.error && !terminals.output => Shown::IfLong,
        _ => Shown::Never,
    }
}

// Does what is asked for with blobs, in files or on standard input, and gives the exit status.
fn run_on_blobs<R: Files + Input + Print + Eprint + AllocGlobal>(
    rt: &R,
    is_verbose: bool,
    asked: &Asked,
    options: Options,
) -> u8 {
    let is_named = asked.manner.is_lines || !asked.manner.columns.is_empty();
    if is_named || !asked.files.is_empty() {
        return run_on_files(rt, is_verbose, asked);
    }
    let alloc = rt.alloc();
    let (mut reader, mut writer) = (rt.reader(), io::writer(rt));
    let outcome = match options {
        Options::Show { form, encoding } => {
            show_blob(alloc, form, encoding, &mut reader, &mut writer)
        }
        Options::Convert(conversion) => {
            convert_blob(alloc, conversion, &mut reader, &mut writer)
        }
        Options::Combine(combination) => {
            combine_blobs(alloc, combination, &mut reader, &mut writer)
        }
        _ => return run_on_files(rt, is_verbose, asked),
    };
    report(rt, is_verbose, outcome)
}

fn main(rt: HostRuntime) -> ExitCode {
    let terminals = Terminals {
        input: rt.stdin().is_terminal(),
        output: rt.stdout().is_terminal(),
        error: rt.stderr().is_terminal(),
    };
    ExitCode::from(run_program(&rt, &mut rt.stderr(), terminals).unwrap_or(FAILED))
}
