//! The command line of the program.
ghost use Rattle.std.specs.Prelude.{IfOk};
ghost use Rattle.cap_command_line.specs.Options.{IsInRange};

use crate::help::{
    ABOUT, BINARY_HELP, BINARY_INPUT_HELP, CHECK_ABOUT, CHECK_EXAMPLE, COLUMNS_HELP, CONCAT_ABOUT,
    CONCAT_EXAMPLE, EXAMPLE, EXPLAIN_HELP, FILE_HELP, FILES_HELP, IN_TURN_HELP, INVERT_ABOUT,
    INVERT_EXAMPLE, JSON_HELP, JSON_LINES_HELP, KEY_FLAGS, KEY_FLAGS_HELP, LANGUAGE, LOAD_ABOUT,
    LOAD_EXAMPLE, NO_PROGRESS_HELP, OUTPUT_HELP, PATCHSET_ABOUT, PATCHSET_EXAMPLE, PROGRESS_HELP,
    REBASE_ABOUT, REBASE_EXAMPLE, REPLY_JSON_HELP, RUN_ABOUT, SHELL_ABOUT, SHELL_EXAMPLE,
    SHELL_EXPLAIN_HELP, SHELL_FILE_HELP, SHOW_ABOUT, SHOW_EXAMPLE, SQL_HELP, SUMMARY_ABOUT,
    SUMMARY_EXAMPLE, THREADS_HELP, VERBOSE_HELP,
};
use crate::{Asked, Manner, Options, OptionsFault};
use cap_blob::Target;
use cap_codec::KeyFlags;
use cap_run::{
    Combination, CombinationKind, Conversion, Encoding, Form, Pace, ReplyForm, THREADS_MAX,
};
use clap::builder::ValueParser;
use clap::error::ErrorKind;
use clap::{Arg, ArgAction, ArgMatches, Command, Error, value_parser};
use std::alloc::{AllocError, Global};

// The command line. Each function adds few commands, since a check looks at each of them with all before it.
fn command_line<'a>(alloc: Global) -> Result<Command<'a>, AllocError> {
    let command = Command::new(alloc, "changecap")
        .version("0.1.0")
        .about(ABOUT)
        .after_help(EXAMPLE)
        .no_binary_name(true)
        .bin_name("changecap")?
        .arg(verbose(alloc))?
        .subcommand_required(true);
    let command = with_workloads(alloc, command)?;
    let command = with_looks(alloc, command)?;
    let command = with_conversions(alloc, command)?;
    with_combinations(alloc, command)
}

// Adds what runs workloads, and what makes one.
fn with_workloads<'a>(alloc: Global, command: Command<'a>) -> Result<Command<'a>, AllocError> {
    command
        .subcommand(run_command(alloc)?)?
        .subcommand(shell_command(alloc)?)?
        .subcommand(look_command(alloc, "load", LOAD_ABOUT, LOAD_EXAMPLE)?)
}

// Adds what looks at blobs.
fn with_looks<'a>(alloc: Global, command: Command<'a>) -> Result<Command<'a>, AllocError> {
    command
        .subcommand(show_command(alloc)?)?
        .subcommand(look_command(alloc, "check", CHECK_ABOUT, CHECK_EXAMPLE)?)?
        .subcommand(look_command(alloc, "summary", SUMMARY_ABOUT, SUMMARY_EXAMPLE)?)
}

// Adds what makes a blob of one.
fn with_conversions<'a>(alloc: Global, command: Command<'a>) -> Result<Command<'a>, AllocError> {
    let invert = convert_command(alloc, "invert", INVERT_ABOUT, INVERT_EXAMPLE)?;
    let patchset = convert_command(alloc, "patchset", PATCHSET_ABOUT, PATCHSET_EXAMPLE)?;
    command
        .subcommand(invert.arg(file(alloc))?)?
        .subcommand(patchset.arg(file(alloc))?)
}

// Adds what makes a blob of several.
fn with_combinations<'a>(alloc: Global, command: Command<'a>) -> Result<Command<'a>, AllocError> {
    let concat = convert_command(alloc, "concat", CONCAT_ABOUT, CONCAT_EXAMPLE)?;
    let rebase = convert_command(alloc, "rebase", REBASE_ABOUT, REBASE_EXAMPLE)?;
    command
        .subcommand(concat.arg(files(alloc))?)?
        .subcommand(rebase.arg(files(alloc))?)
}

fn run_command<'a>(alloc: Global) -> Result<Command<'a>, AllocError> {
    let threads = Arg::new(alloc, "threads")
        .long("threads")
        .value_name("N")
        .help(THREADS_HELP)
        .value_parser(value_parser!(u64).range(1..=THREADS_MAX as i64))
        .default_value("1");
    let command = Command::new(alloc, "run")
        .about(RUN_ABOUT)
        .after_help(LANGUAGE)
        .arg(threads)?
        .arg(flag(alloc, "in-turn", IN_TURN_HELP))?
        .arg(flag(alloc, "json", REPLY_JSON_HELP))?;
    with_explanations(alloc, command)
}

// Adds what is said of a run on standard error, and its file.
fn with_explanations<'a>(alloc: Global, command: Command<'a>) -> Result<Command<'a>, AllocError> {
    let progress = flag(alloc, "progress", PROGRESS_HELP).conflicts_with("no-progress")?;
    command
        .arg(flag(alloc, "explain", EXPLAIN_HELP))?
        .arg(progress)?
        .arg(flag(alloc, "no-progress", NO_PROGRESS_HELP))?
        .arg(file(alloc))
}

fn shell_command<'a>(alloc: Global) -> Result<Command<'a>, AllocError> {
    let file = Arg::new(alloc, "FILE")
        .short('f')
        .long("file")
        .value_name("FILE")
        .help(SHELL_FILE_HELP);
    Command::new(alloc, "shell")
        .about(SHELL_ABOUT)
        .after_help(SHELL_EXAMPLE)
        .arg(file)?
        .arg(flag(alloc, "explain", SHELL_EXPLAIN_HELP))
}

fn show_command<'a>(alloc: Global) -> Result<Command<'a>, AllocError> {
    let command = Command::new(alloc, "show")
        .about(SHOW_ABOUT)
        .after_help(SHOW_EXAMPLE)
        .arg(binary(alloc, BINARY_INPUT_HELP)?)?
        .arg(output(alloc)?)?
        .arg(file(alloc))?;
    with_forms(alloc, command)
}

// Adds how a blob is shown.
fn with_forms<'a>(alloc: Global, command: Command<'a>) -> Result<Command<'a>, AllocError> {
    let lines = flag(alloc, "jsonl", JSON_LINES_HELP).conflicts_with("json")?;
    let columns = Arg::new(alloc, "columns")
        .long("columns")
        .value_name("T=NAME,..")
        .help(COLUMNS_HELP)
        .action(ArgAction::Append);
    let sql = flag(alloc, "sql", SQL_HELP).conflicts_with("json")?;
    command
        .arg(sql)?
        .arg(flag(alloc, "json", JSON_HELP))?
        .arg(lines.conflicts_with("sql")?)?
        .arg(columns)
}

fn look_command<'a>(
    alloc: Global,
    word: &'a str,
    about: &'a str,
    example: &'a str,
) -> Result<Command<'a>, AllocError> {
    Command::new(alloc, word)
        .about(about)
        .after_help(example)
        .arg(output(alloc)?)?
        .arg(files(alloc))
}

fn convert_command<'a>(
    alloc: Global,
    word: &'a str,
    about: &'a str,
    example: &'a str,
) -> Result<Command<'a>, AllocError> {
    let key_flags = Arg::new(alloc, "key-flags")
        .long("key-flags")
        .value_name("FORM")
        .help(KEY_FLAGS_HELP)
        .value_parser(ValueParser::Names(KEY_FLAGS.as_slice()))
        .default_value("places");
    Command::new(alloc, word)
        .about(about)
        .after_help(example)
        .arg(binary(alloc, BINARY_HELP)?)?
        .arg(key_flags)?
        .arg(output(alloc)?)
}

// Of a file it is told by looking at it.
fn binary<'a>(alloc: Global, help: &'a str) -> Result<Arg<'a>, AllocError> {
    flag(alloc, "binary", help).conflicts_with("FILE")
}

fn output<'a>(alloc: Global) -> Result<Arg<'a>, AllocError> {
    Arg::new(alloc, "output")
        .short('o')
        .long("output")
        .value_name("OUT")
        .help(OUTPUT_HELP)
        .requires_arg("FILE")
}

fn file<'a>(alloc: Global) -> Arg<'a> {
    Arg::new(alloc, "FILE").help(FILE_HELP)
}

fn files<'a>(alloc: Global) -> Arg<'a> {
    Arg::new(alloc, "FILE")
        .help(FILES_HELP)
        .action(ArgAction::Append)
        .num_args(0..)
}

// It stands before or behind the command.
fn verbose<'a>(alloc: Global) -> Arg<'a> {
    flag(alloc, "verbose", VERBOSE_HELP).short('v').global(true)
}

fn flag<'a>(alloc: Global, word: &'a str, help: &'a str) -> Arg<'a> {
    Arg::new(alloc, word)
        .long(word)
        .help(help)
        .action(ArgAction::SetTrue)
}

/// Parses the words after the program's name.
///
/// `run` runs a workload, on N threads with `--threads N`, N from 1 to 63, and otherwise on one; with
/// `--in-turn` its lines are called one after the other, and with `--json` replies are JSON objects. `shell`
/// runs each line as it is read, behind those of the file that `-f` is before. Both say with `--explain` what
/// a fault means, and `run` with `--progress` how far it is. `load` makes lines of a workload of dumps. `show`
/// shows a blob as text, with `--sql` as SQL, with `--json` as JSON, or with `--jsonl` as JSON with a change a
/// line; `--columns` gives names to columns. `check` says whether one is well formed, and `summary` counts its
/// changes. `invert` and `patchset` convert one, `concat` concatenates several, and `rebase` rebases one over
/// others, with key flags by places, or by ones with `--key-flags ones`. A blob is given and written as hex
/// digits, or with `--binary` as its bytes. Other words are names of files, and `-o` is before that of the
/// output. `-v` or `--verbose` among the words changes nothing of that. Other words are refused with a message.
/// `--help` and `--version` give their text as a fault of status 0.
pub fn options(alloc: Global, words: &[String]) -> Result<Asked, OptionsFault>
    // The number of threads is in range.
    ensures range { IfOk result (λ asked. IsInRange asked.options) }
{
    let command = command_line(alloc).map_err(|_| OptionsFault::OutOfMemory)?;
    match command.try_get_matches_from(words) {
        Ok(matches) => asked_for(alloc, &matches).map_err(|_| OptionsFault::OutOfMemory),
        Err(error) => Err(fault_of(alloc, &error)),
    }
}

// What the parser found.
fn asked_for(alloc: Global, matches: &ArgMatches) -> Result<Asked, AllocError>
    ensures range { IfOk result (λ asked. IsInRange asked.options) }
{
    match matches.subcommand() {
        Some((word, found)) => asked_by(alloc, word, found),
        // The parser refuses this.
        None => Ok(Asked {
            options: Options::Shell,
            files: Vec::new(alloc),
            output: None,
            manner: Manner::new(alloc),
        }),
    }
}

// What a command asks for.
fn asked_by(alloc: Global, word: &str, found: &ArgMatches) -> Result<Asked, AllocError>
    ensures range { IfOk result (λ asked. IsInRange asked.options) }
{
    let options = options_of(word, found);
    let files = names(alloc, found.get_strs("FILE"))?;
    let output = name(alloc, found.get_str("output"))?;
    let manner = manner(alloc, found)?;
    Ok(Asked {
        options,
        files,
        output,
        manner,
    })
}

// What is said and shown. A command without one of these options is as one to which it is not given.
fn manner(alloc: Global, found: &ArgMatches) -> Result<Manner, AllocError> {
    let columns = names(alloc, found.get_strs("columns"))?;
    Ok(Manner {
        is_lines: found.get_flag("jsonl"),
        columns,
        explains: found.get_flag("explain"),
        progress: progress(found),
    })
}

fn progress(found: &ArgMatches) -> Option<bool> {
    if found.get_flag("progress") {
        Some(true)
    } else if found.get_flag("no-progress") {
        Some(false)
    } else {
        None
    }
}

// What the words for an option or for files are.
fn names(alloc: Global, found: Option<&[&str]>) -> Result<Vec<String>, AllocError> {
    let mut names = Vec::new(alloc);
    let Some(found) = found else {
        return Ok(names);
    };
    for name in found {
        names.push(String::from_str(alloc, name)?)?;
    }
    Ok(names)
}

fn name(alloc: Global, found: Option<&str>) -> Result<Option<String>, AllocError> {
    match found {
        Some(name) => Ok(Some(String::from_str(alloc, name)?)),
        None => Ok(None),
    }
}

// The options of a command.
fn options_of(word: &str, found: &ArgMatches) -> Options
    ensures range { IsInRange result }
{
    match word {
        "run" => run_options(found),
        "shell" => Options::Shell,
        "load" => Options::Load,
        "check" => Options::Check,
        "summary" => Options::Summary,
        "invert" => Options::Convert(conversion(Target::Inverse, found)),
        "patchset" => Options::Convert(conversion(Target::Patchset, found)),
        "concat" => Options::Combine(combination(CombinationKind::Concatenation, found)),
        "rebase" => Options::Combine(combination(CombinationKind::Rebase, found)),
        _ => Options::Show {
            form: form(found),
            encoding: encoding(found),
        },
    }
}

fn run_options(found: &ArgMatches) -> Options
    ensures range { IsInRange result }
{
    let threads = found.get_one::<u64>("threads").unwrap_or(1);
    // The parser refuses all others.
    Options::Run {
        threads: threads.clamp(1, THREADS_MAX),
        pace: pace(found),
        form: reply_form(found),
    }
}

fn pace(matches: &ArgMatches) -> Pace {
    if matches.get_flag("in-turn") {
        Pace::InTurn
    } else {
        Pace::Free
    }
}

fn reply_form(matches: &ArgMatches) -> ReplyForm {
    if matches.get_flag("json") {
        ReplyForm::Json
    } else {
        ReplyForm::Text
    }
}

fn conversion(target: Target, matches: &ArgMatches) -> Conversion {
    Conversion {
        target,
        key_flags: key_flags(matches),
        encoding: encoding(matches),
    }
}

fn combination(kind: CombinationKind, matches: &ArgMatches) -> Combination {
    Combination {
        kind,
        key_flags: key_flags(matches),
        encoding: encoding(matches),
    }
}

fn key_flags(matches: &ArgMatches) -> KeyFlags {
    match matches.get_str("key-flags") {
        Some("ones") => KeyFlags::Ones,
        _ => KeyFlags::Places,
    }
}

fn form(matches: &ArgMatches) -> Form {
    if matches.get_flag("json") || matches.get_flag("jsonl") {
        Form::Json
    } else if matches.get_flag("sql") {
        Form::Sql
    } else {
        Form::Text
    }
}

fn encoding(matches: &ArgMatches) -> Encoding {
    if matches.get_flag("binary") {
        Encoding::Binary
    } else {
        Encoding::Hex
    }
}

// The fault that the parser reports.
fn fault_of(alloc: Global, error: &Error) -> OptionsFault {
    if error.kind() == ErrorKind::OutOfMemory {
        return OptionsFault::OutOfMemory;
    }
    match format!(in alloc; "{error}") {
        Ok(text) if error.use_stderr() => OptionsFault::Refused(text),
        Ok(text) => OptionsFault::Help(text),
        Err(_) => OptionsFault::OutOfMemory,
    }
}
