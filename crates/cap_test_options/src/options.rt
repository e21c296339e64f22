//! The words of a command line: what they ask for, and those that are refused.
use cap_blob::Target;
use cap_codec::KeyFlags;
use cap_command_line::{Asked, Options, OptionsFault, options};
use cap_run::{Combination, CombinationKind, Conversion, Encoding, Form, Pace, ReplyForm};
use std::alloc::{AllocError, Global};

// The words of a command line, behind the program's name.
fn words_of(alloc: Global, line: &str) -> Result<Vec<String>, AllocError> {
    let mut words = Vec::new(alloc);
    for word in line.split_whitespace() {
        words.push(String::from_str(alloc, word)?)?;
    }
    Ok(words)
}

// What a line of words asks for, with its files. None where it is refused.
fn asked_with_files(alloc: Global, line: &str) -> Option<Asked> {
    let words = words_of(alloc, line).ok()?;
    options(alloc, words.as_slice()).ok()
}

// What a line of words asks for. None where it is refused.
fn asked(alloc: Global, line: &str) -> Option<Options> {
    Some(asked_with_files(alloc, line)?.options)
}

fn asks_for_run(alloc: Global, line: &str, threads: u64, pace: Pace, form: ReplyForm) -> bool {
    asked(alloc, line)
        == Some(Options::Run {
            threads,
            pace,
            form,
        })
}

fn asks_to_show(alloc: Global, line: &str, form: Form, encoding: Encoding) -> bool {
    asked(alloc, line) == Some(Options::Show { form, encoding })
}

fn asks_to_convert(alloc: Global, line: &str, conversion: Conversion) -> bool {
    asked(alloc, line) == Some(Options::Convert(conversion))
}

fn asks_to_combine(alloc: Global, line: &str, combination: Combination) -> bool {
    asked(alloc, line) == Some(Options::Combine(combination))
}

// Command lines that run a workload, with the threads and the pace.
const RUNS: &[(&str, u64, Pace)] = &[
    ("run", 1, Pace::Free),
    ("run --threads 1", 1, Pace::Free),
    ("run --threads 4", 4, Pace::Free),
    ("run --threads=63", 63, Pace::Free),
    ("run --in-turn", 1, Pace::InTurn),
    ("run --in-turn --threads 4", 4, Pace::InTurn),
    ("run --threads 4 --in-turn -v", 4, Pace::InTurn),
    ("-v run --threads 4", 4, Pace::Free),
    ("--verbose run", 1, Pace::Free),
];

// Those that print replies as JSON.
const JSON_RUNS: &[(&str, u64, Pace)] = &[
    ("run --json", 1, Pace::Free),
    ("run --threads 4 --json --in-turn", 4, Pace::InTurn),
];

// Those that show a blob.
const SHOWS: &[(&str, Form, Encoding)] = &[
    ("show", Form::Text, Encoding::Hex),
    ("show --binary", Form::Text, Encoding::Binary),
    ("show --sql", Form::Sql, Encoding::Hex),
    ("show --json --binary", Form::Json, Encoding::Binary),
    ("show -v --json", Form::Json, Encoding::Hex),
    ("show --jsonl", Form::Json, Encoding::Hex),
];

#[test]
fn what_is_asked_for(rt: HostRuntime) {
    for (line, threads, pace) in RUNS {
        let form = ReplyForm::Text;
        assert!(rt;
            asks_for_run(rt.alloc(), *line, *threads, *pace, form),
            "{line}"
        );
    }
    for (line, threads, pace) in JSON_RUNS {
        let form = ReplyForm::Json;
        assert!(rt;
            asks_for_run(rt.alloc(), *line, *threads, *pace, form),
            "{line}"
        );
    }
    for (line, form, encoding) in SHOWS {
        assert!(rt; asks_to_show(rt.alloc(), *line, *form, *encoding), "{line}");
    }
    assert!(rt; asked(rt.alloc(), "shell") == Some(Options::Shell));
    assert!(rt; asked(rt.alloc(), "shell --verbose") == Some(Options::Shell));
}

// Whether a line of words names these files and this output.
fn asks_for_files(alloc: Global, line: &str, files: &[&str], output: Option<&str>) -> bool {
    let Some(asked) = asked_with_files(alloc, line) else {
        return false;
    };
    let is_output = match (&asked.output, output) {
        (Some(name), Some(wanted)) => name.as_str() == wanted,
        (None, None) => true,
        _ => false,
    };
    if !is_output || asked.files.len() != files.len() {
        return false;
    }
    for at in 0..files.len() {
        if asked.files[at].as_str() != files[at] {
            return false;
        }
    }
    true
}

// Command lines with the files that they name, and the output.
const FILES: &[(&str, &[&str], Option<&str>)] = &[
    ("run a", &["a"], None),
    ("run --json a --threads 4", &["a"], None),
    ("show a", &["a"], None),
    ("show a --sql", &["a"], None),
    ("invert a", &["a"], None),
    ("concat a", &["a"], None),
    ("check a", &["a"], None),
    ("show -o b a", &["a"], Some("b")),
    ("patchset a --output b", &["a"], Some("b")),
    ("rebase a --output=b", &["a"], Some("b")),
    ("summary a -o b", &["a"], Some("b")),
    ("concat a -", &["a", "-"], None),
    ("rebase --key-flags ones a -", &["a", "-"], None),
    ("check a -", &["a", "-"], None),
    ("summary a -", &["a", "-"], None),
    ("load a -", &["a", "-"], None),
    ("load a b -o c", &["a", "b"], Some("c")),
    ("shell -f a", &["a"], None),
    ("shell --file=a --explain", &["a"], None),
    ("run", &[], None),
    ("shell", &[], None),
    ("show", &[], None),
    ("check", &[], None),
    ("load", &[], None),
    ("concat", &[], None),
];

#[test]
fn what_files_are_asked_for(rt: HostRuntime) {
    for (line, files, output) in FILES {
        assert!(rt;
            asks_for_files(rt.alloc(), *line, *files, *output),
            "{line}"
        );
    }
    assert!(rt; asked(rt.alloc(), "check a") == Some(Options::Check));
    assert!(rt; asked(rt.alloc(), "summary") == Some(Options::Summary));
    assert!(rt; asked(rt.alloc(), "load -v a") == Some(Options::Load));
}

const SAID: &[(&str, usize, bool, bool, Option<bool>)] = &[
    ("run", 0, false, false, None),
    ("run --explain", 0, false, true, None),
    ("run --progress a", 0, false, false, Some(true)),
    ("run --no-progress", 0, false, false, Some(false)),
    ("shell --explain", 0, false, true, None),
    ("show --jsonl a", 0, true, false, None),
    ("show --columns t=a", 1, false, false, None),
    ("show --columns t=a --columns=u=b", 2, false, false, None),
    ("check", 0, false, false, None),
];

// Whether a line of words asks that this is said and shown besides.
fn says(
    alloc: Global,
    line: &str,
    columns: usize,
    is_lines: bool,
    explains: bool,
    progress: Option<bool>,
) -> bool {
    let Some(asked) = asked_with_files(alloc, line) else {
        return false;
    };
    let manner = &asked.manner;
    manner.columns.len() == columns
        && manner.is_lines == is_lines
        && manner.explains == explains
        && manner.progress == progress
}

#[test]
fn what_is_said_besides(rt: HostRuntime) {
    for (line, columns, is_lines, explains, progress) in SAID {
        assert!(rt;
            says(rt.alloc(), *line, *columns, *is_lines, *explains, *progress),
            "{line}"
        );
    }
}

// The words behind `invert`, `patchset`, `concat` and `rebase`.
const CONVERSIONS: &[(&str, KeyFlags, Encoding)] = &[
    ("", KeyFlags::Places, Encoding::Hex),
    ("--binary", KeyFlags::Places, Encoding::Binary),
    ("--key-flags places", KeyFlags::Places, Encoding::Hex),
    ("--key-flags ones", KeyFlags::Ones, Encoding::Hex),
    (
        "--binary --key-flags=ones",
        KeyFlags::Ones,
        Encoding::Binary,
    ),
    (
        "--key-flags ones --binary",
        KeyFlags::Ones,
        Encoding::Binary,
    ),
];

// The conversions and the combinations.
const TARGETS: &[(&str, Target)] = &[("invert", Target::Inverse), ("patchset", Target::Patchset)];

const KINDS: &[(&str, CombinationKind)] = &[
    ("concat", CombinationKind::Concatenation),
    ("rebase", CombinationKind::Rebase),
];

// Whether the word with these words behind it asks for the conversion.
fn is_converted(
    alloc: Global,
    (word, target): (&str, Target),
    (words, key_flags, encoding): (&str, KeyFlags, Encoding),
) -> bool {
    let conversion = Conversion {
        target,
        key_flags,
        encoding,
    };
    match format!(in alloc; "{word} {words}") {
        Ok(line) => asks_to_convert(alloc, line.as_str(), conversion),
        Err(_) => false,
    }
}

// The same of a combination.
fn is_combined(
    alloc: Global,
    (word, kind): (&str, CombinationKind),
    (words, key_flags, encoding): (&str, KeyFlags, Encoding),
) -> bool {
    let combination = Combination {
        kind,
        key_flags,
        encoding,
    };
    match format!(in alloc; "{word} {words}") {
        Ok(line) => asks_to_combine(alloc, line.as_str(), combination),
        Err(_) => false,
    }
}

#[test]
fn what_is_converted(rt: HostRuntime) {
    for words in CONVERSIONS {
        for target in TARGETS {
            assert!(rt; is_converted(rt.alloc(), *target, *words));
        }
        for kind in KINDS {
            assert!(rt; is_combined(rt.alloc(), *kind, *words));
        }
    }
}

// The fault of a line of words. None where it is accepted.
fn fault(alloc: Global, line: &str) -> Option<OptionsFault> {
    let words = words_of(alloc, line).ok()?;
    options(alloc, words.as_slice()).err()
}

// Whether the words are refused with a message that names the help.
fn is_refused(alloc: Global, line: &str) -> bool {
    match fault(alloc, line) {
        Some(OptionsFault::Refused(text)) => text.as_str().contains("--help"),
        _ => false,
    }
}

// Whether the words ask for a text that has this in it.
fn is_explained(alloc: Global, line: &str, part: &str) -> bool {
    match fault(alloc, line) {
        Some(OptionsFault::Help(text)) => text.as_str().contains(part),
        _ => false,
    }
}

// The status of the fault of a line of words, and whether what it displays is its text.
fn is_displayed(alloc: Global, line: &str, status: u8) -> bool {
    match fault(alloc, line) {
        Some(fault) => fault.status() == status && displays_its_text(alloc, &fault),
        None => false,
    }
}

fn displays_its_text(alloc: Global, fault: &OptionsFault) -> bool {
    let Ok(shown) = format!(in alloc; "{fault}") else {
        return false;
    };
    match fault {
        OptionsFault::Refused(text) | OptionsFault::Help(text) => *text == shown,
        OptionsFault::OutOfMemory => shown.as_str() == "out of memory",
    }
}

// Command lines that are refused.
const REFUSED: &[&str] = &[
    "",
    "frob",
    "run --threads 0",
    "run --threads 64",
    "run --threads -1",
    "run --threads 18446744073709551616",
    "run --threads two",
    "run --threads",
    "run --threads 2 --threads 3",
    "run --in-turn=yes",
    "run --in-turn 2 other",
    "shell --in-turn",
    "run -v=yes",
    "run -vv",
    "verbose",
    "run file other",
    "run -o out file",
    "show -o out",
    "show file other",
    "show --binary file",
    "check --binary",
    "summary -o",
    "load -o out",
    "load --binary a",
    "shell file",
    "shell --threads 2",
    "show --threads 2",
    "show --key-flags ones",
    "show --sql --json",
    "show --jsonl --json",
    "run --progress --no-progress",
    "run --binary",
    "invert file other",
    "invert --threads 2",
    "invert --key-flags",
    "invert --key-flags both",
    "patchset --key-flags Places",
    "patchset --binary=yes",
    "concat --binary file",
    "concat --key-flags Places",
    "rebase --binary file",
    "rebase --key-flags both",
];

#[test]
fn what_is_refused(rt: HostRuntime) {
    for line in REFUSED {
        assert!(rt; is_refused(rt.alloc(), *line), "{line}");
    }
    assert!(rt; is_displayed(rt.alloc(), "frob", 2));
}

// Command lines that ask for a text, and what is in it.
const EXPLAINED: &[(&str, &str)] = &[
    ("--help", "Usage: changecap [OPTIONS] <COMMAND>"),
    ("--version", "changecap 0.1.0\n"),
    ("run --help", "--threads <N>"),
    ("run --help", "--in-turn"),
    ("run --help", "-v, --verbose"),
    ("show --help", "-v, --verbose"),
    ("run --help", "commit OP ; OP .."),
    ("help run", "commit OP ; OP .."),
    ("shell --help", "as it is read"),
    ("help shell", "line 2: G1 Syntax at 0"),
    ("--help", "E1 to E20"),
    ("show --help", "hex"),
    ("invert --help", "| changecap invert"),
    (
        "invert --help",
        "[default: places] [possible values: places, ones]",
    ),
    ("patchset --help", "| changecap patchset"),
    ("help patchset", "--binary"),
    ("concat --help", "| changecap concat"),
    ("rebase --help", "| changecap rebase"),
    ("check --help", "D1 Truncated at 8"),
    ("summary --help", "-o, --output <OUT>"),
    ("load --help", "| changecap load"),
    ("help load", "abort abort abort"),
];

#[test]
fn help(rt: HostRuntime) {
    for (line, part) in EXPLAINED {
        assert!(rt; is_explained(rt.alloc(), *line, *part), "{line}");
    }
    assert!(rt; is_displayed(rt.alloc(), "--help", 0));
    assert!(rt; is_displayed(rt.alloc(), "--version", 0));
    assert!(rt; OptionsFault::OutOfMemory.status() == 3);
    assert!(rt; displays_its_text(rt.alloc(), &OptionsFault::OutOfMemory));
}
