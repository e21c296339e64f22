//! What the command line asks for.
ghost use Rattle.std.specs.Prelude.{◌≡◌};
ghost use Rattle.cap_command_line.specs.Options.{options_status};

use cap_run::{Combination, Conversion, Encoding, Form, Pace, ReplyForm};
use std::alloc::Global;
use thiserror::Error;

/// What the program does.
#[derive(Clone, Copy, Debug, PartialEq, Eq, Drop)]
pub enum Options {
    /// Run the workload on standard input.
    Run {
        /// The number of workers for the lines that begin with `@K`: 1 to 63.
        threads: u64,
        /// Whether they wait for each other.
        pace: Pace,
        /// In which form replies are printed.
        form: ReplyForm,
    },
    /// Run each line of standard input as it is read.
    Shell,
    /// Make lines of a workload of dumps.
    Load,
    /// Say whether the blobs are well formed.
    Check,
    /// Count the changes of the blobs.
    Summary,
    /// Show the blob on standard input.
    Show {
        /// How it is shown.
        form: Form,
        /// Its encoding.
        encoding: Encoding,
    },
    /// Convert the changeset on standard input.
    Convert(Conversion),
    /// Concatenate the blobs on standard input, or rebase the first of them over the others.
    Combine(Combination),
}

/// What the command line asks for, and where the input and the output are.
#[derive(Debug, Drop)]
pub struct Asked {
    /// What the program does.
    pub options: Options,
    /// The names of the files that it reads in place of standard input, and `-` for that.
    pub files: Vec<String>,
    /// The file that it writes in place of standard output.
    pub output: Option<String>,
    /// What it says and shows besides.
    pub manner: Manner,
}

/// What is said and shown besides.
#[derive(Debug, Drop)]
pub struct Manner {
    /// Whether a blob that is shown as JSON has a line for each change.
    pub is_lines: bool,
    /// The names of columns, for each table `T=NAME,..`.
    pub columns: Vec<String>,
    /// Whether faults and refusals are explained on standard error.
    pub explains: bool,
    /// Whether the progress of a run is shown on standard error. None leaves that to the program.
    pub progress: Option<bool>,
}

impl Manner {
    /// That of a command line without such options.
    pub fn new(alloc: Global) -> Self {
        Manner {
            is_lines: false,
            columns: Vec::new(alloc),
            explains: false,
            progress: None,
        }
    }
}

/// Why the program ends without a run.
#[derive(Debug, Drop, Error)]
pub enum OptionsFault {
    /// The words are refused, with this message.
    #[error("{0}")]
    Refused(String),
    /// The words ask for this help or version text.
    #[error("{0}")]
    Help(String),
    /// Out of memory.
    #[error("out of memory")]
    OutOfMemory,
}

impl OptionsFault {
    /// The exit status of the program: 2 where the words are refused, 0 for the help, and 3 out of memory.
    pub fn status(&self) -> u8
        ensures { result ≡ options_status self.now }
    {
        match self {
            OptionsFault::Refused(_) => 2,
            OptionsFault::Help(_) => 0,
            OptionsFault::OutOfMemory => 3,
        }
    }
}
