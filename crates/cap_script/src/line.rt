//! A line of a workload.
ghost use Rattle.std.specs.Prelude.{◌≡◌, IfOk, IfErr, Ok};
ghost use Rattle.cap_filter.specs.Reading.{filter_of};
ghost use Rattle.cap_script.specs.LineFaults.{FaultIs, MakesUnlessMemory, filter_read, line_fault};
ghost use Rattle.cap_script.specs.LineFaults.{line_of_text};
ghost use Rattle.cap_script.specs.LineLimits.{LineWithin};
ghost use Rattle.cap_script.specs.RefusedLines.{NoLine};
ghost use Rattle.cap_script.specs.Script.{SpellsLine, filter_line, is_ignored};

use crate::command::{Filtering, Spelled, command};
use crate::step::Step;
use cap_applier::{Numbering, chosen_of};
use cap_apply::Report;
use cap_codec::KeyFlags;
use cap_core::Command;
use cap_filter::TableFilter;
use cap_language::{Cursor, LineFault, after_blanks};
use cap_table::RowRef;
use cap_value::{AllocHandle, Fault, Name, Refusal};

/// How a reply is printed.
pub enum Show<A: AllocHandle> {
    /// The reply alone.
    Plain,
    /// One row of a snapshot.
    Get(Name<A>, RowRef<A>),
    /// All rows of a table of a snapshot.
    Scan(Name<A>),
    /// What a step of a transaction or of an application over several lines leads to.
    Step(Step<A>),
    /// The changeset of a capture, with these key flags.
    Changeset(KeyFlags),
    /// The patchset of a capture, with these key flags.
    Patchset(KeyFlags),
    /// The outcome of an apply, with its conflicts, the omitted changes and the skipped groups.
    Report,
    /// The outcome of an apply, with the buffer over which local changes are rebased.
    Buffer,
    /// So much of the outcome of an apply to the tables that a filter accepts, with these numbers in the whole
    /// blob.
    Accepted(Detail, Numbering<A>),
    /// The counts of an application that stopped at each conflict, and how many groups it passed over, where it
    /// has a filter. Its line is one that ends it.
    Decided(Report<A>, Option<u64>),
}

// A derived `Drop` would be opened in each caller.
impl<A: AllocHandle> Drop for Show<A> {
    fn drop(self) {
        match self {
            Show::Plain => {}
            Show::Get(_, _) => {}
            Show::Scan(_) => {}
            Show::Step(_) => {}
            Show::Changeset(_) => {}
            Show::Patchset(_) => {}
            Show::Report => {}
            Show::Buffer => {}
            Show::Accepted(_, _) => {}
            Show::Decided(_, _) => {}
        }
    }
}

/// How much of the outcome of an apply is printed.
#[derive(Clone, Copy, Debug, PartialEq, Eq, Drop)]
pub enum Detail {
    /// Its counts.
    Counts,
    /// Its conflicts, the omitted changes and the skipped groups too.
    Report,
    /// The buffer over which local changes are rebased too.
    Buffer,
}

/// A line of a workload: a command, its worker, and how its reply is printed.
pub struct Line<A: AllocHandle> {
    /// The number after `@`, from 0 to 63, if the line has one.
    pub worker: Option<u64>,
    /// The command.
    pub command: Command<A>,
    /// How its reply is printed.
    pub show: Show<A>,
}

// A derived `Drop` would be opened in each caller.
impl<A: AllocHandle> Drop for Line<A> {
    fn drop(self) {
        let Line {
            worker: _,
            command: _,
            show: _,
        } = self;
    }
}

impl<A: AllocHandle> Line<A> {
    /// Its command.
    pub fn into_command(self) -> Command<A>
        ensures { result ≡ self.command }
    {
        let Line {
            worker: _,
            command,
            show: _,
        } = self;
        command
    }

    // The line with this text, which is not ignored.
    pub(crate) fn parse(alloc: A, text: &str) -> Result<Self, LineFault>
        ensures spelled { IfOk result (λ line. SpellsLine line text.now) }
        ensures within { IfOk result (λ line. LineWithin line text.now) }
        ensures none { IfErr result (λ fault. NoLine A fault text.now) }
        ensures fault { FaultIs result (line_fault A text.now) }
    {
        cap_filter::laws::read_is_spelled();
        cap_filter::laws::spelled_is_read();
        cap_filter::laws::unfit_place();
        Self::read(alloc, text)
    }

    // What is read of the text, from left to right.
    #[tactic(auto, unfolding(crate::specs::LineFaults::line_of_text, crate::specs::Language::opening))]
    fn read(alloc: A, text: &str) -> Result<Self, LineFault>
        ensures { MakesUnlessMemory result (line_of_text A text.now) }
    {
        let mut cursor = Cursor { rest: text };
        let worker = cursor.worker()?;
        match command(alloc, &mut cursor)? {
            Spelled::Whole(command, show) => {
                cursor.end()?;
                Ok(Line {
                    worker,
                    command,
                    show,
                })
            }
            Spelled::Filter(what) => {
                let filter = filter(alloc, &cursor)?;
                with_filter(alloc, worker, what, filter)
            }
        }
    }
}

// The line with this filter.
#[inline(never)]
fn with_filter<A: AllocHandle>(
    alloc: A,
    worker: Option<u64>,
    what: Filtering<A>,
    filter: TableFilter<A>,
) -> Result<Line<A>, LineFault>
    ensures { MakesUnlessMemory result (Ok (filter_line worker what filter)) }
{
    match what {
        Filtering::Session(session) => Ok(Line {
            worker,
            command: Command::set_filter(session, filter),
            show: Show::Plain,
        }),
        Filtering::Application {
            blob,
            policy,
            quiet,
            detail,
        } => {
            let chosen = chosen_of(alloc, &filter, &blob)?;
            Ok(Line {
                worker,
                command: Command::Apply {
                    blob: chosen.contents,
                    policy,
                    quiet,
                },
                show: Show::Accepted(detail, chosen.numbering),
            })
        }
        Filtering::EachConflict(blob) => Ok(Line {
            worker,
            command: Command::Read,
            show: Show::Step(Step::ApplyEach(blob, Some(filter))),
        }),
    }
}

// Reads a filter, which is the rest of the line.
#[inline(never)]
fn filter<A: AllocHandle>(alloc: A, cursor: &Cursor<'_>) -> Result<TableFilter<A>, LineFault>
    ensures { MakesUnlessMemory result
        (filter_read cursor.now.rest.now (filter_of cursor.now.rest.now)) }
{
    match TableFilter::parse(alloc, cursor.rest) {
        Ok(filter) => Ok(filter),
        Err(Fault::Refused(Refusal::BadFilter { at })) => Err(cursor.misfit_at(at)),
        Err(Fault::Refused(why)) => Err(LineFault::Limit(why)),
        Err(Fault::OutOfMemory) => Err(LineFault::OutOfMemory),
    }
}

// Whether the line is ignored: it is empty, has only spaces, or begins with `#`.
pub(crate) fn is_ignored(text: &str) -> bool
    ensures { result ≡ is_ignored text.now }
{
    text.as_bytes().first() == Some(&b'#') || after_blanks(text).is_empty()
}
