//! Reads commands: the word that one begins with, and then, each in a function of its own, what is behind it.
ghost use Rattle.std.specs.Prelude.{◌≡◌, [], None, Some, List, ℕ, Bool, true, codes, IfOk, IfSome};
ghost use Rattle.std.specs.Prelude.{MatchOption};
ghost use Rattle.cap_value.specs.Bytes.{bytes_eq};
ghost use Rattle.cap_language.specs.Forms.{a_word, natural, one_of, separated};
ghost use Rattle.cap_language.specs.Grammar.{Reads, done, misfit, next_at, read, read_at, seen_items};
ghost use Rattle.cap_script.specs.Language.{alone, answer, application, apply_each, apply_quiet, applying};
ghost use Rattle.cap_script.specs.Language.{command, commands, commit, commit_at, contents, create};
ghost use Rattle.cap_script.specs.Language.{drop_database, each_conflict, filter_behind, flagged, flags_in};
ghost use Rattle.cap_script.specs.Language.{from_diff, from_dump, get, key_letter, numbered, numbering};
ghost use Rattle.cap_script.specs.Language.{numbers, policy, report, save, scan, schema, setting, show_of};
ghost use Rattle.cap_script.specs.Language.{with_words};
ghost use Rattle.cap_script.specs.declared.command.Spelled.TheVariants.{Whole};
ghost use Rattle.cap_script.specs.declared.line.Show.TheVariants.{Plain};

use crate::operation::{batch, row_ref};
use crate::session_command::{attach, diff, dump, session_flag, session_key_flags};
use crate::step::{Step, by_cascade, deleted, inserted, put, rollback, spelled_step, updated};
use crate::{Detail, Show};
use cap_apply::{Answer, Policy};
use cap_codec::{Contents, read_blob};
use cap_core::{Command, QuietSessions};
use cap_language::{Cursor, LineFault, Word, name};
use cap_row::Schema;
use cap_txn::{Asked, Batch};
use cap_value::{AllocHandle, OutOfMemory, Refusal, VALUE_BYTES_MAX};

/// The words that a command begins with.
pub const COMMAND_WORDS: [&str; 38] = [
    "create",
    "commit",
    "commitat",
    "apply",
    "applyquiet",
    "applyeach",
    "get",
    "scan",
    "save",
    "dropdatabase",
    "attach",
    "enable",
    "indirect",
    "diff",
    "changeset",
    "patchset",
    "restart",
    "dump",
    "insert",
    "update",
    "delete",
    "cascade",
    "rollback",
    "put",
    "drop",
    "attachall",
    "filter",
    "isempty",
    "session",
    "sessions",
    "databases",
    "tables",
    "begin",
    "savepoint",
    "end",
    "omit",
    "replace",
    "abort",
];

/// What is spelled behind the worker. It is public for the laws of the grammar.
#[derive(Drop)]
pub enum Spelled<A: AllocHandle> {
    /// A command, and how its reply is printed.
    Whole(Command<A>, Show<A>),
    /// A filter for this. Its text is the rest of the line.
    Filter(Filtering<A>),
}

/// What a filter is for.
#[derive(Drop)]
pub enum Filtering<A: AllocHandle> {
    /// The session with this number.
    Session(u64),
    /// The application of a blob under a policy, which leaves these sessions as they are.
    Application {
        /// The blob.
        blob: Contents<A>,
        /// The policy.
        policy: Policy,
        /// The sessions that it leaves as they are.
        quiet: QuietSessions<A>,
        /// What is printed beside the counts.
        detail: Detail,
    },
    /// The application of a blob that stops at each conflict.
    EachConflict(Contents<A>),
}

// A command whose reply is printed alone.
pub(crate) fn plain<A: AllocHandle>(command: Command<A>) -> Spelled<A>
    ensures { result ≡ Whole command Plain }
{
    Spelled::Whole(command, Show::Plain)
}

// Reads a command. Commits are read in a function of their own, since one pays at its entry for all that is in it.
pub(crate) fn command<A: AllocHandle>(
    alloc: A,
    cursor: &mut Cursor<'_>,
) -> Result<Spelled<A>, LineFault>
    ensures reads { Reads result cursor.new.rest.now (read command cursor.old.rest.now) }
{
    match behind_commit(cursor) {
        Some(rest) => {
            cursor.rest = rest;
            commit(alloc, cursor)
        }
        None => any_command(alloc, cursor),
    }
}

// The line behind the word `commit`, where that is the next token.
fn behind_commit<'a>(cursor: &Cursor<'a>) -> Option<&'a str>
    ensures { IfSome result (λ rest. (word : List ℕ) × (bytes_eq word (codes "commit") ≡ true)
        × (next_at a_word cursor.now.rest.now ≡ Some (word, rest.now))) }
{
    let mut ahead = Cursor { rest: cursor.rest };
    match ahead.word() {
        Ok(word) if word.is("commit") => Some(ahead.rest),
        _ => None,
    }
}

// Reads any command. The words stand in parts, a function each, which hands a word that it does not have to
// the next: what is proved of a word has the words of its part alone in sight.
#[inline(never)]
#[tactic(auto, unfolding(crate::specs::Language::command))]
fn any_command<A: AllocHandle>(alloc: A, cursor: &mut Cursor<'_>) -> Result<Spelled<A>, LineFault>
    ensures reads { Reads result cursor.new.rest.now (read command cursor.old.rest.now) }
{
    let word = cursor.word()?;
    from_create(alloc, cursor, &word)
}

// Reads behind a word from `create` on. Here are the words before `enable`.
fn from_create<A: AllocHandle>(
    alloc: A,
    cursor: &mut Cursor<'_>,
    word: &Word<'_>,
) -> Result<Spelled<A>, LineFault>
    ensures reads { (before : List ℕ) → word.now.misfit ≡ misfit before → Reads result cursor.new.rest.now
        (read_at true (one_of commands word.now.text.now) before cursor.old.rest.now) }
{
    if word.is("create") {
        create(alloc, cursor)
    } else if word.is("commit") {
        commit(alloc, cursor)
    } else if word.is("commitat") {
        commit_at(alloc, cursor)
    } else if word.is("apply") {
        applying(alloc, cursor, QuietSessions::none(alloc))
    } else if word.is("applyquiet") {
        apply_quiet(alloc, cursor)
    } else if word.is("applyeach") {
        apply_each(alloc, cursor)
    } else if word.is("get") {
        get(alloc, cursor)
    } else if word.is("scan") {
        scan(alloc, cursor)
    } else if word.is("save") {
        save(alloc, cursor)
    } else if word.is("dropdatabase") {
        drop_database(alloc, cursor)
    } else if word.is("attach") {
        attach(alloc, cursor)
    } else {
        from_enable(alloc, cursor, word)
    }
}

// Reads behind a word from `enable` on. Here are the flags of a session, its diff and its captures.
fn from_enable<A: AllocHandle>(
    alloc: A,
    cursor: &mut Cursor<'_>,
    word: &Word<'_>,
) -> Result<Spelled<A>, LineFault>
    ensures reads { (before : List ℕ) → word.now.misfit ≡ misfit before → Reads result cursor.new.rest.now
        (read_at true (one_of (with_words setting flagged from_diff) word.now.text.now) before
        cursor.old.rest.now) }
{
    if word.is("enable") {
        let (session, asked) = session_flag(cursor)?;
        Ok(plain(Command::enable(session, asked)))
    } else if word.is("indirect") {
        let (session, asked) = session_flag(cursor)?;
        Ok(plain(Command::indirect(session, asked)))
    } else if word.is("diff") {
        diff(alloc, cursor)
    } else if word.is("changeset") {
        let (session, flags) = session_key_flags(cursor)?;
        Ok(Spelled::Whole(Command::capture(session), Show::Changeset(flags)))
    } else if word.is("patchset") {
        let (session, flags) = session_key_flags(cursor)?;
        Ok(Spelled::Whole(Command::capture(session), Show::Patchset(flags)))
    } else if word.is("restart") {
        let (session, flags) = session_key_flags(cursor)?;
        Ok(Spelled::Whole(Command::restart(session), Show::Changeset(flags)))
    } else {
        from_dump(alloc, cursor, word)
    }
}

// Reads behind a word from `dump` on. Here are the dump, and the steps with something behind their word.
fn from_dump<A: AllocHandle>(
    alloc: A,
    cursor: &mut Cursor<'_>,
    word: &Word<'_>,
) -> Result<Spelled<A>, LineFault>
    ensures reads { (before : List ℕ) → word.now.misfit ≡ misfit before → Reads result cursor.new.rest.now
        (read_at true (one_of from_dump word.now.text.now) before cursor.old.rest.now) }
{
    if word.is("dump") {
        dump(cursor)
    } else if word.is("insert") {
        inserted(alloc, cursor)
    } else if word.is("update") {
        updated(alloc, cursor)
    } else if word.is("delete") {
        deleted(alloc, cursor)
    } else if word.is("cascade") {
        by_cascade(alloc, cursor)
    } else if word.is("rollback") {
        rollback(cursor)
    } else if word.is("put") {
        put(alloc, cursor)
    } else {
        from_drop(cursor, word)
    }
}

// Reads behind a word from `drop` on. Here are the words with a session's number alone behind them.
fn from_drop<A: AllocHandle>(
    cursor: &mut Cursor<'_>,
    word: &Word<'_>,
) -> Result<Spelled<A>, LineFault>
    ensures reads { (before : List ℕ) → word.now.misfit ≡ misfit before → Reads result cursor.new.rest.now
        (read_at true (one_of (with_words numbering numbered (with_words done alone [])) word.now.text.now)
        before cursor.old.rest.now) }
{
    if word.is("drop") {
        let session = cursor.natural()?;
        Ok(plain(Command::drop_session(session)))
    } else if word.is("attachall") {
        let session = cursor.natural()?;
        Ok(plain(Command::attach_all(session)))
    } else if word.is("filter") {
        let session = cursor.natural()?;
        Ok(Spelled::Filter(Filtering::Session(session)))
    } else if word.is("isempty") {
        let session = cursor.natural()?;
        Ok(plain(Command::is_empty(session)))
    } else {
        alone(word)
    }
}

// The command of a word from `session` on, with nothing behind it.
fn alone<A: AllocHandle>(word: &Word<'_>) -> Result<Spelled<A>, LineFault>
    ensures reads { (before rest : List ℕ) → word.now.misfit ≡ misfit before → Reads result rest
        (read_at true (one_of (with_words done alone []) word.now.text.now) before rest) }
{
    if word.is("session") {
        Ok(plain(Command::NewSession))
    } else if word.is("sessions") {
        Ok(plain(Command::Sessions))
    } else if word.is("databases") {
        Ok(plain(Command::Databases))
    } else if word.is("tables") {
        Ok(plain(Command::Tables))
    } else if word.is("begin") {
        Ok(spelled_step(Step::Begin))
    } else if word.is("savepoint") {
        Ok(spelled_step(Step::Call(Asked::Savepoint)))
    } else if word.is("end") {
        Ok(spelled_step(Step::End))
    } else if word.is("omit") {
        Ok(spelled_step(Step::Answer(Answer::Omit)))
    } else if word.is("replace") {
        Ok(spelled_step(Step::Answer(Answer::Replace)))
    } else if word.is("abort") {
        Ok(spelled_step(Step::Answer(Answer::Abort)))
    } else {
        Err(word.misfit)
    }
}

// Reads a new table: `T F`.
#[tactic(auto, unfolding(crate::specs::Language::create))]
fn create<A: AllocHandle>(alloc: A, cursor: &mut Cursor<'_>) -> Result<Spelled<A>, LineFault>
    ensures reads { Reads result cursor.new.rest.now (read create cursor.old.rest.now) }
{
    let table = name(alloc, cursor)?;
    let schema = schema(alloc, cursor)?;
    Ok(plain(Command::CreateTable { table, schema }))
}

// Reads the columns of a table: one letter a column, `k` for a column of the primary key and `v` for another.
#[tactic(auto, unfolding(crate::specs::Language::schema))]
fn schema<A: AllocHandle>(alloc: A, cursor: &mut Cursor<'_>) -> Result<Schema<A>, LineFault>
    ensures reads { Reads result cursor.new.rest.now (read schema cursor.old.rest.now) }
{
    let word = cursor.word()?;
    match flags_in(alloc, word.text)? {
        Some(flags) => Ok(Schema::new(alloc, flags.as_slice())?),
        None => Err(word.misfit),
    }
}

// The key flags of the columns, if the word has only the letters `k` and `v`.
fn flags_in<A: AllocHandle>(alloc: A, word: &str) -> Result<Option<Vec<bool, A>>, OutOfMemory>
    ensures { IfOk result (λ found. MatchOption found (flags_in word.now ≡ None)
        (λ flags. flags_in word.now ≡ Some flags.items)) }
{
    let mut flags = Vec::new(alloc);
    for letter in word.as_bytes() {
        let Some(flag) = key_letter(*letter) else {
            return Ok(None);
        };
        flags.push(flag)?;
    }
    Ok(Some(flags))
}

// The key flag of a column, if the letter is `k` or `v`.
fn key_letter(letter: u8) -> Option<bool>
    ensures { result ≡ key_letter letter }
{
    match letter {
        b'k' => Some(true),
        b'v' => Some(false),
        _ => None,
    }
}

// Reads a batch without a base version: `OP ; OP ..`.
#[tactic(auto, unfolding(crate::specs::Language::commit))]
fn commit<A: AllocHandle>(alloc: A, cursor: &mut Cursor<'_>) -> Result<Spelled<A>, LineFault>
    ensures reads { Reads result cursor.new.rest.now (read commit cursor.old.rest.now) }
{
    let batch = batch(alloc, cursor, Batch::blind(alloc))?;
    Ok(plain(Command::Commit(batch)))
}

// Reads a batch with a base version: `N OP ; OP ..`.
#[tactic(auto, unfolding(crate::specs::Language::commit_at))]
fn commit_at<A: AllocHandle>(alloc: A, cursor: &mut Cursor<'_>) -> Result<Spelled<A>, LineFault>
    ensures reads { Reads result cursor.new.rest.now (read commit_at cursor.old.rest.now) }
{
    let base = cursor.natural()?;
    let batch = batch(alloc, cursor, Batch::based(alloc, base))?;
    Ok(plain(Command::Commit(batch)))
}

// Reads the sessions that an application leaves as they are, and the application: `S , S .. x'..' D N C`.
#[tactic(auto, unfolding(crate::specs::Language::apply_quiet))]
fn apply_quiet<A: AllocHandle>(alloc: A, cursor: &mut Cursor<'_>) -> Result<Spelled<A>, LineFault>
    ensures reads { Reads result cursor.new.rest.now (read apply_quiet cursor.old.rest.now) }
{
    let quiet = quiet_sessions(alloc, cursor)?;
    applying(alloc, cursor, quiet)
}

// Reads a blob, whose application stops at each conflict, and whether a filter follows: `x'..'`.
#[tactic(auto, unfolding(crate::specs::Language::apply_each))]
fn apply_each<A: AllocHandle>(alloc: A, cursor: &mut Cursor<'_>) -> Result<Spelled<A>, LineFault>
    ensures reads { Reads result cursor.new.rest.now (read apply_each cursor.old.rest.now) }
{
    let blob = contents(alloc, cursor)?;
    let behind = filter_behind(cursor, Detail::Counts)?;
    Ok(each_conflict(blob, behind))
}

// Such an application to all tables, or to those that a filter accepts.
fn each_conflict<A: AllocHandle>(blob: Contents<A>, behind: (Detail, bool)) -> Spelled<A>
    ensures { result ≡ each_conflict blob behind }
{
    let (_, filtered) = behind;
    if filtered {
        return Spelled::Filter(Filtering::EachConflict(blob));
    }
    spelled_step(Step::ApplyEach(blob, None))
}

// Reads a blob, a policy, which is the answers to DATA, NOTFOUND and CONFLICT, how the outcome is printed, and
// whether a filter follows: `x'..' D N C`.
#[tactic(auto, unfolding(crate::specs::Language::applying))]
fn applying<A: AllocHandle>(
    alloc: A,
    cursor: &mut Cursor<'_>,
    quiet: QuietSessions<A>,
) -> Result<Spelled<A>, LineFault>
    ensures reads { Reads result cursor.new.rest.now (read (applying quiet) cursor.old.rest.now) }
{
    let blob = contents(alloc, cursor)?;
    let policy = policy(cursor)?;
    let (detail, filtered) = report(cursor)?;
    Ok(application(blob, policy, quiet, detail, filtered))
}

// An application to all tables, or to those that a filter accepts.
fn application<A: AllocHandle>(
    blob: Contents<A>,
    policy: Policy,
    quiet: QuietSessions<A>,
    detail: Detail,
    filtered: bool,
) -> Spelled<A>
    ensures { result ≡ application blob policy quiet (detail, filtered) }
{
    if filtered {
        return Spelled::Filter(Filtering::Application {
            blob,
            policy,
            quiet,
            detail,
        });
    }
    let command = Command::Apply {
        blob,
        policy,
        quiet,
    };
    Spelled::Whole(command, show_of(detail))
}

fn show_of<A: AllocHandle>(detail: Detail) -> Show<A>
    ensures { result ≡ show_of detail }
{
    match detail {
        Detail::Counts => Show::Plain,
        Detail::Report => Show::Report,
        Detail::Buffer => Show::Buffer,
    }
}

// Reads sessions: `S , S ..`.
#[tactic(auto, unfolding(crate::specs::Language::numbers))]
fn quiet_sessions<A: AllocHandle>(
    alloc: A,
    cursor: &mut Cursor<'_>,
) -> Result<QuietSessions<A>, LineFault>
    ensures reads { Reads result cursor.new.rest.now (read numbers cursor.old.rest.now) }
{
    Ok(QuietSessions::new(numbers(alloc, cursor)?))
}

// Reads the numbers of sessions: `S , S ..`.
fn numbers<A: AllocHandle>(alloc: A, cursor: &mut Cursor<'_>) -> Result<Vec<u64, A>, LineFault>
    ensures reads { Reads (seen_items result) cursor.new.rest.now
        (read (separated 44 (λ _. natural)) cursor.old.rest.now) }
{
    let mut numbers = Vec::new(alloc);
    numbers.push(cursor.natural()?)?;
    while cursor.takes_sign(b',') {
        numbers.push(cursor.natural()?)?;
    }
    Ok(numbers)
}

// Reads the changeset or patchset in a blob, the next token.
#[tactic(auto, unfolding(crate::specs::Language::contents))]
fn contents<A: AllocHandle>(alloc: A, cursor: &mut Cursor<'_>) -> Result<Contents<A>, LineFault>
    ensures reads { Reads result cursor.new.rest.now (read contents cursor.old.rest.now) }
{
    let Some(bytes) = cursor.blob(alloc)? else {
        return Err(cursor.misfit());
    };
    if bytes.len() > VALUE_BYTES_MAX {
        return Err(LineFault::Limit(Refusal::TooLong));
    }
    Ok(read_blob(alloc, bytes.as_slice())?)
}

#[tactic(auto, unfolding(crate::specs::Language::policy))]
fn policy(cursor: &mut Cursor<'_>) -> Result<Policy, LineFault>
    ensures reads { Reads result cursor.new.rest.now (read policy cursor.old.rest.now) }
{
    let on_data = answer(cursor)?;
    let on_notfound = answer(cursor)?;
    let on_conflict = answer(cursor)?;
    Ok(Policy {
        on_data,
        on_notfound,
        on_conflict,
    })
}

// Reads the answer to a conflict: `omit`, `replace` or `abort`.
#[tactic(auto, unfolding(crate::specs::Language::answer))]
fn answer(cursor: &mut Cursor<'_>) -> Result<Answer, LineFault>
    ensures reads { Reads result cursor.new.rest.now (read answer cursor.old.rest.now) }
{
    let word = cursor.word()?;
    if word.is("omit") {
        Ok(Answer::Omit)
    } else if word.is("replace") {
        Ok(Answer::Replace)
    } else if word.is("abort") {
        Ok(Answer::Abort)
    } else {
        Err(word.misfit)
    }
}

// Reads how the outcome of an apply is printed, `report`, `buffer`, or nothing for its counts alone, and whether
// `filter` follows.
#[tactic(auto, unfolding(crate::specs::Language::report))]
fn report(cursor: &mut Cursor<'_>) -> Result<(Detail, bool), LineFault>
    ensures reads { Reads result cursor.new.rest.now (read report cursor.old.rest.now) }
{
    cursor.skip_spaces();
    if cursor.rest.is_empty() {
        return Ok((Detail::Counts, false));
    }
    let word = cursor.word()?;
    if word.is("report") {
        filter_behind(cursor, Detail::Report)
    } else if word.is("buffer") {
        filter_behind(cursor, Detail::Buffer)
    } else if word.is("filter") {
        Ok((Detail::Counts, true))
    } else {
        Err(word.misfit)
    }
}

// Reads `filter`, or nothing at the line's end.
#[tactic(auto, unfolding(crate::specs::Language::filter_behind))]
fn filter_behind(cursor: &mut Cursor<'_>, detail: Detail) -> Result<(Detail, bool), LineFault>
    ensures reads { Reads result cursor.new.rest.now (read (filter_behind detail) cursor.old.rest.now) }
{
    cursor.skip_spaces();
    if cursor.rest.is_empty() {
        return Ok((detail, false));
    }
    cursor.keyword("filter")?;
    Ok((detail, true))
}

// Reads a query for a row of a snapshot: `T REF`.
#[tactic(auto, unfolding(crate::specs::Language::get))]
fn get<A: AllocHandle>(alloc: A, cursor: &mut Cursor<'_>) -> Result<Spelled<A>, LineFault>
    ensures reads { Reads result cursor.new.rest.now (read get cursor.old.rest.now) }
{
    let table = name(alloc, cursor)?;
    let row = row_ref(alloc, cursor)?;
    Ok(Spelled::Whole(Command::Read, Show::Get(table, row)))
}

// Reads a query for all rows of a table: `T`.
#[tactic(auto, unfolding(crate::specs::Language::scan))]
fn scan<A: AllocHandle>(alloc: A, cursor: &mut Cursor<'_>) -> Result<Spelled<A>, LineFault>
    ensures reads { Reads result cursor.new.rest.now (read scan cursor.old.rest.now) }
{
    let table = name(alloc, cursor)?;
    Ok(Spelled::Whole(Command::Read, Show::Scan(table)))
}

// Reads the name under which the tables are saved: `B`.
#[tactic(auto, unfolding(crate::specs::Language::save))]
fn save<A: AllocHandle>(alloc: A, cursor: &mut Cursor<'_>) -> Result<Spelled<A>, LineFault>
    ensures reads { Reads result cursor.new.rest.now (read save cursor.old.rest.now) }
{
    let database = name(alloc, cursor)?;
    Ok(plain(Command::SaveAs { database }))
}

// Reads the name of a saved database: `B`.
#[tactic(auto, unfolding(crate::specs::Language::drop_database))]
fn drop_database<A: AllocHandle>(alloc: A, cursor: &mut Cursor<'_>) -> Result<Spelled<A>, LineFault>
    ensures reads { Reads result cursor.new.rest.now (read drop_database cursor.old.rest.now) }
{
    let database = name(alloc, cursor)?;
    Ok(plain(Command::DropDatabase { database }))
}
