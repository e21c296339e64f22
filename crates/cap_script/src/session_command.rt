//! Reads the commands on one session and the dump, behind their first word.
ghost use Rattle.cap_language.specs.Grammar.{Reads, read};
ghost use Rattle.cap_script.specs.Language.{attach, diff, dump, flag, key_flags, session_flag};
ghost use Rattle.cap_script.specs.Language.{session_key_flags};

use crate::Show;
use crate::command::{Spelled, plain};
use cap_codec::KeyFlags;
use cap_core::Command;
use cap_language::{Cursor, LineFault, name};
use cap_value::AllocHandle;

// Reads a table that is attached: `N T`.
#[tactic(auto, unfolding(crate::specs::Language::attach))]
pub(crate) fn attach<A: AllocHandle>(
    alloc: A,
    cursor: &mut Cursor<'_>,
) -> Result<Spelled<A>, LineFault>
    ensures reads { Reads result cursor.new.rest.now (read attach cursor.old.rest.now) }
{
    let session = cursor.natural()?;
    let table = name(alloc, cursor)?;
    Ok(plain(Command::attach(session, table)))
}

// Reads a diff: the session's number, and the names of the saved database and of the table.
#[tactic(auto, unfolding(crate::specs::Language::diff))]
pub(crate) fn diff<A: AllocHandle>(
    alloc: A,
    cursor: &mut Cursor<'_>,
) -> Result<Spelled<A>, LineFault>
    ensures reads { Reads result cursor.new.rest.now (read diff cursor.old.rest.now) }
{
    let session = cursor.natural()?;
    let from = name(alloc, cursor)?;
    let table = name(alloc, cursor)?;
    Ok(plain(Command::diff(session, from, table)))
}

// Reads a session's number, and how key flags are written: `N`, or `N places`.
#[tactic(auto, unfolding(crate::specs::Language::session_key_flags))]
pub(crate) fn session_key_flags(cursor: &mut Cursor<'_>) -> Result<(u64, KeyFlags), LineFault>
    ensures reads { Reads result cursor.new.rest.now (read session_key_flags cursor.old.rest.now) }
{
    let session = cursor.natural()?;
    let flags = key_flags(cursor)?;
    Ok((session, flags))
}

// Reads a session's number, and a flag's new value or the query for it: `N FLAG`.
#[tactic(auto, unfolding(crate::specs::Language::session_flag))]
pub(crate) fn session_flag(cursor: &mut Cursor<'_>) -> Result<(u64, Option<bool>), LineFault>
    ensures reads { Reads result cursor.new.rest.now (read session_flag cursor.old.rest.now) }
{
    let session = cursor.natural()?;
    let asked = flag(cursor)?;
    Ok((session, asked))
}

// Reads a dump of all tables, which is printed as a changeset: how key flags are written.
#[tactic(auto, unfolding(crate::specs::Language::dump))]
pub(crate) fn dump<A: AllocHandle>(cursor: &mut Cursor<'_>) -> Result<Spelled<A>, LineFault>
    ensures reads { Reads result cursor.new.rest.now (read dump cursor.old.rest.now) }
{
    let flags = key_flags(cursor)?;
    Ok(Spelled::Whole(Command::Dump, Show::Changeset(flags)))
}

// Reads the key flags: `places`, or nothing for `01`.
#[tactic(auto, unfolding(crate::specs::Language::key_flags))]
fn key_flags(cursor: &mut Cursor<'_>) -> Result<KeyFlags, LineFault>
    ensures reads { Reads result cursor.new.rest.now (read key_flags cursor.old.rest.now) }
{
    cursor.skip_spaces();
    if cursor.rest.is_empty() {
        return Ok(KeyFlags::Ones);
    }
    cursor.keyword("places")?;
    Ok(KeyFlags::Places)
}

// Reads a flag's new value: `on` or `off`, or `ask` to query it.
#[tactic(auto, unfolding(crate::specs::Language::flag))]
fn flag(cursor: &mut Cursor<'_>) -> Result<Option<bool>, LineFault>
    ensures reads { Reads result cursor.new.rest.now (read flag cursor.old.rest.now) }
{
    let word = cursor.word()?;
    if word.is("on") {
        Ok(Some(true))
    } else if word.is("off") {
        Ok(Some(false))
    } else if word.is("ask") {
        Ok(None)
    } else {
        Err(word.misfit)
    }
}
