//! All sessions of a core, by number.
ghost use Rattle.std.specs.Prelude.{◌≡◌, [], ◌∷◌, ◌++◌, Ok, Err, Some, None, IfOk, IfErr, OnOk, OnErr};
ghost use Rattle.std.specs.Prelude.{length, map, nat_eq, if◌then◌else◌};
ghost use Rattle.std.specs.List.{position};
ghost use Rattle.std.specs.Option.{option_copied, option_map};
ghost use Rattle.cap_value.specs.Memory.{MatchFault};
ghost use Rattle.cap_session.specs.Code.Added.{Adds};
ghost use Rattle.cap_session.specs.Delta.{published, with_parts, with_tables, with_touched};
ghost use Rattle.cap_session.specs.Recording.{record_commit, record_diff};
ghost use Rattle.cap_session.specs.Session.{attached, changed_by, new_session};
ghost use Rattle.cap_session.specs.Sessions.{is_one_of, record_commit_each, session_numbered};
ghost use Rattle.cap_session.specs.Sessions.{with_session_if, without_session};

use crate::delta::{Delta, Renewed, Touched};
use crate::{Session, SessionChange};
use cap_compare::Difference;
use cap_database::Change;
use cap_tree::Hook;
use cap_value::{AllocHandle, Fault, Name, OutOfMemory};
use std::marker::Model;

/// Sessions by number.
///
/// A change that takes memory is two calls: the first reserves all of it and leaves the sessions unchanged,
/// and `publish`, which takes no memory, moves into them what the first has made. Nothing has to be undone
/// where a step between the two fails: what was made is dropped.
pub struct Sessions<A: AllocHandle> {
    alloc: A,
    sessions: Vec<(u64, Session<A>), A>,
}

impl<A: AllocHandle> Model for Sessions<A> {
    ghost use Rattle.cap_session.specs.Sessions.{NumberedSessions};

    ghost Value = { NumberedSessions A };

    ghost use Rattle.cap_filter.specs.Rule.{coded_rule};
    ghost use Rattle.std.specs.Coded.{codes};

    ghost coded = { Prim.hlevel (codes, coded_rule) };

    ghost view = { λ s. s.sessions.items };
}

// A derived `Drop` would be opened in each caller's loop.
impl<A: AllocHandle> Drop for Sessions<A> {
    fn drop(self) {
        let Sessions {
            alloc: _,
            sessions: _,
        } = self;
    }
}

impl<A: AllocHandle> Sessions<A> {
    /// No sessions. Takes no memory.
    pub fn new(alloc: A) -> Self
        ensures { result ≡ [] }
    {
        Sessions {
            alloc,
            sessions: Vec::new(alloc),
        }
    }

    /// The number of sessions.
    pub fn len(&self) -> usize
        ensures { result ≡ length self.now }
    {
        self.sessions.len()
    }

    /// The sessions in the order in which they were created, each with its number.
    pub fn numbered(&self) -> &[(u64, Session<A>)]
        ensures { result.now ≡ self.now }
    {
        self.sessions.as_slice()
    }

    /// The session with this number, if any.
    pub fn get(&self, number: u64) -> Option<&Session<A>>
        ensures { option_copied result ≡ session_numbered self.now number }
    {
        let place = place_of(&self.sessions, number)?;
        let (_, session) = &self.sessions[place];
        Some(session)
    }

    /// Adds a new session with this number, where the hook allows it. The hook is asked once, after all
    /// memory is reserved, and is shown the session. On an error the sessions are unchanged.
    pub fn add_hooked<H: Hook<Session<A>>>(
        &mut self,
        number: u64,
        hook: &mut H,
    ) -> Result<(), Fault<H::Refusal>>
        requires { H.can_ask hook.old None (Some new_session) }
        ensures added { OnOk result (self.new ≡ self.old ++ (number, new_session) ∷ []) }
        ensures allowed { OnOk result (H.gives hook.old None (Some new_session) (Ok tt) hook.new) }
        ensures err { OnErr result (self.new ≡ self.old) }
        ensures refused { IfErr result (λ fault. MatchFault fault (hook.new ≡ hook.old)
            (λ why. H.gives hook.old None (Some new_session) (Err why) hook.new)) }
    {
        self.sessions.reserve(1)?;
        let session = Session::new(self.alloc);
        ask_to_add(hook, &session)?;
        self.sessions.push_reserved((number, session));
        Ok(())
    }

    /// Removes the session with this number, if any.
    pub fn remove(&mut self, number: u64)
        ensures { self.new ≡ without_session self.old number }
    {
        if let Some(place) = place_of(&self.sessions, number) {
            self.sessions.remove(place);
        }
    }

    /// What the changes of one commit add to each session but the quiet ones, whose numbers these are.
    pub fn reserve(&mut self, changes: &[Change<A>], quiet: &[u64]) -> Result<Delta<A>, OutOfMemory>
        ensures kept { self.new ≡ self.old }
        ensures added { IfOk result (λ delta. published delta self.old
            ≡ record_commit_each changes.now quiet.now self.old) }
    {
        let mut delta = Delta::nothing(self.alloc);
        reserve_each(&mut self.sessions, changes, quiet, &mut delta)?;
        Ok(delta)
    }

    /// What attaching a table adds to the session with this number, if any.
    #[tactic(auto, using(crate::proofs::TableLemmas::diff_none))]
    pub fn reserve_attach(&mut self, number: u64, name: &Name<A>) -> Result<Delta<A>, OutOfMemory>
        ensures kept { self.new ≡ self.old }
        ensures added { IfOk result (λ delta. published delta self.old ≡ with_session_if self.old number
            (option_map (attached name.now) (session_numbered self.old number))) }
    {
        let none: Vec<Difference<A>, A> = Vec::new(self.alloc);
        self.reserve_diff(number, name, &none)
    }

    /// What a diff of a table adds to the session with this number, if any.
    pub fn reserve_diff(
        &mut self,
        number: u64,
        name: &Name<A>,
        differences: &[Difference<A>],
    ) -> Result<Delta<A>, OutOfMemory>
        ensures kept { self.new ≡ self.old }
        ensures added { IfOk result (λ delta. published delta self.old ≡ with_session_if self.old number
            (option_map (record_diff name.now differences.now) (session_numbered self.old number))) }
    {
        let mut delta = Delta::nothing(self.alloc);
        if let Some(place) = place_of(&self.sessions, number) {
            let (_, session) = &self.sessions[place];
            delta
                .renewed
                .push((place, session.compared(name, differences)?))?;
        }
        Ok(delta)
    }

    /// Publishes what was made for these sessions. Takes no memory.
    pub fn publish(&mut self, delta: Delta<A>)
        ensures { self.new ≡ published delta self.old }
    {
        let (renewed, touched) = delta.into_parts();
        publish_renewed(&mut self.sessions, renewed);
        publish_touched(&mut self.sessions, touched);
    }

    /// Changes the session with this number, if any.
    pub fn change(&mut self, number: u64, with: SessionChange<A>)
        ensures { self.new ≡ with_session_if self.old number
            (option_map (changed_by with) (session_numbered self.old number)) }
    {
        if let Some(place) = place_of(&self.sessions, number) {
            let (_, session) = &mut self.sessions[place];
            session.change(with);
        }
    }

    /// A copy, which shares the records.
    pub fn copy(&self) -> Result<Self, OutOfMemory>
        ensures { IfOk result (λ copy. copy ≡ self.now) }
    {
        Ok(Sessions {
            alloc: self.alloc,
            sessions: copies_of(self.alloc, &self.sessions)?,
        })
    }
}

// Asks the hook where a session is added.
fn ask_to_add<A: AllocHandle, H: Hook<Session<A>>>(
    hook: &mut H,
    session: &Session<A>,
) -> Result<(), Fault<H::Refusal>>
    requires { H.can_ask hook.old None (Some session.now) }
    ensures allowed { OnOk result (H.gives hook.old None (Some session.now) (Ok tt) hook.new) }
    ensures refused { IfErr result (λ fault. MatchFault fault (hook.new ≡ hook.old)
        (λ why. H.gives hook.old None (Some session.now) (Err why) hook.new)) }
{
    let nothing: Option<Session<A>> = None;
    match hook.before_change(nothing.as_ref(), Some(session)) {
        Ok(()) => Ok(()),
        Err(why) => Err(Fault::Refused(why)),
    }
}

// The index of the session with this number.
fn place_of<A: AllocHandle>(sessions: &[(u64, Session<A>)], number: u64) -> Option<usize>
    ensures { result ≡ position (λ session. nat_eq number session.0) sessions.now }
{
    sessions.iter().position(|session| number == session.0)
}

// What the changes of one commit add to each session but the quiet ones.
#[tactic(auto, using(crate::proofs::AddedLemmas::none_added))]
fn reserve_each<A: AllocHandle>(
    sessions: &mut Vec<(u64, Session<A>), A>,
    changes: &[Change<A>],
    quiet: &[u64],
    delta: &mut Delta<A>,
) -> Result<(), OutOfMemory>
    requires none { (delta.old.renewed.items ≡ []) × (delta.old.touched.items ≡ []) }
    ensures kept { sessions.new.items ≡ sessions.old.items }
    ensures added { OnOk result (published delta.new sessions.old.items
        ≡ record_commit_each changes.now quiet.now sessions.old.items) }
{
    let count = sessions.len();
    for place in 0..count {
        let session = &mut sessions[place];
        reserve_unless(session, place, count - place, changes, quiet, delta)?;
    }
    Ok(())
}

// What the changes of one commit add to the session at this index, unless it is a quiet one.
#[tactic(auto, using(crate::proofs::AddedLemmas::adds_nothing))]
fn reserve_unless<A: AllocHandle>(
    numbered: &mut (u64, Session<A>),
    place: usize,
    room: usize,
    changes: &[Change<A>],
    quiet: &[u64],
    delta: &mut Delta<A>,
) -> Result<(), OutOfMemory>
    ensures kept { numbered.new ≡ numbered.old }
    ensures added { OnOk result (Adds place numbered.old.1 (if is_one_of quiet.now numbered.old.0
        then numbered.old.1 else record_commit changes.now numbered.old.1) delta.old delta.new) }
{
    let (number, session) = numbered;
    if is_one_of(quiet, *number) {
        return Ok(());
    }
    session.reserve(place, room, changes, delta)
}

fn is_one_of(numbers: &[u64], number: u64) -> bool
    ensures { result ≡ is_one_of numbers.now number }
{
    numbers.iter().any(|other| number == *other)
}

// Puts all tables of each of these sessions in place.
fn publish_renewed<A: AllocHandle>(sessions: &mut Vec<(u64, Session<A>), A>, renewed: Renewed<A>)
    ensures { sessions.new.items ≡ with_parts with_tables sessions.old.items
        (map (λ own. (own.0, own.1.entries)) renewed.items) }
{
    let mut renewed = renewed;
    while let Some((place, tables)) = renewed.pop() {
        if place < sessions.len() {
            let (_, session) = &mut sessions[place];
            session.renew(tables);
        }
    }
}

// Puts the records of each of these tables in place.
fn publish_touched<A: AllocHandle>(sessions: &mut Vec<(u64, Session<A>), A>, touched: Touched<A>)
    ensures { sessions.new.items ≡ with_parts with_touched sessions.old.items touched.items }
{
    let mut touched = touched;
    while let Some((place, (table, records))) = touched.pop() {
        if place < sessions.len() {
            let (_, session) = &mut sessions[place];
            session.replace(table, records);
        }
    }
}

// Copies, which share the records.
fn copies_of<A: AllocHandle>(
    alloc: A,
    sessions: &[(u64, Session<A>)],
) -> Result<Vec<(u64, Session<A>), A>, OutOfMemory>
    ensures { IfOk result (λ copies. copies.items ≡ sessions.now) }
{
    let mut copies = Vec::with_capacity(alloc, sessions.len())?;
    for session in sessions {
        copies.push((session.0, session.1.copy()?))?;
    }
    Ok(copies)
}
