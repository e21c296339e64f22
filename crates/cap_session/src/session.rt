//! One session.
ghost use Rattle.std.specs.Prelude.{◌≡◌, ◌<◌, ◌^◌, length, nat_eq, IfOk, OnOk, OnErr};
ghost use Rattle.std.specs.Option.{option_copied};
ghost use Rattle.cap_session.specs.Code.Added.{Adds};
ghost use Rattle.cap_session.specs.Delta.{changed_at, with_records};
ghost use Rattle.cap_session.specs.Recording.{attach_by_rule, record_commit, record_diff, touch_tables};
ghost use Rattle.cap_session.specs.Session.{attach_all, attached, changed_by, enabled_as, forget};
ghost use Rattle.cap_session.specs.Session.{indirect_as, new_session, record_of, records_of, restart};
ghost use Rattle.cap_session.specs.Session.{set_filter, stored};

use crate::attached::Attached;
use crate::delta::{Delta, reserve_touches};
use crate::tables::{
    Tables, attach_by, attach_by_rule, copy_of, is_any_new, touch_changed, touch_found,
};
use crate::{AutomaticRule, Record, Records, SessionChange};
use cap_compare::Difference;
use cap_database::Change;
use cap_filter::TableFilter;
use cap_row::Key;
use cap_value::{AllocHandle, Name, OutOfMemory};
use indexmap::IndexMap;
use std::marker::Model;

/// A session. It records, for each attached table, the keys that changes and diffs touched, each with its
/// first image and whether every touch was indirect (The Session Extension, "Recording Changes").
///
/// Copies share the records. On an error the session is unchanged.
pub struct Session<A: AllocHandle> {
    alloc: A,
    enabled: bool,
    indirect: bool,
    rule: AutomaticRule<A>,
    tables: Tables<A>,
}

impl<A: AllocHandle> Model for Session<A> {
    ghost use Rattle.cap_session.specs.Session.{SessionState};

    ghost Value = { SessionState A };

    ghost use Rattle.cap_filter.specs.Rule.{coded_rule};
    ghost use Rattle.std.specs.Coded.{codes};

    ghost coded = { Prim.hlevel (codes, coded_rule) };

    ghost view = { λ s. record {
      enabled = s.enabled;
      indirect = s.indirect;
      rule = s.rule;
      tables = s.tables.entries;
    } };
}

// A derived `Drop` would be opened in each caller's loop.
impl<A: AllocHandle> Drop for Session<A> {
    fn drop(self) {
        let Session {
            alloc: _,
            enabled: _,
            indirect: _,
            rule: _,
            tables: _,
        } = self;
    }
}

impl<A: AllocHandle> Session<A> {
    /// A session that is enabled, not indirect, and has no attached tables.
    pub fn new(alloc: A) -> Self
        ensures { result ≡ new_session }
    {
        Session {
            alloc,
            enabled: true,
            indirect: false,
            rule: AutomaticRule::Nothing,
            tables: IndexMap::new(alloc),
        }
    }

    /// Whether it records what commits change (sqlite3session_enable).
    pub fn is_enabled(&self) -> bool
        ensures { result ≡ self.now.enabled }
    {
        self.enabled
    }

    /// The indirect flag: whether every touch is indirect.
    pub fn is_indirect(&self) -> bool
        ensures { result ≡ self.now.indirect }
    {
        self.indirect
    }

    /// Attaches a table, last in the list, unless it is attached. The table need not exist.
    #[tactic(auto, using(crate::proofs::TableLemmas::diff_none))]
    pub fn attach(&mut self, name: &Name<A>) -> Result<(), OutOfMemory>
        ensures attached { OnOk result (self.new ≡ attached name.now self.old) }
        ensures err { OnErr result (self.new ≡ self.old) }
    {
        let none: Vec<Difference<A>, A> = Vec::new(self.alloc);
        self.record_diff(name, &none)
    }

    /// Attaches every table from now on when one of its rows changes. A filter, set before or later, takes
    /// precedence.
    pub fn attach_all(&mut self)
        ensures { self.new ≡ attach_all self.old }
    {
        self.change(SessionChange::AttachAll);
    }

    /// Attaches a table from now on when one of its rows changes and the filter accepts its name. Attached
    /// tables stay attached.
    pub fn set_filter(&mut self, filter: TableFilter<A>)
        ensures { self.new ≡ set_filter filter self.old }
    {
        self.change(SessionChange::SetFilter(filter));
    }

    /// Enables or disables the session, or leaves it as it is (`None`), and answers whether it is enabled. A
    /// disabled session records no commit and attaches no table by itself.
    pub fn enable(&mut self, asked: Option<bool>) -> bool
        ensures set { self.new ≡ enabled_as asked self.old }
        ensures answer { result ≡ self.new.enabled }
    {
        self.change(SessionChange::Enable(asked));
        self.is_enabled()
    }

    /// Sets or clears the indirect flag, or leaves it as it is (`None`), and answers it.
    pub fn indirect(&mut self, asked: Option<bool>) -> bool
        ensures set { self.new ≡ indirect_as asked self.old }
        ensures answer { result ≡ self.new.indirect }
    {
        self.change(SessionChange::Indirect(asked));
        self.is_indirect()
    }

    /// Clears all records. The flags, the rule and the attached tables stay.
    pub fn restart(&mut self)
        ensures { self.new ≡ restart self.old }
    {
        self.change(SessionChange::Restart);
    }

    /// Makes a change that takes no memory.
    pub fn change(&mut self, change: SessionChange<A>)
        ensures { self.new ≡ changed_by change self.old }
    {
        match change {
            SessionChange::AttachAll => self.rule.accept_all(),
            SessionChange::SetFilter(filter) => self.rule = AutomaticRule::Filter(filter),
            SessionChange::Enable(asked) => self.enabled = asked.unwrap_or(self.enabled),
            SessionChange::Indirect(asked) => self.indirect = asked.unwrap_or(self.indirect),
            SessionChange::Restart => clear_each(self.alloc, &mut self.tables),
        }
    }

    /// Records the changes of one commit.
    pub fn record_commit(&mut self, changes: &[Change<A>]) -> Result<(), OutOfMemory>
        ensures recorded { OnOk result (self.new ≡ record_commit changes.now self.old) }
        ensures err { OnErr result (self.new ≡ self.old) }
    {
        if self.enabled {
            self.tables = self.committed(changes)?;
        }
        Ok(())
    }

    /// Records a diff of a table (SQLite's sqlite3session_diff): attaches the table unless it is attached,
    /// and touches each key that differs, even where the session is disabled.
    pub fn record_diff(
        &mut self,
        name: &Name<A>,
        differences: &[Difference<A>],
    ) -> Result<(), OutOfMemory>
        ensures recorded { OnOk result (self.new ≡ record_diff name.now differences.now self.old) }
        ensures err { OnErr result (self.new ≡ self.old) }
    {
        self.tables = self.compared(name, differences)?;
        Ok(())
    }

    // Adds what the changes of one commit make of the session at this index.
    #[tactic(auto, using(crate::proofs::AddedLemmas::adds_nothing))]
    pub(crate) fn reserve(
        &mut self,
        place: usize,
        room: usize,
        changes: &[Change<A>],
        delta: &mut Delta<A>,
    ) -> Result<(), OutOfMemory>
        ensures kept { self.new ≡ self.old }
        ensures added { OnOk result (Adds place self.old (record_commit changes.now self.old) delta.old
            delta.new) }
    {
        if !self.enabled {
            return Ok(());
        }
        if is_any_new(&self.tables, &self.rule, changes) {
            delta.renewed.push((place, self.committed(changes)?))?;
            return Ok(());
        }
        let touched = &mut delta.touched;
        reserve_touches(
            touched,
            place,
            room,
            &mut self.tables,
            self.indirect,
            changes,
        )
    }

    // All tables after the changes of one commit.
    #[inline(never)]
    fn committed(&self, changes: &[Change<A>]) -> Result<Tables<A>, OutOfMemory>
        ensures { IfOk result (λ tables. tables.entries ≡ touch_tables self.now.indirect changes.now
            (attach_by_rule self.now.rule changes.now self.now.tables)) }
    {
        let mut tables = copy_of(self.alloc, &self.tables)?;
        attach_by_rule(self.alloc, &mut tables, &self.rule, changes)?;
        touch_changed(&mut tables, self.indirect, changes)?;
        Ok(tables)
    }

    // All tables after a diff of a table.
    pub(crate) fn compared(
        &self,
        name: &Name<A>,
        differences: &[Difference<A>],
    ) -> Result<Tables<A>, OutOfMemory>
        ensures { IfOk result (λ tables. record self.now { tables = tables.entries }
            ≡ record_diff name.now differences.now self.now) }
    {
        let mut tables = copy_of(self.alloc, &self.tables)?;
        attach_by(self.alloc, &mut tables, &AutomaticRule::All, name)?;
        touch_found(&mut tables, self.indirect, name, differences)?;
        Ok(tables)
    }

    // Puts all tables in place.
    pub(crate) fn renew(&mut self, tables: Tables<A>)
        ensures { self.new ≡ record self.old { tables = tables.entries } }
    {
        self.tables = tables;
    }

    // Puts the records of the table at this index in place.
    #[tactic(auto, using(crate::proofs::PlaceLemmas::replacing))]
    pub(crate) fn replace(&mut self, table: usize, records: Records<A>)
        ensures { self.new ≡ record self.old {
          tables = changed_at table (with_records records) self.old.tables;
        } }
    {
        if table < self.tables.len() {
            self.tables[table] = records;
        }
    }

    /// Whether there is no record (SQLite's sqlite3session_isempty). The row of a record may be unchanged.
    pub fn is_empty(&self) -> bool
        ensures { result ≡ nat_eq (stored self.now.tables) 0 }
    {
        let mut rest = self.attached();
        while let Some((_, records)) = rest.next() {
            if !records.is_empty() {
                return false;
            }
        }
        true
    }

    /// The number of records.
    pub fn stored(&self) -> u128
        ensures { result ≡ stored self.now.tables }
    {
        let mut count = 0;
        let mut rest = self.attached();
        while let Some((_, records)) = rest.next() {
            count += records.count();
        }
        count
    }

    /// The attached tables in the order in which they were attached, each with its records.
    pub fn attached(&self) -> Attached<'_, A>
        ensures tables { result ≡ self.now.tables }
        ensures fits { length result < 2 ^ 64 }
    {
        Attached::over(self.tables.as_slice())
    }

    /// The records of a table in the order of their keys, `None` where it is not attached.
    pub fn records(&self, name: &Name<A>) -> Option<&Records<A>>
        ensures { option_copied result ≡ records_of self.now.tables name.now }
    {
        self.tables.get(name)
    }

    /// The record of a key, if any.
    pub fn record(&self, name: &Name<A>, key: &Key<A>) -> Option<&Record<A>>
        ensures { option_copied result ≡ record_of self.now.tables name.now key.now }
    {
        self.records(name)?.get(key)
    }

    /// A copy, which shares the records.
    pub fn copy(&self) -> Result<Self, OutOfMemory>
        ensures { IfOk result (λ copy. copy ≡ self.now) }
    {
        Ok(Session {
            alloc: self.alloc,
            enabled: self.enabled,
            indirect: self.indirect,
            rule: self.rule.copy()?,
            tables: copy_of(self.alloc, &self.tables)?,
        })
    }
}

/// A clone is a copy.
impl<A: AllocHandle> Clone for Session<A> {
    ghost use Rattle.std.specs.Prelude.{◌≡◌};

    ghost is_clone = { λ session clone. clone ≡ session };

    fn clone(&self) -> Result<Self, OutOfMemory> {
        self.copy()
    }
}

// Forgets the records of each table.
#[tactic(auto, using(crate::proofs::PlaceLemmas::clearing))]
fn clear_each<A: AllocHandle>(alloc: A, tables: &mut Tables<A>)
    ensures { tables.new.entries ≡ forget tables.old.entries }
{
    for place in 0..tables.len() {
        tables[place] = Records::empty(alloc);
    }
}
