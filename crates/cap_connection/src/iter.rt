//! An iterator over the changes of a blob.
ghost use Rattle.std.specs.Prelude.{◌≡◌, [], IfOk, OnErr, is_some};
ghost use Rattle.std.specs.Option.{option_copied, option_map, option_map_or};
ghost use Rattle.cap_changes.specs.FieldReading.{field_of};
ghost use Rattle.cap_value.specs.Memory.{AnswersUnlessMemory, RefusesFirst};
ghost use Rattle.cap_codec.specs.FirstByte.{first_fault};
ghost use Rattle.cap_codec.specs.Spelling.{Spells};
ghost use Rattle.cap_connection.specs.Iter.{Notes, Steps, begin, buffer_in, columns_of, head_of, is_key};
ghost use Rattle.cap_connection.specs.Iter.{is_patchset, iter_at, new_of, new_record_of, old_of};
ghost use Rattle.cap_connection.specs.Iter.{old_record_of, table_of};

use crate::iter_fields::{ChangeHead, head_at, new_at, old_at, schema_at, table_at};
use crate::iter_position::{Position, first_from, number_at};
use crate::iter_record::{Side, side_record};
use cap_apply::{Answer, Conflict, ConflictKind, Report};
use cap_changes::ChangeList;
use cap_codec::{BlobFault, Contents, KeyFlags, read_blob, write_changes_with};
use cap_field::ValueRef;
use cap_rebase::buffer_of;
use cap_value::{Fault, Name, OutOfMemory};
use std::alloc::Global;
use std::marker::Model;
use std::mem;

/// An iterator over the changes of a changeset or a patchset, which owns what it has read, and the conflicts
/// that its changes met: those of its last application, and those that were noted since.
#[derive(Drop)]
pub struct BlobIter {
    contents: Contents<Global>,
    current: Option<Position>,
    next: Position,
    report: Option<Report<Global>>,
    noted: Vec<Conflict, Global>,
}

impl Model for BlobIter {
    ghost use Rattle.std.specs.Prelude.{◌++◌, []};
    ghost use Rattle.std.specs.Option.{option_map_or};
    ghost use Rattle.cap_connection.specs.Iter.{IterState};

    ghost Value = { IterState };

    ghost view = { λ it. record {
      contents = it.contents;
      current = it.current;
      next = it.next;
      conflicts = option_map_or (λ report. report.conflicts) it.report [] ++ it.noted.items;
    } };
}

impl BlobIter {
    /// Reads the whole blob, and stands before its first change.
    pub fn open(alloc: Global, blob: &[u8]) -> Result<Self, Fault<BlobFault>>
        ensures opened { AnswersUnlessMemory result (iter_at blob.now) }
        // It goes over what the bytes spell.
        ensures spelled { IfOk result (λ it. Spells it.contents blob.now) }
        // A first byte that begins no group is refused without memory.
        ensures first { RefusesFirst (first_fault blob.now) result }
    {
        match read_blob(alloc, blob) {
            Ok(contents) => Ok(BlobIter::new(alloc, contents)),
            Err(Fault::Refused(wrong)) => Err(Fault::Refused(wrong)),
            Err(Fault::OutOfMemory) => Err(Fault::OutOfMemory),
        }
    }

    /// The iterator before the first change. Takes no memory.
    pub fn new(alloc: Global, contents: Contents<Global>) -> Self
        ensures { result ≡ begin contents }
    {
        BlobIter {
            contents,
            current: None,
            next: Position {
                group: 0,
                change: 0,
            },
            report: None,
            noted: Vec::new(alloc),
        }
    }

    // What it goes over.
    pub(crate) fn contents(&self) -> &Contents<Global>
        ensures { result.now ≡ self.now.contents }
    {
        &self.contents
    }

    // Takes the contents out, for a command. Takes no memory.
    pub(crate) fn take_contents(&mut self, alloc: Global) -> Contents<Global>
        ensures taken { result ≡ self.old.contents }
        ensures rest { self.new ≡ record self.old { contents = self.new.contents } }
    {
        mem::replace(
            &mut self.contents,
            Contents::Changes(ChangeList::new(alloc)),
        )
    }

    // Puts contents back.
    pub(crate) fn put_contents(&mut self, contents: Contents<Global>)
        ensures { self.new ≡ record self.old { contents = contents } }
    {
        self.contents = contents;
    }

    // Has the conflicts of an application, in place of those before.
    pub(crate) fn put_report(&mut self, report: Option<Report<Global>>)
        ensures { self.new ≡ record self.old {
          conflicts = option_map_or (λ report. report.conflicts) report [];
        } }
    {
        self.report = report;
        self.noted.clear();
    }

    /// Goes to the next change, or behind the last (sqlite3changeset_next).
    pub fn step(&mut self) -> bool
        ensures { Steps self.old self.new result }
    {
        let found = first_from(&self.contents, self.next);
        self.current = found;
        match found {
            Some(position) => {
                self.next = Position {
                    group: position.group,
                    change: position.change + 1,
                };
                true
            }
            None => false,
        }
    }

    /// What the change does, and whether it is indirect (sqlite3changeset_op). None where there is no change.
    pub fn head(&self) -> Option<ChangeHead>
        ensures { result ≡ head_of self.now }
    {
        let position = self.current?;
        head_at(&self.contents, position)
    }

    /// Whether it stands at a change.
    pub fn is_at_change(&self) -> bool
        ensures { result ≡ is_some self.now.current }
    {
        self.current.is_some()
    }

    /// Whether the blob is a patchset.
    pub fn is_patchset(&self) -> bool
        ensures { result ≡ is_patchset self.now.contents }
    {
        matches!(self.contents, Contents::Patches(_))
    }

    /// How many columns the change's table has. None where there is no change.
    pub fn columns(&self) -> usize
        ensures { result ≡ columns_of self.now }
    {
        match self.current {
            Some(position) => match schema_at(&self.contents, position.group) {
                Some(schema) => schema.width(),
                None => 0,
            },
            None => 0,
        }
    }

    /// Whether a column of the change's table is in its key (sqlite3changeset_pk).
    pub fn is_key(&self, column: usize) -> bool
        ensures { result ≡ is_key self.now column }
    {
        match self.current {
            Some(position) => match schema_at(&self.contents, position.group) {
                Some(schema) => schema.is_key(column),
                None => false,
            },
            None => false,
        }
    }

    /// The change's table.
    pub fn table(&self) -> Option<&Name<Global>>
        ensures { option_copied result ≡ table_of self.now }
    {
        match self.current {
            Some(position) => table_at(&self.contents, position.group),
            None => None,
        }
    }

    /// The value of a column before the change, where it is defined (sqlite3changeset_old).
    pub fn old(&self, column: usize) -> Option<ValueRef<'_>>
        ensures { field_of result ≡ old_of self.now column }
    {
        match self.current {
            Some(position) => old_at(&self.contents, position, column),
            None => None,
        }
    }

    /// The value of a column after the change, where it is defined (sqlite3changeset_new).
    pub fn new_value(&self, column: usize) -> Option<ValueRef<'_>>
        ensures { field_of result ≡ new_of self.now column }
    {
        match self.current {
            Some(position) => new_at(&self.contents, position, column),
            None => None,
        }
    }

    /// The record of the row before the change: a field for each column, undefined where there is no value. None
    /// where there is no change.
    pub fn old_record(&self, alloc: Global) -> Result<Option<Vec<u8, Global>>, OutOfMemory>
        ensures { IfOk result (λ it. option_map (λ bytes. bytes.items) it ≡ old_record_of self.now) }
    {
        match self.current {
            Some(position) => {
                let columns = self.columns();
                let record = side_record(alloc, &self.contents, position, Side::Old, columns)?;
                Ok(Some(record))
            }
            None => Ok(None),
        }
    }

    /// The same of the row after the change.
    pub fn new_record(&self, alloc: Global) -> Result<Option<Vec<u8, Global>>, OutOfMemory>
        ensures { IfOk result (λ it. option_map (λ bytes. bytes.items) it ≡ new_record_of self.now) }
    {
        match self.current {
            Some(position) => {
                let columns = self.columns();
                let record = side_record(alloc, &self.contents, position, Side::New, columns)?;
                Ok(Some(record))
            }
            None => Ok(None),
        }
    }

    /// Notes that the change met a conflict with this answer, in an application elsewhere. Answers whether there
    /// is a change. Once for each such change, in order.
    pub fn note(&mut self, answer: Answer) -> Result<bool, OutOfMemory>
        ensures noted { IfOk result (Notes answer self.old self.new) }
        ensures kept { OnErr result (self.new ≡ self.old) }
    {
        let Some(position) = self.current else {
            return Ok(false);
        };
        let Some(change) = number_at(&self.contents, position) else {
            return Err(OutOfMemory);
        };
        self.noted.push(Conflict {
            change,
            kind: ConflictKind::Data,
            answer,
        })?;
        Ok(true)
    }

    /// The buffer of the application in which its changes met these conflicts, for `cap_rebase`, with these key
    /// flags. None where the blob is a patchset.
    pub fn buffer(
        &self,
        alloc: Global,
        key_flags: KeyFlags,
    ) -> Result<Option<Vec<u8, Global>>, OutOfMemory>
        ensures { IfOk result (λ it. option_map (λ bytes. bytes.items) it
            ≡ buffer_in key_flags self.now.contents self.now.conflicts) }
    {
        let Contents::Changes(list) = &self.contents else {
            return Ok(None);
        };
        let conflicts = self.conflicts(alloc)?;
        let buffer = buffer_of(alloc, list, conflicts.as_slice())?;
        Ok(Some(write_changes_with(alloc, key_flags, &buffer)?))
    }

    fn conflicts(&self, alloc: Global) -> Result<Vec<Conflict, Global>, OutOfMemory>
        ensures { IfOk result (λ all. all.items ≡ self.now.conflicts) }
    {
        let mut all = Vec::new(alloc);
        if let Some(report) = &self.report {
            all.extend_from_slice(report.conflicts())?;
        }
        all.extend_from_slice(self.noted.as_slice())?;
        Ok(all)
    }
}
