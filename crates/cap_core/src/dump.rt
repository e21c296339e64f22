//! Dumps: the tables of a server as a changeset that makes them of nothing.
ghost use Rattle.std.specs.Prelude.{◌≡◌, IfOk};
ghost use Rattle.cap_dump.specs.Dump.{dump_bytes};

use cap_codec::KeyFlags;
use cap_database::Snapshot;
use cap_dump::dump_all;
use cap_value::{AllocHandle, OutOfMemory};
use std::marker::Model;

/// The tables at the moment of the dump, with their version. It shares their rows, and is made without a
/// visit to any of them. The bytes are made for whoever asks, as often as they are asked for: out of memory
/// there changes nothing, and the dump stays.
#[derive(Drop)]
pub struct Dump<A: AllocHandle> {
    snapshot: Snapshot<A>,
}

impl<A: AllocHandle> Model for Dump<A> {
    ghost use Rattle.cap_database.specs.Snapshot.{SnapshotState};

    ghost Value = { SnapshotState A };

    ghost view = { λ d. d.snapshot };
}

impl<A: AllocHandle> Dump<A> {
    // The dump of these tables.
    pub(crate) fn new(snapshot: Snapshot<A>) -> Self
        ensures { result ≡ snapshot }
    {
        Dump { snapshot }
    }

    /// The tables, with their version.
    pub fn snapshot(&self) -> &Snapshot<A>
        ensures { result.now ≡ self.now }
    {
        &self.snapshot
    }

    /// The bytes of the changeset, with these key flags: a direct INSERT for each row that has a key, table
    /// by table in the order of their names, as `cap_dump::dump_all` has them.
    pub fn changeset_with(&self, alloc: A, key_flags: KeyFlags) -> Result<Vec<u8, A>, OutOfMemory>
        ensures { IfOk result (λ bytes. bytes.items ≡ dump_bytes key_flags self.now.database) }
    {
        dump_all(alloc, key_flags, self.snapshot.database())
    }
}
