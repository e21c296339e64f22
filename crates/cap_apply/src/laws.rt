//! Laws of applying captured changes, and of every blob. The functions do nothing at run time.
ghost use Rattle.std.specs.Prelude.{◌≡◌, ℕ, List, IfOk};
ghost use Rattle.cap_database.specs.Tables.{AreRising, Tables, schema_of};
ghost use Rattle.cap_codec.specs.declared.read.Contents.{Contents};
ghost use Rattle.cap_apply.specs.Apply.{apply};
ghost use Rattle.cap_apply.specs.Fitting.{FitsItsColumns};
ghost use Rattle.cap_apply.specs.declared.policy.Policy.{Policy};

use cap_codec::Contents;
use cap_value::AllocHandle;

/// A law of every blob: each group has a key column, and its changes fit its columns. The call does nothing.
pub fn blob_fits_its_columns<A: AllocHandle>(blob: &Contents<A>)
    ensures { FitsItsColumns blob.now }
{
    match blob {
        Contents::Changes(list) => list.groups_fit(),
        Contents::Patches(list) => list.groups_fit(),
    }
}

/// Applying any blob under any policy keeps the columns of each table.
#[tactic(auto, using(crate::proofs::StayLemmas::blob_columns))]
pub fn applied_blobs_keep_columns<A: AllocHandle>()
    ensures { (tables : Tables A) (blob : Contents A) (policy : Policy) → IfOk (apply tables blob policy)
        (λ left. (name : List ℕ) → schema_of left.database name ≡ schema_of tables name) }
{}

/// In a database whose names, keys and ids rise and whose rows are under their own keys, this still holds
/// after a blob whose changes fit the columns of their groups is applied.
#[tactic(auto, using(crate::proofs::OrderLemmas::apply_rises))]
pub fn applied_blobs_keep_order<A: AllocHandle>()
    ensures { (tables : Tables A) (blob : Contents A) (policy : Policy) → AreRising tables
        → FitsItsColumns blob → IfOk (apply tables blob policy) (λ left. AreRising left.database) }
{}
