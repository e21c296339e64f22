//! Laws of dumps, over the definitions alone. The functions do nothing at run time.
ghost use Rattle.std.specs.Prelude.{◌≡◌, ◌≤◌, ◌∷◌, ◌++◌, [], All, List, Ok, length, ℕ};
ghost use Rattle.cap_table.specs.Table.{TableState};
ghost use Rattle.cap_database.specs.Tables.{AreRising, EachRises, Tables};
ghost use Rattle.cap_codec.specs.BlobReading.{blob_at};
ghost use Rattle.cap_codec.specs.declared.key_flags.KeyFlags.{KeyFlags};
ghost use Rattle.cap_codec.specs.declared.read.Contents.TheVariants.{Changes};
ghost use Rattle.cap_dump.specs.Dump.{AreHeldWhole, dump, dump_bytes, keyed_parts};
ghost use Rattle.cap_dump.specs.Limits.{HasLimits};
ghost use Rattle.cap_dump.specs.Load.{load};

use cap_value::AllocHandle;

/// The dumps of tables, one behind the other, are read as one changeset with the groups of each, those
/// without changes too.
pub fn dumps_are_read_again<A: AllocHandle>()
    ensures read { (key_flags : KeyFlags) (tables : Tables A) → EachRises tables → All HasLimits tables
        → blob_at (dump_bytes key_flags tables) ≡ Ok (Changes (dump tables)) }
    ensures each { (key_flags : KeyFlags) (first : List ℕ × TableState A) (others : Tables A)
        → dump_bytes key_flags (first ∷ others)
        ≡ dump_bytes key_flags (first ∷ []) ++ dump_bytes key_flags others }
{}

/// What is dumped of all tables and loaded into a database without tables gives what a changeset can hold of
/// each table, and the same tables where it holds each whole.
pub fn dumps_are_loaded_again<A: AllocHandle>()
    ensures parts { (tables : Tables A) → AreRising tables → length tables ≤ 64
        → load [] (Changes (dump tables)) ≡ Ok (keyed_parts tables) }
    ensures whole { (tables : Tables A) → AreHeldWhole tables → keyed_parts tables ≡ tables }
{
    cap_apply::laws::applied_blobs_keep_order::<A>();
}
