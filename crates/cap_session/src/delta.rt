//! What is added to sessions, before it is published.
ghost use Rattle.std.specs.Prelude.{◌≡◌, ◌<◌, ◌∷◌, [], None, Some, drop, length, nat_eq, slice_get};
ghost use Rattle.std.specs.Prelude.{OnOk};
ghost use Rattle.std.specs.Map.{values_of};
ghost use Rattle.std.specs.List.{position};
ghost use Rattle.std.specs.Option.{option_copied};
ghost use Rattle.cap_session.specs.Code.Added.{AreReserved, Makes};
ghost use Rattle.cap_session.specs.Delta.{changed_at};
ghost use Rattle.cap_session.specs.Recording.{touch_table, touch_tables, touches_of};
ghost use Rattle.cap_session.specs.Records.{touch};
ghost use Rattle.cap_session.specs.Session.{AttachedTables};

use crate::Records;
use crate::tables::{Tables, is_indirect};
use crate::touch::{new_record, touch};
use cap_database::Change;
use cap_row::{Key, Row};
use cap_value::{AllocHandle, Name, OutOfMemory};

// All tables of sessions, each with the index of its session.
pub(crate) type Renewed<A> = Vec<(usize, Tables<A>), A>;

// The records of touched tables, each with the index of its session and that of its table. Those of a session
// stand together.
pub(crate) type Touched<A> = Vec<(usize, (usize, Records<A>)), A>;

/// What a commit or a diff adds to sessions, with all the memory that it takes. `Sessions::publish` moves it
/// into them.
pub struct Delta<A: AllocHandle> {
    // Of sessions that attach a table.
    pub(crate) renewed: Renewed<A>,
    // Of the others.
    pub(crate) touched: Touched<A>,
}

// A derived `Drop` would be opened in each caller's loop.
impl<A: AllocHandle> Drop for Delta<A> {
    fn drop(self) {
        let Delta {
            renewed: _,
            touched: _,
        } = self;
    }
}

impl<A: AllocHandle> Delta<A> {
    // Nothing. Takes no memory.
    pub(crate) fn nothing(alloc: A) -> Self
        ensures { (result.renewed.items ≡ []) × (result.touched.items ≡ []) }
    {
        Delta {
            renewed: Vec::new(alloc),
            touched: Vec::new(alloc),
        }
    }

    pub(crate) fn into_parts(self) -> (Renewed<A>, Touched<A>)
        ensures { (result.0.items ≡ self.renewed.items) × (result.1.items ≡ self.touched.items) }
    {
        let Delta { renewed, touched } = self;
        (renewed, touched)
    }
}

// A session, while records of its tables are put behind those of others.
#[derive(Drop)]
struct Place {
    // Its index.
    session: usize,
    // The index of its first records.
    start: usize,
    // The number of sessions from here on.
    room: usize,
}

// Puts the records after the touches by the changes of a commit behind those of other sessions. The tables
// stay.
pub(crate) fn reserve_touches<A: AllocHandle>(
    touched: &mut Touched<A>,
    session: usize,
    room: usize,
    tables: &mut Tables<A>,
    indirect: bool,
    changes: &[Change<A>],
) -> Result<(), OutOfMemory>
    ensures kept { tables.new.entries ≡ tables.old.entries }
    ensures touched { OnOk result (AreReserved session tables.old.entries
        (touch_tables indirect changes.now tables.old.entries) touched.old.items touched.new.items) }
{
    let place = Place {
        session,
        start: touched.len(),
        room,
    };
    for change in changes {
        touch_by(touched, &place, tables, indirect, change)?;
    }
    Ok(())
}

// The touch by a change, if its row has a key.
#[inline(always)]
fn touch_by<A: AllocHandle>(
    touched: &mut Touched<A>,
    place: &Place,
    tables: &mut Tables<A>,
    indirect: bool,
    change: &Change<A>,
) -> Result<(), OutOfMemory>
    ensures kept { tables.new.entries ≡ tables.old.entries }
    ensures touched { OnOk result (Makes place.now.start place.now.session tables.old.entries
        (touch_table change.now.table (touches_of indirect change.now.table (change.now ∷ [])))
        touched.old.items touched.new.items) }
{
    match &change.key {
        Some(key) => {
            let indirect = is_indirect(indirect, change.cause);
            let image = change.before.as_ref();
            touch_named(touched, place, tables, &change.table, key, image, indirect)
        }
        None => Ok(()),
    }
}

// A touch of a key of the table of this name, if it is there.
#[inline(always)]
fn touch_named<A: AllocHandle>(
    touched: &mut Touched<A>,
    place: &Place,
    tables: &mut Tables<A>,
    name: &Name<A>,
    key: &Key<A>,
    image: Option<&Row<A>>,
    indirect: bool,
) -> Result<(), OutOfMemory>
    ensures kept { tables.new.entries ≡ tables.old.entries }
    ensures touched { OnOk result (Makes place.now.start place.now.session tables.old.entries
        (touch_table name.now (record {
          key = key.now;
          image = option_copied image.entry;
          indirect = indirect;
        } ∷ [])) touched.old.items touched.new.items) }
{
    match tables.get_index_of(name) {
        Some(table) => touch_at(touched, place, tables, table, key, image, indirect),
        None => Ok(()),
    }
}

// The same of the table at this index.
#[inline(always)]
#[tactic(auto, using(crate::proofs::PlaceLemmas::set_same))]
fn touch_at<A: AllocHandle>(
    touched: &mut Touched<A>,
    place: &Place,
    tables: &mut Tables<A>,
    table: usize,
    key: &Key<A>,
    image: Option<&Row<A>>,
    indirect: bool,
) -> Result<(), OutOfMemory>
    requires there { table < length tables.old.entries }
    ensures kept { tables.new.entries ≡ tables.old.entries }
    ensures touched { OnOk result (Makes place.now.start place.now.session tables.old.entries
        (changed_at table (λ own. (
          own.0,
          touch own.1 (record {
            key = key.now;
            image = option_copied image.entry;
            indirect = indirect;
          }),
        ))) touched.old.items touched.new.items) }
{
    match index_of(touched, place.start, table) {
        Some(index) => {
            let (_, (_, records)) = &mut touched[place.start + index];
            touch(records, key, image, indirect)
        }
        None => reserve_record(
            touched,
            place,
            table,
            &mut tables[table],
            key,
            image,
            indirect,
        ),
    }
}

// The same where none are there of that table, which has these records.
#[inline(always)]
fn reserve_record<A: AllocHandle>(
    touched: &mut Touched<A>,
    place: &Place,
    table: usize,
    records: &mut Records<A>,
    key: &Key<A>,
    image: Option<&Row<A>>,
    indirect: bool,
) -> Result<(), OutOfMemory>
    requires none { position (λ own. nat_eq table own.1.0) (drop place.now.start touched.old.items) ≡ None }
    ensures kept { records.new ≡ records.old }
    ensures touched { OnOk result ((tables : AttachedTables A)
        → slice_get (values_of tables) table ≡ Some records.old
        → Makes place.now.start place.now.session tables (changed_at table (λ own. (
          own.0,
          touch own.1 (record {
            key = key.now;
            image = option_copied image.entry;
            indirect = indirect;
          }),
        ))) touched.old.items touched.new.items) }
{
    if let Some(record) = new_record(records, key, image, indirect)? {
        touched.reserve(place.room)?;
        touched.push((place.session, (table, records.with(key.copy()?, record)?)))?;
    }
    Ok(())
}

// The index of the records of the table at this index, from the start on.
fn index_of<A: AllocHandle>(
    touched: &[(usize, (usize, Records<A>))],
    start: usize,
    table: usize,
) -> Option<usize>
    ensures { result ≡ position (λ own. nat_eq table own.1.0) (drop start touched.now) }
{
    let (_, own) = touched.split_at_checked(start)?;
    own.iter().position(|own| table == own.1.0)
}
