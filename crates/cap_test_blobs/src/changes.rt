//! Tests of change lists: made, inverted, and made patches of, with refused memory.
ghost use Rattle.std.specs.Prelude.{◌≡◌, pos, [], ◌∷◌, true, false, IfOk};
ghost use Rattle.std.specs.Option.{option_copied, option_map};
ghost use Rattle.cap_value.specs.declared.value.Value.TheVariants.{Int, Text};

use crate::known::{DELETE, INSERT, UPDATE};
use crate::made::of_one;
use crate::refused::{Call, requests_refused};
use cap_changes::{ChangeList, PatchList, invert, is_changed, push_change_between, to_patches};
use cap_codec::{BlobFault, Contents, read_blob, write_changes, write_patches};
use cap_row::{Row, Schema};
use cap_value::{AllocHandle, Fault, OutOfMemory, Refusal, Value};
use std::alloc::Global;

fn key_and_value(alloc: Global) -> Result<Schema<Global>, Fault<Refusal>>
    ensures { IfOk result (λ schema. schema ≡ true ∷ false ∷ []) }
{
    Schema::new(alloc, &[true, false])
}

fn row(alloc: Global, text: &str) -> Result<Row<Global>, Fault<Refusal>>
    ensures { IfOk result (λ row. row ≡ Int (pos 1) ∷ Text text.now ∷ []) }
{
    Ok(pair(alloc, Value::Int(1), Value::text(alloc, text)?)?)
}

fn pair(alloc: Global, key: Value<Global>, value: Value<Global>) -> Result<Row<Global>, OutOfMemory>
    ensures { IfOk result (λ row. row ≡ key ∷ value ∷ []) }
{
    Row::new(vec![in alloc; key, value]?)
}

fn row_if_any(alloc: Global, text: Option<&str>) -> Result<Option<Row<Global>>, Fault<Refusal>>
    ensures { IfOk result (λ row.
        row ≡ option_map (λ bytes. Int (pos 1) ∷ Text bytes ∷ []) (option_copied text.entry)) }
{
    match text {
        None => Ok(None),
        Some(text) => Ok(Some(row(alloc, text)?)),
    }
}

// The bytes of the change of the row with key 1 from one text to another.
fn change(
    alloc: Global,
    image: Option<&str>,
    now: Option<&str>,
) -> Result<Option<Vec<u8>>, Fault<Refusal>> {
    let schema = key_and_value(alloc)?;
    let image = row_if_any(alloc, image)?;
    let now = row_if_any(alloc, now)?;
    if !is_changed(image.as_ref(), now.as_ref()) {
        return Ok(None);
    }
    let mut bytes = Vec::new(alloc);
    push_change_between(&mut bytes, &schema, true, image.as_ref(), now.as_ref())?;
    Ok(Some(bytes))
}

// Whether there is no change from one text to another.
fn is_none(alloc: Global, image: Option<&str>, now: Option<&str>) -> Result<bool, Fault<Refusal>> {
    Ok(change(alloc, image, now)?.is_none())
}

#[test]
fn none_where_nothing_changed(rt: HostRuntime) {
    assert!(rt; is_none(rt.alloc(), None, None) == Ok(true));
    assert!(rt; is_none(rt.alloc(), Some("x"), Some("x")) == Ok(true));
}

// Whether the change, which is indirect, is written as these bytes but for that.
fn is_change(
    alloc: Global,
    image: Option<&str>,
    now: Option<&str>,
    direct: &[u8],
) -> Result<bool, Fault<Refusal>> {
    let Some(change) = change(alloc, image, now)? else {
        return Ok(false);
    };
    let bytes = write_changes(alloc, &of_one(alloc, change.as_slice())?)?;
    Ok(
        bytes.get(..7) == direct.get(..7)
            && bytes.get(7) == Some(&1)
            && bytes.get(8..) == direct.get(8..),
    )
}

#[test]
fn row_made_changed_and_removed(rt: HostRuntime) {
    assert!(rt; is_change(rt.alloc(), None, Some("x"), &INSERT) == Ok(true));
    assert!(rt; is_change(rt.alloc(), Some("x"), Some("y"), &UPDATE) == Ok(true));
    assert!(rt; is_change(rt.alloc(), Some("x"), None, &DELETE) == Ok(true));
}

// The changeset that inserts the row (1, 'x'), updates it to (1, 'y') and deletes it, indirectly.
const CHANGES: [u8; 52] = [
    0x54, 2, 1, 0, 0x74, 0, 0x12, 1, 1, 0, 0, 0, 0, 0, 0, 0, 1, 3, 1, 0x78, 0x17, 1, 1, 0, 0, 0, 0,
    0, 0, 0, 1, 3, 1, 0x78, 0, 3, 1, 0x79, 0x09, 1, 1, 0, 0, 0, 0, 0, 0, 0, 1, 3, 1, 0x79,
];

// The same as a patchset.
const PATCHES: [u8; 45] = [
    0x50, 2, 1, 0, 0x74, 0, 0x12, 1, 1, 0, 0, 0, 0, 0, 0, 0, 1, 3, 1, 0x78, 0x17, 1, 1, 0, 0, 0, 0,
    0, 0, 0, 1, 3, 1, 0x79, 0x09, 1, 1, 0, 0, 0, 0, 0, 0, 0, 1,
];

// The changeset that takes each change back.
const INVERSE: [u8; 52] = [
    0x54, 2, 1, 0, 0x74, 0, 0x09, 1, 1, 0, 0, 0, 0, 0, 0, 0, 1, 3, 1, 0x78, 0x17, 1, 1, 0, 0, 0, 0,
    0, 0, 0, 1, 3, 1, 0x79, 0, 3, 1, 0x78, 0x12, 1, 1, 0, 0, 0, 0, 0, 0, 0, 1, 3, 1, 0x79,
];

fn changes<A: AllocHandle>(alloc: A) -> Result<ChangeList<A>, Fault<BlobFault>> {
    match read_blob(alloc, &CHANGES)? {
        Contents::Changes(list) => Ok(list),
        Contents::Patches(_list) => Err(Fault::OutOfMemory),
    }
}

// Whether the patches of the list are written as these bytes.
fn has_patches(alloc: Global, bytes: &[u8]) -> Result<bool, Fault<BlobFault>> {
    let patches = to_patches(alloc, &changes(alloc)?)?;
    Ok(write_patches(alloc, &patches)?.as_slice() == bytes)
}

// Whether the inverse of the list is written as these bytes.
fn has_inverse(alloc: Global, bytes: &[u8]) -> Result<bool, Fault<BlobFault>> {
    let inverse = invert(changes(alloc)?)?;
    Ok(write_changes(alloc, &inverse)?.as_slice() == bytes)
}

#[test]
fn patches_keep_key_and_new_values(rt: HostRuntime) {
    assert!(rt; has_patches(rt.alloc(), &PATCHES) == Ok(true));
}

#[test]
fn an_inverse_takes_each_change_back(rt: HostRuntime) {
    assert!(rt; has_inverse(rt.alloc(), &INVERSE) == Ok(true));
}

/// Reads a list, and makes its patches: whether they are of one table.
pub(crate) fn make_patches<A: AllocHandle>(alloc: A) -> Result<bool, Fault<BlobFault>> {
    Ok(to_patches(alloc, &changes(alloc)?)?.groups().len() == 1)
}

/// Reads a list, and makes its inverse: whether it is of one table.
pub(crate) fn make_inverse<A: AllocHandle>(alloc: A) -> Result<bool, Fault<BlobFault>> {
    Ok(invert(changes(alloc)?)?.groups().len() == 1)
}

// Each request for memory of an inverse is refused in turn, and the inverse is made once none is. None is
// spared but those of the reading.
#[test]
fn each_growth_of_an_inverse_refused(rt: HostRuntime) {
    let (read, spared) = requests_refused(rt.alloc(), Call::Read(&CHANGES));
    let (made, spared_then) = requests_refused(rt.alloc(), Call::MakeInverse);
    assert!(rt; 0 < read && read < made && spared == spared_then);
}

// The same of the patches.
#[test]
fn each_growth_refused(rt: HostRuntime) {
    let (read, spared) = requests_refused(rt.alloc(), Call::Read(&CHANGES));
    let (made, spared_then) = requests_refused(rt.alloc(), Call::MakePatches);
    assert!(rt; 0 < read && read < made && spared == spared_then);
}

fn assert_send_and_sync<T: Send + Sync>(_value: &T) {}

#[test]
fn lists_travel_between_threads(rt: HostRuntime) {
    assert_send_and_sync(&ChangeList::new(rt.alloc()));
    assert_send_and_sync(&PatchList::new(rt.alloc()));
}
