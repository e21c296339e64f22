//! What each refusal of a command means.

// The number and the name of each refusal, and a sentence.
pub(crate) static REFUSALS: [(&str, &str); 25] = [
    (
        "E1 TooLong",
        "a text or a blob has more than 1,000,000,000 bytes",
    ),
    ("E2 BadSchema", "a table has from 1 to 2,000 columns"),
    (
        "E3 WrongWidth",
        "the row has more or fewer values than the table has columns",
    ),
    (
        "E4 BadColumn",
        "the update sets a column that the table has not, or one twice; the first column is 0",
    ),
    ("E5 Duplicate", "another row has this primary key already"),
    ("E6 NoRow", "the table has no such row"),
    (
        "E7 IdsSpent",
        "the last number for a row without a key, 2^63 - 1, was given",
    ),
    ("E8 NoTable", "there is no table of this name"),
    ("E9 TableExists", "a table has this name already"),
    (
        "E10 TooMany",
        "this would be one more than the limit of tables, sessions, saved databases or operations",
    ),
    (
        "E11 Stale",
        "the commit was made on a version that is not the latest one, or its transaction looked at something that has changed",
    ),
    ("E12 BadFilter", "the filter is not written as filters are"),
    (
        "E13 TooDeep",
        "the filter has more than 32 levels or 1,000 nodes",
    ),
    (
        "E14 Incompatible",
        "the table that was saved is missing, or has other columns",
    ),
    (
        "E15 Aborted",
        "the policy answers this conflict with abort, so nothing of the blob was applied",
    ),
    (
        "E16 Misuse",
        "the policy answers a missing row with replace, and there is no row to replace",
    ),
    (
        "E17 BadName",
        "a name is empty, has more than 255 bytes, or has a zero byte",
    ),
    (
        "E18 NoSession",
        "no session has this number, or it was dropped",
    ),
    ("E19 NoDatabase", "no tables were saved under this name"),
    (
        "E20 NoMark",
        "the transaction has no such savepoint, or it was undone",
    ),
    (
        "E21 NoTransaction",
        "no transaction is open; begin opens one, but not on several threads",
    ),
    (
        "E22 InTransaction",
        "a transaction or an application is open already",
    ),
    (
        "E23 NoConflict",
        "no application stands at a conflict; applyeach opens one, but not on several threads",
    ),
    (
        "E24 Unanswered",
        "the application stands at a conflict, which omit, replace, abort or put answers",
    ),
    (
        "E25 OtherKey",
        "the row has another key than the change in whose place it is put",
    ),
];

// What is said of the refusal that this text names: its number and name, and a sentence.
pub(crate) fn refusal_in(text: &str) -> Option<(&'static str, &'static str)> {
    let at = place_of(text)?;
    REFUSALS.get(at).copied()
}

// The place in the table of the refusal that this text names.
fn place_of(text: &str) -> Option<usize> {
    for (at, (name, _)) in REFUSALS.iter().enumerate() {
        if text.contains(*name) {
            return Some(at);
        }
    }
    None
}

// The place in the table of the refusal that this line of a reply is, as text or as JSON.
pub(crate) fn refusal_of(line: &[u8]) -> Option<usize> {
    let text = str::from_utf8(line).ok()?;
    let is_json = text.starts_with("{\"line\":") && text.contains("\"reply\":\"refused\"");
    if is_json || text.starts_with("refused") {
        place_of(text)
    } else {
        None
    }
}
