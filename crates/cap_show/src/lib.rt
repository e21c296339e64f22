//! Prints values as text, and the content of a changeset or a patchset as text, as SQL and as JSON.
#![tactic(auto)]

mod json_text;
mod list;
mod sql;
mod text;

pub use json_text::{
    changeset_json, patchset_json, write_change_json, write_json_value, write_patch_json,
    write_text_member,
};
pub use list::{changeset_text, patchset_text};
pub use sql::{Identifier, changeset_sql, patchset_sql};
pub use text::{ChangeText, GroupText, PatchText, ValueText};
