//! The fields of records as bytes, and back (The Session Extension, "Changeset Format"): varints, values, and
//! the faults of malformed ones.
#![tactic(auto)]

mod fault;
mod field;
mod reading;
mod stored;
mod value_ref;
mod varint;

pub use fault::{BlobFault, FaultKind};
pub use field::{
    BLOB, INTEGER, NULL, REAL, TEXT, UNDEFINED, int_field, push_blob, push_int, push_null,
    push_text, push_value,
};
pub use reading::{
    place_of, take_byte, take_bytes, take_number, take_sized, take_text, take_varint, text_in,
};
pub use stored::stored_value;
pub use value_ref::ValueRef;
pub use varint::push_varint;
