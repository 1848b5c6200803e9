//! Objects on volumes: the copy of a segment as bytes that say whose it is, and how it is read back.
#![tactic(auto)]

mod laws;
mod objects;

pub use laws::{object_or_bad, one_reading, payload_follows, reads_back};
pub use objects::{BadObject, FRAME_BYTES, Object, read_object, write_object};
