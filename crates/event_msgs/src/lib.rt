//! Messages in a buffer, as sessions get them: how they are packed, and how they are read back.
#![tactic(auto)]

mod laws;
mod message_view;
mod packing;
mod reading;
mod unpacking;
mod writing;

pub use laws::{one_place, one_reading, packed_or_bad, parts_stand, reads_back};
pub use message_view::View;
pub use packing::{PackRefusal, pack, pack_one};
pub use unpacking::{BadMessage, MessageViews, messages, views};
