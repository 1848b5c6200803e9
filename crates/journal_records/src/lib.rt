//! The records of a journal: what an event changes of what a store keeps of its files beside their bytes, and how that is spelled.
//!
//! `spell` writes the text of a record into a buffer, `read` reads the record that stands at a place. It knows no catalog.
#![tactic(auto)]

mod fields;
mod laws;
mod reading;
mod records;
mod refusals;
mod spelling;

pub use fields::{
    OFFLINE, SEALED, attr_name_at, entry_in, name_at, regions_at, u8_at, u32_at, u64_at, value_at,
};
pub use laws::{one_list, one_record};
pub use reading::{read, read_all};
pub use records::{Places, Record, Records};
pub use refusals::{RecordRefusal, Unread};
pub use spelling::{size, spell, spell_region};
