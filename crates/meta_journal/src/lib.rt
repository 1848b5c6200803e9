//! A journal on a disk: a list of batches of records, each behind a gate byte of its own. It knows the bytes of records alone.
//!
//! `MetaJournal::commit` writes a batch behind a closed gate and then opens the gate: at each moment a crash leaves the batches
//! from before, or one more. `scan` reads them back.
#![tactic(auto)]

mod frames;
mod gates;
mod journal;
mod laws;
mod lists;
mod refusals;
mod scanning;

pub use journal::MetaJournal;
pub use laws::one_reading;
pub use lists::{Batch, Batches, RecordBytes};
pub use refusals::{Full, JournalRefusal};
pub use scanning::scan;
