//! Why a batch isn't written.
use thiserror::Error;

/// The batch doesn't fit into what is left of the journal, with the room for the next gate.
#[derive(Clone, Copy, Debug, PartialEq, Eq, Error)]
#[error("the journal is full")]
pub struct Full;

/// Why a batch was not committed: it doesn't fit into what is left of the journal, with the room for the next gate, or the disk
/// failed and its count of faults rose.
#[derive(Clone, Copy, Debug, PartialEq, Eq, Error)]
pub enum JournalRefusal {
    #[error("the journal is full")]
    Full,
    #[error("the disk failed")]
    Failed,
}
