//! Why a record wasn't read.
ghost use Rattle.std.specs.Prelude.{◌≡◌};
ghost use Rattle.journal_records.specs.declared.refusals.Unread.TheVariants.{Memory};

use std::alloc::{AllocError, AllocFailed};
use thiserror::Error;

/// Why the records of a batch weren't read.
#[derive(Clone, Copy, Debug, PartialEq, Eq, Error)]
pub enum RecordRefusal {
    /// No record stands at that place, counted from 0 in the bytes that were given.
    #[error("no record stands at byte {place} of the batch")]
    Bad { place: u64 },

    #[error("no memory")]
    Memory,
}

/// Why bytes weren't read as what they should be.
#[derive(Clone, Copy, PartialEq, Eq)]
pub enum Unread {
    /// They are the text of no such thing.
    Bad,
    Memory,
}

impl From<AllocError> for Unread {
    ghost from_gives = { λ _ e. e ≡ Memory };

    fn from(_e: AllocError) -> Unread {
        Unread::Memory
    }
}

impl<T: Drop> From<AllocFailed<T>> for Unread {
    ghost from_gives = { λ _ e. e ≡ Memory };

    fn from(_e: AllocFailed<T>) -> Unread {
        Unread::Memory
    }
}
