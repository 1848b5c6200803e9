//! Why a call of the store wasn't done.
ghost use Rattle.std.specs.Prelude.{◌≡◌};
ghost use Rattle.snapshot_text.specs.Refusals.{refused_as, no_memory};

use hsm_types::DmRefusal;
use std::alloc::AllocError;
use thiserror::Error;

/// Why records weren't taken, or a commit wasn't done.
#[derive(Clone, Copy, Debug, PartialEq, Eq, Error)]
pub enum MetaRefusal {
    /// The part of a file that a record is about refuses it. Nothing has changed.
    #[error("{0}")]
    Part(DmRefusal),

    /// A call of the disk failed. The disk is used no more.
    #[error("the disk failed")]
    Disk,

    #[error("no memory")]
    Memory,
}

impl From<DmRefusal> for MetaRefusal {
    ghost from_gives = { λ why r. r ≡ refused_as why };

    fn from(why: DmRefusal) -> MetaRefusal {
        match why {
            DmRefusal::Memory => MetaRefusal::Memory,
            why => MetaRefusal::Part(why),
        }
    }
}

impl From<AllocError> for MetaRefusal {
    ghost from_gives = { λ _ r. r ≡ no_memory };

    fn from(_e: AllocError) -> MetaRefusal {
        MetaRefusal::Memory
    }
}
