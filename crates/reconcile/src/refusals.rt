//! Why objects and entries were not counted.

use std::alloc::AllocError;
use thiserror::Error;

/// Why objects and entries were not counted.
#[derive(Clone, Copy, Debug, PartialEq, Eq, Error)]
pub enum ReconcileRefusal {
    /// One call of the drive that the volume is in failed.
    #[error("volume {volume} can't be read")]
    Failed { volume: u32 },
    #[error("no memory")]
    Memory,
}

impl From<AllocError> for ReconcileRefusal {
    ghost use Rattle.std.specs.Prelude.{◌≡◌};
    ghost use Rattle.reconcile.specs.declared.refusals.ReconcileRefusal.TheVariants.{Memory};

    ghost from_gives = { λ e why. why ≡ Memory };

    fn from(_error: AllocError) -> ReconcileRefusal {
        ReconcileRefusal::Memory
    }
}
