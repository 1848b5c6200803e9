//! Why a run did not end well.
ghost use Rattle.std.specs.Prelude.{◌≡◌};
ghost use Rattle.hsm_cli.specs.Statuses.{status_of, place_of, cause_of_refusal, cause_of_host, cause_of_classes};

use disk_model::OpenRefusal;
use hosts::HostRefusal;
use reconcile::ReconcileRefusal;
use std::alloc::AllocError;
use thiserror::Error;

/// Why a run did not end well. Its text is what standard error says of it.
#[derive(Clone, Copy, Debug, PartialEq, Eq, Error)]
pub enum Cause {
    /// The first line, from 1, that is none of a script, or passes a limit.
    #[error("hsm: script refused at line {line}")]
    ScriptRefused { line: u64 },
    #[error("hsm: words refused")]
    WordsRefused,
    #[error("hsm: not a store")]
    NotStore,
    /// The offset on the disk of what isn't valid.
    #[error("hsm: corrupt at {place}")]
    Corrupt { place: u64 },
    #[error("hsm: read fault")]
    ReadFault,
    #[error("hsm: write fault")]
    WriteFault,
    #[error("hsm: disk fault")]
    DiskFault,
    #[error("hsm: host fault")]
    HostFault,
    #[error("hsm: no memory")]
    NoMemory,
}

impl Cause {
    /// The status with which the program ends.
    pub fn status(cause: Option<Cause>) -> u8
        ensures { result ≡ status_of cause }
    {
        match cause {
            None => 0,
            Some(Cause::ScriptRefused { .. }) => 1,
            Some(Cause::WordsRefused) => 2,
            Some(Cause::NotStore | Cause::Corrupt { .. }) => 3,
            Some(Cause::ReadFault) => 4,
            Some(Cause::WriteFault) => 5,
            Some(Cause::DiskFault) => 6,
            Some(Cause::HostFault) => 7,
            Some(Cause::NoMemory) => 8,
        }
    }

    /// The line or the place that is told with it, or 0.
    pub fn place(cause: Option<Cause>) -> u64
        ensures { result ≡ place_of cause }
    {
        match cause {
            Some(Cause::ScriptRefused { line }) => line,
            Some(Cause::Corrupt { place }) => place,
            _ => 0,
        }
    }
}

impl From<OpenRefusal> for Cause {
    ghost from_gives = { λ refusal cause. cause ≡ cause_of_refusal refusal };

    fn from(refusal: OpenRefusal) -> Cause {
        match refusal {
            OpenRefusal::NotStore => Cause::NotStore,
            OpenRefusal::Corrupt { place } => Cause::Corrupt { place },
            OpenRefusal::Disk => Cause::DiskFault,
            OpenRefusal::Memory => Cause::NoMemory,
        }
    }
}

impl From<HostRefusal> for Cause {
    ghost from_gives = { λ refusal cause. cause ≡ cause_of_host refusal };

    fn from(refusal: HostRefusal) -> Cause {
        match refusal {
            HostRefusal::Failed => Cause::HostFault,
            HostRefusal::Memory => Cause::NoMemory,
        }
    }
}

impl From<ReconcileRefusal> for Cause {
    ghost from_gives = { λ refusal cause. cause ≡ cause_of_classes refusal };

    fn from(refusal: ReconcileRefusal) -> Cause {
        match refusal {
            ReconcileRefusal::Failed { volume: _ } => Cause::HostFault,
            ReconcileRefusal::Memory => Cause::NoMemory,
        }
    }
}

impl From<AllocError> for Cause {
    ghost use Rattle.hsm_cli.specs.declared.causes.Cause.TheVariants.{NoMemory};

    ghost from_gives = { λ error cause. cause ≡ NoMemory };

    fn from(_error: AllocError) -> Cause {
        Cause::NoMemory
    }
}
