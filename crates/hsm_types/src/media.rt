//! What a medium did wrong, and why a copy to one or a fetch from one was refused.
ghost use Rattle.std.specs.Prelude.{◌≡◌};
ghost use Rattle.hsm_types.specs.Media.{IsFault};
ghost use Rattle.hsm_types.specs.declared.media.Fault.TheVariants.{Damaged, Failed};

use crate::stubs::{Fingerprint, Place};
use std::fmt;
use std::marker::Model;
use thiserror::Error;

/// A fault at an object of a volume.
#[derive(Clone, Copy, Debug, PartialEq, Eq, Error)]
pub enum Fault {
    /// In a fetch the drive's count of faults rose from the one number to the other. It stops at the greatest `u64`.
    #[error("object {object} of volume {volume} can't be read: the drive's count of faults was {before} and is {after}")]
    Failed {
        volume: u32,
        object: u32,
        before: u64,
        after: u64,
    },
    /// The object's payload has another fingerprint than the one that was wanted.
    #[error("object {object} of volume {volume} has other bytes than those that were put there")]
    Damaged {
        volume: u32,
        object: u32,
        want: Fingerprint,
        got: Fingerprint,
    },
}

/// Why an access ends with a fault of a medium. Contracts see the fault, which is one: its count rose, or its fingerprints differ.
#[derive(Clone, Copy, Debug, PartialEq, Eq)]
pub struct MediaCause {
    fault: Fault,
}

impl Model for MediaCause {
    ghost use Rattle.hsm_types.specs.Media.{IsFault};
    ghost use Rattle.hsm_types.specs.declared.media.Fault.{Fault};

    ghost Value = { Fault };

    ghost view = { λ c. c.fault };

    ghost invariant = { λ c. IsFault c.fault };

    ghost inverse = { λ fault. record { fault = fault } };
}

impl MediaCause {
    /// The drive failed in a fetch of the object at that place.
    pub fn failed(place: Place, before: u64, after: u64) -> MediaCause
        requires { IsFault (Failed place.volume place.object before after) }
        ensures { result ≡ Failed place.volume place.object before after }
    {
        MediaCause {
            fault: Fault::Failed {
                volume: place.volume,
                object: place.object,
                before,
                after,
            },
        }
    }

    /// The payload of the object at that place has other bytes than those that were wanted.
    pub fn damaged(place: Place, want: Fingerprint, got: Fingerprint) -> MediaCause
        requires { IsFault (Damaged place.volume place.object want got) }
        ensures { result ≡ Damaged place.volume place.object want got }
    {
        MediaCause {
            fault: Fault::Damaged {
                volume: place.volume,
                object: place.object,
                want,
                got,
            },
        }
    }

    /// The fault.
    pub fn fault(&self) -> Fault
        ensures fault { result ≡ self.now }
        ensures lawful { IsFault result }
    {
        self.fault
    }
}

/// Why a segment was not copied to a volume. After `Failed`, `Damaged` and `Memory` the volume may have one object more.
#[derive(Clone, Copy, Debug, PartialEq, Eq, Error)]
pub enum CopyRefusal {
    /// The drive's count of faults rose from the one number to the other. It stops at the greatest `u64`.
    Failed { before: u64, after: u64 },
    /// The volume's objects have so many bytes, the new one's don't fit, and it may have no more than `capacity`.
    Full { used: u64, len: u64, capacity: u64 },
    /// What was read back has another fingerprint.
    Damaged { want: Fingerprint, got: Fingerprint },
    NoVolume,
    Memory,
}

impl fmt::Display for CopyRefusal {
    fn fmt<W: fmt::Write>(&self, f: &mut fmt::Formatter<W>) -> fmt::Result {
        match self {
            CopyRefusal::Failed { before, after } => {
                write!(f, "the drive's count of faults was {before} and is {after}")
            }
            CopyRefusal::Full {
                used,
                len,
                capacity,
            } => {
                write!(
                    f,
                    "volume full: {used} of {capacity} bytes are used, and the object has {len}"
                )
            }
            CopyRefusal::Damaged { .. } => f.write_str("what was read back isn't what was written"),
            CopyRefusal::NoVolume => f.write_str("no such volume"),
            CopyRefusal::Memory => f.write_str("no memory"),
        }
    }
}

/// Why a segment was not fetched from a volume.
#[derive(Clone, Copy, Debug, PartialEq, Eq, Error)]
pub enum FetchRefusal {
    #[error("media fault")]
    Media(MediaCause),
    #[error("no object {object} on volume {volume}")]
    NoObject { volume: u32, object: u32 },
    #[error("no memory")]
    Memory,
}
