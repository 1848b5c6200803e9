//! The daemons of a store, what they do next, and what they hear of it.
ghost use Rattle.std.specs.Prelude.{◌≡◌};
ghost use Rattle.hsm_types.specs.Daemons.{information, kinds_of};

use crate::dm::{DmCall, DmReply, Kinds};
use crate::keys::{Handle, Sid};
use crate::media::{CopyRefusal, FetchRefusal};
use crate::stubs::{StubEntry, Verified};

/// A daemon of the store.
#[derive(Clone, Copy, PartialEq, Eq)]
pub enum Daemon {
    /// Brings the bytes of offline segments back, where an access needs them.
    Recall,
    /// Copies bytes to volumes, and makes room.
    Migrate,
}

impl Daemon {
    /// What its sessions are known by.
    pub fn information(self) -> &'static [u8]
        ensures { result.now ≡ information self }
    {
        match self {
            Daemon::Recall => b"HSMRECALL",
            Daemon::Migrate => b"HSMMIGRATE",
        }
    }

    /// The kinds of events that it takes.
    pub fn kinds(self) -> Kinds
        ensures { result ≡ kinds_of self }
    {
        match self {
            Daemon::Recall => Kinds {
                read: true,
                write: true,
                truncate: true,
                no_space: false,
            },
            Daemon::Migrate => Kinds {
                read: false,
                write: false,
                truncate: false,
                no_space: true,
            },
        }
    }
}

/// What a daemon does next.
#[derive(Drop)]
pub enum Act {
    /// Makes a call of that session, or of none where its id is 0.
    Dm(Sid, DmCall),
    /// Copies the bytes of a segment to a volume. They number from 1 to [`SEGMENT_BYTES`](crate::SEGMENT_BYTES).
    Copy {
        volume: u32,
        handle: Handle,
        segment: u32,
        bytes: Verified,
    },
    /// Fetches the bytes that the entry stands for.
    Fetch {
        entry: StubEntry,
    },
    /// Rests until something has happened.
    Idle,
}

/// What a daemon hears of what it did.
#[derive(Drop)]
pub enum Heard {
    /// That it was started, or may go on.
    Nothing,
    Dm(DmReply),
    /// The entry that stands for the copied bytes.
    Copied(Result<StubEntry, CopyRefusal>),
    /// The bytes, with the entry's fingerprint.
    Fetched(Result<Verified, FetchRefusal>),
}
