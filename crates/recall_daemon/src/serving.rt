//! What the machine waits for.

use crate::away::Away;
use daemon_session::Event;
use hsm_types::Sid;

/// What the machine waits for.
#[derive(Clone, Copy, Drop)]
pub(crate) enum Serving {
    /// Nothing, and it has no session.
    Outside,
    /// An answer on its way to a session.
    Entering,
    /// Nothing: a round has ended.
    Resting {
        sid: Sid,
    },
    /// Events.
    Asking {
        sid: Sid,
    },
    /// The right on the event's file.
    Requesting {
        sid: Sid,
        event: Event,
    },
    /// The size of the file.
    Measuring {
        sid: Sid,
        event: Event,
    },
    /// What is held of the segments of the file, which has that size.
    Mapping {
        sid: Sid,
        event: Event,
        size: u64,
    },
    /// The bytes of a segment that the access needs.
    Fetching {
        sid: Sid,
        event: Event,
        size: u64,
        away: Away,
    },
    /// That the segment has its bytes again.
    Restoring {
        sid: Sid,
        event: Event,
        size: u64,
        away: Away,
    },
    /// That the event is answered.
    Responding {
        sid: Sid,
        event: Event,
    },
}
