//! Which segments an access needs.
ghost use Rattle.std.specs.Prelude.{Contains, Decides, MatchOption};
ghost use Rattle.hsm_types.specs.Segments.{segments_met, segment_around};
ghost use Rattle.recall_daemon.specs.Known.{needed_by, Needs, NoneNeeded};

use crate::away::Away;
use daemon_session::Event;
use hsm_types::{Kind, SEGMENT_BYTES};

/// Whether the range from the first byte up to the second meets the segment.
fn meets(from: u64, to: u64, segment: u32) -> bool
    ensures { Decides result (Contains (segments_met from to) segment) }
{
    let number = u64::from(segment);
    if to <= from {
        return false;
    }
    if number < from / SEGMENT_BYTES {
        return false;
    }
    number * SEGMENT_BYTES < to
}

/// Whether the place is strictly inside the segment.
fn is_around(place: u64, segment: u32) -> bool
    ensures { Decides result (Contains (segment_around place) segment) }
{
    place % SEGMENT_BYTES != 0 && place / SEGMENT_BYTES == u64::from(segment)
}

/// Whether the access of the event needs the segment, where that is away, of a file of that size.
pub(crate) fn is_needed(event: &Event, size: u64, segment: u32) -> bool
    ensures { Decides result (Contains (needed_by event.now size) segment) }
{
    let end = event.offset.saturating_add(event.length);
    match event.kind {
        Kind::Read => meets(event.offset, end.min(size), segment),
        Kind::Write => meets(event.offset.min(size), end, segment),
        Kind::Truncate => event.offset != size && is_around(event.offset.min(size), segment),
        Kind::NoSpace | Kind::User => false,
    }
}

/// The first of the segments away that the access of the event needs.
pub(crate) fn first_needed(event: &Event, size: u64, away: &[Away]) -> Option<Away>
    ensures { MatchOption result (NoneNeeded event.now size away.now) (λ a. Needs event.now size away.now a) }
{
    for one in away {
        if is_needed(event, size, one.segment) {
            return Some(*one);
        }
    }
    None
}
