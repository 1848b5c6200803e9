//! Which segments are away.
ghost use Rattle.std.specs.Prelude.{◌≡◌, IfOk};
ghost use Rattle.recall_daemon.specs.Known.{away_at, away_in};

use hsm_types::{Segment, StubEntry};
use std::alloc::{AllocError, Global};

/// A segment whose bytes are away, and where their copy lies.
#[derive(Clone, Copy, PartialEq, Eq)]
pub struct Away {
    pub segment: u32,
    pub entry: StubEntry,
}

/// The segment of that number, where its bytes are away.
fn away_at(number: usize, segment: &Segment) -> Option<Away>
    ensures { result ≡ away_at (number, segment.now) }
{
    match segment {
        Segment::Offline { entry } if number <= u32::MAX as usize => Some(Away {
            segment: number as u32,
            entry: *entry,
        }),
        _ => None,
    }
}

/// Those of the segments whose bytes are away.
pub(crate) fn away_in(alloc: Global, segments: &[Segment]) -> Result<Vec<Away>, AllocError>
    ensures { IfOk result (λ away. away.items ≡ away_in segments.now) }
{
    let numbered = segments.iter().enumerate();
    numbered
        .filter_map(|(number, segment)| away_at(number, segment))
        .collect(alloc)
}
