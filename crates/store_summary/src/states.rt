//! How many segments are of each state.
ghost use Rattle.std.specs.Prelude.{◌≡◌, count_by};
ghost use Rattle.store_summary.specs.Shown.{is_resident, is_sealed, is_offline};

use hsm_types::{FileRow, Segment};

/// How many segments are of each state. With 128 bits no table has too many to count.
#[derive(Clone, Copy)]
pub(crate) struct StateCounts {
    pub(crate) resident: u128,
    pub(crate) sealed: u128,
    pub(crate) offline: u128,
}

impl StateCounts {
    ghost use Rattle.store_summary.specs.Shown.{states_of, all_segments};

    /// Of the segments of a file.
    pub(crate) fn of(segments: &[Segment]) -> StateCounts
        ensures { result ≡ states_of segments.now }
    {
        StateCounts {
            resident: resident(segments) as u128,
            sealed: sealed(segments) as u128,
            offline: offline(segments) as u128,
        }
    }

    /// Of the segments of all these files.
    pub(crate) fn of_all(files: &[FileRow]) -> StateCounts
        ensures { result ≡ states_of (all_segments files.now) }
    {
        let mut all = StateCounts {
            resident: 0,
            sealed: 0,
            offline: 0,
        };
        for file in files {
            let segments = file.segments.as_slice();
            all.resident += resident(segments) as u128;
            all.sealed += sealed(segments) as u128;
            all.offline += offline(segments) as u128;
        }
        all
    }
}

fn resident(segments: &[Segment]) -> usize
    ensures { result ≡ count_by is_resident segments.now }
{
    let resident = |s: &&Segment| matches!(s, Segment::Resident { .. });
    segments.iter().filter(resident).count()
}

fn sealed(segments: &[Segment]) -> usize
    ensures { result ≡ count_by is_sealed segments.now }
{
    let sealed = |s: &&Segment| matches!(s, Segment::Sealed { .. });
    segments.iter().filter(sealed).count()
}

fn offline(segments: &[Segment]) -> usize
    ensures { result ≡ count_by is_offline segments.now }
{
    let offline = |s: &&Segment| matches!(s, Segment::Offline { .. });
    segments.iter().filter(offline).count()
}
