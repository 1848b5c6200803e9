//! What meets a region.
ghost use Rattle.std.specs.Prelude.{◌≡◌, ◌+◌};
ghost use Rattle.hsm_types.specs.Regions.{contains, is_flagged, meets};

use hsm_types::{
    ALL_FLAGS, Kind, REGION_READ, REGION_TRUNCATE, REGION_WRITE, Range, Region, SEGMENT_BYTES,
};

/// The end of so many bytes from an offset on.
pub fn end(offset: u64, len: u64) -> u128
    ensures { result ≡ offset + len }
{
    u128::from(offset) + u128::from(len)
}

/// Whether a byte of the range lies in the region.
pub fn meets(range: Range, region: Region) -> bool
    ensures { result ≡ meets range.offset range.len region }
{
    range.len > 0
        && u128::from(region.offset) < end(range.offset, range.len)
        && (region.size == 0 || u128::from(range.offset) < end(region.offset, region.size))
}

/// Whether the region manages accesses of that kind. Other events are of none.
pub fn is_flagged(kind: Kind, region: Region) -> bool
    ensures { result ≡ is_flagged kind region }
{
    match kind {
        Kind::Read => region.flags & REGION_READ != 0,
        Kind::Write => region.flags & REGION_WRITE != 0,
        Kind::Truncate => region.flags & REGION_TRUNCATE != 0,
        Kind::NoSpace | Kind::User => false,
    }
}

/// Whether the region manages all accesses to the whole segment.
pub fn contains(segment: u32, region: Region) -> bool
    ensures { result ≡ contains segment region }
{
    let start = u64::from(segment) * SEGMENT_BYTES;
    region.flags == ALL_FLAGS
        && region.offset <= start
        && (region.size == 0 || end(start, SEGMENT_BYTES) <= end(region.offset, region.size))
}
