//! What touches the regions of a file, and which segments one of them covers.
use hsm_types::{FIRST_LIMITS, Kind, Range, Region, Regions};
use managed_regions::ManagedRegions;
use std::alloc::Global;

/// The offset, the size and the flags of a region.
type Numbers = (u64, u64, u8);

/// Regions, the offset and the length of an access, its kind, and whether it touches one.
type Access = (&'static [Numbers], u64, u64, Kind, bool);

const FIVE: [Numbers; 1] = [(10, 5, 1)];

const EACH: [Numbers; 3] = [(0, 10, 1), (10, 10, 2), (20, 0, 4)];

static ACCESSES: [Access; 13] = [
    (&FIVE, 0, 10, Kind::Read, false),
    (&FIVE, 0, 11, Kind::Read, true),
    (&FIVE, 12, 0, Kind::Read, false),
    (&FIVE, 14, 1, Kind::Read, true),
    (&FIVE, 15, 1, Kind::Read, false),
    (&FIVE, 1, u64::MAX, Kind::Read, true),
    (&FIVE, u64::MAX, u64::MAX, Kind::Read, false),
    (&EACH, 9, 100, Kind::Read, true),
    (&EACH, 10, 100, Kind::Read, false),
    (&EACH, 9, 2, Kind::Write, true),
    (&EACH, 0, 10, Kind::Write, false),
    (&EACH, u64::MAX, 1, Kind::Truncate, true),
    (&EACH, 0, 20, Kind::Truncate, false),
];

/// Two that make a segment together, one that is a segment, and one that lacks a byte of it.
const PARTS: [Numbers; 4] = [
    (0, 32768, 7),
    (32768, 32768, 7),
    (65536, 65536, 7),
    (131072, 65535, 7),
];

const ENDLESS: [Numbers; 1] = [(65537, 0, 7)];

/// Regions, a segment, and whether one of them covers it.
static SEGMENTS: [(&[Numbers], u32, bool); 10] = [
    (&PARTS, 0, false),
    (&PARTS, 1, true),
    (&PARTS, 2, false),
    (&[(0, 0, 3)], 0, false),
    (&[(0, 0, 6)], 0, false),
    (&[(0, 0, 7)], 0, true),
    (&ENDLESS, 1, false),
    (&ENDLESS, 2, true),
    (&ENDLESS, 256, true),
    (&ENDLESS, u32::MAX, true),
];

fn regions_of(alloc: Global, all: &[Numbers]) -> Option<Regions> {
    let mut regions = Vec::new(alloc);
    for (offset, size, flags) in all {
        regions
            .push(Region {
                offset: *offset,
                size: *size,
                flags: *flags,
            })
            .ok()?;
    }
    Some(Regions::from(regions))
}

fn managed(alloc: Global, all: &[Numbers]) -> Option<ManagedRegions> {
    let regions = regions_of(alloc, all)?;
    let mut managed = ManagedRegions::new(alloc);
    managed.set(FIRST_LIMITS, regions).ok()?;
    Some(managed)
}

fn touches(alloc: Global, access: &Access) -> Option<bool> {
    let (regions, offset, len, kind, _) = access;
    let reach = Range {
        offset: *offset,
        len: *len,
    };
    Some(managed(alloc, regions)?.touches(reach, *kind))
}

#[test]
fn are_touched_by_the_kinds_of_their_flags(rt: HostRuntime) {
    for (place, access) in ACCESSES.iter().enumerate() {
        assert!(rt;
            touches(rt.alloc(), access) == Some(access.4),
            "row {place}"
        );
    }
}

fn covers(alloc: Global, regions: &[Numbers], segment: u32) -> Option<bool> {
    Some(managed(alloc, regions)?.covers(segment))
}

#[test]
fn cover_segments_alone_and_by_all_flags(rt: HostRuntime) {
    for (place, (regions, segment, want)) in SEGMENTS.iter().enumerate() {
        assert!(rt;
            covers(rt.alloc(), regions, *segment) == Some(*want),
            "row {place}"
        );
    }
}
