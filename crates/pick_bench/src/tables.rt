//! Tables of files in the order of their inodes, with stamps in no order.

use hsm_types::{
    Digest, FileKey, FileRow, FileRows, Fingerprint, Handle, Place, SEGMENT_BLOCKS, SEGMENT_BYTES,
    Segment, Segments, StubEntry, Table,
};
use std::alloc::{AllocError, Global};

/// The entry of every segment that has one.
fn entry() -> StubEntry {
    let place = Place {
        volume: 0,
        object: 0,
    };
    let print = Fingerprint {
        len: SEGMENT_BYTES as u32,
        digest: Digest([0; 32]),
    };
    StubEntry::new(place, print)
}

/// A table of so many files of so many segments. All its blocks are told as used.
pub(crate) fn table(alloc: Global, files: u64, segments: u64) -> Result<Table, AllocError> {
    let mut rows = Vec::new(alloc);
    let mut stamp = 1;
    for number in 0..files {
        rows.push(row(alloc, number, stamp, segments)?)?;
        stamp = next(stamp);
    }
    Ok(Table {
        used: u64::MAX,
        total: u64::MAX,
        files: FileRows::from(rows),
    })
}

fn row(alloc: Global, number: u64, stamp: u64, segments: u64) -> Result<FileRow, AllocError> {
    let key = FileKey {
        ino: number,
        igen: 1,
    };
    Ok(FileRow {
        handle: Handle { fsid: 1, key },
        size: u64::MAX,
        stamp: stamp >> 33,
        segments: body(alloc, segments)?,
    })
}

/// In turn a resident segment, a sealed one, and one that is offline.
fn body(alloc: Global, segments: u64) -> Result<Segments, AllocError> {
    let mut body = Vec::new(alloc);
    for number in 0..segments {
        body.push(match number % 8 {
            0..6 => Segment::Resident {
                blocks: SEGMENT_BLOCKS,
            },
            6 => Segment::Sealed {
                blocks: SEGMENT_BLOCKS,
                entry: entry(),
            },
            _ => Segment::Offline { entry: entry() },
        })?;
    }
    Ok(Segments::from(body))
}

/// The next number of a sequence in no order.
fn next(number: u64) -> u64 {
    number
        .wrapping_mul(6_364_136_223_846_793_005)
        .wrapping_add(1_442_695_040_888_963_407)
}
