//! Segments that are copied to volumes, and fetched.
ghost use Rattle.std.specs.Prelude.{◌≡◌, IfOk, length};

use hsm_types::{
    Bytes, CopyRefusal, FetchRefusal, FileKey, Handle, SEGMENT_BYTES, StubEntry, Verified,
};
use media_model::{Drive, LONGEST_OBJECT};
use std::alloc::{AllocError, Global};
use thiserror::Error;
use volume_shelf::{copy, fetch};

/// How many bytes the objects of a volume may have together.
pub(crate) const CAPACITY: u64 = 67_108_864;

/// How many volumes there are.
pub(crate) const VOLUMES: u32 = 8;

/// How many drives share the volumes, which go round them.
pub(crate) const DRIVES: u32 = 2;

/// How many copies of whole segments a volume has room for.
const COPIES: u32 = 1022;

const _: () = prove!(COPIES as u64 == CAPACITY / LONGEST_OBJECT as u64);

const FILE: Handle = Handle {
    fsid: 1,
    key: FileKey { ino: 1, igen: 1 },
};

/// Why not all segments came back.
#[derive(Clone, Copy, Debug, PartialEq, Eq, Error)]
pub(crate) enum Cause {
    #[error("usage: shelf_bench DIR N")]
    Words,
    #[error("no copy of segment {segment}: {why}")]
    NotCopied { segment: u32, why: CopyRefusal },
    #[error("not fetched: {0}")]
    NotFetched(FetchRefusal),
    #[error("no drive {number}")]
    NoDrive { number: u32 },
    #[error("no memory")]
    Memory,
}

impl From<AllocError> for Cause {
    fn from(_error: AllocError) -> Cause {
        Cause::Memory
    }
}

/// Copies so many segments, each to the first volume that has room, and then fetches each of them.
pub(crate) fn copy_and_fetch<D: Drive>(
    alloc: Global,
    drives: &mut [D],
    segments: u32,
) -> Result<(), Cause> {
    let mut entries = Vec::new(alloc);
    for segment in 0..segments {
        let entry = copied(alloc, drives, segment)?;
        entries.push(entry).map_err(AllocError::from)?;
    }
    fetch_all(alloc, drives, &entries)
}

fn copied<D: Drive>(alloc: Global, drives: &mut [D], segment: u32) -> Result<StubEntry, Cause> {
    let volume = segment / COPIES;
    let bytes = bytes_of(alloc, segment)?;
    match copy(
        alloc,
        drive_of(drives, volume)?,
        volume,
        &FILE,
        segment,
        &bytes,
    ) {
        Ok(entry) => Ok(entry),
        Err(why) => Err(Cause::NotCopied { segment, why }),
    }
}

fn fetch_all<D: Drive>(
    alloc: Global,
    drives: &mut [D],
    entries: &[StubEntry],
) -> Result<(), Cause> {
    for entry in entries {
        fetched(alloc, drives, entry)?;
    }
    Ok(())
}

fn fetched<D: Drive>(alloc: Global, drives: &mut [D], entry: &StubEntry) -> Result<(), Cause> {
    match fetch(alloc, drive_of(drives, entry.place().volume)?, entry) {
        Ok(_bytes) => Ok(()),
        Err(why) => Err(Cause::NotFetched(why)),
    }
}

/// The drive that has the volume.
fn drive_of<D: Drive>(drives: &mut [D], volume: u32) -> Result<&mut D, Cause> {
    let number = volume % DRIVES;
    drives
        .get_mut(number as usize)
        .ok_or(Cause::NoDrive { number })
}

/// The bytes of a segment, which begin with its number.
fn bytes_of(alloc: Global, segment: u32) -> Result<Verified, AllocError>
    ensures { IfOk result (λ bytes. length bytes ≡ SEGMENT_BYTES) }
{
    let mut bytes = vec![in alloc; (segment % 251) as u8; SEGMENT_BYTES as usize]?;
    bytes[..4].copy_from_slice(&segment.to_be_bytes());
    Ok(Verified::of(Bytes::from(bytes)))
}
