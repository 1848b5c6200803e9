//! Segments that are loaded into a cache, and their digests.
ghost use Rattle.std.specs.Prelude.{◌≤◌, length};
ghost use Rattle.block_cache.specs.Cached.{most_loaded};
ghost use Rattle.block_cache.specs.Lent.{AreCached};

use block_cache::{BlockCache, CacheRefusal, Parts, are_there, digest, lie_on};
use disk_model::{Disk, MemDisk};
use hsm_types::{Digest, SEGMENT_BLOCKS, SEGMENT_BYTES};
use sha2::Sha256;
use std::alloc::{AllocError, Global};
use thiserror::Error;

/// How many segments the disk has: one more than a cache has room for.
const SEGMENTS: u32 = 17;

/// Why nothing was measured.
#[derive(Clone, Copy, Debug, PartialEq, Eq, Error)]
pub(crate) enum Cause {
    #[error("not loaded: {0}")]
    NotLoaded(CacheRefusal),
    #[error("the disk is too short")]
    TooShort,
    #[error("no memory")]
    Memory,
}

impl From<AllocError> for Cause {
    fn from(_error: AllocError) -> Cause {
        Cause::Memory
    }
}

/// The bytes of all segments.
fn content(alloc: Global) -> Result<Vec<u8>, AllocError> {
    vec![in alloc; 7; SEGMENTS as usize * SEGMENT_BYTES as usize]
}

/// The blocks of a segment.
fn blocks_of(segment: u32) -> [u32; SEGMENT_BLOCKS as usize] {
    let first = segment % SEGMENTS * SEGMENT_BLOCKS as u32;
    let mut blocks = [0; SEGMENT_BLOCKS as usize];
    for index in 0..SEGMENT_BLOCKS as usize {
        blocks[index] = first + index as u32;
    }
    blocks
}

fn load<D: Disk>(cache: &mut BlockCache, disk: &mut D, segment: u32) -> Result<(), Cause> {
    let blocks = blocks_of(segment);
    if !lie_on(cache.at(), disk.len(), &blocks) {
        return Err(Cause::TooShort);
    }
    match cache.load(disk, &blocks) {
        Ok(()) => Ok(()),
        Err(why) => Err(Cause::NotLoaded(why)),
    }
}

/// An empty cache, and a disk for it.
fn made(alloc: Global) -> Result<(BlockCache, MemDisk), AllocError> {
    let cache = BlockCache::new(alloc, 0)?;
    let disk = MemDisk::new(alloc, content(alloc)?.as_slice(), &[])?;
    Ok((cache, disk))
}

/// Loads segment 0 so many times, where the step is 0, or each time the next one, where it is 1.
fn load_all(cache: &mut BlockCache, disk: &mut MemDisk, times: u32, step: u32) -> Result<(), Cause>
    requires { step ≤ 1 }
{
    for number in 0..times {
        load(cache, disk, number * step)?;
    }
    Ok(())
}

/// How many calls of a disk so many loads take, of a segment that is there.
pub(crate) fn calls_of_cached(alloc: Global, times: u32) -> Result<usize, Cause> {
    let (mut cache, mut disk) = made(alloc)?;
    let done = load(&mut cache, &mut disk, 0);
    let before = disk.calls().len();
    match done.and(load_all(&mut cache, &mut disk, times, 0)) {
        Ok(()) => Ok(disk.calls().len().saturating_sub(before)),
        Err(cause) => Err(cause),
    }
}

/// How many they take of segments that aren't there: each was loaded sixteen others before.
pub(crate) fn calls_of_others(alloc: Global, times: u32) -> Result<usize, Cause> {
    let (mut cache, mut disk) = made(alloc)?;
    match load_all(&mut cache, &mut disk, times, 1) {
        Ok(()) => Ok(disk.calls().len()),
        Err(cause) => Err(cause),
    }
}

/// The digest of a segment over the parts that a cache lends, made so many times.
fn digests(cache: &BlockCache, times: u32) -> Result<Digest, Cause> {
    let mut places = [None; SEGMENT_BLOCKS as usize];
    for index in 0..SEGMENT_BLOCKS as usize {
        places[index] = Some(index as u32);
    }
    if !are_there(cache, &places) {
        return Err(Cause::TooShort);
    }
    Ok(last_digest(cache, &places, times))
}

fn last_digest(cache: &BlockCache, places: &[Option<u32>], times: u32) -> Digest
    requires few { length places.now ≤ most_loaded }
    requires there { AreCached cache.now places.now }
{
    let mut last = Digest([0; 32]);
    for _ in 0..times {
        last = digest(Parts::new(cache, places, 0, SEGMENT_BYTES as u32));
    }
    last
}

/// Loads a segment, and makes its digest so many times.
pub(crate) fn digest_of_parts(alloc: Global, times: u32) -> Result<Digest, Cause> {
    let (mut cache, mut disk) = made(alloc)?;
    match load(&mut cache, &mut disk, 0) {
        Ok(()) => digests(&cache, times),
        Err(cause) => Err(cause),
    }
}

/// The digest of a segment in one slice, made so many times.
pub(crate) fn digest_of_slice(alloc: Global, times: u32) -> Result<Digest, Cause> {
    let bytes = vec![in alloc; 7; SEGMENT_BYTES as usize]?;
    let mut last = Digest([0; 32]);
    for _ in 0..times {
        last = Digest(<Sha256 as sha2::Digest>::digest(bytes.as_slice()));
    }
    Ok(last)
}
