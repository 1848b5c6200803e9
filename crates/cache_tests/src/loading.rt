//! Loads of blocks, how many calls of the disk they take, and what they answer where it fails.

use block_cache::{BlockCache, CacheRefusal, LOADED_BLOCKS, lie_on};
use disk_model::{Disk, FuseDisk, MemDisk};
use hsm_types::BLOCK_BYTES;
use std::alloc::{AllocError, Global};

/// Where block 0 lies on the disks here.
pub(crate) const AT: u64 = 512;

/// How many blocks the disks have.
pub(crate) const BLOCKS: u32 = 300;

/// What a load comes to.
#[derive(Clone, Copy, Debug, PartialEq, Eq)]
pub(crate) enum Outcome {
    Loaded,
    Failed,
    NoMemory,
    /// The blocks are too many, or don't lie on the disk.
    NotAsked,
}

/// The bytes of a disk, whose block n has bytes n modulo 251.
fn content(alloc: Global) -> Result<Vec<u8>, AllocError> {
    let mut bytes = vec![in alloc; 0; AT as usize]?;
    for block in 0..BLOCKS {
        bytes.extend_from_slice(&[(block % 251) as u8; BLOCK_BYTES as usize])?;
    }
    Ok(bytes)
}

/// A disk in memory with these.
pub(crate) fn made_disk(alloc: Global) -> Result<MemDisk, AllocError> {
    let bytes = content(alloc)?;
    MemDisk::new(alloc, bytes.as_slice(), &[])
}

pub(crate) fn load<D: Disk>(cache: &mut BlockCache, disk: &mut D, blocks: &[u32]) -> Outcome {
    if blocks.len() > LOADED_BLOCKS {
        return Outcome::NotAsked;
    }
    if !lie_on(cache.at(), disk.len(), blocks) {
        return Outcome::NotAsked;
    }
    match cache.load(disk, blocks) {
        Ok(()) => Outcome::Loaded,
        Err(CacheRefusal::Failed) => Outcome::Failed,
        Err(CacheRefusal::Memory) => Outcome::NoMemory,
    }
}

/// How many calls of the disk a load of these blocks takes. `None` where they aren't loaded.
pub(crate) fn calls_of(
    cache: &mut BlockCache,
    disk: &mut MemDisk,
    blocks: &[u32],
) -> Option<usize> {
    let before = disk.calls().len();
    if load(cache, disk, blocks) != Outcome::Loaded {
        return None;
    }
    Some(disk.calls().len().saturating_sub(before))
}

/// The same after a load of other ones.
fn calls_after(alloc: Global, before: &[u32], blocks: &[u32]) -> Result<Option<usize>, AllocError> {
    let mut cache = BlockCache::new(alloc, AT)?;
    let mut disk = made_disk(alloc)?;
    let _ = load(&mut cache, &mut disk, before);
    Ok(calls_of(&mut cache, &mut disk, blocks))
}

#[test]
fn neighbours_are_read_by_one_call(rt: HostRuntime) -> Result<(), AllocError> {
    let alloc = rt.alloc();
    assert!(rt; calls_after(alloc, &[0], &[3, 4, 5, 6])? == Some(1));
    assert!(rt; calls_after(alloc, &[0], &[3, 4, 6, 7])? == Some(2));
    assert!(rt; calls_after(alloc, &[0], &[9, 8, 7])? == Some(3));
    Ok(())
}

#[test]
fn what_is_there_is_not_read_again(rt: HostRuntime) -> Result<(), AllocError> {
    let alloc = rt.alloc();
    assert!(rt; calls_after(alloc, &[5], &[3, 4, 5, 6, 7])? == Some(2));
    assert!(rt; calls_after(alloc, &[3, 4, 5, 6], &[6, 3, 4])? == Some(0));
    assert!(rt; calls_after(alloc, &[3], &[4, 4, 3])? == Some(1));
    assert!(rt; calls_after(alloc, &[3, 4], &[])? == Some(0));
    Ok(())
}

/// What loads of block 3, 7 and then 3 again come to on a disk that fails after one call.
fn on_a_fuse(alloc: Global) -> Result<(Outcome, Outcome, Outcome), AllocError> {
    let mut cache = BlockCache::new(alloc, AT)?;
    let mut disk = FuseDisk::new(made_disk(alloc)?, 1);
    let first = load(&mut cache, &mut disk, &[3]);
    let second = load(&mut cache, &mut disk, &[7]);
    let third = load(&mut cache, &mut disk, &[3]);
    Ok((first, second, third))
}

#[test]
fn what_is_there_needs_no_disk(rt: HostRuntime) -> Result<(), AllocError> {
    let (first, second, third) = on_a_fuse(rt.alloc())?;
    assert!(rt; first == Outcome::Loaded && second == Outcome::Failed && third == Outcome::Loaded);
    Ok(())
}

/// Whether blocks that don't lie on a disk of three are told as such.
fn lie_as_told() -> bool {
    let end = AT + BLOCK_BYTES * 3;
    lie_on(AT, end, &[2, 0])
        && !lie_on(AT, end - 1, &[0, 2])
        && !lie_on(AT, end, &[3])
        && !lie_on(AT, 0, &[0])
        && lie_on(AT, 0, &[])
}

#[test]
fn a_caller_can_ask_what_lies_on_a_disk(rt: HostRuntime) {
    assert!(rt; lie_as_told());
}
