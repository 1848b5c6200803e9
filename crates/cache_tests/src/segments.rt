//! Segments that are loaded over and over.

use crate::loading::{AT, BLOCKS, Outcome, load, made_disk};
use block_cache::BlockCache;
use disk_model::MemDisk;
use hsm_types::SEGMENT_BLOCKS;
use std::alloc::{AllocError, Global};

/// How many segments the disk has: two more than a cache has room for.
const SEGMENTS: u32 = BLOCKS / SEGMENT_BLOCKS as u32;

/// Loads a segment.
fn load_segment(cache: &mut BlockCache, disk: &mut MemDisk, segment: u32) -> bool {
    let first = segment % SEGMENTS * SEGMENT_BLOCKS as u32;
    let mut blocks = [0; SEGMENT_BLOCKS as usize];
    for index in 0..SEGMENT_BLOCKS as usize {
        blocks[index] = first + index as u32;
    }
    load(cache, disk, &blocks) == Outcome::Loaded
}

/// Loads segment 0 a thousand times.
fn load_again(cache: &mut BlockCache, disk: &mut MemDisk) -> bool {
    for _ in 0..1_000 {
        if !load_segment(cache, disk, 0) {
            return false;
        }
    }
    true
}

/// Loads one segment after the other, a thousand times.
fn load_others(cache: &mut BlockCache, disk: &mut MemDisk) -> bool {
    for segment in 0..1_000 {
        if !load_segment(cache, disk, segment) {
            return false;
        }
    }
    true
}

fn calls_of_again(alloc: Global) -> Result<Option<usize>, AllocError> {
    let mut cache = BlockCache::new(alloc, AT)?;
    let mut disk = made_disk(alloc)?;
    let loaded = load_again(&mut cache, &mut disk);
    Ok(loaded.then_some(disk.calls().len()))
}

fn calls_of_others(alloc: Global) -> Result<Option<usize>, AllocError> {
    let mut cache = BlockCache::new(alloc, AT)?;
    let mut disk = made_disk(alloc)?;
    let loaded = load_others(&mut cache, &mut disk);
    Ok(loaded.then_some(disk.calls().len()))
}

#[test]
fn a_segment_is_read_once(rt: HostRuntime) -> Result<(), AllocError> {
    assert!(rt; calls_of_again(rt.alloc())? == Some(1));
    Ok(())
}

#[test]
fn a_segment_that_is_gone_takes_one_call(rt: HostRuntime) -> Result<(), AllocError> {
    assert!(rt; calls_of_others(rt.alloc())? == Some(1_000));
    Ok(())
}
