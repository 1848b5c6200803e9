//! Which blocks a cache keeps, and their bytes.
ghost use Rattle.std.specs.Prelude.{◌≤◌};

use crate::loading::{AT, Outcome, load, made_disk};
use block_cache::{BlockCache, LOADED_BLOCKS};
use disk_model::MemDisk;
use hsm_types::BLOCK_BYTES;
use std::alloc::{AllocError, Global};

/// Loads the 32 blocks from that one on.
fn load_run(cache: &mut BlockCache, disk: &mut MemDisk, first: u32) -> bool
    requires { first ≤ 1000 }
{
    let mut blocks = [0; LOADED_BLOCKS];
    for index in 0..LOADED_BLOCKS {
        blocks[index] = first + index as u32;
    }
    load(cache, disk, &blocks) == Outcome::Loaded
}

/// Loads the blocks 0 to 255, 32 at a time.
fn fill(cache: &mut BlockCache, disk: &mut MemDisk) -> bool {
    for run in 0..8 {
        if !load_run(cache, disk, 32 * run) {
            return false;
        }
    }
    true
}

/// Whether the cache has the block, with its bytes.
fn shows(cache: &BlockCache, block: u32) -> bool {
    match cache.peek(block) {
        Some(bytes) => bytes == [(block % 251) as u8; BLOCK_BYTES as usize].as_slice(),
        None => false,
    }
}

/// Whether it has all of these, and none of those.
fn shows_just(cache: &BlockCache, these: &[u32], those: &[u32]) -> bool {
    for block in these {
        if !shows(cache, *block) {
            return false;
        }
    }
    for block in those {
        if cache.peek(*block).is_some() {
            return false;
        }
    }
    true
}

/// A cache with the blocks 0 to 255, into which these are loaded then.
fn filled(alloc: Global, blocks: &[u32]) -> Result<Option<BlockCache>, AllocError> {
    let mut cache = BlockCache::new(alloc, AT)?;
    let mut disk = made_disk(alloc)?;
    let full = fill(&mut cache, &mut disk);
    let loaded = load(&mut cache, &mut disk, blocks) == Outcome::Loaded;
    Ok((full && loaded).then_some(cache))
}

fn keeps(alloc: Global, blocks: &[u32], these: &[u32], those: &[u32]) -> Result<bool, AllocError> {
    match filled(alloc, blocks)? {
        Some(cache) => Ok(shows_just(&cache, these, those)),
        None => Ok(false),
    }
}

#[test]
fn the_blocks_used_last_stay(rt: HostRuntime) -> Result<(), AllocError> {
    let alloc = rt.alloc();
    assert!(rt; keeps(alloc, &[], &[0, 1, 128, 255], &[256])?);
    assert!(rt; keeps(alloc, &[256, 257], &[2, 3, 256, 257], &[0, 1])?);
    assert!(rt; keeps(alloc, &[1, 256, 257], &[1, 3, 257], &[0, 2])?);
    Ok(())
}

/// Whether a block is gone that was forgotten, and no other.
fn forgets(alloc: Global) -> Result<bool, AllocError> {
    let Some(mut cache) = filled(alloc, &[])? else {
        return Ok(false);
    };
    cache.forget(7);
    cache.forget(270);
    Ok(shows_just(&cache, &[0, 6, 8, 255], &[7]))
}

#[test]
fn a_block_is_forgotten_alone(rt: HostRuntime) -> Result<(), AllocError> {
    assert!(rt; forgets(rt.alloc())?);
    Ok(())
}
