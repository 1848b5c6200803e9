//! What a caller of a cache can ask, where it doesn't know it.
ghost use Rattle.std.specs.Prelude.{◌≡◌, ◌↔◌, true};
ghost use Rattle.std.specs.List.{AllByRecursion};
ghost use Rattle.block_cache.specs.Cached.{LiesOn};
ghost use Rattle.block_cache.specs.Lent.{IsCached, AreCached};

use crate::cache::BlockCache;
use hsm_types::BLOCK_BYTES;

/// Whether the block lies on a disk of so many bytes, where block 0 lies at that byte.
fn lies_on(at: u64, len: u64, block: u32) -> bool
    ensures { (result ≡ true) ↔ LiesOn at len block }
{
    at <= len && u64::from(block) < (len - at) / BLOCK_BYTES
}

/// Whether all these blocks do.
pub fn lie_on(at: u64, len: u64, blocks: &[u32]) -> bool
    ensures { (result ≡ true) ↔ AllByRecursion (λ b. LiesOn at len b) blocks.now }
{
    for block in blocks {
        if !lies_on(at, len, *block) {
            return false;
        }
    }
    true
}

/// Whether the block at this place is in the cache. A hole is anyway.
fn is_there(cache: &BlockCache, place: Option<u32>) -> bool
    ensures { (result ≡ true) ↔ IsCached cache.now place }
{
    match place {
        Some(block) => cache.peek(block).is_some(),
        None => true,
    }
}

/// Whether the blocks at all these places are in the cache. Holes are anyway.
pub fn are_there(cache: &BlockCache, places: &[Option<u32>]) -> bool
    ensures { (result ≡ true) ↔ AreCached cache.now places.now }
{
    for place in places {
        if !is_there(cache, *place) {
            return false;
        }
    }
    true
}
