//! The parts of a run of bytes, lent by a cache.
ghost use Rattle.std.specs.Prelude.{◌≡◌, ◌-◌, ◌<◌, ◌≤◌, length, take, drop};
ghost use Rattle.hsm_types.specs.Limits.{block_bytes};
ghost use Rattle.block_cache.specs.Lent.{AreCached};

use crate::cache::BlockCache;
use crate::lending::lend;
use crate::loading::{BLOCK, LOADED_BLOCKS};

/// A part of a run of bytes: bytes of a block that is cached, or so many zeros of a hole.
#[derive(Clone, Copy, Debug)]
pub enum Part<'a> {
    Bytes(&'a [u8]),
    Zeros(u32),
}

/// The parts of a run of bytes, one of each block that it meets. Their bytes are lent from the cache: none is copied, and no memory is taken.
#[derive(Drop)]
pub struct Parts<'a> {
    cache: &'a BlockCache,
    places: [Option<u32>; LOADED_BLOCKS],
    /// Which of the places are left: those from the first up to the second.
    next: usize,
    end: usize,
    start: u32,
    count: u32,
    ghost within: { start < block_bytes },
    ghost ends: { (next ≤ end) × (end ≤ length places) },
    ghost there: { AreCached cache.now (take (end - next) (drop next places)) },
}

impl<'a> Parts<'a> {
    ghost use Rattle.block_cache.specs.Cached.{most_loaded};
    ghost use Rattle.block_cache.specs.Rests.{rest_of};
    ghost use Rattle.block_cache.specs.Lent.{lent_parts};

    /// Those of the `count` bytes from byte `start` of the first block on, or as many as there are. For each block, of which there are at most 32, the place
    /// is where it lies, none for a hole.
    pub fn new(cache: &'a BlockCache, places: &[Option<u32>], start: u32, count: u32) -> Parts<'a>
        requires few { length places.now ≤ most_loaded }
        requires within { start < block_bytes }
        requires there { AreCached cache.now places.now }
        ensures { rest_of result ≡ lent_parts cache.now places.now start count }
    {
        let mut own = [None; LOADED_BLOCKS];
        own[..places.len()].copy_from_slice(places);
        Parts {
            cache,
            places: own,
            next: 0,
            end: places.len(),
            start,
            count,
        }
    }
}

impl<'a> Iterator for Parts<'a> {
    ghost use Rattle.std.specs.Iterator.{YieldsFirstBy, item_count};
    ghost use Rattle.block_cache.specs.Lent.{part_bytes};
    ghost use Rattle.block_cache.specs.Rests.{rest_of};

    type Item = Part<'a>;

    ghost next_gives = { YieldsFirstBy part_bytes rest_of };

    ghost remaining = { item_count rest_of };

    fn next(&mut self) -> Option<Part<'a>> {
        if self.count == 0 {
            return None;
        }
        if self.next >= self.end {
            return None;
        }
        let place = self.places[self.next];
        let start = self.start;
        let len = self.count.min(BLOCK as u32 - start);
        self.next += 1;
        self.start = 0;
        self.count -= len;
        Some(lend(self.cache, place, start, len))
    }
}
