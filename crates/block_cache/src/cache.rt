//! The blocks of a disk that were used last.
ghost use Rattle.std.specs.Prelude.{◌≡◌, ◌≤◌, nat_eq, false, length, [], IfOk, IfSome, OnOk, OnErr, IsOk, IsErrOf, is_some};
ghost use Rattle.std.specs.List.{AllByRecursion, IsDistinct};
ghost use Rattle.std.specs.Map.{remove_entry};
ghost use Rattle.std.specs.Option.{option_map};
ghost use Rattle.hsm_types.specs.Limits.{block_bytes};
ghost use Rattle.disk_model.specs.Calls.{Counts};
ghost use Rattle.block_cache.specs.Cached.{AreBlocks, ImagesStay, LiesOn, IsFresh, most_kept, most_loaded, cached_blocks, cached_bytes, without, all_used_last, AreIn, HasStopped, has};

use crate::loading::{BLOCK, Blocks, LOADED_BLOCKS, load_all};
use crate::refusal::CacheRefusal;
use disk_model::Disk;
use lru::LruCache;
use std::alloc::{AllocError, Global};
use std::marker::Model;
use std::num::NonZeroUsize;

/// The 256 blocks of a disk that were used last, 4,096 bytes each. None has changed since it was read. Contracts see them with their bytes, the most
/// recently used first.
#[derive(Drop)]
pub struct BlockCache {
    at: u64,
    blocks: Blocks,
    /// Room for a run of neighbours, which one call of the disk reads.
    buffer: Vec<u8>,
}

impl Model for BlockCache {
    ghost use Rattle.std.specs.Prelude.{◌≡◌, ◌<◌, ◌^◌, ◌*◌, length};
    ghost use Rattle.hsm_types.specs.Limits.{block_bytes};
    ghost use Rattle.block_cache.specs.Cached.{Cache, AreBlocks, most_kept, most_loaded};

    ghost Value = { Cache };

    ghost view = { λ c. record { at = c.at; entries = c.blocks.entries } };

    ghost invariant = { λ c. (c.blocks.cap ≡ most_kept) × AreBlocks c.blocks.entries × (length c.buffer.items ≡ block_bytes * most_loaded) };
}

impl BlockCache {
    /// No block. Block 0 lies at that byte of the disk. It takes the room for a load, 131,072 bytes, and none for blocks yet.
    pub fn new(alloc: Global, at: u64) -> Result<BlockCache, AllocError>
        ensures { IfOk result (λ c. c ≡ record { at = at; entries = [] }) }
    {
        let cap = NonZeroUsize::new(256).unwrap();
        let blocks = LruCache::sparse(alloc, cap)?;
        let buffer = vec![in alloc; 0; BLOCK * LOADED_BLOCKS]?;
        Ok(BlockCache { at, blocks, buffer })
    }

    /// Brings the blocks, at most 32, to the front of those that were used last, in their order. It reads those that aren't among them, and neighbours
    /// among these that follow each other in the list by one call of the disk. The disk isn't used where all are there.
    ///
    /// It stops at the first block for which that fails, which isn't there then: the blocks before it have come to the front, and no other has. After
    /// `Failed` the disk is used no more.
    pub fn load<D: Disk>(&mut self, disk: &mut D, blocks: &[u32]) -> Result<(), CacheRefusal>
        requires few { length blocks.now ≤ most_loaded }
        requires lies { AllByRecursion (λ b. LiesOn self.old.at (D.length_of disk.old) b) blocks.now }
        ensures reads { ImagesStay D.Disk disk.old disk.new }
        ensures at { self.new.at ≡ self.old.at }
        ensures fresh { IsFresh D.Disk disk.old self.old → IsFresh D.Disk disk.new self.new }
        ensures used { OnOk result (cached_blocks self.new ≡ all_used_last blocks.now (cached_blocks self.old)) }
        ensures cached { OnOk result (AreIn blocks.now (cached_blocks self.new)) }
        ensures there { AreIn blocks.now (cached_blocks self.old) → IsOk result × (disk.new ≡ disk.old) }
        ensures stopped { OnErr result (HasStopped blocks.now (cached_blocks self.old) (cached_blocks self.new)) }
        ensures faults { Counts (IsErrOf result CacheRefusal.Failed) (D.fault_count disk.old) (D.fault_count disk.new) }
    {
        // Asked for its bound.
        let _len = disk.len();
        load_all(&mut self.blocks, &mut self.buffer, disk, self.at, blocks)
    }

    /// The bytes of a block, where it is there. The order stays.
    pub fn peek(&self, block: u32) -> Option<&[u8]>
        ensures there { is_some result ≡ has block (cached_blocks self.now) }
        ensures bytes { option_map (λ b. b.now) result ≡ cached_bytes self.now block }
        ensures size { IfSome result (λ b. length b.now ≡ block_bytes) }
    {
        match self.blocks.peek(&block) {
            Some(bytes) => Some(bytes.as_slice()),
            None => None,
        }
    }

    /// Where block 0 lies, in bytes.
    pub fn at(&self) -> u64
        ensures at { result ≡ self.now.at }
        ensures sizes { AreBlocks self.now.entries }
        ensures few { length (cached_blocks self.now) ≤ most_kept }
        ensures once { IsDistinct nat_eq (cached_blocks self.now) }
    {
        // Asked for what is true of the list.
        let _count = self.blocks.len();
        self.at
    }

    /// Takes a block out. The others keep their bytes and their order.
    pub fn forget(&mut self, block: u32)
        ensures entries { self.new ≡ record self.old { entries = remove_entry (nat_eq block) self.old.entries } }
        ensures rest { cached_blocks self.new ≡ without block (cached_blocks self.old) }
        ensures gone { has block (cached_blocks self.new) ≡ false }
    {
        // Asked for what is true of the list.
        let _count = self.blocks.len();
        let _ = self.blocks.pop(&block);
    }
}
