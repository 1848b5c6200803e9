//! The blocks of a disk.
ghost use Rattle.std.specs.Prelude.{◌≡◌, ℕ, ◌<◌, ◌≤◌, length, nat_le, take, replicate, false, IfOk, IsOk, IsErrOf, OnOk, OnErr, slice_set};
ghost use Rattle.std.specs.List.{All};
ghost use Rattle.block_space.specs.Space.{marked, unmarked, free};

use crate::blocks::Blocks;
use crate::flags;
use std::alloc::{AllocError, Global};
use std::marker::Model;
use thiserror::Error;

/// Why no blocks were taken. Nothing has changed then.
#[derive(Clone, Copy, Debug, PartialEq, Eq, Error)]
pub enum TakeRefusal {
    #[error("only {free} blocks are free")]
    Short { free: u32 },
    #[error("no memory")]
    Memory,
}

/// For each block of a disk, whether the current map uses it, and whether the durable one does. It takes two bytes for a block.
#[derive(Drop)]
pub struct BlockSpace {
    current: Vec<bool>,
    durable: Vec<bool>,
    low: usize,
    released: usize,
}

impl Model for BlockSpace {
    ghost use Rattle.std.specs.Prelude.{◌≡◌, ◌<◌, ◌≤◌, ◌^◌, length};
    ghost use Rattle.block_space.specs.Space.{Space, IsSpace};

    ghost Value = { Space };

    ghost view = { λ s. record { current = s.current.items; durable = s.durable.items } };

    ghost invariant = { λ s. IsSpace s.low s.released s.current.items s.durable.items };
}

impl BlockSpace {
    /// So many blocks, of which both maps use these. It costs a walk over all.
    pub fn new(alloc: Global, total: u32, used: &[u32]) -> Result<BlockSpace, AllocError>
        requires { All (λ b. b < total) used.now }
        ensures { IfOk result (λ s. s ≡ record { current = marked used.now (replicate total false); durable = marked used.now (replicate total false) }) }
    {
        let mut current = vec![in alloc; false; total as usize]?;
        flags::mark(current.as_mut_slice(), used);
        let durable = Vec::from_slice(alloc, current.as_slice())?;
        Ok(BlockSpace {
            current,
            durable,
            low: 0,
            released: total as usize,
        })
    }

    /// Whether so many blocks are free, which neither map uses. It costs a walk from the lowest block that may be free up to the last that is counted.
    pub fn has_free(&self, count: u32) -> bool
        ensures { result ≡ nat_le count (length (free self.now)) }
    {
        let (current, durable) = (self.current.as_slice(), self.durable.as_slice());
        flags::count_free(current, durable, self.low, count as usize) == count as usize
    }

    /// Takes the `n` lowest blocks that neither map uses: the current map uses them from then on.
    ///
    /// It costs a walk from the lowest block that may be free up to the last that is taken. A `committed` turns back no further than to the
    /// lowest block that was released since the one before.
    pub fn take(&mut self, alloc: Global, n: u32) -> Result<Blocks, TakeRefusal>
        ensures taken { IfOk result (λ b. b ≡ take n (free self.old)) }
        ensures enough { IsOk result → n ≤ length (free self.old) }
        ensures marked { OnOk result (self.new ≡ record self.old { current = marked (take n (free self.old)) self.old.current }) }
        ensures short { (left : ℕ) → IsErrOf result (TakeRefusal.Short left) → (left ≡ length (free self.old)) × (left < n) }
        ensures exactly { length (free self.old) < n → IsErrOf result (TakeRefusal.Short (length (free self.old))) }
        ensures err { OnErr result (self.new ≡ self.old) }
    {
        let (current, durable) = (self.current.as_slice(), self.durable.as_slice());
        let low = flags::skip_used(current, durable, self.low);
        let free = flags::count_free(current, durable, low, n as usize) as u32;
        if free < n {
            return Err(TakeRefusal::Short { free });
        }
        match flags::lowest_free(alloc, current, durable, low, n as usize) {
            Ok(numbers) => {
                flags::mark(self.current.as_mut_slice(), numbers.as_slice());
                self.low = low;
                Ok(Blocks::new(numbers))
            }
            Err(_) => Err(TakeRefusal::Memory),
        }
    }

    /// The current map uses the block no more. The durable one may still, and then the block isn't free before the next `committed`, and no walk turns back
    /// to it.
    pub fn release(&mut self, block: u32)
        requires { block < length self.old.current }
        ensures { self.new ≡ record self.old { current = slice_set self.old.current block false } }
    {
        let block = block as usize;
        self.current[block] = false;
        if self.durable[block] {
            self.released = self.released.min(block);
        } else {
            self.low = self.low.min(block);
        }
    }

    /// The current map uses these blocks no more, as `release` of each.
    pub fn release_all(&mut self, blocks: &[u32])
        requires { All (λ b. b < length self.old.current) blocks.now }
        ensures { self.new ≡ record self.old { current = unmarked blocks.now self.old.current } }
    {
        for block in blocks {
            self.release(*block);
        }
    }

    /// The durable map becomes the current one. It costs a walk over all blocks, and takes no memory.
    pub fn committed(&mut self)
        ensures { self.new ≡ record self.old { durable = self.old.current } }
    {
        self.durable.copy_from_slice(self.current.as_slice());
        self.low = self.low.min(self.released);
        self.released = self.current.len();
    }
}
