//! The blocks that changes of a file's bytes touch.
ghost use Rattle.std.specs.Prelude.{◌≡◌, ℕ, ◌+◌, ◌*◌, ◌<◌, ◌≤◌, ◌++◌, List, length, slice_index_or, IfSome};
ghost use Rattle.std.specs.Option.{option_to_list};
ghost use Rattle.hsm_types.specs.Limits.{file_blocks};
ghost use Rattle.plain_model.specs.Effects.{Writes, Resizes};
ghost use Rattle.plain_model.specs.Blocks.{from_on, met, touched, blocks_in, old_end};

use hsm_types::{BLOCK_BYTES, FILE_BYTES, SEGMENT_BYTES};
use std::marker::Model;

/// The blocks that a change touches: perhaps that of the old end, and a run. Contracts see the list of them.
#[derive(Drop)]
pub struct TouchedBlocks {
    old_end: Option<u64>,
    first: u64,
    count: u64,
}

impl Model for TouchedBlocks {
    ghost use Rattle.std.specs.Prelude.{ℕ, List, ◌+◌, ◌<◌, ◌≤◌, ◌++◌, IfSome};
    ghost use Rattle.std.specs.Option.{option_to_list};
    ghost use Rattle.hsm_types.specs.Limits.{file_blocks};
    ghost use Rattle.plain_model.specs.Blocks.{from_on};

    ghost Value = { List ℕ };

    ghost view = { λ t. option_to_list t.old_end ++ from_on t.first t.count };

    ghost invariant = { λ t. (t.first + t.count ≤ file_blocks) × IfSome t.old_end (λ b. b < file_blocks) };
}

/// Blocks of a body, one after the other.
#[derive(Clone, Copy)]
pub struct BlockRun {
    pub first: u32,
    pub count: u32,
}

impl TouchedBlocks {
    /// The block of the old end and the others, each a run, which may be empty.
    pub fn runs(&self) -> (BlockRun, BlockRun)
        ensures runs { from_on result.0.first result.0.count ++ from_on result.1.first result.1.count ≡ self.now }
        ensures end { result.0.first + result.0.count ≤ file_blocks }
        ensures others { result.1.first + result.1.count ≤ file_blocks }
    {
        let others = BlockRun {
            first: self.first as u32,
            count: self.count as u32,
        };
        let end = match self.old_end {
            Some(block) => BlockRun {
                first: block as u32,
                count: 1,
            },
            None => BlockRun { first: 0, count: 0 },
        };
        (end, others)
    }

    /// How many blocks there are.
    pub fn count(&self) -> u64
        ensures { result ≡ length self.now }
    {
        match self.old_end {
            Some(_) => self.count + 1,
            None => self.count,
        }
    }

    /// The block at that place of the list.
    pub fn block(&self, place: u64) -> u64
        requires { place < length self.now }
        ensures block { result ≡ slice_index_or self.now place 0 }
        ensures small { result < file_blocks }
    {
        match self.old_end {
            Some(block) if place == 0 => block,
            Some(_) => self.first + (place - 1),
            None => self.first + place,
        }
    }
}

/// The blocks that a write of so many bytes at the offset touches of a file of that size.
pub fn touched_by_write(size: u64, offset: u64, len: u64) -> TouchedBlocks
    requires { offset + len ≤ FILE_BYTES }
    ensures { (bytes : List ℕ) → length bytes ≡ len → result ≡ touched (Writes offset bytes) size }
{
    let end = offset + len;
    let first = offset / BLOCK_BYTES;
    let apart = size < end && size / BLOCK_BYTES < first;
    TouchedBlocks {
        old_end: if apart { old_end(size) } else { None },
        first,
        count: blocks_in(end) - first,
    }
}

/// The blocks that a truncate to the size `new` touches of a file of that size.
pub fn touched_by_truncate(size: u64, new: u64) -> TouchedBlocks
    requires { new ≤ FILE_BYTES }
    ensures { result ≡ touched (Resizes new) size }
{
    TouchedBlocks {
        old_end: if size < new { old_end(size) } else { None },
        first: 0,
        count: 0,
    }
}

/// The blocks of so many bytes of a segment.
pub fn touched_by_restore(segment: u32, len: u64) -> TouchedBlocks
    requires segment { len ≤ SEGMENT_BYTES }
    requires end { SEGMENT_BYTES * segment + len ≤ FILE_BYTES }
    ensures { result ≡ met (SEGMENT_BYTES * segment) (SEGMENT_BYTES * segment + len) }
{
    let start = u64::from(segment) * SEGMENT_BYTES;
    let first = start / BLOCK_BYTES;
    TouchedBlocks {
        old_end: None,
        first,
        count: blocks_in(start + len) - first,
    }
}

/// The block in which a body of that size ends, where it doesn't fill it.
fn old_end(size: u64) -> Option<u64>
    ensures block { option_to_list result ≡ old_end size }
    ensures within { IfSome result (λ block. BLOCK_BYTES * block ≤ size) }
{
    if size % BLOCK_BYTES == 0 {
        None
    } else {
        Some(size / BLOCK_BYTES)
    }
}

/// How many blocks a body of that size has.
pub fn blocks_in(size: u64) -> u64
    requires { size ≤ FILE_BYTES }
    ensures { result ≡ blocks_in size }
{
    (size + (BLOCK_BYTES - 1)) / BLOCK_BYTES
}
