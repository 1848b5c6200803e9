//! A flag for each block in each of two maps: whether the map uses it.
ghost use Rattle.std.specs.Prelude.{◌≡◌, ℕ, ◌+◌, ◌<◌, ◌≤◌, ◌^◌, ◌||◌, not, IfOk, false, true, length, take, drop, min, slice_index_or};
ghost use Rattle.std.specs.List.{All};
ghost use Rattle.block_space.specs.Space.{free_in, marked, UsedBelow};

use std::alloc::{AllocError, Global};

/// Whether neither map uses a block.
fn is_free(current: &[bool], durable: &[bool], block: usize) -> bool
    requires current { block < length current.now }
    requires durable { block < length durable.now }
    ensures { result ≡ not (slice_index_or current.now block false || slice_index_or durable.now block false) }
{
    !current[block] && !durable[block]
}

/// The lowest block from `low` on that neither map uses, or their length. It costs a walk up to there.
pub fn skip_used(current: &[bool], durable: &[bool], low: usize) -> usize
    requires lengths { length durable.now ≡ length current.now }
    requires low { low ≤ length current.now }
    requires used { UsedBelow low current.now durable.now }
    ensures used { UsedBelow result current.now durable.now }
    ensures within { result ≤ length current.now }
    ensures free { result < length current.now → (slice_index_or current.now result false || slice_index_or durable.now result false) ≡ false }
{
    for block in low..current.len() {
        if is_free(current, durable, block) {
            return block;
        }
    }
    current.len()
}

/// How many blocks neither map uses, or `most` where there are that many. From `low` on it costs a walk up to the last that is counted.
pub fn count_free(current: &[bool], durable: &[bool], low: usize, most: usize) -> usize
    requires lengths { length durable.now ≡ length current.now }
    requires low { low ≤ length current.now }
    requires used { UsedBelow low current.now durable.now }
    ensures { result ≡ min most (length (free_in 0 current.now durable.now)) }
{
    let mut free = 0;
    for block in low..current.len() {
        if free == most {
            return most;
        }
        if is_free(current, durable, block) {
            free += 1;
        }
    }
    free
}

/// The `count` lowest blocks that neither map uses. From `low` on it costs a walk up to the last of them.
pub fn lowest_free(
    alloc: Global,
    current: &[bool],
    durable: &[bool],
    low: usize,
    count: usize,
) -> Result<Vec<u32>, AllocError>
    requires lengths { length durable.now ≡ length current.now }
    requires low { low ≤ length current.now }
    requires used { UsedBelow low current.now durable.now }
    requires few { length current.now ≤ 2 ^ 32 }
    ensures { IfOk result (λ v. v.items ≡ take count (free_in 0 current.now durable.now)) }
{
    let mut blocks = Vec::with_capacity(alloc, count)?;
    for block in low..current.len() {
        if blocks.len() == count {
            return Ok(blocks);
        }
        if is_free(current, durable, block) {
            blocks.push(block as u32)?;
        }
    }
    Ok(blocks)
}

/// Marks blocks as used.
pub fn mark(flags: &mut [bool], blocks: &[u32])
    requires { All (λ b. b < length flags.old) blocks.now }
    ensures { flags.new ≡ marked blocks.now flags.old }
{
    for block in blocks {
        flags[*block as usize] = true;
    }
}
