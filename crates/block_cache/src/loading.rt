//! Blocks of a disk, brought to the front of those that were used last.
ghost use Rattle.std.specs.Prelude.{◌≡◌, ◌+◌, ◌*◌, ◌<◌, ◌≤◌, ◌^◌, true, false, List, ℕ, length, take, slice_index_or, OnOk, OnErr, IfOk, IfErr, IsOk, IsErrOf};
ghost use Rattle.std.specs.List.{AllByRecursion};
ghost use Rattle.std.specs.Map.{keys_of};
ghost use Rattle.hsm_types.specs.Limits.{block_bytes};
ghost use Rattle.disk_model.specs.Calls.{Counts};
ghost use Rattle.disk_model.specs.Images.{part};
ghost use Rattle.block_cache.specs.Cached.{ImagesStay, AreBlocks, AreShown, AreNeighbours, LiesOn, most_kept, most_loaded, used_last, all_used_last, has, AreIn, AreAbsent, HasStopped};

use crate::refusal::CacheRefusal;
use disk_model::{Disk, read_at};
use hsm_types::BLOCK_BYTES;
use lru::LruCache;

/// How many bytes a block has.
pub(crate) const BLOCK: usize = BLOCK_BYTES as usize;

/// How many blocks a load may name.
pub const LOADED_BLOCKS: usize = 32;

/// Blocks with their bytes, the most recently used first.
pub(crate) type Blocks = LruCache<u32, [u8; BLOCK]>;

/// Brings all wanted blocks to the front, in their order. The disk isn't used where all are there.
pub(crate) fn load_all<D: Disk>(
    blocks: &mut Blocks,
    buffer: &mut Vec<u8>,
    disk: &mut D,
    at: u64,
    wanted: &[u32],
) -> Result<(), CacheRefusal>
    requires few { length wanted.now ≤ most_loaded }
    requires room { length buffer.old.items ≡ block_bytes * most_loaded }
    requires lies { AllByRecursion (λ b. LiesOn at (D.length_of disk.old) b) wanted.now }
    requires short { D.length_of disk.old < 2 ^ 64 }
    requires cap { blocks.old.cap ≡ most_kept }
    ensures reads { ImagesStay D.Disk disk.old disk.new }
    ensures room { length buffer.new.items ≡ block_bytes * most_loaded }
    ensures cap { blocks.new.cap ≡ most_kept }
    ensures lengths { AreBlocks blocks.old.entries → AreBlocks blocks.new.entries }
    ensures shown { (c : List ℕ) → D.gives disk.old c → AreShown at c blocks.old.entries → AreShown at c blocks.new.entries }
    ensures keys { OnOk result (keys_of blocks.new.entries ≡ all_used_last wanted.now (keys_of blocks.old.entries)) }
    ensures stopped { OnErr result (HasStopped wanted.now (keys_of blocks.old.entries) (keys_of blocks.new.entries)) }
    ensures there { AreIn wanted.now (keys_of blocks.old.entries) → IsOk result × (disk.new ≡ disk.old) }
    ensures faults { Counts (IsErrOf result CacheRefusal.Failed) (D.fault_count disk.old) (D.fault_count disk.new) }
{
    let mut done = 0;
    while done < wanted.len() {
        done += load_next(blocks, buffer, disk, at, &wanted[done..])?;
    }
    Ok(())
}

/// Brings the first of the wanted blocks to the front, and where it isn't there its neighbours behind it in the list too. It tells how many blocks these are.
fn load_next<D: Disk>(
    blocks: &mut Blocks,
    buffer: &mut Vec<u8>,
    disk: &mut D,
    at: u64,
    wanted: &[u32],
) -> Result<usize, CacheRefusal>
    requires some { 0 < length wanted.now }
    requires few { length wanted.now ≤ most_loaded }
    requires room { length buffer.old.items ≡ block_bytes * most_loaded }
    requires lies { AllByRecursion (λ b. LiesOn at (D.length_of disk.old) b) wanted.now }
    requires short { D.length_of disk.old < 2 ^ 64 }
    requires cap { blocks.old.cap ≡ most_kept }
    ensures reads { ImagesStay D.Disk disk.old disk.new }
    ensures room { length buffer.new.items ≡ block_bytes * most_loaded }
    ensures cap { blocks.new.cap ≡ most_kept }
    ensures lengths { AreBlocks blocks.old.entries → AreBlocks blocks.new.entries }
    ensures shown { (c : List ℕ) → D.gives disk.old c → AreShown at c blocks.old.entries → AreShown at c blocks.new.entries }
    ensures count { IfOk result (λ n. (0 < n) × (n ≤ length wanted.now)) }
    ensures keys { IfOk result (λ n. keys_of blocks.new.entries ≡ all_used_last (take n wanted.now) (keys_of blocks.old.entries)) }
    ensures stopped { OnErr result (HasStopped wanted.now (keys_of blocks.old.entries) (keys_of blocks.new.entries)) }
    ensures there { has (slice_index_or wanted.now 0 0) (keys_of blocks.old.entries) ≡ true → IsOk result × (disk.new ≡ disk.old) }
    ensures stay { has (slice_index_or wanted.now 0 0) (keys_of blocks.old.entries) ≡ true → (bs : List ℕ) → AreIn bs (keys_of blocks.old.entries) → AreIn bs (keys_of blocks.new.entries) }
    ensures faults { Counts (IsErrOf result CacheRefusal.Failed) (D.fault_count disk.old) (D.fault_count disk.new) }
{
    if promote_block(blocks, wanted[0]) {
        return Ok(1);
    }
    let count = count_neighbours(blocks, wanted);
    match load_run(blocks, buffer, disk, at, &wanted[..count]) {
        Ok(()) => Ok(count),
        Err(why) => Err(why),
    }
}

/// Brings a block to the front if it is there, and tells whether it is.
fn promote_block(blocks: &mut Blocks, block: u32) -> bool
    requires cap { blocks.old.cap ≡ most_kept }
    ensures there { result ≡ has block (keys_of blocks.old.entries) }
    ensures absent { result ≡ false → blocks.new ≡ blocks.old }
    ensures cap { blocks.new.cap ≡ most_kept }
    ensures lengths { AreBlocks blocks.old.entries → AreBlocks blocks.new.entries }
    ensures shown { (at : ℕ) (c : List ℕ) → AreShown at c blocks.old.entries → AreShown at c blocks.new.entries }
    ensures keys { result ≡ true → keys_of blocks.new.entries ≡ used_last block (keys_of blocks.old.entries) }
    ensures stay { result ≡ true → (bs : List ℕ) → AreIn bs (keys_of blocks.old.entries) → AreIn bs (keys_of blocks.new.entries) }
{
    // Asked for what is true of the list.
    let _count = blocks.len();
    blocks.promote(&block)
}

/// How many of the wanted blocks, from the first on, are neighbours, and but for the first not there.
fn count_neighbours(blocks: &Blocks, wanted: &[u32]) -> usize
    requires some { 0 < length wanted.now }
    ensures some { 0 < result }
    ensures within { result ≤ length wanted.now }
    ensures run { AreNeighbours (slice_index_or wanted.now 0 0) (take result wanted.now) }
    ensures absent { has (slice_index_or wanted.now 0 0) (keys_of blocks.now.entries) ≡ false → AreAbsent (take result wanted.now) (keys_of blocks.now.entries) }
{
    let first = wanted[0];
    for index in 1..wanted.len() {
        let block = wanted[index];
        if u64::from(block) != u64::from(first) + index as u64 || blocks.contains(&block) {
            return index;
        }
    }
    wanted.len()
}

/// Reads a run of neighbours in one call of the disk, and brings them to the front in their order.
fn load_run<D: Disk>(
    blocks: &mut Blocks,
    buffer: &mut Vec<u8>,
    disk: &mut D,
    at: u64,
    run: &[u32],
) -> Result<(), CacheRefusal>
    requires some { 0 < length run.now }
    requires few { length run.now ≤ most_loaded }
    requires room { length buffer.old.items ≡ block_bytes * most_loaded }
    requires neighbours { AreNeighbours (slice_index_or run.now 0 0) run.now }
    requires absent { AreAbsent run.now (keys_of blocks.old.entries) }
    requires lies { at + block_bytes * slice_index_or run.now 0 0 + block_bytes * length run.now ≤ D.length_of disk.old }
    requires short { D.length_of disk.old < 2 ^ 64 }
    requires cap { blocks.old.cap ≡ most_kept }
    ensures reads { ImagesStay D.Disk disk.old disk.new }
    ensures room { length buffer.new.items ≡ block_bytes * most_loaded }
    ensures cap { blocks.new.cap ≡ most_kept }
    ensures lengths { AreBlocks blocks.old.entries → AreBlocks blocks.new.entries }
    ensures shown { (c : List ℕ) → D.gives disk.old c → AreShown at c blocks.old.entries → AreShown at c blocks.new.entries }
    ensures keys { OnOk result (keys_of blocks.new.entries ≡ all_used_last run.now (keys_of blocks.old.entries)) }
    ensures stopped { OnErr result (HasStopped run.now (keys_of blocks.old.entries) (keys_of blocks.new.entries)) }
    ensures faults { Counts (IsErrOf result CacheRefusal.Failed) (D.fault_count disk.old) (D.fault_count disk.new) }
{
    let bytes = &mut buffer.as_mut_slice()[..run.len() * BLOCK];
    let from = at + BLOCK_BYTES * u64::from(run[0]);
    let Ok(()) = read_at(disk, from, bytes) else {
        return Err(CacheRefusal::Failed);
    };
    put_run(blocks, run, bytes)
}

/// Brings a run of neighbours to the front in their order, with their bytes, which lie behind each other.
fn put_run(blocks: &mut Blocks, run: &[u32], bytes: &[u8]) -> Result<(), CacheRefusal>
    requires size { length bytes.now ≡ block_bytes * length run.now }
    requires cap { blocks.old.cap ≡ most_kept }
    ensures cap { blocks.new.cap ≡ most_kept }
    ensures lengths { AreBlocks blocks.old.entries → AreBlocks blocks.new.entries }
    ensures shown { (at first : ℕ) (c : List ℕ) → AreNeighbours first run.now → bytes.now ≡ part c (at + block_bytes * first) (block_bytes * length run.now)
        → AreShown at c blocks.old.entries → AreShown at c blocks.new.entries }
    ensures keys { OnOk result (keys_of blocks.new.entries ≡ all_used_last run.now (keys_of blocks.old.entries)) }
    ensures begun { OnErr result ((n : ℕ) × (n < length run.now) × (keys_of blocks.new.entries ≡ all_used_last (take n run.now) (keys_of blocks.old.entries))) }
    ensures refused { IfErr result (λ why. why ≡ CacheRefusal.Memory) }
{
    for index in 0..run.len() {
        let from = index * BLOCK;
        put_block(blocks, run[index], &bytes[from..from + BLOCK])?;
    }
    Ok(())
}

/// Brings a block to the front, with these bytes.
fn put_block(blocks: &mut Blocks, block: u32, bytes: &[u8]) -> Result<(), CacheRefusal>
    requires size { length bytes.now ≡ block_bytes }
    requires cap { blocks.old.cap ≡ most_kept }
    ensures cap { blocks.new.cap ≡ most_kept }
    ensures lengths { AreBlocks blocks.old.entries → AreBlocks blocks.new.entries }
    ensures shown { (at : ℕ) (c : List ℕ) → bytes.now ≡ part c (at + block_bytes * block) block_bytes → AreShown at c blocks.old.entries → AreShown at c blocks.new.entries }
    ensures keys { OnOk result (keys_of blocks.new.entries ≡ used_last block (keys_of blocks.old.entries)) }
    ensures err { OnErr result (blocks.new ≡ blocks.old) }
    ensures refused { IfErr result (λ why. why ≡ CacheRefusal.Memory) }
{
    // Asked for what is true of the list.
    let _count = blocks.len();
    let mut copy = [0; BLOCK];
    copy.copy_from_slice(bytes);
    match blocks.put(block, copy) {
        Ok(_) => Ok(()),
        Err(_) => Err(CacheRefusal::Memory),
    }
}
