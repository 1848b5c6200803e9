//! The entries of a map, in the order of inodes and then of file blocks.
ghost use Rattle.std.specs.Prelude.{◌≡◌, ◌<◌, ◌≤◌, ◌-◌, ◌++◌, true, slice_index_or, length, map, drop, take, slice_get, filter, IfOk, IsOk, None, vec_len, vec_capacity};
ghost use Rattle.std.specs.Option.{option_map};
ghost use Rattle.extent_map.specs.declared.extents.Extent.{Extent};
ghost use Rattle.extent_map.specs.Extents.{is_entry_of, without_range, ExtentsAscend, CutsExtents, precedes, is_within, place_of, with_extent};

use std::alloc::{AllocError, Global};

/// An entry: that block of the file with that inode lies at that block of the disk.
#[derive(Clone, Copy, Debug, PartialEq, Eq)]
pub struct Extent {
    pub ino: u64,
    pub block: u32,
    pub at: u32,
}

/// Whether the entry comes before the file block.
fn precedes(entry: &Extent, ino: u64, block: u64) -> bool
    ensures { result ≡ precedes ino block entry.now }
{
    entry.ino < ino || entry.ino == ino && u64::from(entry.block) < block
}

/// Whether the entry is that of the file block.
fn is_entry_of(entry: &Extent, ino: u64, block: u32) -> bool
    ensures { result ≡ is_entry_of ino block entry.now }
{
    entry.ino == ino && entry.block == block
}

/// How many entries come before the file block. It costs a binary search.
pub fn count_before(entries: &[Extent], ino: u64, block: u64) -> usize
    requires { ExtentsAscend entries.now }
    ensures cuts { CutsExtents ino block result entries.now }
    ensures within { result ≤ length entries.now }
{
    entries.partition_point(|entry| precedes(entry, ino, block))
}

/// Whether the entry of the file block stands at that index.
fn stands_at(entries: &[Extent], index: usize, ino: u64, block: u32) -> bool
    ensures within { result ≡ true → index < length entries.now }
    ensures there { (d : Extent) → index < length entries.now → result ≡ is_entry_of ino block (slice_index_or entries.now index d) }
{
    if index >= entries.len() {
        return false;
    }
    is_entry_of(&entries[index], ino, block)
}

/// Where the file block lies.
pub fn place(entries: &[Extent], ino: u64, block: u32) -> Option<u32>
    requires { ExtentsAscend entries.now }
    ensures { result ≡ place_of ino block entries.now }
{
    let index = count_before(entries, ino, u64::from(block));
    if stands_at(entries, index, ino, block) {
        Some(entries[index].at)
    } else {
        None
    }
}

/// Puts an entry in its order, in the place of that of the same file block, and tells where that block lay. It takes no memory.
pub fn put(entries: &mut Vec<Extent>, entry: Extent) -> Option<u32>
    requires order { ExtentsAscend entries.old.items }
    requires room { place_of entry.ino entry.block entries.old.items ≡ None → vec_len entries.old < vec_capacity entries.old }
    ensures old { result ≡ place_of entry.ino entry.block entries.old.items }
    ensures items { entries.new.items ≡ with_extent entry entries.old.items }
    ensures capacity { vec_capacity entries.old ≤ vec_capacity entries.new }
{
    let index = count_before(entries.as_slice(), entry.ino, u64::from(entry.block));
    if stands_at(entries.as_slice(), index, entry.ino, entry.block) {
        let old = entries[index];
        entries[index] = entry;
        return Some(old.at);
    }
    entries.insert(index, entry).unwrap();
    None
}

/// The first entry of the file's blocks from the first up to the second. It costs a binary search.
pub fn first_within(entries: &[Extent], ino: u64, from: u64, to: u64) -> Option<Extent>
    requires { ExtentsAscend entries.now }
    ensures { result ≡ slice_get (filter (is_within ino from to) entries.now) 0 }
{
    let index = count_before(entries, ino, from);
    if index >= entries.len() {
        return None;
    }
    let entry = entries[index];
    if precedes(&entry, ino, to) {
        Some(entry)
    } else {
        None
    }
}

/// From which index to which the entries of the file's blocks from the first up to the second stand. It costs two binary searches.
pub fn range(entries: &[Extent], ino: u64, from: u64, to: u64) -> (usize, usize)
    requires { ExtentsAscend entries.now }
    ensures order { result.0 ≤ result.1 }
    ensures within { result.1 ≤ length entries.now }
    ensures inside { take (result.1 - result.0) (drop result.0 entries.now) ≡ filter (is_within ino from to) entries.now }
    ensures outside { take result.0 entries.now ++ drop result.1 entries.now ≡ without_range ino from to entries.now }
{
    if to <= from {
        return (0, 0);
    }
    let first = count_before(entries, ino, from);
    let last = count_before(entries, ino, to);
    (first, last)
}

/// The disk blocks of these entries. It takes no memory for none.
pub fn places(alloc: Global, entries: &[Extent]) -> Result<Vec<u32>, AllocError>
    ensures places { IfOk result (λ v. v.items ≡ map (λ e. e.at) entries.now) }
    ensures none { length entries.now ≡ 0 → IsOk result }
{
    let mut places = Vec::with_capacity(alloc, entries.len())?;
    for entry in entries {
        places.push(entry.at)?;
    }
    Ok(places)
}

/// Takes the entries from one place up to another out. It takes no memory.
pub fn take_out(entries: &mut Vec<Extent>, from: usize, to: usize)
    requires order { from ≤ to }
    requires within { to ≤ length entries.old.items }
    ensures items { entries.new.items ≡ take from entries.old.items ++ drop to entries.old.items }
    ensures capacity { vec_capacity entries.new ≡ vec_capacity entries.old }
{
    let count = to - from;
    entries.as_mut_slice()[from..].rotate_left(count);
    let left = entries.len() - count;
    entries.truncate(left);
}
