//! A map from inode and file block to disk block.
ghost use Rattle.std.specs.Prelude.{◌≡◌, ◌+◌, ◌<◌, ◌≤◌, [], None, length, slice_get, filter, MatchOption, IfOk, IsOk, OnOk, OnErr, vec_capacity};
ghost use Rattle.std.specs.Option.{option_map};
ghost use Rattle.extent_map.specs.Extents.{ExtentsAscend, all_blocks, is_within, place_of, with_extent, places_within, without_range, MapsTo, HasHoles};

use crate::extents::{self, Extent};
use crate::freed::Freed;
use std::alloc::{AllocError, Global};
use std::marker::Model;

/// Where the blocks of files lie on a disk. Each file is named by its inode. The room for all entries, 16 bytes each, is taken at the start.
#[derive(Drop)]
pub struct ExtentMap {
    entries: Vec<Extent>,
    total: u32,
}

impl Model for ExtentMap {
    ghost use Rattle.std.specs.Prelude.{◌≤◌, length, vec_capacity};
    ghost use Rattle.extent_map.specs.Extents.{Extents, ExtentsAscend};

    ghost Value = { Extents };

    ghost view = { λ m. record { total = m.total; entries = m.entries.items } };

    ghost invariant = { λ m. ExtentsAscend m.entries.items × (m.total ≤ vec_capacity m.entries) × (length m.entries.items ≤ m.total) };
}

/// More than any number of a file block.
const ALL_BLOCKS: u64 = 4_294_967_296;

/// Takes the entries of the file's blocks from the first up to the second out, and tells where these lay. It takes no memory for none.
fn take_within(
    alloc: Global,
    entries: &mut Vec<Extent>,
    ino: u64,
    from: u32,
    to: u64,
) -> Result<Freed, AllocError>
    requires { ExtentsAscend entries.old.items }
    ensures freed { IfOk result (λ f. f ≡ places_within ino from to entries.old.items) }
    ensures punched { OnOk result (entries.new.items ≡ without_range ino from to entries.old.items) }
    ensures holes { OnOk result (HasHoles ino from to entries.old.items entries.new.items) }
    ensures lengths { IfOk result (λ f. length f + length entries.new.items ≡ length entries.old.items) }
    ensures fewer { length entries.new.items ≤ length entries.old.items }
    ensures order { ExtentsAscend entries.new.items }
    ensures capacity { vec_capacity entries.new ≡ vec_capacity entries.old }
    ensures err { OnErr result (entries.new ≡ entries.old) }
    ensures none { places_within ino from to entries.old.items ≡ [] → IsOk result }
{
    let from = u64::from(from);
    let (first, last) = extents::range(entries.as_slice(), ino, from, to);
    let places = extents::places(alloc, &entries.as_slice()[first..last])?;
    extents::take_out(entries, first, last);
    Ok(Freed::new(places))
}

/// Takes the same entries out, and tells how many these are. It takes no memory.
fn clear_within(entries: &mut Vec<Extent>, ino: u64, from: u32, to: u64) -> usize
    requires { ExtentsAscend entries.old.items }
    ensures count { result ≡ length (places_within ino from to entries.old.items) }
    ensures cleared { entries.new.items ≡ without_range ino from to entries.old.items }
    ensures holes { HasHoles ino from to entries.old.items entries.new.items }
    ensures lengths { result + length entries.new.items ≡ length entries.old.items }
    ensures order { ExtentsAscend entries.new.items }
    ensures capacity { vec_capacity entries.new ≡ vec_capacity entries.old }
{
    let from = u64::from(from);
    let (first, last) = extents::range(entries.as_slice(), ino, from, to);
    extents::take_out(entries, first, last);
    last - first
}

impl ExtentMap {
    /// No entry, and room for so many.
    pub fn new(alloc: Global, total: u32) -> Result<ExtentMap, AllocError>
        ensures { IfOk result (λ m. m ≡ record { total = total; entries = [] }) }
    {
        let entries = Vec::with_capacity(alloc, total as usize)?;
        Ok(ExtentMap { entries, total })
    }

    /// How many entries there are.
    pub fn len(&self) -> u32
        ensures { result ≡ length self.now.entries }
    {
        // Asked for its bound.
        let _total = self.total;
        self.entries.len() as u32
    }

    /// How many there may be.
    pub fn total(&self) -> u32
        ensures { result ≡ self.now.total }
    {
        self.total
    }

    /// Where the file block lies, if it has an entry. It costs a binary search.
    pub fn lookup(&self, ino: u64, block: u32) -> Option<u32>
        ensures place { result ≡ place_of ino block self.now.entries }
        ensures order { ExtentsAscend self.now.entries }
        ensures few { length self.now.entries ≤ self.now.total }
    {
        extents::place(self.entries.as_slice(), ino, block)
    }

    /// The file block lies at that disk block from now on. It answers where it lay before, and takes no memory. It costs a binary search, and a move of
    /// the entries behind where the entry is new.
    pub fn put(&mut self, ino: u64, block: u32, at: u32) -> Option<u32>
        requires room { place_of ino block self.old.entries ≡ None → length self.old.entries < self.old.total }
        ensures old { result ≡ place_of ino block self.old.entries }
        ensures new { self.new ≡ record self.old { entries = with_extent (record { ino = ino; block = block; at = at }) self.old.entries } }
        ensures maps { MapsTo ino block at self.old.entries self.new.entries }
        ensures lengths { MatchOption result (length self.new.entries ≡ length self.old.entries + 1) (λ _. length self.new.entries ≡ length self.old.entries) }
    {
        extents::put(&mut self.entries, Extent { ino, block, at })
    }

    /// Takes the entries of the file's blocks from the first up to the second out, and tells where these lay. It takes memory for these numbers, and none
    /// where no block has an entry. It costs two binary searches, and a move of the entries behind.
    pub fn punch(
        &mut self,
        alloc: Global,
        ino: u64,
        from: u32,
        to: u32,
    ) -> Result<Freed, AllocError>
        ensures freed { IfOk result (λ f. f ≡ places_within ino from to self.old.entries) }
        ensures punched { OnOk result (self.new ≡ record self.old { entries = without_range ino from to self.old.entries }) }
        ensures holes { OnOk result (HasHoles ino from to self.old.entries self.new.entries) }
        ensures lengths { IfOk result (λ f. length f + length self.new.entries ≡ length self.old.entries) }
        ensures none { places_within ino from to self.old.entries ≡ [] → IsOk result }
        ensures err { OnErr result (self.new ≡ self.old) }
    {
        take_within(alloc, &mut self.entries, ino, from, u64::from(to))
    }

    /// The same of all the file's blocks from that one on.
    pub fn cut(&mut self, alloc: Global, ino: u64, from: u32) -> Result<Freed, AllocError>
        ensures freed { IfOk result (λ f. f ≡ places_within ino from all_blocks self.old.entries) }
        ensures punched { OnOk result (self.new ≡ record self.old { entries = without_range ino from all_blocks self.old.entries }) }
        ensures holes { OnOk result (HasHoles ino from all_blocks self.old.entries self.new.entries) }
        ensures lengths { IfOk result (λ f. length f + length self.new.entries ≡ length self.old.entries) }
        ensures none { places_within ino from all_blocks self.old.entries ≡ [] → IsOk result }
        ensures err { OnErr result (self.new ≡ self.old) }
    {
        take_within(alloc, &mut self.entries, ino, from, ALL_BLOCKS)
    }

    /// Takes the same entries out as `punch`, and tells how many these are. It takes no memory.
    pub fn clear_range(&mut self, ino: u64, from: u32, to: u32) -> u32
        ensures count { result ≡ length (places_within ino from to self.old.entries) }
        ensures cleared { self.new ≡ record self.old { entries = without_range ino from to self.old.entries } }
        ensures holes { HasHoles ino from to self.old.entries self.new.entries }
        ensures lengths { result + length self.new.entries ≡ length self.old.entries }
    {
        clear_within(&mut self.entries, ino, from, u64::from(to)) as u32
    }

    /// The same of all the file's blocks from that one on.
    pub fn clear(&mut self, ino: u64, from: u32) -> u32
        ensures count { result ≡ length (places_within ino from all_blocks self.old.entries) }
        ensures cleared { self.new ≡ record self.old { entries = without_range ino from all_blocks self.old.entries } }
        ensures holes { HasHoles ino from all_blocks self.old.entries self.new.entries }
        ensures lengths { result + length self.new.entries ≡ length self.old.entries }
    {
        clear_within(&mut self.entries, ino, from, ALL_BLOCKS) as u32
    }

    /// The first of the file's blocks from that one on that has an entry, and where it lies. It costs a binary search.
    pub fn next(&self, ino: u64, from: u32) -> Option<(u32, u32)>
        ensures { result ≡ option_map (λ e. (e.block, e.at)) (slice_get (filter (is_within ino from all_blocks) self.now.entries) 0) }
    {
        match extents::first_within(self.entries.as_slice(), ino, u64::from(from), ALL_BLOCKS) {
            Some(entry) => Some((entry.block, entry.at)),
            None => None,
        }
    }
}
