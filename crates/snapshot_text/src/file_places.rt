//! Where the blocks of one file lie.
ghost use Rattle.std.specs.Prelude.{◌≡◌, ◌+◌, ◌-◌, ◌*◌, ◌<◌, ◌≤◌, ◌^◌, [], ◌∷◌, length, min, drop, replicate, slice_set, None, Some, IfOk, OnOk, OnErr};
ghost use Rattle.std.specs.List.{AllByRecursion};
ghost use Rattle.hsm_types.specs.Limits.{file_blocks};
ghost use Rattle.plain_model.specs.Blocks.{blocks_in};
ghost use Rattle.snapshot_text.specs.Files.{present, places_in_segment};
ghost use Rattle.snapshot_text.specs.FileRecords.{places_fitted, places_set, places_without, mappings_from};

use crate::snapshot::Mapping;
use hsm_types::{BLOCK_BYTES, FILE_BYTES, SEGMENT_BLOCKS};
use std::alloc::{AllocError, Global};
use std::marker::Model;

/// For each block of a file which block of the disk has it; a hole has none. Contracts see the list of these places.
#[derive(Drop)]
pub struct FilePlaces {
    places: Vec<Option<u32>>,
    /// How many of them aren't holes.
    mapped: u32,
}

impl Model for FilePlaces {
    ghost use Rattle.std.specs.Prelude.{◌≡◌, ◌≤◌, ℕ, List, Option, length};
    ghost use Rattle.hsm_types.specs.Limits.{file_blocks};
    ghost use Rattle.snapshot_text.specs.Files.{present};

    ghost Value = { List (Option ℕ) };

    ghost view = { λ p. p.places.items };

    ghost invariant = { λ p. (length p.places.items ≤ file_blocks) × (p.mapped ≡ length (present p.places.items)) };
}

impl FilePlaces {
    /// Of no blocks. It takes no memory.
    pub fn new(alloc: Global) -> FilePlaces
        ensures { result ≡ [] }
    {
        FilePlaces {
            places: Vec::new(alloc),
            mapped: 0,
        }
    }

    pub fn as_slice(&self) -> &[Option<u32>]
        ensures { result.now ≡ self.now }
    {
        self.places.as_slice()
    }

    /// How many blocks aren't holes.
    pub fn mapped(&self) -> u32
        ensures { result ≡ length (present self.now) }
    {
        self.mapped
    }

    /// Of a file of that size, whose blocks lie there, as a snapshot has it. It costs the blocks.
    #[tactic(auto, using(crate::proofs::MappedPlaces::new_steps))]
    pub(crate) fn of(
        alloc: Global,
        size: u64,
        extents: &[Mapping],
    ) -> Result<FilePlaces, AllocError>
        requires size { size ≤ FILE_BYTES }
        requires blocks { AllByRecursion (λ m. m.block < blocks_in size) extents.now }
        ensures { IfOk result (λ p. p ≡ places_set extents.now (replicate (blocks_in size) None)) }
    {
        let mut places = vec![in alloc; None; blocks_in(size)]?;
        let mapped = set(&mut places, extents);
        Ok(FilePlaces { places, mapped })
    }

    /// Follows a file to its new size. At an `Err` nothing has changed. It costs the blocks that the size adds or takes away.
    #[tactic(auto, using(crate::proofs::MappedPlaces::fit_steps))]
    pub(crate) fn fit(&mut self, size: u64) -> Result<(), AllocError>
        requires { size ≤ FILE_BYTES }
        ensures ok { OnOk result (self.new ≡ places_fitted size self.old) }
        ensures err { OnErr result (self.new ≡ self.old) }
    {
        let count = blocks_in(size);
        let cut = count_from(self.places.as_slice(), count);
        self.places.resize(count, None)?;
        self.mapped -= cut;
        Ok(())
    }

    /// Gives the blocks from that one on these places. It costs the places.
    #[tactic(auto, using(crate::proofs::MappedPlaces::mapped_steps))]
    pub(crate) fn map(&mut self, block: u32, places: &[u32])
        requires { block + length places.now ≤ length self.old }
        ensures { self.new ≡ places_set (mappings_from block places.now) self.old }
    {
        self.mapped += set_from(&mut self.places, block as usize, places);
    }

    /// Makes holes of the blocks of the segment. It takes no memory, and costs those blocks.
    pub(crate) fn clear_segment(&mut self, segment: u32)
        ensures { self.new ≡ places_without segment self.old }
    {
        self.mapped -= clear_segment(&mut self.places, segment);
    }
}

/// Which of the places of a file's blocks are those of the segment: none of a segment past the last block.
#[tactic(auto, using(crate::proofs::LawfulStubs::window))]
pub fn segment_places(places: &[Option<u32>], segment: u32) -> &[Option<u32>]
    ensures { result.now ≡ places_in_segment segment places.now }
{
    let (from, to) = segment_range(places.len(), segment);
    &places[from..to]
}

/// From which block of a file of so many on the segment has its blocks, and up to which.
fn segment_range(count: usize, segment: u32) -> (usize, usize)
    requires { count < 2 ^ 63 }
    ensures { result ≡ (min count (SEGMENT_BLOCKS * segment), min count (min count (SEGMENT_BLOCKS * segment) + SEGMENT_BLOCKS)) }
{
    let from = count.min(segment as usize * SEGMENT_BLOCKS as usize);
    (from, count.min(from + SEGMENT_BLOCKS as usize))
}

/// How many of a file's places aren't holes.
#[tactic(auto, using(crate::proofs::MappedPlaces::mapped_steps))]
pub fn count_present(places: &[Option<u32>]) -> u32
    requires { length places.now ≤ file_blocks }
    ensures { result ≡ length (present places.now) }
{
    let mut count = 0;
    for place in places {
        if place.is_some() {
            count += 1;
        }
    }
    count
}

/// How many of a file's places from that block on aren't holes.
fn count_from(places: &[Option<u32>], block: usize) -> u32
    requires { length places.now ≤ file_blocks }
    ensures { result ≡ length (present (drop block places.now)) }
{
    if block < places.len() {
        count_present(&places[block..])
    } else {
        0
    }
}

/// How many blocks a file of that size has.
fn blocks_in(size: u64) -> usize
    requires { size ≤ FILE_BYTES }
    ensures { result ≡ blocks_in size }
{
    ((size + (BLOCK_BYTES - 1)) / BLOCK_BYTES) as usize
}

/// Gives blocks new places, one after the other, and tells how many of them were holes.
#[tactic(auto, using(crate::proofs::MappedPlaces::mapped_steps))]
fn set(places: &mut Vec<Option<u32>>, mappings: &[Mapping]) -> u32
    requires blocks { AllByRecursion (λ m. m.block < length places.old.items) mappings.now }
    requires few { length places.old.items ≤ file_blocks }
    ensures places { places.new.items ≡ places_set mappings.now places.old.items }
    ensures added { result + length (present places.old.items) ≡ length (present places.new.items) }
{
    let mut added = 0;
    for mapping in mappings {
        added += put(places, mapping.block as usize, mapping.place);
    }
    added
}

/// Gives the blocks from that one on these places, and tells how many of them were holes.
#[tactic(auto, using(crate::proofs::MappedPlaces::mapped_steps))]
fn set_from(places: &mut Vec<Option<u32>>, first: usize, new: &[u32]) -> u32
    requires blocks { first + length new.now ≤ length places.old.items }
    requires few { length places.old.items ≤ file_blocks }
    ensures places { places.new.items ≡ places_set (mappings_from first new.now) places.old.items }
    ensures added { result + length (present places.old.items) ≡ length (present places.new.items) }
{
    let mut added = 0;
    for (i, place) in new.iter().enumerate() {
        added += put(places, first + i, *place);
    }
    added
}

/// Gives a block a new place, and tells how many holes there are less.
#[tactic(auto, using(crate::proofs::MappedPlaces::mapped_steps))]
fn put(places: &mut Vec<Option<u32>>, block: usize, place: u32) -> u32
    requires { block < length places.old.items }
    ensures places { places.new.items ≡ slice_set places.old.items block (Some place) }
    ensures added { result + length (present places.old.items) ≡ length (present places.new.items) }
{
    let added = hole(places[block]);
    places[block] = Some(place);
    added
}

/// Makes holes of the blocks of the segment, and tells how many holes there are more.
fn clear_segment(places: &mut Vec<Option<u32>>, segment: u32) -> u32
    requires few { length places.old.items ≤ file_blocks }
    ensures places { places.new.items ≡ places_without segment places.old.items }
    ensures cleared { result + length (present places.new.items) ≡ length (present places.old.items) }
{
    let cleared = count_present(segment_places(places, segment));
    let (from, to) = segment_range(places.len(), segment);
    places[from..to].fill(None);
    cleared
}

/// 1 of a hole, and 0 of a place.
fn hole(place: Option<u32>) -> u32
    ensures { result + length (present (place ∷ [])) ≡ 1 }
{
    match place {
        Some(_) => 0,
        None => 1,
    }
}
