//! A file of the store while batches are taken.
ghost use Rattle.std.specs.Prelude.{◌≡◌, ℕ, length, ◌+◌, ◌*◌, ◌^◌, ◌<◌, ◌≤◌, ◌/◌, map, filter, not, ◌&&◌, nat_lt, nat_le, IfOk, OnOk, Any, MatchOption};
ghost use Rattle.hsm_types.specs.Attributes.{bytes_of_attributes, without_value};
ghost use Rattle.hsm_types.specs.Segments.{segments_in};
ghost use Rattle.hsm_types.specs.Stubs.{stubs_below, without_stub};
ghost use Rattle.journal_fold.specs.FoldedFiles.{mapping_of};
ghost use Rattle.meta_store.specs.Batches.{file_changed, empty_file, with_extents, extents_below, extents_without};
ghost use Rattle.plain_model.specs.Blocks.{blocks_in};
ghost use Rattle.snapshot_text.specs.FileRecords.{mappings_from};
ghost use Rattle.snapshot_text.specs.Snapshots.{raw_file};

use crate::entries::{drop_entry, put_entry};
use hsm_types::{
    ATTRIBUTE_COST, AttrName, BLOCK_BYTES, Bytes, FileKey, Regions, SEGMENT_BLOCKS, SEGMENT_BYTES,
    Stub, Word,
};
use journal_records::Record;
use snapshot_text::{Mapping, RawFile};
use std::alloc::{AllocError, Global};
use std::marker::Model;

/// A file as a snapshot spells it, while the records of batches change it. Between two records of a batch it may have what no file can have at its end:
/// blocks past its size, and past the last that a snapshot could name. Contracts see it as the snapshot's.
#[derive(Drop)]
pub struct FoldedFile {
    key: FileKey,
    name: Word,
    size: u64,
    regions: Regions,
    attributes: Vec<(AttrName, Bytes)>,
    /// Each block with its place on the disk.
    extents: Vec<(u64, u32)>,
    stubs: Vec<(u32, Stub)>,
}

impl Model for FoldedFile {
    ghost use Rattle.snapshot_text.specs.Snapshots.{SnapshotFile};
    ghost use Rattle.journal_fold.specs.FoldedFiles.{file_seen};

    ghost Value = { SnapshotFile };

    ghost view = { λ f. file_seen f.key f.name f.size f.regions f.attributes.items f.extents.items f.stubs.items };
}

impl FoldedFile {
    /// The file that a snapshot spells.
    #[tactic(auto, using(crate::proofs::WideExtents::widened))]
    pub fn of(alloc: Global, file: RawFile) -> Result<FoldedFile, AllocError>
        ensures { IfOk result (λ f. f ≡ raw_file file) }
    {
        let extents = widened(alloc, file.extents.as_slice())?;
        Ok(FoldedFile {
            key: file.key,
            name: file.name,
            size: file.size,
            regions: file.regions,
            attributes: file.attributes,
            extents,
            stubs: file.stubs,
        })
    }

    /// A new file, empty.
    pub fn empty(alloc: Global, key: FileKey, name: Word) -> FoldedFile
        ensures { result ≡ empty_file key name }
    {
        FoldedFile {
            key,
            name,
            size: 0,
            regions: Regions::from(Vec::new(alloc)),
            attributes: Vec::new(alloc),
            extents: Vec::new(alloc),
            stubs: Vec::new(alloc),
        }
    }

    /// What the file is known by.
    pub fn key(&self) -> FileKey
        ensures { result ≡ self.now.key }
    {
        self.key
    }

    /// What callers know it by.
    pub fn name(&self) -> &Word
        ensures { result.now ≡ self.now.name }
    {
        &self.name
    }

    /// Its blocks, each with its place on the disk.
    pub(crate) fn extents(&self) -> &[(u64, u32)]
        ensures { map mapping_of result.now ≡ self.now.extents }
    {
        self.extents.as_slice()
    }

    /// What its attributes count.
    pub(crate) fn attribute_bytes(&self) -> u64
        requires { bytes_of_attributes self.now.kept.attributes < 2 ^ 32 }
        ensures { result ≡ bytes_of_attributes self.now.kept.attributes }
    {
        bytes_of(self.attributes.as_slice())
    }

    /// How many stub entries it has.
    pub(crate) fn stub_count(&self) -> u64
        ensures { result ≡ length self.now.kept.stubs }
    {
        self.stubs.len() as u64
    }

    /// A copy of the file as a snapshot spells it. `None` where no snapshot could: a block of it is past the last that has a number there.
    pub fn to_raw(&self, alloc: Global) -> Result<Option<RawFile>, AllocError>
        ensures { IfOk result (λ r. MatchOption r (Any (λ e. 2 ^ 32 ≤ e.block) self.now.extents) (λ raw. raw_file raw ≡ self.now)) }
    {
        let Some(extents) = narrowed(alloc, self.extents.as_slice())? else {
            return Ok(None);
        };
        Ok(Some(RawFile {
            key: self.key,
            size: self.size,
            name: self.name.clone()?,
            regions: self.regions.clone()?,
            attributes: copied(alloc, self.attributes.as_slice())?,
            extents,
            stubs: Vec::from_slice(alloc, self.stubs.as_slice())?,
        }))
    }

    /// Changes the file as a record about it says. At an `Err` nothing is said of it.
    pub fn change(&mut self, change: Record) -> Result<(), AllocError>
        ensures { OnOk result (self.new ≡ file_changed change self.old) }
    {
        match change {
            Record::Make { name: _name, .. } => Ok(()),
            Record::Drop { .. } => Ok(()),
            Record::Size { size, .. } => {
                self.resize(size);
                Ok(())
            }
            Record::Map { block, places, .. } => put_run(
                &mut self.extents,
                block,
                places.as_slice(),
            ),
            Record::Regions { regions, .. } => {
                self.regions = regions;
                Ok(())
            }
            Record::SetAttr { name, value, .. } => put_entry(&mut self.attributes, name, value),
            Record::DropAttr { name, .. } => {
                drop_attribute(&mut self.attributes, name);
                Ok(())
            }
            Record::Stub { segment, stub, .. } => self.set_stub(segment, stub),
        }
    }

    /// Gives a segment this entry, or none. Where it says so, the segment's blocks go.
    fn set_stub(&mut self, segment: u32, stub: Option<Stub>) -> Result<(), AllocError>
        ensures { OnOk result ((ino : ℕ) → self.new ≡ file_changed (Record.Stub ino segment stub) self.old) }
    {
        let Some(stub) = stub else {
            drop_stub(&mut self.stubs, segment);
            return Ok(());
        };
        if stub.offline {
            drop_segment(&mut self.extents, segment);
        }
        put_entry(&mut self.stubs, segment, stub)
    }

    /// Gives the file that size. Blocks and stub entries wholly past it go.
    fn resize(&mut self, size: u64)
        ensures { self.new ≡ record self.old { size = size; extents = extents_below (blocks_in size) self.old.extents; kept = record self.old.kept { stubs = stubs_below (segments_in size) self.old.kept.stubs } } }
    {
        self.size = size;
        keep_below(&mut self.extents, size.div_ceil(BLOCK_BYTES));
        keep_stubs_below(&mut self.stubs, size.div_ceil(SEGMENT_BYTES));
    }
}

/// Extents with the numbers of blocks as wide as records may make them.
fn widened(alloc: Global, extents: &[Mapping]) -> Result<Vec<(u64, u32)>, AllocError>
    ensures { IfOk result (λ wide. wide.items ≡ map (λ e. (e.block, e.place)) extents.now) }
{
    extents
        .iter()
        .map(|e| (u64::from(e.block), e.place))
        .collect(alloc)
}

/// Extents with the numbers of blocks as a snapshot has them. `None` where one of them is too great.
fn narrowed(alloc: Global, extents: &[(u64, u32)]) -> Result<Option<Vec<Mapping>>, AllocError>
    ensures { IfOk result (λ r. MatchOption r (Any (λ e. 2 ^ 32 ≤ e.block) (map mapping_of extents.now)) (λ narrow. narrow.items ≡ map mapping_of extents.now)) }
{
    let mut narrow = Vec::with_capacity(alloc, extents.len())?;
    for (block, place) in extents {
        if *block > u64::from(u32::MAX) {
            return Ok(None);
        }
        narrow.push(Mapping {
            block: *block as u32,
            place: *place,
        })?;
    }
    Ok(Some(narrow))
}

/// What attributes count.
fn bytes_of(attributes: &[(AttrName, Bytes)]) -> u64
    requires { bytes_of_attributes attributes.now < 2 ^ 32 }
    ensures { result ≡ bytes_of_attributes attributes.now }
{
    let mut bytes = 0;
    for attribute in attributes {
        bytes += ATTRIBUTE_COST + attribute.1.as_slice().len() as u64;
    }
    bytes
}

/// A copy of attributes.
fn copied(
    alloc: Global,
    attributes: &[(AttrName, Bytes)],
) -> Result<Vec<(AttrName, Bytes)>, AllocError>
    ensures { IfOk result (λ copy. copy.items ≡ attributes.now) }
{
    let mut copy = Vec::with_capacity(alloc, attributes.len())?;
    for (name, value) in attributes {
        copy.push((*name, value.clone()?))?;
    }
    Ok(copy)
}

/// Gives the blocks from that one on these places.
fn put_run(extents: &mut Vec<(u64, u32)>, first: u32, places: &[u32]) -> Result<(), AllocError>
    ensures { OnOk result (map mapping_of extents.new.items ≡ with_extents (mappings_from first places.now) (map mapping_of extents.old.items)) }
{
    let mut block = u64::from(first);
    for place in places {
        put_entry(extents, block, *place)?;
        block += 1;
    }
    Ok(())
}

/// Keeps the extents of the first `count` blocks.
fn keep_below(extents: &mut Vec<(u64, u32)>, count: u64)
    ensures { map mapping_of extents.new.items ≡ extents_below count (map mapping_of extents.old.items) }
{
    extents.retain(|e| e.0 < count);
}

/// Drops the extents of a segment's blocks.
fn drop_segment(extents: &mut Vec<(u64, u32)>, segment: u32)
    ensures { map mapping_of extents.new.items ≡ extents_without segment (map mapping_of extents.old.items) }
{
    let blocks = u64::from(SEGMENT_BLOCKS);
    let first = blocks * u64::from(segment);
    let end = first + blocks;
    extents.retain(|e| e.0 < first || end <= e.0);
}

/// Keeps the entries of the first `count` segments.
fn keep_stubs_below(stubs: &mut Vec<(u32, Stub)>, count: u64)
    ensures { stubs.new.items ≡ stubs_below count stubs.old.items }
{
    stubs.retain(|x| u64::from(x.0) < count);
}

/// Drops the entry of a segment, if it has one.
fn drop_stub(stubs: &mut Vec<(u32, Stub)>, segment: u32)
    ensures { stubs.new.items ≡ without_stub segment stubs.old.items }
{
    stubs.retain(|x| x.0 != segment);
}

/// Drops the attribute of that name, if there is one.
fn drop_attribute(attributes: &mut Vec<(AttrName, Bytes)>, name: AttrName)
    ensures { attributes.new.items ≡ without_value name attributes.old.items }
{
    drop_entry(attributes, name);
}
