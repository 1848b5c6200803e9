//! What is kept of one file beside its key, its name and its size.
ghost use Rattle.std.specs.Prelude.{◌≡◌, ◌↔◌, ◌++◌, ◌+◌, ◌≤◌, ◌∷◌, [], length, take, drop, Err, None, Some, true, false, if◌then◌else◌, IfErr, IsOk, IsErrOf, OnOk};
ghost use Rattle.std.specs.Prelude.{OnErr, MatchOption, MatchResult};
ghost use Rattle.std.specs.List.{AllByRecursion};
ghost use Rattle.std.specs.Option.{option_map};
ghost use Rattle.hsm_types.specs.Attributes.{bytes_of_attributes};
ghost use Rattle.hsm_types.specs.Limits.{IsCountable};
ghost use Rattle.hsm_types.specs.Refusals.{first_refusal};
ghost use Rattle.hsm_types.specs.Regions.{regions_refusal};
ghost use Rattle.hsm_types.specs.Segments.{segments_in};
ghost use Rattle.hsm_types.specs.Stubs.{offline_at, stubs_below, too_many_stubs, uncovered, with_stub, without_stub};
ghost use Rattle.hsm_types.specs.declared.dm.DmRefusal.TheVariants.{Memory};
ghost use Rattle.hsm_types.specs.declared.dm.DmRefusal.{DmRefusal};
ghost use Rattle.snapshot_text.specs.Parts.{no_parts, kept_in, parts_after, FitsParts, IsNumbered, IsNamed};
ghost use Rattle.snapshot_text.specs.Files.{NumbersFit, present, places_in_segment};
ghost use Rattle.snapshot_text.specs.FileRecords.{part_refusal, places_fitted, places_without, FitsStub, IsSure};

use crate::file_places::{FilePlaces, count_present, segment_places};
use crate::kept::name_len;
use crate::refusal::MetaRefusal;
use dm_attrs::DmAttrs;
use hsm_types::{DmRefusal, FILE_BYTES, Geometry, Limits, Regions, Stub, segments_in};
use journal_records::Record;
use managed_regions::ManagedRegions;
use std::alloc::{AllocError, Global};
use stub_map::{State, StubMap};

/// Where the blocks of a file lie, and what sessions keep with it.
#[derive(Drop)]
pub struct FileParts {
    pub places: FilePlaces,
    pub regions: ManagedRegions,
    pub attributes: DmAttrs,
    pub stubs: StubMap,
}

/// What all other files have.
#[derive(Clone, Copy)]
pub struct Others {
    /// What their attributes count.
    pub attributes: u64,
    /// How many stub entries they have.
    pub stubs: u32,
}

impl FileParts {
    /// Of no blocks, and with nothing kept. It takes no memory.
    pub fn new(alloc: Global) -> FileParts
        ensures { result ≡ no_parts }
    {
        FileParts {
            places: FilePlaces::new(alloc),
            regions: ManagedRegions::new(alloc),
            attributes: DmAttrs::new(alloc),
            stubs: StubMap::new(alloc),
        }
    }

    /// Changes them as a record about their file says, where all other files have `others`, in a store of that geometry.
    pub fn apply(
        &mut self,
        alloc: Global,
        change: Record,
        others: Others,
        geometry: Geometry,
    ) -> Result<(), MetaRefusal>
        requires fits { FitsParts change self.old }
        requires attributes { others.attributes ≤ geometry.attributes }
        requires stubs { others.stubs ≤ geometry.stubs }
        requires countable { IsCountable geometry.limits }
        ensures judged { OnOk result (part_refusal change others geometry (kept_in self.old) ≡ None) }
        ensures taken { OnOk result (self.new ≡ parts_after change self.old) }
        ensures refused { (why : DmRefusal) → (result ≡ Err (MetaRefusal.Part why)) ↔ (part_refusal change others geometry (kept_in self.old) ≡ Some why) }
        ensures no_disk { IsErrOf result MetaRefusal.Disk → ⊥ }
        ensures sure { IsSure change → IsOk result }
        // They count no more than what all may.
        ensures within { OnOk result (others.attributes + bytes_of_attributes self.old.attributes ≤ geometry.attributes → others.attributes + bytes_of_attributes self.new.attributes ≤ geometry.attributes) }
        ensures regions { OnOk result (regions_refusal geometry.limits self.old.regions ≡ None → regions_refusal geometry.limits self.new.regions ≡ None) }
        // Names of attributes have eight bytes.
        ensures eight { AllByRecursion (λ a. length a.0.0 ≡ 8) self.old.attributes → AllByRecursion (λ a. length a.0.0 ≡ 8) self.new.attributes }
        ensures numbers { IsNumbered change }
        ensures err { OnErr result (self.new ≡ self.old) }
    {
        Ok(self.change(alloc, change, others, geometry)?)
    }

    /// Changes them as a record says, unless the part that it is about refuses it.
    fn change(
        &mut self,
        alloc: Global,
        change: Record,
        others: Others,
        geometry: Geometry,
    ) -> Result<(), DmRefusal>
        requires fits { FitsParts change self.old }
        requires attributes { others.attributes ≤ geometry.attributes }
        requires stubs { others.stubs ≤ geometry.stubs }
        requires countable { IsCountable geometry.limits }
        ensures judged { OnOk result (part_refusal change others geometry (kept_in self.old) ≡ None) }
        ensures refused { IfErr result (λ why. MatchOption (part_refusal change others geometry (kept_in self.old)) (why ≡ Memory) (λ cause. why ≡ cause)) }
        ensures taken { OnOk result (self.new ≡ parts_after change self.old) }
        ensures sure { IsSure change → IsOk result }
        ensures names { IsNamed change }
        ensures numbers { IsNumbered change }
        ensures err { OnErr result (self.new ≡ self.old) }
    {
        match change {
            Record::Make { name: _name, .. } => Ok(()),
            Record::Drop { .. } => Ok(()),
            Record::Size { size, .. } => self.resize(size),
            Record::Map { block, places, .. } => {
                self.places.map(block, places.as_slice());
                Ok(())
            }
            Record::Regions { regions, .. } => self.set_regions(alloc, geometry.limits, regions),
            Record::SetAttr { name, value, .. } => {
                // Read for the eight bytes of each name.
                let _len = name_len(name);
                let limit = u64::from(geometry.attributes);
                self.attributes.set(name, value, others.attributes, limit)
            }
            Record::DropAttr { name, .. } => self.attributes.remove(name),
            Record::Stub { segment, stub, .. } => match stub {
                Some(stub) => self.set_stub(segment, stub, others.stubs, geometry.stubs),
                None => {
                    self.drop_stub(segment);
                    Ok(())
                }
            },
        }
    }

    /// Follows the file to its new size. At an `Err` nothing has changed.
    fn resize(&mut self, size: u64) -> Result<(), DmRefusal>
        requires { size ≤ FILE_BYTES }
        ensures ok { OnOk result (self.new ≡ record self.old { places = places_fitted size self.old.places; stubs = stubs_below (segments_in size) self.old.stubs }) }
        ensures memory { IfErr result (λ why. why ≡ Memory) }
        ensures err { OnErr result (self.new ≡ self.old) }
    {
        let Ok(()) = self.places.fit(size) else {
            return Err(DmRefusal::Memory);
        };
        self.stubs.cut(segments_in(size));
        Ok(())
    }

    /// Takes these regions in the place of the old ones, unless they aren't lawful or leave a segment uncovered that is offline.
    fn set_regions(
        &mut self,
        alloc: Global,
        limits: Limits,
        regions: Regions,
    ) -> Result<(), DmRefusal>
        requires { IsCountable limits }
        ensures judged { MatchResult result (λ _. first_refusal (regions_refusal limits regions ∷ uncovered regions self.old.stubs ∷ []) ≡ None) (λ why. first_refusal (regions_refusal limits regions ∷ uncovered regions self.old.stubs ∷ []) ≡ Some why) }
        ensures lawful { OnOk result (regions_refusal limits regions ≡ None) }
        ensures taken { OnOk result (self.new ≡ record self.old { regions = regions }) }
        ensures err { OnErr result (self.new ≡ self.old) }
    {
        let mut new = ManagedRegions::new(alloc);
        new.set(limits, regions)?;
        if let Some(segment) = self.first_uncovered(&new) {
            return Err(DmRefusal::Uncovered { segment });
        }
        self.regions = new;
        Ok(())
    }

    /// The lowest segment that is offline and that these regions leave uncovered.
    fn first_uncovered(&self, regions: &ManagedRegions) -> Option<u32>
        ensures { uncovered regions.now self.now.stubs ≡ option_map (λ segment. DmRefusal.Uncovered segment) result }
    {
        for (segment, stub) in self.stubs.iter() {
            if stub.offline && !regions.covers(*segment) {
                return Some(*segment);
            }
        }
        None
    }

    /// The segment has no entry. It takes no memory.
    #[tactic(auto, using(crate::proofs::StubLists::unsealed))]
    fn drop_stub(&mut self, segment: u32)
        requires { offline_at self.old.stubs segment ≡ false }
        ensures { self.new ≡ record self.old { stubs = without_stub segment self.old.stubs } }
    {
        self.stubs.unseal(segment);
    }

    /// The segment has this entry. Where it says so, its blocks go.
    fn set_stub(
        &mut self,
        segment: u32,
        stub: Stub,
        others: u32,
        limit: u32,
    ) -> Result<(), DmRefusal>
        requires fits { FitsStub segment stub self.old.stubs }
        requires others { others ≤ limit }
        ensures judged { OnOk result (too_many_stubs segment others limit self.old.stubs ≡ None) }
        ensures taken { OnOk result (self.new ≡ record self.old { places = if stub.offline then places_without segment self.old.places else self.old.places; stubs = with_stub segment stub self.old.stubs }) }
        ensures refused { IfErr result (λ why. MatchOption (too_many_stubs segment others limit self.old.stubs) (why ≡ Memory) (λ cause. why ≡ cause)) }
        ensures sure { stub.offline ≡ true → IsOk result }
        ensures numbers { NumbersFit (segment, stub) }
        ensures err { OnErr result (self.new ≡ self.old) }
    {
        // Read for the order of the entries.
        let _count = self.stubs.len();
        if stub.offline {
            self.stubs.punch(segment)?;
            self.places.clear_segment(segment);
            return Ok(());
        }
        match self.stubs.state(segment) {
            State::Offline(_) => self.stubs.restore(segment),
            _ => self.stubs.seal(segment, stub.entry, others, limit),
        }
    }

    /// How many of the file's blocks have a place.
    pub fn mapped(&self) -> u64
        ensures { result ≡ length (present self.now.places) }
    {
        u64::from(self.places.mapped())
    }

    /// How many blocks of the segment have a place. It costs these blocks.
    pub fn mapped_in(&self, segment: u32) -> u32
        ensures { result ≡ length (present (places_in_segment segment self.now.places)) }
    {
        count_present(segment_places(self.places.as_slice(), segment))
    }

    /// Puts the blocks of the disk behind the others that the file has from its block `first` on, so many of its blocks. It costs these.
    pub fn put_run(&self, first: u32, count: u32, blocks: &mut Vec<u32>) -> Result<(), AllocError>
        ensures { OnOk result (blocks.new.items ≡ blocks.old.items ++ present (take count (drop first self.now.places))) }
    {
        let places = self.places.as_slice();
        let start = places.len().min(first as usize);
        let count = (places.len() - start).min(count as usize);
        put_present(blocks, &places[start..start + count])
    }

    /// Puts the blocks of the disk behind the others that the file has from its block `first` on. It costs the file's blocks from there.
    pub fn put_from(&self, first: u32, blocks: &mut Vec<u32>) -> Result<(), AllocError>
        ensures { OnOk result (blocks.new.items ≡ blocks.old.items ++ present (drop first self.now.places)) }
    {
        let places = self.places.as_slice();
        put_present(blocks, &places[places.len().min(first as usize)..])
    }

    /// The place of each block, which a hole has not.
    pub fn places(&self) -> &[Option<u32>]
        ensures { result.now ≡ self.now.places }
    {
        self.places.as_slice()
    }

    /// The regions.
    pub fn regions(&self) -> &ManagedRegions
        ensures { result.now ≡ self.now.regions }
    {
        &self.regions
    }

    /// The attributes.
    pub fn attributes(&self) -> &DmAttrs
        ensures { result.now ≡ self.now.attributes }
    {
        &self.attributes
    }

    /// The stub entries.
    pub fn stubs(&self) -> &StubMap
        ensures { result.now ≡ self.now.stubs }
    {
        &self.stubs
    }
}

/// Puts the blocks of the disk among these places behind the others.
fn put_present(blocks: &mut Vec<u32>, places: &[Option<u32>]) -> Result<(), AllocError>
    ensures { OnOk result (blocks.new.items ≡ blocks.old.items ++ present places.now) }
{
    for place in places {
        if let Some(block) = *place {
            blocks.push(block)?;
        }
    }
    Ok(())
}
