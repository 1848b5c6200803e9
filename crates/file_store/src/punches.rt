//! Segments of a file whose bytes go away.
ghost use Rattle.std.specs.Prelude.{◌≡◌, ◌≤◌, ◌-◌, ◌*◌, true, false, Err, None, Some, length, IfOk, OnOk, MatchResult, IsErrOf, IsSome};
ghost use Rattle.hsm_types.specs.Limits.{file_segments, segment_bytes};
ghost use Rattle.hsm_types.specs.Segments.{from_on, segments_in};
ghost use Rattle.hsm_types.specs.Stubs.{any_unpunched, not_punched, stub_at};
ghost use Rattle.hsm_types.specs.declared.dm.DmRefusal.{DmRefusal};
ghost use Rattle.plain_model.specs.Effects.{Punches};
ghost use Rattle.hsm_types.specs.Keyed.{find_key};
ghost use Rattle.plain_model.specs.State.{bytes_of};
ghost use Rattle.snapshot_text.specs.Files.{CatalogFile, present};
ghost use Rattle.meta_store.specs.Records.{kept_at};
ghost use Rattle.file_store.specs.Punches.{away_by, places_between, punch_records};
ghost use Rattle.file_store.specs.Changes.{Changes};

use crate::events::make_durable;
use crate::loading::slot;
use crate::refusals::is_disk;
use crate::store::FileStore;
use disk_model::Disk;
use hsm_types::{DmRefusal, FileKey, LAST_NUMBER, SEGMENT_BLOCKS, Stub};
use journal_records::{Record, Records};
use managed_regions::ManagedRegions;
use meta_store::Catalog;
use snapshot_text::{FileParts, MetaRefusal};
use std::alloc::{AllocError, Global};
use std::snapshot::Snapshot;
use stub_map::{State, StubMap};

/// The records by which segments go away, and the blocks that are free then.
#[derive(Drop)]
pub(crate) struct Punch {
    records: Records,
    freed: Vec<u32>,
}

/// Plans that the segments of a live file go away from the first up to the second, unless one of them can't. It costs the segments.
pub(crate) fn plan(
    alloc: Global,
    catalog: &Catalog,
    key: FileKey,
    from: u32,
    to: u32,
) -> Result<Punch, MetaRefusal>
    requires live { IsSome (find_key (λ f. f.key) key catalog.now.files) }
    requires order { from ≤ to }
    requires few { to ≤ file_segments }
    ensures judged { OnOk result (any_unpunched (kept_at key catalog.now).regions (kept_at key catalog.now).stubs from to ≡ None) }
    ensures records { IfOk result (λ p. p.records ≡ punch_records key.ino (kept_at key catalog.now).stubs (from_on from (to - from))) }
    ensures freed { IfOk result (λ p. (f : CatalogFile) → find_key (λ f. f.key) key catalog.now.files ≡ Some f → p.freed.items ≡ present (places_between from to f.places)) }
    ensures refused { (why : DmRefusal) → IsErrOf result (MetaRefusal.Part why) → any_unpunched (kept_at key catalog.now).regions (kept_at key catalog.now).stubs from to ≡ Some why }
    ensures no_disk { IsErrOf result MetaRefusal.Disk → ⊥ }
{
    let parts = catalog.parts(key);
    let records = records_of(alloc, key.ino, parts.stubs(), parts.regions(), from, to)?;
    let freed = blocks_in(alloc, parts, from, to)?;
    Ok(Punch { records, freed })
}

/// The record of each segment from the first up to the second, or what refuses the lowest that can't go away.
fn records_of(
    alloc: Global,
    ino: u64,
    stubs: &StubMap,
    regions: &ManagedRegions,
    from: u32,
    to: u32,
) -> Result<Records, MetaRefusal>
    requires { from ≤ to }
    ensures judged { OnOk result (any_unpunched regions.now stubs.now from to ≡ None) }
    ensures records { IfOk result (λ rs. rs ≡ punch_records ino stubs.now (from_on from (to - from))) }
    ensures refused { (why : DmRefusal) → IsErrOf result (MetaRefusal.Part why) → any_unpunched regions.now stubs.now from to ≡ Some why }
    ensures no_disk { IsErrOf result MetaRefusal.Disk → ⊥ }
{
    let mut records = Vec::new(alloc);
    for segment in from..to {
        let stub = match goes(stubs, regions, segment) {
            Ok(stub) => Some(stub),
            Err(why) => return Err(MetaRefusal::Part(why)),
        };
        let Ok(()) = records.push(Record::Stub { ino, segment, stub }) else {
            return Err(MetaRefusal::Memory);
        };
    }
    Ok(Records::from(records))
}

/// The entry that stands for a segment's bytes once they are away, or why they can't be.
fn goes(stubs: &StubMap, regions: &ManagedRegions, segment: u32) -> Result<Stub, DmRefusal>
    ensures judged { MatchResult result (λ _. not_punched regions.now stubs.now segment ≡ None) (λ why. not_punched regions.now stubs.now segment ≡ Some why) }
    ensures entry { IfOk result (λ stub. away_by (stub_at segment stubs.now) ≡ Some stub) }
{
    match stubs.state(segment) {
        State::Offline(_) => Err(DmRefusal::Offline { segment }),
        State::Resident => Err(DmRefusal::NotSealed { segment }),
        State::Sealed(entry) => {
            if !regions.covers(segment) {
                return Err(DmRefusal::Uncovered { segment });
            }
            Ok(Stub {
                entry,
                offline: true,
            })
        }
    }
}

/// The blocks of the segments from the first up to the second.
fn blocks_in(alloc: Global, parts: &FileParts, from: u32, to: u32) -> Result<Vec<u32>, AllocError>
    requires order { from ≤ to }
    requires few { to ≤ file_segments }
    ensures { IfOk result (λ v. v.items ≡ present (places_between from to parts.now.places)) }
{
    let count = SEGMENT_BLOCKS * (to - from);
    let mut freed = Vec::new(alloc);
    parts.put_run(SEGMENT_BLOCKS * from, count, &mut freed)?;
    Ok(freed)
}

impl<D: Disk> FileStore<D> {
    /// Lets the segments of a live file go away for which that was planned: its entries are taken, and then their blocks are free. It costs the
    /// segments, and no byte.
    pub(crate) fn let_go(
        &mut self,
        alloc: Global,
        key: FileKey,
        from: u32,
        to: u32,
        punch: Punch,
        number: u64,
    ) -> Result<(), MetaRefusal>
        requires working { self.old.failed ≡ false }
        requires rises { self.old.meta.number ≤ number }
        requires live { IsSome (find_key (λ f. f.key) key self.old.held.files) }
        requires start { segment_bytes * from ≤ length (bytes_of key self.old.held.files) }
        requires order { from ≤ to }
        requires end { to ≤ segments_in (length (bytes_of key self.old.held.files)) }
        requires judged { any_unpunched (kept_at key self.old.meta.current).regions (kept_at key self.old.meta.current).stubs from to ≡ None }
        requires records { punch.records ≡ punch_records key.ino (kept_at key self.old.meta.current).stubs (from_on from (to - from)) }
        requires freed { (f : CatalogFile) → find_key (λ f. f.key) key self.old.meta.current.files ≡ Some f → punch.freed.items ≡ present (places_between from to f.places) }
        ensures changed { Changes D.Disk self.old number key (Punches from to) None result self.new }
    {
        // Asked for what is true of the disk.
        let _failed = self.has_failed();
        if number > LAST_NUMBER {
            return Err(MetaRefusal::Memory);
        }
        let before = Snapshot::of(&self.bodies);
        let Punch { records, freed } = punch;
        match self.meta.apply(alloc, &mut self.disk, records, number) {
            Ok(wrote) => {
                self.bodies[slot(key.ino)].leave(from, to);
                make_durable(wrote, before, &mut self.durable, &mut self.space);
                self.space.release_all(&freed);
                Ok(())
            }
            Err(refusal) => {
                self.failed = is_disk(refusal);
                Err(refusal)
            }
        }
    }
}
