//! Two of the three ways of an event: a record that concerns no bytes, and bytes with their records. Each hands its records to one call.
ghost use Rattle.std.specs.Prelude.{◌≡◌, ◌+◌, ◌-◌, ◌*◌, ◌≤◌, ◌<◌, ◌^◌, true, false, if◌then◌else◌, None, Some, Err, length, take, slice_set, IfOk};
ghost use Rattle.std.specs.Prelude.{OnOk, OnErr, IsErrOf, IsSome};
ghost use Rattle.std.specs.List.{AllByRecursion};
ghost use Rattle.disk_model.specs.Calls.{Counts};
ghost use Rattle.disk_model.specs.Moments.{Keeps};
ghost use Rattle.commit_slots.specs.Places.{layout_of};
ghost use Rattle.hsm_types.specs.Limits.{block_bytes};
ghost use Rattle.hsm_types.specs.declared.dm.DmRefusal.{DmRefusal};
ghost use Rattle.hsm_types.specs.Keyed.{find_key};
ghost use Rattle.plain_model.specs.Blocks.{touched};
ghost use Rattle.plain_model.specs.Services.{kept_of};
ghost use Rattle.plain_model.specs.Sound.{IsSound};
ghost use Rattle.plain_model.specs.State.{file_at, bytes_of, used};
ghost use Rattle.block_space.specs.Space.{marked, free};
ghost use Rattle.file_body.specs.HeldBodies.{no_body};
ghost use Rattle.snapshot_text.specs.Files.{CatalogFile, geometry_of};
ghost use Rattle.meta_store.specs.Records.{CanStand, refusal_of};
ghost use Rattle.file_store.specs.Rewrites.{effect_of, IsRewrite, IsAllowedBy, IsWithin, HasEntry, BringsOffline, BringsAway, HasRoom, touched_of};
ghost use Rattle.file_store.specs.Rewrites.{places_for};
ghost use Rattle.file_store.specs.Bodies.{IsAlike};
ghost use Rattle.file_store.specs.Steps.{IsBesideBlocks, IsStaged};
ghost use Rattle.file_store.specs.Changes.{Ends, Changes};
ghost use Rattle.file_store.specs.Effects.{IsBodiless, IsFreed, held_after, empties};
ghost use Rattle.file_store.specs.Events.{IsAccess, IsSmall};

use crate::loading::slot;
use crate::plans::{self, Plan};
use crate::refusals::is_disk;
use crate::rewrites::Rewrite;
use crate::store::FileStore;
use crate::writing::put_blocks;
use block_space::{BlockSpace, Blocks, TakeRefusal};
use commit_slots::Layout;
use disk_model::Disk;
use file_body::Body;
use hsm_types::{FileKey, LAST_NUMBER};
use journal_records::Record;
use meta_store::Catalog;
use snapshot_text::MetaRefusal;
use std::alloc::{AllocError, Global};
use std::snapshot::Snapshot;

/// Whether the inode has no bytes after it, its file being new or gone.
fn empties(change: &Record) -> bool
    ensures { result ≡ empties change.now }
{
    matches!(change, Record::Make { .. } | Record::Drop { .. })
}

/// The blocks that the file had which is gone after it.
fn blocks_gone(
    alloc: Global,
    catalog: &Catalog,
    key: FileKey,
    change: &Record,
) -> Result<Vec<u32>, AllocError>
    requires bodiless { IsBodiless key change.now catalog.now }
    requires stands { CanStand change.now catalog.now }
    ensures { IfOk result (λ v. IsFreed key change.now catalog.now v.items) }
{
    match change {
        Record::Drop { .. } => plans::blocks_of(alloc, catalog, key),
        _ => Ok(Vec::new(alloc)),
    }
}

impl<D: Disk> FileStore<D> {
    /// Sees to it that as many blocks are free as a change of a live file touches. Where they are too few, all that is held is made durable: then
    /// all blocks are free that no file uses.
    pub(crate) fn make_room(
        &mut self,
        alloc: Global,
        key: FileKey,
        change: Rewrite<'_>,
        number: u64,
    ) -> Result<(), MetaRefusal>
        requires working { self.old.failed ≡ false }
        requires rises { self.old.meta.number ≤ number }
        requires live { IsSome (find_key (λ f. f.key) key self.old.held.files) }
        requires lawful { IsRewrite change }
        requires room { length (touched (effect_of change) (length (bytes_of key self.old.held.files))) + used self.old.held.files ≤ (geometry_of self.old.meta.durable.geometry).blocks }
        ensures enough { OnOk result (length (touched (effect_of change.entry) (length (bytes_of key self.old.held.files))) ≤ length (free self.new.space)) }
        ensures held { self.new.held ≡ self.old.held }
        ensures ends { Ends D.Disk self.old number None result self.new }
        ensures memory { IsErrOf result MetaRefusal.Memory → self.new ≡ self.old }
    {
        // Asked for what is true of the disk.
        let _failed = self.has_failed();
        let blocks = change.touched(self.size(key));
        if self.space.has_free(blocks.count() as u32) {
            return Ok(());
        }
        self.sync(alloc, number)
    }

    /// Takes the record of an event that concerns no bytes of a file that stays. At an `Err` but `Disk` nothing has changed.
    pub(crate) fn record(
        &mut self,
        alloc: Global,
        key: FileKey,
        change: Record,
        number: u64,
    ) -> Result<(), MetaRefusal>
        requires working { self.old.failed ≡ false }
        requires rises { self.old.meta.number ≤ number }
        requires bodiless { IsBodiless key change self.old.meta.current }
        requires stands { CanStand change self.old.meta.current }
        requires small { refusal_of change self.old.meta.current ≡ None → IsSmall change }
        ensures ends { Ends D.Disk self.old number (refusal_of change self.old.meta.current) result self.new }
        ensures held { OnOk result (self.new.held ≡ held_after key change self.old.held) }
        ensures memory { IsErrOf result MetaRefusal.Memory → self.new ≡ self.old }
    {
        let empty = empties(&change);
        // Asked for what is true of the disk.
        let _failed = self.has_failed();
        let freed = blocks_gone(alloc, self.meta.catalog(), key, &change)?;
        if number > LAST_NUMBER {
            return Err(MetaRefusal::Memory);
        }
        let records = plans::one(alloc, change)?;
        let before = Snapshot::of(&self.bodies);
        match self.meta.apply(alloc, &mut self.disk, records, number) {
            Ok(wrote) => {
                clear(alloc, &mut self.bodies, key, empty);
                make_durable(wrote, before, &mut self.durable, &mut self.space);
                self.space.release_all(&freed);
                Ok(())
            }
            Err(refusal) => {
                self.failed = is_disk(refusal);
                Err(refusal)
            }
        }
    }

    /// Changes the bytes of a live file. The blocks that this touches are written to places that nothing uses, then the records are taken, and
    /// then the old places are free. It costs the bytes, the blocks, the stub entries that go, and what the file grows by.
    pub(crate) fn rewrite(
        &mut self,
        alloc: Global,
        key: FileKey,
        change: Rewrite<'_>,
        number: u64,
    ) -> Result<(), MetaRefusal>
        requires working { self.old.failed ≡ false }
        requires rises { self.old.meta.number ≤ number }
        requires live { IsSome (find_key (λ f. f.key) key self.old.held.files) }
        requires lawful { IsRewrite change }
        requires access { IsAccess change }
        requires limited { IsAllowedBy (geometry_of self.old.meta.durable.geometry).limits change }
        requires sound { IsSound (effect_of change) (file_at key self.old.held.files) }
        requires offline { BringsOffline change (kept_of key self.old.held.files).stubs }
        requires room { length (touched (effect_of change) (length (bytes_of key self.old.held.files))) + used self.old.held.files ≤ (geometry_of self.old.meta.durable.geometry).blocks }
        requires enough { length (touched (effect_of change) (length (bytes_of key self.old.held.files))) ≤ length (free self.old.space) }
        ensures changed { Changes D.Disk self.old number key (effect_of change.entry) None result self.new }
    {
        // Asked for what is true of the disk.
        let _failed = self.has_failed();
        let before = Snapshot::of(&self.bodies);
        if number > LAST_NUMBER {
            return Err(MetaRefusal::Memory);
        }
        let body = &mut self.bodies[slot(key.ino)];
        let old = body.len();
        let catalog = self.meta.catalog();
        let (disk, space) = (&mut self.disk, &mut self.space);
        let staged = match stage(alloc, disk, catalog, space, body, key, change) {
            Ok(staged) => staged,
            Err(refusal) => {
                self.failed = is_disk(refusal);
                return Err(refusal);
            }
        };
        let Staged { places, plan } = staged;
        let Plan { records, freed } = plan;
        match self.meta.apply(alloc, &mut self.disk, records, number) {
            Ok(wrote) => {
                change.apply(alloc, body);
                make_durable(wrote, before, &mut self.durable, &mut self.space);
                self.space.release_all(&freed);
                Ok(())
            }
            Err(refusal) => {
                change.undo(alloc, body, old);
                self.space.release_all(places.as_slice());
                self.failed = is_disk(refusal);
                Err(refusal)
            }
        }
    }
}

/// A change of a file's bytes whose blocks are written: their places, and the plan of what comes then.
#[derive(Drop)]
struct Staged {
    places: Blocks,
    plan: Plan,
}

/// Writes the blocks that a change touches to the lowest free places, and makes room for it in the body.
fn stage<D: Disk>(
    alloc: Global,
    disk: &mut D,
    catalog: &Catalog,
    space: &mut BlockSpace,
    body: &mut Body,
    key: FileKey,
    change: Rewrite<'_>,
) -> Result<Staged, MetaRefusal>
    requires live { IsSome (find_key (λ f. f.key) key catalog.now.files) }
    requires lawful { IsRewrite change }
    requires entry { (f : CatalogFile) → find_key (λ f. f.key) key catalog.now.files ≡ Some f → HasEntry change f.kept.stubs }
    requires away { BringsAway change body.old }
    requires within { IsWithin change (length body.old.bytes) }
    requires few { length (touched_of change body.old.bytes) < 2 ^ 32 }
    requires enough { length (touched_of change body.old.bytes) ≤ length (free space.old) }
    requires fits { AllByRecursion (λ p. (layout_of catalog.now.geometry).blocks + block_bytes * p + block_bytes ≤ D.length_of disk.old) (places_for change body.old.bytes space.old) }
    ensures any_moment { Keeps D.Disk disk.old disk.new (IsBesideBlocks (layout_of catalog.now.geometry).blocks (places_for change.entry body.old.bytes space.old)) }
    ensures staged { IfOk result (λ s. IsStaged D.Disk disk.old disk.new catalog.now key change.entry body.old.bytes space.old s.plan.records s.plan.freed.items) }
    ensures places { IfOk result (λ s. s.places ≡ places_for change.entry body.old.bytes space.old) }
    ensures marked { OnOk result (space.new ≡ record space.old { current = marked (places_for change.entry body.old.bytes space.old) space.old.current }) }
    ensures room { OnOk result (HasRoom change.entry body.old body.new) }
    ensures err { OnErr result (IsAlike body.old body.new) }
    ensures memory { IsErrOf result MetaRefusal.Memory → (space.new ≡ space.old) × (disk.new ≡ disk.old) }
    ensures faults { Counts (IsErrOf result MetaRefusal.Disk) (D.fault_count disk.old) (D.fault_count disk.new) }
    ensures no_part { (why : DmRefusal) → IsErrOf result (MetaRefusal.Part why) → ⊥ }
{
    let old = body.len();
    let touched = change.touched(old);
    let blocks = take(alloc, space, touched.count())?;
    let places = blocks.as_slice();
    let Ok(plan) = plans::prepare(alloc, catalog, body, key, change, &touched, places) else {
        space.release_all(places);
        return Err(MetaRefusal::Memory);
    };
    let base = Layout::of_geometry(catalog.geometry()).blocks;
    let Ok(()) = put_blocks(disk, base, body, change, &touched, places) else {
        change.undo(alloc, body, old);
        return Err(MetaRefusal::Disk);
    };
    Ok(Staged {
        places: blocks,
        plan,
    })
}

/// Takes the lowest blocks that are free.
fn take(alloc: Global, space: &mut BlockSpace, count: u64) -> Result<Blocks, AllocError>
    requires few { count < 2 ^ 32 }
    requires enough { count ≤ length (free space.old) }
    ensures taken { IfOk result (λ blocks. blocks ≡ take count (free space.old)) }
    ensures marked { OnOk result (space.new ≡ record space.old { current = marked (take count (free space.old)) space.old.current }) }
    ensures err { OnErr result (space.new ≡ space.old) }
{
    match space.take(alloc, count as u32) {
        Ok(blocks) => Ok(blocks),
        Err(TakeRefusal::Memory) => Err(AllocError),
        Err(TakeRefusal::Short { .. }) => unreachable!(),
    }
}

/// Where its file is new or gone, the inode has no bytes.
fn clear(alloc: Global, bodies: &mut Vec<Body>, key: FileKey, empty: bool)
    requires { empty ≡ true → (1 ≤ key.ino) × (key.ino ≤ length bodies.old.items) }
    ensures { bodies.new.items ≡ (if empty then slice_set bodies.old.items (key.ino - 1) no_body else bodies.old.items) }
{
    if empty {
        bodies[slot(key.ino)] = Body::new(alloc);
    }
}

/// Where a snapshot was written of what was held before, that is durable, with the blocks that it uses.
pub(crate) fn make_durable(
    wrote: bool,
    before: Snapshot<Vec<Body>>,
    durable: &mut Snapshot<Vec<Body>>,
    space: &mut BlockSpace,
)
    ensures bodies { durable.new.value.items ≡ (if wrote then before.value.items else durable.old.value.items) }
    ensures blocks { space.new ≡ record space.old { durable = if wrote then space.old.current else space.old.durable } }
{
    if wrote {
        *durable = before;
        space.committed();
    }
}
