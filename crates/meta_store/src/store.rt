//! A store's files in memory, over the snapshots of its disk.
ghost use Rattle.std.specs.Prelude.{◌≡◌, ◌≤◌, ◌↔◌, List, ℕ, true, false, None, Some, Err, OnOk, OnErr, IfOk};
ghost use Rattle.std.specs.Result.{IsErrOf};
ghost use Rattle.hsm_types.specs.Limits.{last_number};
ghost use Rattle.hsm_types.specs.declared.dm.DmRefusal.{DmRefusal};
ghost use Rattle.disk_model.specs.Calls.{Counts};
ghost use Rattle.disk_model.specs.Images.{Alike};
ghost use Rattle.disk_model.specs.Moments.{MayBe, Keeps, Same};
ghost use Rattle.commit_slots.specs.Places.{slot_number, layout_of, snapshot_at, journal_at};
ghost use Rattle.commit_slots.specs.Images.{IsStore};
ghost use Rattle.meta_store.specs.Images.{Holds, IsCorruptAt};
ghost use Rattle.meta_store.specs.Records.{after_all, refusal_of_all, CanStandAll, IsEvent};
ghost use Rattle.meta_store.specs.Catalogs.{AreLengths};
ghost use Rattle.meta_store.specs.Batches.{FitEmpty};
ghost use Rattle.meta_store.specs.Meta.{Meta, IsMeta, Backs, StoresOrKeeps, HasStored, IsStoredNow, IsTaken};

use crate::catalog::Catalog;
use crate::opening::{catalog_in, is_closed};
use crate::spelling::spell;
use commit_slots::{CommitSlots, Layout, Loaded, Slot};
use disk_model::{Disk, Failed, OpenRefusal, sync_all};
use journal_records::Records;
use snapshot_text::{MetaRefusal, ReadRefusal};
use std::alloc::Global;
use std::marker::Model;
use std::snapshot::Snapshot;

/// The names, sizes and block places of a store's files, and what sessions keep with them: as they are, and as the last commit stored them.
#[derive(Drop)]
pub struct MetaStore {
    slots: CommitSlots,
    fsid: u64,
    number: u64,
    catalog: Catalog,
    durable: Snapshot<Catalog>,
}

impl Model for MetaStore {
    ghost use Rattle.std.specs.Prelude.{◌≡◌};
    ghost use Rattle.meta_store.specs.Meta.{Meta, IsStored};

    ghost Value = { Meta };

    ghost view = { λ m. record { place = record { slot = m.slots.slot }; fsid = m.fsid; number = m.number; durable = m.durable.value; current = m.catalog } };

    ghost invariant = { λ m. IsStored (record { place = record { slot = m.slots.slot }; fsid = m.fsid; number = m.number; durable = m.durable.value; current = m.catalog }) × (m.slots.geometry ≡ m.catalog.geometry) };
}

impl MetaStore {
    /// Opens what a crash may have left on the disk, beginning with a sync. It reads the selected snapshot as a whole, and takes a flag for each
    /// block of the disk.
    pub fn open<D: Disk>(alloc: Global, disk: &mut D) -> Result<MetaStore, OpenRefusal>
        // Nothing changes.
        ensures keeps { Keeps D.Disk disk.old disk.new Same }
        ensures given { Alike (D.gives disk.old) (D.gives disk.new) }

        // Ok: from now on a crash leaves what reads gave, and what was found.
        ensures synced { OnOk result ((c : List ℕ) → MayBe D.Disk disk.new c → D.gives disk.old c) }
        ensures backs { IfOk result (λ m. Backs D.Disk disk.new m) }
        ensures same { IfOk result (λ m. m.current ≡ m.durable) }
        ensures lawful { IfOk result (λ m. IsMeta m) }

        // Why it wasn't opened.
        ensures not_store { IsErrOf result OpenRefusal.NotStore → (c : List ℕ) → D.gives disk.old c → (geometry fsid : ℕ) → IsStore geometry fsid c → ⊥ }
        ensures corrupt { (place : ℕ) → IsErrOf result (OpenRefusal.Corrupt place) → (c : List ℕ) → D.gives disk.old c → IsCorruptAt place c }
        ensures faults { Counts (IsErrOf result OpenRefusal.Disk) (D.fault_count disk.old) (D.fault_count disk.new) }
    {
        let Ok(()) = sync_all(disk) else {
            return Err(OpenRefusal::Disk);
        };
        MetaStore::inspect(alloc, disk)
    }

    /// Reads what a disk holds, as `open` does, without a sync: what reads gave need not be durable.
    pub fn inspect<D: Disk>(alloc: Global, disk: &mut D) -> Result<MetaStore, OpenRefusal>
        ensures keeps { Keeps D.Disk disk.old disk.new Same }
        ensures given { Alike (D.gives disk.old) (D.gives disk.new) }
        ensures length { IfOk result (λ m. D.length_of disk.old ≡ (layout_of m.durable.geometry).whole) }
        ensures found { IfOk result (λ m. (c : List ℕ) → D.gives disk.old c → Holds m.fsid m.place m.number m.durable c) }
        ensures same { IfOk result (λ m. m.current ≡ m.durable) }
        ensures lawful { IfOk result (λ m. IsMeta m) }
        ensures not_store { IsErrOf result OpenRefusal.NotStore → (c : List ℕ) → D.gives disk.old c → (geometry fsid : ℕ) → IsStore geometry fsid c → ⊥ }
        ensures corrupt { (place : ℕ) → IsErrOf result (OpenRefusal.Corrupt place) → (c : List ℕ) → D.gives disk.old c → IsCorruptAt place c }
        ensures faults { Counts (IsErrOf result OpenRefusal.Disk) (D.fault_count disk.old) (D.fault_count disk.new) }
    {
        let loaded = match CommitSlots::load(alloc, disk) {
            Ok(loaded) => loaded,
            Err(refusal) => return Err(refusal),
        };
        let (snapshot, journal) = selected(&loaded);
        let (number, catalog) = match catalog_in(alloc, loaded.geometry, &loaded.image) {
            Ok(found) => found,
            Err(ReadRefusal::Memory) => return Err(OpenRefusal::Memory),
            Err(ReadRefusal::Corrupt) => return Err(OpenRefusal::Corrupt { place: snapshot }),
        };
        match is_closed(disk, journal) {
            Ok(true) => {}
            Ok(false) => return Err(OpenRefusal::Corrupt { place: journal }),
            Err(Failed) => return Err(OpenRefusal::Disk),
        }
        Ok(MetaStore {
            slots: loaded.slots,
            fsid: loaded.fsid,
            number,
            durable: Snapshot::of(&catalog),
            catalog,
        })
    }

    /// The file system id.
    pub fn fsid(&self) -> u64
        ensures { result ≡ self.now.fsid }
    {
        self.fsid
    }

    /// The number of history entries that the last commit stored, or that was found at the opening.
    pub fn number(&self) -> u64
        ensures number { result ≡ self.now.number }
        ensures within { result ≤ last_number }
    {
        self.number
    }

    /// The files as they are.
    pub fn catalog(&self) -> &Catalog
        ensures catalog { result.now ≡ self.now.current }
        ensures lawful { IsMeta self.now }
    {
        // Read for what is true of each catalog.
        let _geometry = self.catalog.geometry();
        &self.catalog
    }

    /// Changes the files as the records of one event say: all of them, or none. It tells whether it wrote a snapshot, which is that of the files
    /// as they were before, under that number. What it took is durable by the next `commit`, and until then it calls no disk.
    pub fn apply<D: Disk>(
        &mut self,
        alloc: Global,
        disk: &mut D,
        records: Records,
        number: u64,
    ) -> Result<bool, MetaRefusal>
        requires backs { Backs D.Disk disk.old self.old }
        requires event { IsEvent records }
        requires stand { CanStandAll records self.old.current }
        requires lengths { AreLengths (after_all records self.old.current) }
        // A journal can hold them: those that aren't refused fit one without batches, and numbers in it don't fall.
        requires fits { refusal_of_all records self.old.current ≡ None → FitEmpty self.old.current.geometry records }
        requires rises { self.old.number ≤ number }
        requires number { number ≤ last_number }

        ensures any_moment { StoresOrKeeps D.Disk disk.old disk.new self.old number }
        ensures backs { OnOk result (Backs D.Disk disk.new self.new) }
        ensures taken { OnOk result (IsTaken records self.old self.new) }
        ensures lawful { OnOk result (IsMeta self.new) }
        ensures wrote { IfOk result (λ b. b ≡ true → HasStored D.Disk disk.old disk.new self.old number × IsStoredNow self.old number self.new) }
        ensures staged { IfOk result (λ b. b ≡ false → (disk.new ≡ disk.old) × (self.new ≡ record self.old { current = self.new.current })) }

        // Why they weren't taken. A refusal and want of memory have written nothing.
        ensures refused { (why : DmRefusal) → (result ≡ Err (MetaRefusal.Part why)) ↔ (refusal_of_all records self.old.current ≡ Some why) }
        ensures unwritten { (why : DmRefusal) → IsErrOf result (MetaRefusal.Part why) → disk.new ≡ disk.old }
        ensures memory { IsErrOf result MetaRefusal.Memory → disk.new ≡ disk.old }
        ensures faults { Counts (IsErrOf result MetaRefusal.Disk) (D.fault_count disk.old) (D.fault_count disk.new) }
        ensures err { OnErr result (self.new ≡ self.old) }
    {
        self.catalog.apply_all(alloc, records)?;
        // Read for what is true of each catalog.
        let _geometry = self.catalog.geometry();
        Ok(false)
    }

    /// Makes the files as they are durable, under that number. It writes the snapshot of all files.
    pub fn commit<D: Disk>(
        &mut self,
        alloc: Global,
        disk: &mut D,
        number: u64,
    ) -> Result<(), MetaRefusal>
        requires backs { Backs D.Disk disk.old self.old }
        requires rises { self.old.number ≤ number }
        requires number { number ≤ last_number }

        // At each moment since, and after a failure too, recovery finds what was durable, or what is stored now.
        ensures any_moment { StoresOrKeeps D.Disk disk.old disk.new self.old number }
        ensures stored { OnOk result (HasStored D.Disk disk.old disk.new self.old number) }
        ensures backs { OnOk result (Backs D.Disk disk.new self.new) }
        ensures ok { OnOk result (IsStoredNow self.old number self.new) }
        ensures same { self.new.current ≡ self.old.current }

        // Why it wasn't done. Without memory nothing was begun.
        ensures memory { IsErrOf result MetaRefusal.Memory → disk.new ≡ disk.old }
        ensures faults { Counts (IsErrOf result MetaRefusal.Disk) (D.fault_count disk.old) (D.fault_count disk.new) }
        ensures no_part { (why : DmRefusal) → IsErrOf result (MetaRefusal.Part why) → ⊥ }
        ensures err { OnErr result (self.new ≡ self.old) }
    {
        let Ok(image) = spell(alloc, number, &self.catalog) else {
            return Err(MetaRefusal::Memory);
        };
        match self.slots.store(disk, &image) {
            Ok(()) => {
                self.number = number;
                self.durable = Snapshot::of(&self.catalog);
                Ok(())
            }
            Err(Failed) => Err(MetaRefusal::Disk),
        }
    }
}

/// Where the selected slot's snapshot and its journal lie.
#[tactic(auto, using(commit_slots::proofs::Switches::number_names))]
fn selected(loaded: &Loaded) -> (u64, u64)
    requires { loaded.now.slot ≡ slot_number loaded.now.slots.slot }
    ensures snapshot { result.0 ≡ snapshot_at (layout_of loaded.now.geometry) loaded.now.slots.slot }
    ensures journal { result.1 ≡ journal_at (layout_of loaded.now.geometry) loaded.now.slots.slot }
{
    let layout = Layout::of_geometry(loaded.geometry);
    let slot = Slot::from_number(loaded.slot);
    (layout.snapshot(slot), layout.journal(slot))
}
