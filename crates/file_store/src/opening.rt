//! Opening what a crash may have left.
ghost use Rattle.std.specs.Prelude.{◌≡◌, List, ℕ, length, IfOk, IfErr, IsErrOf};
ghost use Rattle.disk_model.specs.Calls.{Counts};
ghost use Rattle.disk_model.specs.Moments.{MayBe};
ghost use Rattle.commit_slots.specs.Places.{layout_of};
ghost use Rattle.commit_slots.specs.Images.{IsStore};
ghost use Rattle.meta_store.specs.Images.{blocks_in_image, IsCorruptAt};
ghost use Rattle.meta_store.specs.Meta.{IsMeta, Backs};
ghost use Rattle.file_store.specs.Steps.{OnlyReads};
ghost use Rattle.file_store.specs.Bodies.{held_at, held_with, AreBodies};
ghost use Rattle.snapshot_text.specs.Files.{geometry_of};
ghost use Rattle.file_store.specs.HeldFiles.{IsHeldFiles};
ghost use Rattle.file_store.specs.Stores.{marks_of};

use crate::loading::load_bodies;
use crate::spaces::space_of;
use block_space::BlockSpace;
use disk_model::{Disk, OpenRefusal};
use file_body::Body;
use meta_store::{Catalog, MetaStore};
use snapshot_text::MetaRefusal;
use std::alloc::Global;

/// Reads the files of a store, their bodies, that of inode i at i - 1, and which blocks they leave free.
#[tactic(auto, using(crate::proofs::Loaded::reads_on, crate::proofs::Durable::backs_same))]
pub(crate) fn read_in<D: Disk>(
    alloc: Global,
    disk: &mut D,
) -> Result<(MetaStore, Vec<Body>, BlockSpace), OpenRefusal>
    ensures reads { OnlyReads D.Disk disk.old disk.new }
    ensures lawful { IfOk result (λ r. IsMeta r.0) }
    ensures same { IfOk result (λ r. r.0.current ≡ r.0.durable) }
    ensures backs { IfOk result (λ r. Backs D.Disk disk.new r.0) }
    ensures bodies { IfOk result (λ r. IsHeldFiles r.1.items r.0) }
    ensures holds { IfOk result (λ r. (c : List ℕ) → MayBe D.Disk disk.new c → held_at (blocks_in_image r.0.durable.geometry c) r.0.durable ≡ held_with r.1.items r.0.current) }
    ensures space { IfOk result (λ r. r.2 ≡ record { current = marks_of r.0.current; durable = marks_of r.0.current }) }
    ensures not_store { IfErr result (λ e. e ≡ OpenRefusal.NotStore → (c : List ℕ) → D.gives disk.old c → (geometry fsid : ℕ) → IsStore geometry fsid c → ⊥) }
    ensures corrupt { IfErr result (λ e. (place : ℕ) → e ≡ OpenRefusal.Corrupt place → (c : List ℕ) → D.gives disk.old c → IsCorruptAt place c) }
    ensures faults { Counts (IsErrOf result OpenRefusal.Disk) (D.fault_count disk.old) (D.fault_count disk.new) }
{
    let meta = match MetaStore::open(alloc, disk) {
        Ok(meta) => meta,
        Err(refusal) => return Err(refusal),
    };
    let (bodies, space) = match read_files(alloc, disk, meta.catalog()) {
        Ok(read) => read,
        Err(refusal) => return Err(refusal),
    };
    Ok((meta, bodies, space))
}

/// The bodies of a catalog's files, and which blocks they leave free.
fn read_files<D: Disk>(
    alloc: Global,
    disk: &mut D,
    catalog: &Catalog,
) -> Result<(Vec<Body>, BlockSpace), OpenRefusal>
    requires length { D.length_of disk.old ≡ (layout_of catalog.now.geometry).whole }
    ensures reads { OnlyReads D.Disk disk.old disk.new }
    ensures count { IfOk result (λ r. length r.0.items ≡ (geometry_of catalog.now.geometry).files) }
    ensures sizes { IfOk result (λ r. AreBodies r.0.items catalog.now.files) }
    ensures loaded { IfOk result (λ r. (c : List ℕ) → D.gives disk.old c → held_with r.0.items catalog.now ≡ held_at (blocks_in_image catalog.now.geometry c) catalog.now) }
    ensures space { IfOk result (λ r. r.1 ≡ record { current = marks_of catalog.now; durable = marks_of catalog.now }) }
    ensures not_store { IfErr result (λ e. e ≡ OpenRefusal.NotStore → ⊥) }
    ensures not_corrupt { IfErr result (λ e. (place : ℕ) → e ≡ OpenRefusal.Corrupt place → ⊥) }
    ensures faults { Counts (IsErrOf result OpenRefusal.Disk) (D.fault_count disk.old) (D.fault_count disk.new) }
{
    let bodies = match load_bodies(alloc, disk, catalog) {
        Ok(bodies) => bodies,
        Err(MetaRefusal::Disk) => return Err(OpenRefusal::Disk),
        Err(_) => return Err(OpenRefusal::Memory),
    };
    match space_of(alloc, catalog) {
        Ok(space) => Ok((bodies, space)),
        Err(_) => Err(OpenRefusal::Memory),
    }
}
