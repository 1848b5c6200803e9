//! What an image tells, with no store at work on it.
ghost use Rattle.std.specs.Prelude.{◌≡◌, List, ℕ, map, IfOk, IsErrOf};
ghost use Rattle.disk_model.specs.Calls.{Counts};
ghost use Rattle.disk_model.specs.Images.{Alike};
ghost use Rattle.disk_model.specs.Moments.{Keeps, Same};
ghost use Rattle.commit_slots.specs.Images.{IsStore};
ghost use Rattle.meta_store.specs.Images.{IsCorruptAt};
ghost use Rattle.plain_model.specs.State.{Held};
ghost use Rattle.file_store.specs.Stores.{Shows};
ghost use Rattle.hsm_core.specs.Summaries.{summary_of, IsSummary};

use crate::services::table_of;
use disk_model::{Disk, OpenRefusal};
use file_store::one_recovery;
use hsm_types::Superblock;
use indexmap::IndexMap;
use meta_store::{Catalog, MetaStore};
use snapshot_text::geometry_of;
use std::alloc::{AllocError, Global};
use store_summary::{Summary, Words};

/// Tells what recovery finds on the disk: the number of the last commit, and the files with their segments. It writes nothing, and doesn't sync, so
/// what it tells need not be durable. It reads no bodies, and costs the snapshot, a step for each block, and a look-up for each segment.
pub fn inspect<D: Disk>(alloc: Global, disk: &mut D) -> Result<Summary, OpenRefusal>
    // Nothing changes.
    ensures keeps { Keeps D.Disk disk.old disk.new Same }
    ensures given { Alike (D.gives disk.old) (D.gives disk.new) }

    // Ok: it is told of each image that reads may give.
    ensures told { IfOk result (λ s. (c : List ℕ) → D.gives disk.old c → IsSummary s c) }

    // Why nothing was told.
    ensures not_store { IsErrOf result OpenRefusal.NotStore → (c : List ℕ) → D.gives disk.old c → (geometry fsid : ℕ) → IsStore geometry fsid c → ⊥ }
    ensures corrupt { (place : ℕ) → IsErrOf result (OpenRefusal.Corrupt place) → (c : List ℕ) → D.gives disk.old c → IsCorruptAt place c }
    ensures faults { Counts (IsErrOf result OpenRefusal.Disk) (D.fault_count disk.old) (D.fault_count disk.new) }
{
    one_recovery();
    let meta = match MetaStore::inspect(alloc, disk) {
        Ok(meta) => meta,
        Err(refusal) => return Err(refusal),
    };
    match summary_of(alloc, &meta) {
        Ok(summary) => Ok(summary),
        Err(_) => Err(OpenRefusal::Memory),
    }
}

/// What is told of the files that are kept. They were not accessed since.
fn summary_of(alloc: Global, meta: &MetaStore) -> Result<Summary, AllocError>
    ensures { (h : Held) → Shows meta.now.current h → IfOk result (λ s. s ≡ summary_of meta.now.current.geometry meta.now.fsid meta.now.number h) }
{
    let catalog = meta.catalog();
    let superblock = Superblock {
        geometry: geometry_of(catalog.geometry()),
        fsid: meta.fsid(),
    };
    Ok(Summary {
        number: meta.number(),
        table: table_of(alloc, superblock, catalog, &IndexMap::new(alloc))?,
        names: names_of(alloc, catalog)?,
    })
}

/// The names of the files in the order of their inodes.
fn names_of(alloc: Global, catalog: &Catalog) -> Result<Words, AllocError>
    ensures { IfOk result (λ names. names ≡ map (λ f. f.name) catalog.now.files) }
{
    let count = catalog.names().len();
    let mut names = Vec::with_capacity(alloc, count as usize)?;
    for index in 0..count {
        let (_key, name, _size, _parts) = catalog.file(index).unwrap();
        names.push(name.clone()?)?;
    }
    Ok(Words::from(names))
}
