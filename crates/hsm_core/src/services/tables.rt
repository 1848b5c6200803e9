//! The call on all files.
ghost use Rattle.std.specs.Prelude.{◌≡◌, IfOk, map};
ghost use Rattle.hsm_types.specs.declared.dm.DmCall.TheVariants.{GetTable};
ghost use Rattle.plain_model.specs.Segments.{row_of, table_of};
ghost use Rattle.plain_model.specs.State.{Held};
ghost use Rattle.file_store.specs.Stores.{superblock_of, Shows};
ghost use Rattle.dm_service.specs.Tables.{Tables};
ghost use Rattle.hsm_core.specs.Services.{AreOf, anybody, asked};
ghost use Rattle.hsm_core.specs.Stamps.{stamp_in};

use crate::services::replies::twice;
use crate::services::segments::segments_of;
use crate::stamps::stamp;
use disk_model::Disk;
use file_store::FileStore;
use hsm_types::{DmReply, FileKey, FileRow, FileRows, Superblock, Table};
use indexmap::IndexMap;
use meta_store::Catalog;
use std::alloc::{AllocError, Global};

/// A row for each file in the order of their inodes, and the space of the store in blocks.
pub(crate) fn table<D: Disk>(
    files: &FileStore<D>,
    stamps: &IndexMap<FileKey, u64>,
    alloc: Global,
) -> Result<(DmReply, DmReply), AllocError>
    ensures { (t : Tables) → IfOk result (λ r. AreOf (asked (superblock_of files.now) files.now.held stamps.now.entries t anybody GetTable) r) }
{
    let superblock = files.superblock();
    let catalog = files.meta().catalog();
    let table = table_of(alloc, superblock, catalog, stamps)?;
    twice(DmReply::Table(table))
}

/// The table of what is held where a catalog shows it.
pub(crate) fn table_of(
    alloc: Global,
    superblock: Superblock,
    catalog: &Catalog,
    stamps: &IndexMap<FileKey, u64>,
) -> Result<Table, AllocError>
    ensures { (h : Held) → Shows catalog.now h → IfOk result (λ t. t ≡ table_of superblock (stamp_in stamps.now.entries) h) }
{
    Ok(Table {
        used: catalog.used(),
        total: u64::from(superblock.geometry.blocks),
        files: rows(alloc, superblock, catalog, stamps)?,
    })
}

/// A row for each file in the order of their inodes.
fn rows(
    alloc: Global,
    superblock: Superblock,
    catalog: &Catalog,
    stamps: &IndexMap<FileKey, u64>,
) -> Result<FileRows, AllocError>
    ensures { (h : Held) → Shows catalog.now h → IfOk result (λ rows. rows ≡ map (row_of superblock (stamp_in stamps.now.entries)) h.files) }
{
    // Read for what is true of each catalog.
    let _geometry = catalog.geometry();
    let count = catalog.names().len();
    let mut rows = Vec::with_capacity(alloc, count as usize)?;
    for index in 0..count {
        let (key, _name, size, parts) = catalog.file(index).unwrap();
        rows.push(FileRow {
            handle: dm_handles::make(superblock.fsid, key),
            size,
            stamp: stamp(stamps, key),
            segments: segments_of(alloc, size, parts)?,
        })?;
    }
    Ok(FileRows::from(rows))
}
