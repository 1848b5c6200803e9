//! The snapshot of a catalog.
ghost use Rattle.std.specs.Prelude.{◌≡◌, ◌≤◌, length, IfOk, OnOk};
ghost use Rattle.hsm_types.specs.Limits.{last_number};
ghost use Rattle.commit_slots.specs.Places.{layout_of};
ghost use Rattle.meta_store.specs.Catalogs.{IsCatalog};
ghost use Rattle.snapshot_text.specs.Snapshots.{spelling};
ghost use Rattle.meta_store.specs.Snapshots.{snapshot_of};

use crate::catalog::Catalog;
use snapshot_text::{put_file, put_header};
use std::alloc::{AllocError, Global};

/// The room for each file from the start. A file with many extents or a long name takes more.
const FILE_ROOM: usize = 64;

/// The bytes of a snapshot of the catalog, under that number.
#[tactic(auto, using(crate::proofs::WrittenFiles::spell_steps))]
pub(crate) fn spell(alloc: Global, number: u64, catalog: &Catalog) -> Result<Vec<u8>, AllocError>
    requires { number ≤ last_number }
    ensures spelled { IfOk result (λ v. v.items ≡ spelling (snapshot_of number catalog.now)) }
    ensures short { IfOk result (λ v. length v.items ≤ (layout_of catalog.now.geometry).snapshot_len) }
    ensures lawful { OnOk result (IsCatalog catalog.now) }
{
    // Read for what is true of each catalog.
    let _geometry = catalog.geometry();
    let table = catalog.names();
    let count = table.len();
    let mut out = Vec::with_capacity(alloc, (count as usize + 1) * FILE_ROOM)?;
    put_header(&mut out, number, table.next(), count)?;
    for index in 0..count {
        let (key, name, size, parts) = catalog.file(index).unwrap();
        put_file(&mut out, key, name, size, parts)?;
    }
    Ok(out)
}
