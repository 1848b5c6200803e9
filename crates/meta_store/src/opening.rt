//! What an opening judges: the area of a snapshot, and the gate of a journal.
ghost use Rattle.std.specs.Prelude.{◌≡◌, ◌≤◌, ◌+◌, List, ℕ, IfOk, IsErrOf, true, false};
ghost use Rattle.disk_model.specs.Calls.{HasCause};
ghost use Rattle.disk_model.specs.Images.{part, Alike};
ghost use Rattle.disk_model.specs.Moments.{Keeps, Same};
ghost use Rattle.meta_store.specs.Catalogs.{Catalog};
ghost use Rattle.meta_store.specs.Snapshots.{IsSnapshot};
ghost use Rattle.meta_store.specs.Images.{IsClosed};

use crate::catalog::Catalog;
use crate::validity::catalog_of;
use disk_model::{Disk, Failed, read_at};
use snapshot_text::{ReadRefusal, read};
use std::alloc::Global;

/// The number and the catalog that an area says, if it holds a valid snapshot of that geometry.
pub(crate) fn catalog_in(
    alloc: Global,
    geometry: u32,
    area: &[u8],
) -> Result<(u64, Catalog), ReadRefusal>
    requires { geometry ≤ 1 }
    ensures found { IfOk result (λ r. IsSnapshot area.now r.0 r.1) }
    ensures geometry { IfOk result (λ r. r.1.geometry ≡ geometry) }
    ensures corrupt { IsErrOf result ReadRefusal.Corrupt → (n : ℕ) (c : Catalog) → c.geometry ≡ geometry → IsSnapshot area.now n c → ⊥ }
{
    let snapshot = match read(alloc, area) {
        Ok(snapshot) => snapshot,
        Err(refusal) => return Err(refusal),
    };
    let number = snapshot.number;
    match catalog_of(alloc, geometry, snapshot) {
        Ok(catalog) => Ok((number, catalog)),
        Err(refusal) => Err(refusal),
    }
}

/// Whether the gate at that place is closed.
pub(crate) fn is_closed<D: Disk>(disk: &mut D, at: u64) -> Result<bool, Failed>
    requires { at + 1 ≤ D.length_of disk.old }
    ensures keeps { Keeps D.Disk disk.old disk.new Same }
    ensures given { Alike (D.gives disk.old) (D.gives disk.new) }
    ensures closed { IfOk result (λ b. (c : List ℕ) → D.gives disk.old c → (b ≡ true → IsClosed (part c at 1)) × (b ≡ false → IsClosed (part c at 1) → ⊥)) }
    ensures cause { HasCause result (D.fault_count disk.old) (D.fault_count disk.new) }
{
    let mut gate = [0];
    read_at(disk, at, &mut gate)?;
    Ok(gate[0] != 1)
}
