//! Calls on the regions of a live file.
ghost use Rattle.std.specs.Prelude.{◌≡◌, ◌≤◌, false, IsSome, IfOk};
ghost use Rattle.hsm_types.specs.Messages.{no_token};
ghost use Rattle.hsm_types.specs.declared.dm.DmCall.TheVariants.{SetRegion, GetRegion};
ghost use Rattle.hsm_types.specs.Keyed.{find_key};
ghost use Rattle.file_store.specs.Stores.{Proceeds};
ghost use Rattle.hsm_core.specs.Services.{AreOf, service_on, IsServedByFiles};

use crate::services::replies::{changed, twice};
use disk_model::Disk;
use file_store::FileStore;
use hsm_types::{DmReply, Handle, Regions};
use snapshot_text::MetaRefusal;
use std::alloc::{AllocError, Global};

/// Replaces the regions of a file.
pub(crate) fn set<D: Disk>(
    files: &mut FileStore<D>,
    alloc: Global,
    handle: Handle,
    regions: &Regions,
    number: u64,
) -> Result<(DmReply, DmReply), MetaRefusal>
    requires working { files.old.failed ≡ false }
    requires live { IsSome (find_key (λ f. f.key) handle.key files.old.held.files) }
    requires idle { Proceeds D.Disk files.old number files.old }
    requires rises { files.old.meta.number ≤ number }
    ensures { IsServedByFiles D.Disk files.old number (SetRegion no_token handle regions.now) result files.new }
{
    let regions = regions.clone()?;
    changed(files.set_regions(alloc, handle.key, regions, number))
}

/// The regions of a file.
pub(crate) fn list<D: Disk>(
    files: &FileStore<D>,
    handle: Handle,
) -> Result<(DmReply, DmReply), AllocError>
    requires { IsSome (find_key (λ f. f.key) handle.key files.now.held.files) }
    ensures { IfOk result (λ r. AreOf (service_on files.now (GetRegion no_token handle)) r) }
{
    let regions = files.meta().catalog().regions(handle.key).list();
    twice(DmReply::Regions(regions.clone()?))
}
