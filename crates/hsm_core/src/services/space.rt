//! The call on the space of the store.
ghost use Rattle.std.specs.Prelude.{IfOk};
ghost use Rattle.hsm_types.specs.declared.dm.DmCall.TheVariants.{GetSpace};
ghost use Rattle.hsm_core.specs.Services.{AreOf, service_on};

use crate::services::replies::twice;
use disk_model::Disk;
use file_store::FileStore;
use hsm_types::DmReply;
use std::alloc::AllocError;

/// How many blocks are mapped, and how many there are.
pub(crate) fn space<D: Disk>(files: &FileStore<D>) -> Result<(DmReply, DmReply), AllocError>
    ensures { IfOk result (λ r. AreOf (service_on files.now GetSpace) r) }
{
    twice(DmReply::Space {
        used: files.meta().catalog().used(),
        total: u64::from(files.superblock().geometry.blocks),
    })
}
