//! Calls on the handle of a file, and on its size, stamp and blocks.
ghost use Rattle.std.specs.Prelude.{IsSome, IfOk};
ghost use Rattle.hsm_types.specs.Messages.{no_token};
ghost use Rattle.hsm_types.specs.declared.dm.DmCall.TheVariants.{PathToHandle, GetFileAttr};
ghost use Rattle.hsm_types.specs.Keyed.{find_key};
ghost use Rattle.file_store.specs.Stores.{superblock_of};
ghost use Rattle.dm_service.specs.Tables.{Tables};
ghost use Rattle.hsm_core.specs.Services.{AreOf, anybody, asked, service_on};

use crate::lookups;
use crate::services::replies::{refused, twice};
use crate::stamps::stamp;
use disk_model::Disk;
use file_store::FileStore;
use hsm_types::{DmRefusal, DmReply, FileKey, Handle, Word};
use indexmap::IndexMap;
use std::alloc::AllocError;

/// The handle of the file with that name.
pub(crate) fn find<D: Disk>(
    files: &FileStore<D>,
    name: &Word,
) -> Result<(DmReply, DmReply), AllocError>
    ensures { IfOk result (λ r. AreOf (service_on files.now (PathToHandle name.now)) r) }
{
    match lookups::find(files, name) {
        Some(key) => twice(DmReply::Handle(dm_handles::make(files.superblock().fsid, key))),
        None => Ok(refused(DmRefusal::NoObject)),
    }
}

/// The size of a live file in bytes, its stamp, and how many of its blocks are mapped.
pub(crate) fn attributes<D: Disk>(
    files: &FileStore<D>,
    stamps: &IndexMap<FileKey, u64>,
    handle: Handle,
) -> Result<(DmReply, DmReply), AllocError>
    requires { IsSome (find_key (λ f. f.key) handle.key files.now.held.files) }
    ensures { (t : Tables) → IfOk result (λ r. AreOf (asked (superblock_of files.now) files.now.held stamps.now.entries t anybody (GetFileAttr no_token handle)) r) }
{
    twice(DmReply::Attr {
        size: files.size(handle.key),
        stamp: stamp(stamps, handle.key),
        blocks: files.meta().catalog().mapped(handle.key),
    })
}
