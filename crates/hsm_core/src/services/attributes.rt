//! Calls on the attributes that sessions give a live file.
ghost use Rattle.std.specs.Prelude.{◌≡◌, ◌≤◌, false, IsSome, IfOk};
ghost use Rattle.hsm_types.specs.Messages.{no_token};
ghost use Rattle.hsm_types.specs.declared.dm.DmCall.TheVariants.{SetDmAttr, GetDmAttr, RemoveDmAttr, GetAllDmAttr};
ghost use Rattle.hsm_types.specs.Keyed.{find_key};
ghost use Rattle.file_store.specs.Stores.{Proceeds};
ghost use Rattle.hsm_core.specs.Services.{AreOf, service_on, IsServedByFiles};

use crate::services::replies::{changed, refused, twice};
use disk_model::Disk;
use file_store::FileStore;
use hsm_types::{AttrName, Bytes, DmRefusal, DmReply, Handle};
use snapshot_text::MetaRefusal;
use std::alloc::{AllocError, Global};

/// Gives an attribute its value.
pub(crate) fn set<D: Disk>(
    files: &mut FileStore<D>,
    alloc: Global,
    handle: Handle,
    name: AttrName,
    value: &Bytes,
    number: u64,
) -> Result<(DmReply, DmReply), MetaRefusal>
    requires working { files.old.failed ≡ false }
    requires live { IsSome (find_key (λ f. f.key) handle.key files.old.held.files) }
    requires idle { Proceeds D.Disk files.old number files.old }
    requires rises { files.old.meta.number ≤ number }
    ensures { IsServedByFiles D.Disk files.old number (SetDmAttr no_token handle name value.now) result files.new }
{
    let value = value.clone()?;
    changed(files.set_attr(alloc, handle.key, name, value, number))
}

/// The value of an attribute.
pub(crate) fn value<D: Disk>(
    files: &FileStore<D>,
    handle: Handle,
    name: AttrName,
) -> Result<(DmReply, DmReply), AllocError>
    requires { IsSome (find_key (λ f. f.key) handle.key files.now.held.files) }
    ensures { IfOk result (λ r. AreOf (service_on files.now (GetDmAttr no_token handle name)) r) }
{
    let attributes = files.meta().catalog().attributes(handle.key);
    match attributes.get(name) {
        Some(value) => twice(DmReply::Data(value.clone()?)),
        None => Ok(refused(DmRefusal::NoAttr)),
    }
}

/// Removes an attribute.
pub(crate) fn remove<D: Disk>(
    files: &mut FileStore<D>,
    alloc: Global,
    handle: Handle,
    name: AttrName,
    number: u64,
) -> Result<(DmReply, DmReply), MetaRefusal>
    requires working { files.old.failed ≡ false }
    requires live { IsSome (find_key (λ f. f.key) handle.key files.old.held.files) }
    requires idle { Proceeds D.Disk files.old number files.old }
    requires rises { files.old.meta.number ≤ number }
    ensures { IsServedByFiles D.Disk files.old number (RemoveDmAttr no_token handle name) result files.new }
{
    changed(files.drop_attr(alloc, handle.key, name, number))
}

/// The names of the attributes of a file.
pub(crate) fn list<D: Disk>(
    files: &FileStore<D>,
    alloc: Global,
    handle: Handle,
) -> Result<(DmReply, DmReply), AllocError>
    requires { IsSome (find_key (λ f. f.key) handle.key files.now.held.files) }
    ensures { IfOk result (λ r. AreOf (service_on files.now (GetAllDmAttr no_token handle)) r) }
{
    let attributes = files.meta().catalog().attributes(handle.key);
    twice(DmReply::Names(attributes.list(alloc)?))
}
