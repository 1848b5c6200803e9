//! What refuses a call by its own words, or by the names of the files.
ghost use Rattle.std.specs.Prelude.{◌+◌};
ghost use Rattle.plain_model.specs.Plain.{bad_name, bad_length, exists, too_big, no_inodes};
ghost use Rattle.plain_model.specs.State.{names_of};
ghost use Rattle.file_store.specs.Stores.{superblock_of};
ghost use Rattle.dm_service.specs.Services.{Judges};

use crate::lookups::find;
use disk_model::Disk;
use file_store::FileStore;
use hsm_types::{ACCESS_BYTES, CallRefusal, Limits, Word, can_name};

/// A name has from 1 to [`NAME_BYTES`](hsm_types::NAME_BYTES) visible bytes, none of them a slash.
pub(crate) fn judge_name(name: &Word) -> Result<(), CallRefusal>
    ensures { Judges result (bad_name name.now) }
{
    if can_name(name.as_slice()) {
        Ok(())
    } else {
        Err(CallRefusal::BadName)
    }
}

/// An access has from 1 to [`ACCESS_BYTES`] bytes.
pub(crate) fn judge_length(len: u64) -> Result<(), CallRefusal>
    ensures { Judges result (bad_length len) }
{
    if 1 <= len && len <= ACCESS_BYTES {
        Ok(())
    } else {
        Err(CallRefusal::BadLength { len })
    }
}

/// No file has the name.
pub(crate) fn judge_absence<D: Disk>(files: &FileStore<D>, name: &Word) -> Result<(), CallRefusal>
    ensures { Judges result (exists name.now (names_of files.now.held.files)) }
{
    match find(files, name) {
        Some(_) => Err(CallRefusal::Exists),
        None => Ok(()),
    }
}

/// An inode is free.
pub(crate) fn judge_inodes<D: Disk>(files: &FileStore<D>) -> Result<(), CallRefusal>
    ensures { Judges result (no_inodes (superblock_of files.now).geometry.files (names_of files.now.held.files)) }
{
    let count = files.superblock().geometry.files;
    if files.meta().catalog().names().len() == count {
        Err(CallRefusal::NoInodes {
            count: u64::from(count),
        })
    } else {
        Ok(())
    }
}

/// A write leaves a file of at most the bytes that the store's format allows. An end that no u64 can tell is told as the largest.
pub(crate) fn judge_written_size<D: Disk>(
    files: &FileStore<D>,
    offset: u64,
    len: u64,
) -> Result<(), CallRefusal>
    ensures { Judges result (too_big (superblock_of files.now).geometry.limits (offset + len)) }
{
    let limits = files.superblock().geometry.limits;
    match offset.checked_add(len) {
        Some(end) => judge_end(limits, end),
        None => Err(CallRefusal::TooBig { end: u64::MAX }),
    }
}

/// A file has at most the bytes that the store's format allows.
pub(crate) fn judge_size<D: Disk>(files: &FileStore<D>, size: u64) -> Result<(), CallRefusal>
    ensures { Judges result (too_big (superblock_of files.now).geometry.limits size) }
{
    judge_end(files.superblock().geometry.limits, size)
}

/// A file ends within the limits.
fn judge_end(limits: Limits, end: u64) -> Result<(), CallRefusal>
    ensures { Judges result (too_big limits end) }
{
    if limits.bytes < end {
        Err(CallRefusal::TooBig { end })
    } else {
        Ok(())
    }
}
