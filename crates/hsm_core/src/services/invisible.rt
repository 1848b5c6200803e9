//! Reads and writes of a live file that raise no event and renew no stamp.
ghost use Rattle.std.specs.Prelude.{ℕ, ◌≡◌, ◌+◌, ◌≤◌, false, IsSome, OnOk, length};
ghost use Rattle.hsm_types.specs.Limits.{access_bytes};
ghost use Rattle.hsm_types.specs.Messages.{no_token};
ghost use Rattle.hsm_types.specs.declared.dm.DmCall.TheVariants.{ReadInvis, WriteInvis};
ghost use Rattle.plain_model.specs.Effects.{Writes};
ghost use Rattle.plain_model.specs.Blocks.{touched};
ghost use Rattle.hsm_types.specs.Keyed.{find_key};
ghost use Rattle.plain_model.specs.Segments.{reading_refusal, writing_refusal};
ghost use Rattle.plain_model.specs.State.{file_at, bytes_of, used};
ghost use Rattle.file_store.specs.Stores.{superblock_of, Proceeds};
ghost use Rattle.dm_service.specs.Services.{Judges};
ghost use Rattle.hsm_core.specs.Services.{IsServedByFiles};

use crate::services::ranges::{judge_access, judge_here, judge_room, judge_within};
use crate::services::replies::{changed, refused, twice};
use disk_model::Disk;
use file_body::touched_by_write;
use file_store::FileStore;
use hsm_types::{Bytes, DmRefusal, DmReply, FileKey, Handle};
use snapshot_text::MetaRefusal;
use std::alloc::Global;

/// Reads at most `len` bytes from the offset on.
pub(crate) fn read<D: Disk>(
    files: &mut FileStore<D>,
    alloc: Global,
    handle: Handle,
    offset: u64,
    len: u64,
) -> Result<(DmReply, DmReply), MetaRefusal>
    requires working { files.old.failed ≡ false }
    requires live { IsSome (find_key (λ f. f.key) handle.key files.old.held.files) }
    ensures { (n : ℕ) → IsServedByFiles D.Disk files.old n (ReadInvis no_token handle offset len) result files.new }
{
    // Asked for what is true of the disk.
    let _failed = files.has_failed();
    if let Err(why) = judge_invisible_read(files, handle.key, offset, len) {
        return Ok(refused(why));
    }
    let bytes = files.read(alloc, handle.key, offset, len)?;
    Ok(twice(DmReply::Data(bytes))?)
}

/// What refuses an invisible read.
#[tactic(auto, using(crate::proofs::Refusing::passes, crate::proofs::Refusing::stops))]
fn judge_invisible_read<D: Disk>(
    files: &FileStore<D>,
    key: FileKey,
    offset: u64,
    len: u64,
) -> Result<(), DmRefusal>
    requires { IsSome (find_key (λ f. f.key) key files.now.held.files) }
    ensures { Judges result (reading_refusal (file_at key files.now.held.files) offset len) }
{
    let size = files.size(key);
    judge_access(len)?;
    judge_here(files, key, offset, offset.saturating_add(len).min(size))
}

/// Writes over bytes that the file has.
pub(crate) fn write<D: Disk>(
    files: &mut FileStore<D>,
    alloc: Global,
    handle: Handle,
    offset: u64,
    body: &Bytes,
    number: u64,
) -> Result<(DmReply, DmReply), MetaRefusal>
    requires working { files.old.failed ≡ false }
    requires live { IsSome (find_key (λ f. f.key) handle.key files.old.held.files) }
    requires idle { Proceeds D.Disk files.old number files.old }
    requires rises { files.old.meta.number ≤ number }
    ensures { IsServedByFiles D.Disk files.old number (WriteInvis no_token handle offset body.now) result files.new }
{
    let bytes = body.as_slice();
    if let Err(why) = judge_invisible_write(files, handle.key, offset, bytes) {
        return Ok(refused(why));
    }
    changed(files.write(alloc, handle.key, offset, bytes, number))
}

/// What refuses an invisible write.
#[tactic(auto, using(crate::proofs::Refusing::passes, crate::proofs::Refusing::stops))]
fn judge_invisible_write<D: Disk>(
    files: &FileStore<D>,
    key: FileKey,
    offset: u64,
    bytes: &[u8],
) -> Result<(), DmRefusal>
    requires { IsSome (find_key (λ f. f.key) key files.now.held.files) }
    ensures judged { Judges result (writing_refusal (superblock_of files.now) files.now.held (file_at key files.now.held.files) offset bytes.now) }
    ensures some { OnOk result (1 ≤ length bytes.now) }
    ensures few { OnOk result (length bytes.now ≤ access_bytes) }
    ensures end { OnOk result (offset + length bytes.now ≤ (superblock_of files.now).geometry.limits.bytes) }
    ensures room { OnOk result (length (touched (Writes offset bytes.now) (length (bytes_of key files.now.held.files))) + used files.now.held.files ≤ (superblock_of files.now).geometry.blocks) }
{
    let size = files.size(key);
    let len = bytes.len() as u64;
    let end = offset.saturating_add(len);
    judge_access(len)?;
    judge_within(end, size)?;
    judge_here(files, key, offset, end)?;
    judge_room(files, touched_by_write(size, offset, len).count())
}
