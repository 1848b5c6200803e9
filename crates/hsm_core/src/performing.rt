//! Calls that nothing refuses, done by the key of their file. Each reply comes twice, for the caller and for the history.
ghost use Rattle.std.specs.Prelude.{◌≡◌, ◌≤◌, ◌+◌, false, Some, None, ℕ, IsSome, IfOk, OnOk, length};
ghost use Rattle.disk_model.specs.Moments.{Tells};
ghost use Rattle.hsm_types.specs.declared.calls.Call.TheVariants.{Create, Sync};
ghost use Rattle.hsm_types.specs.declared.calls.Reply.TheVariants.{Made, Data};
ghost use Rattle.hsm_types.specs.Keyed.{find_key};
ghost use Rattle.hsm_types.specs.Limits.{access_bytes};
ghost use Rattle.plain_model.specs.Plain.{read_at, refusal_of};
ghost use Rattle.plain_model.specs.Effects.{effect_of, Makes, Writes, Resizes, Drops};
ghost use Rattle.plain_model.specs.Blocks.{touched};
ghost use Rattle.plain_model.specs.Seen.{IsOfSeen};
ghost use Rattle.plain_model.specs.Sound.{IsSound};
ghost use Rattle.plain_model.specs.State.{names_of, next_key, file_at, bytes_of, used, affected_held};
ghost use Rattle.plain_model.specs.Verdict.{shortage, done_reply, done_held};
ghost use Rattle.file_store.specs.Stores.{superblock_of, Proceeds};
ghost use Rattle.dm_service.specs.Services.{AreBoth};
ghost use Rattle.file_store.specs.Changes.{Ends, Changes};
ghost use Rattle.hsm_core.specs.Targets.{IsBounded, IsOn, MayDo, key_in};
ghost use Rattle.hsm_core.specs.Crashes.{IsSynced};

use crate::judging::Target;
use disk_model::Disk;
use file_store::FileStore;
use hsm_types::{Bytes, Call, FileKey, Reply, Word};
use snapshot_text::MetaRefusal;
use std::alloc::Global;

/// Does a call on a file.
pub(crate) fn perform<D: Disk>(
    files: &mut FileStore<D>,
    alloc: Global,
    target: Target,
    call: &Call,
    number: u64,
) -> Result<(Reply, Reply), MetaRefusal>
    requires working { files.old.failed ≡ false }
    requires idle { Proceeds D.Disk files.old number files.old }
    requires rises { files.old.meta.number ≤ number }
    requires bounded { IsBounded (superblock_of files.old).geometry.limits call.now }
    requires target { IsOn files.old.held.files target.key call.now (Some target) }
    requires fits { shortage (superblock_of files.old) files.old.held target.key call.now ≡ None }
    requires mapped { used files.old.held.files ≤ (superblock_of files.old).geometry.blocks }
    requires sound { IsSound (effect_of call.now) (file_at target.key files.old.held.files) }
    ensures reply { IfOk result (λ r. IsOfSeen (Tells D.Disk files.new.disk) files.old.held (λ seen. AreBoth (done_reply seen target.key call.now) r)) }
    ensures held { OnOk result (files.new.held ≡ done_held files.old.held target.key call.now) }
    ensures ends { Ends D.Disk files.old number None result files.new }
{
    match call {
        Call::Read { offset, len, .. } => read(files, alloc, target.key, *offset, *len),
        Call::Write { offset, body, .. } => {
            write(files, alloc, target.key, *offset, body, number)
        }
        Call::Truncate { size, .. } => { truncate(files, alloc, target.key, *size, number) }
        Call::Remove { .. } => remove(files, alloc, target.key, number),
        Call::Stat { .. } => {
            let size = target.size;
            Ok((Reply::Size(size), Reply::Size(size)))
        }
        Call::Create { .. } | Call::Sync => unreachable!(),
    }
}

/// Does a create or a sync, which mean no file.
pub(crate) fn perform_alone<D: Disk>(
    files: &mut FileStore<D>,
    alloc: Global,
    call: &Call,
    number: u64,
) -> Result<(Reply, Reply), MetaRefusal>
    requires working { files.old.failed ≡ false }
    requires idle { Proceeds D.Disk files.old number files.old }
    requires rises { files.old.meta.number ≤ number }
    requires lawful { MayDo (superblock_of files.old) files.old.held.files call.now }
    requires alone { IsOn files.old.held.files (key_in None) call.now None }
    ensures reply { IfOk result (λ r. AreBoth (done_reply files.old.held (key_in None) call.now) r) }
    ensures held { OnOk result (files.new.held ≡ done_held files.old.held (key_in None) call.now) }
    ensures synced { call.now ≡ Sync → OnOk result (IsSynced D.Disk number files.old files.new) }
    ensures ends { Ends D.Disk files.old number None result files.new }
{
    match call {
        Call::Create { name } => create(files, alloc, name, number),
        Call::Sync => commit(files, alloc, number),
        _ => unreachable!(),
    }
}

/// Makes an empty file with that name.
fn create<D: Disk>(
    files: &mut FileStore<D>,
    alloc: Global,
    name: &Word,
    number: u64,
) -> Result<(Reply, Reply), MetaRefusal>
    requires working { files.old.failed ≡ false }
    requires rises { files.old.meta.number ≤ number }
    requires lawful { refusal_of (superblock_of files.old) (names_of files.old.held.files) (Create name.now) ≡ None }
    ensures reply { IfOk result (λ r. AreBoth (Made (next_key files.old.held)) r) }
    ensures held { OnOk result (files.new.held ≡ record { files = affected_held (Makes name.now) (next_key files.old.held) files.old.held.files; next = files.old.held.next + 1 }) }
    ensures ends { Ends D.Disk files.old number None result files.new }
{
    let key = files.make(alloc, name, number)?;
    Ok((Reply::Made(key), Reply::Made(key)))
}

/// Reads at most `len` bytes from the offset on, and copies them once for the history.
fn read<D: Disk>(
    files: &mut FileStore<D>,
    alloc: Global,
    key: FileKey,
    offset: u64,
    len: u64,
) -> Result<(Reply, Reply), MetaRefusal>
    requires working { files.old.failed ≡ false }
    requires live { IsSome (find_key (λ f. f.key) key files.old.held.files) }
    ensures reply { IfOk result (λ r. IsOfSeen (Tells D.Disk files.new.disk) files.old.held (λ seen. AreBoth (Data (read_at offset len (bytes_of key seen.files))) r)) }
    ensures held { files.new.held ≡ files.old.held }
    ensures ends { (n : ℕ) → Ends D.Disk files.old n None result files.new }
{
    let bytes = files.read(alloc, key, offset, len)?;
    let again = bytes.clone()?;
    Ok((Reply::Data(bytes), Reply::Data(again)))
}

/// Writes the bytes from the offset on.
fn write<D: Disk>(
    files: &mut FileStore<D>,
    alloc: Global,
    key: FileKey,
    offset: u64,
    body: &Bytes,
    number: u64,
) -> Result<(Reply, Reply), MetaRefusal>
    requires working { files.old.failed ≡ false }
    requires rises { files.old.meta.number ≤ number }
    requires live { IsSome (find_key (λ f. f.key) key files.old.held.files) }
    requires some { 1 ≤ length body.now }
    requires few { length body.now ≤ access_bytes }
    requires end { offset + length body.now ≤ (superblock_of files.old).geometry.limits.bytes }
    requires here { IsSound (Writes offset body.now) (file_at key files.old.held.files) }
    requires room { length (touched (Writes offset body.now) (length (bytes_of key files.old.held.files))) + used files.old.held.files ≤ (superblock_of files.old).geometry.blocks }
    ensures reply { IfOk result (λ r. AreBoth Reply.Done r) }
    ensures changed { Changes D.Disk files.old number key (Writes offset body.now) None result files.new }
{
    files.write(alloc, key, offset, body.as_slice(), number)?;
    Ok((Reply::Done, Reply::Done))
}

/// Gives the file that size in bytes.
fn truncate<D: Disk>(
    files: &mut FileStore<D>,
    alloc: Global,
    key: FileKey,
    size: u64,
    number: u64,
) -> Result<(Reply, Reply), MetaRefusal>
    requires working { files.old.failed ≡ false }
    requires rises { files.old.meta.number ≤ number }
    requires live { IsSome (find_key (λ f. f.key) key files.old.held.files) }
    requires end { size ≤ (superblock_of files.old).geometry.limits.bytes }
    requires here { IsSound (Resizes size) (file_at key files.old.held.files) }
    requires room { length (touched (Resizes size) (length (bytes_of key files.old.held.files))) + used files.old.held.files ≤ (superblock_of files.old).geometry.blocks }
    ensures reply { IfOk result (λ r. AreBoth Reply.Done r) }
    ensures changed { Changes D.Disk files.old number key (Resizes size) None result files.new }
{
    files.truncate(alloc, key, size, number)?;
    Ok((Reply::Done, Reply::Done))
}

/// Removes the file.
fn remove<D: Disk>(
    files: &mut FileStore<D>,
    alloc: Global,
    key: FileKey,
    number: u64,
) -> Result<(Reply, Reply), MetaRefusal>
    requires working { files.old.failed ≡ false }
    requires rises { files.old.meta.number ≤ number }
    requires live { IsSome (find_key (λ f. f.key) key files.old.held.files) }
    ensures reply { IfOk result (λ r. AreBoth Reply.Done r) }
    ensures changed { Changes D.Disk files.old number key Drops None result files.new }
{
    files.remove(alloc, key, number)?;
    Ok((Reply::Done, Reply::Done))
}

/// Makes durable all that is held.
pub(crate) fn commit<D: Disk>(
    files: &mut FileStore<D>,
    alloc: Global,
    number: u64,
) -> Result<(Reply, Reply), MetaRefusal>
    requires working { files.old.failed ≡ false }
    requires rises { files.old.meta.number ≤ number }
    ensures reply { IfOk result (λ r. AreBoth Reply.Done r) }
    ensures held { files.new.held ≡ files.old.held }
    ensures synced { OnOk result (IsSynced D.Disk number files.old files.new) }
    ensures ends { Ends D.Disk files.old number None result files.new }
{
    files.sync(alloc, number)?;
    Ok((Reply::Done, Reply::Done))
}
