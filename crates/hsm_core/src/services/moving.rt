//! Calls by which the bytes of a live file's segments leave the store and come back.
ghost use Rattle.std.specs.Prelude.{◌≡◌, ◌+◌, ◌*◌, ◌<◌, ◌≤◌, ◌⊎◌, false, true, Some, IfSome, IsSome, OnOk, length};
ghost use Rattle.hsm_types.specs.Calls.{scope_of};
ghost use Rattle.hsm_types.specs.Limits.{IsCountable};
ghost use Rattle.hsm_types.specs.Messages.{no_token};
ghost use Rattle.hsm_types.specs.Refusals.{first_refusal};
ghost use Rattle.hsm_types.specs.Stubs.{offline_at, print_of, stub_at, entry_place, entry_print};
ghost use Rattle.hsm_types.specs.declared.dm.DmCall.TheVariants.{PunchHole, Seal, Restore};
ghost use Rattle.plain_model.specs.Effects.{Restores, punch_from, punch_to};
ghost use Rattle.plain_model.specs.Blocks.{touched};
ghost use Rattle.hsm_types.specs.Keyed.{find_key};
ghost use Rattle.plain_model.specs.Segments.{bad_volume, ends_well, bad_punch, restore_refusal};
ghost use Rattle.plain_model.specs.Services.{kept_of};
ghost use Rattle.plain_model.specs.State.{file_at, bytes_of, used};
ghost use Rattle.file_store.specs.Stores.{superblock_of, Proceeds};
ghost use Rattle.dm_service.specs.Services.{Judges};
ghost use Rattle.hsm_core.specs.Services.{IsInScope, IsServedByFiles, moves_segments, unread_refusals};

use crate::services::ranges::{judge_print, judge_room, judge_segment, state};
use crate::services::replies::{changed, refused};
use disk_model::Disk;
use file_body::touched_by_restore;
use file_store::FileStore;
use hsm_types::{
    DmCall, DmRefusal, DmReply, FILE_BYTES, FileKey, Handle, LAST_VOLUME, Limits, SEGMENT_BYTES,
    StubEntry, Verified, segments_in,
};
use snapshot_text::MetaRefusal;
use std::alloc::Global;
use stub_map::State;

/// Serves a seal, a punch or a restore that its scope doesn't refuse.
pub(crate) fn serve<D: Disk>(
    files: &mut FileStore<D>,
    alloc: Global,
    call: &DmCall,
    number: u64,
) -> Result<(DmReply, DmReply), MetaRefusal>
    requires working { files.old.failed ≡ false }
    requires idle { Proceeds D.Disk files.old number files.old }
    requires rises { files.old.meta.number ≤ number }
    requires moves { moves_segments call.now ≡ true }
    requires within { IsInScope files.old.held.files (scope_of call.now) }
    ensures { IsServedByFiles D.Disk files.old number call.now result files.new }
{
    match call {
        DmCall::PunchHole {
            handle,
            offset,
            len,
            ..
        } => punch(files, alloc, *handle, *offset, *len, number),
        DmCall::Seal {
            handle,
            segment,
            entry,
            ..
        } => seal(files, alloc, *handle, *segment, *entry, number),
        DmCall::Restore {
            handle,
            segment,
            bytes,
            ..
        } => restore(files, alloc, *handle, *segment, bytes, number),
        _ => unreachable!(),
    }
}

/// Gives up the bytes of sealed segments.
fn punch<D: Disk>(
    files: &mut FileStore<D>,
    alloc: Global,
    handle: Handle,
    offset: u64,
    len: u64,
    number: u64,
) -> Result<(DmReply, DmReply), MetaRefusal>
    requires working { files.old.failed ≡ false }
    requires live { IsSome (find_key (λ f. f.key) handle.key files.old.held.files) }
    requires idle { Proceeds D.Disk files.old number files.old }
    requires rises { files.old.meta.number ≤ number }
    ensures { IsServedByFiles D.Disk files.old number (PunchHole no_token handle offset len) result files.new }
{
    let size = files.size(handle.key);
    if let Err(why) = judge_punch(files, offset, len, size) {
        return Ok(refused(why));
    }
    let from = (offset / SEGMENT_BYTES) as u32;
    let to = punched_to(offset, len);
    changed(files.punch(alloc, handle.key, from, to, number))
}

/// A punch of a file of that size begins at a segment, and ends at one or with the file.
fn judge_punch<D: Disk>(
    files: &FileStore<D>,
    offset: u64,
    len: u64,
    size: u64,
) -> Result<(), DmRefusal>
    requires { size ≤ FILE_BYTES }
    ensures judged { Judges result (bad_punch (superblock_of files.now).geometry.limits offset len size) }
    ensures start { OnOk result (SEGMENT_BYTES * punch_from offset < size) }
    ensures end { OnOk result (len ≡ 0 ⊎ offset + len ≤ FILE_BYTES) }
{
    let limits = files.superblock().geometry.limits;
    let begins = offset % SEGMENT_BYTES == 0 && offset < size;
    if begins && ends_well(limits, offset, len, size) {
        Ok(())
    } else {
        Err(DmRefusal::BadRange)
    }
}

/// Whether a punch of a file of that size ends at a segment, or with the file.
fn ends_well(limits: Limits, offset: u64, len: u64, size: u64) -> bool
    requires size { size ≤ FILE_BYTES }
    requires countable { IsCountable limits }
    ensures judged { result ≡ ends_well limits offset len size }
    ensures end { result ≡ true → len ≡ 0 ⊎ offset + len ≤ FILE_BYTES }
{
    if len == 0 {
        return true;
    }
    match offset.checked_add(len) {
        Some(end) => end <= limits.bytes && (end % SEGMENT_BYTES == 0 || end == size),
        None => false,
    }
}

/// The number behind that of the last segment that a punch may give up.
fn punched_to(offset: u64, len: u64) -> u32
    requires { len ≡ 0 ⊎ offset + len ≤ FILE_BYTES }
    ensures { result ≡ punch_to offset len }
{
    if len == 0 {
        segments_in(FILE_BYTES)
    } else {
        segments_in(offset + len)
    }
}

/// Says where a copy of the segment's bytes lies. The bytes are read once, where they are.
fn seal<D: Disk>(
    files: &mut FileStore<D>,
    alloc: Global,
    handle: Handle,
    segment: u32,
    entry: StubEntry,
    number: u64,
) -> Result<(DmReply, DmReply), MetaRefusal>
    requires working { files.old.failed ≡ false }
    requires live { IsSome (find_key (λ f. f.key) handle.key files.old.held.files) }
    requires idle { Proceeds D.Disk files.old number files.old }
    requires rises { files.old.meta.number ≤ number }
    ensures { IsServedByFiles D.Disk files.old number (Seal no_token handle segment entry) result files.new }
{
    if let Err(why) = judge_seal(files, handle.key, segment, entry) {
        return Ok(refused(why));
    }
    let got = files.digest_segment(handle.key, segment)?;
    if let Err(why) = judge_print(entry.print(), got) {
        return Ok(refused(why));
    }
    changed(files.seal(alloc, handle.key, segment, entry, number))
}

/// What refuses a seal whatever the bytes of its segment, but for the limit of entries.
#[tactic(auto, using(crate::proofs::Refusing::passes, crate::proofs::Refusing::stops))]
fn judge_seal<D: Disk>(
    files: &FileStore<D>,
    key: FileKey,
    segment: u32,
    entry: StubEntry,
) -> Result<(), DmRefusal>
    requires { IsSome (find_key (λ f. f.key) key files.now.held.files) }
    ensures judged { Judges result (first_refusal (unread_refusals (file_at key files.now.held.files) segment entry)) }
    ensures start { OnOk result (SEGMENT_BYTES * segment < length (bytes_of key files.now.held.files)) }
    ensures volume { OnOk result ((entry_place entry).volume ≤ LAST_VOLUME) }
    ensures here { OnOk result (offline_at (kept_of key files.now.held.files).stubs segment ≡ false) }
{
    judge_segment(files, key, segment)?;
    judge_volume(entry.place().volume)?;
    match state(files, key, segment) {
        State::Offline(_) => Err(DmRefusal::Offline { segment }),
        _ => Ok(()),
    }
}

/// Volumes are numbered from 0 to [`LAST_VOLUME`].
fn judge_volume(volume: u32) -> Result<(), DmRefusal>
    ensures judged { Judges result (bad_volume volume) }
    ensures volume { OnOk result (volume ≤ LAST_VOLUME) }
{
    if volume <= LAST_VOLUME {
        Ok(())
    } else {
        Err(DmRefusal::BadRange)
    }
}

/// Brings back the bytes of an offline segment.
fn restore<D: Disk>(
    files: &mut FileStore<D>,
    alloc: Global,
    handle: Handle,
    segment: u32,
    bytes: &Verified,
    number: u64,
) -> Result<(DmReply, DmReply), MetaRefusal>
    requires working { files.old.failed ≡ false }
    requires live { IsSome (find_key (λ f. f.key) handle.key files.old.held.files) }
    requires idle { Proceeds D.Disk files.old number files.old }
    requires rises { files.old.meta.number ≤ number }
    ensures { IsServedByFiles D.Disk files.old number (Restore no_token handle segment bytes.now) result files.new }
{
    if let Err(why) = judge_restore(files, handle.key, segment, bytes) {
        return Ok(refused(why));
    }
    changed(files.restore(alloc, handle.key, segment, bytes, number))
}

/// What refuses a restore. The bytes aren't read, since they come with their fingerprint.
#[tactic(auto, using(crate::proofs::Refusing::passes, crate::proofs::Refusing::stops))]
fn judge_restore<D: Disk>(
    files: &FileStore<D>,
    key: FileKey,
    segment: u32,
    bytes: &Verified,
) -> Result<(), DmRefusal>
    requires { IsSome (find_key (λ f. f.key) key files.now.held.files) }
    ensures judged { Judges result (restore_refusal (superblock_of files.now) files.now.held (file_at key files.now.held.files) segment bytes.now) }
    ensures start { OnOk result (SEGMENT_BYTES * segment < length (bytes_of key files.now.held.files)) }
    ensures offline { OnOk result (offline_at (kept_of key files.now.held.files).stubs segment ≡ true) }
    ensures print { OnOk result (IfSome (stub_at segment (kept_of key files.now.held.files).stubs) (λ stub. entry_print stub.entry ≡ print_of bytes.now)) }
    ensures room { OnOk result (length (touched (Restores segment bytes.now) (length (bytes_of key files.now.held.files))) + used files.now.held.files ≤ (superblock_of files.now).geometry.blocks) }
{
    judge_segment(files, key, segment)?;
    let State::Offline(entry) = state(files, key, segment) else {
        return Err(DmRefusal::NotOffline { segment });
    };
    judge_print(entry.print(), bytes.fingerprint())?;
    let len = bytes.as_slice().len() as u64;
    judge_room(files, touched_by_restore(segment, len).count())
}
