//! What refuses a call on segments: its range, bytes that are offline or have another fingerprint, and too few free blocks. Judging takes no memory.
ghost use Rattle.std.specs.Prelude.{◌≡◌, ◌+◌, ◌-◌, ◌*◌, ◌<◌, ◌≤◌, None, Some, OnOk, IsSome, IfSome, length, if◌then◌else◌};
ghost use Rattle.std.specs.Option.{option_map};
ghost use Rattle.hsm_types.specs.Segments.{segment_len};
ghost use Rattle.hsm_types.specs.Stubs.{stub_at, entry_print};
ghost use Rattle.hsm_types.specs.Limits.{file_bytes};
ghost use Rattle.plain_model.specs.declared.facts.NoRoom.{NoRoom};
ghost use Rattle.hsm_types.specs.Keyed.{find_key};
ghost use Rattle.plain_model.specs.Segments.{bad_access, past_size, past_end, any_away, same_print};
ghost use Rattle.plain_model.specs.Services.{kept_of};
ghost use Rattle.plain_model.specs.State.{file_at, bytes_of, used};
ghost use Rattle.plain_model.specs.Verdict.{short_of};
ghost use Rattle.stub_map.specs.States.{state_of};
ghost use Rattle.file_store.specs.Stores.{superblock_of};
ghost use Rattle.dm_service.specs.Services.{Judges};

use crate::needs::first_offline;
use crate::room::short_of;
use disk_model::Disk;
use dm_service::NoRoom;
use file_store::FileStore;
use hsm_types::{ACCESS_BYTES, DmRefusal, FileKey, Fingerprint, SEGMENT_BYTES};
use stub_map::State;

/// An invisible access has from 1 to [`ACCESS_BYTES`] bytes.
pub(crate) fn judge_access(len: u64) -> Result<(), DmRefusal>
    ensures { Judges result (bad_access len) }
{
    if 1 <= len && len <= ACCESS_BYTES {
        Ok(())
    } else {
        Err(DmRefusal::BadRange)
    }
}

/// An invisible write ends within the file, whose size it is given.
pub(crate) fn judge_within(end: u64, size: u64) -> Result<(), DmRefusal>
    ensures { Judges result (past_size end size) }
{
    if end <= size {
        Ok(())
    } else {
        Err(DmRefusal::BadRange)
    }
}

/// The segment is one that the file has.
pub(crate) fn judge_segment<D: Disk>(
    files: &FileStore<D>,
    key: FileKey,
    segment: u32,
) -> Result<(), DmRefusal>
    requires live { IsSome (find_key (λ f. f.key) key files.now.held.files) }
    ensures judged { Judges result (past_end segment (length (bytes_of key files.now.held.files))) }
    ensures start { OnOk result (SEGMENT_BYTES * segment < length (bytes_of key files.now.held.files)) }
    ensures limit { length (bytes_of key files.now.held.files) ≤ file_bytes }
{
    if u64::from(segment) * SEGMENT_BYTES < files.size(key) {
        Ok(())
    } else {
        Err(DmRefusal::BadRange)
    }
}

/// The bytes have the fingerprint that is wanted.
#[tactic(auto, using(crate::proofs::Moved::print_itself, crate::proofs::Moved::print_apart))]
pub(crate) fn judge_print(want: Fingerprint, got: Fingerprint) -> Result<(), DmRefusal>
    ensures judged { Judges result (if same_print want got then None else Some (DmRefusal.Changed want got)) }
    ensures same { OnOk result (want ≡ got) }
{
    if want == got {
        Ok(())
    } else {
        Err(DmRefusal::Changed { want, got })
    }
}

/// No more blocks are needed than are free.
pub(crate) fn judge_room<D: Disk>(files: &FileStore<D>, need: u64) -> Result<(), DmRefusal>
    ensures judged { Judges result (option_map (λ (room : NoRoom). DmRefusal.NoSpace room.need room.free) (short_of need ((superblock_of files.now).geometry.blocks - used files.now.held.files))) }
    ensures room { OnOk result (need + used files.now.held.files ≤ (superblock_of files.now).geometry.blocks) }
{
    match short_of(files, need) {
        Some(NoRoom { need, free }) => Err(DmRefusal::NoSpace { need, free }),
        None => Ok(()),
    }
}

/// No segment that the bytes from the first place up to the second meet is offline. It costs their stub entries.
pub(crate) fn judge_here<D: Disk>(
    files: &FileStore<D>,
    key: FileKey,
    from: u64,
    to: u64,
) -> Result<(), DmRefusal>
    requires live { IsSome (find_key (λ f. f.key) key files.now.held.files) }
    requires end { to ≤ file_bytes }
    ensures { Judges result (any_away (file_at key files.now.held.files) from to) }
{
    let stubs = files.meta().catalog().stubs(key);
    match first_offline(stubs, from, to) {
        Some(segment) => Err(DmRefusal::Offline { segment }),
        None => Ok(()),
    }
}

/// What is held of a segment. Its entry, where it has one, has its length.
pub(crate) fn state<D: Disk>(files: &FileStore<D>, key: FileKey, segment: u32) -> State
    requires { IsSome (find_key (λ f. f.key) key files.now.held.files) }
    ensures state { result ≡ state_of (stub_at segment (kept_of key files.now.held.files).stubs) }
    ensures len { IfSome (stub_at segment (kept_of key files.now.held.files).stubs) (λ stub. (entry_print stub.entry).len ≡ segment_len (length (bytes_of key files.now.held.files)) segment) }
{
    files.meta().catalog().stubs(key).state(segment)
}
