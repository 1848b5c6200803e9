//! How the copy of a segment is fetched from its volume.
ghost use Rattle.std.specs.Prelude.{◌≡◌, ◌≢◌, ◌+◌, ◌<◌, ◌≤◌, ◌^◌, ℕ, length, IfOk, IfErr, OnOk, MatchResult};
ghost use Rattle.disk_model.specs.Calls.{raised};
ghost use Rattle.hsm_types.specs.Stubs.{print_of, entry_place, entry_print};
ghost use Rattle.hsm_types.specs.declared.media.FetchRefusal.TheVariants.{Media};
ghost use Rattle.hsm_types.specs.declared.media.Fault.TheVariants.{Failed, Damaged};
ghost use Rattle.media_model.specs.Objects.{Objects};
ghost use Rattle.volume_shelf.specs.Shelf.{payload_in, Reads, Fetched, FetchRefused, IsFailedFetch};
ghost use Rattle.volume_shelf.specs.Steps.{IsPayload, StepRefused};

use crate::reading::{payload_len, print_payload, read_piece};
use hsm_types::{Bytes, FetchRefusal, Fingerprint, MediaCause, StubEntry, Verified};
use media_model::{Drive, DriveRefusal};
use std::alloc::Global;

/// The payload of the entry's object, if it has the entry's fingerprint. It is read into memory, and digested, once. A payload of another length is read by
/// small pieces, and takes no memory. Where a call of the drive fails, that one fault is told, and with each other answer its count of faults is as it
/// was.
pub fn fetch<M: Drive>(
    alloc: Global,
    drive: &mut M,
    entry: &StubEntry,
) -> Result<Verified, FetchRefusal>
    ensures answer { MatchResult result (Fetched M.Drive entry.now drive.old) (FetchRefused M.Drive entry.now drive.old drive.new) }
    ensures reads { Reads M.Drive drive.old drive.new }
    ensures quiet { (IsFailedFetch result → ⊥) → M.fault_count drive.new ≡ M.fault_count drive.old }
{
    let begun = drive.faults();
    let place = entry.place();
    let len = match payload_len(drive, place.volume, place.object) {
        Ok(len) => len,
        Err(DriveRefusal::Failed) => return Err(failed(drive, entry, begun)),
        Err(_) => {
            return Err(FetchRefusal::NoObject {
                volume: place.volume,
                object: place.object,
            });
        }
    };
    compare(drive, entry, len, begun)?;
    read_whole(alloc, drive, entry, begun)
}

/// Compares the fingerprint of a payload that has another length than is wanted. Only a drive that gives fewer bytes than it tells can make them alike.
fn compare<M: Drive>(
    drive: &mut M,
    entry: &StubEntry,
    len: u32,
    begun: u64,
) -> Result<(), FetchRefusal>
    requires short { 72 + len < 2 ^ 32 }
    requires begun { begun ≡ M.fault_count drive.old }
    ensures alike { OnOk result ((o : Objects) → M.gives drive.old (entry_place entry.now).volume o → (entry_place entry.now).object < length o → len ≡ length (payload_in (entry_place entry.now).object o) → len ≡ (entry_print entry.now).len) }
    ensures refused { IfErr result (StepRefused M.Drive entry.now len begun drive.old drive.new) }
    ensures reads { Reads M.Drive drive.old drive.new }
    ensures quiet { (IsFailedFetch result → ⊥) → M.fault_count drive.new ≡ M.fault_count drive.old }
{
    if len == entry.print().len {
        return Ok(());
    }
    let place = entry.place();
    let mut buf = [0u8; 4096];
    let Ok(got) = print_payload(drive, place.volume, place.object, len, &mut buf) else {
        return Err(failed(drive, entry, begun));
    };
    if got != entry.print() {
        return Err(damaged(entry, got));
    }
    Ok(())
}

/// Reads as many bytes as are wanted, and compares their fingerprint.
fn read_whole<M: Drive>(
    alloc: Global,
    drive: &mut M,
    entry: &StubEntry,
    begun: u64,
) -> Result<Verified, FetchRefusal>
    requires { begun ≡ M.fault_count drive.old }
    ensures print { IfOk result (λ bytes. print_of bytes ≡ entry_print entry.now) }
    ensures bytes { IfOk result (IsPayload M.Drive (entry_place entry.now).volume (entry_place entry.now).object (entry_print entry.now).len drive.old) }
    ensures refused { IfErr result (StepRefused M.Drive entry.now (entry_print entry.now).len begun drive.old drive.new) }
    ensures reads { Reads M.Drive drive.old drive.new }
    ensures quiet { (IsFailedFetch result → ⊥) → M.fault_count drive.new ≡ M.fault_count drive.old }
{
    let want = entry.print();
    let Ok(mut bytes) = vec![in alloc; 0u8; want.len as usize] else {
        return Err(FetchRefusal::Memory);
    };
    let place = entry.place();
    let Ok(count) = read_piece(drive, place.volume, place.object, 0, &mut bytes) else {
        return Err(failed(drive, entry, begun));
    };
    bytes.truncate(count);
    match Verified::check(Bytes::from(bytes), want) {
        Ok(verified) => Ok(verified),
        Err(changed) => Err(damaged(entry, changed.got)),
    }
}

/// That the drive failed in this fetch.
fn failed<M: Drive>(drive: &M, entry: &StubEntry, begun: u64) -> FetchRefusal
    requires { M.fault_count drive.now ≡ raised begun }
    ensures { result ≡ Media (Failed (entry_place entry.now).volume (entry_place entry.now).object begun (M.fault_count drive.now)) }
{
    FetchRefusal::Media(MediaCause::failed(entry.place(), begun, drive.faults()))
}

/// That the medium gives a payload with that fingerprint.
fn damaged(entry: &StubEntry, got: Fingerprint) -> FetchRefusal
    requires { entry_print entry.now ≢ got }
    ensures { result ≡ Media (Damaged (entry_place entry.now).volume (entry_place entry.now).object (entry_print entry.now) got) }
{
    FetchRefusal::Media(MediaCause::damaged(entry.place(), entry.print(), got))
}
