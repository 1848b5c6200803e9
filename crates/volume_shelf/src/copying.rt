//! How the copy of a segment is put on a volume.
ghost use Rattle.std.specs.Prelude.{◌≡◌, ◌+◌, ◌<◌, ◌≤◌, ◌^◌, true, length, IfOk, IfErr, OnOk, MatchResult};
ghost use Rattle.disk_model.specs.Calls.{raised};
ghost use Rattle.hsm_types.specs.Limits.{segment_bytes};
ghost use Rattle.hsm_types.specs.Stubs.{print_of};
ghost use Rattle.hsm_types.specs.declared.media.CopyRefusal.TheVariants.{Failed};
ghost use Rattle.media_model.specs.Objects.{Objects, longest_object};
ghost use Rattle.volume_shelf.specs.Shelf.{payload_in, Reads, Grows, Copied, CopyRefused, IsFailedCopy};
ghost use Rattle.volume_shelf.specs.Steps.{IsPut, NotPut, Prints, IsUnlike};

use crate::reading::{payload_len, print_payload};
use hsm_types::{CopyRefusal, Fingerprint, Handle, Place, StubEntry, Verified};
use media_model::{Drive, DriveRefusal};
use std::alloc::Global;
use volume_format::{payload_follows, write_object};

/// Copies the bytes of the segment to the volume: puts their object there, reads its payload back, compares the fingerprints, and makes the
/// volume last. The bytes are copied once, into the object, whose memory is the only memory that is taken; what is read back is digested once.
/// After `Failed` and `Damaged` the volume may have one object more. With `Failed` one call of the drive failed, and with each other answer its
/// count of faults is as it was.
pub fn copy<M: Drive>(
    alloc: Global,
    drive: &mut M,
    volume: u32,
    handle: &Handle,
    segment: u32,
    bytes: &Verified,
) -> Result<StubEntry, CopyRefusal>
    requires some { 1 ≤ length bytes.now }
    requires most { length bytes.now ≤ segment_bytes }
    ensures answer { MatchResult result (Copied M.Drive volume handle.now segment bytes.now drive.old drive.new) (CopyRefused M.Drive volume (72 + length bytes.now) (print_of bytes.now) drive.old drive.new) }
    ensures grows { Grows M.Drive volume drive.old drive.new }
    ensures quiet { (IsFailedCopy result → ⊥) → M.fault_count drive.new ≡ M.fault_count drive.old }
{
    let Ok(object) = write_object(alloc, handle, segment, bytes) else {
        return Err(CopyRefusal::Memory);
    };
    payload_follows();
    let begun = drive.faults();
    let number = put(drive, volume, object.as_slice(), begun)?;
    let print = bytes.fingerprint();
    compare(drive, volume, number, print, begun, &mut object.into_vec())?;
    make_last(drive, volume, begun)?;
    let place = Place {
        volume,
        object: number,
    };
    Ok(StubEntry::new(place, print))
}

/// Puts the object on the volume, and tells its number.
fn put<M: Drive>(drive: &mut M, volume: u32, object: &[u8], begun: u64) -> Result<u32, CopyRefusal>
    requires most { length object.now ≤ longest_object }
    requires begun { begun ≡ M.fault_count drive.old }
    ensures answer { MatchResult result (IsPut M.Drive volume object.now drive.old drive.new) (NotPut M.Drive volume (length object.now) drive.old drive.new) }
    ensures grows { Grows M.Drive volume drive.old drive.new }
    ensures quiet { (IsFailedCopy result → ⊥) → M.fault_count drive.new ≡ M.fault_count drive.old }
{
    match drive.append(volume, object) {
        Ok(number) => Ok(number),
        Err(DriveRefusal::Failed) => Err(failed(drive, begun)),
        Err(
            DriveRefusal::Full {
                used,
                len,
                capacity,
            },
        ) => Err(CopyRefusal::Full {
            used,
            len,
            capacity,
        }),
        Err(DriveRefusal::NoVolume) => Err(CopyRefusal::NoVolume),
        Err(DriveRefusal::NoObject) => unreachable!(),
        Err(DriveRefusal::Memory) => Err(CopyRefusal::Memory),
    }
}

/// Reads the object's payload back, and compares its fingerprint. An object that the drive doesn't find has none.
fn compare<M: Drive>(
    drive: &mut M,
    volume: u32,
    object: u32,
    want: Fingerprint,
    begun: u64,
    buf: &mut [u8],
) -> Result<(), CopyRefusal>
    requires { 0 < length buf.old }
    ensures same { OnOk result (Prints M.Drive volume object drive.old want) }
    ensures unlike { IfErr result (IsUnlike M.Drive volume object want begun drive.old drive.new) }
    ensures reads { Reads M.Drive drive.old drive.new }
    ensures quiet { (IsFailedCopy result → ⊥) → M.fault_count drive.new ≡ M.fault_count drive.old }
{
    let Ok(got) = read_back(drive, volume, object, buf) else {
        return Err(failed(drive, begun));
    };
    if got != want {
        return Err(CopyRefusal::Damaged { want, got });
    }
    Ok(())
}

/// The fingerprint of the payload that the drive gives.
fn read_back<M: Drive>(
    drive: &mut M,
    volume: u32,
    object: u32,
    buf: &mut [u8],
) -> Result<Fingerprint, DriveRefusal>
    requires { 0 < length buf.old }
    ensures prints { IfOk result (Prints M.Drive volume object drive.old) }
    ensures rose { IfErr result (λ why. M.fault_count drive.new ≡ raised (M.fault_count drive.old)) }
    ensures reads { Reads M.Drive drive.old drive.new }
    ensures quiet { OnOk result (M.fault_count drive.new ≡ M.fault_count drive.old) }
{
    let len = len_or_none(drive, volume, object)?;
    print_payload(drive, volume, object, len, buf)
}

/// How many bytes the object's payload has: 0 where the drive doesn't find it.
fn len_or_none<M: Drive>(drive: &mut M, volume: u32, object: u32) -> Result<u32, DriveRefusal>
    ensures told { IfOk result (λ n. (o : Objects) → M.gives drive.old volume o → object < length o → n ≡ length (payload_in object o)) }
    ensures short { IfOk result (λ n. 72 + n < 2 ^ 32) }
    ensures rose { IfErr result (λ why. M.fault_count drive.new ≡ raised (M.fault_count drive.old)) }
    ensures reads { Reads M.Drive drive.old drive.new }
    ensures quiet { OnOk result (M.fault_count drive.new ≡ M.fault_count drive.old) }
{
    match payload_len(drive, volume, object) {
        Ok(len) => Ok(len),
        Err(DriveRefusal::Failed) => Err(DriveRefusal::Failed),
        Err(_) => Ok(0),
    }
}

/// Makes the objects of the volume, which is there, last.
fn make_last<M: Drive>(drive: &mut M, volume: u32, begun: u64) -> Result<(), CopyRefusal>
    requires { M.has drive.old volume ≡ true }
    ensures lasts { OnOk result ((o : Objects) → M.gives drive.new volume o → length o ≤ M.lasting drive.new volume) }
    ensures failed { IfErr result (λ why. (why ≡ Failed begun (M.fault_count drive.new)) × (M.fault_count drive.new ≡ raised (M.fault_count drive.old))) }
    ensures reads { Reads M.Drive drive.old drive.new }
    ensures quiet { OnOk result (M.fault_count drive.new ≡ M.fault_count drive.old) }
{
    if drive.sync(volume).is_err() {
        return Err(failed(drive, begun));
    }
    Ok(())
}

/// That the drive failed in this copy.
fn failed<M: Drive>(drive: &M, begun: u64) -> CopyRefusal
    ensures { result ≡ Failed begun (M.fault_count drive.now) }
{
    CopyRefusal::Failed {
        before: begun,
        after: drive.faults(),
    }
}
