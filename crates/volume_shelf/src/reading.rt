//! How the payload of an object is read.
ghost use Rattle.std.specs.Prelude.{◌≡◌, ◌+◌, ◌<◌, ◌≤◌, ◌^◌, ℕ, List, ◌++◌, length, take, drop, IfOk, IfErr, IsErr, IsErrOf, OnErr, OnOk};
ghost use Rattle.disk_model.specs.Calls.{raised};
ghost use Rattle.hsm_types.specs.Stubs.{print_of};
ghost use Rattle.media_model.specs.Objects.{Objects, HasCause, IsAsked};
ghost use Rattle.media_model.specs.declared.drive.DriveRefusal.TheVariants.{Failed, NoObject};
ghost use Rattle.volume_shelf.specs.Prints.{AreSoFar};
ghost use Rattle.volume_shelf.specs.Shelf.{payload_in, Reads};

use crate::prints::Pieces;
use hsm_types::Fingerprint;
use media_model::{Drive, DriveRefusal};
use volume_format::FRAME_BYTES;

const FRAME: u32 = FRAME_BYTES as u32;

/// How many bytes the object's payload has.
pub(crate) fn payload_len<M: Drive>(
    drive: &mut M,
    volume: u32,
    object: u32,
) -> Result<u32, DriveRefusal>
    ensures told { IfOk result (λ n. (o : Objects) → M.gives drive.old volume o → (object < length o) × (n ≡ length (payload_in object o))) }
    ensures short { IfOk result (λ n. 72 + n < 2 ^ 32) }
    ensures missing { IsErrOf result NoObject → (o : Objects) → M.gives drive.old volume o → length o ≤ object }
    ensures asked { IsAsked result }
    ensures reads { Reads M.Drive drive.old drive.new }
    ensures cause { HasCause result (M.has drive.old volume) (M.fault_count drive.old) (M.fault_count drive.new) }
{
    let size = drive.size(volume, object)?;
    Ok(size.saturating_sub(FRAME))
}

/// Puts bytes of the payload, from that place on, into the buffer as far as they fit, and tells how many it has put: 0 where the object isn't there.
pub(crate) fn read_piece<M: Drive>(
    drive: &mut M,
    volume: u32,
    object: u32,
    at: u32,
    buf: &mut [u8],
) -> Result<usize, DriveRefusal>
    requires { 72 + at < 2 ^ 32 }
    ensures told { IfOk result (λ n. (o : Objects) → M.gives drive.old volume o → object < length o → take n buf.new ≡ take (length buf.old) (drop at (payload_in object o))) }
    ensures count { IfOk result (λ n. n ≤ length buf.old) }
    ensures refused { IfErr result (λ why. why ≡ Failed) }
    ensures reads { Reads M.Drive drive.old drive.new }
    ensures rose { OnErr result (M.fault_count drive.new ≡ raised (M.fault_count drive.old)) }
    ensures quiet { OnOk result (M.fault_count drive.new ≡ M.fault_count drive.old) }
{
    match drive.read(volume, object, FRAME + at, buf) {
        Ok(count) => Ok(count as usize),
        Err(DriveRefusal::Failed) => Err(DriveRefusal::Failed),
        Err(_) => Ok(0),
    }
}

/// Reads bytes of the payload that has so many, and puts them behind the pieces so far. It tells how many: none where all are there, or where the drive
/// gives none.
fn add_piece<M: Drive>(
    drive: &mut M,
    volume: u32,
    object: u32,
    len: u32,
    buf: &mut [u8],
    pieces: &mut Pieces,
) -> Result<u32, DriveRefusal>
    requires short { 72 + len < 2 ^ 32 }
    requires room { 0 < length buf.old }
    requires within { pieces.old.len ≤ len }
    ensures counted { IfOk result (λ n. pieces.new.len ≡ pieces.old.len + n) }
    ensures within { OnOk result (pieces.new.len ≤ len) }
    ensures adds { IfOk result (λ n. (bytes : List ℕ) → AreSoFar pieces.old bytes → (piece : List ℕ) × AreSoFar pieces.new (bytes ++ piece) × ((o : Objects) → M.gives drive.old volume o → object < length o → piece ≡ take n (drop pieces.old.len (payload_in object o)))) }
    ensures ends { IfOk result (λ n. n ≡ 0 → (o : Objects) → M.gives drive.old volume o → object < length o → len ≡ length (payload_in object o) → pieces.new.len ≡ len) }
    ensures refused { IfErr result (λ why. why ≡ Failed) }
    ensures reads { Reads M.Drive drive.old drive.new }
    ensures rose { OnErr result (M.fault_count drive.new ≡ raised (M.fault_count drive.old)) }
    ensures quiet { OnOk result (M.fault_count drive.new ≡ M.fault_count drive.old) }
{
    let at = pieces.len();
    let count = read_piece(drive, volume, object, at, buf)?.min((len - at) as usize);
    pieces.add(&buf[..count]);
    Ok(count as u32)
}

/// The fingerprint of the object's payload, of which there are so many bytes. It is read by pieces of the buffer's length. Where the drive gives fewer
/// bytes, it is the fingerprint of those.
pub(crate) fn print_payload<M: Drive>(
    drive: &mut M,
    volume: u32,
    object: u32,
    len: u32,
    buf: &mut [u8],
) -> Result<Fingerprint, DriveRefusal>
    requires short { 72 + len < 2 ^ 32 }
    requires room { 0 < length buf.old }
    ensures told { IfOk result (λ print. (o : Objects) → M.gives drive.old volume o → object < length o → len ≡ length (payload_in object o) → print ≡ print_of (payload_in object o)) }
    ensures refused { IfErr result (λ why. why ≡ Failed) }
    ensures reads { Reads M.Drive drive.old drive.new }
    ensures rose { OnErr result (M.fault_count drive.new ≡ raised (M.fault_count drive.old)) }
    ensures quiet { OnOk result (M.fault_count drive.new ≡ M.fault_count drive.old) }
{
    let mut pieces = Pieces::none();
    'pieces: loop {
        if pieces.len() == len {
            return Ok(pieces.fingerprint());
        }
        if add_piece(drive, volume, object, len, buf, &mut pieces)? == 0 {
            return Ok(pieces.fingerprint());
        }
    }
}
