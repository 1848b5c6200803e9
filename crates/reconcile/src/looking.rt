//! What drives have of the objects that entries name.
ghost use Rattle.std.specs.Prelude.{◌≡◌, ◌<◌, length, IfOk, IfErr};
ghost use Rattle.hsm_types.specs.Stubs.{entry_place};
ghost use Rattle.media_model.specs.Objects.{Objects};
ghost use Rattle.volume_shelf.specs.Shelf.{Reads};
ghost use Rattle.reconcile.specs.Classes.{Tells, AreRead, AreQuiet, TellsFailed, ClassesRefused};
ghost use Rattle.reconcile.specs.Steps.{print_at, told_by, IsFound, DriveRefused};

use crate::refusals::ReconcileRefusal;
use hsm_types::{Fault, FetchRefusal, Fingerprint, StubEntry};
use media_model::Drive;
use std::alloc::Global;
use volume_shelf::fetch;

/// The fingerprint of the payload of the entry's object, where it is on one of the volumes. It is read once.
pub(crate) fn look<M: Drive>(
    alloc: Global,
    drives: &mut [M],
    volumes: u32,
    entry: &StubEntry,
) -> Result<Option<Fingerprint>, ReconcileRefusal>
    requires { 0 < length drives.old }
    ensures found { IfOk result (IsFound M.Drive volumes drives.old entry.now) }
    ensures refused { IfErr result (ClassesRefused M.Drive volumes drives.old drives.new) }
    ensures reads { AreRead M.Drive drives.old drives.new }
    ensures quiet { (TellsFailed result → ⊥) → AreQuiet M.Drive drives.old drives.new }
{
    let volume = entry.place().volume;
    if volume >= volumes {
        return Ok(None);
    }
    let number = volume as usize % drives.len();
    look_on(alloc, &mut drives[number], entry)
}

/// That fingerprint, where the drive has the object.
fn look_on<M: Drive>(
    alloc: Global,
    drive: &mut M,
    entry: &StubEntry,
) -> Result<Option<Fingerprint>, ReconcileRefusal>
    ensures found { IfOk result (λ found. (o : Objects) → Tells M.Drive drive.old (entry_place entry.now).volume o → found ≡ print_at entry.now o) }
    ensures refused { IfErr result (DriveRefused M.Drive (entry_place entry.now).volume drive.old drive.new) }
    ensures reads { Reads M.Drive drive.old drive.new }
    ensures quiet { (TellsFailed result → ⊥) → M.fault_count drive.new ≡ M.fault_count drive.old }
{
    match fetch(alloc, drive, entry) {
        Ok(bytes) => Ok(Some(bytes.fingerprint())),
        Err(why) => told_by(entry.place().volume, &why),
    }
}

/// What a fetch from the volume that was refused tells of the object.
fn told_by(volume: u32, why: &FetchRefusal) -> Result<Option<Fingerprint>, ReconcileRefusal>
    ensures { result ≡ told_by volume why.now }
{
    match why {
        FetchRefusal::Media(cause) => match cause.fault() {
            Fault::Failed { .. } => Err(ReconcileRefusal::Failed { volume }),
            Fault::Damaged { got, .. } => Ok(Some(got)),
        },
        FetchRefusal::NoObject { .. } => Ok(None),
        FetchRefusal::Memory => Err(ReconcileRefusal::Memory),
    }
}
