//! How many objects volumes have.
ghost use Rattle.std.specs.Prelude.{◌≡◌, ◌<◌, ℕ, length, sum_by, IfOk, IfErr};
ghost use Rattle.std.specs.List.{range_with_len};
ghost use Rattle.media_model.specs.Objects.{Objects};
ghost use Rattle.volume_shelf.specs.Shelf.{Reads};
ghost use Rattle.reconcile.specs.Classes.{Tells, AreRead, AreTold, AreQuiet, TellsFailed, ClassesRefused};
ghost use Rattle.reconcile.specs.Steps.{DriveRefused};

use crate::refusals::ReconcileRefusal;
use media_model::{Drive, DriveRefusal};

/// How many objects the volumes from 0 up to `volumes` have.
pub(crate) fn count_all<M: Drive>(drives: &mut [M], volumes: u32) -> Result<u64, ReconcileRefusal>
    requires { 0 < length drives.old }
    ensures count { IfOk result (λ n. (told : ℕ → Objects) → AreTold M.Drive volumes drives.old told → n ≡ sum_by (λ v. length (told v)) (range_with_len 0 volumes)) }
    ensures refused { IfErr result (ClassesRefused M.Drive volumes drives.old drives.new) }
    ensures reads { AreRead M.Drive drives.old drives.new }
    ensures quiet { (TellsFailed result → ⊥) → AreQuiet M.Drive drives.old drives.new }
{
    let mut count: u64 = 0;
    for volume in 0..volumes {
        let number = volume as usize % drives.len();
        count += u64::from(count_on(&mut drives[number], volume)?);
    }
    Ok(count)
}

/// How many objects the volume has: none where the drive doesn't have it.
fn count_on<M: Drive>(drive: &mut M, volume: u32) -> Result<u32, ReconcileRefusal>
    ensures count { IfOk result (λ n. (o : Objects) → Tells M.Drive drive.old volume o → n ≡ length o) }
    ensures refused { IfErr result (DriveRefused M.Drive volume drive.old drive.new) }
    ensures reads { Reads M.Drive drive.old drive.new }
    ensures quiet { (TellsFailed result → ⊥) → M.fault_count drive.new ≡ M.fault_count drive.old }
{
    match drive.objects(volume) {
        Ok(count) => Ok(count),
        Err(DriveRefusal::NoVolume) => Ok(0),
        Err(_) => Err(ReconcileRefusal::Failed { volume }),
    }
}
