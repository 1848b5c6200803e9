//! How many objects and entries are of each class.
ghost use Rattle.std.specs.Prelude.{◌≡◌, ◌+◌, ◌<◌, ℕ, length, IfOk, IfErr};
ghost use Rattle.media_model.specs.Objects.{Objects};
ghost use Rattle.reconcile.specs.Classes.{class_counts, entries_of, AreRead, AreTold, AreQuiet, TellsFailed, ClassesRefused};

use crate::entries::in_order;
use crate::objects::count_all;
use crate::refusals::ReconcileRefusal;
use crate::walking::class_entries;
use hsm_types::Table;
use media_model::Drive;
use std::alloc::Global;
use store_summary::ClassCounts;

/// Counts the objects of the volumes below `volumes` by whether a stub entry of the table names them, and the entries by what has become of their objects.
/// Volume v is in the drive v mod their number; one that the drive doesn't have has no objects. An entry that names a volume from `volumes` on is missing.
///
/// Each object that entries name is read once, however many name it, and its bytes are in memory while it is read, those of no other beside them. The
/// other objects are not read. The entries are sorted, in memory of the call's own. Where a drive fails, that is told, and with each other answer all
/// counts of faults are as they were.
pub fn classes<M: Drive>(
    alloc: Global,
    table: &Table,
    drives: &mut [M],
    volumes: u32,
) -> Result<ClassCounts, ReconcileRefusal>
    requires { 0 < length drives.old }
    ensures counts { IfOk result (λ counts. (told : ℕ → Objects) → AreTold M.Drive volumes drives.old told → counts ≡ class_counts volumes told (entries_of table.now)) }
    ensures entries { IfOk result (λ counts. counts.held + counts.missing + counts.altered ≡ length (entries_of table.now)) }
    ensures refused { IfErr result (ClassesRefused M.Drive volumes drives.old drives.new) }
    ensures reads { AreRead M.Drive drives.old drives.new }
    ensures quiet { (TellsFailed result → ⊥) → AreQuiet M.Drive drives.old drives.new }
{
    let entries = in_order(alloc, table)?;
    let objects = count_all(drives, volumes)?;
    let counts = class_entries(alloc, &entries, drives, volumes)?;
    Ok(ClassCounts {
        dead: objects.saturating_sub(counts.live),
        ..counts
    })
}
