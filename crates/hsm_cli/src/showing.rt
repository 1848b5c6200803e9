//! A store of the host, shown.
ghost use Rattle.std.specs.Prelude.{◌≡◌, ◌≢◌, ◌<◌, ◌⊎◌, ℕ, List, [], length, None, Some, IfErr, IsErrOf, IsSome, option_copied};
ghost use Rattle.disk_model.specs.Calls.{Rose, RoseByOne, raised};
ghost use Rattle.disk_model.specs.Images.{Alike};
ghost use Rattle.disk_model.specs.Moments.{Keeps, Same};
ghost use Rattle.store_summary.specs.Shown.{ShowsText};
ghost use Rattle.reconcile.specs.Classes.{AreRead, AreQuiet, FailsAt};
ghost use Rattle.hsm_cli.specs.Outcomes.{ended_with};
ghost use Rattle.hsm_cli.specs.Texts.{TakesText, IsShown, ShowsStore, AreUntold, AreCounted, GivesVolume};
ghost use Rattle.hosts.specs.Hosts.{StoresAll};
ghost use Rattle.hsm_cli.specs.RunObjects.{FailsOnce, sink_told};
ghost use Rattle.hsm_cli.specs.Endings.{cause_in, WritingEnds, ShowEnds, CountingEnds};
ghost use Rattle.hsm_cli.specs.Clauses.{OnlyReads, HandsOut, HandsDrives, HasFailed, HasDriveFailed, FindsNothing, GivesShown, AsksShown, LacksShown};
ghost use Rattle.hsm_cli.specs.Clauses.{NeverFailed};

use crate::causes::Cause;
use crate::outcomes::Outcome;
use crate::streams::write_text;
use disk_model::Disk;
use hosts::{Host, Sink};
use hsm_core::inspect;
use hsm_policy::Settings;
use hsm_types::{ListOf, MOST_VOLUMES};
use media_model::Drive;
use reconcile::classes;
use std::alloc::Global;
use store_summary::{ClassCounts, Summary, show_text};

/// How many drives the volumes are shared by.
const DRIVES: u32 = 2;

/// Writes what the store of a disk of the host is. The disk comes back as it was.
pub(crate) fn show<H: Host, O: Sink>(
    alloc: Global,
    host: &mut H,
    path: &str,
    sink: &mut O,
) -> Outcome<H::Disk, H::Drive>
    ensures unopened { result ≡ ended_with result.cause [] result.disk }
    ensures reads { OnlyReads H.Disk.Disk (H.holds host.old path.now) result }
    ensures host { HandsOut path.now (H.holds host.old) (H.holds host.new) result.disk }
    ensures asked { H.open_count host.new ≡ raised (H.open_count host.old) }
    ensures unmade { H.make_count host.new ≡ H.make_count host.old }
    ensures undriven { H.drive_count host.new ≡ H.drive_count host.old }
    ensures folders { StoresAll (H.stores host.old) (H.stores host.new) }
    ensures lent { result.cause ≡ Some Cause.HostFault → result.disk ≡ None }
    ensures back { result.disk ≡ None → (result.cause ≡ Some Cause.HostFault) ⊎ (result.cause ≡ Some Cause.NoMemory) }
    ensures output { TakesText (IsShown (H.holds host.old path.now) AreUntold) (sink_told O.taken O.fault_count sink.old sink.new) result.cause }
    ensures quiet { result.cause ≢ Some Cause.HostFault → H.fault_count host.new ≡ H.fault_count host.old }
    ensures host_once { FailsOnce (H.fault_count host.old) (H.fault_count host.new) }
    ensures sink_once { FailsOnce (O.fault_count sink.old) (O.fault_count sink.new) }
    ensures ends { ShowEnds (H.holds host.old path.now) (Rose (H.fault_count host.old) (H.fault_count host.new)) (HasFailed H.Disk.Disk result.disk) (sink_told O.taken O.fault_count sink.old sink.new) result.cause }
{
    let mut disk = match host.disk(path) {
        Ok(disk) => disk,
        Err(refusal) => return Outcome::unopened(alloc, Some(Cause::from(refusal)), None),
    };
    let ended = show_disk(alloc, &mut disk, sink);
    Outcome::unopened(alloc, ended.err(), Some(disk))
}

/// Writes what the store on that disk is.
fn show_disk<D: Disk, O: Sink>(alloc: Global, disk: &mut D, sink: &mut O) -> Result<(), Cause>
    ensures keeps { Keeps D.Disk disk.old disk.new Same }
    ensures given { Alike (D.gives disk.old) (D.gives disk.new) }
    ensures quiet { cause_in result ≢ Some Cause.DiskFault → D.fault_count disk.new ≡ D.fault_count disk.old }
    ensures text { TakesText (IsShown (D.gives disk.old) AreUntold) (sink_told O.taken O.fault_count sink.old sink.new) (cause_in result) }
    ensures ends { ShowEnds (D.gives disk.old) ⊥ (RoseByOne (D.fault_count disk.old) (D.fault_count disk.new)) (sink_told O.taken O.fault_count sink.old sink.new) (cause_in result) }
    ensures once { FailsOnce (O.fault_count sink.old) (O.fault_count sink.new) }
{
    let summary = inspect(alloc, disk)?;
    write_summary(alloc, &summary, None, sink)
}

/// Writes what the store of a disk of the host is, and what the volumes of that folder have of its objects. The disk comes back as it was, and so do the
/// drives over the folder.
pub(crate) fn show_volumes<H: Host, O: Sink>(
    alloc: Global,
    host: &mut H,
    path: &str,
    dir: &str,
    sink: &mut O,
) -> Outcome<H::Disk, H::Drive>
    ensures shown { result ≡ record (ended_with result.cause [] result.disk) { drives = result.drives } }
    ensures reads { OnlyReads H.Disk.Disk (H.holds host.old path.now) result }
    ensures host { HandsOut path.now (H.holds host.old) (H.holds host.new) result.disk }
    ensures asked { H.open_count host.new ≡ raised (H.open_count host.old) }
    ensures unmade { H.make_count host.new ≡ H.make_count host.old }
    ensures drives { GivesShown H.Drive.Drive (H.stores host.old dir.now) result.disk result.cause result.drives }
    ensures folders { HandsDrives dir.now (H.stores host.old) (H.stores host.new) result.drives }
    ensures driven { AsksShown result.disk result.cause (H.drive_count host.old) (H.drive_count host.new) }
    ensures lent { result.cause ≡ Some Cause.HostFault → LacksShown H.Drive.Drive result }
    ensures back { result.disk ≡ None → (result.cause ≡ Some Cause.HostFault) ⊎ (result.cause ≡ Some Cause.NoMemory) }
    ensures unasked { (image : List ℕ) → H.holds host.old path.now image → FindsNothing image → H.drive_count host.new ≡ H.drive_count host.old }
    ensures first { (image : List ℕ) → H.holds host.old path.now image → FindsNothing image → IsSome result.disk → result.cause ≢ Some Cause.HostFault }
    ensures output { TakesText (IsShown (H.holds host.old path.now) (AreCounted (H.stores host.old dir.now))) (sink_told O.taken O.fault_count sink.old sink.new) result.cause }
    ensures quiet { result.cause ≢ Some Cause.HostFault → H.fault_count host.new ≡ H.fault_count host.old }
    ensures host_once { FailsOnce (H.fault_count host.old) (H.fault_count host.new) }
    ensures sink_once { FailsOnce (O.fault_count sink.old) (O.fault_count sink.new) }
    ensures well { result.cause ≢ Some Cause.HostFault → NeverFailed H.Drive.Drive result.drives }
    ensures ends { ShowEnds (H.holds host.old path.now) (Rose (H.fault_count host.old) (H.fault_count host.new) ⊎ HasDriveFailed H.Drive.Drive result.drives) (HasFailed H.Disk.Disk result.disk) (sink_told O.taken O.fault_count sink.old sink.new) result.cause }
{
    let mut disk = match host.disk(path) {
        Ok(disk) => disk,
        Err(refusal) => return Outcome::unopened(alloc, Some(Cause::from(refusal)), None),
    };
    let summary = match inspect(alloc, &mut disk) {
        Ok(summary) => summary,
        Err(refusal) => return Outcome::unopened(alloc, Some(Cause::from(refusal)), Some(disk)),
    };
    let capacity = Settings::default().capacity();
    let mut drives = match host.drives(dir, DRIVES, MOST_VOLUMES, capacity) {
        Ok(drives) => drives,
        Err(refusal) => return Outcome::unopened(alloc, Some(Cause::from(refusal)), Some(disk)),
    };
    let ended = show_classes(alloc, &summary, &mut drives, sink);
    Outcome {
        drives: ListOf::from(drives),
        ..Outcome::unopened(alloc, ended.err(), Some(disk))
    }
}

/// Writes what a store is, and what the volumes have of its objects.
fn show_classes<M: Drive, O: Sink>(
    alloc: Global,
    summary: &Summary,
    drives: &mut [M],
    sink: &mut O,
) -> Result<(), Cause>
    requires { 0 < length drives.old }
    ensures read { AreRead M.Drive drives.old drives.new }
    ensures text { TakesText (ShowsStore summary.now (AreCounted (GivesVolume M.Drive drives.old))) (sink_told O.taken O.fault_count sink.old sink.new) (cause_in result) }
    ensures quiet { (IsErrOf result Cause.HostFault → ⊥) → AreQuiet M.Drive drives.old drives.new }
    ensures ends { IfErr result (CountingEnds ((volume : ℕ) × FailsAt M.Drive volume drives.old drives.new) (sink_told O.taken O.fault_count sink.old sink.new)) }
    ensures once { FailsOnce (O.fault_count sink.old) (O.fault_count sink.new) }
{
    let counts = classes(alloc, &summary.table, drives, MOST_VOLUMES)?;
    write_summary(alloc, summary, Some(&counts), sink)
}

/// Writes what a store is, and its classes if they were counted.
fn write_summary<O: Sink>(
    alloc: Global,
    summary: &Summary,
    classes: Option<&ClassCounts>,
    sink: &mut O,
) -> Result<(), Cause>
    ensures text { TakesText (ShowsText summary.now (option_copied classes.entry)) (sink_told O.taken O.fault_count sink.old sink.new) (cause_in result) }
    ensures ends { IfErr result (WritingEnds (sink_told O.taken O.fault_count sink.old sink.new)) }
    ensures once { FailsOnce (O.fault_count sink.old) (O.fault_count sink.new) }
{
    let text = show_text(alloc, summary, classes)?;
    write_text(sink, text.as_slice())
}
