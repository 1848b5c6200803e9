//! The top call.
ghost use Rattle.std.specs.Prelude.{◌≡◌, ◌≢◌, ◌≤◌, ◌⊎◌, ℕ, List, [], map, true, false, Some, None, IfOk, IfErr, IfSome, IsErrOf, MatchResult};
ghost use Rattle.std.specs.String.{string_bytes};
ghost use Rattle.disk_model.specs.Calls.{Rose, raised};
ghost use Rattle.command_words.specs.Commands.{form_in, form_of, fsid_of, geometry_number};
ghost use Rattle.plain_model.specs.Faults.{has_fault};
ghost use Rattle.hsm_policy.specs.Settings.{standard};
ghost use Rattle.file_store.specs.Stores.{IsDurable};
ghost use Rattle.hsm_replay.specs.Faults.{faults_in, AreTrue};
ghost use Rattle.hsm_cli.specs.Statuses.{status_of, place_of};
ghost use Rattle.hsm_cli.specs.Openings.{opened_in, base_of};
ghost use Rattle.hsm_cli.specs.Outcomes.{ended_with};
ghost use Rattle.hsm_cli.specs.Clauses.{ReadingClause, LegalityClause, PlainClause, MediaClause, NoneFailed, IsCausedOver, CrashClause};
ghost use Rattle.hsm_cli.specs.Clauses.{FormatClause, HostClause, OutputClause, TakesTranscript, StatusClause, HasRead, HasReadOn};
ghost use Rattle.hsm_cli.specs.Clauses.{IsPackedOver, IsGoodOver, IsPlainOver, LeavesSafe, IsFormatted, HandsOut, HasFailed, HasBegun, Why, Lacks, DrivesClause};
ghost use Rattle.hsm_cli.specs.Clauses.{GivesBack, HandsDrives, KeepsPromises, asked_by, FaultsClause, ReadsQuietly, WritesQuietly, KeepsQuietly};
ghost use Rattle.hsm_cli.specs.Clauses.{HandsQuietly};
ghost use Rattle.hsm_cli.specs.Endings.{RunEnds, FormatEnds, HandingEnds, IsBeforeReading};
ghost use Rattle.hosts.specs.Hosts.{AreHanded, HoldsAll, StoresAll};
ghost use Rattle.hsm_cli.specs.Deeds.{AreOfScript, DeedsClause, DrivesInMemory, DrivesWent, RunHasDone};
ghost use Rattle.hsm_cli.specs.RunObjects.{FailsOnce, source_told, sink_told, host_told};

use crate::causes::Cause;
use crate::drilling::drill;
use crate::in_memory::{new_drives, new_store};
use crate::outcomes::Outcome;
use crate::scripts::run_opened;
use crate::showing::{show, show_volumes};
use byteorder::{BigEndian, ByteOrder};
use command_words::{Command, StoreSize};
use commit_slots::Layout;
use disk_model::{Disk, Failed};
use file_store::formatted_is_empty;
use hosts::{Host, Sink, Source};
use hsm_core::Hsm;
use hsm_policy::Settings;
use hsm_replay::seals_are_whole;
use hsm_types::ListOf;
use media_model::SureDrive;
use script_text::one_script;
use sha2::{Digest, Sha256};
use std::alloc::{AllocError, Global};

/// Does what the words say. `format` makes an empty store on a disk of the host. `replay` runs the script from the source on a new small
/// store in memory, or on the store of a disk of the host with the volumes of a folder, and writes the transcript to the sink. `show` writes what the
/// store of a disk of the host is, and with a folder what its volumes have of the store's objects. `drill` runs the script that it makes of a number on
/// a new small store in memory, and writes one line on that. The words are judged first, then come the opening, the drives, the script, its events and
/// the writing.
pub fn hsm_main<H: Host, I: Source, O: Sink>(
    alloc: Global,
    words: &[String],
    host: &mut H,
    source: &mut I,
    sink: &mut O,
) -> Outcome<H::Disk, H::Drive>
    ensures deeds { DeedsClause H.Drive.Drive (H.stores host.old) (form_of (map string_bytes words.now)) (source_told I.left I.fault_count source.old source.new) result }
    ensures reading { ReadingClause (form_of (map string_bytes words.now)) (source_told I.left I.fault_count source.old source.new) result }
    ensures legality { LegalityClause H.Disk.Disk result }
    ensures plain { PlainClause result }
    ensures media { MediaClause H.Drive.Drive (form_of (map string_bytes words.now)) result }
    ensures crash { CrashClause H.Disk.Disk (form_of (map string_bytes words.now)) (H.holds host.old) result }
    ensures format { FormatClause H.Disk.Disk (form_of (map string_bytes words.now)) result }
    ensures host { HostClause H.holds H.make_count H.open_count (form_of (map string_bytes words.now)) host.old host.new result }
    ensures drives { DrivesClause H.Drive.Drive H.holds H.stores H.drive_count (form_of (map string_bytes words.now)) host.old host.new result }
    ensures output { OutputClause (form_of (map string_bytes words.now)) (H.holds host.old) (H.stores host.old) result (sink_told O.taken O.fault_count sink.old sink.new) }
    ensures status { StatusClause H.Disk.Disk H.Drive.Drive (form_of (map string_bytes words.now)) (H.holds host.old) (source_told I.left I.fault_count source.old source.new) (sink_told O.taken O.fault_count sink.old sink.new) (host_told H.fault_count host.old host.new) result }
    ensures faults { FaultsClause H.Disk.Disk H.Drive.Drive (form_of (map string_bytes words.now)) (source_told I.left I.fault_count source.old source.new) (sink_told O.taken O.fault_count sink.old sink.new) (host_told H.fault_count host.old host.new) result }
{
    match Command::of(alloc, words) {
        Ok(Some(command)) => run_command(alloc, command, host, source, sink),
        Ok(None) => Outcome::unopened(alloc, Some(Cause::WordsRefused), None),
        Err(AllocError) => Outcome::unopened(alloc, Some(Cause::NoMemory), None),
    }
}

/// Does what the command says.
fn run_command<H: Host, I: Source, O: Sink>(
    alloc: Global,
    command: Command,
    host: &mut H,
    source: &mut I,
    sink: &mut O,
) -> Outcome<H::Disk, H::Drive>
    ensures { KeepsPromises H.Host H.Disk.Disk H.Drive.Drive (Some (form_in command.entry)) host.old host.new (source_told I.left I.fault_count source.old source.new) (sink_told O.taken O.fault_count sink.old sink.new) result }
{
    one_script();
    match command {
        Command::Format { path, size } => format(alloc, host, path, size),
        Command::Replay => replay(alloc, source, sink),
        Command::ReplayStore { path, dir } => { replay_store(alloc, host, path, dir, source, sink) }
        Command::Show { path } => show(alloc, host, path, sink),
        Command::ShowVolumes { path, dir } => show_volumes(alloc, host, path, dir, sink),
        Command::Drill { number } => drill(alloc, number, sink),
    }
}

/// Makes an empty store on a disk of the host.
fn format<H: Host>(
    alloc: Global,
    host: &mut H,
    path: &str,
    size: StoreSize,
) -> Outcome<H::Disk, H::Drive>
    ensures unopened { result ≡ ended_with result.cause [] result.disk }
    ensures formatted { result.cause ≡ None → IsFormatted H.Disk.Disk (geometry_number size) (fsid_of path.now) result.disk }
    ensures host { HandsOut path.now (H.holds host.old) (H.holds host.new) result.disk }
    ensures made { H.make_count host.new ≡ raised (H.make_count host.old) }
    ensures unasked { H.open_count host.new ≡ H.open_count host.old }
    ensures undriven { H.drive_count host.new ≡ H.drive_count host.old }
    ensures folders { StoresAll (H.stores host.old) (H.stores host.new) }
    ensures lent { result.cause ≡ Some Cause.HostFault → result.disk ≡ None }
    ensures back { result.disk ≡ None → (result.cause ≡ Some Cause.HostFault) ⊎ (result.cause ≡ Some Cause.NoMemory) }
    ensures quiet { result.cause ≢ Some Cause.HostFault → H.fault_count host.new ≡ H.fault_count host.old }
    ensures once { FailsOnce (H.fault_count host.old) (H.fault_count host.new) }
    ensures sound { KeepsQuietly H.Disk.Disk result.history result.cause result.disk }
    ensures ends { FormatEnds (HasFailed H.Disk.Disk result.disk) (host_told H.fault_count host.old host.new) result.cause }
{
    formatted_is_empty();
    let geometry = size.geometry();
    match host.make(path, Layout::of_geometry(geometry).whole) {
        Ok(mut disk) => {
            let cause = match Hsm::format(&mut disk, geometry, fsid(path)) {
                Ok(()) => None,
                Err(Failed) => Some(Cause::DiskFault),
            };
            Outcome::unopened(alloc, cause, Some(disk))
        }
        Err(refusal) => Outcome::unopened(alloc, Some(Cause::from(refusal)), None),
    }
}

/// The file system id of a store under that path.
fn fsid(path: &str) -> u64
    ensures { result ≡ fsid_of path.now }
{
    BigEndian::read_u64(&Sha256::digest(path.as_bytes()))
}

/// Runs the script from the source on a new small store in memory.
fn replay<D: Disk, M, I: Source, O: Sink>(
    alloc: Global,
    source: &mut I,
    sink: &mut O,
) -> Outcome<D, M>
    ensures ended { result ≡ ended_with result.cause result.history None }
    ensures deeds { RunHasDone standard (AreOfScript false (I.left source.old)) (DrivesInMemory standard) result }
    ensures reading { HasRead (source_told I.left I.fault_count source.old source.new) result.cause }
    ensures legality { IsGoodOver {D = D} None result.history }
    ensures packed { IsPackedOver {D = D} None result.history }
    ensures faultless { has_fault result.history ≡ false }
    ensures plain { IsPlainOver {D = D} None result.history }
    ensures media { NoneFailed (faults_in result.history) }
    ensures caused_by { IsCausedOver {D = D} None result.history }
    ensures output { TakesTranscript result (sink_told O.taken O.fault_count sink.old sink.new) }
    ensures reads { ReadsQuietly (source_told I.left I.fault_count source.old source.new) result.cause }
    ensures writes { WritesQuietly (sink_told O.taken O.fault_count sink.old sink.new) result.cause }
    ensures source_once { FailsOnce (I.fault_count source.old) (I.fault_count source.new) }
    ensures sink_once { FailsOnce (O.fault_count sink.old) (O.fault_count sink.new) }
    ensures ends { RunEnds ⊥ ⊥ (source_told I.left I.fault_count source.old source.new) (sink_told O.taken O.fault_count sink.old sink.new) result.cause }
{
    seals_are_whole::<SureDrive>();
    match new_store(alloc) {
        Ok(hsm) => {
            let drives = new_drives(alloc);
            let finished = run_opened(alloc, hsm, drives, false, source, sink);
            Outcome::ended(alloc, finished.cause, finished.history, None)
        }
        Err(AllocError) => Outcome::unopened(alloc, Some(Cause::NoMemory), None),
    }
}

/// Runs the script from the source on the store of a disk of the host, and then commits. The drives over that folder come back, used.
fn replay_store<H: Host, I: Source, O: Sink>(
    alloc: Global,
    host: &mut H,
    path: &str,
    dir: &str,
    source: &mut I,
    sink: &mut O,
) -> Outcome<H::Disk, H::Drive>
    ensures told { (result.status ≡ status_of result.cause) × (result.at ≡ place_of result.cause) × (result.base ≡ base_of (opened_in result)) }
    ensures command { result.cause ≢ Some Cause.WordsRefused }
    ensures deeds { RunHasDone standard (AreOfScript true (I.left source.old)) (DrivesWent H.Drive.Drive standard (H.stores host.old dir.now) result.drives) result }
    ensures reading { HasReadOn (opened_in result) (source_told I.left I.fault_count source.old source.new) result.cause }
    ensures legality { LegalityClause H.Disk.Disk result }
    ensures plain { PlainClause result }
    ensures media { AreTrue H.Drive.Drive result.drives (faults_in result.history) }
    ensures caused_by { IsCausedOver (opened_in result) result.history }
    ensures crash { LeavesSafe H.Disk.Disk (H.holds host.old path.now) (opened_in result) result.history result.cause result.disk }
    ensures output { TakesTranscript result (sink_told O.taken O.fault_count sink.old sink.new) }
    ensures host { HandsOut path.now (H.holds host.old) (H.holds host.new) result.disk }
    ensures asked { H.open_count host.new ≡ raised (H.open_count host.old) }
    ensures unmade { H.make_count host.new ≡ H.make_count host.old }
    ensures lent { result.cause ≡ Some Cause.HostFault → Lacks result }
    ensures drives { GivesBack H.Drive.Drive (H.stores host.old dir.now) (opened_in result) result.cause result.drives }
    ensures folders { HandsDrives dir.now (H.stores host.old) (H.stores host.new) result.drives }
    ensures driven { H.drive_count host.new ≡ asked_by (opened_in result) (H.drive_count host.old) }
    ensures begun { HasBegun (opened_in result) result.cause }
    ensures opened { IfSome (opened_in result) (λ s. (s.held ≡ s.durable) × ((image : List ℕ) → H.holds host.old path.now image → IsDurable s image)) }
    ensures back { result.disk ≡ None → (result.cause ≡ Some Cause.HostFault) ⊎ (result.cause ≡ Some Cause.NoMemory) }
    ensures reads { ReadsQuietly (source_told I.left I.fault_count source.old source.new) result.cause }
    ensures writes { WritesQuietly (sink_told O.taken O.fault_count sink.old sink.new) result.cause }
    ensures source_once { FailsOnce (I.fault_count source.old) (I.fault_count source.new) }
    ensures sink_once { FailsOnce (O.fault_count sink.old) (O.fault_count sink.new) }
    ensures sound { KeepsQuietly H.Disk.Disk result.history result.cause result.disk }
    ensures quiet { HandsQuietly (host_told H.fault_count host.old host.new) result.cause }
    ensures host_once { FailsOnce (H.fault_count host.old) (H.fault_count host.new) }
    ensures why { Why H.Disk.Disk (H.holds host.old path.now) (Rose (H.fault_count host.old) (H.fault_count host.new)) (source_told I.left I.fault_count source.old source.new) (sink_told O.taken O.fault_count sink.old sink.new) result.disk result.cause }
{
    let disk = match host.disk(path) {
        Ok(disk) => disk,
        Err(refusal) => return Outcome::unopened(alloc, Some(Cause::from(refusal)), None),
    };
    match Hsm::open(alloc, disk) {
        Ok(hsm) => {
            let drives = ask_for_drives(host, dir);
            let finished = run_opened(alloc, hsm, drives, true, source, sink);
            Outcome {
                status: Cause::status(finished.cause),
                at: Cause::place(finished.cause),
                cause: finished.cause,
                base: finished.base,
                opening: Some(finished.opening),
                history: finished.history,
                disk: Some(finished.disk),
                drives: ListOf::from(finished.drives),
            }
        }
        Err((refusal, disk)) => Outcome::unopened(alloc, Some(Cause::from(refusal)), Some(disk)),
    }
}

/// The drives over the volumes of a folder, as the default settings have them; or none, and why.
fn ask_for_drives<H: Host>(host: &mut H, dir: &str) -> Result<Vec<H::Drive>, Cause>
    ensures given { IfOk result (λ ds. AreHanded H.Drive.Drive (H.stores host.old dir.now) standard.drives standard.volumes standard.capacity ds.items) }
    ensures folders { MatchResult result (λ ds. HandsDrives dir.now (H.stores host.old) (H.stores host.new) ds.items) (λ why. StoresAll (H.stores host.old) (H.stores host.new)) }
    ensures ready { IfErr result IsBeforeReading }
    ensures why { IfErr result (HandingEnds (host_told H.fault_count host.old host.new)) }
    ensures quiet { (IsErrOf result Cause.HostFault → ⊥) → H.fault_count host.new ≡ H.fault_count host.old }
    ensures once { FailsOnce (H.fault_count host.old) (H.fault_count host.new) }
    ensures never_falls { H.fault_count host.old ≤ H.fault_count host.new }
    ensures disks { HoldsAll (H.holds host.old) (H.holds host.new) }
    ensures asked { H.drive_count host.new ≡ raised (H.drive_count host.old) }
    ensures unmade { H.make_count host.new ≡ H.make_count host.old }
    ensures unopened { H.open_count host.new ≡ H.open_count host.old }
{
    let settings = Settings::default();
    match host.drives(
        dir,
        settings.drives(),
        settings.volumes(),
        settings.capacity(),
    ) {
        Ok(drives) => Ok(drives),
        Err(refusal) => Err(Cause::from(refusal)),
    }
}
