//! A run of a script on an opened store, from the source to the sink.
ghost use Rattle.std.specs.Prelude.{◌≡◌, ◌≢◌, ◌⊎◌, ℕ, List, [], length, true, false, take, None, Some, IfOk, IfErr, IfSome, OnOk, OnErr, IsOk};
ghost use Rattle.std.specs.Prelude.{IsErrOf, MatchResult};
ghost use Rattle.std.specs.Io.KnownBytes.{Appends, IsAtEnd};
ghost use Rattle.disk_model.specs.Calls.{Rose, RoseByOne};
ghost use Rattle.disk_model.specs.Moments.{MayBe, Tells, LeavesOnly};
ghost use Rattle.plain_model.specs.Faults.{has_fault};
ghost use Rattle.event_text.specs.Render.{text_of};
ghost use Rattle.plain_model.specs.Synced.{synced};
ghost use Rattle.hsm_core.specs.Crashes.{IsPrefix};
ghost use Rattle.script_text.specs.Scripts.{IsScript};
ghost use Rattle.hsm_policy.specs.Settings.{standard};
ghost use Rattle.hsm_replay.specs.Drives.{HaveGrown};
ghost use Rattle.hsm_replay.specs.Faults.{faults_in, AreTrue};
ghost use Rattle.hsm_system.specs.Events.{HasGrown};
ghost use Rattle.hsm_replay.specs.Running.{IsAllDurable};
ghost use Rattle.hsm_cli.specs.Sources.{script_bytes, GivesFirst};
ghost use Rattle.hsm_cli.specs.Follows.{SettlesOn};
ghost use Rattle.hsm_cli.specs.Daemons.{ServedIsWell};
ghost use Rattle.hsm_cli.specs.Deeds.{AreDone, AreOfScript, HasDone, HaveGone, MayGoOnOver};
ghost use Rattle.hsm_cli.specs.Clauses.{HasRead, IsRunOver, IsOrderlyOver, IsPackedOver, IsGoodOver, IsPlainOver, IsCausedOver, IsWhole, IsBeforeRun};
ghost use Rattle.hsm_cli.specs.Clauses.{RanToItsEnd, ReadsQuietly, WritesQuietly};
ghost use Rattle.hsm_cli.specs.Endings.{cause_in, IsBeforeReading, ScriptEnds, WritingEnds, RunEnds, first_of};
ghost use Rattle.hsm_cli.specs.RunObjects.{FailsOnce, source_told, sink_told};
ghost use Rattle.hsm_cli.specs.Runs.{IsOpenedAnew, IsReady};

use crate::causes::Cause;
use crate::runs::run;
use crate::streams::{read_all, write_all};
use deed_laws::{all_passed, begins_right, is_caused, makes_anew, takes_over};
use disk_model::Disk;
use event_text::render;
use file_store::{FileStore, one_recovery};
use hosts::{Failed, Sink, Source};
use hsm_core::Hsm;
use hsm_policy::Settings;
use hsm_replay::{Replay, Stop};
use marked_history::{punch_frees, served_keeps_all};
use media_model::Drive;
use plain_model::History;
use script_text::{ParseRefusal, Script, parse};
use std::alloc::Global;
use std::snapshot::Snapshot;

/// What a run on an opened store gives.
#[derive(Drop)]
pub(crate) struct Finished<D: Disk, M> {
    /// What went wrong first, if anything did.
    pub cause: Option<Cause>,

    /// The number of the snapshot that was opened.
    pub base: u64,

    pub opening: Snapshot<FileStore<D>>,

    pub history: History,

    pub disk: D,

    pub drives: Vec<M>,
}

/// Runs the script from the source on a store that was just opened, with these drives, and then a commit where that is wanted, and writes the transcript
/// to the sink. Where no drives came, it ends before the script is read.
pub(crate) fn run_opened<D: Disk, M: Drive, I: Source, O: Sink>(
    alloc: Global,
    hsm: Hsm<D>,
    drives: Result<Vec<M>, Cause>,
    commits: bool,
    source: &mut I,
    sink: &mut O,
) -> Finished<D, M>
    requires anew { IsOpenedAnew hsm }
    requires count { IfOk drives (λ ds. length ds.items ≡ standard.drives) }
    requires ready { IfErr drives IsBeforeReading }
    ensures opening { result.opening.value ≡ hsm.opened }
    ensures base { result.base ≡ hsm.opened.meta.number }
    ensures well { ServedIsWell (Some hsm.opened) result.history }
    ensures deeds { HasDone standard (AreDone (MayGoOnOver (Some hsm.opened)) (SettlesOn (Some hsm.opened)) (AreOfScript commits (I.left source.old)) result.cause) (λ deeds. MatchResult drives (λ ds. HaveGone M.Drive standard ds.items deeds result.drives.items) (λ why. deeds ≡ [])) result.history }
    ensures reading { HasRead (source_told I.left I.fault_count source.old source.new) result.cause }
    ensures legality { IsRunOver (Tells D.Disk result.disk) (Some hsm.opened) result.history }
    ensures orderly { IsOrderlyOver (Some hsm.opened) result.history }
    ensures packed { IsPackedOver (Some hsm.opened) result.history }
    ensures good { Tells D.Disk result.disk → IsGoodOver (Some hsm.opened) result.history }
    ensures caused { has_fault result.history ≡ true → RoseByOne (D.fault_count hsm.opened.disk) (D.fault_count result.disk) }
    ensures told { result.cause ≡ Some Cause.DiskFault → has_fault result.history ≡ true }
    ensures faultless { result.cause ≢ Some Cause.DiskFault → result.cause ≢ Some Cause.NoMemory → has_fault result.history ≡ false }
    ensures plain { IsPlainOver (Some hsm.opened) result.history }
    ensures media { AreTrue M.Drive result.drives.items (faults_in result.history) }
    ensures caused_by { IsCausedOver (Some hsm.opened) result.history }
    ensures idle { OnErr drives (result.history ≡ []) }
    ensures drives { MatchResult drives (λ ds. HaveGrown M.Drive ds.items result.drives.items) (λ why. result.drives.items ≡ []) }
    ensures since { LeavesOnly D.Disk hsm.opened.disk result.disk (IsPrefix hsm.opened result.history 0) }
    ensures now { (c : List ℕ) → MayBe D.Disk result.disk c → IsPrefix hsm.opened result.history (synced result.history) c }
    ensures whole { commits ≡ true → RanToItsEnd result.cause → (c : List ℕ) → MayBe D.Disk result.disk c → IsWhole hsm.opened result.history c }
    ensures untouched { IsBeforeRun result.cause → result.disk ≡ hsm.files.disk }
    ensures first { (n : ℕ) × Appends (O.taken sink.old) (O.taken sink.new) (take n (text_of result.history)) }
    ensures done { result.cause ≡ None → Appends (O.taken sink.old) (O.taken sink.new) (text_of result.history) }
    ensures all { result.cause ≢ Some Cause.NoMemory → (Rose (O.fault_count sink.old) (O.fault_count sink.new) → ⊥) → Appends (O.taken sink.old) (O.taken sink.new) (text_of result.history) }
    ensures unready { IfErr drives (λ why. (result.cause ≡ Some why) ⊎ (result.cause ≡ Some Cause.NoMemory)) }
    ensures lent { IsErrOf drives Cause.HostFault → result.cause ≡ Some Cause.HostFault }
    ensures sound { has_fault result.history ≡ false → D.fault_count result.disk ≡ D.fault_count hsm.opened.disk }
    ensures reads { ReadsQuietly (source_told I.left I.fault_count source.old source.new) result.cause }
    ensures writes { WritesQuietly (sink_told O.taken O.fault_count sink.old sink.new) result.cause }
    ensures source_once { FailsOnce (I.fault_count source.old) (I.fault_count source.new) }
    ensures sink_once { FailsOnce (O.fault_count sink.old) (O.fault_count sink.new) }
    ensures ends { RunEnds (IsErrOf drives Cause.HostFault) (RoseByOne (D.fault_count hsm.opened.disk) (D.fault_count result.disk)) (source_told I.left I.fault_count source.old source.new) (sink_told O.taken O.fault_count sink.old sink.new) result.cause }
{
    one_recovery();
    is_caused();
    makes_anew();
    takes_over();
    begins_right();
    all_passed();
    served_keeps_all();
    punch_frees();
    let base = hsm.base();
    let Ran { ended, hsm, drives } = run_with(alloc, hsm, drives, commits, source);
    let (disk, history, opening) = hsm.close();
    let written = write_transcript(alloc, sink, &history);
    Finished {
        cause: first_cause(ended, written),
        base,
        opening,
        history,
        disk,
        drives,
    }
}

/// What is left of a run, and how it ended.
#[derive(Drop)]
struct Ran<D: Disk, M> {
    ended: Result<(), Cause>,
    hsm: Hsm<D>,
    drives: Vec<M>,
}

/// Runs the script where drives came.
fn run_with<D: Disk, M: Drive, I: Source>(
    alloc: Global,
    hsm: Hsm<D>,
    drives: Result<Vec<M>, Cause>,
    commits: bool,
    source: &mut I,
) -> Ran<D, M>
    requires anew { IsOpenedAnew hsm }
    requires count { IfOk drives (λ ds. length ds.items ≡ standard.drives) }
    requires ready { IfErr drives IsBeforeReading }
    ensures goes_on { HasGrown D.Disk hsm result.hsm }
    ensures deeds { HasDone standard (AreDone (MayGoOnOver (Some hsm.opened)) (SettlesOn (Some hsm.opened)) (AreOfScript commits (I.left source.old)) (cause_in result.ended)) (λ deeds. MatchResult drives (λ ds. HaveGone M.Drive standard ds.items deeds result.drives.items) (λ why. deeds ≡ [])) result.hsm.history }
    ensures reading { HasRead (source_told I.left I.fault_count source.old source.new) (cause_in result.ended) }
    ensures part { GivesFirst (I.left source.old) (I.left source.new) }
    ensures unready { IfErr drives (λ why. cause_in result.ended ≡ Some why) }
    ensures ends { IfErr result.ended (λ why. ScriptEnds (IsErrOf drives Cause.HostFault) (RoseByOne (D.fault_count hsm.files.disk) (D.fault_count result.hsm.files.disk)) (source_told I.left I.fault_count source.old source.new) why) }
    ensures failed { result.hsm.files.failed ≡ true → IsErrOf result.ended Cause.DiskFault }
    ensures fault { IsErrOf result.ended Cause.DiskFault → has_fault result.hsm.history ≡ true }
    ensures working { OnOk result.ended (result.hsm.files.failed ≡ false) }
    ensures durable { commits ≡ true → OnOk result.ended (IsAllDurable result.hsm) }
    ensures untouched { IsBeforeRun (cause_in result.ended) → result.hsm ≡ hsm }
    ensures media { AreTrue M.Drive result.drives.items (faults_in result.hsm.history) }
    ensures idle { OnErr drives (result.hsm ≡ hsm) }
    ensures quiet { (IsErrOf result.ended Cause.ReadFault → ⊥) → I.fault_count source.new ≡ I.fault_count source.old }
    ensures once { FailsOnce (I.fault_count source.old) (I.fault_count source.new) }
    ensures drives { MatchResult drives (λ ds. HaveGrown M.Drive ds.items result.drives.items) (λ why. result.drives.items ≡ []) }
{
    match drives {
        Ok(drives) => {
            let mut replay = Replay::new(hsm, drives, Settings::default());
            let ended = run_script(alloc, &mut replay, commits, source);
            let (hsm, drives) = replay.close();
            Ran { ended, hsm, drives }
        }
        Err(why) => Ran {
            ended: Err(why),
            hsm,
            drives: Vec::new(alloc),
        },
    }
}

/// Reads a script, and runs it.
fn run_script<D: Disk, M: Drive, I: Source>(
    alloc: Global,
    replay: &mut Replay<D, M>,
    commits: bool,
    source: &mut I,
) -> Result<(), Cause>
    requires ready { IsReady replay.old }
    requires limits { replay.old.system.limits ≡ standard }
    ensures goes_on { HasGrown D.Disk replay.old.system.store replay.new.system.store }
    ensures deeds { HasDone standard (AreDone (MayGoOnOver (Some replay.old.system.store.opened)) (SettlesOn (Some replay.old.system.store.opened)) (AreOfScript commits (I.left source.old)) (cause_in result)) (λ deeds. HaveGone M.Drive standard replay.old.drives deeds replay.new.drives) replay.new.system.store.history }
    ensures reading { HasRead (source_told I.left I.fault_count source.old source.new) (cause_in result) }
    ensures part { GivesFirst (I.left source.old) (I.left source.new) }
    ensures ends { IfErr result (λ why. ScriptEnds ⊥ (RoseByOne (D.fault_count replay.old.system.store.files.disk) (D.fault_count replay.new.system.store.files.disk)) (source_told I.left I.fault_count source.old source.new) why) }
    ensures failed { replay.new.system.store.files.failed ≡ true → IsErrOf result Cause.DiskFault }
    ensures fault { IsErrOf result Cause.DiskFault → has_fault replay.new.system.store.history ≡ true }
    ensures working { OnOk result (replay.new.system.store.files.failed ≡ false) }
    ensures durable { commits ≡ true → OnOk result (IsAllDurable replay.new.system.store) }
    ensures untouched { IsBeforeRun (cause_in result) → replay.new ≡ replay.old }
    ensures media { AreTrue M.Drive replay.new.drives (faults_in replay.new.system.store.history) }
    ensures drives { HaveGrown M.Drive replay.old.drives replay.new.drives }
    ensures quiet { (IsErrOf result Cause.ReadFault → ⊥) → I.fault_count source.new ≡ I.fault_count source.old }
    ensures once { FailsOnce (I.fault_count source.old) (I.fault_count source.new) }
{
    let script = read_script(alloc, source)?;
    match run(alloc, replay, script, commits) {
        Ok(()) => Ok(()),
        Err(Stop::Memory) => Err(Cause::NoMemory),
        Err(Stop::Disk) => Err(Cause::DiskFault),
    }
}

/// Reads a script to its end.
fn read_script<I: Source>(alloc: Global, source: &mut I) -> Result<Script, Cause>
    ensures script { IfOk result (λ lines. IfSome (I.left source.old) (λ bytes. IsScript (script_bytes bytes) lines)) }
    ensures ended { OnOk result (IsAtEnd (I.left source.new)) }
    ensures reading { HasRead (source_told I.left I.fault_count source.old source.new) (cause_in result) }
    ensures part { GivesFirst (I.left source.old) (I.left source.new) }
    ensures refused { IfErr result (λ why. ScriptEnds ⊥ ⊥ (source_told I.left I.fault_count source.old source.new) why) }
    ensures quiet { (IsErrOf result Cause.ReadFault → ⊥) → I.fault_count source.new ≡ I.fault_count source.old }
    ensures once { FailsOnce (I.fault_count source.old) (I.fault_count source.new) }
{
    let bytes = read_all(alloc, source)?;
    match parse(alloc, bytes.as_slice()) {
        Ok(script) => Ok(script),
        Err(ParseRefusal::BadLine { line }) => Err(Cause::ScriptRefused { line }),
        Err(ParseRefusal::Memory) => Err(Cause::NoMemory),
    }
}

/// Writes the text of a history. Where nothing happened it is empty: then it takes no memory, and the sink is left alone.
fn write_transcript<O: Sink>(alloc: Global, sink: &mut O, history: &History) -> Result<(), Cause>
    ensures first { (n : ℕ) × Appends (O.taken sink.old) (O.taken sink.new) (take n (text_of history.now)) }
    ensures all { OnOk result (Appends (O.taken sink.old) (O.taken sink.new) (text_of history.now)) }
    ensures refused { IfErr result (λ why. WritingEnds (sink_told O.taken O.fault_count sink.old sink.new) why) }
    ensures quiet { (IsErrOf result Cause.WriteFault → ⊥) → O.fault_count sink.new ≡ O.fault_count sink.old }
    ensures once { FailsOnce (O.fault_count sink.old) (O.fault_count sink.new) }
    ensures idle { history.now ≡ [] → IsOk result × (sink.new ≡ sink.old) }
{
    if history.as_slice().is_empty() {
        return Ok(());
    }
    let Ok(text) = render(alloc, history.as_slice()) else {
        return Err(Cause::NoMemory);
    };
    match write_all(sink, text.as_slice()) {
        Ok(()) => Ok(()),
        Err(Failed) => Err(Cause::WriteFault),
    }
}

/// What went wrong first. Want of memory for the transcript is told before all else, as then it isn't whole.
fn first_cause(ran: Result<(), Cause>, written: Result<(), Cause>) -> Option<Cause>
    ensures { result ≡ first_of (cause_in ran) (cause_in written) }
{
    match written {
        Err(Cause::NoMemory) => Some(Cause::NoMemory),
        Err(why) => match ran {
            Err(first) => Some(first),
            Ok(()) => Some(why),
        },
        Ok(()) => ran.err(),
    }
}
