//! A drill: the script that is made of a number, run on a new small store in memory.
ghost use Rattle.std.specs.Prelude.{◌≡◌, ◌≢◌, ◌⊎◌, length, true, false, None, Some, IfOk, IfErr, IfSome, IsOk, IsErrOf};
ghost use Rattle.disk_model.specs.Calls.{RoseByOne};
ghost use Rattle.disk_model.specs.Moments.{Tells};
ghost use Rattle.media_model.specs.contracts.sure.SureDriveDrive.TheImpl as sure;
ghost use Rattle.plain_model.specs.Faults.{has_fault};
ghost use Rattle.plain_model.specs.State.{nothing_held};
ghost use Rattle.plain_model.specs.Exact.{held_by};
ghost use Rattle.hsm_policy.specs.Settings.{standard};
ghost use Rattle.file_store.specs.Stores.{superblock_of};
ghost use Rattle.drill_script.specs.Drill.{drill_lines};
ghost use Rattle.drill_script.specs.Summary.{summary_line};
ghost use Rattle.hosts.specs.Hosts.{AreHanded};
ghost use Rattle.hsm_replay.specs.Drives.{HaveGrown};
ghost use Rattle.hsm_replay.specs.Faults.{faults_in, AreTrue};
ghost use Rattle.hsm_system.specs.Events.{HasGrown};
ghost use Rattle.hsm_cli.specs.Openings.{replay_store};
ghost use Rattle.hsm_cli.specs.Outcomes.{ended_with};
ghost use Rattle.hsm_cli.specs.Follows.{SettlesOn};
ghost use Rattle.hsm_cli.specs.Daemons.{ServedIsWell};
ghost use Rattle.hsm_cli.specs.Deeds.{AreDone, AreThese, DrivesInMemory, HasDone, HaveGone, MayGoOnOver, RunHasDone, without_objects};
ghost use Rattle.hsm_cli.specs.Texts.{TakesText, HasLeft, drill_text};
ghost use Rattle.hsm_cli.specs.RunObjects.{FailsOnce, sink_told};
ghost use Rattle.hsm_cli.specs.Endings.{cause_in, WritingEnds, LinesEnd};
ghost use Rattle.hsm_cli.specs.Clauses.{IsPackedOver, IsGoodOver, IsPlainOver, IsCausedOver, NoneFailed};
ghost use Rattle.hsm_cli.specs.Runs.{IsOpenedAnew, IsReady};

use crate::causes::Cause;
use crate::in_memory::{new_drives, new_store};
use crate::outcomes::Outcome;
use crate::runs::run;
use crate::streams::write_text;
use deed_laws::{all_passed, begins_right, is_caused, makes_anew, takes_over};
use disk_model::{Disk, SureDisk};
use drill_script::{drill_script, summary_text};
use hosts::Sink;
use hsm_core::Hsm;
use hsm_policy::Settings;
use hsm_replay::{Replay, Stop, seals_are_whole};
use marked_history::{punch_frees, served_keeps_all};
use media_model::{Drive, SureDrive};
use plain_model::History;
use script_text::Script;
use std::alloc::{AllocError, Global};

/// What a drill is run on.
#[derive(Drop)]
struct Prepared {
    script: Script,

    drives: Vec<SureDrive>,

    hsm: Hsm<SureDisk>,
}

/// A drill that was run, and what its store has come to.
#[derive(Drop)]
struct Drilled<D, M> {
    /// Whether all lines were run.
    ended: Result<(), Cause>,

    history: History,

    /// How many blocks are used.
    used: u64,

    /// How many segments are offline.
    offline: u64,

    disk: D,

    drives: Vec<M>,
}

/// Runs the script that is made of that number on a new small store in memory, and writes one line on its run.
pub(crate) fn drill<D: Disk, M, O: Sink>(alloc: Global, number: u64, sink: &mut O) -> Outcome<D, M>
    ensures ended { result ≡ ended_with result.cause result.history None }
    ensures deeds { RunHasDone standard (AreThese (drill_lines number)) (DrivesInMemory standard) result }
    ensures legality { IsGoodOver {D = D} None result.history }
    ensures packed { IsPackedOver {D = D} None result.history }
    ensures faultless { has_fault result.history ≡ false }
    ensures plain { IsPlainOver {D = D} None result.history }
    ensures media { NoneFailed (faults_in result.history) }
    ensures caused_by { IsCausedOver {D = D} None result.history }
    ensures output { TakesText (λ text. text ≡ drill_text number result.history) (sink_told O.taken O.fault_count sink.old sink.new) result.cause }
    ensures ends { IfSome result.cause (WritingEnds (sink_told O.taken O.fault_count sink.old sink.new)) }
    ensures once { FailsOnce (O.fault_count sink.old) (O.fault_count sink.new) }
{
    seals_are_whole::<SureDrive>();
    match prepare(alloc, number) {
        Ok(prepared) => {
            let drilled = run_on(alloc, prepared.hsm, prepared.drives, prepared.script);
            let cause = tell(alloc, number, &drilled, sink).err();
            Outcome::ended(alloc, cause, drilled.history, None)
        }
        Err(AllocError) => Outcome::unopened(alloc, Some(Cause::NoMemory), None),
    }
}

/// Makes the script of that number, and what it is run on.
fn prepare(alloc: Global, number: u64) -> Result<Prepared, AllocError>
    ensures script { IfOk result (λ p. p.script ≡ drill_lines number) }
    ensures count { IfOk result (λ p. length p.drives.items ≡ standard.drives) }
    ensures handed { IfOk result (λ p. AreHanded sure.ghosts without_objects standard.drives standard.volumes standard.capacity p.drives.items) }
    ensures anew { IfOk result (λ p. IsOpenedAnew p.hsm) }
    ensures empty { IfOk result (λ p. (superblock_of p.hsm.opened ≡ replay_store) × (p.hsm.opened.held ≡ nothing_held) × (p.hsm.opened.meta.number ≡ 0)) }
{
    let script = drill_script(alloc, number)?;
    let Ok(drives) = new_drives(alloc) else {
        return Err(AllocError);
    };
    let hsm = new_store(alloc)?;
    Ok(Prepared {
        script,
        drives,
        hsm,
    })
}

/// Runs the lines on a store that was just opened, with these drives.
fn run_on<D: Disk, M: Drive>(
    alloc: Global,
    hsm: Hsm<D>,
    drives: Vec<M>,
    script: Script,
) -> Drilled<D, M>
    requires anew { IsOpenedAnew hsm }
    requires count { length drives.items ≡ standard.drives }
    ensures well { ServedIsWell (Some hsm.opened) result.history }
    ensures deeds { HasDone standard (AreDone (MayGoOnOver (Some hsm.opened)) (SettlesOn (Some hsm.opened)) (AreThese script) (cause_in result.ended)) (λ deeds. HaveGone M.Drive standard drives.items deeds result.drives.items) result.history }
    ensures good { Tells D.Disk result.disk → IsGoodOver (Some hsm.opened) result.history }
    ensures packed { IsPackedOver (Some hsm.opened) result.history }
    ensures caused_by { IsCausedOver (Some hsm.opened) result.history }
    ensures media { AreTrue M.Drive result.drives.items (faults_in result.history) }
    ensures drives { HaveGrown M.Drive drives.items result.drives.items }
    ensures ends { IfErr result.ended (LinesEnd (RoseByOne (D.fault_count hsm.opened.disk) (D.fault_count result.disk))) }
    ensures faultless { cause_in result.ended ≢ Some Cause.DiskFault → has_fault result.history ≡ false }
    ensures totals { cause_in result.ended ≢ Some Cause.DiskFault → HasLeft (held_by (superblock_of hsm.opened) hsm.opened.meta.number hsm.opened.held result.history) result.used result.offline }
{
    is_caused();
    makes_anew();
    takes_over();
    begins_right();
    all_passed();
    served_keeps_all();
    punch_frees();
    let mut replay = Replay::new(hsm, drives, Settings::default());
    let ended = run_all(alloc, &mut replay, script);
    let (hsm, drives) = replay.close();
    let (used, offline) = hsm.totals();
    let (disk, history, _opening) = hsm.close();
    Drilled {
        ended,
        history,
        used,
        offline,
        disk,
        drives,
    }
}

/// Runs the lines.
fn run_all<D: Disk, M: Drive>(
    alloc: Global,
    replay: &mut Replay<D, M>,
    script: Script,
) -> Result<(), Cause>
    requires ready { IsReady replay.old }
    requires limits { replay.old.system.limits ≡ standard }
    ensures drives { HaveGrown M.Drive replay.old.drives replay.new.drives }
    ensures goes_on { HasGrown D.Disk replay.old.system.store replay.new.system.store }
    ensures deeds { HasDone standard (AreDone (MayGoOnOver (Some replay.old.system.store.opened)) (SettlesOn (Some replay.old.system.store.opened)) (AreThese script) (cause_in result)) (λ deeds. HaveGone M.Drive standard replay.old.drives deeds replay.new.drives) replay.new.system.store.history }
    ensures media { AreTrue M.Drive replay.new.drives (faults_in replay.new.system.store.history) }
    ensures ends { IfErr result (LinesEnd (RoseByOne (D.fault_count replay.old.system.store.files.disk) (D.fault_count replay.new.system.store.files.disk))) }
    ensures failed { replay.new.system.store.files.failed ≡ true → IsErrOf result Cause.DiskFault }
{
    match run(alloc, replay, script, false) {
        Ok(()) => Ok(()),
        Err(Stop::Memory) => Err(Cause::NoMemory),
        Err(Stop::Disk) => Err(Cause::DiskFault),
    }
}

/// Writes the line on a drill, if that was run to its end.
fn tell<D, M, O: Sink>(
    alloc: Global,
    number: u64,
    drilled: &Drilled<D, M>,
    sink: &mut O,
) -> Result<(), Cause>
    requires { IfErr drilled.now.ended (λ why. why ≡ Cause.NoMemory) }
    ensures text { TakesText (λ text. text ≡ summary_line number drilled.now.history drilled.now.used drilled.now.offline) (sink_told O.taken O.fault_count sink.old sink.new) (cause_in result) }
    ensures ends { IfErr result (WritingEnds (sink_told O.taken O.fault_count sink.old sink.new)) }
    ensures once { FailsOnce (O.fault_count sink.old) (O.fault_count sink.new) }
    ensures ended { (cause_in result ≡ Some Cause.NoMemory) ⊎ IsOk drilled.now.ended }
{
    drilled.ended?;
    let text = summary_text(
        alloc,
        number,
        drilled.history.as_slice(),
        drilled.used,
        drilled.offline,
    )?;
    write_text(sink, text.as_slice())
}
