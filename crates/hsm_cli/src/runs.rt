//! A script, run on an opened store with its drives.
ghost use Rattle.std.specs.Prelude.{◌≡◌, true, OnOk};
ghost use Rattle.std.specs.List.{AllByRecursion};
ghost use Rattle.script_text.specs.Lines.{IsLine};
ghost use Rattle.hsm_replay.specs.Deeds.{ByDeeds};
ghost use Rattle.hsm_replay.specs.ReadyCallers.{MayGoOn};
ghost use Rattle.hsm_system.specs.Events.{Runs};
ghost use Rattle.hsm_replay.specs.Running.{IsAllDurable};
ghost use Rattle.hsm_replay.specs.Systems.{running};
ghost use Rattle.marked_history.specs.Settling.{none_run, running_behind};
ghost use Rattle.hsm_cli.specs.Deeds.{AreCutIn, AreOfLines};
ghost use Rattle.hsm_cli.specs.Follows.{SettlesSince, lines_run};
ghost use Rattle.hsm_cli.specs.Runs.{IsReady};

use disk_model::Disk;
use hsm_replay::{Replay, Stop};
use media_model::Drive;
use script_text::{LinesLeft, Script};
use std::alloc::Global;

/// Runs the lines of a script on a store, and a commit after them where that is wanted.
pub(crate) fn run<D: Disk, M: Drive>(
    alloc: Global,
    replay: &mut Replay<D, M>,
    script: Script,
    commits: bool,
) -> Result<(), Stop>
    requires ready { IsReady replay.old }
    ensures runs { Runs D.Disk result replay.old.system.store replay.new.system.store }
    ensures deeds { ByDeeds M.Drive (λ done. AreOfLines (MayGoOn replay.old.system.store) (SettlesSince replay.old) (lines_run commits script)) (AreCutIn (MayGoOn replay.old.system.store) (SettlesSince replay.old) (lines_run commits script)) result replay.old replay.new }
    ensures durable { commits ≡ true → OnOk result (IsAllDurable replay.new.system.store) }
{
    run_lines(alloc, replay, script.into_lines())?;
    if commits {
        return replay.commit(alloc);
    }
    Ok(())
}

/// Runs the lines, in order, as far as there is memory and the disk doesn't fail.
fn run_lines<D: Disk, M: Drive>(
    alloc: Global,
    replay: &mut Replay<D, M>,
    lines: LinesLeft,
) -> Result<(), Stop>
    requires lawful { AllByRecursion IsLine lines }
    requires ready { IsReady replay.old }
    ensures runs { Runs D.Disk result replay.old.system.store replay.new.system.store }
    ensures running { OnOk result (running replay.new ≡ running_behind lines none_run) }
    ensures deeds { ByDeeds M.Drive (λ done. AreOfLines (MayGoOn replay.old.system.store) (SettlesSince replay.old) lines) (AreCutIn (MayGoOn replay.old.system.store) (SettlesSince replay.old) lines) result replay.old replay.new }
{
    for line in lines {
        replay.line(alloc, line)?;
    }
    Ok(())
}
