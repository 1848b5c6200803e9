//! A store with its daemons and its drives, and the steps that daemons take on them.
ghost use Rattle.std.specs.Prelude.{◌≡◌, ◌<◌, ◌^◌, ◌↔◌, ◌∷◌, [], IsTrue, length, None, IfErr, OnOk};
ghost use Rattle.hsm_core.specs.Kept.{IsKept};
ghost use Rattle.hsm_core.specs.Ready.{ready};
ghost use Rattle.hsm_core.specs.declared.store.Ready.TheVariants.{Now};
ghost use Rattle.hsm_types.specs.Callers.{IsCallerNumber};
ghost use Rattle.hsm_system.specs.Asking.{MigrateIsRight, RecallIsRight};
ghost use Rattle.hsm_system.specs.Systems.{Rests};
ghost use Rattle.deeds.specs.Deeds.{Kills, Refreshes, Starts};
ghost use Rattle.hsm_replay.specs.Deeds.{ByDeeds, IsResumeCut, MayResumeBy, RunsBy};
ghost use Rattle.hsm_replay.specs.ReadyCallers.{MayGoOn};
ghost use Rattle.hsm_system.specs.Events.{Runs};
ghost use Rattle.hsm_replay.specs.Parts.{IsStep};
ghost use Rattle.hsm_replay.specs.Stopped.{IsStepCut};
ghost use Rattle.hsm_replay.specs.Steps.{Steps, Halts};
ghost use Rattle.hsm_replay.specs.Systems.{running, started, killed, refreshed};
ghost use Rattle.hsm_replay.specs.Turns.{MayResume};

use crate::performing::perform;
use disk_model::Disk;
use hsm_core::Hsm;
use hsm_policy::Settings;
use hsm_system::{Event, Stop, System};
use hsm_types::{CallerId, Daemon};
use media_model::Drive;
use std::alloc::Global;
use std::marker::Model;

/// A store with its daemons, and its drives, of which there are as many as the settings say. Volume v is in the drive v mod the number of drives. Between
/// two calls no daemon waits for what comes of an act.
#[derive(Drop)]
pub struct Replay<D: Disk, M: Drive> {
    pub(crate) system: System<D>,
    drives: Vec<M>,
}

impl<D: Disk, M: Drive> Model for Replay<D, M> {
    ghost use Rattle.hsm_replay.specs.Systems.{Run, IsRun};

    ghost Value = { Run D M };

    ghost view = { λ r. record { system = r.system; drives = r.drives.items } };

    ghost invariant = { λ r. IsRun (record { system = r.system; drives = r.drives.items }) };
}

impl<D: Disk, M: Drive> Replay<D, M> {
    /// The store may have any history. Neither daemon runs.
    pub fn new(hsm: Hsm<D>, drives: Vec<M>, settings: Settings) -> Replay<D, M>
        requires { length drives.items ≡ settings.drives }
        ensures { result ≡ record { system = record { store = hsm; limits = settings; recall = None; migrate = None }; drives = drives.items } }
    {
        Replay {
            system: System::new(hsm, settings),
            drives,
        }
    }

    /// Hands out the store and the drives. The daemons end.
    pub fn close(self) -> (Hsm<D>, Vec<M>)
        ensures store { result.0 ≡ self.system.store }
        ensures drives { result.1.items ≡ self.drives }
        ensures count { length self.drives ≡ self.system.limits.drives }
    {
        (self.system.close(), self.drives)
    }

    /// Starts the daemon, which hears `Heard::Nothing` first. One that runs goes on as it is. It takes no memory.
    pub fn start(&mut self, alloc: Global, daemon: Daemon)
        ensures started { self.new ≡ started daemon self.old }
        ensures deeds { RunsBy M.Drive (Starts daemon ∷ []) self.old self.new }
    {
        self.system.start(alloc, daemon);
    }

    /// Ends the daemon where it is, with what it would have heard next. Its session stays. It takes no memory.
    pub fn kill(&mut self, daemon: Daemon)
        ensures killed { self.new ≡ killed daemon self.old }
        ensures deeds { RunsBy M.Drive (Kills daemon ∷ []) self.old self.new }
    {
        self.system.kill(daemon);
    }

    /// Takes a step of the daemon, where it runs: its machine hears what came of its last act and gives another, which is performed. What is heard of
    /// that the machine hears in the next step. After an error it hears `Heard::Nothing`, and may be given its next step. `Stop::Disk` is answered exactly
    /// where its call was answered with a fault of the disk, also by a store that was closed before, which is left as it is.
    pub fn step(&mut self, alloc: Global, daemon: Daemon) -> Result<(), Stop>
        ensures stepped { OnOk result (Steps D.Disk M.Drive daemon self.old self.new) }
        ensures stopped { IfErr result (λ why. Halts D.Disk M.Drive daemon self.old why self.new) }
        ensures moves { Runs D.Disk result self.old.system.store self.new.system.store }
        ensures runs { running self.new ≡ running self.old }
        ensures deeds { ByDeeds M.Drive (λ done. IsStep daemon) (IsStepCut daemon) result self.old self.new }
    {
        self.step_of(alloc, daemon)
    }

    fn step_of(&mut self, alloc: Global, daemon: Daemon) -> Result<(), Stop>
        ensures stepped { OnOk result (Steps D.Disk M.Drive daemon self.old self.new) }
        ensures stopped { IfErr result (λ why. Halts D.Disk M.Drive daemon self.old why self.new) }
    {
        let count = self.system.settings().drives();
        let given = self.system.ask(daemon)?;
        match given {
            None => Ok(()),
            Some(act) => perform(
                alloc,
                &mut self.system,
                &mut self.drives,
                count,
                daemon,
                act,
            ),
        }
    }

    /// Whether the daemon rests. One that doesn't run rests, and one that was just started.
    pub(crate) fn rests(&self, daemon: Daemon) -> bool
        ensures { IsTrue result ↔ Rests daemon self.now.system }
    {
        self.system.rests(daemon)
    }

    /// Migration may begin one pass by `high` from here on, by what it is told of the space from here on.
    pub(crate) fn refresh(&mut self)
        ensures refreshed { self.new ≡ refreshed self.old }
        ensures deeds { RunsBy M.Drive (Refreshes ∷ []) self.old self.new }
    {
        self.system.refresh();
    }

    /// The store has kept all that it answered: its history is a run that hands out messages as the rules say, and a good one where the disk tells what it
    /// holds. It does nothing else, and costs nothing.
    pub fn kept(&self)
        ensures { IsKept D.Disk self.now.system.store }
    {
        let _ = self.system.history();
    }

    /// What a daemon knows goes with the act that it gave last.
    pub(crate) fn asks(&self)
        ensures recall { RecallIsRight self.now.system.recall }
        ensures migrate { MigrateIsRight self.now.system.limits self.now.system.migrate }
    {
        self.system.asks();
    }

    /// How many entries the history has.
    pub(crate) fn entries(&self) -> usize
        ensures count { result ≡ length self.now.system.store.history }
        ensures few { length self.now.system.store.history < 2 ^ 64 }
    {
        self.system.history().len()
    }

    /// The caller resumes where its access may go on.
    pub(crate) fn resume(&mut self, alloc: Global, caller: CallerId) -> Result<(), Stop>
        requires { IsCallerNumber caller }
        ensures moves { Runs D.Disk result self.old.system.store self.new.system.store }
        ensures resumed { OnOk result (MayResume caller self.old self.new) }
        ensures runs { running self.new ≡ running self.old }
        ensures deeds { ByDeeds M.Drive (λ done. MayResumeBy (MayGoOn self.old.system.store) caller) (IsResumeCut (MayGoOn self.old.system.store) caller) result self.old self.new }
    {
        self.kept();
        if !self.is_ready(caller) {
            return Ok(());
        }
        self.system.event(alloc, Event::Resume(caller))
    }

    /// Whether the caller's access may go on.
    fn is_ready(&self, caller: CallerId) -> bool
        ensures { IsTrue result ↔ (ready self.now.system.store caller ≡ Now) }
    {
        self.system.is_ready(caller)
    }
}
