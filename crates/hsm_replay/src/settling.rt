//! Settling: the daemons and the callers whose accesses may go on do so in turns, until all that is left is quiet.
ghost use Rattle.std.specs.Prelude.{◌≡◌, ◌≤◌, length, drop, true, IfOk, OnOk};
ghost use Rattle.std.specs.List.{list_all};
ghost use Rattle.hsm_types.specs.Callers.{IsCallerNumber};
ghost use Rattle.hsm_replay.specs.Deeds.{ByDeeds, IsResumeCut, IsRoundOf, MayResumeBy};
ghost use Rattle.hsm_replay.specs.Freshness.{StaysFresh};
ghost use Rattle.hsm_replay.specs.ReadyCallers.{MayGoOn};
ghost use Rattle.hsm_system.specs.Events.{Runs};
ghost use Rattle.hsm_replay.specs.Parts.{AreResumes, IsLeft, IsSettle, IsTurn};
ghost use Rattle.hsm_replay.specs.Stopped.{AreResumesCut, IsLeftCut, IsRoundCut, IsSettleCut, IsTurnCut};
ghost use Rattle.hsm_system.specs.Systems.{Rests};
ghost use Rattle.marked_history.specs.Quiet.{is_quiet};
ghost use Rattle.hsm_replay.specs.Resting.{EndsMarked, IsSettledIn, LeadsTo};
ghost use Rattle.hsm_replay.specs.Settled.{IsSettled};
ghost use Rattle.hsm_replay.specs.Systems.{running};
ghost use Rattle.hsm_replay.specs.Turns.{GoesInTurn, HasTurned, HaveResumed, MayResume};

use crate::quiet::all_quiet;
use crate::replay::Replay;
use disk_model::Disk;
use hsm_system::Stop;
use hsm_types::{CALLERS, CallerId, Daemon};
use media_model::Drive;
use std::alloc::Global;

impl<D: Disk, M: Drive> Replay<D, M> {
    /// Lets the daemons and the callers go on in rounds, until all events of a round are quiet ones of daemons. In a round recall goes on until it rests, then
    /// each caller whose access may go on resumes, in order of number, and where all that was quiet, migration goes on until it rests. It begins at most
    /// one pass by `high`. Where a step has begun a daemon's turn, that ends before its first one of these. After an error the history may have the first of
    /// these events.
    pub fn settle(&mut self, alloc: Global) -> Result<(), Stop>
        ensures moves { Runs D.Disk result self.old.system.store self.new.system.store }
        ensures settled { OnOk result (IsSettled self.old self.new) }
        ensures runs { running self.new ≡ running self.old }
        ensures deeds { ByDeeds M.Drive (λ done given deeds. IsSettle is_quiet (MayGoOn self.old.system.store) given deeds × LeadsTo M.Drive (IsSettledIn self.new) self.old deeds) (IsSettleCut is_quiet (MayGoOn self.old.system.store)) result self.old self.new }
    {
        self.refresh();
        loop {
            self.entries();
            if self.round(alloc)? {
                self.kept();
                return Ok(());
            }
        }
    }

    /// One round. Whether all its events were quiet.
    fn round(&mut self, alloc: Global) -> Result<bool, Stop>
        ensures moves { Runs D.Disk result self.old.system.store self.new.system.store }
        ensures fresh { OnOk result (StaysFresh self.old self.new) }
        ensures quiet { IfOk result (λ quiet. quiet ≡ list_all is_quiet (drop (length self.old.system.store.history) self.new.system.store.history)) }
        ensures runs { running self.new ≡ running self.old }
        ensures deeds { ByDeeds M.Drive (λ quiet given deeds. IsRoundOf (MayGoOn self.old.system.store) quiet given deeds × (quiet ≡ true → EndsMarked self.old self.new deeds)) (IsRoundCut is_quiet (MayGoOn self.old.system.store)) result self.old self.new }
    {
        let before = self.entries();
        self.turn(alloc, Daemon::Recall)?;
        self.resume_all(alloc)?;
        if !self.is_quiet_since(before) {
            return Ok(false);
        }
        self.turn(alloc, Daemon::Migrate)?;
        Ok(self.is_quiet_since(before))
    }

    /// A daemon's turn. Where a step has begun one, that ends before it.
    fn turn(&mut self, alloc: Global, daemon: Daemon) -> Result<(), Stop>
        ensures moves { Runs D.Disk result self.old.system.store self.new.system.store }
        ensures turned { OnOk result (HasTurned daemon self.old self.new) }
        ensures runs { running self.new ≡ running self.old }
        ensures deeds { ByDeeds M.Drive (λ done. IsTurn daemon) (IsTurnCut daemon) result self.old self.new }
    {
        self.rest(alloc, daemon)?;
        self.whole_turn(alloc, daemon)
    }

    /// A daemon's turn from its beginning to its end.
    fn whole_turn(&mut self, alloc: Global, daemon: Daemon) -> Result<(), Stop>
        requires { Rests daemon self.old.system }
        ensures moves { Runs D.Disk result self.old.system.store self.new.system.store }
        ensures turned { OnOk result (HasTurned daemon self.old self.new) }
        ensures runs { running self.new ≡ running self.old }
        ensures deeds { ByDeeds M.Drive (λ done. IsTurn daemon) (IsTurnCut daemon) result self.old self.new }
    {
        self.asks();
        self.step(alloc, daemon)?;
        self.rest(alloc, daemon)
    }

    /// The rest of a daemon's turn: steps until it rests.
    fn rest(&mut self, alloc: Global, daemon: Daemon) -> Result<(), Stop>
        ensures moves { Runs D.Disk result self.old.system.store self.new.system.store }
        ensures rests { OnOk result (Rests daemon self.new.system) }
        ensures goes { OnOk result (GoesInTurn daemon self.old self.new) }
        ensures runs { running self.new ≡ running self.old }
        ensures deeds { ByDeeds M.Drive (λ done. IsLeft daemon) (IsLeftCut daemon) result self.old self.new }
    {
        while !self.rests(daemon) {
            self.entries();
            self.step(alloc, daemon)?;
        }
        Ok(())
    }

    /// Each caller whose access may go on resumes, in order of number.
    fn resume_all(&mut self, alloc: Global) -> Result<(), Stop>
        ensures moves { Runs D.Disk result self.old.system.store self.new.system.store }
        ensures resumed { OnOk result (HaveResumed self.old self.new) }
        ensures runs { running self.new ≡ running self.old }
        ensures deeds { ByDeeds M.Drive (λ done. AreResumes (MayGoOn self.old.system.store)) (AreResumesCut (MayGoOn self.old.system.store)) result self.old self.new }
    {
        for number in 1..u64::from(CALLERS) + 1 {
            self.resume_at(alloc, number)?;
        }
        Ok(())
    }

    /// The caller of that number resumes where its access may go on.
    fn resume_at(&mut self, alloc: Global, number: u64) -> Result<(), Stop>
        requires { IsCallerNumber number }
        ensures moves { Runs D.Disk result self.old.system.store self.new.system.store }
        ensures resumed { OnOk result (MayResume number self.old self.new) }
        ensures runs { running self.new ≡ running self.old }
        ensures deeds { ByDeeds M.Drive (λ done. MayResumeBy (MayGoOn self.old.system.store) number) (IsResumeCut (MayGoOn self.old.system.store) number) result self.old self.new }
    {
        let Some(caller) = CallerId::new(number) else {
            unreachable!()
        };
        self.resume(alloc, caller)
    }

    /// Whether all events behind those first ones were quiet.
    fn is_quiet_since(&self, first: usize) -> bool
        requires { first ≤ length self.now.system.store.history }
        ensures { result ≡ list_all is_quiet (drop first self.now.system.store.history) }
    {
        all_quiet(&self.system.history()[first..])
    }
}
