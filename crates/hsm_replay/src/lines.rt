//! Lines of scripts, run on a store with its drives and its daemons.
ghost use Rattle.std.specs.Prelude.{◌≡◌, ℕ, Option, OnOk};
ghost use Rattle.script_text.specs.Lines.{IsLine, IsEvent};
ghost use Rattle.script_text.specs.declared.lines.Line.TheVariants.{Event};
ghost use Rattle.marked_history.specs.Quiet.{is_quiet};
ghost use Rattle.hsm_replay.specs.Deeds.{ByDeeds};
ghost use Rattle.hsm_replay.specs.ReadyCallers.{MayGoOn};
ghost use Rattle.hsm_system.specs.Events.{Runs};
ghost use Rattle.hsm_replay.specs.Parts.{IsLinePart};
ghost use Rattle.hsm_replay.specs.Stopped.{IsLineCut};
ghost use Rattle.hsm_replay.specs.Doing.{Does};
ghost use Rattle.hsm_replay.specs.Resting.{IsLeftBy, LeadsTo};
ghost use Rattle.hsm_replay.specs.Systems.{running};
ghost use Rattle.marked_history.specs.Settling.{running_by};
ghost use Rattle.hsm_replay.specs.Running.{commit_line, IsAllDurable};
ghost use Rattle.hsm_system.specs.Events.{action_of, actor_of};

use crate::replay::Replay;
use disk_model::Disk;
use hsm_system::{Event as Made, Stop};
use media_model::Drive;
use plain_model::{Action, Actor};
use script_text::Line;
use std::alloc::Global;

impl<D: Disk, M: Drive> Replay<D, M> {
    /// Runs the line: an event line as one event, `start` and `kill` as none, `step` as at most one act of the daemon, and `settle` as the events of
    /// [`settle`](Replay::settle). After an error the history may have the first of the line's events. `Stop::Disk` is answered exactly where an event of the
    /// line was answered with a fault of the disk, also over a store that was closed before, which is left as it is.
    pub fn line(&mut self, alloc: Global, line: Line) -> Result<(), Stop>
        requires { IsLine line }
        ensures moves { Runs D.Disk result self.old.system.store self.new.system.store }
        ensures does { Does D.Disk M.Drive line result self.old self.new }
        ensures runs { running self.new ≡ running_by line (running self.old) }
        ensures deeds { ByDeeds M.Drive (λ done given deeds. IsLinePart is_quiet (MayGoOn self.old.system.store) line given deeds × LeadsTo M.Drive (IsLeftBy line self.new) self.old deeds) (IsLineCut is_quiet (MayGoOn self.old.system.store) line) result self.old self.new }
    {
        match line {
            Line::Event { actor, action, .. } => self.event(alloc, actor, action),
            Line::Start(daemon) => {
                self.start(alloc, daemon);
                Ok(())
            }
            Line::Kill(daemon) => {
                self.kill(daemon);
                Ok(())
            }
            Line::Step(daemon) => self.step(alloc, daemon),
            Line::Settle => self.settle(alloc),
        }
    }

    /// Makes the event.
    fn event(&mut self, alloc: Global, actor: Actor, action: Action) -> Result<(), Stop>
        requires { (seed : Option ℕ) × IsEvent actor action seed }
        ensures moves { Runs D.Disk result self.old.system.store self.new.system.store }
        ensures does { (seed : Option ℕ) → Does D.Disk M.Drive (Event actor action seed) result self.old self.new }
        ensures deeds { (seed : Option ℕ) → ByDeeds M.Drive (λ done. IsLinePart is_quiet (MayGoOn self.old.system.store) (Event actor action seed)) (IsLineCut is_quiet (MayGoOn self.old.system.store) (Event actor action seed)) result self.old self.new }
    {
        self.system.event(alloc, event_of(actor, action))
    }

    /// Makes all durable that is held, as one event.
    pub fn commit(&mut self, alloc: Global) -> Result<(), Stop>
        ensures moves { Runs D.Disk result self.old.system.store self.new.system.store }
        ensures does { Does D.Disk M.Drive commit_line result self.old self.new }
        ensures durable { OnOk result (IsAllDurable self.new.system.store) }
        ensures deeds { ByDeeds M.Drive (λ done. IsLinePart is_quiet (MayGoOn self.old.system.store) commit_line) (IsLineCut is_quiet (MayGoOn self.old.system.store) commit_line) result self.old self.new }
    {
        self.system.event(alloc, Made::Commit)
    }
}

/// The event of a line, by who makes it and what it is.
fn event_of(actor: Actor, action: Action) -> Made
    requires { (seed : Option ℕ) × IsEvent actor action seed }
    ensures who { actor_of result ≡ actor }
    ensures what { action_of result ≡ action }
{
    match (&actor, action) {
        (Actor::Caller(caller), Action::Issue(call)) => Made::Issue(*caller, call),
        (Actor::Caller(caller), Action::Resume) => Made::Resume(*caller),
        (Actor::Session(sid), Action::Dm(call)) => Made::Dm(*sid, call),
        (Actor::Store, Action::Commit) => Made::Commit,
        _ => unreachable!(),
    }
}
