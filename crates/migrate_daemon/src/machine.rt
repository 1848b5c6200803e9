//! The migration machine.
ghost use Rattle.std.specs.Prelude.{◌≡◌, ◌↔◌, IsTrue, false, None, Some, IfOk, OnErr, MatchOption};
ghost use Rattle.hsm_types.specs.declared.daemons.Act.{Act as Acted};
ghost use Rattle.migrate_daemon.specs.Machine.{started, freshened, StepsOn, IsOfPass, IsWithin};
ghost use Rattle.migrate_daemon.specs.Passes.{IsOver};
ghost use Rattle.migrate_daemon.specs.Stages.{Stands, is_lost};
ghost use Rattle.migrate_daemon.specs.Turns.{Turns};
ghost use Rattle.migrate_daemon.specs.declared.stages.Work.{Work};
ghost use Rattle.hsm_policy.specs.declared.picking.Picked.{Picked};

use crate::copying::on_copied;
use crate::entering::{enter, is_lost, lose, on_way};
use crate::knowledge::Knowledge;
use crate::passes::on_table;
use crate::progress::Progress;
use crate::rounds::{on_answer, on_events, on_space, round};
use crate::skips::Skip;
use crate::stages::{Stage, Turn};
use crate::working::on_work;
use hsm_policy::Settings;
use hsm_types::{Act, Heard};
use std::alloc::{AllocError, Global};
use std::marker::Model;
use std::snapshot::Snapshot;

/// The machine that moves segments to volumes, so that there is space. Contracts see what it knows, how far its pass is, and what it asked last.
#[derive(Drop)]
pub struct Migrator {
    stage: Stage,
    knowledge: Knowledge,
    pass: Progress,
    asked: Snapshot<Act>,
}

impl Model for Migrator {
    ghost use Rattle.migrate_daemon.specs.Machine.{Machine};
    ghost use Rattle.migrate_daemon.specs.Stages.{Stands};

    ghost Value = { Machine };

    ghost view = { λ m. record { limits = m.knowledge.limits; known = m.knowledge.known; asked = m.asked.value; pass = m.pass } };

    ghost invariant = { λ m. Stands m.stage m.knowledge m.pass m.asked.value };
}

impl Migrator {
    /// A machine at its start, by these settings. One pass by `high` may begin. It takes no memory.
    pub fn start(alloc: Global, settings: &Settings) -> Migrator
        ensures { result ≡ started settings.now }
    {
        let asked = Act::Idle;
        Migrator {
            stage: Stage::Outside,
            knowledge: Knowledge::new(alloc, settings),
            pass: Progress::none(alloc),
            asked: Snapshot::of(&asked),
        }
    }

    /// What it does next, when it hears what became of what it did. Where memory is wanting nothing changes, but what it heard is dropped.
    pub fn next(&mut self, last: Heard) -> Result<Act, AllocError>
        requires { IsWithin last }
        ensures ok { IfOk result (λ act. StepsOn self.old last act self.new) }
        ensures err { OnErr result (self.new ≡ self.old) }
    {
        let turn = turn(self.stage, &mut self.knowledge, &mut self.pass, last)?;
        self.stage = turn.stage;
        self.asked = Snapshot::of(&turn.act);
        Ok(turn.act)
    }

    /// Whether it rests: the act that it gave last was `Act::Idle`, or it was just started. It takes no memory.
    pub fn rests(&self) -> bool
        ensures { IsTrue result ↔ (self.now.asked ≡ Act.Idle) }
    {
        matches!(self.stage, Stage::Outside | Stage::Resting { .. })
    }

    /// The segments skipped since the last pass began, in the order in which they were picked. It takes no memory.
    pub fn skipped(&self) -> &[Skip]
        ensures skipped { result.now ≡ self.now.pass.skipped }
        ensures over { (IsOfPass self.now.asked → ⊥) → IsOver self.now.pass }
    {
        let _ = &self.stage;
        self.pass.skipped()
    }

    /// The answer at which the last pass ended early, if it did. It takes no memory.
    pub fn ended(&self) -> Option<&Heard>
        ensures ended { MatchOption result (self.now.pass.ended ≡ None) (λ told. self.now.pass.ended ≡ Some told.now) }
        ensures over { (IsOfPass self.now.asked → ⊥) → IsOver self.now.pass }
    {
        let _ = &self.stage;
        self.pass.ended()
    }

    /// One pass by `high` may begin again, by what the machine hears of the space from here on. It takes no memory.
    pub fn fresh(&mut self)
        ensures { self.new ≡ freshened self.old }
    {
        self.knowledge.refresh();
    }
}

/// What comes next where the machine is.
fn turn(
    stage: Stage,
    knowledge: &mut Knowledge,
    pass: &mut Progress,
    last: Heard,
) -> Result<Turn, AllocError>
    requires within { IsWithin last }
    requires stands { (asked : Acted) × Stands stage knowledge.old pass.old asked }
    ensures ok { IfOk result (λ turn. (asked : Acted) → Stands stage knowledge.old pass.old asked → Turns knowledge.old pass.old asked last knowledge.new pass.new turn) }
    ensures knowledge { OnErr result (knowledge.new ≡ knowledge.old) }
    ensures pass { OnErr result (pass.new ≡ pass.old) }
{
    if is_lost(stage, &last) {
        return Ok(lose(stage, knowledge, pass));
    }
    match stage {
        Stage::Entering => on_way(knowledge, last),
        Stage::Working { pick, work } => on_work(knowledge, pass, pick, work, last),
        _ => on_told(stage, knowledge, pass, &last),
    }
}

/// What comes next elsewhere than on the way to a session and at a call of a pass. There it takes nothing of what it hears.
fn on_told(
    stage: Stage,
    knowledge: &mut Knowledge,
    pass: &mut Progress,
    last: &Heard,
) -> Result<Turn, AllocError>
    requires lives { is_lost stage last.now ≡ false }
    requires stands { (asked : Acted) × Stands stage knowledge.old pass.old asked }
    requires no_entry { stage ≡ Stage.Entering → ⊥ }
    requires no_work { (pick : Picked) (work : Work) → stage ≡ Stage.Working pick work → ⊥ }
    ensures ok { IfOk result (λ turn. (asked : Acted) → Stands stage knowledge.old pass.old asked → Turns knowledge.old pass.old asked last.now knowledge.new pass.new turn) }
    ensures knowledge { OnErr result (knowledge.new ≡ knowledge.old) }
    ensures pass { OnErr result (pass.new ≡ pass.old) }
{
    match stage {
        Stage::Outside => Ok(enter(knowledge)),
        Stage::Resting { sid } => Ok(round(knowledge, sid)),
        Stage::Measuring { sid } => Ok(on_space(knowledge, sid, last)),
        Stage::Asking { sid } => on_events(knowledge, sid, last),
        Stage::Looking { sid } => on_table(knowledge, pass, sid, last),
        Stage::Copying { pick } => Ok(on_copied(knowledge, pass, pick, last)),
        Stage::Answering { sid, token } => Ok(on_answer(knowledge, sid, token, last)),
        Stage::Entering | Stage::Working { .. } => unreachable!(),
    }
}
