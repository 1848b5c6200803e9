//! The way to a session, and the loss of one.
ghost use Rattle.std.specs.Prelude.{◌≡◌, ◌≤◌, ◌++◌, true, false, IfOk, OnErr};
ghost use Rattle.hsm_types.specs.declared.daemons.Act.{Act as Acted};
ghost use Rattle.hsm_types.specs.declared.daemons.Heard.{Heard as Told};
ghost use Rattle.migrate_daemon.specs.Hearing.{is_gone};
ghost use Rattle.migrate_daemon.specs.Passes.{Pass};
ghost use Rattle.migrate_daemon.specs.Stages.{Stands, IsEntering, IsEntry, begins, is_lost};
ghost use Rattle.migrate_daemon.specs.MachineStates.{begun};
ghost use Rattle.migrate_daemon.specs.Turns.{Turns};

use crate::hearing::is_gone;
use crate::knowledge::Knowledge;
use crate::progress::Progress;
use crate::rounds::round;
use crate::stages::{Stage, Turn};
use daemon_session::Step;
use hsm_types::{Act, DmRefusal, DmReply, Heard};
use std::alloc::AllocError;

/// Begins as at its start.
pub(crate) fn enter(knowledge: &mut Knowledge) -> Turn
    ensures turn { result ≡ begins }
    ensures new { knowledge.new ≡ begun knowledge.old }
{
    Turn {
        stage: Stage::Entering,
        act: knowledge.begin(),
    }
}

/// Whether its session is gone. It is told so of calls.
pub(crate) fn is_lost(stage: Stage, told: &Heard) -> bool
    ensures { result ≡ is_lost stage told.now }
{
    match stage {
        Stage::Outside | Stage::Resting { .. } | Stage::Copying { .. } => false,
        _ => is_gone(told),
    }
}

/// Its session is gone. A pass that is under way ends, and it begins as at its start.
pub(crate) fn lose(stage: Stage, knowledge: &mut Knowledge, pass: &mut Progress) -> Turn
    ensures { (asked : Acted) (told : Told) → is_lost stage told ≡ true → Stands stage knowledge.old pass.old asked → Turns knowledge.old pass.old asked told knowledge.new pass.new result }
{
    match stage {
        Stage::Working { .. } => {
            pass.end(Heard::Dm(DmReply::Refused(DmRefusal::NoSession)));
            enter(knowledge)
        }
        _ => enter(knowledge),
    }
}

/// It hears what was answered on its way to a session.
pub(crate) fn on_way(knowledge: &mut Knowledge, told: Heard) -> Result<Turn, AllocError>
    requires entry { IsEntry knowledge.old.way }
    requires lives { is_gone told ≡ false }
    ensures ok { IfOk result (λ turn. (pass : Pass) → IsEntering knowledge.old pass → Turns knowledge.old pass knowledge.old.way told knowledge.new pass turn) }
    ensures err { OnErr result (knowledge.new ≡ knowledge.old) }
{
    match knowledge.go_on(told)? {
        Step::Asks(act) => Ok(Turn {
            stage: Stage::Entering,
            act,
        }),
        Step::Seated(sid) => Ok(round(knowledge, sid)),
        Step::Refused => Ok(Turn {
            stage: Stage::Outside,
            act: Act::Idle,
        }),
    }
}
