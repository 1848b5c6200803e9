//! The machine's way to a session, and its rounds.
ghost use Rattle.std.specs.Prelude.{◌≡◌, IfOk, OnErr, Decides};
ghost use Rattle.daemon_session.specs.Seats.{first_id, Refuses};
ghost use Rattle.hsm_types.specs.declared.daemons.Act.TheVariants.{Dm};
ghost use Rattle.hsm_types.specs.declared.dm.DmCall.TheVariants.{GetAllSessions};
ghost use Rattle.recall_daemon.specs.Workers.{IsWorker, TakesNothing, Works};
ghost use Rattle.recall_daemon.specs.declared.serving.Serving.TheVariants as serving;

use crate::serving::Serving;
use crate::telling::{messages_told, tells_no_more, tells_no_session};
use crate::worker::Worker;
use daemon_session::Step;
use hsm_types::{Act, Heard, Sid};
use std::alloc::AllocError;

impl Worker {
    /// It is on its way to a session.
    fn on_way(&mut self, last: Heard) -> Result<Act, AllocError>
        requires worker { IsWorker self.old }
        requires serving { self.old.serving ≡ serving.Entering }
        ensures ok { IfOk result (λ act. Works self.old last act self.new) }
        ensures err { OnErr result (self.new ≡ self.old) }
    {
        match self.member.go_on(last)? {
            Step::Asks(act) => Ok(self.wait(Serving::Entering, act)),
            Step::Seated(sid) => Ok(self.turn(sid)),
            Step::Refused => Ok(self.wait(Serving::Outside, Act::Idle)),
        }
    }

    /// Events were asked for.
    fn on_asked(&mut self, sid: Sid, last: &Heard) -> Result<Act, AllocError>
        requires worker { IsWorker self.old }
        requires serving { self.old.serving ≡ serving.Asking sid }
        ensures ok { IfOk result (λ act. Works self.old last.now act self.new) }
        ensures err { OnErr result (self.new ≡ self.old) }
    {
        if let Some(bytes) = messages_told(last) {
            self.member.keep(bytes.as_slice())?;
            return Ok(self.turn(sid));
        }
        if tells_no_more(last) {
            self.member.mark_all(false);
            return Ok(self.wait(Serving::Resting { sid }, Act::Idle));
        }
        Ok(self.turn(sid))
    }

    /// Whether a call was refused, as the session is gone.
    fn is_refused(&self, last: &Heard) -> bool
        requires { IsWorker self.now }
        ensures { Decides result (Refuses self.now.asked.value last.now) }
    {
        match self.serving {
            Serving::Outside | Serving::Resting { .. } | Serving::Fetching { .. } => false,
            _ => tells_no_session(last),
        }
    }

    /// What it does by the answer, where it takes nothing of that.
    fn hear(&mut self, last: &Heard) -> Result<Act, AllocError>
        requires worker { IsWorker self.old }
        requires lives { Refuses self.old.asked.value last.now → ⊥ }
        requires takes { TakesNothing self.old.serving }
        ensures ok { IfOk result (λ act. Works self.old last.now act self.new) }
        ensures err { OnErr result (self.new ≡ self.old) }
    {
        match self.serving {
            Serving::Outside => Ok(self.begin()),
            Serving::Resting { sid } => Ok(self.turn(sid)),
            Serving::Asking { sid } => self.on_asked(sid, last),
            Serving::Requesting { sid, event } => Ok(self.on_requested(sid, &event, last)),
            Serving::Measuring { sid, event } => Ok(self.on_measured(sid, &event, last)),
            Serving::Mapping { sid, event, size } => self.on_mapped(sid, &event, size, last),
            Serving::Restoring {
                sid,
                event,
                size,
                away,
            } => Ok(self.on_restored(sid, &event, size, away, last)),
            Serving::Responding { sid, event } => Ok(self.on_responded(sid, &event, last)),
            Serving::Entering | Serving::Fetching { .. } => unreachable!(),
        }
    }

    /// What it does when it hears the answer to what it asked. An error changes nothing.
    pub(crate) fn next(&mut self, last: Heard) -> Result<Act, AllocError>
        requires { IsWorker self.old }
        ensures ok { IfOk result (λ act. Works self.old last act self.new) }
        ensures begins { Refuses self.old.asked.value last → IfOk result (λ act. act ≡ Dm first_id GetAllSessions) }
        ensures err { OnErr result (self.new ≡ self.old) }
    {
        if self.is_refused(&last) {
            return Ok(self.begin());
        }
        match self.serving {
            Serving::Entering => self.on_way(last),
            Serving::Fetching {
                sid,
                event,
                size,
                away,
            } => Ok(self.on_fetched(sid, &event, size, away, last)),
            _ => self.hear(&last),
        }
    }
}
