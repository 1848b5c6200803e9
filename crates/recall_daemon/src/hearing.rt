//! What the machine does by the answer to what it asked.
ghost use Rattle.std.specs.Prelude.{◌≡◌, IfOk, OnErr, Decides};
ghost use Rattle.daemon_session.specs.Seats.{IsSeated};
ghost use Rattle.hsm_types.specs.declared.daemons.Daemon.TheVariants.{Recall};
ghost use Rattle.hsm_types.specs.declared.daemons.Act.{Act};
ghost use Rattle.hsm_types.specs.declared.daemons.Heard.{Heard};
ghost use Rattle.hsm_types.specs.declared.dm.DmRefusal.TheVariants.{NoSession};
ghost use Rattle.recall_daemon.specs.Known.{HasAll, refused, unrestored, unanswered};
ghost use Rattle.recall_daemon.specs.Tellings.{TellsNoSession};
ghost use Rattle.recall_daemon.specs.Workers.{known_of, failed_by, IsWorker, IsServing, HasInHand, Gives, Works};
ghost use Rattle.recall_daemon.specs.declared.serving.Serving.TheVariants as serving;

use crate::away::{Away, away_in};
use crate::serving::Serving;
use crate::telling::{
    fetched_told, refusal_told, response_to, segments_told, size_told, tells_done,
};
use crate::worker::Worker;
use daemon_session::Event;
use hsm_types::{Act, DmCall, DmRefusal, Heard, Response, Sid};
use std::alloc::AllocError;

/// The error of an access for whose segments there is no space.
const NO_SPACE: u32 = 28;

impl Worker {
    /// A call on the event was refused so.
    fn on_refused(&mut self, sid: Sid, event: &Event, why: DmRefusal) -> Act
        requires daemon { self.old.member.daemon ≡ Recall }
        requires serving { IsServing self.old.member sid event.now }
        requires hand { HasInHand self.old event.now }
        requires lives { why ≡ NoSession → ⊥ }
        ensures { (asked : Act) (told : Heard) → (HasAll asked told → ⊥) → Gives (refused event.now.token why (known_of self.old)) asked told result self.new }
    {
        match why {
            DmRefusal::NoObject => self.respond(sid, event, Response::Continue),
            DmRefusal::NoToken | DmRefusal::NotYours { .. } => self.forget(sid, event),
            _ => self.put_off(sid, event),
        }
    }

    /// A call on the event was refused, or not answered.
    fn on_failed(&mut self, sid: Sid, event: &Event, last: &Heard) -> Act
        requires daemon { self.old.member.daemon ≡ Recall }
        requires serving { IsServing self.old.member sid event.now }
        requires hand { HasInHand self.old event.now }
        requires lives { TellsNoSession last.now → ⊥ }
        ensures { (asked : Act) (told : Heard) → (HasAll asked told → ⊥) → Gives (failed_by event.now.token last.now (known_of self.old)) asked told result self.new }
    {
        match refusal_told(last) {
            Some(why) => self.on_refused(sid, event, why),
            None => self.put_off(sid, event),
        }
    }

    /// The right on the file was asked for.
    pub(crate) fn on_requested(&mut self, sid: Sid, event: &Event, last: &Heard) -> Act
        requires worker { IsWorker self.old }
        requires serving { self.old.serving ≡ serving.Requesting sid event.now }
        requires lives { TellsNoSession last.now → ⊥ }
        ensures { Works self.old last.now result self.new }
    {
        if tells_done(last) {
            let act = Act::Dm(
                sid,
                DmCall::GetFileAttr {
                    token: event.token,
                    handle: event.handle,
                },
            );
            return self.wait(Serving::Measuring { sid, event: *event }, act);
        }
        self.on_failed(sid, event, last)
    }

    /// The file's size was asked for.
    pub(crate) fn on_measured(&mut self, sid: Sid, event: &Event, last: &Heard) -> Act
        requires worker { IsWorker self.old }
        requires serving { self.old.serving ≡ serving.Measuring sid event.now }
        requires lives { TellsNoSession last.now → ⊥ }
        ensures { Works self.old last.now result self.new }
    {
        let Some(size) = size_told(last) else {
            return self.on_failed(sid, event, last);
        };
        let act = Act::Dm(
            sid,
            DmCall::GetAllocInfo {
                token: event.token,
                handle: event.handle,
            },
        );
        let event = *event;
        self.wait(Serving::Mapping { sid, event, size }, act)
    }

    /// What is held of the file's segments was asked for.
    pub(crate) fn on_mapped(
        &mut self,
        sid: Sid,
        event: &Event,
        size: u64,
        last: &Heard,
    ) -> Result<Act, AllocError>
        requires worker { IsWorker self.old }
        requires serving { self.old.serving ≡ serving.Mapping sid event.now size }
        requires lives { TellsNoSession last.now → ⊥ }
        ensures ok { IfOk result (λ act. Works self.old last.now act self.new) }
        ensures err { OnErr result (self.new ≡ self.old) }
    {
        let Some(segments) = segments_told(last) else {
            return Ok(self.on_failed(sid, event, last));
        };
        self.away = away_in(*self.away.allocator(), segments.as_slice())?;
        Ok(self.work_on(sid, event, size))
    }

    /// The bytes of a segment were to be fetched.
    pub(crate) fn on_fetched(
        &mut self,
        sid: Sid,
        event: &Event,
        size: u64,
        away: Away,
        last: Heard,
    ) -> Act
        requires worker { IsWorker self.old }
        requires serving { self.old.serving ≡ serving.Fetching sid event.now size away }
        ensures { Works self.old last result self.new }
    {
        match fetched_told(last) {
            Some(Ok(bytes)) => {
                let act = Act::Dm(
                    sid,
                    DmCall::Restore {
                        token: event.token,
                        handle: event.handle,
                        segment: away.segment,
                        bytes,
                    },
                );
                let event = *event;
                let restoring = Serving::Restoring {
                    sid,
                    event,
                    size,
                    away,
                };
                self.wait(restoring, act)
            }
            Some(Err(why)) => match response_to(why) {
                Some(response) => self.respond(sid, event, response),
                None => self.fetch(sid, event, size, away),
            },
            None => self.fetch(sid, event, size, away),
        }
    }

    /// A restore was refused so.
    fn on_unrestored(&mut self, sid: Sid, event: &Event, why: DmRefusal) -> Act
        requires daemon { self.old.member.daemon ≡ Recall }
        requires serving { IsServing self.old.member sid event.now }
        requires hand { HasInHand self.old event.now }
        requires lives { why ≡ NoSession → ⊥ }
        ensures { (asked : Act) (told : Heard) → (HasAll asked told → ⊥) → Gives (unrestored event.now.token why (known_of self.old)) asked told result self.new }
    {
        match why {
            DmRefusal::NoSpace { .. } => self.respond(sid, event, Response::Abort(NO_SPACE)),
            _ => self.on_refused(sid, event, why),
        }
    }

    /// A response was refused so.
    fn on_unanswered(&mut self, sid: Sid, event: &Event, why: DmRefusal) -> Act
        requires daemon { self.old.member.daemon ≡ Recall }
        requires seated { IsSeated self.old.member.seat sid }
        requires lives { why ≡ NoSession → ⊥ }
        ensures { (asked : Act) (told : Heard) → (HasAll asked told → ⊥) → Gives (unanswered event.now.token why (known_of self.old)) asked told result self.new }
    {
        match why {
            DmRefusal::NoToken | DmRefusal::NotYours { .. } => self.forget(sid, event),
            _ => self.put_off(sid, event),
        }
    }

    /// The segment was to have its bytes again.
    pub(crate) fn on_restored(
        &mut self,
        sid: Sid,
        event: &Event,
        size: u64,
        away: Away,
        last: &Heard,
    ) -> Act
        requires worker { IsWorker self.old }
        requires serving { self.old.serving ≡ serving.Restoring sid event.now size away }
        requires lives { TellsNoSession last.now → ⊥ }
        ensures { Works self.old last.now result self.new }
    {
        if tells_done(last) {
            self.away.retain(|one| one.segment != away.segment);
            return self.work_on(sid, event, size);
        }
        match refusal_told(last) {
            Some(why) => self.on_unrestored(sid, event, why),
            None => self.put_off(sid, event),
        }
    }

    /// The event was responded to.
    pub(crate) fn on_responded(&mut self, sid: Sid, event: &Event, last: &Heard) -> Act
        requires worker { IsWorker self.old }
        requires serving { self.old.serving ≡ serving.Responding sid event.now }
        requires lives { TellsNoSession last.now → ⊥ }
        ensures { Works self.old last.now result self.new }
    {
        if tells_done(last) {
            return self.forget(sid, event);
        }
        match refusal_told(last) {
            Some(why) => self.on_unanswered(sid, event, why),
            None => self.put_off(sid, event),
        }
    }
}
