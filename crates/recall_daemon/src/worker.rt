//! The machine's parts, and each act that it makes.
ghost use Rattle.std.specs.Prelude.{◌≡◌, ◌↔◌, IsTrue, None, Some};
ghost use Rattle.daemon_session.specs.Seats.{first_id, IsSeated};
ghost use Rattle.hsm_types.specs.declared.daemons.Daemon.TheVariants.{Recall};
ghost use Rattle.hsm_types.specs.declared.daemons.Act.{Act};
ghost use Rattle.hsm_types.specs.declared.daemons.Act.TheVariants.{Dm};
ghost use Rattle.hsm_types.specs.declared.daemons.Heard.{Heard};
ghost use Rattle.hsm_types.specs.declared.dm.DmCall.TheVariants.{GetAllSessions};
ghost use Rattle.recall_daemon.specs.Known.{Known, nothing_known, put_off, dropped, with_hand, IsKept, HasAll, IsCalm, MayRespond, Needs};
ghost use Rattle.recall_daemon.specs.Machine.{started};
ghost use Rattle.recall_daemon.specs.Workers.{known_of, machine_of, mapped, IsWorker, IsServing, Gives};

use crate::away::Away;
use crate::choosing::first_event;
use crate::needed::first_needed;
use crate::serving::Serving;
use daemon_session::{Event, Member};
use hsm_types::{Act, BUFFER_BYTES as ROOM, Daemon, DmCall, Response, Right, Sid};
use std::alloc::Global;
use std::snapshot::Snapshot;

/// The parts of the machine.
#[derive(Drop)]
pub(crate) struct Worker {
    pub(crate) member: Member,
    pub(crate) serving: Serving,
    /// Of the event in hand the segments that are away, but for those that were restored.
    pub(crate) away: Vec<Away>,
    /// The act whose answer it waits for. It takes no memory.
    pub(crate) asked: Snapshot<Act>,
}

impl Worker {
    /// It has no session, and waits for nothing.
    pub(crate) fn start(alloc: Global) -> Worker
        ensures worker { IsWorker result }
        ensures shows { machine_of result ≡ started }
    {
        Worker {
            member: Member::new(alloc, Daemon::Recall),
            serving: Serving::Outside,
            away: Vec::new(alloc),
            asked: Snapshot::of(&Act::Idle),
        }
    }

    /// Whether it waits for nothing.
    pub(crate) fn rests(&self) -> bool
        requires { IsWorker self.now }
        ensures { IsTrue result ↔ (self.now.asked.value ≡ Act.Idle) }
    {
        matches!(self.serving, Serving::Outside | Serving::Resting { .. })
    }

    /// Waits for the answer to that act, which it gives back.
    pub(crate) fn wait(&mut self, serving: Serving, act: Act) -> Act
        ensures act { result ≡ act }
        ensures member { self.new.member ≡ self.old.member }
        ensures serving { self.new.serving ≡ serving }
        ensures away { self.new.away ≡ self.old.away }
        ensures asked { self.new.asked.value ≡ act }
    {
        self.serving = serving;
        self.asked = Snapshot::of(&act);
        act
    }

    /// Serves the event with the lowest token, or asks for events where each is put off.
    pub(crate) fn turn(&mut self, sid: Sid) -> Act
        requires daemon { self.old.member.daemon ≡ Recall }
        requires seated { IsSeated self.old.member.seat sid }
        ensures { (asked : Act) (told : Heard) → (HasAll asked told → ⊥) → Gives (with_hand None self.old.member.seat) asked told result self.new }
    {
        match first_event(self.member.kept()) {
            Some(event) => {
                let act = Act::Dm(
                    sid,
                    DmCall::RequestRight {
                        token: event.token,
                        handle: event.handle,
                        right: Right::Excl,
                    },
                );
                self.wait(Serving::Requesting { sid, event }, act)
            }
            None => {
                let act = Act::Dm(sid, DmCall::GetEvents { max: 0, room: ROOM });
                self.wait(Serving::Asking { sid }, act)
            }
        }
    }

    /// Begins as at its start.
    pub(crate) fn begin(&mut self) -> Act
        requires { self.old.member.daemon ≡ Recall }
        ensures act { result ≡ Dm first_id GetAllSessions }
        ensures worker { IsWorker self.new }
        ensures known { known_of self.new ≡ nothing_known }
        ensures asked { self.new.asked.value ≡ result }
    {
        let act = self.member.begin();
        self.wait(Serving::Entering, act)
    }

    /// Puts the event off to the next round, and goes on.
    pub(crate) fn put_off(&mut self, sid: Sid, event: &Event) -> Act
        requires daemon { self.old.member.daemon ≡ Recall }
        requires seated { IsSeated self.old.member.seat sid }
        ensures { (asked : Act) (told : Heard) → (HasAll asked told → ⊥) → Gives (put_off event.now.token (known_of self.old)) asked told result self.new }
    {
        self.member.mark(event.token);
        self.turn(sid)
    }

    /// Forgets the event, and goes on.
    pub(crate) fn forget(&mut self, sid: Sid, event: &Event) -> Act
        requires daemon { self.old.member.daemon ≡ Recall }
        requires seated { IsSeated self.old.member.seat sid }
        ensures { (asked : Act) (told : Heard) → (HasAll asked told → ⊥) → Gives (dropped event.now.token (known_of self.old)) asked told result self.new }
    {
        self.member.forget(event.token);
        self.turn(sid)
    }

    /// Answers the event.
    pub(crate) fn respond(&mut self, sid: Sid, event: &Event, response: Response) -> Act
        requires daemon { self.old.member.daemon ≡ Recall }
        requires seated { IsSeated self.old.member.seat sid }
        ensures { (k : Known) (asked : Act) (told : Heard) → k.seat ≡ self.old.member.seat → MayRespond k asked told event.now.token response → Gives k asked told result self.new }
    {
        let act = Act::Dm(
            sid,
            DmCall::Respond {
                token: event.token,
                response,
            },
        );
        self.wait(Serving::Responding { sid, event: *event }, act)
    }

    /// Fetches the bytes of that segment.
    pub(crate) fn fetch(&mut self, sid: Sid, event: &Event, size: u64, away: Away) -> Act
        requires daemon { self.old.member.daemon ≡ Recall }
        requires serving { IsServing self.old.member sid event.now }
        requires needed { Needs event.now size self.old.away.items away }
        ensures { (asked : Act) (told : Heard) → IsCalm asked told → Gives (with_hand (Some (mapped event.now size self.old.away.items)) self.old.member.seat) asked told result self.new }
    {
        let act = Act::Fetch { entry: away.entry };
        let event = *event;
        self.wait(
            Serving::Fetching {
                sid,
                event,
                size,
                away,
            },
            act,
        )
    }

    /// Fetches the first segment that the access needs, or lets it go on where there is none.
    pub(crate) fn work_on(&mut self, sid: Sid, event: &Event, size: u64) -> Act
        requires daemon { self.old.member.daemon ≡ Recall }
        requires serving { IsServing self.old.member sid event.now }
        ensures { (asked : Act) (told : Heard) → IsCalm asked told → Gives (with_hand (Some (mapped event.now size self.old.away.items)) self.old.member.seat) asked told result self.new }
    {
        match first_needed(event, size, self.away.as_slice()) {
            Some(away) => self.fetch(sid, event, size, away),
            None => self.respond(sid, event, Response::Continue),
        }
    }
}
