//! What the daemon knows.
ghost use Rattle.std.specs.Prelude.{◌≡◌, ◌≢◌, ◌++◌, ◌≤◌, [], true, false, IsTrue, ◌↔◌, Some, None, OnOk, OnErr, IfOk, MatchOption};
ghost use Rattle.daemon_session.specs.Tellings.{events_in};
ghost use Rattle.daemon_session.specs.Members.{Enters, IsOnWay};
ghost use Rattle.daemon_session.specs.Seats.{first_id, forgot, all_marked};
ghost use Rattle.hsm_types.specs.Limits.{most_volumes};
ghost use Rattle.hsm_types.specs.declared.daemons.Daemon.TheVariants.{Migrate};
ghost use Rattle.hsm_types.specs.declared.daemons.Act.TheVariants.{Dm, Idle};
ghost use Rattle.hsm_types.specs.declared.dm.DmCall.TheVariants.{GetAllSessions};
ghost use Rattle.migrate_daemon.specs.Known.{nothing_known, is_due};
ghost use Rattle.migrate_daemon.specs.Machine.{WantsSpace, CameBeforePass, NoneServed, answer_of};
ghost use Rattle.migrate_daemon.specs.Shares.{share};
ghost use Rattle.migrate_daemon.specs.MachineStates.{begun, resting, taking_up, with_known, with_kept, membership};

use crate::shares::{Space, is_above, share};
use daemon_session::{Member, Step};
use hsm_policy::Settings;
use hsm_types::{Act, Daemon, Heard, Response, Token};
use std::alloc::{AllocError, Global};
use std::marker::Model;

/// What the daemon goes by, and what it knows.
#[derive(Drop)]
pub(crate) struct Knowledge {
    settings: Settings,
    member: Member,
    space: Option<Space>,
    fresh: bool,
    punched: bool,
}

impl Model for Knowledge {
    ghost use Rattle.std.specs.Prelude.{◌≡◌};
    ghost use Rattle.hsm_types.specs.declared.daemons.Daemon.TheVariants.{Migrate};
    ghost use Rattle.migrate_daemon.specs.MachineStates.{Standing};

    ghost Value = { Standing };

    ghost view = { λ k. record { limits = k.settings; known = record { seat = k.member.seat; space = k.space; fresh = k.fresh; punched = k.punched }; way = k.member.asked } };

    ghost invariant = { λ k. k.member.daemon ≡ Migrate };
}

impl Knowledge {
    /// At its start. It goes by these settings.
    pub(crate) fn new(alloc: Global, settings: &Settings) -> Knowledge
        ensures { result ≡ record { limits = settings.now; known = nothing_known true; way = Idle } }
    {
        Knowledge {
            settings: *settings,
            member: Member::new(alloc, Daemon::Migrate),
            space: None,
            fresh: true,
            punched: false,
        }
    }

    /// Begins as at its start.
    pub(crate) fn begin(&mut self) -> Act
        ensures new { self.new ≡ begun self.old }
        ensures act { result ≡ Dm first_id GetAllSessions }
    {
        self.space = None;
        self.punched = false;
        self.member.begin()
    }

    /// A pass by `high` may begin again.
    pub(crate) fn refresh(&mut self)
        ensures { self.new ≡ with_known (record (self.old.known) { space = None; fresh = true }) self.old }
    {
        self.space = None;
        self.fresh = true;
    }

    /// It has heard of the space.
    pub(crate) fn measure(&mut self, space: Space)
        ensures { self.new ≡ with_known (record (self.old.known) { space = Some space }) self.old }
    {
        self.space = Some(space);
    }

    /// It rests.
    pub(crate) fn rest(&mut self)
        ensures { self.new ≡ resting self.old }
    {
        self.space = None;
    }

    /// A pass begins, for each event that it keeps. Where one by `high` was due, it is this one.
    pub(crate) fn take_up(&mut self)
        ensures { self.new ≡ taking_up self.old }
    {
        self.fresh = self.fresh && !self.is_due();
        self.space = None;
        self.punched = false;
        self.member.mark_all(true);
    }

    /// A segment was put offline.
    pub(crate) fn free(&mut self)
        ensures { self.new ≡ with_known (record (self.old.known) { punched = true }) self.old }
    {
        self.punched = true;
    }

    /// Keeps the events that a buffer of messages tells.
    pub(crate) fn keep(&mut self, buffer: &[u8]) -> Result<(), AllocError>
        ensures ok { OnOk result (self.new ≡ with_kept (self.old.known.seat.kept ++ events_in Migrate buffer.now) self.old) }
        ensures err { OnErr result (self.new ≡ self.old) }
    {
        self.member.keep(buffer)
    }

    /// Forgets the event of that token.
    pub(crate) fn forget(&mut self, token: Token)
        ensures { self.new ≡ with_kept (forgot token self.old.known.seat.kept) self.old }
    {
        self.member.forget(token);
    }

    /// Takes the next step on the way to a session.
    pub(crate) fn go_on(&mut self, told: Heard) -> Result<Step, AllocError>
        requires { IsOnWay self.old.way }
        ensures enters { IfOk result (λ next. Enters (membership self.old) told next (membership self.new)) }
        ensures stays { OnOk result (self.new ≡ record self.old { known = record (self.old.known) { seat = self.new.known.seat }; way = self.new.way }) }
        ensures err { OnErr result (self.new ≡ self.old) }
    {
        self.member.go_on(told)
    }

    /// Whether a pass by `high` may begin, but for the space, of which it has not heard.
    pub(crate) fn wants_space(&self) -> bool
        ensures { IsTrue result ↔ WantsSpace self.now.known }
    {
        self.fresh && self.space.is_none()
    }

    /// Whether a pass by `high` is due.
    pub(crate) fn is_due(&self) -> bool
        ensures { result ≡ is_due self.now.limits self.now.known }
    {
        self.fresh && is_above(self.settings.high(), self.space)
    }

    /// Whether it keeps an event.
    pub(crate) fn has_events(&self) -> bool
        ensures { IsTrue result ↔ (self.now.known.seat.kept ≢ []) }
    {
        !self.member.kept().is_empty()
    }

    /// The first event that the last pass served and that is not answered.
    pub(crate) fn next_served(&self) -> Option<Token>
        ensures { MatchOption result (NoneServed self.now.known.seat.kept) (CameBeforePass self.now.known.seat.kept) }
    {
        let kept = self.member.kept().iter().find(|kept| kept.marked)?;
        Some(kept.event.token)
    }

    /// The answer to an event, after a pass.
    pub(crate) fn response(&self) -> Response
        ensures { result ≡ answer_of self.now.known.punched }
    {
        if self.punched {
            Response::Continue
        } else {
            Response::Abort(28)
        }
    }

    /// Down to how many blocks a pass goes, of so many.
    pub(crate) fn low(&self, total: u64) -> u64
        ensures { result ≡ share self.now.limits.low total }
    {
        share(self.settings.low(), total)
    }

    /// How many volumes there are.
    pub(crate) fn volumes(&self) -> u32
        ensures volumes { result ≡ self.now.limits.volumes }
        ensures some { 1 ≤ result }
        ensures few { result ≤ most_volumes }
    {
        self.settings.volumes()
    }
}
