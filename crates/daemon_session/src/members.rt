//! A daemon's way to a session, and the events that it keeps.
ghost use Rattle.std.specs.Prelude.{◌≡◌, ◌++◌, OnOk, OnErr};
ghost use Rattle.daemon_session.specs.Tellings.{events_in};
ghost use Rattle.daemon_session.specs.Seats.{first_id, forgot, marked_at, all_marked};
ghost use Rattle.daemon_session.specs.Members.{outside, begun, with_kept};
ghost use Rattle.hsm_types.specs.declared.daemons.Act.TheVariants.{Dm};
ghost use Rattle.hsm_types.specs.declared.dm.DmCall.TheVariants.{GetAllSessions};

use crate::entering::Entering;
use crate::events::Kept;
use crate::keeping;
use hsm_types::{Act, Daemon, DmCall, Sid, Token};
use std::alloc::{AllocError, Global};
use std::marker::Model;

/// What comes next on the way to a session.
#[derive(Drop)]
pub enum Step {
    /// A call.
    Asks(Act),
    /// It has this session, and all its messages.
    Seated(Sid),
    /// It was refused a session, as too many live.
    Refused,
}

/// A daemon's way to a session, and the events that it keeps. Contracts see what it knows, and what it waits for.
#[derive(Drop)]
pub struct Member {
    pub(crate) daemon: Daemon,
    pub(crate) entering: Entering,
    pub(crate) kept: Vec<Kept>,
}

impl Model for Member {
    ghost use Rattle.daemon_session.specs.SessionSteps.{member_in};
    ghost use Rattle.daemon_session.specs.Members.{Membership};

    ghost Value = { Membership };

    ghost view = { λ m. member_in m.daemon m.entering m.kept.items };
}

impl Member {
    /// It has no session and waits for nothing.
    pub fn new(alloc: Global, daemon: Daemon) -> Member
        ensures { result ≡ outside daemon }
    {
        Member {
            daemon,
            entering: Entering::Outside,
            kept: Vec::new(alloc),
        }
    }

    /// Drops what it knows and begins as at its start. It takes no memory.
    pub fn begin(&mut self) -> Act
        ensures new { self.new ≡ begun self.old.daemon }
        ensures act { result ≡ Dm first_id GetAllSessions }
    {
        self.kept.clear();
        self.entering = Entering::Listing;
        Act::Dm(Sid(0), DmCall::GetAllSessions)
    }

    /// The events that it keeps, in the order in which it was told of them.
    pub fn kept(&self) -> &[Kept]
        ensures { result.now ≡ self.now.seat.kept }
    {
        self.kept.as_slice()
    }

    /// Keeps the events of its kinds that a buffer of messages tells, behind those that it has. A buffer that isn't in the grammar tells none.
    pub fn keep(&mut self, buffer: &[u8]) -> Result<(), AllocError>
        ensures ok { OnOk result (self.new ≡ with_kept (self.old.seat.kept ++ events_in self.old.daemon buffer.now) self.old) }
        ensures err { OnErr result (self.new ≡ self.old) }
    {
        let alloc = *self.kept.allocator();
        keeping::keep(alloc, &mut self.kept, self.daemon, buffer)
    }

    /// Forgets the event of that token.
    pub fn forget(&mut self, token: Token)
        ensures { self.new ≡ with_kept (forgot token self.old.seat.kept) self.old }
    {
        keeping::forget(&mut self.kept, token);
    }

    /// The session that it has, on its way or at its end.
    pub fn sid(&self) -> Option<Sid>
        ensures { result ≡ self.now.seat.sid }
    {
        match self.entering {
            Entering::Outside
            | Entering::Listing
            | Entering::Querying { .. }
            | Entering::Making { .. } => None,
            Entering::Setting { sid, .. }
            | Entering::Recollecting { sid }
            | Entering::Finding { sid, .. }
            | Entering::Seated { sid } => Some(sid),
        }
    }

    /// Marks the events of that token.
    pub fn mark(&mut self, token: Token)
        ensures { self.new ≡ with_kept (marked_at token self.old.seat.kept) self.old }
    {
        keeping::mark(&mut self.kept, token);
    }

    /// Marks all of its events, or none.
    pub fn mark_all(&mut self, marked: bool)
        ensures { self.new ≡ with_kept (all_marked marked self.old.seat.kept) self.old }
    {
        keeping::mark_all(&mut self.kept, marked);
    }
}
