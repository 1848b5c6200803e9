//! How far a pass is.
ghost use Rattle.std.specs.Prelude.{◌≡◌, ◌+◌, ◌<◌, ◌++◌, ◌∷◌, [], length, slice_get, Some, OnOk, OnErr, MatchOption, None};
ghost use Rattle.hsm_types.specs.Limits.{most_volumes};
ghost use Rattle.migrate_daemon.specs.Passes.{no_pass, begun_pass, skip_of};

use crate::skips::Skip;
use hsm_policy::{Picked, Picks};
use hsm_types::{DmReply, Heard, Sid};
use std::alloc::{AllocError, Global};
use std::marker::Model;

/// What a pass goes over, and how far it is.
#[derive(Drop)]
pub(crate) struct Progress {
    sid: Sid,
    picks: Picks,
    /// How many of the picks are done.
    at: usize,
    /// The lowest volume that it has not found full.
    volume: u32,
    skipped: Vec<Skip>,
    /// The answer at which it ended early.
    ended: Option<Heard>,
}

impl Model for Progress {
    ghost use Rattle.migrate_daemon.specs.Passes.{Pass};

    ghost Value = { Pass };

    ghost view = { λ p. record { sid = p.sid; picks = p.picks; at = p.at; volume = p.volume; skipped = p.skipped.items; ended = p.ended } };
}

impl Progress {
    /// That of no pass, which is over.
    pub(crate) fn none(alloc: Global) -> Progress
        ensures { result ≡ no_pass }
    {
        Progress {
            sid: Sid(0),
            picks: Picks::from(Vec::new(alloc)),
            at: 0,
            volume: 0,
            skipped: Vec::new(alloc),
            ended: None,
        }
    }

    /// Begins a pass at its first pick. It takes no memory.
    pub(crate) fn begin(&mut self, sid: Sid, picks: Picks)
        ensures { self.new ≡ begun_pass sid picks }
    {
        self.sid = sid;
        self.picks = picks;
        self.at = 0;
        self.volume = 0;
        self.skipped.clear();
        self.ended = None;
    }

    /// The session that makes its calls.
    pub(crate) fn sid(&self) -> Sid
        ensures { result ≡ self.now.sid }
    {
        self.sid
    }

    /// The segment at which it stands.
    pub(crate) fn pick(&self) -> Option<Picked>
        ensures { result ≡ slice_get self.now.picks self.now.at }
    {
        self.picks.as_slice().get(self.at).copied()
    }

    /// The lowest volume that it has not found full.
    pub(crate) fn volume(&self) -> u32
        ensures { result ≡ self.now.volume }
    {
        self.volume
    }

    /// The segments that it has left as they are.
    pub(crate) fn skipped(&self) -> &[Skip]
        ensures { result.now ≡ self.now.skipped }
    {
        self.skipped.as_slice()
    }

    /// The answer at which it ended early.
    pub(crate) fn ended(&self) -> Option<&Heard>
        ensures { MatchOption result (self.now.ended ≡ None) (λ told. self.now.ended ≡ Some told.now) }
    {
        self.ended.as_ref()
    }

    /// What its memory is from.
    pub(crate) fn allocator(&self) -> Global {
        *self.skipped.allocator()
    }

    /// It has done with the segment.
    pub(crate) fn advance(&mut self)
        requires { self.old.at < length self.old.picks }
        ensures { self.new ≡ record self.old { at = self.old.at + 1 } }
    {
        let _picks = self.picks.as_slice().len();
        self.at += 1;
    }

    /// Leaves the segment as it is, for the answer.
    pub(crate) fn skip(&mut self, pick: Picked, why: DmReply) -> Result<(), AllocError>
        requires { self.old.at < length self.old.picks }
        ensures ok { OnOk result (self.new ≡ record self.old { at = self.old.at + 1; skipped = self.old.skipped ++ skip_of pick why ∷ [] }) }
        ensures err { OnErr result (self.new ≡ self.old) }
    {
        let _picks = self.picks.as_slice().len();
        self.skipped.push(Skip {
            handle: pick.handle,
            segment: pick.segment,
            why,
        })?;
        self.at += 1;
        Ok(())
    }

    /// Ends early, at the answer.
    pub(crate) fn end(&mut self, told: Heard)
        ensures { self.new ≡ record self.old { ended = Some told } }
    {
        self.ended = Some(told);
    }

    /// Its volume is full, or not there.
    pub(crate) fn leave_volume(&mut self)
        requires { self.old.volume < most_volumes }
        ensures { self.new ≡ record self.old { volume = self.old.volume + 1 } }
    {
        self.volume += 1;
    }
}
