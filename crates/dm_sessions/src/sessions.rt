//! The table of the sessions.
ghost use Rattle.std.specs.Prelude.{◌≡◌, [], ◌∷◌, None, IfOk, IfErr, OnOk, OnErr, MatchOption, MatchResult, map};
ghost use Rattle.std.specs.Option.{option_copied, option_map};
ghost use Rattle.std.specs.List.Sorted.{IsStrictlyIncreasing};
ghost use Rattle.std.specs.Map.{keys_of};
ghost use Rattle.hsm_types.specs.Refusals.{first_refusal};
ghost use Rattle.hsm_types.specs.Sessions.{lives, info_of, session_of, creation_refusal, dead_session};
ghost use Rattle.hsm_types.specs.Sessions.{destruction_refusal, no_sessions, next_sid, with_session, without_session};
ghost use Rattle.hsm_types.specs.declared.dm.DmRefusal.TheVariants.{NoSession, EventsLeft, Memory};

use crate::live_session::LiveSession;
use hsm_types::{DmRefusal, INFO_BYTES, Kinds, LIVE_SESSIONS, Message, Sid, Sids, Word};
use indexmap::IndexMap;
use std::alloc::{AllocError, Global};
use std::collections::VecDeque;
use std::marker::Model;

/// The live sessions by id, in the order of their ids, and the messages of kinds that no session takes. An id is given once.
#[derive(Drop)]
pub struct Sessions {
    given: u64,
    pub(crate) live: IndexMap<Sid, LiveSession>,
    pub(crate) unrouted: VecDeque<Message>,
    /// How many tokens of user events are outstanding.
    pub(crate) user_tokens: u64,
}

impl Model for Sessions {
    ghost use Rattle.hsm_types.specs.Sessions.{SessionTable};
    ghost use Rattle.dm_sessions.specs.Tables.{IsTable};

    ghost Value = { SessionTable };

    ghost view = { λ s. record { given = s.given; live = s.live.entries; unrouted = s.unrouted.items } };

    ghost invariant = { λ s. IsTable (record { given = s.given; live = s.live.entries; unrouted = s.unrouted.items }) s.user_tokens };
}

impl Sessions {
    /// No session. It takes the room for as many as may live.
    pub fn new(alloc: Global) -> Result<Sessions, AllocError>
        ensures { IfOk result (λ s. s ≡ no_sessions) }
    {
        // One more, since room is made before an old session goes.
        let live = IndexMap::with_capacity(alloc, LIVE_SESSIONS + 1)?;
        Ok(Sessions {
            given: 0,
            live,
            unrouted: VecDeque::new(alloc),
            user_tokens: 0,
        })
    }

    /// Makes a session with the next id and that information: beside the others where `old` is 0, and else in the place of the session `old`, whose id ends.
    pub fn create(&mut self, old: Sid, info: Word) -> Result<Sid, DmRefusal>
        ensures made { IfOk result (λ sid. (creation_refusal old info self.old ≡ None) × (sid ≡ next_sid self.old)) }
        ensures after { OnOk result (self.new ≡ with_session old info self.old) }
        ensures refused { IfErr result (λ why. MatchOption (creation_refusal old info self.old) (why ≡ Memory) (λ cause. why ≡ cause)) }
        ensures err { OnErr result (self.new ≡ self.old) }
    {
        self.judge_creation(old, &info)?;
        let next = self.given.checked_add(1).ok_or(DmRefusal::Memory)?;
        self.live.reserve(1).map_err(|_| DmRefusal::Memory)?;
        let alloc = *self.live.allocator();
        let session = match self.live.shift_remove(&old) {
            Some(session) => session.with_info(info),
            None => LiveSession::new(alloc, info),
        };
        let _none = self.live.insert(Sid(next), session).unwrap();
        self.given = next;
        Ok(Sid(next))
    }

    /// What refuses the creation of a session, if anything does. It takes no memory.
    pub fn judge_creation(&self, old: Sid, info: &Word) -> Result<(), DmRefusal>
        ensures { MatchResult result (λ _. creation_refusal old info.now self.now ≡ None) (λ why. creation_refusal old info.now self.now ≡ Some why) }
    {
        if old.0 != 0 && !self.live.contains_key(&old) {
            return Err(DmRefusal::NoSession);
        }
        let len = info.as_slice().len();
        if len == 0 || len > INFO_BYTES {
            return Err(DmRefusal::TooMany { count: len as u64 });
        }
        if old.0 == 0 && self.live.len() >= LIVE_SESSIONS {
            return Err(DmRefusal::TooMany {
                count: LIVE_SESSIONS as u64,
            });
        }
        Ok(())
    }

    /// Ends a live session to which nothing is undelivered or outstanding. Its kinds are taken by none then. It takes no memory.
    pub fn destroy(&mut self, sid: Sid) -> Result<(), DmRefusal>
        ensures judged { MatchResult result (λ _. first_refusal (dead_session sid self.old ∷ destruction_refusal sid self.old ∷ []) ≡ None)
            (λ why. first_refusal (dead_session sid self.old ∷ destruction_refusal sid self.old ∷ []) ≡ Some why) }
        ensures after { OnOk result (self.new ≡ without_session sid self.old) }
        ensures err { OnErr result (self.new ≡ self.old) }
    {
        let count = match self.live.get(&sid) {
            Some(session) => session.message_count(),
            None => return Err(DmRefusal::NoSession),
        };
        if count > 0 {
            return Err(DmRefusal::EventsLeft { count });
        }
        let _ended = self.live.shift_remove(&sid);
        Ok(())
    }

    /// The ids of the live sessions.
    pub fn list(&self, alloc: Global) -> Result<Sids, AllocError>
        ensures ids { IfOk result (λ ids. ids ≡ keys_of self.now.live) }
        ensures ascending { IfOk result (λ ids. IsStrictlyIncreasing (map (λ sid. sid.0) ids)) }
    {
        let ids: Vec<Sid> = self.live.keys().copied().collect(alloc)?;
        Ok(Sids::from(ids))
    }

    /// Whether a session with that id lives.
    pub fn is_live(&self, sid: Sid) -> bool
        ensures { result ≡ lives sid self.now }
    {
        self.live.contains_key(&sid)
    }

    /// The information of a live session.
    pub fn info(&self, sid: Sid) -> Option<&Word>
        ensures { option_copied result ≡ info_of sid self.now }
    {
        match self.live.get(&sid) {
            Some(session) => Some(session.info()),
            None => None,
        }
    }

    /// The kinds that a live session takes.
    pub fn kinds(&self, sid: Sid) -> Option<Kinds>
        ensures { result ≡ option_map (λ s. s.kinds) (session_of sid self.now) }
    {
        match self.live.get(&sid) {
            Some(session) => Some(session.kinds()),
            None => None,
        }
    }
}
