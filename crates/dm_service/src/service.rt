//! The service itself, and what is asked of it.
ghost use Rattle.std.specs.Prelude.{◌≡◌, [], ◌∷◌, IfOk, OnOk};
ghost use Rattle.std.specs.Option.{option_copied};
ghost use Rattle.hsm_types.specs.Refusals.{first_refusal};
ghost use Rattle.hsm_types.specs.Sessions.{lives, dead_session};
ghost use Rattle.plain_model.specs.Services.{bad_given_token};
ghost use Rattle.plain_model.specs.Stands.{InOrder};
ghost use Rattle.plain_model.specs.Verdict.{is_taken};
ghost use Rattle.access_park.specs.Pending.{IsPark};
ghost use Rattle.dm_service.specs.Services.{HasOpenToken, Judges, entries_for, is_due, session_refusals};
ghost use Rattle.dm_service.specs.Tables.{AreNew, awaited_in, seen, waiting};

use crate::scope::{judge_given_token, judge_own_token, judge_scope};
use access_park::{Access, Park};
use dm_sessions::Sessions;
use hsm_types::{CallerId, DmCall, DmRefusal, Kind, Scope, Sid, Token};
use std::alloc::{AllocError, Global};
use std::marker::Model;
use token_rights::Rights;

/// The sessions with their messages and tokens, what tokens hold, and the accesses of callers that wait. Every token was given here. `seen` shows
/// it as a store.
#[derive(Drop)]
pub struct DmService {
    pub(crate) sessions: Sessions,
    /// How many tokens were given.
    pub(crate) tokens: u64,
    /// How many of them are open.
    pub(crate) open_tokens: usize,
    pub(crate) rights: Rights,
    pub(crate) park: Park,
}

impl Model for DmService {
    ghost use Rattle.dm_service.specs.Tables.{Tables, AreKept};

    ghost Value = { Tables };

    ghost view = { λ d. record { sessions = d.sessions; tokens = d.tokens; rights = d.rights; park = d.park } };

    ghost invariant = { λ d. AreKept (record { sessions = d.sessions; tokens = d.tokens; rights = d.rights; park = d.park }) d.open_tokens };
}

impl DmService {
    /// No session, and no access that waits. It takes the room for all accesses that may.
    pub fn new(alloc: Global) -> Result<DmService, AllocError>
        ensures { IfOk result (λ d. AreNew d) }
    {
        let sessions = Sessions::new(alloc)?;
        let park = Park::new(alloc)?;
        Ok(DmService {
            sessions,
            tokens: 0,
            open_tokens: 0,
            rights: Rights::new(alloc),
            park,
        })
    }

    /// Whether a session with that id lives.
    pub fn is_live(&self, sid: Sid) -> bool
        ensures { result ≡ lives sid self.now.sessions }
    {
        self.sessions.is_live(sid)
    }

    /// Whether a call of that session may go with that token: 0, for none, or one that is outstanding to it. It takes no memory.
    pub fn admit(&self, sid: Sid, token: Token) -> Result<(), DmRefusal>
        ensures { Judges result (first_refusal (dead_session sid self.now.sessions ∷ bad_given_token sid token self.now.sessions ∷ [])) }
    {
        judge_given_token(&self.sessions, sid, token)
    }

    /// What refuses a call of that scope by its session and its token, if anything does. It takes no memory.
    pub fn judge_scope(&self, sid: Sid, scope: Scope) -> Result<(), DmRefusal>
        ensures judged { Judges result (first_refusal (session_refusals self.now.sessions sid scope)) }
        ensures open { OnOk result (HasOpenToken self.now.sessions scope) }
    {
        judge_scope(&self.sessions, sid, scope)
    }

    /// Whether a session takes events of that kind.
    pub fn taken(&self, kind: Kind) -> bool
        ensures { result ≡ is_taken kind self.now.sessions }
    {
        self.sessions.taker(kind).is_some()
    }

    /// The access of the caller that waits.
    pub fn pending(&self, caller: CallerId) -> Option<&Access>
        ensures access { option_copied result ≡ waiting self.now caller }
        ensures park { IsPark (waiting self.now) }
        ensures ordered { InOrder (seen self.now) }
    {
        self.park.pending(caller)
    }

    /// How many responses and resumes may come for what is open and what waits. It costs a constant.
    pub fn awaited(&self) -> usize
        ensures count { result ≡ awaited_in self.now }
        ensures ordered { InOrder (seen self.now) }
    {
        self.open_tokens + self.park.waiting()
    }

    /// Whether it is a lawful response to a token that is outstanding to the session.
    pub fn is_due(&self, sid: Sid, call: &DmCall) -> bool
        ensures { result ≡ is_due self.now.sessions sid call.now }
    {
        match call {
            DmCall::Respond { token, response } => {
                response.is_lawful() && judge_own_token(&self.sessions, sid, *token).is_ok()
            }
            _ => false,
        }
    }

    /// For how many entries a session's call needs room, in a history that has room for all that is awaited.
    pub fn entries_for(&self, sid: Sid, call: &DmCall) -> usize
        ensures { result ≡ entries_for self.now.sessions sid call.now }
    {
        match call {
            DmCall::CreateUserEvent { .. } => 2,
            _ => usize::from(!self.is_due(sid, call)),
        }
    }
}
