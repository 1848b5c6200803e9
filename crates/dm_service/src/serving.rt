//! The calls of sessions on the service.
ghost use Rattle.std.specs.Prelude.{◌≡◌, ◌+◌, ◌≤◌, [], ◌∷◌, true, None, IfOk, OnOk, OnErr, IsOk};
ghost use Rattle.hsm_types.specs.Refusals.{first_refusal};
ghost use Rattle.hsm_types.specs.Messages.{packed, handed_out};
ghost use Rattle.hsm_types.specs.Sessions.{dead_session, queue_of, tokens_of, none_fits, bad_response, creation_refusal, next_sid};
ghost use Rattle.hsm_types.specs.declared.keys.Sid.{Sid};
ghost use Rattle.hsm_types.specs.declared.dm.DmCall.TheVariants.{CreateSession, CreateUserEvent, GetEvents, Respond};
ghost use Rattle.plain_model.specs.State.{noted};
ghost use Rattle.plain_model.specs.Services.{bad_own_token, dm_state_where};
ghost use Rattle.dm_service.specs.Tables.{awaited_in, seen};
ghost use Rattle.dm_service.specs.Handing.{HandsOut};
ghost use Rattle.dm_service.specs.Services.{any_superblock, asks_tables, entries_for, is_due, IsServedByTables, Judges, JudgesOrLacks};

use crate::calls::serve;
use crate::messages;
use crate::replies::{ended, refused};
use crate::scope::judge_own_token;
use crate::service::DmService;
use crate::tokens::next_token;
use hsm_types::{Bytes, DmCall, DmRefusal, DmReply, Packed, Response, Sid, Token, Word};
use std::alloc::{AllocError, Global};

impl DmService {
    /// Answers a session's call, with the reply twice, for the session and for the history. A response that is due takes no memory.
    pub fn dm(
        &mut self,
        alloc: Global,
        sid: Sid,
        call: &DmCall,
    ) -> Result<(DmReply, DmReply), AllocError>
        requires { asks_tables call.now ≡ true }
        ensures served { IsServedByTables self.old sid call.now result self.new }
        ensures packed { IfOk result (λ r. HandsOut self.old.sessions sid call.now r.0) }
        ensures responds { is_due self.old.sessions sid call.now ≡ true → IsOk result }
        ensures room { awaited_in self.new + 1 ≤ awaited_in self.old + entries_for self.old.sessions sid call.now }
    {
        match call {
            DmCall::Respond { token, response } => {
                Ok(ended(self.respond(sid, *token, response)))
            }
            DmCall::CreateUserEvent { body } => self.make_event(sid, body),
            _ => serve(&mut self.sessions, alloc, sid, call),
        }
    }

    /// Makes a session in the place of the session `old`, or beside the others where that is 0. For callers in threads: no crate calls it yet.
    pub fn assume(&mut self, old: Sid, info: Word) -> Result<Sid, DmRefusal>
        ensures judged { JudgesOrLacks result (creation_refusal old info self.old.sessions) }
        ensures made { IfOk result (λ sid. sid ≡ next_sid self.old.sessions) }
        ensures after { (sid : Sid) → OnOk result (noted (seen self.new) ≡ dm_state_where None any_superblock (seen self.old) sid (CreateSession old info)) }
        ensures err { OnErr result (self.new ≡ self.old) }
        ensures counted { awaited_in self.new ≡ awaited_in self.old }
    {
        self.sessions.create(old, info)
    }

    /// Hands out what fits of the session's messages into so many bytes, at most `max` of them, or without a bound where that is 0.
    pub fn deliver(
        &mut self,
        alloc: Global,
        sid: Sid,
        max: u32,
        room: u32,
    ) -> Result<Packed, DmRefusal>
        ensures judged { JudgesOrLacks result (first_refusal (dead_session sid self.old.sessions ∷ none_fits room (queue_of sid self.old.sessions) ∷ [])) }
        ensures bytes { IfOk result (λ p. p.bytes ≡ packed (handed_out max room (queue_of sid self.old.sessions))) }
        ensures tokens { IfOk result (λ p. p.tokens ≡ tokens_of (handed_out max room (queue_of sid self.old.sessions))) }
        ensures after { OnOk result (noted (seen self.new) ≡ dm_state_where None any_superblock (seen self.old) sid (GetEvents max room)) }
        ensures err { OnErr result (self.new ≡ self.old) }
        ensures counted { awaited_in self.new ≡ awaited_in self.old }
    {
        messages::deliver(&mut self.sessions, alloc, sid, max, room)
    }

    /// Responds to a token that is outstanding to the session, which has no right any more then. The response reaches the access that waits for it. It
    /// takes no memory.
    pub fn respond(&mut self, sid: Sid, token: Token, response: &Response) -> Result<(), DmRefusal>
        ensures judged { Judges result (first_refusal (dead_session sid self.old.sessions ∷ bad_own_token sid token self.old.sessions ∷ bad_response response.now ∷ [])) }
        ensures after { OnOk result (noted (seen self.new) ≡ dm_state_where None any_superblock (seen self.old) sid (Respond token response.now)) }
        ensures err { OnErr result (self.new ≡ self.old) }
        ensures counted { OnOk result (awaited_in self.new + 1 ≡ awaited_in self.old) }
    {
        if let Err(why) = judge_own_token(&self.sessions, sid, token) {
            return Err(why);
        }
        if !response.is_lawful() {
            return Err(DmRefusal::BadResponse);
        }
        let open_tokens = self.open_tokens;
        self.sessions.answer(sid, token)?;
        self.open_tokens = open_tokens - 1;
        self.rights.end(token);
        let _caller = self.park.answer(token, *response);
        Ok(())
    }

    /// Makes an event of the session's own, with the reply twice.
    fn make_event(&mut self, sid: Sid, body: &Bytes) -> Result<(DmReply, DmReply), AllocError>
        ensures served { IsServedByTables self.old sid (CreateUserEvent body.now) result self.new }
        ensures room { awaited_in self.new ≤ awaited_in self.old + 1 }
    {
        if let Err(why) = self.sessions.judge_event(sid, body) {
            return Ok(refused(why));
        }
        let open_tokens = self.open_tokens;
        let token = next_token(self.tokens)?;
        let copy = body.clone()?;
        match self.sessions.user(sid, token, copy) {
            Ok(()) => {
                self.tokens = token.0;
                self.open_tokens = open_tokens + 1;
                Ok((DmReply::Token(token), DmReply::Token(token)))
            }
            // Nothing else refuses it.
            Err(_) => Err(AllocError),
        }
    }
}
