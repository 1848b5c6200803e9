//! Events: what sessions take, what is posted and sent, and what is delivered.
ghost use Rattle.std.specs.Prelude.{◌≡◌, ◌≢◌, ◌≤◌, [], ◌∷◌, None, IfOk, OnOk, OnErr, Some, IfErr, MatchOption, MatchResult, length};
ghost use Rattle.std.specs.List.{All};
ghost use Rattle.hsm_types.specs.Refusals.{first_refusal};
ghost use Rattle.hsm_types.specs.Messages.{IsMessage, user_message};
ghost use Rattle.hsm_types.specs.Sessions.{IsNewToken, taker, queue_of, too_long, too_many_waiting};
ghost use Rattle.hsm_types.specs.Sessions.{dead_session, sending_refusal, event_refusal, with_kinds, posted, delivered, user_event, sent};
ghost use Rattle.hsm_types.specs.declared.dm.DmRefusal.TheVariants.{Memory};
ghost use Rattle.dm_sessions.specs.Tables.{none_waits};
ghost use Rattle.hsm_types.specs.declared.dm.Kind.TheVariants.{User};

use crate::changes;
use crate::live_session::LiveSession;
use crate::sessions::Sessions;
use hsm_types::{
    Bytes, DATA_BYTES, DmRefusal, Kind, Kinds, Message, Sid, Token, USER_EVENTS, WAITING_MESSAGES,
};
use std::alloc::AllocError;

impl Sessions {
    /// The session that takes events of that kind.
    pub fn taker(&self, kind: Kind) -> Option<Sid>
        ensures { result ≡ taker kind self.now }
    {
        for (sid, session) in self.live.iter() {
            if session.kinds().takes(kind) {
                return Some(*sid);
            }
        }
        None
    }

    /// Gives a live session these kinds and no others, and takes them from all others. The messages of these kinds that no session took join its queue.
    pub fn set_kinds(&mut self, sid: Sid, kinds: Kinds) -> Result<(), DmRefusal>
        ensures ok { OnOk result (dead_session sid self.old ≡ None) }
        ensures after { OnOk result (self.new ≡ with_kinds sid kinds self.old) }
        ensures refused { IfErr result (λ why. MatchOption (dead_session sid self.old) (why ≡ Memory) (λ cause. why ≡ cause)) }
        ensures err { OnErr result (self.new ≡ self.old) }
    {
        if !self.is_live(sid) {
            return Err(DmRefusal::NoSession);
        }
        changes::join(&mut self.live, sid, &mut self.unrouted, kinds).map_err(
            |_| DmRefusal::Memory,
        )?;
        changes::lose_kinds(&mut self.live, kinds);
        changes::set_kinds(&mut self.live, sid, kinds);
        Ok(())
    }

    /// Posts the message of an access, under a token above all that stand anywhere: to the session that takes its kind, or to none yet.
    pub fn post(&mut self, message: Message) -> Result<(), AllocError>
        requires message { IsMessage message }
        requires access { message.kind ≢ User }
        requires token { IsNewToken message.token self.old }
        ensures after { OnOk result (self.new ≡ posted message self.old) }
        ensures err { OnErr result (self.new ≡ self.old) }
    {
        match self.taker(message.kind) {
            Some(sid) => changes::push(&mut self.live, sid, message)?,
            None => self.unrouted.push_back(message)?,
        }
        Ok(())
    }

    /// Makes an event of a live session's own, which is outstanding to it at once, under a token above all that stand anywhere.
    pub fn user(&mut self, sid: Sid, token: Token, body: Bytes) -> Result<(), DmRefusal>
        requires { IsNewToken token self.old }
        ensures ok { OnOk result (first_refusal (dead_session sid self.old ∷ event_refusal body self.old ∷ []) ≡ None) }
        ensures after { OnOk result (self.new ≡ user_event sid token body self.old) }
        ensures refused { IfErr result (λ why. MatchOption (first_refusal (dead_session sid self.old ∷ event_refusal body self.old ∷ [])) (why ≡ Memory) (λ cause. why ≡ cause)) }
        ensures err { OnErr result (self.new ≡ self.old) }
    {
        self.judge_event(sid, &body)?;
        changes::put(&mut self.live, sid, user_message(token, body)).map_err(
            |_| DmRefusal::Memory,
        )?;
        self.user_tokens += 1;
        Ok(())
    }

    /// What refuses an event of a session's own, if anything does. It takes no memory.
    pub fn judge_event(&self, sid: Sid, body: &Bytes) -> Result<(), DmRefusal>
        ensures { MatchResult result (λ _. first_refusal (dead_session sid self.now ∷ event_refusal body.now self.now ∷ []) ≡ None)
            (λ why. first_refusal (dead_session sid self.now ∷ event_refusal body.now self.now ∷ []) ≡ Some why) }
    {
        if !self.is_live(sid) {
            return Err(DmRefusal::NoSession);
        }
        check_length(body)?;
        if self.user_tokens >= USER_EVENTS {
            return Err(DmRefusal::TooMany { count: USER_EVENTS });
        }
        Ok(())
    }

    /// Sends a message that wants no response from a live session to another one, or to itself.
    pub fn send(&mut self, sid: Sid, target: Sid, body: Bytes) -> Result<(), DmRefusal>
        ensures ok { OnOk result (first_refusal (dead_session sid self.old ∷ sending_refusal target body self.old ∷ []) ≡ None) }
        ensures after { OnOk result (self.new ≡ sent target body self.old) }
        ensures refused { IfErr result (λ why. MatchOption (first_refusal (dead_session sid self.old ∷ sending_refusal target body self.old ∷ [])) (why ≡ Memory) (λ cause. why ≡ cause)) }
        ensures err { OnErr result (self.new ≡ self.old) }
    {
        self.judge_sending(sid, target, &body)?;
        changes::push(&mut self.live, target, user_message(Token(0), body)).map_err(
            |_| DmRefusal::Memory,
        )?;
        Ok(())
    }

    /// What refuses to send a message, if anything does. It takes no memory.
    pub fn judge_sending(&self, sid: Sid, target: Sid, body: &Bytes) -> Result<(), DmRefusal>
        ensures { MatchResult result (λ _. first_refusal (dead_session sid self.now ∷ sending_refusal target body.now self.now ∷ []) ≡ None)
            (λ why. first_refusal (dead_session sid self.now ∷ sending_refusal target body.now self.now ∷ []) ≡ Some why) }
    {
        if !self.is_live(sid) {
            return Err(DmRefusal::NoSession);
        }
        match self.live.get(&target) {
            Some(session) => judge_message(session, body),
            None => Err(DmRefusal::NoSession),
        }
    }

    /// The undelivered messages of a live session, in order. It takes no memory.
    pub fn queue(&self, sid: Sid) -> Result<&[Message], DmRefusal>
        ensures queue { IfOk result (λ messages. messages.now ≡ queue_of sid self.now) }
        ensures some { IfOk result (λ messages. messages.now ≢ []) }
        ensures each { IfOk result (λ messages. All IsMessage messages.now) }
        ensures judged { MatchResult result (λ _. dead_session sid self.now ≡ None) (λ why. first_refusal (dead_session sid self.now ∷ none_waits (queue_of sid self.now) ∷ []) ≡ Some why) }
    {
        let Some(session) = self.live.get(&sid) else {
            return Err(DmRefusal::NoSession);
        };
        if session.queue().is_empty() {
            return Err(DmRefusal::Again);
        }
        Ok(session.queue())
    }

    /// Delivers the first `count` messages of a live session's queue. Those that want a response are outstanding then.
    pub fn deliver(&mut self, sid: Sid, count: usize) -> Result<(), DmRefusal>
        requires { count ≤ length (queue_of sid self.old) }
        ensures ok { OnOk result (dead_session sid self.old ≡ None) }
        ensures after { OnOk result (self.new ≡ delivered sid count self.old) }
        ensures refused { IfErr result (λ why. MatchOption (dead_session sid self.old) (why ≡ Memory) (λ cause. why ≡ cause)) }
        ensures err { OnErr result (self.new ≡ self.old) }
    {
        if !self.is_live(sid) {
            return Err(DmRefusal::NoSession);
        }
        changes::deliver(&mut self.live, sid, count).map_err(|_| DmRefusal::Memory)?;
        Ok(())
    }
}

/// Refuses a message that is too long.
fn check_length(body: &Bytes) -> Result<(), DmRefusal>
    ensures { MatchResult result (λ _. too_long body.now ≡ None) (λ why. too_long body.now ≡ Some why) }
{
    let len = body.as_slice().len();
    if len > DATA_BYTES {
        return Err(DmRefusal::TooMany { count: len as u64 });
    }
    Ok(())
}

/// What refuses a message more without a token in the session's queue, if anything does.
fn judge_message(session: &LiveSession, body: &Bytes) -> Result<(), DmRefusal>
    ensures { MatchResult result (λ _. first_refusal (too_long body.now ∷ too_many_waiting session.now.queue ∷ []) ≡ None)
        (λ why. first_refusal (too_long body.now ∷ too_many_waiting session.now.queue ∷ []) ≡ Some why) }
{
    check_length(body)?;
    if session.waiting() >= WAITING_MESSAGES {
        return Err(DmRefusal::TooMany {
            count: WAITING_MESSAGES,
        });
    }
    Ok(())
}

/// A session's own message.
fn user_message(token: Token, body: Bytes) -> Message
    ensures { result ≡ user_message token body }
{
    Message {
        kind: Kind::User,
        token,
        handle: None,
        offset: 0,
        length: 0,
        body,
    }
}
