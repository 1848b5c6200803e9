//! Outstanding tokens and their messages.
ghost use Rattle.std.specs.Prelude.{◌≡◌, [], ◌∷◌, false, None, Some, IfOk, IfErr, IfSome, OnOk, OnErr, MatchOption, MatchResult, map};
ghost use Rattle.std.specs.Option.{option_copied};
ghost use Rattle.std.specs.List.Sorted.{IsStrictlyIncreasing};
ghost use Rattle.hsm_types.specs.Refusals.{first_refusal};
ghost use Rattle.hsm_types.specs.Messages.{IsMessage};
ghost use Rattle.hsm_types.specs.Sessions.{is_of_user, owner, outstanding_of, outstanding_message, tokens_of, dead_session, bad_token, responded};
ghost use Rattle.hsm_types.specs.declared.dm.DmRefusal.TheVariants.{Memory};

use crate::changes;
use crate::sessions::Sessions;
use hsm_types::{DmRefusal, Kind, Message, Sid, Token, Tokens};
use std::alloc::Global;

impl Sessions {
    /// The session to which the token is outstanding.
    fn owner(&self, token: Token) -> Option<Sid>
        ensures { result ≡ owner token self.now }
    {
        for (sid, session) in self.live.iter() {
            if session.holds(token) {
                return Some(*sid);
            }
        }
        None
    }

    /// The message of an outstanding token.
    pub fn find(&self, token: Token) -> Option<&Message>
        ensures found { option_copied result ≡ outstanding_message token self.now }
        ensures message { IfSome result (λ m. IsMessage m.now) }
    {
        for (_, session) in self.live.iter() {
            if let Some(message) = session.message(token) {
                return Some(message);
            }
        }
        None
    }

    /// Whether a token is outstanding to a live session, and if not why. It takes no memory.
    pub fn admit(&self, sid: Sid, token: Token) -> Result<(), DmRefusal>
        ensures { MatchResult result (λ _. first_refusal (dead_session sid self.now ∷ bad_token sid token self.now ∷ []) ≡ None)
            (λ why. first_refusal (dead_session sid self.now ∷ bad_token sid token self.now ∷ []) ≡ Some why) }
    {
        let Some(session) = self.live.get(&sid) else {
            return Err(DmRefusal::NoSession);
        };
        if session.holds(token) {
            return Ok(());
        }
        match self.owner(token) {
            Some(owner) => Err(DmRefusal::NotYours { owner }),
            None => Err(DmRefusal::NoToken),
        }
    }

    /// The tokens that are outstanding to a live session, in their order.
    pub fn tokens(&self, alloc: Global, sid: Sid) -> Result<Tokens, DmRefusal>
        ensures ok { OnOk result (dead_session sid self.now ≡ None) }
        ensures tokens { IfOk result (λ tokens. tokens ≡ tokens_of (outstanding_of sid self.now)) }
        ensures ascending { IfOk result (λ tokens. IsStrictlyIncreasing (map (λ token. token.0) tokens)) }
        ensures refused { IfErr result (λ why. MatchOption (dead_session sid self.now) (why ≡ Memory) (λ cause. why ≡ cause)) }
    {
        let Some(session) = self.live.get(&sid) else {
            return Err(DmRefusal::NoSession);
        };
        match session.tokens(alloc) {
            Ok(tokens) => Ok(tokens),
            Err(_) => Err(DmRefusal::Memory),
        }
    }

    /// Takes a token that is outstanding to a live session out of the outstanding ones. It takes no memory.
    pub fn answer(&mut self, sid: Sid, token: Token) -> Result<(), DmRefusal>
        ensures judged { MatchResult result (λ _. first_refusal (dead_session sid self.old ∷ bad_token sid token self.old ∷ []) ≡ None)
            (λ why. first_refusal (dead_session sid self.old ∷ bad_token sid token self.old ∷ []) ≡ Some why) }
        ensures after { OnOk result (self.new ≡ responded sid token self.old) }
        ensures err { OnErr result (self.new ≡ self.old) }
    {
        self.admit(sid, token)?;
        let message = changes::take_out(&mut self.live, sid, token);
        self.user_tokens -= u64::from(is_user_event(&message));
        Ok(())
    }
}

/// Whether it is the message of a user event.
fn is_user_event(message: &Option<Message>) -> bool
    ensures { MatchOption message.now (result ≡ false) (λ m. result ≡ is_of_user m.kind) }
{
    matches!(message, Some(message) if message.kind == Kind::User)
}
