//! A daemon's steps on its way to a session.
ghost use Rattle.std.specs.Prelude.{◌≡◌, List, drop, IfOk, OnErr};
ghost use Rattle.hsm_types.specs.declared.keys.Sid.{Sid};
ghost use Rattle.hsm_types.specs.declared.keys.Token.{Token};
ghost use Rattle.hsm_types.specs.declared.daemons.Act.TheVariants.{Dm};
ghost use Rattle.hsm_types.specs.declared.daemons.Heard.TheVariants as Heard;
ghost use Rattle.hsm_types.specs.declared.dm.DmReply.TheVariants.{Refused};
ghost use Rattle.daemon_session.specs.declared.entering.Entering.TheVariants.{Listing, Making, Setting, Recollecting};
ghost use Rattle.daemon_session.specs.declared.members.Step.TheVariants.{Asks};
ghost use Rattle.daemon_session.specs.SessionSteps.{member_in, IsQuerying, IsFinding, Queries, QueriesNext, FindsNext, Makes};
ghost use Rattle.daemon_session.specs.Members.{begun, asked_in, IsOnWay, Enters};

use crate::entering::Entering;
use crate::members::{Member, Step};
use hsm_types::{
    Act, BUFFER_BYTES as ROOM, DmCall, DmRefusal, DmReply, Heard, Sid, Sids, Token, Tokens, Word,
};
use std::alloc::AllocError;
use std::mem;

fn asks(sid: Sid, call: DmCall) -> Step
    ensures { result ≡ Asks (Dm sid call) }
{
    Step::Asks(Act::Dm(sid, call))
}

impl Member {
    /// What it does when it hears the answer to what it asked. An error changes nothing, and the answer is lost.
    pub fn go_on(&mut self, told: Heard) -> Result<Step, AllocError>
        requires { IsOnWay self.old.asked }
        ensures ok { IfOk result (λ next. Enters self.old told next self.new) }
        ensures err { OnErr result (self.new ≡ self.old) }
    {
        match self.entering {
            Entering::Listing => self.on_listing(told),
            Entering::Querying { target, .. } => self.on_querying(target, told),
            Entering::Making { old } => Ok(self.on_making(old, told)),
            Entering::Setting { sid, assumed } => Ok(self.on_setting(sid, assumed, told)),
            Entering::Recollecting { sid } => Ok(self.on_recollecting(sid, told)),
            Entering::Finding { sid, token, .. } => self.on_finding(sid, token, told),
            Entering::Outside | Entering::Seated { .. } => Ok(self.begin_anew()),
        }
    }

    fn begin_anew(&mut self) -> Step
        ensures next { result ≡ Asks (asked_in self.old.daemon Listing) }
        ensures new { self.new ≡ begun self.old.daemon }
    {
        Step::Asks(self.begin())
    }

    /// Asks for a session, which takes memory for the information.
    fn make(&mut self, old: Sid) -> Result<Step, AllocError>
        ensures ok { IfOk result (λ next. Makes old self.old next self.new) }
        ensures err { OnErr result (self.new ≡ self.old) }
    {
        let alloc = *self.kept.allocator();
        let info = Word::from(Vec::from_slice(alloc, self.daemon.information())?);
        self.kept.clear();
        self.entering = Entering::Making { old };
        Ok(asks(Sid(0), DmCall::CreateSession { old, info }))
    }

    fn on_listing(&mut self, told: Heard) -> Result<Step, AllocError>
        requires { self.old ≡ member_in self.old.daemon Listing self.old.seat.kept }
        ensures ok { IfOk result (λ next. Enters self.old told next self.new) }
        ensures err { OnErr result (self.new ≡ self.old) }
    {
        match told {
            Heard::Dm(DmReply::Sids(ids)) => self.query(ids),
            _ => Ok(self.begin_anew()),
        }
    }

    /// Asks after the first of the sessions, or for a new one where there is none.
    fn query(&mut self, ids: Sids) -> Result<Step, AllocError>
        ensures ok { IfOk result (λ next. Queries ids self.old next self.new) }
        ensures err { OnErr result (self.new ≡ self.old) }
    {
        let Some(target) = ids.as_slice().first().copied() else {
            return self.make(Sid(0));
        };
        self.entering = Entering::Querying { target, ids, at: 1 };
        Ok(asks(Sid(0), DmCall::QuerySession { target }))
    }

    fn on_querying(&mut self, target: Sid, told: Heard) -> Result<Step, AllocError>
        requires { (rest : List Sid) × IsQuerying target rest self.old }
        ensures ok { IfOk result (λ next. Enters self.old told next self.new) }
        ensures err { OnErr result (self.new ≡ self.old) }
    {
        let Heard::Dm(DmReply::Info(info)) = told else {
            return Ok(self.begin_anew());
        };
        if info.as_slice() == self.daemon.information() {
            return self.make(target);
        }
        match self.query_next() {
            Some(target) => Ok(asks(Sid(0), DmCall::QuerySession { target })),
            None => self.make(Sid(0)),
        }
    }

    /// The session that it asks after next, where there is one.
    fn query_next(&mut self) -> Option<Sid>
        ensures { (target : Sid) (rest : List Sid) → IsQuerying target rest self.old → QueriesNext rest self.old result self.new }
    {
        let Entering::Querying { target, ids, at } = &mut self.entering else {
            return None;
        };
        let next = *ids.as_slice().get(*at)?;
        *target = next;
        *at += 1;
        Some(next)
    }

    fn on_making(&mut self, old: Sid, told: Heard) -> Step
        requires { self.old ≡ member_in self.old.daemon (Making old) self.old.seat.kept }
        ensures { Enters self.old told result self.new }
    {
        match told {
            Heard::Dm(DmReply::Session(sid)) => {
                let assumed = old.0 != 0;
                self.kept.clear();
                self.entering = Entering::Setting { sid, assumed };
                let kinds = self.daemon.kinds();
                asks(sid, DmCall::SetDisp { kinds })
            }
            Heard::Dm(DmReply::Refused(why)) => self.on_refused_session(old, why),
            _ => self.begin_anew(),
        }
    }

    fn on_refused_session(&mut self, old: Sid, why: DmRefusal) -> Step
        requires { self.old ≡ member_in self.old.daemon (Making old) self.old.seat.kept }
        ensures { Enters self.old (Heard.Dm (Refused why)) result self.new }
    {
        match why {
            DmRefusal::TooMany { .. } => {
                self.entering = Entering::Outside;
                Step::Refused
            }
            _ => self.begin_anew(),
        }
    }

    fn on_setting(&mut self, sid: Sid, assumed: bool, told: Heard) -> Step
        requires { self.old ≡ member_in self.old.daemon (Setting sid assumed) self.old.seat.kept }
        ensures { Enters self.old told result self.new }
    {
        match told {
            Heard::Dm(DmReply::Done) if assumed => {
                self.entering = Entering::Recollecting { sid };
                asks(sid, DmCall::GetAllTokens)
            }
            Heard::Dm(DmReply::Done) => {
                self.entering = Entering::Seated { sid };
                Step::Seated(sid)
            }
            Heard::Dm(DmReply::Refused(DmRefusal::NoSession)) => self.begin_anew(),
            _ => {
                let kinds = self.daemon.kinds();
                asks(sid, DmCall::SetDisp { kinds })
            }
        }
    }

    fn on_recollecting(&mut self, sid: Sid, told: Heard) -> Step
        requires { self.old ≡ member_in self.old.daemon (Recollecting sid) self.old.seat.kept }
        ensures { Enters self.old told result self.new }
    {
        match told {
            Heard::Dm(DmReply::Tokens(tokens)) => self.find(sid, tokens, 0),
            Heard::Dm(DmReply::Refused(DmRefusal::NoSession)) => self.begin_anew(),
            _ => asks(sid, DmCall::GetAllTokens),
        }
    }

    /// Asks for the message of the token at that place, or has the session where there is none.
    fn find(&mut self, sid: Sid, tokens: Tokens, at: usize) -> Step
        ensures { FindsNext sid (drop at tokens) self.old result self.new }
    {
        let Some(token) = tokens.as_slice().get(at).copied() else {
            self.entering = Entering::Seated { sid };
            return Step::Seated(sid);
        };
        let at = at + 1;
        self.entering = Entering::Finding {
            sid,
            token,
            tokens,
            at,
        };
        asks(sid, DmCall::FindEventMsg { token, room: ROOM })
    }

    /// The same with the tokens that are left.
    fn find_next(&mut self, sid: Sid) -> Step
        ensures { (token : Token) (rest : List Token) → IsFinding sid token rest self.old → FindsNext sid rest self.old result self.new }
    {
        match mem::replace(&mut self.entering, Entering::Outside) {
            Entering::Finding { tokens, at, .. } => self.find(sid, tokens, at),
            _ => self.begin_anew(),
        }
    }

    fn on_finding(&mut self, sid: Sid, token: Token, told: Heard) -> Result<Step, AllocError>
        requires { (rest : List Token) × IsFinding sid token rest self.old }
        ensures ok { IfOk result (λ next. Enters self.old told next self.new) }
        ensures err { OnErr result (self.new ≡ self.old) }
    {
        match told {
            Heard::Dm(DmReply::Packed { bytes, .. }) => {
                self.keep(bytes.as_slice())?;
                Ok(self.find_next(sid))
            }
            Heard::Dm(DmReply::Refused(why)) => Ok(self.on_refused_message(sid, token, why)),
            _ => Ok(asks(sid, DmCall::FindEventMsg { token, room: ROOM })),
        }
    }

    fn on_refused_message(&mut self, sid: Sid, token: Token, why: DmRefusal) -> Step
        requires { (rest : List Token) × IsFinding sid token rest self.old }
        ensures { Enters self.old (Heard.Dm (Refused why)) result self.new }
    {
        match why {
            DmRefusal::NoToken | DmRefusal::NotYours { .. } => self.find_next(sid),
            DmRefusal::NoSession => self.begin_anew(),
            _ => asks(sid, DmCall::FindEventMsg { token, room: ROOM }),
        }
    }
}
