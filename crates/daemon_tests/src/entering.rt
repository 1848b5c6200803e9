//! How a daemon comes to a session: what it does next, by what it hears, in each state and by each refusal.
ghost use Rattle.daemon_session.specs.Members.{IsOnWay};

use crate::answers::{REFUSALS, packed};
use crate::messages::{READ, THREE};
use daemon_session::{Member, Step};
use hsm_types::{
    Act, Daemon, DmCall, DmRefusal, DmReply, Heard, Kinds, Sid, Sids, Token, Tokens, Word,
};
use std::alloc::Global;

/// What a daemon hears.
#[derive(Clone, Copy)]
enum Told {
    /// Nothing of its call.
    Nothing,
    Done,
    Session(u64),
    Sids(&'static [Sid]),
    Info(&'static [u8]),
    Tokens(&'static [Token]),
    /// A buffer of messages.
    Packed,
    /// A buffer that isn't in the grammar.
    Garbled,
    Refused(DmRefusal),
}

/// What it does next.
#[derive(Clone, Copy, PartialEq, Eq)]
enum Next {
    List,
    /// Asks after that session.
    Query(u64),
    /// Asks for a session, in the place of that one.
    Make(u64),
    /// Sets the kinds of that session.
    Set(u64),
    /// Asks for the tokens of that session.
    Recollect(u64),
    /// Asks that session for the message of the token.
    Find(u64, u64),
    Seated(u64),
    Refused,
    /// Whatever else.
    Other,
}

/// No session lives.
const NONE: Told = Told::Sids(&[]);

/// The sessions 3 and 5 live.
const TWO: Told = Told::Sids(&[Sid(3), Sid(5)]);

const OTHERS: Told = Told::Info(b"HSM");

const OWN: Told = Told::Info(b"HSMRECALL");

/// The session 7 was made.
const MADE: Told = Told::Session(7);

/// The tokens 4 and 6 are outstanding.
const TOKENS: Told = Told::Tokens(&[Token(4), Token(6)]);

const LOST: Told = Told::Refused(DmRefusal::NoToken);

const NOT_OURS: Told = Told::Refused(DmRefusal::NotYours { owner: Sid(8) });

/// What a recall daemon has heard from its start on in each state.
const LISTING: &[Told] = &[];

const QUERYING: &[Told] = &[TWO];

const QUERYING_LAST: &[Told] = &[TWO, OTHERS];

const MAKING: &[Told] = &[NONE];

const ASSUMING: &[Told] = &[TWO, OWN];

const SETTING: &[Told] = &[NONE, MADE];

const SETTING_HEIR: &[Told] = &[TWO, OWN, MADE];

const RECOLLECTING: &[Told] = &[TWO, OWN, MADE, Told::Done];

const FINDING: &[Told] = &[TWO, OWN, MADE, Told::Done, TOKENS];

const FINDING_LAST: &[Told] = &[TWO, OWN, MADE, Told::Done, TOKENS, LOST];

const ENDED: &[Told] = &[TWO, Told::Refused(DmRefusal::NoSession)];

/// What it hears then, and what it does.
static ROWS: [(&[Told], Told, Next); 42] = [
    (LISTING, NONE, Next::Make(0)),
    (LISTING, TWO, Next::Query(3)),
    (LISTING, Told::Nothing, Next::List),
    (LISTING, Told::Done, Next::List),
    (LISTING, OWN, Next::List),
    (QUERYING, OTHERS, Next::Query(5)),
    (QUERYING, Told::Info(b"HSMMIGRATE"), Next::Query(5)),
    (QUERYING, Told::Info(b""), Next::Query(5)),
    (QUERYING, OWN, Next::Make(3)),
    (QUERYING, Told::Nothing, Next::List),
    (QUERYING, Told::Done, Next::List),
    (QUERYING, TWO, Next::List),
    (QUERYING_LAST, OTHERS, Next::Make(0)),
    (QUERYING_LAST, OWN, Next::Make(5)),
    (QUERYING_LAST, MADE, Next::List),
    (MAKING, MADE, Next::Set(7)),
    (MAKING, Told::Nothing, Next::List),
    (MAKING, Told::Done, Next::List),
    (ASSUMING, MADE, Next::Set(7)),
    (ASSUMING, TWO, Next::List),
    (SETTING, Told::Done, Next::Seated(7)),
    (SETTING, Told::Nothing, Next::Set(7)),
    (SETTING, MADE, Next::Set(7)),
    (SETTING_HEIR, Told::Done, Next::Recollect(7)),
    (SETTING_HEIR, Told::Nothing, Next::Set(7)),
    (SETTING_HEIR, TOKENS, Next::Set(7)),
    (RECOLLECTING, TOKENS, Next::Find(7, 4)),
    (RECOLLECTING, Told::Tokens(&[]), Next::Seated(7)),
    (RECOLLECTING, Told::Nothing, Next::Recollect(7)),
    (RECOLLECTING, Told::Done, Next::Recollect(7)),
    (FINDING, Told::Packed, Next::Find(7, 6)),
    (FINDING, Told::Garbled, Next::Find(7, 6)),
    (FINDING, Told::Nothing, Next::Find(7, 4)),
    (FINDING, Told::Done, Next::Find(7, 4)),
    (FINDING, TOKENS, Next::Find(7, 4)),
    (FINDING_LAST, Told::Packed, Next::Seated(7)),
    (FINDING_LAST, LOST, Next::Seated(7)),
    (FINDING_LAST, NOT_OURS, Next::Seated(7)),
    (FINDING_LAST, Told::Nothing, Next::Find(7, 6)),
    (ENDED, TWO, Next::Query(3)),
    (ENDED, NONE, Next::Make(0)),
    (ENDED, Told::Nothing, Next::List),
];

/// What it does where it is refused what it asked: by `TooMany`, as the token isn't outstanding to its session, and by any other cause but
/// `NoSession`.
static REFUSED: [(&[Told], Next, Next, Next); 10] = [
    (LISTING, Next::List, Next::List, Next::List),
    (QUERYING, Next::List, Next::List, Next::List),
    (QUERYING_LAST, Next::List, Next::List, Next::List),
    (MAKING, Next::Refused, Next::List, Next::List),
    (ASSUMING, Next::Refused, Next::List, Next::List),
    (SETTING, Next::Set(7), Next::Set(7), Next::Set(7)),
    (SETTING_HEIR, Next::Set(7), Next::Set(7), Next::Set(7)),
    (
        RECOLLECTING,
        Next::Recollect(7),
        Next::Recollect(7),
        Next::Recollect(7),
    ),
    (
        FINDING,
        Next::Find(7, 4),
        Next::Find(7, 6),
        Next::Find(7, 4),
    ),
    (
        FINDING_LAST,
        Next::Find(7, 6),
        Next::Seated(7),
        Next::Find(7, 6),
    ),
];

/// These three give `None` for want of memory, and so does `heard`.
fn sids(alloc: Global, ids: &[Sid]) -> Option<DmReply> {
    Some(DmReply::Sids(Sids::from(ids.to_vec(alloc).ok()?)))
}

fn info(alloc: Global, bytes: &[u8]) -> Option<DmReply> {
    Some(DmReply::Info(Word::from(bytes.to_vec(alloc).ok()?)))
}

fn tokens(alloc: Global, tokens: &[Token]) -> Option<DmReply> {
    Some(DmReply::Tokens(Tokens::from(tokens.to_vec(alloc).ok()?)))
}

fn heard(alloc: Global, told: Told) -> Option<Heard> {
    let reply = match told {
        Told::Nothing => return Some(Heard::Nothing),
        Told::Done => Some(DmReply::Done),
        Told::Session(sid) => Some(DmReply::Session(Sid(sid))),
        Told::Sids(ids) => sids(alloc, ids),
        Told::Info(bytes) => info(alloc, bytes),
        Told::Tokens(all) => tokens(alloc, all),
        Told::Packed => packed(alloc, &READ),
        Told::Garbled => packed(alloc, b"?"),
        Told::Refused(why) => Some(DmReply::Refused(why)),
    };
    Some(Heard::Dm(reply?))
}

fn recall_kinds() -> Kinds {
    Kinds {
        read: true,
        write: true,
        truncate: true,
        no_space: false,
    }
}

/// What that call is, of that session.
fn called(sid: u64, call: &DmCall) -> Next {
    match (sid, call) {
        (0, DmCall::GetAllSessions) => Next::List,
        (0, DmCall::QuerySession { target }) => Next::Query(target.0),
        (0, DmCall::CreateSession { old, info }) if info.as_slice() == b"HSMRECALL".as_slice() => {
            Next::Make(old.0)
        }
        (_, DmCall::SetDisp { kinds }) if *kinds == recall_kinds() => Next::Set(sid),
        (_, DmCall::GetAllTokens) => Next::Recollect(sid),
        (_, DmCall::FindEventMsg { token, room }) if *room == 65_536 => Next::Find(sid, token.0),
        _ => Next::Other,
    }
}

fn next_of(step: &Step) -> Next {
    match step {
        Step::Asks(Act::Dm(sid, call)) => called(sid.0, call),
        Step::Asks(_) => Next::Other,
        Step::Seated(sid) => Next::Seated(sid.0),
        Step::Refused => Next::Refused,
    }
}

/// What it does when it hears that after these. `None` for want of memory, and where it waits for nothing before the end.
fn follow(member: &mut Member, alloc: Global, before: &[Told], last: Told) -> Option<Next>
    requires { IsOnWay member.old.asked }
{
    for told in before {
        match member.go_on(heard(alloc, *told)?).ok()? {
            Step::Asks(_) => {}
            _ => return None,
        }
    }
    let step = member.go_on(heard(alloc, last)?).ok()?;
    Some(next_of(&step))
}

/// What a recall daemon does that hears this from its start on.
fn last_step(alloc: Global, before: &[Told], last: Told) -> Option<Next> {
    let mut member = Member::new(alloc, Daemon::Recall);
    let _list = member.begin();
    follow(&mut member, alloc, before, last)
}

#[test]
fn goes_on_by_what_it_hears(rt: HostRuntime) {
    for (place, (before, last, want)) in ROWS.iter().enumerate() {
        let next = last_step(rt.alloc(), before, *last);
        assert!(rt; next == Some(*want), "row {place}");
    }
}

#[test]
fn goes_on_by_what_refuses_it(rt: HostRuntime) {
    for (place, (before, too_many, lost, otherwise)) in REFUSED.iter().enumerate() {
        for (number, why) in REFUSALS.iter().enumerate() {
            let want = match why {
                DmRefusal::NoSession => Next::List,
                DmRefusal::TooMany { .. } => *too_many,
                DmRefusal::NoToken | DmRefusal::NotYours { .. } => *lost,
                _ => *otherwise,
            };
            let next = last_step(rt.alloc(), before, Told::Refused(*why));
            assert!(rt; next == Some(want), "row {place}, refusal {number}");
        }
    }
}

/// The tokens of the events that it keeps.
fn has_kept(member: &Member, tokens: &[u64]) -> bool {
    member
        .kept()
        .iter()
        .map(|kept| kept.event.token.0)
        .eq(tokens.iter().copied())
}

#[test]
fn keeps_events_of_its_kinds(rt: HostRuntime) {
    let mut recall = Member::new(rt.alloc(), Daemon::Recall);
    assert!(rt;
        recall.keep(&THREE).is_ok() && recall.keep(b"?").is_ok(),
        "recall"
    );
    assert!(rt; has_kept(&recall, &[1, 3]), "recall keeps");
    recall.mark(Token(3));
    recall.forget(Token(1));
    assert!(rt; has_kept(&recall, &[3]), "recall forgets");
    assert!(rt;
        recall.kept().iter().all(|kept| kept.marked),
        "recall marks"
    );
    recall.mark_all(false);
    assert!(rt;
        !recall.kept().iter().any(|kept| kept.marked),
        "none is marked"
    );
    let mut migrate = Member::new(rt.alloc(), Daemon::Migrate);
    assert!(rt; migrate.keep(&THREE).is_ok(), "migrate");
    assert!(rt; has_kept(&migrate, &[]), "migrate keeps");
}
