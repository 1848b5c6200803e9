//! How the recall daemon serves events: what it does next, by what it hears, in each state and by each refusal, and after how many acts it rests.

use crate::answers::{REFUSALS, packed};
use hsm_types::{
    Act, Bytes, Digest, DmCall, DmRefusal, DmReply, Fault, FetchRefusal, FileKey, Fingerprint,
    Handle, Heard, MediaCause, Place, Response, Right, Segment, Segments, Sid, Sids, StubEntry,
    Token, Verified,
};
use recall_daemon::Recaller;
use std::alloc::Global;

/// What the daemon hears.
#[derive(Clone, Copy)]
enum Told {
    /// Nothing of its act.
    Nothing,
    Done,
    /// That no session lives.
    Alone,
    /// The session 7 was made.
    Made,
    /// A buffer of messages.
    Packed(&'static [u8]),
    /// The size of the file.
    Size(u64),
    Segments(&'static [Held]),
    Refused(DmRefusal),
    Fetched,
    /// A fetch was refused as the drive failed.
    Failed,
    /// It was refused as the bytes are others.
    Damaged,
    /// It was refused as the object is missing.
    Lost,
    /// It was refused for want of memory.
    NoMemory,
}

/// What it does next. The number is the token, but in a fetch, where it is the object.
#[derive(Clone, Copy, PartialEq, Eq)]
enum Next {
    List,
    Make,
    Set,
    /// Asks for events.
    Ask,
    Request(u64),
    Measure(u64),
    Map(u64),
    Fetch(u32),
    /// Restores the segment of that number.
    Restore(u64, u32),
    Continue(u64),
    Abort(u64, u32),
    /// Ends the access, as the drive failed.
    Failed(u64),
    /// Ends the access, as the bytes are others.
    Damaged(u64),
    Rest,
    /// Asks for events, and serves the event in the next round.
    PutOff,
    /// Asks for events, and doesn't serve the event again.
    Forget,
    /// Whatever else.
    Other,
}

/// A read of three bytes from the first one, by token 1, of the file 1.1.1.
const READ: &[u8] = &[
    0, 0, 0, 0, 0, 0, 0, 1, 0, 0, 0, 0, 0, 0, 0, 1, 0, 0, 0, 40, 0, 0, 0, 0, 0, 0, 0, 0, 0, 0, 0,
    1, 0, 0, 0, 0, 0, 0, 0, 1, 0, 0, 0, 0, 0, 0, 0, 1, 0, 0, 0, 0, 0, 0, 0, 0, 0, 0, 0, 0, 0, 0, 0,
    3,
];

/// The same read, `hello` by token 2, and a truncate to 258 bytes by token 3.
const THREE: &[u8] = &[
    0, 0, 0, 64, 0, 0, 0, 1, 0, 0, 0, 0, 0, 0, 0, 1, 0, 0, 0, 40, 0, 0, 0, 0, 0, 0, 0, 0, 0, 0, 0,
    1, 0, 0, 0, 0, 0, 0, 0, 1, 0, 0, 0, 0, 0, 0, 0, 1, 0, 0, 0, 0, 0, 0, 0, 0, 0, 0, 0, 0, 0, 0, 0,
    3, 0, 0, 0, 32, 0, 0, 0, 5, 0, 0, 0, 0, 0, 0, 0, 2, 0, 0, 0, 5, 0, 0, 0, 0, 104, 101, 108, 108,
    111, 0, 0, 0, 0, 0, 0, 0, 0, 0, 0, 3, 0, 0, 0, 0, 0, 0, 0, 3, 0, 0, 0, 40, 0, 0, 0, 0, 0, 0, 0,
    0, 0, 0, 0, 1, 0, 0, 0, 0, 0, 0, 0, 1, 0, 0, 0, 0, 0, 0, 0, 1, 0, 0, 0, 0, 0, 0, 1, 2, 0, 0, 0,
    0, 0, 0, 0, 0,
];

/// A read of two segments by token 1, of the same file.
const LONG: &[u8] = &[
    0, 0, 0, 0, 0, 0, 0, 1, 0, 0, 0, 0, 0, 0, 0, 1, 0, 0, 0, 40, 0, 0, 0, 0, 0, 0, 0, 0, 0, 0, 0,
    1, 0, 0, 0, 0, 0, 0, 0, 1, 0, 0, 0, 0, 0, 0, 0, 1, 0, 0, 0, 0, 0, 0, 0, 0, 0, 0, 0, 0, 0, 2, 0,
    0,
];

const FILE: Handle = Handle {
    fsid: 1,
    key: FileKey { ino: 1, igen: 1 },
};

const PRINT: Fingerprint = Fingerprint {
    len: 3,
    digest: Digest([0; 32]),
};

const OTHER_PRINT: Fingerprint = Fingerprint {
    len: 4,
    digest: Digest([0; 32]),
};

/// What is held of a segment: its bytes in so many blocks, bytes and the entry of that object, or the entry alone.
#[derive(Clone, Copy)]
enum Held {
    Resident(u32),
    Sealed(u32),
    Away(u32),
}

const FIRST: u32 = 4;

const SECOND: u32 = 5;

const READ_TOLD: Told = Told::Packed(READ);

const THREE_TOLD: Told = Told::Packed(THREE);

const LONG_TOLD: Told = Told::Packed(LONG);

const GARBLED: Told = Told::Packed(b"?");

const SMALL: Told = Told::Size(3);

const BIG: Told = Told::Size(131_072);

const AWAY: Told = Told::Segments(&[Held::Away(FIRST)]);

const BOTH_AWAY: Told = Told::Segments(&[Held::Away(FIRST), Held::Away(SECOND)]);

const THERE: Told = Told::Segments(&[Held::Resident(1)]);

const NO_MORE: Told = Told::Refused(DmRefusal::Again);

const TOO_MANY: Told = Told::Refused(DmRefusal::TooMany { count: 64 });

const GONE: Told = Told::Refused(DmRefusal::NoSession);

const BUSY: Told = Told::Refused(DmRefusal::Busy { token: Token(9) });

/// What it has heard from its start on in each state.
const OUTSIDE: &[Told] = &[Told::Alone, TOO_MANY];

const ASKING: &[Told] = &[Told::Alone, Told::Made, Told::Done];

const RESTING: &[Told] = &[Told::Alone, Told::Made, Told::Done, NO_MORE];

const REQUESTING: &[Told] = &[Told::Alone, Told::Made, Told::Done, READ_TOLD];

const MEASURING: &[Told] = &[Told::Alone, Told::Made, Told::Done, READ_TOLD, Told::Done];

const MAPPING: &[Told] = &[
    Told::Alone,
    Told::Made,
    Told::Done,
    READ_TOLD,
    Told::Done,
    SMALL,
];

const FETCHING: &[Told] = &[
    Told::Alone,
    Told::Made,
    Told::Done,
    READ_TOLD,
    Told::Done,
    SMALL,
    AWAY,
];

const RESTORING: &[Told] = &[
    Told::Alone,
    Told::Made,
    Told::Done,
    READ_TOLD,
    Told::Done,
    SMALL,
    AWAY,
    Told::Fetched,
];

const RESPONDING: &[Told] = &[
    Told::Alone,
    Told::Made,
    Told::Done,
    READ_TOLD,
    Told::Done,
    SMALL,
    THERE,
];

/// It rests, and the read is put off.
const RESTING_OVER: &[Told] = &[
    Told::Alone,
    Told::Made,
    Told::Done,
    READ_TOLD,
    BUSY,
    NO_MORE,
];

/// It serves the read, and keeps the truncate.
const REQUESTING_TWO: &[Told] = &[Told::Alone, Told::Made, Told::Done, THREE_TOLD];

const RESPONDING_TWO: &[Told] = &[
    Told::Alone,
    Told::Made,
    Told::Done,
    THREE_TOLD,
    Told::Done,
    SMALL,
    THERE,
];

/// It serves the truncate, and the read is put off.
const MAPPING_LATER: &[Told] = &[
    Told::Alone,
    Told::Made,
    Told::Done,
    THREE_TOLD,
    BUSY,
    Told::Done,
    BIG,
];

/// It serves the read of two segments.
const MAPPING_LONG: &[Told] = &[
    Told::Alone,
    Told::Made,
    Told::Done,
    LONG_TOLD,
    Told::Done,
    BIG,
];

const RESTORING_LONG: &[Told] = &[
    Told::Alone,
    Told::Made,
    Told::Done,
    LONG_TOLD,
    Told::Done,
    BIG,
    BOTH_AWAY,
    Told::Fetched,
];

const FETCHING_LAST: &[Told] = &[
    Told::Alone,
    Told::Made,
    Told::Done,
    LONG_TOLD,
    Told::Done,
    BIG,
    BOTH_AWAY,
    Told::Fetched,
    Told::Done,
];

/// What it hears then, and what it does.
static ROWS: [(&[Told], Told, Next); 63] = [
    (OUTSIDE, Told::Nothing, Next::List),
    (RESTING, Told::Nothing, Next::Ask),
    (RESTING_OVER, Told::Nothing, Next::Request(1)),
    (ASKING, READ_TOLD, Next::Request(1)),
    (ASKING, THREE_TOLD, Next::Request(1)),
    (ASKING, GARBLED, Next::Ask),
    (ASKING, Told::Done, Next::Ask),
    (ASKING, Told::Nothing, Next::Ask),
    (REQUESTING, Told::Done, Next::Measure(1)),
    (REQUESTING, SMALL, Next::PutOff),
    (REQUESTING, AWAY, Next::PutOff),
    (REQUESTING, READ_TOLD, Next::PutOff),
    (REQUESTING, Told::Nothing, Next::PutOff),
    (REQUESTING_TWO, Told::Done, Next::Measure(1)),
    (REQUESTING_TWO, BUSY, Next::Request(3)),
    (REQUESTING_TWO, Told::Nothing, Next::Request(3)),
    (MEASURING, SMALL, Next::Map(1)),
    (MEASURING, Told::Size(0), Next::Map(1)),
    (MEASURING, Told::Done, Next::PutOff),
    (MEASURING, AWAY, Next::PutOff),
    (MEASURING, READ_TOLD, Next::PutOff),
    (MEASURING, Told::Nothing, Next::PutOff),
    (MAPPING, AWAY, Next::Fetch(4)),
    (MAPPING, BOTH_AWAY, Next::Fetch(4)),
    (MAPPING, THERE, Next::Continue(1)),
    (MAPPING, Told::Segments(&[]), Next::Continue(1)),
    (
        MAPPING,
        Told::Segments(&[Held::Sealed(FIRST), Held::Away(SECOND)]),
        Next::Continue(1),
    ),
    (MAPPING, Told::Done, Next::PutOff),
    (MAPPING, SMALL, Next::PutOff),
    (MAPPING, Told::Nothing, Next::PutOff),
    (MAPPING_LATER, AWAY, Next::Fetch(4)),
    (MAPPING_LATER, THERE, Next::Continue(3)),
    (MAPPING_LONG, BOTH_AWAY, Next::Fetch(4)),
    (
        MAPPING_LONG,
        Told::Segments(&[Held::Resident(64), Held::Away(SECOND)]),
        Next::Fetch(5),
    ),
    (FETCHING, Told::Fetched, Next::Restore(1, 0)),
    (FETCHING, Told::Failed, Next::Failed(1)),
    (FETCHING, Told::Damaged, Next::Damaged(1)),
    (FETCHING, Told::Lost, Next::Abort(1, 2)),
    (FETCHING, Told::NoMemory, Next::Fetch(4)),
    (FETCHING, Told::Done, Next::Fetch(4)),
    (FETCHING, GONE, Next::Fetch(4)),
    (FETCHING, Told::Nothing, Next::Fetch(4)),
    (FETCHING_LAST, Told::Fetched, Next::Restore(1, 1)),
    (FETCHING_LAST, Told::Failed, Next::Failed(1)),
    (FETCHING_LAST, Told::Damaged, Next::Damaged(1)),
    (FETCHING_LAST, Told::Lost, Next::Abort(1, 2)),
    (FETCHING_LAST, Told::NoMemory, Next::Fetch(5)),
    (FETCHING_LAST, Told::Nothing, Next::Fetch(5)),
    (RESTORING, Told::Done, Next::Continue(1)),
    (RESTORING, SMALL, Next::PutOff),
    (RESTORING, AWAY, Next::PutOff),
    (RESTORING, Told::Nothing, Next::PutOff),
    (RESTORING_LONG, Told::Done, Next::Fetch(5)),
    (RESTORING_LONG, BUSY, Next::PutOff),
    (RESTORING_LONG, Told::Nothing, Next::PutOff),
    (RESPONDING, Told::Done, Next::Forget),
    (RESPONDING, SMALL, Next::PutOff),
    (RESPONDING, READ_TOLD, Next::PutOff),
    (RESPONDING, Told::Nothing, Next::PutOff),
    (RESPONDING_TWO, Told::Done, Next::Request(3)),
    (RESPONDING_TWO, BUSY, Next::Request(3)),
    (RESPONDING_TWO, Told::Nothing, Next::Request(3)),
    (RESPONDING_TWO, GONE, Next::List),
];

/// What it does where it is refused what it asked: as the file is gone, as the token isn't outstanding to its session, as there is no space, as nothing
/// is undelivered, and for any other cause but that the session is gone.
static REFUSED: [(&[Told], [Next; 5]); 8] = [
    (
        ASKING,
        [Next::Ask, Next::Ask, Next::Ask, Next::Rest, Next::Ask],
    ),
    (
        REQUESTING,
        [
            Next::Continue(1),
            Next::Forget,
            Next::PutOff,
            Next::PutOff,
            Next::PutOff,
        ],
    ),
    (
        REQUESTING_TWO,
        [
            Next::Continue(1),
            Next::Request(3),
            Next::Request(3),
            Next::Request(3),
            Next::Request(3),
        ],
    ),
    (
        MEASURING,
        [
            Next::Continue(1),
            Next::Forget,
            Next::PutOff,
            Next::PutOff,
            Next::PutOff,
        ],
    ),
    (
        MAPPING,
        [
            Next::Continue(1),
            Next::Forget,
            Next::PutOff,
            Next::PutOff,
            Next::PutOff,
        ],
    ),
    (
        RESTORING,
        [
            Next::Continue(1),
            Next::Forget,
            Next::Abort(1, 28),
            Next::PutOff,
            Next::PutOff,
        ],
    ),
    (
        RESTORING_LONG,
        [
            Next::Continue(1),
            Next::Forget,
            Next::Abort(1, 28),
            Next::PutOff,
            Next::PutOff,
        ],
    ),
    (
        RESPONDING,
        [
            Next::PutOff,
            Next::Forget,
            Next::PutOff,
            Next::PutOff,
            Next::PutOff,
        ],
    ),
];

/// The place of that object.
fn place(object: u32) -> Place {
    Place { volume: 0, object }
}

/// The entry of that object.
fn entry_of(object: u32) -> StubEntry {
    StubEntry::new(place(object), PRINT)
}

fn segment(held: Held) -> Segment {
    match held {
        Held::Resident(blocks) => Segment::Resident { blocks },
        Held::Sealed(object) => Segment::Sealed {
            blocks: 1,
            entry: entry_of(object),
        },
        Held::Away(object) => Segment::Offline {
            entry: entry_of(object),
        },
    }
}

/// `None` for want of memory.
fn allocated(alloc: Global, all: &[Held]) -> Option<DmReply> {
    let mut segments = Vec::new(alloc);
    for held in all {
        segments.push(segment(*held)).ok()?;
    }
    Some(DmReply::Alloc(Segments::from(segments)))
}

/// What it hears of a call. `None` for want of memory, and of no call.
fn answered(alloc: Global, told: Told) -> Option<DmReply> {
    match told {
        Told::Done => Some(DmReply::Done),
        Told::Alone => Some(DmReply::Sids(Sids::from(Vec::new(alloc)))),
        Told::Made => Some(DmReply::Session(Sid(7))),
        Told::Packed(bytes) => packed(alloc, bytes),
        Told::Size(size) => Some(DmReply::Attr {
            size,
            stamp: 1,
            blocks: 1,
        }),
        Told::Segments(all) => allocated(alloc, all),
        Told::Refused(why) => Some(DmReply::Refused(why)),
        _ => None,
    }
}

/// Why a fetch was refused, where it was.
fn why_not_fetched(told: Told) -> Option<FetchRefusal> {
    match told {
        Told::Failed => Some(FetchRefusal::Media(MediaCause::failed(place(FIRST), 0, 1))),
        Told::Damaged => {
            let cause = MediaCause::damaged(place(FIRST), PRINT, OTHER_PRINT);
            Some(FetchRefusal::Media(cause))
        }
        Told::Lost => Some(FetchRefusal::NoObject {
            volume: 0,
            object: 4,
        }),
        Told::NoMemory => Some(FetchRefusal::Memory),
        _ => None,
    }
}

/// `None` for want of memory.
fn fetched(alloc: Global) -> Option<Heard> {
    let bytes = Bytes::from(b"abc".to_vec(alloc).ok()?);
    Some(Heard::Fetched(Ok(Verified::of(bytes))))
}

/// What it hears. `None` for want of memory.
fn heard(alloc: Global, told: Told) -> Option<Heard> {
    if let Some(why) = why_not_fetched(told) {
        return Some(Heard::Fetched(Err(why)));
    }
    match told {
        Told::Nothing => Some(Heard::Nothing),
        Told::Fetched => fetched(alloc),
        _ => answered(alloc, told).map(|reply| Heard::Dm(reply)),
    }
}

/// The end of the access by that fault.
fn faulted(token: u64, fault: Fault) -> Next {
    match fault {
        Fault::Failed { .. } => Next::Failed(token),
        Fault::Damaged { .. } => Next::Damaged(token),
    }
}

/// What that response to the token is.
fn responded(token: u64, response: Response) -> Next {
    match response {
        Response::Continue => Next::Continue(token),
        Response::Abort(error) => Next::Abort(token, error),
        Response::Media(cause) => faulted(token, cause.fault()),
    }
}

/// What that call of the session 7 is.
fn called(call: &DmCall) -> Next {
    match call {
        DmCall::SetDisp { .. } => Next::Set,
        DmCall::GetEvents { max, room } if *max == 0 && *room == 65_536 => Next::Ask,
        DmCall::RequestRight {
            token,
            handle,
            right: Right::Excl,
        } if *handle == FILE => Next::Request(token.0),
        DmCall::GetFileAttr { token, handle } if *handle == FILE => Next::Measure(token.0),
        DmCall::GetAllocInfo { token, handle } if *handle == FILE => Next::Map(token.0),
        DmCall::Restore {
            token,
            handle,
            segment,
            bytes,
        } if *handle == FILE && bytes.as_slice() == b"abc".as_slice() => {
            Next::Restore(token.0, *segment)
        }
        DmCall::Respond { token, response } => responded(token.0, *response),
        _ => Next::Other,
    }
}

fn next_of(act: &Act) -> Next {
    match act {
        Act::Dm(Sid(0), DmCall::GetAllSessions) => Next::List,
        Act::Dm(Sid(0), DmCall::CreateSession { .. }) => Next::Make,
        Act::Dm(Sid(7), call) => called(call),
        Act::Fetch { entry } => Next::Fetch(entry.place().object),
        Act::Idle => Next::Rest,
        _ => Next::Other,
    }
}

/// What it does when it hears that. `None` for want of memory.
fn step(recall: &mut Recaller, alloc: Global, told: Told) -> Option<Next> {
    let act = recall.next(heard(alloc, told)?).ok()?;
    Some(next_of(&act))
}

/// What it does at last when it hears these, one behind the other. `None` for want of memory.
fn hear_all(recall: &mut Recaller, alloc: Global, told: &[Told]) -> Option<Next> {
    let mut next = Next::Other;
    for one in told {
        next = step(recall, alloc, *one)?;
    }
    Some(next)
}

/// The daemon that hears this from its start on. `None` for want of memory.
fn follow(alloc: Global, before: &[Told]) -> Option<Recaller> {
    let mut recall = Recaller::start(alloc);
    let _list = step(&mut recall, alloc, Told::Nothing)?;
    let _next = hear_all(&mut recall, alloc, before)?;
    Some(recall)
}

/// What became of an event that it serves no more, when it has asked for events: that shows in the next round. `None` for want of memory.
fn left_event(recall: &mut Recaller, alloc: Global) -> Option<Next> {
    let next = hear_all(recall, alloc, &[NO_MORE, Told::Nothing])?;
    Some(match next {
        Next::Request(1) => Next::PutOff,
        Next::Ask => Next::Forget,
        _ => Next::Other,
    })
}

/// Whether it does that when it hears this from its start on.
fn does(alloc: Global, before: &[Told], last: Told, want: Next) -> Option<bool> {
    let mut recall = follow(alloc, before)?;
    let next = step(&mut recall, alloc, last)?;
    Some(match want {
        Next::PutOff | Next::Forget => {
            next == Next::Ask && left_event(&mut recall, alloc)? == want
        }
        _ => next == want,
    })
}

#[test]
fn goes_on_by_what_it_hears(rt: HostRuntime) {
    for (place, (before, last, want)) in ROWS.iter().enumerate() {
        let done = does(rt.alloc(), before, *last, *want);
        assert!(rt; done == Some(true), "row {place}");
    }
}

/// What it does by that refusal.
fn refused(why: &DmRefusal, wants: &[Next; 5]) -> Next {
    match why {
        DmRefusal::NoSession => Next::List,
        DmRefusal::NoObject => wants[0],
        DmRefusal::NoToken | DmRefusal::NotYours { .. } => wants[1],
        DmRefusal::NoSpace { .. } => wants[2],
        DmRefusal::Again => wants[3],
        _ => wants[4],
    }
}

#[test]
fn goes_on_by_what_refuses_it(rt: HostRuntime) {
    for (place, (before, wants)) in REFUSED.iter().enumerate() {
        for (number, why) in REFUSALS.iter().enumerate() {
            let done = does(rt.alloc(), before, Told::Refused(*why), refused(why, wants));
            assert!(rt; done == Some(true), "row {place}, refusal {number}");
        }
    }
}

/// Every state.
static STATES: [&[Told]; 16] = [
    OUTSIDE,
    ASKING,
    RESTING,
    REQUESTING,
    MEASURING,
    MAPPING,
    FETCHING,
    RESTORING,
    RESPONDING,
    RESTING_OVER,
    REQUESTING_TWO,
    RESPONDING_TWO,
    MAPPING_LATER,
    MAPPING_LONG,
    RESTORING_LONG,
    FETCHING_LAST,
];

/// How many acts it makes at most before it rests: six for each of two events with a segment that is away, and one that asks for more.
const MOST: usize = 13;

/// Whatever it may hear, but for the refusals.
static ANSWERS: [Told; 14] = [
    Told::Nothing,
    Told::Done,
    Told::Alone,
    Told::Made,
    READ_TOLD,
    GARBLED,
    SMALL,
    AWAY,
    BOTH_AWAY,
    THERE,
    Told::Fetched,
    Told::Failed,
    Told::Lost,
    Told::NoMemory,
];

/// The answer that lets it go on: each call is done, and the one segment of each file is away.
fn lets_on(next: Next) -> Told {
    match next {
        Next::List => Told::Alone,
        Next::Make => Told::Made,
        Next::Ask => NO_MORE,
        Next::Measure(_) => SMALL,
        Next::Map(_) => AWAY,
        Next::Fetch(_) => Told::Fetched,
        _ => Told::Done,
    }
}

/// How many acts it makes before it rests, from that act on, where each answer lets it go on. `None` for want of memory, and for more than `MOST`.
fn acts_to_rest(recall: &mut Recaller, alloc: Global, first: Next) -> Option<usize> {
    let mut next = first;
    for acts in 0..=MOST {
        if next == Next::Rest {
            return Some(acts);
        }
        next = step(recall, alloc, lets_on(next))?;
    }
    None
}

/// How many acts it makes before it rests, where it hears this from its start on, and then what lets it go on.
fn acts_after(alloc: Global, before: &[Told], last: Told) -> Option<usize> {
    let mut recall = follow(alloc, before)?;
    let next = step(&mut recall, alloc, last)?;
    acts_to_rest(&mut recall, alloc, next)
}

#[test]
fn rests_after_what_it_hears(rt: HostRuntime) {
    for (place, before) in STATES.iter().enumerate() {
        for (number, told) in ANSWERS.iter().enumerate() {
            let acts = acts_after(rt.alloc(), before, *told);
            assert!(rt; acts.is_some(), "state {place}, answer {number}");
        }
    }
}

#[test]
fn rests_after_what_refuses_it(rt: HostRuntime) {
    for (place, before) in STATES.iter().enumerate() {
        for (number, why) in REFUSALS.iter().enumerate() {
            let acts = acts_after(rt.alloc(), before, Told::Refused(*why));
            assert!(rt; acts.is_some(), "state {place}, refusal {number}");
        }
    }
}

/// What it hears then, and how many acts it makes before it rests.
static ROUNDS: [(&[Told], Told, usize); 8] = [
    (OUTSIDE, Told::Nothing, 4),
    (RESTING, Told::Nothing, 1),
    (RESTING_OVER, Told::Nothing, 7),
    (ASKING, NO_MORE, 0),
    (ASKING, READ_TOLD, 7),
    (ASKING, THREE_TOLD, 13),
    (MAPPING_LONG, BOTH_AWAY, 6),
    (RESPONDING, GONE, 4),
];

#[test]
fn takes_so_many_acts(rt: HostRuntime) {
    for (place, (before, last, want)) in ROUNDS.iter().enumerate() {
        let acts = acts_after(rt.alloc(), before, *last);
        assert!(rt; acts == Some(*want), "row {place}");
    }
}
