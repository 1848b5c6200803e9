//! Sessions that take the place of others, sessions that end, and what waits for them, in a table without a store.
use dm_sessions::Sessions;
use hsm_types::{Bytes, DmRefusal, Sid, Word};
use std::alloc::Global;

/// What is done with a table of sessions.
#[derive(Clone, Copy)]
enum Step {
    /// In the place of that session, and with that information.
    Create(u64, &'static [u8]),
    /// As many as may live.
    Fill,
    Destroy(u64),
    /// A message to itself.
    Send(u64),
    /// So many of what waits for it.
    Deliver(u64, usize),
    /// How many messages wait for it.
    Count(u64),
}

/// The id that was made, ended or named, or a count, or what refused it.
type Answer = Result<u64, DmRefusal>;

const NEW: Step = Step::Create(0, b"new");
/// In the place of the first session.
const HEIR: Step = Step::Create(1, b"heir");

const GONE: Answer = Err(DmRefusal::NoSession);

const NO_INFORMATION: Answer = Err(DmRefusal::TooMany { count: 0 });

const NOTHING: Answer = Err(DmRefusal::Again);

const ONE_LEFT: Answer = Err(DmRefusal::EventsLeft { count: 1 });

const FULL: Answer = Err(DmRefusal::TooMany { count: 64 });

/// Steps on a new table, and what the last one is answered.
static ROWS: [(&[Step], Answer); 21] = [
    (&[NEW, NEW, Step::Destroy(2)], Ok(2)),
    (&[NEW, NEW, Step::Destroy(2), Step::Destroy(1)], Ok(1)),
    (&[NEW, Step::Destroy(1), Step::Destroy(1)], GONE),
    (&[Step::Destroy(0)], GONE),
    (&[NEW, NEW, Step::Destroy(2), NEW], Ok(3)),
    (&[NEW, NEW, HEIR], Ok(3)),
    (&[NEW, NEW, HEIR, Step::Destroy(1)], GONE),
    (&[NEW, NEW, HEIR, Step::Destroy(2)], Ok(2)),
    (&[NEW, NEW, HEIR, Step::Destroy(3)], Ok(3)),
    (&[NEW, NEW, HEIR, HEIR], GONE),
    (&[Step::Create(1, b"")], GONE),
    (&[NEW, Step::Create(1, b"")], NO_INFORMATION),
    (&[NEW, Step::Create(1, b""), Step::Destroy(1)], Ok(1)),
    (&[Step::Fill, NEW], FULL),
    (&[Step::Fill, HEIR], Ok(65)),
    (&[Step::Fill, Step::Destroy(64), NEW], Ok(65)),
    (&[NEW, Step::Count(1)], NOTHING),
    (
        &[NEW, Step::Send(1), Step::Send(1), HEIR, Step::Count(2)],
        Ok(2),
    ),
    (&[NEW, Step::Send(1), HEIR, Step::Count(1)], GONE),
    (
        &[
            NEW,
            Step::Send(1),
            Step::Send(1),
            HEIR,
            Step::Deliver(2, 1),
            Step::Destroy(2),
        ],
        ONE_LEFT,
    ),
    (
        &[
            NEW,
            Step::Send(1),
            HEIR,
            Step::Deliver(2, 1),
            Step::Destroy(2),
        ],
        Ok(2),
    ),
];

/// `None` for want of memory.
fn create(sessions: &mut Sessions, alloc: Global, old: u64, info: &[u8]) -> Option<Answer> {
    let info = Word::from(info.to_vec(alloc).ok()?);
    match sessions.create(Sid(old), info) {
        Ok(sid) => Some(Ok(sid.0)),
        Err(why) => Some(Err(why)),
    }
}

fn fill(sessions: &mut Sessions, alloc: Global) -> Option<Answer> {
    let mut last = GONE;
    for _ in 0..64 {
        last = create(sessions, alloc, 0, b"new")?;
    }
    Some(last)
}

fn destroy(sessions: &mut Sessions, sid: u64) -> Answer {
    sessions.destroy(Sid(sid))?;
    Ok(sid)
}

/// `None` for want of memory.
fn send(sessions: &mut Sessions, alloc: Global, sid: u64) -> Option<Answer> {
    let body = Bytes::from(b"note".to_vec(alloc).ok()?);
    match sessions.send(Sid(sid), Sid(sid), body) {
        Ok(()) => Some(Ok(sid)),
        Err(why) => Some(Err(why)),
    }
}

fn count(sessions: &Sessions, sid: u64) -> Answer {
    Ok(sessions.queue(Sid(sid))?.len() as u64)
}

/// At most so many.
fn deliver(sessions: &mut Sessions, sid: u64, most: usize) -> Answer {
    let count = sessions.queue(Sid(sid))?.len().min(most);
    sessions.deliver(Sid(sid), count)?;
    Ok(sid)
}

fn take(sessions: &mut Sessions, alloc: Global, step: Step) -> Option<Answer> {
    match step {
        Step::Create(old, info) => create(sessions, alloc, old, info),
        Step::Fill => fill(sessions, alloc),
        Step::Destroy(sid) => Some(destroy(sessions, sid)),
        Step::Send(sid) => send(sessions, alloc, sid),
        Step::Deliver(sid, most) => Some(deliver(sessions, sid, most)),
        Step::Count(sid) => Some(count(sessions, sid)),
    }
}

fn follow(sessions: &mut Sessions, alloc: Global, steps: &[Step]) -> Option<Answer> {
    let mut last = GONE;
    for step in steps {
        last = take(sessions, alloc, *step)?;
    }
    Some(last)
}

/// What a new table answers last to these steps.
fn last_answer(alloc: Global, steps: &[Step]) -> Option<Answer> {
    let mut sessions = Sessions::new(alloc).ok()?;
    follow(&mut sessions, alloc, steps)
}

#[test]
fn take_over_and_end(rt: HostRuntime) {
    for (place, (steps, want)) in ROWS.iter().enumerate() {
        assert!(rt;
            last_answer(rt.alloc(), steps) == Some(*want),
            "row {place}"
        );
    }
}
