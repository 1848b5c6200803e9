//! Callers of one thread, who take turns at making calls.

use hsm_types::{Bytes, Call, Reply, Word};
use std::alloc::{AllocError, Global};
use std::sync::Wait;
use std::thread;
use std::thread::Threads;

/// How many bytes a write or a read has.
const LEN: usize = 16;

/// The callers numbered from the first on, and how many calls they make together.
#[derive(Clone, Copy)]
pub(crate) struct Turns {
    pub(crate) first: u32,
    pub(crate) callers: u32,
    pub(crate) calls: u32,
}

/// Callers who take turns.
pub(crate) trait Callers {
    fn turns(&self) -> Turns;

    /// The caller whose turn it is makes the call. That is the one with this number.
    fn make<R: Wait>(&mut self, rt: &R, alloc: Global, number: u32, call: Call) -> Option<Reply>;
}

/// The call that the caller with that number makes in that turn of its own.
fn call_of(alloc: Global, number: u32, turn: u32) -> Result<Call, AllocError> {
    let letter = b'0' + (number % 64) as u8;
    let name = Word::from(vec![in alloc; letter; 1]?);
    Ok(match turn {
        0 => Call::Create { name },
        _ if turn % 2 == 1 => Call::Write {
            name,
            offset: 0,
            body: Bytes::from(vec![in alloc; letter; LEN]?),
        },
        _ => Call::Read {
            name,
            offset: 0,
            len: LEN as u64,
        },
    })
}

/// Makes the calls until one isn't done. How many were done.
pub(crate) fn make_all<C: Callers + Drop, R: Wait>(rt: &R, alloc: Global, mut callers: C) -> u32 {
    let Turns {
        first,
        callers: many,
        calls,
    } = callers.turns();
    if many == 0 {
        return 0;
    }
    for count in 0..calls {
        let number = first.saturating_add(count % many);
        let Ok(call) = call_of(alloc, number, count / many) else {
            return count;
        };
        match callers.make(rt, alloc, number, call) {
            Some(Reply::Made(_) | Reply::Done | Reply::Data(_)) => {}
            _ => return count,
        }
    }
    calls
}

/// Makes the calls of each of these in a thread of its own. How many were done.
pub(crate) fn make_beside<C: Callers + Send + Drop, R: Threads + Wait + Sync>(
    rt: &R,
    alloc: Global,
    threads: Vec<C>,
) -> Result<u32, AllocError> {
    let done = thread::map_vec(rt, threads, &|callers| make_all(rt, alloc, callers))?;
    let mut count: u32 = 0;
    for of_one in done {
        count = count.saturating_add(of_one);
    }
    Ok(count)
}
