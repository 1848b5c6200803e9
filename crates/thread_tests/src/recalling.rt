//! A caller whose access waits, in a thread of its own, while recall is stepped in another: its answer has the bytes that were fetched.
ghost use Rattle.std.specs.Prelude.{◌≡◌, ◌≤◌, [], true, Some, IfSome};
ghost use Rattle.call_seats.specs.Passes.{new_pass, new_passes};

use crate::stores::{create, new_store, read, two_of, write};
use call_seats::{Desk, Pass, Passes, Pen};
use disk_model::SureDisk;
use hsm_core::Hsm;
use hsm_threads::{Named, Shared};
use hsm_types::{
    ALL_FLAGS, Act, Bytes, DmCall, FileKey, Fingerprint, Handle, Heard, Place, Region, Regions,
    Reply, Sid, StubEntry, Token, Verified, Word,
};
use recall_daemon::Recaller;
use std::alloc::{AllocError, Global};
use std::marker::Brand;
use std::sync::Wait;
use std::test::Fail;
use std::thread;
use std::thread::Threads;

/// The file's name is this letter, and its bytes are three of it.
const LETTER: u8 = b'a';

const LEN: usize = 3;

const HANDLE: Handle = Handle {
    fsid: 1,
    key: FileKey { ino: 1, igen: 1 },
};

const NO_TOKEN: Token = Token(0);

/// The copy of the file's bytes.
fn entry() -> StubEntry {
    let place = Place {
        volume: 0,
        object: 0,
    };
    StubEntry::new(place, Fingerprint::of(b"aaa"))
}

/// The calls by which a session puts the file offline.
fn punching(alloc: Global) -> Result<Vec<(Sid, DmCall)>, AllocError> {
    let all = Region {
        offset: 0,
        size: 0,
        flags: ALL_FLAGS,
    };
    let mut calls = Vec::new(alloc);
    calls.push((
        Sid(0),
        DmCall::CreateSession {
            old: Sid(0),
            info: Word::from(vec![in alloc; b'm'; 1]?),
        },
    ))?;
    calls.push((
        Sid(1),
        DmCall::SetRegion {
            token: NO_TOKEN,
            handle: HANDLE,
            regions: Regions::from(vec![in alloc; all; 1]?),
        },
    ))?;
    calls.push((
        Sid(1),
        DmCall::Seal {
            token: NO_TOKEN,
            handle: HANDLE,
            segment: 0,
            entry: entry(),
        },
    ))?;
    calls.push((
        Sid(1),
        DmCall::PunchHole {
            token: NO_TOKEN,
            handle: HANDLE,
            offset: 0,
            len: 0,
        },
    ))?;
    Ok(calls)
}

/// The caller creates the file and writes it.
fn fill<N: Named<SureDisk>, R: Wait>(
    rt: &R,
    alloc: Global,
    shared: &Shared<SureDisk, N>,
    pass: Pass,
) -> Option<Pass>
    requires table { pass.table ≡ N.table }
    requires caller { (1 ≤ pass.number) × (pass.number ≤ shared.now.callers) }
    ensures { IfSome result (λ back. (back.table ≡ N.table) × (back.number ≡ pass.number)) }
{
    let make = create(alloc, LETTER).ok()?;
    let fill = write(alloc, LETTER, LEN).ok()?;
    let (_, pass) = shared.call(rt, alloc, pass, make);
    let (_, pass) = shared.call(rt, alloc, pass, fill);
    Some(pass)
}

/// A session puts it offline.
fn punch<N: Named<SureDisk>, R: Wait>(
    rt: &R,
    alloc: Global,
    shared: &Shared<SureDisk, N>,
    mut pass: Pass,
) -> Option<Pass>
    requires { pass.table ≡ N.table }
    ensures { IfSome result (λ back. back.table ≡ N.table) }
{
    for (sid, call) in punching(alloc).ok()? {
        let (_, back) = shared.dm(rt, alloc, pass, sid, call);
        pass = back;
    }
    Some(pass)
}

/// Whether the caller, which reads the file, is given its bytes.
fn reads<N: Named<SureDisk>, R: Wait>(
    rt: &R,
    alloc: Global,
    shared: &Shared<SureDisk, N>,
    pass: Pass,
) -> bool
    requires table { pass.table ≡ N.table }
    requires caller { (1 ≤ pass.number) × (pass.number ≤ shared.now.callers) }
{
    let Ok(call) = read(alloc, LETTER, LEN as u64) else {
        return false;
    };
    let (reply, _) = shared.call(rt, alloc, pass, call);
    match reply {
        Reply::Data(got) => got.as_slice() == b"aaa".as_slice(),
        _ => false,
    }
}

/// What recall hears of a fetch.
fn fetched(alloc: Global) -> Heard {
    match b"aaa".to_vec(alloc) {
        Ok(bytes) => Heard::Fetched(Ok(Verified::of(Bytes::from(bytes)))),
        Err(_) => Heard::Nothing,
    }
}

/// Steps recall until it rests behind a fetch.
fn recall<N: Named<SureDisk>, R: Wait>(
    rt: &R,
    alloc: Global,
    shared: &Shared<SureDisk, N>,
    mut pass: Pass,
)
    requires { pass.table ≡ N.table }
{
    let mut machine = Recaller::start(alloc);
    let mut heard = Heard::Nothing;
    let mut has_fetched = false;
    for _ in rt.forever() {
        let Ok(act) = machine.next(heard) else {
            return;
        };
        heard = match act {
            Act::Dm(sid, call) => {
                let (reply, back) = shared.dm(rt, alloc, pass, sid, call);
                pass = back;
                Heard::Dm(reply)
            }
            Act::Fetch { .. } => {
                has_fetched = true;
                fetched(alloc)
            }
            Act::Idle | Act::Copy { .. } => {
                if has_fetched {
                    return;
                }
                Heard::Nothing
            }
        };
    }
}

fn share<N: Named<SureDisk> + Send + Sync, R: Threads + Wait + Sync>(
    rt: &R,
    alloc: Global,
    hsm: Hsm<SureDisk>,
    desk: Desk,
    pen: Pen,
    passes: Passes,
) -> Option<bool>
    requires named { N.opened ≡ Some hsm.opened }
    requires table { desk.table ≡ N.table }
    requires empty { hsm.history ≡ [] }
    requires pen { pen.pass ≡ Some (new_pass desk.table true 0) }
    requires count { desk.passes ≡ 2 }
    requires passes { passes ≡ new_passes desk.table 2 }
{
    let shared = Shared::<SureDisk, N>::open(hsm, desk, pen, &passes, 1);
    let (caller, other) = two_of(passes)?;
    let ours = &shared;
    let caller = fill(rt, alloc, ours, caller)?;
    let other = punch(rt, alloc, ours, other)?;
    let (has_read, ()) = thread::join(
        rt,
        move || -> bool
            requires { (caller.table ≡ N.table) × (1 ≤ caller.number) × (caller.number ≤ ours.now.callers) }
        { reads(rt, alloc, ours, caller) },
        move || -> ()
            requires { other.table ≡ N.table }
        { recall(rt, alloc, ours, other) },
    );
    Some(has_read)
}

fn shared(rt: &(impl Threads + Wait + Sync), alloc: Global, hsm: Hsm<SureDisk>) -> Option<bool>
    requires { hsm.history ≡ [] }
{
    let (desk, pen, passes) = Desk::new(alloc, 2).ok()?;
    share::<Brand, _>(rt, alloc, hsm, desk, pen, passes)
}

fn run(rt: &(impl Threads + Wait + Sync), alloc: Global) -> Option<bool> {
    let hsm = new_store(alloc).ok()?;
    shared(rt, alloc, hsm)
}

#[test]
fn a_caller_waits_until_recall_has_fetched(rt: HostRuntime) -> Result<(), Fail> {
    assert!(rt; run(&rt, rt.alloc()) == Some(true));
    Ok(())
}
