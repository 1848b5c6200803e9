//! A token that is answered with a fault of a medium ends its access by that fault.

use crate::running::formatted;
use disk_model::{Disk, SureDisk};
use event_text::render;
use hsm_core::Hsm;
use hsm_types::{DmCall, Fingerprint, MediaCause, Place, Response, Sid, Token};
use plain_model::{Action, Actor};
use script_text::{Line, Script, parse};
use std::alloc::Global;
use std::process::Abort;
use std::test::Fail;

/// Parks a read of a file on the token 1, and hands its message out. The store has the file system id of the name `s`.
const PARKED: &str =
    "c1 create a\nc1 write a 0 x:616263\ns0 session 0 hsm\ns1 setdisp read\ns1 setregion 0 304680751394550461.1.1 0:0:1\nc1 read a 0 3\ns1 getevents 0 4096\n";

/// What a transcript has behind these lines, where the medium failed.
const FAILED: &str =
    "s1 respond 1 media failed 0 0 0 1 = done\nc1 resume = refused Media failed 0 0 0 1\nc1 resume = refused Idle\nc1 stat a = size 3\n";

/// The same, where an object was damaged.
const DAMAGED: &str =
    "s1 respond 1 media damaged 7 4294967295 3 2c26b46b68ffc68ff99b453c1d30413413422d706483bfa0f98a5e886266e7ae 3 fcde2b2edba56bf408601fb721fe9b5c338d10ee429ea04fae5511b68fbf8fb9 = done\nc1 resume = refused Media damaged 7 4294967295 3 2c26b46b68ffc68ff99b453c1d30413413422d706483bfa0f98a5e886266e7ae 3 fcde2b2edba56bf408601fb721fe9b5c338d10ee429ea04fae5511b68fbf8fb9\nc1 resume = refused Idle\nc1 stat a = size 3\n";

/// A small store in memory.
fn small_store(alloc: Global) -> Result<Hsm<SureDisk>, Fail> {
    match Hsm::open(alloc, SureDisk::new(formatted(alloc)?)) {
        Ok(hsm) => Ok(hsm),
        Err(_) => Err("a store that was just formatted was not opened".into()),
    }
}

fn run_event<D: Disk>(alloc: Global, hsm: &mut Hsm<D>, actor: Actor, action: Action) {
    match (&actor, action) {
        (Actor::Caller(caller), Action::Issue(call)) => {
            let _ = hsm.issue(alloc, *caller, call);
        }
        (Actor::Caller(caller), Action::Resume) => {
            let _ = hsm.resume(alloc, *caller);
        }
        (Actor::Session(sid), Action::Dm(call)) => {
            let _ = hsm.dm(alloc, *sid, call);
        }
        _ => (),
    }
}

fn run_script<D: Disk>(alloc: Global, hsm: &mut Hsm<D>, script: Script) {
    for line in script.into_lines() {
        if let Line::Event { actor, action, .. } = line {
            run_event(alloc, hsm, actor, action);
        }
    }
}

fn run<D: Disk>(alloc: Global, hsm: &mut Hsm<D>, text: &str) -> Result<(), Fail> {
    match parse(alloc, text.as_bytes()) {
        Ok(script) => {
            run_script(alloc, hsm, script);
            Ok(())
        }
        Err(_) => Err("no script".into()),
    }
}

/// Answers the token of a parked read with that fault, and resumes it twice.
fn end_by<D: Disk>(alloc: Global, hsm: &mut Hsm<D>, cause: MediaCause) -> Result<(), Fail> {
    run(alloc, hsm, PARKED)?;
    let call = DmCall::Respond {
        token: Token(1),
        response: Response::Media(cause),
    };
    let _ = hsm.dm(alloc, Sid(1), call);
    run(alloc, hsm, "c1 resume\nc1 resume\nc1 stat a\n")
}

/// Whether the transcript of a read that is ended by that fault ends so.
fn ends_so<D: Disk>(
    alloc: Global,
    hsm: &mut Hsm<D>,
    cause: MediaCause,
    end: &str,
) -> Result<bool, Fail> {
    end_by(alloc, hsm, cause)?;
    let text = render(alloc, hsm.history())?;
    Ok(text.as_slice().ends_with(end.as_bytes()))
}

/// Lets a store go.
fn let_go(_hsm: Hsm<SureDisk>) {}

/// Whether that is so of a new store.
fn is_told(alloc: Global, cause: MediaCause, end: &str) -> Result<bool, Fail> {
    let mut hsm = small_store(alloc)?;
    let is_told = ends_so(alloc, &mut hsm, cause, end);
    let_go(hsm);
    is_told
}

fn assert_told(rt: &(impl Abort + AllocGlobal), cause: MediaCause, end: &str) -> Result<(), Fail> {
    assert!(rt; is_told(rt.alloc(), cause, end)?);
    Ok(())
}

#[test]
fn a_fault_of_a_medium_ends_the_access_by_its_cause(rt: HostRuntime) -> Result<(), Fail> {
    let place = Place {
        volume: 0,
        object: 0,
    };
    assert_told(&rt, MediaCause::failed(place, 0, 1), FAILED)?;
    let (want, got) = (Fingerprint::of(b"foo"), Fingerprint::of(b"bar"));
    if want == got {
        return Err("two digests are the same".into());
    }
    let place = Place {
        volume: 7,
        object: u32::MAX,
    };
    assert_told(&rt, MediaCause::damaged(place, want, got), DAMAGED)
}
