//! The three forms of a run.
ghost use Rattle.std.specs.Prelude.{◌≡◌, ◌<◌, ◌≤◌, [], IfOk};
ghost use Rattle.hsm_types.specs.Limits.{callers as most_callers};

use crate::sharing::done_over_passes;
use crate::turns::{Callers, Turns, make_all, make_beside};
use commit_slots::Layout;
use disk_model::SureDisk;
use hsm_core::Hsm;
use hsm_types::{CALLERS, Call, CallerId, Reply};
use std::alloc::{AllocError, Global};
use std::sync::{Mutex, Wait};
use std::thread::Threads;

/// How callers come to the store.
#[derive(Clone, Copy)]
pub(crate) enum Form {
    Passes,
    Lock,
    Alone,
}

/// What a run does. All its threads have as many callers, and make as many calls.
#[derive(Clone, Copy)]
pub(crate) struct Run {
    form: Form,
    pub(crate) callers: u32,
    pub(crate) threads: u32,
    calls: u32,
    ghost some: { (0 < callers) × (0 < threads) },
    ghost few: { callers ≤ most_callers },
}

impl Run {
    /// There is none where the threads don't divide the callers and the calls.
    pub(crate) fn new(form: Form, callers: u32, threads: u32, calls: u32) -> Option<Run> {
        if callers == 0 || callers > u32::from(CALLERS) || threads == 0 {
            return None;
        }
        if callers % threads != 0 || calls % threads != 0 {
            return None;
        }
        Some(Run {
            form,
            callers,
            threads,
            calls,
        })
    }

    /// How many callers a thread has.
    pub(crate) fn share(self) -> u32 {
        self.callers / self.threads
    }

    /// The turns of that thread, from 0 on.
    pub(crate) fn turns(self, thread: u32) -> Turns {
        Turns {
            first: self.share().saturating_mul(thread).saturating_add(1),
            callers: self.share(),
            calls: self.calls / self.threads,
        }
    }

    /// Those of one thread that has all callers.
    fn all(self) -> Turns {
        Turns {
            first: 1,
            callers: self.callers,
            calls: self.calls,
        }
    }
}

/// A small store, formatted and opened.
fn new_store(alloc: Global) -> Result<Hsm<SureDisk>, AllocError>
    ensures { IfOk result (λ hsm. hsm.history ≡ []) }
{
    let whole = Layout::of_geometry(0).whole;
    let mut disk = SureDisk::new(vec![in alloc; 0; whole as usize]?);
    if Hsm::format(&mut disk, 0, 1).is_err() {
        return Err(AllocError);
    }
    match Hsm::open(alloc, disk) {
        Ok(hsm) => Ok(hsm),
        Err(_) => Err(AllocError),
    }
}

/// Callers who have the store for themselves.
#[derive(Drop)]
struct Alone {
    turns: Turns,
    hsm: Hsm<SureDisk>,
}

impl Callers for Alone {
    fn turns(&self) -> Turns {
        self.turns
    }

    fn make<R: Wait>(&mut self, _rt: &R, alloc: Global, number: u32, call: Call) -> Option<Reply> {
        let caller = CallerId::new(u64::from(number))?;
        Some(self.hsm.issue(alloc, caller, call))
    }
}

/// Callers of a store behind a plain lock.
#[derive(Drop)]
struct Locked<'a> {
    turns: Turns,
    hsm: &'a Mutex<Hsm<SureDisk>>,
}

impl<'a> Callers for Locked<'a> {
    fn turns(&self) -> Turns {
        self.turns
    }

    fn make<R: Wait>(&mut self, rt: &R, alloc: Global, number: u32, call: Call) -> Option<Reply> {
        let caller = CallerId::new(u64::from(number))?;
        Some(self.hsm.lock(rt).issue(alloc, caller, call))
    }
}

fn done_over_lock(
    rt: &(impl Threads + Wait + Sync),
    alloc: Global,
    run: Run,
    hsm: Hsm<SureDisk>,
) -> Result<u32, AllocError> {
    let locked = Mutex::new(hsm);
    let mut threads = Vec::new(alloc);
    for thread in 0..run.threads {
        threads.push(Locked {
            turns: run.turns(thread),
            hsm: &locked,
        })?;
    }
    make_beside(rt, alloc, threads)
}

/// Makes the calls of the run. How many were done.
pub(crate) fn done(
    rt: &(impl Threads + Wait + Sync),
    alloc: Global,
    run: Run,
) -> Result<u32, AllocError> {
    let hsm = new_store(alloc)?;
    match run.form {
        Form::Passes => done_over_passes(rt, alloc, run, hsm),
        Form::Lock => done_over_lock(rt, alloc, run, hsm),
        Form::Alone => {
            let turns = run.all();
            Ok(make_all(rt, alloc, Alone { turns, hsm }))
        }
    }
}
