//! Two callers, each in a thread of its own, make the calls of their lists over one store, with a daemon stepped between.
ghost use Rattle.std.specs.Prelude.{◌≡◌, [], ℕ, Some};
ghost use Rattle.call_lists.specs.Lines.{left_of};

use crate::stores::{Counts, counts_of, create, new_store, write};
use call_lists::CallLists;
use disk_model::SureDisk;
use hsm_core::Hsm;
use hsm_policy::Settings;
use hsm_system::Stop;
use hsm_threads::{Named, Next, Run};
use hsm_types::{CallerId, Daemon};
use std::alloc::{AllocError, Global};
use std::marker::Brand;
use std::sync::{Mutex, Wait};
use std::test::Fail;
use std::thread;
use std::thread::Threads;

/// The numbers of the callers. A closure that took a `CallerId` along would not be covered by the borrow checker.
const FIRST: u64 = 1;

const SECOND: u64 = 2;

/// What a run has left.
struct Left {
    hsm: Hsm<SureDisk>,
    lists: CallLists,
    stop: Option<Stop>,
}

/// The caller with that number makes its calls, one at a time, until none is left. Between them recall takes its turn.
fn make<N: Named<SureDisk>, R: Wait>(
    rt: &R,
    alloc: Global,
    run: &Mutex<Run<SureDisk, N>>,
    number: u64,
) {
    let Some(caller) = CallerId::new(number) else {
        return;
    };
    for _ in 0..8u64 {
        if run.lock(rt).issue(alloc, caller) == Next::Ended {
            return;
        }
        let _ = run.lock(rt).ask(alloc, Daemon::Recall);
    }
}

fn run_named<N: Named<SureDisk> + Send + Sync, R: Threads + Wait + Sync>(
    rt: &R,
    alloc: Global,
    hsm: Hsm<SureDisk>,
    lists: CallLists,
    settings: Settings,
) -> Left
    requires named { N.opened ≡ Some hsm.opened }
    requires limits { settings ≡ N.limits }
    requires lines { (c : ℕ) → left_of lists c ≡ N.lines c }
    requires empty { hsm.history ≡ [] }
{
    let mut run: Run<SureDisk, N> = Run::new(hsm, lists, settings);
    run.start(alloc, Daemon::Recall);
    let locked = Mutex::new(run);
    let ours = &locked;
    let ((), ()) = thread::join(
        rt,
        move || make(rt, alloc, ours, FIRST),
        move || make(rt, alloc, ours, SECOND),
    );
    let (hsm, lists, stop) = locked.into_inner().close();
    Left { hsm, lists, stop }
}

fn run_lists(
    rt: &(impl Threads + Wait + Sync),
    alloc: Global,
    hsm: Hsm<SureDisk>,
    lists: CallLists,
) -> Left
    requires { hsm.history ≡ [] }
{
    run_named::<Brand, _>(rt, alloc, hsm, lists, Settings::default())
}

/// Each caller creates a file and writes it.
fn lists_for(alloc: Global, first: CallerId, second: CallerId) -> Result<CallLists, AllocError> {
    let mut lists = CallLists::new(alloc)?;
    lists.add(first, create(alloc, b'a')?)?;
    lists.add(first, write(alloc, b'a', 100)?)?;
    lists.add(second, create(alloc, b'b')?)?;
    lists.add(second, write(alloc, b'b', 100)?)?;
    Ok(lists)
}

/// What was done, where all calls were made and nothing has stopped the run.
fn counted(left: Left, first: CallerId, second: CallerId) -> Option<Counts> {
    let Left {
        hsm,
        mut lists,
        stop,
    } = left;
    let counts = counts_of(hsm);
    let ended = lists.next(first).is_none() && lists.next(second).is_none();
    if ended && stop.is_none() {
        Some(counts)
    } else {
        None
    }
}

fn run(rt: &(impl Threads + Wait + Sync), alloc: Global) -> Option<Counts> {
    let first = CallerId::new(FIRST)?;
    let second = CallerId::new(SECOND)?;
    let lists = lists_for(alloc, first, second).ok()?;
    let hsm = new_store(alloc).ok()?;
    let left = run_lists(rt, alloc, hsm, lists);
    counted(left, first, second)
}

#[test]
fn two_callers_make_their_lists_with_recall_between(rt: HostRuntime) -> Result<(), Fail> {
    let counts = run(&rt, rt.alloc()).ok_or("the callers did not come to the ends of their lists")?;
    assert!(rt; counts.first == 2 && counts.second == 2);
    assert!(rt; counts.told > 0);
    Ok(())
}
