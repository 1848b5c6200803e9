//! Two callers, each in a thread of its own, over one store that they share, and a session that one of them has.
ghost use Rattle.std.specs.Prelude.{◌≡◌, ◌≤◌, ◌∷◌, ◌++◌, [], true, Some, IfOk};
ghost use Rattle.call_seats.specs.Passes.{new_pass, new_passes};

use crate::stores::{Counts, counts_of, create, new_store, two_of, write};
use call_seats::{Desk, Pass, Passes, Pen};
use disk_model::SureDisk;
use hsm_core::Hsm;
use hsm_threads::{Named, Shared};
use hsm_types::{DmCall, Reply, Sid};
use std::alloc::{AllocError, Global};
use std::marker::Brand;
use std::sync::Wait;
use std::test::Fail;
use std::thread;
use std::thread::Threads;

/// The caller creates a file and writes it. Whether both were done.
pub(crate) fn fill<N: Named<SureDisk>, R: Wait>(
    rt: &R,
    alloc: Global,
    shared: &Shared<SureDisk, N>,
    pass: Pass,
    letter: u8,
) -> (bool, Pass)
    requires table { pass.table ≡ N.table }
    requires caller { (1 ≤ pass.number) × (pass.number ≤ shared.now.callers) }
    ensures { (result.1.table ≡ N.table) × (result.1.number ≡ pass.number) }
{
    let (Ok(make), Ok(fill)) = (create(alloc, letter), write(alloc, letter, 100)) else {
        return (false, pass);
    };
    let (made, pass) = shared.call(rt, alloc, pass, make);
    let (filled, pass) = shared.call(rt, alloc, pass, fill);
    (
        matches!(made, Reply::Made(_)) && matches!(filled, Reply::Done),
        pass,
    )
}

/// The same, behind a session that asks which sessions there are.
fn ask_and_fill<N: Named<SureDisk>, R: Wait>(
    rt: &R,
    alloc: Global,
    shared: &Shared<SureDisk, N>,
    pass: Pass,
    letter: u8,
) -> (bool, Pass)
    requires table { pass.table ≡ N.table }
    requires caller { (1 ≤ pass.number) × (pass.number ≤ shared.now.callers) }
    ensures { result.1.table ≡ N.table }
{
    let (_, pass) = shared.dm(rt, alloc, pass, Sid(0), DmCall::GetAllSessions);
    fill(rt, alloc, shared, pass, letter)
}

/// Both callers in threads of their own. Whether each was answered that all is done.
fn fill_beside<N: Named<SureDisk> + Send + Sync, R: Threads + Wait + Sync>(
    rt: &R,
    alloc: Global,
    shared: &Shared<SureDisk, N>,
    first: Pass,
    second: Pass,
) -> (bool, Pass, Pass)
    requires tables { (first.table ≡ N.table) × (second.table ≡ N.table) }
    requires first { (1 ≤ first.number) × (first.number ≤ shared.now.callers) }
    requires second { (1 ≤ second.number) × (second.number ≤ shared.now.callers) }
    ensures { (result.1.table ≡ N.table) × (result.2.table ≡ N.table) }
{
    let ((one, first), (two, second)) = thread::join(
        rt,
        move || -> (bool, Pass)
            requires { (first.table ≡ N.table) × (1 ≤ first.number) × (first.number ≤ shared.now.callers) }
            ensures { result.1.table ≡ N.table }
        { fill(rt, alloc, shared, first, b'a') },
        move || -> (bool, Pass)
            requires { (second.table ≡ N.table) × (1 ≤ second.number) × (second.number ≤ shared.now.callers) }
            ensures { result.1.table ≡ N.table }
        { ask_and_fill(rt, alloc, shared, second, b'b') },
    );
    (one && two, first, second)
}

/// The passes with one more.
fn with_one(passes: Passes, pass: Pass) -> Result<Passes, AllocError>
    ensures { IfOk result (λ all. all ≡ passes ++ pass ∷ []) }
{
    let mut passes = passes.into_vec();
    passes.push(pass)?;
    Ok(Passes::from(passes))
}

/// Both passes, as a list.
fn both_of(alloc: Global, first: Pass, second: Pass) -> Result<Passes, AllocError>
    ensures { IfOk result (λ all. all ≡ second ∷ first ∷ []) }
{
    let some = with_one(Passes::from(Vec::new(alloc)), second)?;
    let all = with_one(some, first)?;
    Ok(all)
}

/// Gives the passes back. Where none is given the store goes on.
fn close<N: Named<SureDisk>>(
    alloc: Global,
    shared: Shared<SureDisk, N>,
    first: Pass,
    second: Pass,
) -> Option<Hsm<SureDisk>>
    requires tables { (first.table ≡ N.table) × (second.table ≡ N.table) }
{
    let none = Passes::from(Vec::new(alloc));
    let Err((shared, _)) = shared.close(none) else {
        return None;
    };
    let Ok(all) = both_of(alloc, first, second) else {
        return None;
    };
    shared.close(all).ok()
}

fn share<N: Named<SureDisk> + Send + Sync, R: Threads + Wait + Sync>(
    rt: &R,
    alloc: Global,
    hsm: Hsm<SureDisk>,
    desk: Desk,
    pen: Pen,
    passes: Passes,
) -> Option<Hsm<SureDisk>>
    requires named { N.opened ≡ Some hsm.opened }
    requires table { desk.table ≡ N.table }
    requires empty { hsm.history ≡ [] }
    requires pen { pen.pass ≡ Some (new_pass desk.table true 0) }
    requires count { desk.passes ≡ 2 }
    requires passes { passes ≡ new_passes desk.table 2 }
{
    let shared = Shared::<SureDisk, N>::open(hsm, desk, pen, &passes, 2);
    let (first, second) = two_of(passes)?;
    let (done, first, second) = fill_beside(rt, alloc, &shared, first, second);
    let hsm = close(alloc, shared, first, second)?;
    if done { Some(hsm) } else { None }
}

fn shared(
    rt: &(impl Threads + Wait + Sync),
    alloc: Global,
    hsm: Hsm<SureDisk>,
) -> Option<Hsm<SureDisk>>
    requires { hsm.history ≡ [] }
{
    let (desk, pen, passes) = Desk::new(alloc, 2).ok()?;
    share::<Brand, _>(rt, alloc, hsm, desk, pen, passes)
}

fn run(rt: &(impl Threads + Wait + Sync), alloc: Global) -> Option<Counts> {
    let hsm = new_store(alloc).ok()?;
    Some(counts_of(shared(rt, alloc, hsm)?))
}

#[test]
fn two_callers_share_a_store_with_a_session(rt: HostRuntime) -> Result<(), Fail> {
    let counts = run(&rt, rt.alloc()).ok_or("not all calls were done")?;
    assert!(rt; counts.first == 2 && counts.second == 2);
    assert!(rt; counts.told == 1);
    Ok(())
}
