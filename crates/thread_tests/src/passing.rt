//! A caller who has been told of another one's write reads what was written.
ghost use Rattle.std.specs.Prelude.{◌≡◌, ◌≤◌, [], true, Some};
ghost use mathlib.Core.List.{IsPrefix};
ghost use Rattle.call_seats.specs.Passes.{new_pass, new_passes};

use crate::sharing::fill;
use crate::stores::{create, new_store, read, two_of};
use call_seats::{Desk, Pass, Passes, Pen};
use disk_model::SureDisk;
use hsm_core::Hsm;
use hsm_threads::{Named, Shared};
use hsm_types::{Bytes, Call, Reply, Word};
use std::alloc::{AllocError, Global};
use std::marker::Brand;
use std::sync::Wait;
use std::test::Fail;
use std::thread;
use std::thread::Threads;

/// The write of the byte 7 to the file a.
fn seven(alloc: Global) -> Result<Call, AllocError> {
    Ok(Call::Write {
        name: Word::from(vec![in alloc; b'a'; 1]?),
        offset: 0,
        body: Bytes::from(vec![in alloc; 7; 1]?),
    })
}

/// The caller creates the file a and writes the byte 7 to it. Whether that was done.
fn write_seven<N: Named<SureDisk>, R: Wait>(
    rt: &R,
    alloc: Global,
    shared: &Shared<SureDisk, N>,
    pass: Pass,
) -> (bool, Pass)
    requires table { pass.table ≡ N.table }
    requires caller { (1 ≤ pass.number) × (pass.number ≤ shared.now.callers) }
    ensures { result.1.table ≡ N.table }
{
    let (Ok(make), Ok(fill)) = (create(alloc, b'a'), seven(alloc)) else {
        return (false, pass);
    };
    let (_, pass) = shared.call(rt, alloc, pass, make);
    let (reply, pass) = shared.call(rt, alloc, pass, fill);
    (matches!(reply, Reply::Done), pass)
}

/// One caller tells another what it has seen, and that one makes its call. What the first had seen begins what the other has seen then.
fn call_after<N: Named<SureDisk>, R: Wait>(
    rt: &R,
    alloc: Global,
    shared: &Shared<SureDisk, N>,
    first: Pass,
    second: Pass,
    call: Call,
) -> (Reply, Pass)
    requires tables { (first.table ≡ N.table) × (second.table ≡ N.table) }
    requires caller { (1 ≤ second.number) × (second.number ≤ shared.now.callers) }
    ensures { IsPrefix first.seen result.1.seen }
{
    let (_, second) = shared.meet(first, second);
    shared.call(rt, alloc, second, call)
}

/// What came of the calls of two callers.
#[derive(Clone, Copy, PartialEq, Eq)]
struct Outcome {
    /// All was done that both did side by side.
    is_done: bool,
    /// The second was given what the first had written.
    is_read: bool,
}

/// Whether the reply gives the byte that was written.
fn is_seven(reply: &Reply) -> bool {
    match reply {
        Reply::Data(got) => got.as_slice() == [7].as_slice(),
        _ => false,
    }
}

/// The first caller makes and writes its file while the second does so with its own. Then the first comes back, and the second reads.
fn pass_on<N: Named<SureDisk> + Send + Sync, R: Threads + Wait + Sync>(
    rt: &R,
    alloc: Global,
    shared: &Shared<SureDisk, N>,
    first: Pass,
    second: Pass,
) -> Option<Outcome>
    requires tables { (first.table ≡ N.table) × (second.table ≡ N.table) }
    requires first { (1 ≤ first.number) × (first.number ≤ shared.now.callers) }
    requires second { (1 ≤ second.number) × (second.number ≤ shared.now.callers) }
{
    let call = read(alloc, b'a', 1).ok()?;
    let ((one, first), (two, second)) = thread::join(
        rt,
        move || -> (bool, Pass)
            requires { (first.table ≡ N.table) × (1 ≤ first.number) × (first.number ≤ shared.now.callers) }
            ensures { result.1.table ≡ N.table }
        { write_seven(rt, alloc, shared, first) },
        move || -> (bool, Pass)
            requires { (second.table ≡ N.table) × (1 ≤ second.number) × (second.number ≤ shared.now.callers) }
            ensures { (result.1.table ≡ N.table) × (1 ≤ result.1.number) × (result.1.number ≤ shared.entry.now.callers) }
        { fill(rt, alloc, shared, second, b'b') },
    );
    let (reply, _) = call_after(rt, alloc, shared, first, second, call);
    Some(Outcome {
        is_done: one && two,
        is_read: is_seven(&reply),
    })
}

fn share<N: Named<SureDisk> + Send + Sync, R: Threads + Wait + Sync>(
    rt: &R,
    alloc: Global,
    hsm: Hsm<SureDisk>,
    desk: Desk,
    pen: Pen,
    passes: Passes,
) -> Option<Outcome>
    requires named { N.opened ≡ Some hsm.opened }
    requires table { desk.table ≡ N.table }
    requires empty { hsm.history ≡ [] }
    requires pen { pen.pass ≡ Some (new_pass desk.table true 0) }
    requires count { desk.passes ≡ 2 }
    requires passes { passes ≡ new_passes desk.table 2 }
{
    let shared = Shared::<SureDisk, N>::open(hsm, desk, pen, &passes, 2);
    let (first, second) = two_of(passes)?;
    pass_on(rt, alloc, &shared, first, second)
}

fn shared(rt: &(impl Threads + Wait + Sync), alloc: Global, hsm: Hsm<SureDisk>) -> Option<Outcome>
    requires { hsm.history ≡ [] }
{
    let (desk, pen, passes) = Desk::new(alloc, 2).ok()?;
    share::<Brand, _>(rt, alloc, hsm, desk, pen, passes)
}

fn run(rt: &(impl Threads + Wait + Sync), alloc: Global) -> Option<Outcome> {
    let hsm = new_store(alloc).ok()?;
    shared(rt, alloc, hsm)
}

#[test]
fn a_caller_who_was_told_of_a_write_reads_it(rt: HostRuntime) -> Result<(), Fail> {
    let outcome = run(&rt, rt.alloc()).ok_or("memory was wanting")?;
    assert!(rt;
        outcome
            == Outcome {
                is_done: true,
                is_read: true
            }
    );
    Ok(())
}
