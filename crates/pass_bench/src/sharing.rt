//! Callers who share a store, each with a pass.
ghost use Rattle.std.specs.Prelude.{◌≡◌, ◌≤◌, [], true, All, Some};
ghost use Rattle.call_seats.specs.Passes.{new_pass, new_passes};
ghost use Rattle.pass_bench.specs.Ours.{IsOurs};

use crate::forms::Run;
use crate::turns::{Callers, Turns, make_beside};
use call_seats::{Desk, Pass, Passes, Pen};
use disk_model::SureDisk;
use hsm_core::Hsm;
use hsm_threads::{Named, Shared};
use hsm_types::{Call, Reply};
use std::alloc::{AllocError, Global};
use std::collections::VecDeque;
use std::marker::Brand;
use std::sync::Wait;
use std::thread::Threads;

/// Callers with their passes. In front is that of the caller whose turn it is.
#[derive(Drop)]
struct Seats<'a, N: Named<SureDisk>> {
    turns: Turns,
    shared: &'a Shared<SureDisk, N>,
    passes: VecDeque<Pass>,
    ghost ours: { All (IsOurs N.table shared.now.callers) passes.items },
}

impl<'a, N: Named<SureDisk>> Callers for Seats<'a, N> {
    fn turns(&self) -> Turns {
        self.turns
    }

    fn make<R: Wait>(&mut self, rt: &R, alloc: Global, _number: u32, call: Call) -> Option<Reply> {
        let pass = self.passes.pop_front()?;
        let (reply, pass) = self.shared.call(rt, alloc, pass, call);
        self.passes.push_back(pass).ok()?;
        Some(reply)
    }
}

/// The callers of each thread.
fn seats_of<'a, N: Named<SureDisk>>(
    alloc: Global,
    run: Run,
    shared: &'a Shared<SureDisk, N>,
    passes: Passes,
) -> Result<Vec<Seats<'a, N>>, AllocError>
    requires { All (IsOurs N.table shared.now.callers) passes }
{
    let mut threads = Vec::new(alloc);
    let mut rest = passes.into_vec();
    for thread in 0..run.threads {
        let share = rest.len().min(run.share() as usize);
        let behind = rest.split_off(share)?;
        threads.push(Seats {
            turns: run.turns(thread),
            shared,
            passes: VecDeque::from_vec(rest),
        })?;
        rest = behind;
    }
    Ok(threads)
}

fn share<N: Named<SureDisk> + Send + Sync, R: Threads + Wait + Sync>(
    rt: &R,
    alloc: Global,
    run: Run,
    hsm: Hsm<SureDisk>,
    desk: Desk,
    pen: Pen,
    passes: Passes,
) -> Result<u32, AllocError>
    requires named { N.opened ≡ Some hsm.opened }
    requires table { desk.table ≡ N.table }
    requires empty { hsm.history ≡ [] }
    requires pen { pen.pass ≡ Some (new_pass desk.table true 0) }
    requires count { desk.passes ≡ run.callers }
    requires passes { passes ≡ new_passes desk.table run.callers }
{
    let shared = Shared::<SureDisk, N>::open(hsm, desk, pen, &passes, run.callers);
    let threads = seats_of(alloc, run, &shared, passes)?;
    make_beside(rt, alloc, threads)
}

/// Makes the calls of the run with a pass for each caller. How many were done.
pub(crate) fn done_over_passes(
    rt: &(impl Threads + Wait + Sync),
    alloc: Global,
    run: Run,
    hsm: Hsm<SureDisk>,
) -> Result<u32, AllocError>
    requires { hsm.history ≡ [] }
{
    let (desk, pen, passes) = Desk::new(alloc, run.callers)?;
    share::<Brand, _>(rt, alloc, run, hsm, desk, pen, passes)
}
