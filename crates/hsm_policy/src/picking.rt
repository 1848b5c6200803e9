//! Which segments a pass of migration takes.
ghost use Rattle.std.specs.Prelude.{◌≡◌, IfOk, map};
ghost use Rattle.hsm_policy.specs.Picking.{picked, IsShortest, IsPick};

use crate::candidates::{Candidate, in_order};
use hsm_types::{Handle, ListOf, Table};
use std::alloc::{AllocError, Global};

/// A segment that was picked.
#[derive(Clone, Copy, PartialEq, Eq)]
pub struct Picked {
    pub handle: Handle,
    pub segment: u32,
    /// Whether it has a stub entry, so that its bytes need no copy.
    pub sealed: bool,
}

/// Segments that were picked, in their order.
pub type Picks = ListOf<Picked>;

/// The segments that have to go offline so that at most `low` blocks are used, those first that were accessed longest ago, or all that can go. It sorts
/// the segments of the table once.
pub fn pick(alloc: Global, table: &Table, low: u64) -> Result<Picks, AllocError>
    ensures { IfOk result (IsPick table.now low) }
{
    let sorted = in_order(alloc, table)?;
    let count = shortest(sorted.as_slice(), table.used, low);
    picks(alloc, &sorted[..count])
}

/// How many of these have to go so that at most `low` of the blocks that are used stay.
fn shortest(sorted: &[Candidate], used: u64, low: u64) -> usize
    ensures { IsShortest used low sorted.now result }
{
    let mut left = used;
    for (count, candidate) in sorted.iter().enumerate() {
        if left <= low {
            return count;
        }
        left = left.saturating_sub(u64::from(candidate.blocks));
    }
    sorted.len()
}

fn picks(alloc: Global, sorted: &[Candidate]) -> Result<Picks, AllocError>
    ensures { IfOk result (λ picks. picks ≡ map picked sorted.now) }
{
    let mut picks = Vec::with_capacity(alloc, sorted.len())?;
    for candidate in sorted {
        picks.push(told(candidate))?;
    }
    Ok(Picks::from(picks))
}

fn told(candidate: &Candidate) -> Picked
    ensures { result ≡ picked candidate.now }
{
    Picked {
        handle: candidate.handle,
        segment: candidate.segment,
        sealed: candidate.sealed,
    }
}
