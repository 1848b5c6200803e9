//! A slot for each caller, at his number. Slot 0 is nobody's.
ghost use Rattle.std.specs.Prelude.{◌≡◌, ◌+◌, ◌<◌, false, true, None, Some, All, IfOk, MatchOption, length, replicate, slice_index_or};
ghost use Rattle.std.specs.Option.{option_map};
ghost use Rattle.hsm_types.specs.Callers.{IsCallerNumber};
ghost use Rattle.hsm_types.specs.Limits.{callers};
ghost use Rattle.access_park.specs.Pending.{given, holds};

use crate::access::Access;
use hsm_types::{CALLERS, CallerId, Response, Token};
use std::alloc::{AllocError, Global};

/// The slots, all empty.
pub fn empty_slots(alloc: Global) -> Result<Vec<Option<Access>>, AllocError>
    ensures { IfOk result (λ slots. slots.items ≡ replicate (callers + 1) None) }
{
    let count = usize::from(CALLERS) + 1;
    let mut slots = Vec::with_capacity(alloc, count)?;
    for _ in 0..count {
        slots.push(None)?;
    }
    Ok(slots)
}

/// Where a caller's slot stands.
pub fn number_of(caller: CallerId) -> usize
    ensures number { result ≡ caller }
    ensures within { IsCallerNumber result }
{
    usize::from(caller.number())
}

/// Which slot has the access with that token.
pub fn find(slots: &[Option<Access>], token: Token) -> Option<usize>
    ensures { MatchOption result (All (λ slot. holds token slot ≡ false) slots.now)
        (λ i. (i < length slots.now) × (holds token (slice_index_or slots.now i None) ≡ true)) }
{
    slots.iter().position(|slot| holds(slot, token))
}

/// Whether the slot has an access with that token.
fn holds(slot: &Option<Access>, token: Token) -> bool
    ensures { result ≡ holds token slot.now }
{
    match slot {
        Some(access) => access.token == Some(token),
        None => false,
    }
}

/// Gives the slot's access that answer.
pub fn give(slot: &mut Option<Access>, response: Response)
    ensures { slot.new ≡ option_map (given response) slot.old }
{
    if let Some(access) = slot {
        access.answer = Some(response);
    }
}
