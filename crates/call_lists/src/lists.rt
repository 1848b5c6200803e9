//! The callers' lists.
ghost use Rattle.std.specs.Prelude.{◌≡◌, ◌≢◌, ◌+◌, ◌++◌, ◌∷◌, [], ℕ, length, IfOk, IfNone, IfSome, OnOk, OnErr};
ghost use Rattle.hsm_types.specs.Limits.{callers};
ghost use Rattle.call_lists.specs.Lines.{left_of};

use hsm_types::{CALLERS, Call, CallerId};
use std::alloc::{AllocError, Global};
use std::collections::VecDeque;
use std::marker::Model;

/// The calls that one caller is still to make, in order.
#[derive(Drop)]
struct CallList {
    calls: VecDeque<Call>,
}

/// The calls that callers are still to make. A call is taken off its list, and never cloned. Contracts see the lists: that of a caller stands at its number.
#[derive(Drop)]
pub struct CallLists {
    lists: Vec<CallList>,
}

impl Model for CallLists {
    ghost use Rattle.std.specs.Prelude.{◌≡◌, ◌+◌, List, length};
    ghost use Rattle.hsm_types.specs.Limits.{callers};
    ghost use Rattle.call_lists.specs.declared.lists.CallList.{CallList};

    ghost Value = { List CallList };

    ghost view = { λ l. l.lists.items };

    // One for each number, and one for 0.
    ghost invariant = { λ l. length l.lists.items ≡ callers + 1 };
}

impl CallLists {
    /// No caller has a call.
    pub fn new(alloc: Global) -> Result<CallLists, AllocError>
        ensures { IfOk result (λ lists. (c : ℕ) → left_of lists c ≡ []) }
    {
        let lists = no_calls(alloc)?;
        Ok(CallLists { lists })
    }

    /// Puts the call behind those of the caller. Where memory is wanting nothing changes.
    pub fn add(&mut self, caller: CallerId, call: Call) -> Result<(), AllocError>
        ensures added { OnOk result (left_of self.new caller ≡ left_of self.old caller ++ call ∷ []) }
        ensures kept { OnErr result (left_of self.new caller ≡ left_of self.old caller) }
        ensures others { (c : ℕ) → c ≢ caller → left_of self.new c ≡ left_of self.old c }
    {
        self.lists[caller.number() as usize].calls.push_back(call)?;
        Ok(())
    }

    /// Takes the next call of the caller off its list.
    pub fn next(&mut self, caller: CallerId) -> Option<Call>
        ensures taken { IfSome result (λ call. left_of self.old caller ≡ call ∷ left_of self.new caller) }
        ensures none { IfNone result ((left_of self.old caller ≡ []) × (left_of self.new caller ≡ [])) }
        ensures others { (c : ℕ) → c ≢ caller → left_of self.new c ≡ left_of self.old c }
    {
        self.lists[caller.number() as usize].calls.pop_front()
    }
}

/// An empty list for each number, and one for 0.
#[tactic(auto, using(crate::proofs::Emptying::none_more))]
fn no_calls(alloc: Global) -> Result<Vec<CallList>, AllocError>
    ensures empty { IfOk result (λ lists. (c : ℕ) → left_of lists.items c ≡ []) }
    ensures all { IfOk result (λ lists. length lists.items ≡ callers + 1) }
{
    let count = u64::from(CALLERS) + 1;
    let mut lists = Vec::with_capacity(alloc, count as usize)?;
    for _ in 0..count {
        lists.push(CallList {
            calls: VecDeque::new(alloc),
        })?;
    }
    Ok(lists)
}
