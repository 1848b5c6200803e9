//! The table of the pending accesses.
ghost use Rattle.std.specs.Prelude.{◌≡◌, None, Some, true, IfOk, MatchOption};
ghost use Rattle.std.specs.Option.{option_copied};
ghost use Rattle.hsm_types.specs.Messages.{is_lawful};
ghost use Rattle.hsm_types.specs.Keyed.{set_at};
ghost use Rattle.access_park.specs.Pending.{access_of, answered, has_lawful_answer, nobody, waiting_in, HoldsAlone, IsNewToken, IsPark, NobodyHolds};

use crate::access::Access;
use crate::slots;
use hsm_types::{CallerId, Response, Token};
use std::alloc::{AllocError, Global};
use std::marker::Model;

/// The access of each caller that has one, no two with the same token. `access_of` shows it as a function of the caller's number.
#[derive(Drop)]
pub struct Park {
    slots: Vec<Option<Access>>,
    /// How many slots have an access.
    waiting: u8,
}

impl Model for Park {
    ghost use Rattle.access_park.specs.Pending.{Slots, IsTable};

    ghost Value = { Slots };

    ghost view = { λ p. p.slots.items };

    ghost invariant = { λ p. IsTable p.slots.items p.waiting };
}

impl Park {
    /// No access. It takes the room for all callers, and no other call takes any.
    pub fn new(alloc: Global) -> Result<Park, AllocError>
        ensures { IfOk result (λ p. access_of p ≡ nobody) }
    {
        let slots = slots::empty_slots(alloc)?;
        Ok(Park { slots, waiting: 0 })
    }

    /// The caller's access.
    #[tactic(auto, unfolding(crate::specs::Pending::access_of))]
    pub fn pending(&self, caller: CallerId) -> Option<&Access>
        ensures access { option_copied result ≡ access_of self.now caller }
        ensures park { IsPark (access_of self.now) }
    {
        // Read for what is true of all accesses.
        let _waiting = self.waiting;
        self.slots[slots::number_of(caller)].as_ref()
    }

    /// How many callers have an access. It costs a constant.
    pub fn waiting(&self) -> usize
        ensures { result ≡ waiting_in (access_of self.now) }
    {
        usize::from(self.waiting)
    }

    /// Gives the caller an access.
    pub fn park(&mut self, caller: CallerId, access: Access)
        requires idle { access_of self.old caller ≡ None }
        requires token { IsNewToken access.token (access_of self.old) }
        requires lawful { has_lawful_answer (Some access) ≡ true }
        ensures { access_of self.new ≡ set_at caller (Some access) (access_of self.old) }
    {
        self.slots[slots::number_of(caller)] = Some(access);
        self.waiting += 1;
    }

    /// Takes the caller's access out.
    #[tactic(auto, unfolding(crate::specs::Pending::access_of))]
    pub fn end(&mut self, caller: CallerId) -> Option<Access>
        ensures access { result ≡ access_of self.old caller }
        ensures park { IsPark (access_of self.old) }
        ensures after { access_of self.new ≡ set_at caller None (access_of self.old) }
    {
        let access = self.slots[slots::number_of(caller)].take();
        self.waiting -= u8::from(access.is_some());
        access
    }

    /// Gives the access with that token this answer, and tells whose it is. It looks through the slots of all callers.
    pub fn answer(&mut self, token: Token, response: Response) -> Option<CallerId>
        requires { is_lawful response ≡ true }
        ensures found { MatchOption result (NobodyHolds token (access_of self.old)) (λ c. HoldsAlone token c (access_of self.old)) }
        ensures after { access_of self.new ≡ (λ c. answered token response (access_of self.old c)) }
    {
        let number = slots::find(&self.slots, token)?;
        slots::give(&mut self.slots[number], response);
        CallerId::new(number as u64)
    }
}
