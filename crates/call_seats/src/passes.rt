//! Passes, and the pen that stands beside what all callers share.
ghost use Rattle.std.specs.Prelude.{◌≡◌};

use crate::steps::Holder;
use hsm_types::ListOf;
use std::marker::Model;

/// What its holder has seen of the list of published entries, and made of it. Contracts see its number, whether it has the right to append, and both lists.
#[derive(Drop)]
pub struct Pass {
    pub(crate) number: u32,
    pub(crate) seat: Holder,
}

/// Passes, as a list.
pub type Passes = ListOf<Pass>;

/// Holds the pass that has the right to append, and so has seen all. It is empty only while that pass is in use.
#[derive(Drop)]
pub struct Pen {
    pub pass: Option<Pass>,
}

impl Model for Pass {
    ghost use Rattle.std.specs.Prelude.{◌≡◌, [], true};
    ghost use Rattle.call_seats.specs.Passes.{Knowledge, known_to};

    ghost Value = { Knowledge };

    ghost view = { λ p. known_to p.seat.table_id p.seat.me.0 };

    ghost invariant = { λ p. (p.number ≡ p.seat.me.0.number) × (p.seat.me.0.named ≡ true) × (p.seat.me.1 ≡ []) };
}

impl Pass {
    /// Which pass it is. Those that `Desk::new` gives out are numbered from 1 on, and the pen's own is 0.
    pub fn number(&self) -> u32
        ensures { result ≡ self.now.number }
    {
        self.number
    }
}
