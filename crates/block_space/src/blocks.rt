//! Numbers of blocks that were taken together.
ghost use Rattle.std.specs.Prelude.{◌≡◌};
ghost use Rattle.std.specs.List.Sorted.{IsStrictlyIncreasing};

use std::marker::Model;

/// Numbers of blocks, ascending. Contracts see the list of them.
#[derive(Drop)]
pub struct Blocks {
    numbers: Vec<u32>,
}

impl Model for Blocks {
    ghost use Rattle.std.specs.Prelude.{List, ℕ};
    ghost use Rattle.std.specs.List.Sorted.{IsStrictlyIncreasing};

    ghost Value = { List ℕ };

    ghost view = { λ b. b.numbers.items };

    ghost invariant = { λ b. IsStrictlyIncreasing b.numbers.items };
}

impl Blocks {
    /// Of these numbers.
    pub(crate) fn new(numbers: Vec<u32>) -> Blocks
        requires { IsStrictlyIncreasing numbers.items }
        ensures { result ≡ numbers.items }
    {
        Blocks { numbers }
    }

    /// The numbers, the lowest first.
    pub fn as_slice(&self) -> &[u32]
        ensures value { result.now ≡ self.now }
        ensures ascend { IsStrictlyIncreasing result.now }
    {
        self.numbers.as_slice()
    }
}
