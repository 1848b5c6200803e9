//! Blocks of a disk that files no longer use.
ghost use Rattle.std.specs.Prelude.{◌≡◌};

use std::marker::Model;

/// Numbers of disk blocks, in the order of the file blocks that lay there. Contracts see the list of them.
#[derive(Drop)]
pub struct Freed {
    blocks: Vec<u32>,
}

impl Model for Freed {
    ghost use Rattle.std.specs.Prelude.{List, ℕ};

    ghost Value = { List ℕ };

    ghost view = { λ f. f.blocks.items };
}

impl Freed {
    /// These blocks.
    pub(crate) fn new(blocks: Vec<u32>) -> Freed
        ensures { result ≡ blocks.items }
    {
        Freed { blocks }
    }

    /// The numbers.
    pub fn as_slice(&self) -> &[u32]
        ensures { result.now ≡ self.now }
    {
        self.blocks.as_slice()
    }
}
