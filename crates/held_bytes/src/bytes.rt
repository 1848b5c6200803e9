//! The bytes of one body.
ghost use Rattle.std.specs.Prelude.{◌≡◌, List, ℕ, if◌then◌else◌};
ghost use Rattle.std.specs.Borrow.{ftrue};
ghost use Rattle.plain_model.specs.Plain.{written};

use std::marker::{Model, PhantomData};

/// The bytes that are held of a body. Only clauses read them.
#[derive(Drop)]
pub struct HeldBytes {
    of: PhantomData<u8>,
    pub ghost bytes: { List ℕ },
}

impl Model for HeldBytes {
    ghost also_owns = { λ _. ftrue };
}

impl HeldBytes {
    /// Those that a clause names. What it lends is what a proof may name them from.
    pub fn from_clause<X>(by: &X) -> HeldBytes
        ghost bytes: { List ℕ }
        ensures { result.bytes ≡ bytes }
    {
        let _ = by;
        HeldBytes { of: PhantomData }
    }

    /// These, with others written over them at that offset.
    pub fn with_written(&self, offset: u64, bytes: &[u8]) -> HeldBytes
        ensures { result.bytes ≡ written offset bytes.now self.now.bytes }
    {
        HeldBytes::from_clause(&(self, offset, bytes))
    }

    /// The same.
    pub fn same(&self) -> HeldBytes
        ensures { result.bytes ≡ self.now.bytes }
    {
        HeldBytes::from_clause(self)
    }

    /// The first ones, or the second ones.
    pub fn chosen(first: bool, these: &HeldBytes, those: &HeldBytes) -> HeldBytes
        ensures { result.bytes ≡ (if first then these.now.bytes else those.now.bytes) }
    {
        HeldBytes::from_clause(&(first, these, those))
    }
}
