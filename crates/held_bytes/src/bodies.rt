//! The bytes of the bodies of a list of files.
ghost use Rattle.std.specs.Prelude.{◌≡◌, List, ℕ, [], if◌then◌else◌, replicate, slice_set, slice_index_or};
ghost use Rattle.std.specs.Borrow.{ftrue};

use crate::bytes::HeldBytes;
use std::marker::{Model, PhantomData};

/// The bytes that are held of each file of a list. Only clauses read them.
#[derive(Drop)]
pub struct AllHeldBytes {
    of: PhantomData<u8>,
    pub ghost bodies: { List (List ℕ) },
}

impl Model for AllHeldBytes {
    ghost also_owns = { λ _. ftrue };
}

impl AllHeldBytes {
    /// Those that a clause names. What it lends is what a proof may name them from.
    pub fn from_clause<X>(by: &X) -> AllHeldBytes
        ghost bodies: { List (List ℕ) }
        ensures { result.bodies ≡ bodies }
    {
        let _ = by;
        AllHeldBytes { of: PhantomData }
    }

    /// So many bodies of no bytes.
    pub fn empty(count: u32) -> AllHeldBytes
        ensures { result.bodies ≡ replicate count [] }
    {
        AllHeldBytes::from_clause(&count)
    }

    /// The body with that index, none of whose bytes are held past the end of the list.
    pub fn body(&self, index: u32) -> HeldBytes
        ensures { result.bytes ≡ slice_index_or self.now.bodies index [] }
    {
        HeldBytes::from_clause(&(self, index))
    }

    /// These, with another in the place of the body with that index.
    pub fn with_body(&self, index: u32, body: &HeldBytes) -> AllHeldBytes
        ensures { result.bodies ≡ slice_set self.now.bodies index body.now.bytes }
    {
        AllHeldBytes::from_clause(&(self, index, body))
    }

    /// The same.
    pub fn same(&self) -> AllHeldBytes
        ensures { result.bodies ≡ self.now.bodies }
    {
        AllHeldBytes::from_clause(self)
    }

    /// The first ones, or the second ones.
    pub fn chosen(first: bool, these: &AllHeldBytes, those: &AllHeldBytes) -> AllHeldBytes
        ensures { result.bodies ≡ (if first then these.now.bodies else those.now.bodies) }
    {
        AllHeldBytes::from_clause(&(first, these, those))
    }
}
