//! Attributes that sessions keep with a file.
ghost use Rattle.std.specs.Prelude.{◌≡◌};
ghost use Rattle.hsm_types.specs.Attributes.{is_reserved};

/// What an attribute is known by: any eight bytes. Names that begin with `HSM` are reserved.
#[derive(Clone, Copy, PartialEq, Eq, PartialOrd, Ord)]
pub struct AttrName(pub [u8; 8]);

impl AttrName {
    /// Whether the name is kept for the store.
    pub fn is_reserved(&self) -> bool
        ensures { result ≡ is_reserved self.now }
    {
        self.0.starts_with(b"HSM")
    }
}
