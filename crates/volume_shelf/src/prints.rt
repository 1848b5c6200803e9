//! The fingerprint of bytes that come in pieces.
ghost use Rattle.std.specs.Prelude.{◌≡◌, ◌+◌, ◌<◌, ◌^◌, ℕ, List, [], ◌++◌, length};
ghost use Rattle.hsm_types.specs.Stubs.{print_of};
ghost use Rattle.volume_shelf.specs.Prints.{AreSoFar};

use hsm_types::{Digest, Fingerprint};
use sha2::Sha256;

/// The digest of the bytes so far, and how many there are.
#[derive(Drop)]
pub(crate) struct Pieces {
    hasher: Sha256,
    len: u32,
}

impl Pieces {
    pub(crate) fn none() -> Pieces
        ensures { AreSoFar result [] }
    {
        Pieces {
            hasher: <Sha256 as sha2::Digest>::new(),
            len: 0,
        }
    }

    /// How many bytes there are so far.
    pub(crate) fn len(&self) -> u32
        ensures { result ≡ self.now.len }
    {
        self.len
    }

    pub(crate) fn add(&mut self, piece: &[u8])
        requires { self.old.len + length piece.now < 2 ^ 32 }
        ensures bytes { (bytes : List ℕ) → AreSoFar self.old bytes → AreSoFar self.new (bytes ++ piece.now) }
        ensures len { self.new.len ≡ self.old.len + length piece.now }
    {
        sha2::Digest::update(&mut self.hasher, piece);
        self.len += piece.len() as u32;
    }

    pub(crate) fn fingerprint(self) -> Fingerprint
        ensures { (bytes : List ℕ) → AreSoFar self bytes → result ≡ print_of bytes }
    {
        let Pieces { hasher, len } = self;
        Fingerprint {
            len,
            digest: Digest(sha2::Digest::finalize(hasher)),
        }
    }
}
