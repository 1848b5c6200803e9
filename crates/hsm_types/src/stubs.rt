//! Stub entries: where the copy of a segment's bytes lies, and by which fingerprint it is known.
ghost use Rattle.std.specs.Prelude.{◌≡◌, ◌<◌, ◌^◌, length, OnOk, IfOk, IfErr};
ghost use Rattle.hsm_types.specs.Stubs.{print_of, entry_at, entry_place, entry_print};

use crate::lists::Bytes;
use sha2::Sha256;
use std::marker::Model;
use thiserror::Error;

/// A SHA-256.
#[derive(Clone, Copy, Debug, PartialEq, Eq)]
pub struct Digest(pub [u8; 32]);

/// What bytes are known by: how many there are, and their digest.
#[derive(Clone, Copy, Debug, PartialEq, Eq)]
pub struct Fingerprint {
    pub len: u32,
    pub digest: Digest,
}

impl Fingerprint {
    /// That of these bytes, which are read once. It takes no memory.
    pub fn of(bytes: &[u8]) -> Fingerprint
        requires { length bytes.now < 2 ^ 32 }
        ensures { result ≡ print_of bytes.now }
    {
        Fingerprint {
            len: bytes.len() as u32,
            digest: Digest(<Sha256 as sha2::Digest>::digest(bytes)),
        }
    }
}

/// Where a copy of a segment's bytes lies.
#[derive(Clone, Copy, PartialEq, Eq)]
pub struct Place {
    /// From 0 to [`LAST_VOLUME`](crate::LAST_VOLUME).
    pub volume: u32,
    /// Which object of the volume, from 0.
    pub object: u32,
}

/// Where the copy of a segment's bytes lies, and their fingerprint.
#[derive(Clone, Copy, PartialEq, Eq)]
pub struct StubEntry {
    volume: u32,
    object: u32,
    print: Fingerprint,
}

impl StubEntry {
    /// That of a copy at the place, of bytes with the fingerprint.
    pub fn new(place: Place, print: Fingerprint) -> StubEntry
        ensures { result ≡ entry_at place print }
    {
        StubEntry {
            volume: place.volume,
            object: place.object,
            print,
        }
    }

    /// Where the copy lies.
    pub fn place(&self) -> Place
        ensures { result ≡ entry_place self.now }
    {
        Place {
            volume: self.volume,
            object: self.object,
        }
    }

    /// The fingerprint of the copied bytes.
    pub fn print(&self) -> Fingerprint
        ensures { result ≡ entry_print self.now }
    {
        self.print
    }
}

/// What stands for the bytes of a segment: beside them, or, where they are away, in their place.
#[derive(Clone, Copy, PartialEq, Eq)]
pub struct Stub {
    pub entry: StubEntry,
    /// Whether the bytes are away.
    pub offline: bool,
}

/// What is held of a segment. `blocks` counts its blocks that are mapped.
#[derive(Clone, Copy, PartialEq, Eq)]
pub enum Segment {
    /// Its bytes.
    Resident { blocks: u32 },
    /// Its bytes and a stub entry.
    Sealed { blocks: u32, entry: StubEntry },
    /// A stub entry alone.
    Offline { entry: StubEntry },
}

/// Bytes with their fingerprint. Contracts see the bytes.
#[derive(Drop)]
pub struct Verified {
    bytes: Bytes,
    print: Fingerprint,
}

impl Model for Verified {
    ghost use Rattle.std.specs.Prelude.{◌≡◌, ◌<◌, ◌^◌, ℕ, List, length};
    ghost use Rattle.hsm_types.specs.Stubs.{print_of};

    ghost Value = { List ℕ };

    ghost view = { λ v. v.bytes };

    ghost invariant = { λ v. (v.print ≡ print_of v.bytes) × (length v.bytes < 2 ^ 32) };

    ghost inverse = { λ bytes. record { bytes = bytes; print = print_of bytes } };
}

/// That bytes have another fingerprint than the one that was wanted.
#[derive(Clone, Copy, Debug, PartialEq, Eq, Error)]
#[error("the bytes have another fingerprint")]
pub struct Changed {
    pub want: Fingerprint,
    pub got: Fingerprint,
}

impl Verified {
    /// These bytes, which are read once. It takes no memory.
    pub fn of(bytes: Bytes) -> Verified
        requires { length bytes < 2 ^ 32 }
        ensures { result ≡ bytes }
    {
        let print = Fingerprint::of(bytes.as_slice());
        Verified { bytes, print }
    }

    /// These bytes, if they have that fingerprint. They are read once. It takes no memory.
    pub fn check(bytes: Bytes, want: Fingerprint) -> Result<Verified, Changed>
        requires { length bytes < 2 ^ 32 }
        ensures same { OnOk result (print_of bytes ≡ want) }
        ensures bytes { IfOk result (λ v. v ≡ bytes) }
        ensures changed { IfErr result (λ why. (why ≡ record { want = want; got = print_of bytes }) × (print_of bytes ≡ want → ⊥)) }
    {
        let verified = Verified::of(bytes);
        let got = verified.print;
        if got == want {
            Ok(verified)
        } else {
            Err(Changed { want, got })
        }
    }

    pub fn as_slice(&self) -> &[u8]
        ensures bytes { result.now ≡ self.now }
        ensures few { length result.now < 2 ^ 32 }
    {
        self.bytes.as_slice()
    }

    /// Their fingerprint, which costs nothing.
    pub fn fingerprint(&self) -> Fingerprint
        ensures { result ≡ print_of self.now }
    {
        self.print
    }

    pub fn into_bytes(self) -> Bytes
        ensures { result ≡ self }
    {
        self.bytes
    }
}
