//! What callers, files, events and sessions are known by.

use crate::limits::CALLERS;
use byteorder::{BigEndian, ByteOrder};
use std::marker::Model;

/// Who makes a call, from 1 to [`CALLERS`](crate::CALLERS). Contracts see the number.
#[derive(Clone, Copy, PartialEq, Eq)]
pub struct CallerId(u8);

impl Model for CallerId {
    ghost use Rattle.std.specs.Prelude.{ℕ};
    ghost use Rattle.hsm_types.specs.Callers.{IsCallerNumber};

    ghost Value = { ℕ };

    ghost view = { λ c. c.0 };

    ghost invariant = { λ c. IsCallerNumber c.0 };

    ghost inverse = { λ n. record { 0 = n } };
}

impl CallerId {
    ghost use Rattle.std.specs.Prelude.{◌≡◌};
    ghost use Rattle.std.specs.Option.{SomeIff};
    ghost use Rattle.hsm_types.specs.Callers.{IsCallerNumber};

    /// The caller of that number, where there may be one.
    pub fn new(number: u64) -> Option<CallerId>
        ensures { SomeIff result (IsCallerNumber number) number }
    {
        if 1 <= number && number <= u64::from(CALLERS) {
            Some(CallerId(number as u8))
        } else {
            None
        }
    }

    /// Its number.
    pub fn number(self) -> u8
        ensures number { result ≡ self }
        ensures within { IsCallerNumber result }
    {
        self.0
    }
}

/// Which file: its inode, from 1, and its generation, from 1. No two files ever have one generation.
#[derive(Clone, Copy, PartialEq, Eq, PartialOrd, Ord, Hash)]
pub struct FileKey {
    pub ino: u64,
    pub igen: u64,
}

/// Which event a session is to respond to, from 1. 0 stands for none.
#[derive(Clone, Copy, Debug, PartialEq, Eq, PartialOrd, Ord, Hash)]
pub struct Token(pub u64);

/// Which token holds which file. They stand in the order of files, and on one file in that of tokens.
#[derive(Clone, Copy, PartialEq, Eq, PartialOrd, Ord)]
pub struct Holding {
    pub key: FileKey,
    pub token: Token,
}

/// Which session, from 1. 0 stands for none.
#[derive(Clone, Copy, Debug, PartialEq, Eq, Hash)]
pub struct Sid(pub u64);

/// The bytes of a handle.
pub const HANDLE_BYTES: usize = 24;

/// What sessions know a file by, whatever its name: the file system id of its store, and its key.
#[derive(Clone, Copy, PartialEq, Eq)]
pub struct Handle {
    pub fsid: u64,
    pub key: FileKey,
}

impl Handle {
    ghost use Rattle.std.specs.Prelude.{◌≡◌, length};
    ghost use Rattle.hsm_types.specs.Handles.{handle_bytes, IsHandle};

    /// The file system id, the inode and the generation, each a big-endian u64.
    #[tactic(auto, unfolding(crate::specs::Handles::handle_bytes))]
    pub fn to_bytes(self) -> [u8; HANDLE_BYTES]
        ensures bytes { result ≡ handle_bytes self }
        ensures numbers { IsHandle self }
    {
        let mut bytes = [0; HANDLE_BYTES];
        BigEndian::write_u64(&mut bytes, self.fsid);
        BigEndian::write_u64(&mut bytes[8..], self.key.ino);
        BigEndian::write_u64(&mut bytes[16..], self.key.igen);
        bytes
    }

    /// The handle that has these bytes.
    pub fn from_slice(bytes: &[u8]) -> Handle
        requires { length bytes.now ≡ HANDLE_BYTES }
        ensures bytes { handle_bytes result ≡ bytes.now }
        ensures numbers { IsHandle result }
    {
        Handle {
            fsid: BigEndian::read_u64(bytes),
            key: FileKey {
                ino: BigEndian::read_u64(&bytes[8..]),
                igen: BigEndian::read_u64(&bytes[16..]),
            },
        }
    }
}
