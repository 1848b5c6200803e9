//! The calls of callers, and the replies to them.
ghost use Rattle.std.specs.Prelude.{◌≡◌};

use crate::keys::{FileKey, Token};
use crate::lists::{Bytes, Word};
use crate::media::MediaCause;
use crate::texts::Told::{self, Blocks, Fault, Number, Words};
use std::alloc::AllocError;
use std::fmt;
use thiserror::Error;

/// What a caller asks of the store. Offsets and lengths are in bytes.
#[derive(Drop)]
pub enum Call {
    Create {
        name: Word,
    },
    Read {
        name: Word,
        offset: u64,
        len: u64,
    },
    Write {
        name: Word,
        offset: u64,
        body: Bytes,
    },
    /// Cuts the file to that many bytes, or lengthens it by zeros.
    Truncate {
        name: Word,
        size: u64,
    },
    Remove {
        name: Word,
    },
    Stat {
        name: Word,
    },
    Sync,
}

impl Clone for Call {
    ghost is_clone = { λ c d. d ≡ c };

    fn clone(&self) -> Result<Call, AllocError> {
        Ok(match self {
            Call::Create { name } => Call::Create {
                name: name.clone()?,
            },
            Call::Read { name, offset, len } => Call::Read {
                name: name.clone()?,
                offset: *offset,
                len: *len,
            },
            Call::Write { name, offset, body } => Call::Write {
                name: name.clone()?,
                offset: *offset,
                body: body.clone()?,
            },
            Call::Truncate { name, size } => Call::Truncate {
                name: name.clone()?,
                size: *size,
            },
            Call::Remove { name } => Call::Remove {
                name: name.clone()?,
            },
            Call::Stat { name } => Call::Stat {
                name: name.clone()?,
            },
            Call::Sync => Call::Sync,
        })
    }
}

/// What the store answers to a call, or to the caller who asks for the answer to one that waits.
#[derive(Drop)]
pub enum Reply {
    Done,
    Made(FileKey),
    Data(Bytes),
    Size(u64),
    /// The access waits for a response to this token, which was given for it.
    Parked { token: Token },
    /// The access waits for the end of a right that this token has.
    Blocked { token: Token },
    /// The access waits on: its token has no response yet.
    Still { token: Token },
    Refused(CallRefusal),
}

/// Why a call was refused, or how an access that waited has ended. No file has changed then, and of the rest nothing but the history, and whether the
/// access waits: each refusal of a resume but `Idle`, `Memory` and `Disk` ends it. Not even the history has changed after `Memory`, or after `Disk`
/// from a closed store. A fault of the disk in the event closes the store.
#[derive(Clone, Copy, Debug, PartialEq, Eq, Error)]
pub enum CallRefusal {
    Missing,
    Exists,
    BadName,
    TooBig { end: u64 },
    BadLength { len: u64 },
    NoInodes { count: u64 },
    NoSpace { need: u64, free: u64 },
    /// The response to the token for which the access waited.
    Aborted { errno: u8 },
    /// The response to the token for which the access waited.
    Media { cause: MediaCause },
    /// A call of the disk failed in this event, or the store is closed by such a fault.
    Disk,
    Memory,
    Waiting,
    Idle,
}

impl fmt::Display for CallRefusal {
    fn fmt<W: fmt::Write>(&self, f: &mut fmt::Formatter<W>) -> fmt::Result {
        fmt::Display::fmt(&self.told(), f)
    }
}

impl CallRefusal {
    /// What it says.
    fn told(&self) -> Told {
        match *self {
            Self::Missing => Words("no file has the name"),
            Self::Exists => Words("a file has the name"),
            Self::BadName => Words("the word can not be a name"),
            Self::TooBig { end } => Number("the file would end at ", end, ", past the limit"),
            Self::BadLength { len } => Number("the length ", len, " is not one of an access"),
            Self::NoInodes { count } => Number("all ", count, " inodes are in use"),
            Self::NoSpace { need, free } => Blocks { need, free },
            Self::Aborted { errno } => Number(
                "the access was aborted with the error ",
                errno.into(),
                "",
            ),
            Self::Media { cause } => Fault("a fault of a medium ended the access: ", cause.fault()),
            Self::Disk => Words("the disk failed"),
            Self::Memory => Words("no memory"),
            Self::Waiting => Words("an access of the caller waits"),
            Self::Idle => Words("no access of the caller waits"),
        }
    }
}
