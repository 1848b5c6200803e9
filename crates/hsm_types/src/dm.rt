//! The calls of sessions, and the replies to them.
ghost use Rattle.std.specs.Prelude.{◌≡◌};
ghost use Rattle.hsm_types.specs.Calls.{scope_of};
ghost use Rattle.hsm_types.specs.Messages.{no_kinds, takes, without_kinds, is_lawful};
ghost use Rattle.hsm_types.specs.Rights.{reaches, excludes};
ghost use Rattle.hsm_types.specs.declared.dm.Scope.TheVariants.{OnFile, OnRight};

use crate::attributes::AttrName;
use crate::keys::{Handle, Sid, Token};
use crate::limits::LAST_ERROR;
use crate::lists::{Bytes, Names, Regions, Segments, Sids, Tokens, Word};
use crate::media::MediaCause;
use crate::stubs::{Fingerprint, StubEntry, Verified};
use crate::tables::Table;
use crate::texts::Told::{self, Blocks, Number, Words};
use std::alloc::AllocError;
use std::fmt;
use thiserror::Error;

/// What a session asks of the store.
#[derive(Drop)]
pub enum DmCall {
    /// Makes a session: beside the others where `old` is 0, and else in the place of the session `old`.
    CreateSession {
        old: Sid,
        info: Word,
    },
    /// Ends the session, once nothing is undelivered or outstanding to it.
    DestroySession,
    GetAllSessions,
    QuerySession {
        target: Sid,
    },
    /// Takes these kinds of events, also from other sessions, and no others.
    SetDisp {
        kinds: Kinds,
    },
    GetDisp,
    /// The longest prefix of the session's messages that fits into so many bytes, at most `max` of them, or without a bound where that is 0.
    GetEvents {
        max: u32,
        room: u32,
    },
    GetAllTokens,
    /// The message of an outstanding token again, if it fits into so many bytes.
    FindEventMsg {
        token: Token,
        room: u32,
    },
    Respond {
        token: Token,
        response: Response,
    },
    /// A token of the session's own, outstanding at once, with a message of these bytes.
    CreateUserEvent {
        body: Bytes,
    },
    /// A message that wants no response.
    SendMsg {
        target: Sid,
        body: Bytes,
    },
    /// Gives a token a right on a file, unless the right of another token excludes it. What it has already stays, if that is as high.
    RequestRight {
        token: Token,
        handle: Handle,
        right: Right,
    },
    /// The token has no right on the file then.
    ReleaseRight {
        token: Token,
        handle: Handle,
    },
    /// What the token has on the file.
    QueryRight {
        token: Token,
        handle: Handle,
    },
    /// Makes the token's right on the file exclusive.
    UpgradeRight {
        token: Token,
        handle: Handle,
    },
    /// Makes an exclusive right one that others may have too.
    DowngradeRight {
        token: Token,
        handle: Handle,
    },
    GetFileAttr {
        token: Token,
        handle: Handle,
    },
    /// Replaces the whole list of the file's regions.
    SetRegion {
        token: Token,
        handle: Handle,
        regions: Regions,
    },
    GetRegion {
        token: Token,
        handle: Handle,
    },
    SetDmAttr {
        token: Token,
        handle: Handle,
        name: AttrName,
        value: Bytes,
    },
    GetDmAttr {
        token: Token,
        handle: Handle,
        name: AttrName,
    },
    RemoveDmAttr {
        token: Token,
        handle: Handle,
        name: AttrName,
    },
    GetAllDmAttr {
        token: Token,
        handle: Handle,
    },
    /// At most so many bytes of the file from the offset on, whatever regions there are. It leaves the file's stamp.
    ReadInvis {
        token: Token,
        handle: Handle,
        offset: u64,
        len: u64,
    },
    /// Writes over bytes of the file, likewise.
    WriteInvis {
        token: Token,
        handle: Handle,
        offset: u64,
        body: Bytes,
    },
    /// Gives up the bytes of sealed segments: their entries stand for them. With a length of 0 all from the offset on.
    PunchHole {
        token: Token,
        handle: Handle,
        offset: u64,
        len: u64,
    },
    /// The range within this one that could be punched.
    ProbeHole {
        token: Token,
        handle: Handle,
        offset: u64,
        len: u64,
    },
    /// What is held of each segment of the file.
    GetAllocInfo {
        token: Token,
        handle: Handle,
    },
    /// Says where a copy of the segment's bytes lies, whose fingerprint has to be that of the bytes.
    Seal {
        token: Token,
        handle: Handle,
        segment: u32,
        entry: StubEntry,
    },
    /// Brings the bytes of a segment that is offline back. They need the fingerprint of its entry.
    Restore {
        token: Token,
        handle: Handle,
        segment: u32,
        bytes: Verified,
    },
    PathToHandle {
        name: Word,
    },
    GetSpace,
    GetTable,
}

/// The kinds of events, each of which is told by a message.
#[derive(Clone, Copy, PartialEq, Eq)]
pub enum Kind {
    Read,
    Write,
    Truncate,
    /// An access is short of space.
    NoSpace,
    /// A session's own.
    User,
}

/// Which kinds of events a session takes. Those of sessions themselves are taken by none.
#[derive(Clone, Copy, PartialEq, Eq)]
pub struct Kinds {
    pub read: bool,
    pub write: bool,
    pub truncate: bool,
    pub no_space: bool,
}

impl Kinds {
    /// None of them.
    pub fn none() -> Kinds
        ensures { result ≡ no_kinds }
    {
        Kinds {
            read: false,
            write: false,
            truncate: false,
            no_space: false,
        }
    }

    /// Whether events of that kind are taken.
    pub fn takes(self, kind: Kind) -> bool
        ensures { result ≡ takes self kind }
    {
        match kind {
            Kind::Read => self.read,
            Kind::Write => self.write,
            Kind::Truncate => self.truncate,
            Kind::NoSpace => self.no_space,
            Kind::User => false,
        }
    }

    /// These, but for those of `others`.
    pub fn without(self, others: Kinds) -> Kinds
        ensures { result ≡ without_kinds others self }
    {
        Kinds {
            read: self.read && !others.read,
            write: self.write && !others.write,
            truncate: self.truncate && !others.truncate,
            no_space: self.no_space && !others.no_space,
        }
    }
}

/// What becomes of the access whose event is responded to.
#[derive(Clone, Copy, PartialEq, Eq)]
pub enum Response {
    /// It goes on.
    Continue,
    /// It ends with that error, from 1 to [`LAST_ERROR`](crate::LAST_ERROR).
    Abort(u32),
    /// It ends with that fault of a medium: an abort that tells its cause. No script can give it.
    Media(MediaCause),
}

impl Response {
    /// Whether it is one that may be given: an abort's error is from 1 to [`LAST_ERROR`](crate::LAST_ERROR).
    pub fn is_lawful(self) -> bool
        ensures { result ≡ is_lawful self }
    {
        match self {
            Response::Continue => true,
            Response::Abort(error) => 1 <= error && error <= LAST_ERROR,
            Response::Media(_) => true,
        }
    }
}

/// What a token holds on a file, the higher later.
#[derive(Clone, Copy, Debug, PartialEq, Eq)]
pub enum Right {
    /// Nothing.
    Null,
    /// Others may have it too.
    Shared,
    /// No other token holds the file.
    Excl,
}

impl Right {
    /// Whether it is at least as high as the one that is needed.
    pub fn reaches(self, need: Right) -> bool
        ensures { result ≡ reaches self need }
    {
        match (self, need) {
            (_, Right::Null) | (Right::Excl, _) => true,
            (Right::Shared, Right::Shared) => true,
            _ => false,
        }
    }

    /// Whether no two tokens may have these on one file.
    pub fn excludes(self, other: Right) -> bool
        ensures { result ≡ excludes self other }
    {
        match (self, other) {
            (Right::Null, _) | (_, Right::Null) => false,
            (Right::Shared, Right::Shared) => false,
            _ => true,
        }
    }
}

/// Who may make a call, and what it must name.
#[derive(Clone, Copy, PartialEq, Eq)]
pub enum Scope {
    /// No session is needed.
    Anyone,
    /// A live session.
    InSession,
    /// A live session, and a token that is outstanding to it.
    OnToken {
        token: Token,
    },
    /// A live session and a file, with a token that is outstanding to the session and has that right on the file; or with token 0, where no token's
    /// right excludes that one.
    OnFile {
        token: Token,
        handle: Handle,
        right: Right,
    },
    /// A live session, a token that is outstanding to it, and a file on which the token has that right.
    OnRight {
        token: Token,
        handle: Handle,
        right: Right,
    },
}

fn on_file(token: &Token, handle: &Handle, right: Right) -> Scope
    ensures { result ≡ OnFile token.now handle.now right }
{
    Scope::OnFile {
        token: *token,
        handle: *handle,
        right,
    }
}

fn on_right(token: &Token, handle: &Handle, right: Right) -> Scope
    ensures { result ≡ OnRight token.now handle.now right }
{
    Scope::OnRight {
        token: *token,
        handle: *handle,
        right,
    }
}

impl DmCall {
    /// Who may make the call, and what it names.
    pub fn scope(&self) -> Scope
        ensures { result ≡ scope_of self.now }
    {
        match self {
            DmCall::CreateSession { .. } | DmCall::GetAllSessions | DmCall::QuerySession { .. } => {
                Scope::Anyone
            }
            DmCall::FindEventMsg { token, .. } | DmCall::Respond { token, .. } => {
                Scope::OnToken { token: *token }
            }
            DmCall::GetFileAttr { token, handle }
            | DmCall::GetRegion { token, handle }
            | DmCall::GetDmAttr { token, handle, .. }
            | DmCall::GetAllDmAttr { token, handle }
            | DmCall::ReadInvis { token, handle, .. }
            | DmCall::ProbeHole { token, handle, .. }
            | DmCall::GetAllocInfo { token, handle } => on_file(token, handle, Right::Shared),
            DmCall::RequestRight { token, handle, .. }
            | DmCall::ReleaseRight { token, handle }
            | DmCall::QueryRight { token, handle } => on_right(token, handle, Right::Null),
            DmCall::UpgradeRight { token, handle } => on_right(token, handle, Right::Shared),
            DmCall::DowngradeRight { token, handle } => on_right(token, handle, Right::Excl),
            DmCall::SetRegion { token, handle, .. }
            | DmCall::SetDmAttr { token, handle, .. }
            | DmCall::RemoveDmAttr { token, handle, .. }
            | DmCall::WriteInvis { token, handle, .. }
            | DmCall::PunchHole { token, handle, .. }
            | DmCall::Seal { token, handle, .. }
            | DmCall::Restore { token, handle, .. } => on_file(token, handle, Right::Excl),
            DmCall::DestroySession
            | DmCall::SetDisp { .. }
            | DmCall::GetDisp
            | DmCall::GetEvents { .. }
            | DmCall::GetAllTokens
            | DmCall::CreateUserEvent { .. }
            | DmCall::SendMsg { .. }
            | DmCall::PathToHandle { .. }
            | DmCall::GetSpace
            | DmCall::GetTable => Scope::InSession,
        }
    }
}

/// What the store answers to a session's call.
#[derive(Drop)]
pub enum DmReply {
    Done,
    Session(Sid),
    /// The live sessions, in the order of their ids.
    Sids(Sids),
    Info(Word),
    /// The kinds that the session takes.
    Kinds(Kinds),
    /// A buffer of messages, and their tokens in order.
    Packed { bytes: Bytes, tokens: Tokens },
    /// The tokens that are outstanding to the session, in their order.
    Tokens(Tokens),
    Token(Token),
    /// What the token has on the file.
    Right(Right),
    /// A file's size in bytes, the number of the last event that completed a read, write or truncate of it, and how many of its blocks are mapped.
    Attr { size: u64, stamp: u64, blocks: u64 },
    /// The value of an attribute, or bytes of a file.
    Data(Bytes),
    Range { offset: u64, len: u64 },
    /// What is held of each segment, from the first on.
    Alloc(Segments),
    Regions(Regions),
    /// The names of the file's attributes, in their order.
    Names(Names),
    Handle(Handle),
    /// How many blocks are mapped, and how many there are.
    Space { used: u64, total: u64 },
    Table(Table),
    Refused(DmRefusal),
}

impl Clone for DmReply {
    ghost is_clone = { λ r s. s ≡ r };

    fn clone(&self) -> Result<DmReply, AllocError> {
        Ok(match self {
            DmReply::Done => DmReply::Done,
            DmReply::Session(sid) => DmReply::Session(*sid),
            DmReply::Sids(sids) => DmReply::Sids(sids.clone()?),
            DmReply::Info(info) => DmReply::Info(info.clone()?),
            DmReply::Kinds(kinds) => DmReply::Kinds(*kinds),
            DmReply::Packed { bytes, tokens } => DmReply::Packed {
                bytes: bytes.clone()?,
                tokens: tokens.clone()?,
            },
            DmReply::Tokens(tokens) => DmReply::Tokens(tokens.clone()?),
            DmReply::Token(token) => DmReply::Token(*token),
            DmReply::Right(right) => DmReply::Right(*right),
            DmReply::Attr {
                size,
                stamp,
                blocks,
            } => DmReply::Attr {
                size: *size,
                stamp: *stamp,
                blocks: *blocks,
            },
            DmReply::Data(bytes) => DmReply::Data(bytes.clone()?),
            DmReply::Range { offset, len } => DmReply::Range {
                offset: *offset,
                len: *len,
            },
            DmReply::Alloc(segments) => DmReply::Alloc(segments.clone()?),
            DmReply::Regions(regions) => DmReply::Regions(regions.clone()?),
            DmReply::Names(names) => DmReply::Names(names.clone()?),
            DmReply::Handle(handle) => DmReply::Handle(*handle),
            DmReply::Space { used, total } => DmReply::Space {
                used: *used,
                total: *total,
            },
            DmReply::Table(table) => DmReply::Table(table.clone()?),
            DmReply::Refused(why) => DmReply::Refused(*why),
        })
    }
}

/// Why a session's call was refused. Nothing has changed then but the history, and not even that after `Memory`, or after `Disk` from a closed store. A
/// fault of the disk in the event closes the store.
#[derive(Clone, Copy, Debug, PartialEq, Eq, Error)]
pub enum DmRefusal {
    NoSession,
    NoToken,
    NotYours { owner: Sid },
    NoObject,
    /// What the token has on the file.
    NeedRight { have: Right },
    /// The lowest other token whose right on the file excludes the one that is needed.
    Busy { token: Token },
    EventsLeft { count: u64 },
    Again,
    /// The bytes of the first message.
    TooSmall { need: u64 },
    /// The first bad region, from 0.
    BadRegion { index: u32 },
    NoAttr,
    Reserved,
    AttrTooBig { len: u64 },
    /// The lowest segment that is meant and offline.
    Offline { segment: u32 },
    NotSealed { segment: u32 },
    NotOffline { segment: u32 },
    /// The fingerprint that the bytes should have, and the one that they have.
    Changed { want: Fingerprint, got: Fingerprint },
    /// The lowest segment that is meant and that no region with all flags contains.
    Uncovered { segment: u32 },
    BadRange,
    BadResponse,
    /// More blocks are needed than are free.
    NoSpace { need: u64, free: u64 },
    TooMany { count: u64 },
    /// A call of the disk failed in this event, or the store is closed by such a fault.
    Disk,
    Memory,
}

impl fmt::Display for DmRefusal {
    fn fmt<W: fmt::Write>(&self, f: &mut fmt::Formatter<W>) -> fmt::Result {
        fmt::Display::fmt(&self.told(), f)
    }
}

impl DmRefusal {
    /// What it says.
    fn told(&self) -> Told {
        match *self {
            Self::NoSession => Words("no session has the id"),
            Self::NoToken => Words("the token isn't outstanding"),
            Self::NotYours { owner } => Number(
                "the token is outstanding to the session ",
                owner.0,
                "",
            ),
            Self::NoObject => Words("the handle isn't that of a file here"),
            Self::NeedRight { .. } => Words("the token's right on the file is too small"),
            Self::Busy { token } => Number(
                "the token ",
                token.0,
                " has a right on the file that excludes this",
            ),
            Self::EventsLeft { count } => Number(
                "",
                count,
                " messages are undelivered or outstanding",
            ),
            Self::Again => Words("nothing is undelivered"),
            Self::TooSmall { need } => Number("the first message takes ", need, " bytes"),
            Self::BadRegion { index } => Number("the region ", index.into(), " is bad"),
            Self::NoAttr => Words("no attribute has the name"),
            Self::Reserved => Words("the name is reserved"),
            Self::AttrTooBig { len } => Number("the value's length ", len, " is out of bounds"),
            Self::Offline { segment } => Number("the segment ", segment.into(), " is offline"),
            Self::NotSealed { segment } => Number("the segment ", segment.into(), " is not sealed"),
            Self::NotOffline { segment } => Number(
                "the segment ",
                segment.into(),
                " is not offline",
            ),
            Self::Changed { .. } => Words("the bytes have another fingerprint"),
            Self::Uncovered { segment } => Number(
                "the segment ",
                segment.into(),
                " is not covered",
            ),
            Self::BadRange => Words("the range is out of bounds"),
            Self::BadResponse => Words("an abort's error is from 1 to 255"),
            Self::NoSpace { need, free } => Blocks { need, free },
            Self::TooMany { count } => Number("the count ", count, " is out of bounds"),
            Self::Disk => Words("the disk failed"),
            Self::Memory => Words("no memory"),
        }
    }
}
