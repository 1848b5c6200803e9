//! What the migration daemon does next, by what it hears, in each state and by each refusal; and that it comes to rest.
ghost use Rattle.std.specs.Prelude.{◌≡◌, IfSome};
ghost use Rattle.migrate_daemon.specs.Machine.{IsWithin};

use hsm_policy::read_settings;
use hsm_types::{
    Act, Bytes, CopyRefusal, Digest, DmCall, DmRefusal, DmReply, FileKey, FileRow, FileRows,
    Fingerprint, Handle, Heard, Kinds, Place, Region, Regions, Response, Right, Segment, Segments,
    Sid, Sids, StubEntry, Table, Token, Tokens,
};
use migrate_daemon::{Migrator, Skip};
use std::alloc::Global;

/// What the daemon hears.
#[derive(Clone, Copy)]
enum Told {
    /// Nothing of what it did.
    Nothing,
    Done,
    /// No session lives.
    NoSids,
    /// The session 7 was made.
    Made,
    /// So many blocks of 1,000 are used.
    Space(u64),
    /// A message that an access is short of space, by token 4.
    Event,
    /// The files that there are, by their segments.
    Table(&'static [&'static [State]]),
    Regions(&'static [Region]),
    Data,
    /// No bytes.
    NoData,
    /// That the bytes were copied, or why they weren't.
    Copied(Result<(), CopyRefusal>),
    Refused(DmRefusal),
}

/// What it does next: each call but the first two is one of session 7.
#[derive(Clone, Copy, PartialEq, Eq)]
enum Next {
    List,
    /// Asks for a session beside the others.
    Make,
    /// Sets its kinds.
    Kinds,
    Space,
    Events,
    Table,
    /// Asks for the regions of that file.
    Cover(u64),
    /// Sets the one region of that file.
    Set(u64),
    /// Reads the segment of that file that begins there.
    Read(u64, u64),
    /// Copies that segment of the file to that volume.
    Copy(u64, u32, u32),
    /// Seals that segment of the file.
    Seal(u64, u32),
    /// Punches the segment of that file that begins there.
    Punch(u64, u64),
    /// Answers the event of that token: that its access goes on, or that it ends with that error.
    Continue(u64),
    Abort(u64, u32),
    Rest,
    /// Whatever else.
    Other,
}

/// What becomes of the pass.
#[derive(Clone, Copy, PartialEq, Eq)]
enum Fate {
    /// It has skipped nothing, and didn't end early.
    Goes,
    /// It has skipped the first segment, for what it heard last.
    Skips,
    /// It ended early, by what it heard last.
    Ends,
    /// Whatever else.
    Other,
}

const PRINT: Fingerprint = Fingerprint {
    len: 5,
    digest: Digest([0; 32]),
};

/// What is held of a segment: 16 blocks of bytes, these and an entry, or the entry alone.
#[derive(Clone, Copy)]
enum State {
    Resident,
    Sealed,
    Away,
}

const HELD: State = State::Resident;

const SEALED: State = State::Sealed;

const AWAY: State = State::Away;

/// An access by token 4 to the file 1.1.1 is short of space.
static NO_SPACE: [u8; 64] = [
    0, 0, 0, 0, 0, 0, 0, 4, 0, 0, 0, 0, 0, 0, 0, 4, 0, 0, 0, 40, 0, 0, 0, 0, 0, 0, 0, 0, 0, 0, 0,
    1, 0, 0, 0, 0, 0, 0, 0, 1, 0, 0, 0, 0, 0, 0, 0, 1, 0, 0, 0, 0, 0, 0, 0, 0, 0, 0, 0, 0, 0, 0, 0,
    3,
];

/// The one region that a daemon sets.
static WHOLE: [Region; 1] = [Region {
    offset: 0,
    size: 0,
    flags: 7,
}];

/// What is read of a segment.
static READ: [u8; 5] = *b"bytes";

const COVERED: Told = Told::Regions(&[Region {
    offset: 0,
    size: 0,
    flags: 7,
}]);

/// Of the first file this covers the second segment alone.
const COVERED_BEHIND: Told = Told::Regions(&[Region {
    offset: 65_536,
    size: 0,
    flags: 7,
}]);

const COVERED_FOR_READS: Told = Told::Regions(&[Region {
    offset: 0,
    size: 0,
    flags: 1,
}]);

const BARE: Told = Told::Regions(&[]);

/// More blocks are used than 80 percent.
const ABOVE: Told = Told::Space(801);

/// 80 percent of the blocks are used.
const BELOW: Told = Told::Space(800);

const AGAIN: Told = Told::Refused(DmRefusal::Again);

const COPIED: Told = Told::Copied(Ok(()));

const FULL: Told = Told::Copied(Err(CopyRefusal::Full {
    used: 1,
    len: 2,
    capacity: 2,
}));

const NO_VOLUME: Told = Told::Copied(Err(CopyRefusal::NoVolume));

const FAILED: Told = Told::Copied(Err(CopyRefusal::Failed {
    before: 1,
    after: 2,
}));

const DAMAGED: Told = Told::Copied(Err(CopyRefusal::Damaged {
    want: PRINT,
    got: PRINT,
}));

const NO_MEMORY: Told = Told::Copied(Err(CopyRefusal::Memory));

/// Three files with a segment each that a pass may take: the first of the first file, the second of the second, and the third of the third, which is
/// sealed.
const TABLE: Told = Told::Table(&[&[HELD], &[AWAY, HELD], &[AWAY, AWAY, SEALED]]);

const SEALED_TABLE: Told = Told::Table(&[&[SEALED], &[AWAY, HELD]]);

const ONE_TABLE: Told = Told::Table(&[&[SEALED]]);

const NO_FILES: Told = Told::Table(&[]);

const NO_SESSION: Told = Told::Refused(DmRefusal::NoSession);

/// What it hears until it has a session.
static SEATED: [Told; 4] = [Told::Nothing, Told::NoSids, Told::Made, Told::Done];

/// What it hears from there on in each state.
const MEASURING: &[Told] = &[];

const ASKING: &[Told] = &[ABOVE];

const ASKING_BELOW: &[Told] = &[BELOW];

/// It keeps an event.
const ASKING_SHORT: &[Told] = &[BELOW, Told::Event];

const LOOKING: &[Told] = &[ABOVE, AGAIN];

const RESTING: &[Told] = &[BELOW, AGAIN];

const COVERING: &[Told] = &[ABOVE, AGAIN, TABLE];

const SETTING: &[Told] = &[ABOVE, AGAIN, TABLE, BARE];

const READING: &[Told] = &[ABOVE, AGAIN, TABLE, COVERED];

const COPYING: &[Told] = &[ABOVE, AGAIN, TABLE, COVERED, Told::Data];

const COPYING_LAST: &[Told] = &[ABOVE, AGAIN, TABLE, COVERED, Told::Data, FULL, Told::Data];

const SEALING: &[Told] = &[ABOVE, AGAIN, TABLE, COVERED, Told::Data, COPIED];

const PUNCHING: &[Told] = &[ABOVE, AGAIN, TABLE, COVERED, Told::Data, COPIED, Told::Done];

/// At a sealed segment.
const COVERING_SEALED: &[Told] = &[ABOVE, AGAIN, SEALED_TABLE];

const SETTING_SEALED: &[Told] = &[ABOVE, AGAIN, SEALED_TABLE, BARE];

const PUNCHING_LAST: &[Told] = &[ABOVE, AGAIN, ONE_TABLE, COVERED];

/// In a pass for an event.
const PUNCHING_SHORT: &[Told] = &[BELOW, Told::Event, AGAIN, ONE_TABLE, COVERED];

const COPYING_SHORT: &[Told] = &[BELOW, Told::Event, AGAIN, TABLE, COVERED, Told::Data];

const LOOKING_SHORT: &[Told] = &[BELOW, Told::Event, AGAIN];

/// After a pass for an event, that was none by `high`.
const ANSWERING: &[Told] = &[BELOW, Told::Event, AGAIN, NO_FILES];

/// After one that was due by `high` too.
const ANSWERING_BOTH: &[Told] = &[ABOVE, Told::Event, AGAIN, NO_FILES];

const AFTER_PASS: &[Told] = &[ABOVE, AGAIN, NO_FILES];

const ABORT: Next = Next::Abort(4, 28);

/// What it hears between passes, and what it does.
static BETWEEN: [(&[Told], Told, Next); 29] = [
    (RESTING, Told::Nothing, Next::Space),
    (RESTING, Told::Done, Next::Space),
    (RESTING, NO_SESSION, Next::Space),
    (MEASURING, ABOVE, Next::Events),
    (MEASURING, BELOW, Next::Events),
    (MEASURING, Told::Nothing, Next::Space),
    (MEASURING, Told::Done, Next::Space),
    (MEASURING, Told::Event, Next::Space),
    (ASKING, Told::Event, Next::Events),
    (ASKING, AGAIN, Next::Table),
    (ASKING, Told::Nothing, Next::Events),
    (ASKING, Told::Done, Next::Events),
    (ASKING_BELOW, AGAIN, Next::Rest),
    (ASKING_BELOW, Told::Event, Next::Events),
    (ASKING_SHORT, AGAIN, Next::Table),
    (LOOKING, TABLE, Next::Cover(1)),
    (LOOKING, NO_FILES, Next::Events),
    (LOOKING, Told::Nothing, Next::Table),
    (LOOKING, Told::Done, Next::Table),
    (LOOKING_SHORT, NO_FILES, ABORT),
    (ANSWERING, Told::Done, Next::Space),
    (ANSWERING, Told::Nothing, ABORT),
    (ANSWERING, BELOW, ABORT),
    (ANSWERING_BOTH, Told::Done, Next::Events),
    (ANSWERING_BOTH, Told::Nothing, ABORT),
    (AFTER_PASS, AGAIN, Next::Rest),
    (AFTER_PASS, Told::Event, Next::Events),
    (PUNCHING_LAST, Told::Done, Next::Events),
    (PUNCHING_SHORT, Told::Done, Next::Continue(4)),
];

/// What it hears in a pass, what it does, and what becomes of the pass.
static WITHIN: [(&[Told], Told, Next, Fate); 42] = [
    (COVERING, COVERED, Next::Read(1, 0), Fate::Goes),
    (COVERING, BARE, Next::Set(1), Fate::Goes),
    (COVERING, COVERED_BEHIND, Next::Set(1), Fate::Goes),
    (COVERING, COVERED_FOR_READS, Next::Set(1), Fate::Goes),
    (COVERING, Told::Nothing, Next::Cover(1), Fate::Goes),
    (COVERING, Told::Done, Next::Cover(1), Fate::Goes),
    (COVERING, COPIED, Next::Cover(1), Fate::Goes),
    (COVERING_SEALED, COVERED, Next::Punch(1, 0), Fate::Goes),
    (COVERING_SEALED, BARE, Next::Set(1), Fate::Goes),
    (SETTING, Told::Done, Next::Read(1, 0), Fate::Goes),
    (SETTING, Told::Nothing, Next::Set(1), Fate::Goes),
    (SETTING, COVERED, Next::Set(1), Fate::Goes),
    (SETTING, FAILED, Next::Set(1), Fate::Goes),
    (SETTING_SEALED, Told::Done, Next::Punch(1, 0), Fate::Goes),
    (READING, Told::Data, Next::Copy(1, 0, 0), Fate::Goes),
    (READING, Told::NoData, Next::Cover(2), Fate::Skips),
    (READING, Told::Nothing, Next::Read(1, 0), Fate::Goes),
    (READING, Told::Done, Next::Read(1, 0), Fate::Goes),
    (READING, FULL, Next::Read(1, 0), Fate::Goes),
    (COPYING, COPIED, Next::Seal(1, 0), Fate::Goes),
    (COPYING, FULL, Next::Read(1, 0), Fate::Goes),
    (COPYING, NO_VOLUME, Next::Read(1, 0), Fate::Goes),
    (COPYING, NO_MEMORY, Next::Read(1, 0), Fate::Goes),
    (COPYING, FAILED, Next::Events, Fate::Ends),
    (COPYING, DAMAGED, Next::Events, Fate::Ends),
    (COPYING, Told::Nothing, Next::Read(1, 0), Fate::Goes),
    (COPYING, Told::Done, Next::Read(1, 0), Fate::Goes),
    (COPYING_LAST, COPIED, Next::Seal(1, 0), Fate::Goes),
    (COPYING_LAST, FULL, Next::Events, Fate::Ends),
    (COPYING_LAST, NO_VOLUME, Next::Events, Fate::Ends),
    (COPYING_LAST, NO_MEMORY, Next::Read(1, 0), Fate::Goes),
    (COPYING_LAST, FAILED, Next::Events, Fate::Ends),
    (COPYING_LAST, DAMAGED, Next::Events, Fate::Ends),
    (COPYING_LAST, Told::Nothing, Next::Read(1, 0), Fate::Goes),
    (COPYING_SHORT, FAILED, ABORT, Fate::Ends),
    (SEALING, Told::Done, Next::Punch(1, 0), Fate::Goes),
    (SEALING, Told::Nothing, Next::Seal(1, 0), Fate::Goes),
    (SEALING, Told::Data, Next::Seal(1, 0), Fate::Goes),
    (PUNCHING, Told::Done, Next::Cover(2), Fate::Goes),
    (PUNCHING, Told::Nothing, Next::Punch(1, 0), Fate::Goes),
    (PUNCHING, Told::Data, Next::Punch(1, 0), Fate::Goes),
    (PUNCHING, NO_VOLUME, Next::Punch(1, 0), Fate::Goes),
];

/// Between passes: what it does where it is refused with `NoSession`, with `Again`, as the token isn't outstanding to its session, and by any other
/// cause.
static REFUSED: [(&[Told], Next, Next, Next, Next); 10] = [
    (RESTING, Next::Space, Next::Space, Next::Space, Next::Space),
    (MEASURING, Next::List, Next::Space, Next::Space, Next::Space),
    (ASKING, Next::List, Next::Table, Next::Events, Next::Events),
    (
        ASKING_BELOW,
        Next::List,
        Next::Rest,
        Next::Events,
        Next::Events,
    ),
    (
        ASKING_SHORT,
        Next::List,
        Next::Table,
        Next::Events,
        Next::Events,
    ),
    (LOOKING, Next::List, Next::Table, Next::Table, Next::Table),
    (
        LOOKING_SHORT,
        Next::List,
        Next::Table,
        Next::Table,
        Next::Table,
    ),
    (ANSWERING, Next::List, ABORT, Next::Space, ABORT),
    (ANSWERING_BOTH, Next::List, ABORT, Next::Events, ABORT),
    (
        AFTER_PASS,
        Next::List,
        Next::Rest,
        Next::Events,
        Next::Events,
    ),
];

/// The calls of a pass at the first segment.
static CALLS: [(&[Told], Next); 6] = [
    (COVERING, Next::Cover(1)),
    (SETTING, Next::Set(1)),
    (READING, Next::Read(1, 0)),
    (SEALING, Next::Seal(1, 0)),
    (PUNCHING, Next::Punch(1, 0)),
    // a copy, of which no refusal of a call says anything
    (COPYING, Next::Read(1, 0)),
];

const ON: Fate = Fate::Goes;

const SKIPS: Fate = Fate::Skips;

const ENDS: Fate = Fate::Ends;

const EACH_ON: &[Fate] = &[ON, ON, ON, ON, ON, ON];

/// What becomes of the pass by each refusal, at each of these.
static FATES: [(DmRefusal, &[Fate]); 24] = [
    (DmRefusal::NoSession, &[ENDS, ENDS, ENDS, ENDS, ENDS, ON]),
    (DmRefusal::NoToken, EACH_ON),
    (DmRefusal::NotYours { owner: Sid(8) }, EACH_ON),
    (
        DmRefusal::NoObject,
        &[SKIPS, SKIPS, SKIPS, SKIPS, SKIPS, ON],
    ),
    (DmRefusal::NeedRight { have: Right::Null }, EACH_ON),
    (
        DmRefusal::Busy { token: Token(9) },
        &[SKIPS, SKIPS, SKIPS, SKIPS, SKIPS, ON],
    ),
    (DmRefusal::EventsLeft { count: 1 }, EACH_ON),
    (DmRefusal::Again, EACH_ON),
    (DmRefusal::TooSmall { need: 64 }, EACH_ON),
    (DmRefusal::BadRegion { index: 0 }, EACH_ON),
    (DmRefusal::NoAttr, EACH_ON),
    (DmRefusal::Reserved, EACH_ON),
    (DmRefusal::AttrTooBig { len: 1 }, EACH_ON),
    (
        DmRefusal::Offline { segment: 0 },
        &[ON, ON, SKIPS, SKIPS, SKIPS, ON],
    ),
    (
        DmRefusal::NotSealed { segment: 0 },
        &[ON, ON, ON, ON, SKIPS, ON],
    ),
    (DmRefusal::NotOffline { segment: 0 }, EACH_ON),
    (
        DmRefusal::Changed {
            want: PRINT,
            got: PRINT,
        },
        &[ON, ON, ON, SKIPS, ON, ON],
    ),
    (
        DmRefusal::Uncovered { segment: 0 },
        &[ON, ON, ON, ON, SKIPS, ON],
    ),
    (DmRefusal::BadRange, &[ON, ON, ON, SKIPS, SKIPS, ON]),
    (DmRefusal::BadResponse, EACH_ON),
    (DmRefusal::NoSpace { need: 1, free: 0 }, EACH_ON),
    (
        DmRefusal::TooMany { count: 64 },
        &[ON, ON, ON, ENDS, ON, ON],
    ),
    (DmRefusal::Disk, EACH_ON),
    (DmRefusal::Memory, EACH_ON),
];

/// What it hears of a copy, or of nothing that it asked.
static OTHERWISE: [Told; 8] = [
    Told::Nothing,
    COPIED,
    FULL,
    NO_VOLUME,
    FAILED,
    DAMAGED,
    NO_MEMORY,
    Told::NoData,
];

/// The entry of each segment that has one.
fn entry_of_all() -> StubEntry {
    let place = Place {
        volume: 1,
        object: 3,
    };
    StubEntry::new(place, PRINT)
}

fn segment(state: State) -> Segment {
    match state {
        State::Resident => Segment::Resident { blocks: 16 },
        State::Sealed => Segment::Sealed {
            blocks: 16,
            entry: entry_of_all(),
        },
        State::Away => Segment::Offline {
            entry: entry_of_all(),
        },
    }
}

/// `None` for want of memory.
fn row(alloc: Global, number: u64, all: &[State]) -> Option<FileRow> {
    let mut segments = Vec::new(alloc);
    for state in all {
        segments.push(segment(*state)).ok()?;
    }
    Some(FileRow {
        handle: file(number),
        size: 0,
        stamp: number,
        segments: Segments::from(segments),
    })
}

fn file(number: u64) -> Handle {
    Handle {
        fsid: 1,
        key: FileKey {
            ino: number,
            igen: 1,
        },
    }
}

/// `None` for want of memory.
fn table(alloc: Global, files: &[&[State]]) -> Option<Table> {
    let mut rows = Vec::with_capacity(alloc, files.len()).ok()?;
    for (place, segments) in files.iter().enumerate() {
        rows.push(row(alloc, place as u64 + 1, segments)?).ok()?;
    }
    Some(Table {
        used: 801,
        total: 1000,
        files: FileRows::from(rows),
    })
}

/// `None` for want of memory.
fn bytes(alloc: Global, bytes: &[u8]) -> Option<Bytes>
    ensures { IfSome result (λ copy. copy ≡ bytes.now) }
{
    Some(Bytes::from(bytes.to_vec(alloc).ok()?))
}

/// `None` for want of memory.
fn reply(alloc: Global, told: Told) -> Option<DmReply>
    ensures { IfSome result (λ reply. IsWithin (Heard.Dm reply)) }
{
    Some(match told {
        Told::NoSids => DmReply::Sids(Sids::from(Vec::new(alloc))),
        Told::Made => DmReply::Session(Sid(7)),
        Told::Space(used) => DmReply::Space { used, total: 1000 },
        Told::Event => DmReply::Packed {
            bytes: bytes(alloc, &NO_SPACE)?,
            tokens: Tokens::from(Vec::new(alloc)),
        },
        Told::Table(files) => DmReply::Table(table(alloc, files)?),
        Told::Regions(regions) => DmReply::Regions(Regions::from(regions.to_vec(alloc).ok()?)),
        Told::Data => DmReply::Data(bytes(alloc, &READ)?),
        Told::NoData => DmReply::Data(Bytes::from(Vec::new(alloc))),
        Told::Refused(why) => DmReply::Refused(why),
        Told::Done | Told::Nothing | Told::Copied(_) => DmReply::Done,
    })
}

/// `None` for want of memory.
fn heard(alloc: Global, told: Told) -> Option<Heard>
    ensures { IfSome result IsWithin }
{
    match told {
        Told::Nothing => Some(Heard::Nothing),
        Told::Copied(Ok(())) => Some(Heard::Copied(Ok(entry_of_all()))),
        Told::Copied(Err(why)) => Some(Heard::Copied(Err(why))),
        _ => Some(Heard::Dm(reply(alloc, told)?)),
    }
}

fn migrate_kinds() -> Kinds {
    Kinds {
        read: false,
        write: false,
        truncate: false,
        no_space: true,
    }
}

/// The number of the file, or 0 for a handle of none.
fn number(handle: &Handle) -> u64 {
    if *handle == file(handle.key.ino) {
        handle.key.ino
    } else {
        0
    }
}

/// What that call is, of no session.
fn called_outside(call: &DmCall) -> Next {
    match call {
        DmCall::GetAllSessions => Next::List,
        DmCall::CreateSession { old, info } => {
            if old.0 == 0 && info.as_slice() == b"HSMMIGRATE".as_slice() {
                Next::Make
            } else {
                Next::Other
            }
        }
        _ => Next::Other,
    }
}

/// What that call is, of its session and outside of passes.
fn called_between(call: &DmCall) -> Next {
    match call {
        DmCall::SetDisp { kinds } if *kinds == migrate_kinds() => Next::Kinds,
        DmCall::GetSpace => Next::Space,
        DmCall::GetEvents {
            max: 0,
            room: 65_536,
        } => Next::Events,
        DmCall::GetTable => Next::Table,
        DmCall::Respond { token, response } => match response {
            Response::Continue => Next::Continue(token.0),
            Response::Abort(error) => Next::Abort(token.0, *error),
            Response::Media(_) => Next::Other,
        },
        _ => called_within(call),
    }
}

/// What that call is, of a pass.
fn called_within(call: &DmCall) -> Next {
    match call {
        DmCall::GetRegion {
            token: Token(0),
            handle,
        } => Next::Cover(number(handle)),
        DmCall::SetRegion {
            token: Token(0),
            handle,
            regions,
        } if regions.as_slice() == WHOLE.as_slice() => Next::Set(number(handle)),
        DmCall::ReadInvis {
            token: Token(0),
            handle,
            offset,
            len: 65_536,
        } => Next::Read(number(handle), *offset),
        DmCall::Seal {
            token: Token(0),
            handle,
            segment,
            entry,
        } if *entry == entry_of_all() => Next::Seal(number(handle), *segment),
        DmCall::PunchHole {
            token: Token(0),
            handle,
            offset,
            len: 65_536,
        } => Next::Punch(number(handle), *offset),
        _ => Next::Other,
    }
}

fn next_of(act: &Act) -> Next {
    match act {
        Act::Dm(Sid(0), call) => called_outside(call),
        Act::Dm(Sid(7), call) => called_between(call),
        Act::Copy {
            volume,
            handle,
            segment,
            bytes,
        } if bytes.as_slice() == READ.as_slice() => {
            Next::Copy(number(handle), *segment, *volume)
        }
        Act::Idle => Next::Rest,
        _ => Next::Other,
    }
}

/// Whether both are the same refusal, or the same data.
fn is_same(reply: &DmReply, other: &DmReply) -> bool {
    match (reply, other) {
        (DmReply::Refused(why), DmReply::Refused(other)) => why == other,
        (DmReply::Data(bytes), DmReply::Data(other)) => bytes.as_slice() == other.as_slice(),
        _ => false,
    }
}

/// Whether both tell of a call the same, or of a copy the same refusal.
fn is_heard(told: &Heard, other: &Heard) -> bool {
    match (told, other) {
        (Heard::Dm(reply), Heard::Dm(other)) => is_same(reply, other),
        (Heard::Copied(Err(why)), Heard::Copied(Err(other))) => why == other,
        _ => false,
    }
}

/// Whether it is the first segment of the first file, for that answer.
fn is_first(skip: &Skip, told: &Heard) -> bool {
    match told {
        Heard::Dm(why) => skip.handle == file(1) && skip.segment == 0 && is_same(&skip.why, why),
        _ => false,
    }
}

fn fate_of(machine: &Migrator, told: &Heard) -> Fate {
    match (machine.skipped(), machine.ended()) {
        ([], None) => Fate::Goes,
        ([skip], None) if is_first(skip, told) => Fate::Skips,
        ([], Some(why)) if is_heard(why, told) => Fate::Ends,
        _ => Fate::Other,
    }
}

/// The machine hears these. `None` for want of memory.
fn follow(machine: &mut Migrator, alloc: Global, before: &[Told]) -> Option<()> {
    for told in before {
        machine.next(heard(alloc, *told)?).ok()?;
    }
    Some(())
}

/// A machine at its start, for two volumes. `None` for want of memory.
fn started(alloc: Global) -> Option<Migrator> {
    let settings = read_settings(alloc, b"volumes = 2").ok()?;
    Some(Migrator::start(alloc, &settings))
}

/// What a machine does that hears this once it has a session, and what becomes of its pass. `None` for want of memory.
fn outcome(alloc: Global, before: &[Told], last: Told) -> Option<(Next, Fate)> {
    let mut machine = started(alloc)?;
    follow(&mut machine, alloc, &SEATED)?;
    follow(&mut machine, alloc, before)?;
    let act = machine.next(heard(alloc, last)?).ok()?;
    let fate = fate_of(&machine, &heard(alloc, last)?);
    Some((next_of(&act), fate))
}

/// What it does.
fn act_at(alloc: Global, before: &[Told], last: Told) -> Option<Next> {
    let (next, _) = outcome(alloc, before, last)?;
    Some(next)
}

#[test]
fn goes_on_between_passes(rt: HostRuntime) {
    for (place, (before, last, want)) in BETWEEN.iter().enumerate() {
        let next = act_at(rt.alloc(), before, *last);
        assert!(rt; next == Some(*want), "row {place}");
    }
}

#[test]
fn goes_on_in_a_pass(rt: HostRuntime) {
    for (place, (before, last, want, fate)) in WITHIN.iter().enumerate() {
        let outcome = outcome(rt.alloc(), before, *last);
        assert!(rt; outcome == Some((*want, *fate)), "row {place}");
    }
}

#[test]
fn goes_on_between_passes_by_what_refuses_it(rt: HostRuntime) {
    for (place, (before, gone, again, lost, otherwise)) in REFUSED.iter().enumerate() {
        for (number, (why, _)) in FATES.iter().enumerate() {
            let want = match why {
                DmRefusal::NoSession => *gone,
                DmRefusal::Again => *again,
                DmRefusal::NoToken | DmRefusal::NotYours { .. } => *lost,
                _ => *otherwise,
            };
            let next = act_at(rt.alloc(), before, Told::Refused(*why));
            assert!(rt; next == Some(want), "row {place}, refusal {number}");
        }
    }
}

/// What it does at that refusal of a call, where the pass has that fate.
fn then(asked: Next, why: DmRefusal, fate: Fate) -> Next {
    match (fate, why) {
        (Fate::Skips, _) => Next::Cover(2),
        (Fate::Ends, DmRefusal::NoSession) => Next::List,
        (Fate::Ends, _) => Next::Events,
        _ => asked,
    }
}

#[test]
fn goes_on_in_a_pass_by_what_refuses_it(rt: HostRuntime) {
    for (number, (why, fates)) in FATES.iter().enumerate() {
        assert!(rt; fates.len() == CALLS.len(), "refusal {number}");
        for (place, (call, fate)) in CALLS.iter().zip(fates.iter()).enumerate() {
            let outcome = outcome(rt.alloc(), call.0, Told::Refused(*why));
            let want = (then(call.1, *why, *fate), *fate);
            assert!(rt; outcome == Some(want), "refusal {number}, call {place}");
        }
    }
}

// ---- rests

/// As many acts as it does between its start and its rest, of three picks of which one is sealed, at a store and a drive that do what they are asked.
const ACTS: usize = 22;

/// As many as it takes to a session and a table.
const FIRST: usize = 6;

/// What a store and a drive answer that do what they are asked. More blocks stay used than `high`.
fn answer(next: Next) -> Told {
    match next {
        Next::List => Told::NoSids,
        Next::Make => Told::Made,
        Next::Space => ABOVE,
        Next::Events => AGAIN,
        Next::Table => TABLE,
        Next::Cover(_) => BARE,
        Next::Read(..) => Told::Data,
        Next::Copy(..) => COPIED,
        Next::Kinds | Next::Set(_) | Next::Seal(..) | Next::Punch(..) => Told::Done,
        Next::Continue(_) | Next::Abort(..) => Told::Done,
        Next::Rest | Next::Other => Told::Nothing,
    }
}

/// After how many acts it rests, where the act of that number is answered otherwise. `None` where it hasn't after as many as that may take, where it
/// does what it shouldn't, and for want of memory.
fn acts_to_rest(alloc: Global, place: usize, otherwise: Told) -> Option<usize> {
    let mut machine = started(alloc)?;
    let mut told = Told::Nothing;
    for count in 0..=ACTS + FIRST {
        let next = next_of(&machine.next(heard(alloc, told)?).ok()?);
        told = match next {
            Next::Rest => return Some(count),
            Next::Other => return None,
            _ if count == place => otherwise,
            _ => answer(next),
        };
    }
    None
}

/// Which act is answered otherwise, and after how many it rests. Behind the table, 6 is the first act of the pass, 9 its first copy and 11 its first punch.
static RUNS: [(usize, Told, usize); 11] = [
    (ACTS, Told::Nothing, ACTS),
    (1, Told::Refused(DmRefusal::TooMany { count: 64 }), 2),
    // one more call for events, and the answer to one
    (4, Told::Event, ACTS + 2),
    (5, NO_SESSION, ACTS + FIRST),
    (6, Told::Refused(DmRefusal::NoObject), ACTS - 5),
    (8, Told::NoData, ACTS - 3),
    (9, FULL, ACTS + 2),
    (9, NO_VOLUME, ACTS + 2),
    (9, NO_MEMORY, ACTS + 2),
    (9, FAILED, 11),
    // no pass by `high` begins in the new session
    (11, NO_SESSION, 16),
];

#[test]
fn comes_to_rest(rt: HostRuntime) {
    for (row, (place, otherwise, want)) in RUNS.iter().enumerate() {
        let acts = acts_to_rest(rt.alloc(), *place, *otherwise);
        assert!(rt; acts == Some(*want), "row {row}");
    }
}

#[test]
fn comes_to_rest_whatever_refuses_a_call(rt: HostRuntime) {
    for place in 0..ACTS {
        for (number, (why, _)) in FATES.iter().enumerate() {
            let acts = acts_to_rest(rt.alloc(), place, Told::Refused(*why));
            assert!(rt; acts.is_some(), "act {place}, refusal {number}");
        }
    }
}

#[test]
fn comes_to_rest_whatever_it_hears(rt: HostRuntime) {
    for place in 0..ACTS {
        for (number, told) in OTHERWISE.iter().enumerate() {
            let acts = acts_to_rest(rt.alloc(), place, *told);
            assert!(rt; acts.is_some(), "act {place}, answer {number}");
        }
    }
}
