//! Where the machine is, and what it does next.
ghost use Rattle.std.specs.Prelude.{◌≡◌, ◌*◌, ◌<◌, ◌≤◌, length, IfOk};
ghost use Rattle.migrate_daemon.specs.Passes.{copies, whole_file};
ghost use Rattle.migrate_daemon.specs.Stages.{works};

use crate::progress::Progress;
use hsm_policy::Picked;
use hsm_types::{
    ALL_FLAGS, Act, Bytes, DmCall, Region, Regions, SEGMENT_BYTES, Sid, StubEntry, Token, Verified,
};
use std::alloc::{AllocError, Global};

const NO_TOKEN: Token = Token(0);

/// What the machine waits for.
#[derive(Clone, Copy, PartialEq, Eq)]
pub(crate) enum Stage {
    /// Nothing, and it has no session.
    Outside,
    /// An answer on the way to a session.
    Entering,
    /// Nothing, and it has a session.
    Resting { sid: Sid },
    /// How much space is used.
    Measuring { sid: Sid },
    /// Events.
    Asking { sid: Sid },
    /// The table, of which a pass picks.
    Looking { sid: Sid },
    /// The answer to a call of a pass.
    Working { pick: Picked, work: Work },
    /// The entry of a copy.
    Copying { pick: Picked },
    /// That an event is answered.
    Answering { sid: Sid, token: Token },
}

/// The calls of a pass on a segment.
#[derive(Clone, Copy, PartialEq, Eq)]
pub(crate) enum Work {
    /// Which regions the file has.
    Covering,
    /// One region, the whole file.
    Setting,
    Reading,
    Sealing { entry: StubEntry },
    Punching,
}

/// What the machine does next, and waits for then.
#[derive(Drop)]
pub(crate) struct Turn {
    pub(crate) stage: Stage,
    pub(crate) act: Act,
}

fn start_of(pick: Picked) -> u64
    ensures { result ≡ SEGMENT_BYTES * pick.segment }
{
    SEGMENT_BYTES * u64::from(pick.segment)
}

fn working(pass: &Progress, pick: Picked, work: Work, call: DmCall) -> Turn
    ensures { result ≡ record { stage = Stage.Working pick work; act = Act.Dm pass.now.sid call } }
{
    Turn {
        stage: Stage::Working { pick, work },
        act: Act::Dm(pass.sid(), call),
    }
}

/// Asks which regions the segment's file has.
pub(crate) fn ask_regions(pass: &Progress, pick: Picked) -> Turn
    ensures { result ≡ works pass.now.sid pick Work.Covering }
{
    let call = DmCall::GetRegion {
        token: NO_TOKEN,
        handle: pick.handle,
    };
    working(pass, pick, Work::Covering, call)
}

/// Sets the one region of the segment's file.
pub(crate) fn set_regions(pass: &Progress, pick: Picked) -> Result<Turn, AllocError>
    ensures { IfOk result (λ turn. turn ≡ works pass.now.sid pick Work.Setting) }
{
    let call = DmCall::SetRegion {
        token: NO_TOKEN,
        handle: pick.handle,
        regions: whole_file(pass.allocator())?,
    };
    Ok(working(pass, pick, Work::Setting, call))
}

fn whole_file(alloc: Global) -> Result<Regions, AllocError>
    ensures { IfOk result (λ regions. regions ≡ whole_file) }
{
    let mut regions = Vec::with_capacity(alloc, 1)?;
    regions.push(Region {
        offset: 0,
        size: 0,
        flags: ALL_FLAGS,
    })?;
    Ok(Regions::from(regions))
}

/// Reads the segment's bytes.
pub(crate) fn read(pass: &Progress, pick: Picked) -> Turn
    ensures { result ≡ works pass.now.sid pick Work.Reading }
{
    let call = DmCall::ReadInvis {
        token: NO_TOKEN,
        handle: pick.handle,
        offset: start_of(pick),
        len: SEGMENT_BYTES,
    };
    working(pass, pick, Work::Reading, call)
}

/// Copies the segment's bytes to the lowest volume that wasn't found full.
pub(crate) fn copy(pass: &Progress, pick: Picked, bytes: Bytes) -> Turn
    requires { length bytes ≤ SEGMENT_BYTES }
    ensures { result ≡ record { stage = Stage.Copying pick; act = copies pick pass.now.volume bytes } }
{
    Turn {
        stage: Stage::Copying { pick },
        act: Act::Copy {
            volume: pass.volume(),
            handle: pick.handle,
            segment: pick.segment,
            bytes: Verified::of(bytes),
        },
    }
}

/// Seals the segment, with the entry of its copy.
pub(crate) fn seal(pass: &Progress, pick: Picked, entry: StubEntry) -> Turn
    ensures { result ≡ works pass.now.sid pick (Work.Sealing entry) }
{
    let call = DmCall::Seal {
        token: NO_TOKEN,
        handle: pick.handle,
        segment: pick.segment,
        entry,
    };
    working(pass, pick, Work::Sealing { entry }, call)
}

/// Punches the segment alone.
pub(crate) fn punch(pass: &Progress, pick: Picked) -> Turn
    ensures { result ≡ works pass.now.sid pick Work.Punching }
{
    let call = DmCall::PunchHole {
        token: NO_TOKEN,
        handle: pick.handle,
        offset: start_of(pick),
        len: SEGMENT_BYTES,
    };
    working(pass, pick, Work::Punching, call)
}

/// Makes the same call again.
pub(crate) fn again(pass: &Progress, pick: Picked, work: Work) -> Result<Turn, AllocError>
    ensures { IfOk result (λ turn. turn ≡ works pass.now.sid pick work) }
{
    match work {
        Work::Covering => Ok(ask_regions(pass, pick)),
        Work::Setting => set_regions(pass, pick),
        Work::Reading => Ok(read(pass, pick)),
        Work::Sealing { entry } => Ok(seal(pass, pick, entry)),
        Work::Punching => Ok(punch(pass, pick)),
    }
}
