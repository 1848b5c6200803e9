//! What a daemon waits for when it has given an act, and what comes of it.
ghost use Rattle.std.specs.Prelude.{◌≡◌};
ghost use Rattle.hsm_system.specs.Awaiting.{awaited_of, awaited_by, heard_of};

use hsm_types::{Act, CopyRefusal, FetchRefusal, Fingerprint, Handle, Heard, StubEntry, Verified};

/// What a daemon that has given an act waits for.
#[derive(Clone, Copy, PartialEq, Eq)]
pub(crate) enum Awaited {
    /// The answer to its call.
    Call,
    /// What comes of copying the segment, with bytes of that fingerprint, to the volume.
    Copy {
        volume: u32,
        handle: Handle,
        segment: u32,
        print: Fingerprint,
    },
    /// What comes of fetching the bytes that the entry stands for.
    Fetch {
        entry: StubEntry,
    },
    /// That it may go on.
    Rest,
}

impl Awaited {
    /// What is waited for behind that act.
    pub(crate) fn of(act: &Act) -> Awaited
        ensures { result ≡ awaited_of act.now }
    {
        match act {
            Act::Dm(..) => Awaited::Call,
            Act::Copy {
                volume,
                handle,
                segment,
                bytes,
            } => Awaited::Copy {
                volume: *volume,
                handle: *handle,
                segment: *segment,
                print: bytes.fingerprint(),
            },
            Act::Fetch { entry } => Awaited::Fetch { entry: *entry },
            Act::Idle => Awaited::Rest,
        }
    }
}

/// What came of an act that was performed outside the system, and of which.
#[derive(Drop)]
pub enum Outcome {
    /// The segment of the file, with bytes of that fingerprint, was to be copied to the volume.
    Copied {
        volume: u32,
        handle: Handle,
        segment: u32,
        print: Fingerprint,
        answer: Result<StubEntry, CopyRefusal>,
    },
    /// The bytes that the entry stands for were to be fetched.
    Fetched {
        entry: StubEntry,
        answer: Result<Verified, FetchRefusal>,
    },
    /// The daemon was to rest, and may go on.
    Rested,
}

impl Outcome {
    /// What waited for it.
    pub(crate) fn awaited(&self) -> Awaited
        ensures { result ≡ awaited_by self.now }
    {
        match self {
            Outcome::Copied {
                volume,
                handle,
                segment,
                print,
                ..
            } => Awaited::Copy {
                volume: *volume,
                handle: *handle,
                segment: *segment,
                print: *print,
            },
            Outcome::Fetched { entry, .. } => Awaited::Fetch { entry: *entry },
            Outcome::Rested => Awaited::Rest,
        }
    }

    /// What is heard of it.
    pub(crate) fn heard(self) -> Heard
        ensures { result ≡ heard_of self }
    {
        match self {
            Outcome::Copied { answer, .. } => Heard::Copied(answer),
            Outcome::Fetched { answer, .. } => Heard::Fetched(answer),
            Outcome::Rested => Heard::Nothing,
        }
    }
}
