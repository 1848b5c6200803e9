//! What answers to the calls of a pass come to.
ghost use Rattle.std.specs.Prelude.{◌≡◌};
ghost use Rattle.migrate_daemon.specs.Turns.{Judges};

use crate::stages::Work;
use hsm_types::DmRefusal;

/// What a refusal comes to.
#[derive(Clone, Copy, PartialEq, Eq)]
pub(crate) enum Verdict {
    /// The segment is left as it is.
    Skips,
    /// The pass ends.
    Ends,
    /// The call is made again.
    Again,
}

/// What the refusal of a call comes to.
pub(crate) fn verdict_on(work: Work, why: DmRefusal) -> Verdict
    ensures { Judges work why result }
{
    match why {
        DmRefusal::NoSession => Verdict::Ends,
        DmRefusal::NoObject | DmRefusal::Busy { .. } => Verdict::Skips,
        DmRefusal::Offline { .. } => match work {
            Work::Covering | Work::Setting => Verdict::Again,
            Work::Reading | Work::Sealing { .. } | Work::Punching => Verdict::Skips,
        },
        DmRefusal::BadRange => match work {
            Work::Covering | Work::Setting | Work::Reading => Verdict::Again,
            Work::Sealing { .. } | Work::Punching => Verdict::Skips,
        },
        DmRefusal::Changed { .. } => match work {
            Work::Sealing { .. } => Verdict::Skips,
            _ => Verdict::Again,
        },
        DmRefusal::TooMany { .. } => match work {
            Work::Sealing { .. } => Verdict::Ends,
            _ => Verdict::Again,
        },
        DmRefusal::NotSealed { .. } | DmRefusal::Uncovered { .. } => match work {
            Work::Punching => Verdict::Skips,
            _ => Verdict::Again,
        },
        _ => Verdict::Again,
    }
}
