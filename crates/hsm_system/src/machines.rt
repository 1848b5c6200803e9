//! The machine of a daemon.
ghost use Rattle.std.specs.Prelude.{◌≡◌, IfOk, OnErr};
ghost use Rattle.hsm_types.specs.declared.daemons.Act.{Act as Acted};
ghost use Rattle.hsm_types.specs.declared.daemons.Heard.{Heard as Told};
ghost use Rattle.recall_daemon.specs.Machine as recall;
ghost use Rattle.migrate_daemon.specs.Machine as migrate;

use hsm_types::{Act, Heard};
use migrate_daemon::Migrator;
use recall_daemon::Recaller;
use std::alloc::AllocError;

/// The machine of a daemon.
pub(crate) trait Machine: Drop {
    /// What it may hear.
    ghost may_hear: { Told → Type 0 };

    /// The steps that it takes, each from what it hears to an act.
    ghost goes_on: { Self → Told → Acted → Self → Type 0 };

    /// What it does next, when it hears this. Where memory is wanting nothing changes, but what it heard is dropped.
    fn go_on(&mut self, told: Heard) -> Result<Act, AllocError>
        requires { may_hear told }
        ensures ok { IfOk result (λ act. goes_on self.old told act self.new) }
        ensures err { OnErr result (self.new ≡ self.old) };
}

impl Machine for Recaller {
    ghost may_hear = { λ _. Unit {0} };

    ghost goes_on = { recall.StepsOn };

    fn go_on(&mut self, told: Heard) -> Result<Act, AllocError> {
        self.next(told)
    }
}

impl Machine for Migrator {
    ghost may_hear = { migrate.IsWithin };

    ghost goes_on = { migrate.StepsOn };

    fn go_on(&mut self, told: Heard) -> Result<Act, AllocError> {
        self.next(told)
    }
}
