//! What a run of the program gives.
ghost use Rattle.std.specs.Prelude.{◌≡◌, []};
ghost use Rattle.hsm_cli.specs.Outcomes.{ended_with};

use crate::causes::Cause;
use disk_model::Disk;
use file_store::FileStore;
use hsm_types::ListOf;
use plain_model::History;
use std::alloc::Global;
use std::snapshot::Snapshot;

/// What a run of the program gives.
#[derive(Drop)]
pub struct Outcome<D: Disk, M> {
    /// The status with which the program ends.
    pub status: u8,

    /// The line at which a script was refused, or the place at which a store is corrupt, else 0.
    pub at: u64,

    /// What went wrong first, if anything did. Its text is what standard error says.
    pub cause: Option<Cause>,

    /// Entry i of the history, from 1, has the number `base + i`.
    pub base: u64,

    /// The store as it was opened, which contracts alone read. None for a new store, and where none was opened.
    pub opening: Option<Snapshot<FileStore<D>>>,

    /// The events of the run.
    pub history: History,

    /// The disk, where the host handed one out.
    pub disk: Option<D>,

    /// The drives, where the host handed some out.
    pub drives: ListOf<M>,
}

impl<D: Disk, M> Outcome<D, M> {
    /// The end of a run that opened no store of the host.
    pub(crate) fn ended(
        alloc: Global,
        cause: Option<Cause>,
        history: History,
        disk: Option<D>,
    ) -> Outcome<D, M>
        ensures { result ≡ ended_with cause history disk }
    {
        Outcome {
            status: Cause::status(cause),
            at: Cause::place(cause),
            cause,
            base: 0,
            opening: None,
            history,
            disk,
            drives: ListOf::from(Vec::new(alloc)),
        }
    }

    /// The end of one that has no events.
    pub(crate) fn unopened(alloc: Global, cause: Option<Cause>, disk: Option<D>) -> Outcome<D, M>
        ensures { result ≡ ended_with cause [] disk }
    {
        Outcome::ended(alloc, cause, History::from(Vec::new(alloc)), disk)
    }
}
