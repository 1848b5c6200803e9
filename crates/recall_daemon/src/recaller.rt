//! The recall daemon.
ghost use Rattle.std.specs.Prelude.{◌≡◌, ◌↔◌, IsTrue, IfOk, OnErr};
ghost use Rattle.recall_daemon.specs.Machine.{started, StepsOn};

use crate::worker::Worker;
use hsm_types::{Act, Heard};
use std::alloc::{AllocError, Global};
use std::marker::Model;

/// The recall daemon. It brings segments back that accesses need, and lets the accesses go on. Contracts see what it knows, and what it asked.
#[derive(Drop)]
pub struct Recaller {
    worker: Worker,
}

impl Model for Recaller {
    ghost use Rattle.recall_daemon.specs.Machine.{Machine};

    ghost Value = { Machine };

    ghost use Rattle.recall_daemon.specs.Workers.{machine_of, IsWorker};

    ghost view = { λ r. machine_of r.worker };

    ghost invariant = { λ r. IsWorker r.worker };
}

impl Recaller {
    /// It has no session, and waits for nothing. It takes no memory.
    pub fn start(alloc: Global) -> Recaller
        ensures { result ≡ started }
    {
        Recaller {
            worker: Worker::start(alloc),
        }
    }

    /// What it does next, once it hears the answer to the act that it gave last; of a rest, and at first, `Heard::Nothing`. An error changes nothing, and
    /// the answer is lost. The bytes that it hears of a fetch it moves into the call that restores them. A step looks through the events that it keeps.
    pub fn next(&mut self, last: Heard) -> Result<Act, AllocError>
        ensures ok { IfOk result (λ act. StepsOn self.old last act self.new) }
        ensures err { OnErr result (self.new ≡ self.old) }
    {
        self.worker.next(last)
    }

    /// Whether it rests: the act that it gave last was `Act::Idle`, or it was just started. It takes no memory.
    pub fn rests(&self) -> bool
        ensures { IsTrue result ↔ (self.now.asked ≡ Act.Idle) }
    {
        self.worker.rests()
    }
}
