//! What lies under the lock of a shared store.
ghost use Rattle.std.specs.Prelude.{◌≡◌, ◌<◌, ◌-◌, ◌^◌, true, [], Some, length};
ghost use Rattle.std.specs.Option.{option_copied};
ghost use Rattle.hsm_core.specs.Kept.{IsKept};
ghost use Rattle.hsm_core.specs.Ready.{ready};
ghost use Rattle.plain_model.specs.declared.entries.Action.TheVariants as action;
ghost use Rattle.plain_model.specs.declared.entries.Actor.TheVariants.{Caller, Session};
ghost use Rattle.plain_model.specs.declared.entries.Answer.TheVariants as answer;
ghost use Rattle.call_seats.specs.Passes.{Knowledge, PublishedFor, new_pass};
ghost use Rattle.hsm_threads.specs.Happens.{IsHeld};
ghost use Rattle.hsm_threads.specs.Published.{IsPenOf, Publishes};

use crate::named::Named;
use call_seats::{Desk, Pass, Pen};
use disk_model::Disk;
use hsm_core::{Hsm, Ready};
use hsm_types::{Call, CallerId, DmCall, DmReply, Reply, Sid};
use plain_model::Entry;
use std::alloc::Global;
use std::marker::{Model, PhantomData};

/// A store, under the name that it was opened with, and the pen, whose pass has seen just its history.
#[derive(Drop)]
pub(crate) struct Held<D: Disk, N: Named<D>> {
    hsm: Hsm<D>,
    pen: Pen,
    name: PhantomData<N>,
}

impl<D: Disk, N: Named<D>> Model for Held<D, N> {
    ghost use Rattle.hsm_core.specs.Store.{Store};
    ghost use Rattle.hsm_threads.specs.Happens.{IsHeld};
    ghost use Rattle.hsm_threads.specs.Published.{IsPenOf};

    ghost Value = { Store D };

    ghost view = { λ h. h.hsm };

    ghost invariant = { λ h. IsHeld N.opened h.hsm × IsPenOf N.table h.hsm.history h.pen.pass };
}

impl<D: Disk, N: Named<D>> Held<D, N> {
    pub(crate) fn new(hsm: Hsm<D>, pen: Pen) -> Held<D, N>
        requires named { N.opened ≡ Some hsm.opened }
        requires empty { hsm.history ≡ [] }
        requires pen { pen.pass ≡ Some (new_pass N.table true 0) }
        ensures { result ≡ hsm }
    {
        Held {
            hsm,
            pen,
            name: PhantomData,
        }
    }

    /// The store, which is still the one that was opened so, and the pen.
    pub(crate) fn close(self) -> (Hsm<D>, Pen)
        ensures same { result.0 ≡ self }
        ensures held { IsHeld N.opened result.0 }
        ensures kept { IsKept D.Disk result.0 }
        ensures pen { IsPenOf N.table result.0.history result.1.pass }
    {
        let _ = self.hsm.history();
        (self.hsm, self.pen)
    }

    /// The caller issues the call, as one event, which is published for the pass.
    pub(crate) fn issue(
        &mut self,
        alloc: Global,
        desk: &Desk,
        pass: Pass,
        caller: CallerId,
        call: Call,
    ) -> (Reply, Pass)
        requires desk { desk.now.table ≡ N.table }
        requires pass { pass.table ≡ N.table }
        ensures { Publishes D.Disk N.opened (Caller caller) (action.Issue call) (answer.Call result.0) pass result.1 self.old self.new }
    {
        let before = self.hsm.history().len();
        let reply = self.hsm.issue(alloc, caller, call);
        let pass = publish(desk, &mut self.pen, pass, self.hsm.history().get(before));
        (reply, pass)
    }

    /// The caller asks for the answer to its access that waits, as one event, which is published for the pass.
    pub(crate) fn resume(
        &mut self,
        alloc: Global,
        desk: &Desk,
        pass: Pass,
        caller: CallerId,
    ) -> (Reply, Pass)
        requires desk { desk.now.table ≡ N.table }
        requires pass { pass.table ≡ N.table }
        ensures { Publishes D.Disk N.opened (Caller caller) action.Resume (answer.Call result.0) pass result.1 self.old self.new }
    {
        let before = self.hsm.history().len();
        let reply = self.hsm.resume(alloc, caller);
        let pass = publish(desk, &mut self.pen, pass, self.hsm.history().get(before));
        (reply, pass)
    }

    /// The session makes the call, as one event, which is published for the pass.
    pub(crate) fn dm(
        &mut self,
        alloc: Global,
        desk: &Desk,
        pass: Pass,
        sid: Sid,
        call: DmCall,
    ) -> (DmReply, Pass)
        requires desk { desk.now.table ≡ N.table }
        requires pass { pass.table ≡ N.table }
        ensures { Publishes D.Disk N.opened (Session sid) (action.Dm call) (answer.Dm result.0) pass result.1 self.old self.new }
    {
        let before = self.hsm.history().len();
        let reply = self.hsm.dm(alloc, sid, call);
        let pass = publish(desk, &mut self.pen, pass, self.hsm.history().get(before));
        (reply, pass)
    }

    /// What a resume of the caller would come to now.
    pub(crate) fn ready(&self, caller: CallerId) -> Ready
        ensures { result ≡ ready self.now caller }
    {
        self.hsm.ready(caller)
    }
}

/// Publishes the entry, if there is one, for the pass, by the right of the pass in the pen.
fn publish(desk: &Desk, pen: &mut Pen, pass: Pass, entry: Option<&Entry>) -> Pass
    requires full { (whole : Knowledge) × (pen.old.pass ≡ Some whole) × (whole.table ≡ desk.now.table) × (whole.right ≡ true) × (length whole.seen < 2 ^ 64 - 1) }
    requires same { pass.table ≡ desk.now.table }
    ensures { (whole : Knowledge) × (whole_now : Knowledge) × (pen.old.pass ≡ Some whole) × (pen.new.pass ≡ Some whole_now) × PublishedFor (option_copied entry.entry) whole pass whole_now result }
{
    let Some(whole) = pen.pass.take() else {
        unreachable!()
    };
    let (whole, pass) = desk.publish_for(whole, pass, entry);
    pen.pass = Some(whole);
    pass
}
