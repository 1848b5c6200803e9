//! A store that threads share.
ghost use Rattle.std.specs.Prelude.{◌≡◌, ◌≤◌, [], true, false, All, Some, IfOk, IfErr};
ghost use Rattle.std.specs.Sync.Mutex.{mutex_guard_value};
ghost use Rattle.hsm_types.specs.Limits.{callers as most_callers};
ghost use Rattle.hsm_core.specs.Kept.{IsKept};
ghost use Rattle.hsm_core.specs.Ready.{ready};
ghost use Rattle.hsm_core.specs.declared.store.Ready.TheVariants.{Now};
ghost use Rattle.plain_model.specs.declared.entries.Action.TheVariants as action;
ghost use Rattle.plain_model.specs.declared.entries.Actor.TheVariants.{Caller, Session};
ghost use Rattle.plain_model.specs.declared.entries.Answer.TheVariants as answer;
ghost use Rattle.call_seats.specs.Passes.{AreAll, SawOneList, met, new_pass, new_passes};
ghost use Rattle.hsm_threads.specs.Happens.{IsHeld};
ghost use Rattle.hsm_threads.specs.Published.{Happens, IsPublished};
ghost use Rattle.hsm_threads.specs.Shares.{EndsCall, HasEnded, action_of};

use crate::held::Held;
use crate::named::Named;
use call_seats::{Desk, Pass, Passes, Pen};
use disk_model::Disk;
use hsm_core::{Hsm, Ready};
use hsm_types::{Call, CallerId, DmCall, DmReply, Reply, Sid};
use std::alloc::Global;
use std::sync::{Condvar, Mutex, MutexGuard, Wait};

/// A lock round the store, the desk at which its events are published, and what those wait on whose access waits. Whenever the lock is free its store is the one
/// that was opened under the name, with all events since, each of which a caller or a session made, and the pen's pass has seen just these. Each call makes
/// its events under the lock, one at a time, and publishes each before the lock is free.
#[derive(Drop)]
pub struct Shared<D: Disk, N: Named<D>> {
    held: Mutex<Held<D, N>>,
    desk: Desk,
    changed: Condvar,
    callers: u32,
    ghost few: { callers ≤ most_callers },
    ghost at: { desk.table ≡ N.table },
}

/// One event of a caller.
#[derive(Drop)]
pub enum Step {
    /// It issues the call.
    Issue(Call),
    /// It asks for the answer to its access that waits.
    Resume,
}

impl<D: Disk, N: Named<D>> Shared<D, N> {
    /// Shares a store that has done nothing since its opening, with a desk at which nothing was published. The passes up to the number of callers are theirs.
    pub fn open(hsm: Hsm<D>, desk: Desk, pen: Pen, _passes: &Passes, callers: u32) -> Shared<D, N>
        requires named { N.opened ≡ Some hsm.opened }
        requires table { desk.table ≡ N.table }
        requires empty { hsm.history ≡ [] }
        requires pen { pen.pass ≡ Some (new_pass desk.table true 0) }
        requires passes { _passes.now ≡ new_passes desk.table desk.passes }
        requires callers { (callers ≤ most_callers) × (callers ≤ desk.passes) }
        requires most { desk.passes ≤ 1024 }
        ensures callers { result.callers ≡ callers }
        ensures desk { result.desk ≡ desk }
    {
        Shared {
            held: Mutex::new(Held::new(hsm, pen)),
            desk,
            changed: Condvar::new(),
            callers,
        }
    }

    /// How many callers there are. Their passes have the numbers from 1 up to it.
    pub fn callers(&self) -> u32
        ensures { result ≡ self.now.callers }
    {
        self.callers
    }

    /// One event of the caller with that pass.
    pub fn step<R: Wait>(&self, rt: &R, alloc: Global, pass: Pass, step: Step) -> (Reply, Pass)
        requires table { pass.table ≡ N.table }
        requires caller { (1 ≤ pass.number) × (pass.number ≤ self.now.callers) }
        ensures { Happens D.Disk N.opened (Caller pass.number) (action_of step) (answer.Call result.0) pass result.1 }
    {
        let caller = caller_of(&pass);
        let mut held = self.held.lock(rt);
        let (reply, pass) = match step {
            Step::Issue(call) => held.issue(alloc, &self.desk, pass, caller, call),
            Step::Resume => held.resume(alloc, &self.desk, pass, caller),
        };
        self.changed.notify_all();
        (reply, pass)
    }

    /// A call of the caller with that pass, to its end: it is issued, and resumed whenever its access may go on, as long as that waits.
    pub fn call<R: Wait>(&self, rt: &R, alloc: Global, pass: Pass, call: Call) -> (Reply, Pass)
        requires table { pass.table ≡ N.table }
        requires caller { (1 ≤ pass.number) × (pass.number ≤ self.now.callers) }
        ensures { EndsCall D.Disk N.opened pass.number call pass result.0 result.1 }
    {
        let caller = caller_of(&pass);
        let mut held = self.held.lock(rt);
        let (mut reply, mut pass) = held.issue(alloc, &self.desk, pass, caller, call);
        self.changed.notify_all();
        for _ in rt.forever() {
            if !waits(&reply) {
                break;
            }
            held = self.await_ready(rt, held, caller);
            (reply, pass) = held.resume(alloc, &self.desk, pass, caller);
            self.changed.notify_all();
        }
        (reply, pass)
    }

    /// Waits until the caller's access may go on. Meanwhile the lock is free for others.
    fn await_ready<'b, R: Wait>(
        &'b self,
        rt: &R,
        held: MutexGuard<'b, Held<D, N>>,
        caller: CallerId,
    ) -> MutexGuard<'b, Held<D, N>>
        ensures { ready (mutex_guard_value result) caller ≡ Now }
    {
        self.changed
            .wait_while(rt, held, |held| held.ready(caller) != Ready::Now)
    }

    /// One event of a session, with any pass.
    pub fn dm<R: Wait>(
        &self,
        rt: &R,
        alloc: Global,
        pass: Pass,
        sid: Sid,
        call: DmCall,
    ) -> (DmReply, Pass)
        requires table { pass.table ≡ N.table }
        ensures { Happens D.Disk N.opened (Session sid) (action.Dm call) (answer.Dm result.0) pass result.1 }
    {
        let told = self.held.lock(rt).dm(alloc, &self.desk, pass, sid, call);
        self.changed.notify_all();
        told
    }

    /// Lets two passes tell each other what they have seen. It takes no lock.
    pub fn meet(&self, a: Pass, b: Pass) -> (Pass, Pass)
        requires tables { (a.table ≡ N.table) × (b.table ≡ N.table) }
        ensures met { result ≡ met a b }
        ensures list { SawOneList a b }
    {
        self.desk.meet(a, b)
    }

    /// Hands out the store for all its passes, whose holders have seen beginnings of its history and made their entries of it. Where not all are given it goes on.
    pub fn close(self, passes: Passes) -> Result<Hsm<D>, (Shared<D, N>, Passes)>
        requires tables { All (λ p. p.table ≡ N.table) passes }
        ensures all { IfOk result (λ hsm. AreAll self.desk.passes passes) }
        ensures held { IfOk result (λ hsm. IsHeld N.opened hsm) }
        ensures kept { IfOk result (λ hsm. IsKept D.Disk hsm) }
        ensures published { IfOk result (λ hsm. IsPublished hsm.history passes) }
        ensures lacks { IfErr result (λ back. AreAll self.desk.passes passes → ⊥) }
        ensures same { IfErr result (λ back. (back.0 ≡ self) × (back.1 ≡ passes)) }
    {
        if !self.desk.has_all(&passes) {
            return Err((self, passes));
        }
        let Shared { held, desk, .. } = self;
        let (hsm, pen) = held.into_inner().close();
        desk.close(pen, passes);
        Ok(hsm)
    }
}

/// Who has that pass.
fn caller_of(pass: &Pass) -> CallerId
    requires { (1 ≤ pass.now.number) × (pass.now.number ≤ most_callers) }
    ensures { result ≡ pass.now.number }
{
    match CallerId::new(u64::from(pass.number())) {
        Some(caller) => caller,
        None => unreachable!(),
    }
}

/// Whether the reply tells that the access waits.
fn waits(reply: &Reply) -> bool
    ensures ended { result ≡ false → HasEnded reply.now }
    ensures waits { result ≡ true → HasEnded reply.now → ⊥ }
{
    matches!(
        reply,
        Reply::Parked { .. } | Reply::Blocked { .. } | Reply::Still { .. }
    )
}
