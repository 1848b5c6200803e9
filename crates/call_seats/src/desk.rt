//! The desk: gives passes out, publishes entries for them, and lets their holders meet.
ghost use Rattle.std.specs.Prelude.{◌≡◌, ◌-◌, ◌<◌, ◌≤◌, ◌^◌, ◌↔◌, length, true, Some, IfOk, IfSome, IsSome, IsTrue, All, option_map};
ghost use Rattle.std.specs.Option.{ForSome, option_copied};
ghost use Rattle.call_seats.specs.Views.{made_by};
ghost use Rattle.call_seats.specs.Passes.{new_pass, new_passes, has_number, AreAll, IsOf, PublishedFor, published, met, SawOneList};

use crate::passes::{Pass, Passes, Pen};
use crate::steps;
use crate::steps::Counter;
use plain_model::Entry;
use std::alloc::{AllocError, Global};
use std::marker::Model;

/// Where entries are published. It keeps their number alone: the entries are known to the passes. Many threads may use it at once. Contracts see which table
/// it has, and how many passes it gave out.
#[derive(Drop)]
pub struct Desk {
    table: Counter,
    passes: u32,
}

impl Model for Desk {
    ghost use Rattle.std.specs.Prelude.{◌<◌};
    ghost use Rattle.call_seats.specs.Passes.{DeskState};

    ghost Value = { DeskState };

    ghost view = { λ d. record { table = d.table.shared.table_id; passes = d.passes } };

    ghost invariant = { λ d. 0 < d.table.shared.table_id.words };
}

impl Desk {
    /// A desk with nothing published, a pen with pass 0, which may append, and so many other passes, which may not.
    pub fn new(alloc: Global, passes: u32) -> Result<(Desk, Pen, Passes), AllocError>
        requires { 1 ≤ passes }
        ensures desk { IfOk result (λ made. made.0.passes ≡ passes) }
        ensures pen { IfOk result (λ made. made.1.pass ≡ Some (new_pass made.0.table true 0)) }
        ensures passes { IfOk result (λ made. made.2 ≡ new_passes made.0.table passes) }
    {
        let (table, mut first) = steps::make(alloc)?;
        let mut dealt = Vec::with_capacity(alloc, passes as usize)?;
        for count in 0..passes {
            let seat = steps::deal(&table, &mut first);
            dealt.push(Pass {
                number: count + 1,
                seat,
            })?;
        }
        let pen = Pen {
            pass: Some(Pass {
                number: 0,
                seat: first,
            }),
        };
        Ok((Desk { table, passes }, pen, Passes::from(dealt)))
    }

    /// Appends an entry for the pass in the pen.
    pub fn publish(&self, pen: &mut Pen, entry: &Entry)
        requires full { IsSome pen.old.pass }
        requires same { ForSome pen.old.pass (λ p. p.table ≡ self.now.table) }
        requires right { ForSome pen.old.pass (λ p. p.right ≡ true) }
        requires room { ForSome pen.old.pass (λ p. length p.seen < 2 ^ 64 - 1) }
        ensures { pen.new.pass ≡ option_map (published entry.now) pen.old.pass }
    {
        if let Some(pass) = pen.pass.take() {
            pen.pass = Some(self.append(pass, entry));
        }
    }

    /// Appends an entry for a pass.
    fn append(&self, pass: Pass, entry: &Entry) -> Pass
        requires same { pass.table ≡ self.now.table }
        requires right { pass.right ≡ true }
        requires room { length pass.seen < 2 ^ 64 - 1 }
        ensures { result ≡ published entry.now pass }
    {
        let Pass { number, mut seat } = pass;
        steps::append(&self.table, &mut seat, entry);
        Pass { number, seat }
    }

    /// Publishes the entry, if there is one, for a pass that comes to the pen's, and gives that pass back. Both have seen all then, and the right stays with
    /// the pen's pass.
    pub fn publish_for(&self, whole: Pass, pass: Pass, entry: Option<&Entry>) -> (Pass, Pass)
        requires same { (whole.table ≡ self.now.table) × (pass.table ≡ self.now.table) }
        requires right { whole.right ≡ true }
        requires room { length whole.seen < 2 ^ 64 - 1 }
        ensures { PublishedFor (option_copied entry.entry) whole pass result.0 result.1 }
    {
        let (pass, whole) = self.meet(pass, whole);
        let pass = match entry {
            Some(entry) => self.append(pass, entry),
            None => pass,
        };
        let (whole, pass) = self.meet(whole, pass);
        (whole, self.look(pass))
    }

    /// Tells that of its own entries the pass has seen just those that it made.
    pub fn look(&self, pass: Pass) -> Pass
        requires { pass.table ≡ self.now.table }
        ensures same { result ≡ pass }
        ensures owns { made_by pass.number pass.seen ≡ pass.made }
    {
        let Pass { number, mut seat } = pass;
        steps::look(&self.table, &mut seat);
        Pass { number, seat }
    }

    /// Lets two passes tell each other what they have seen.
    pub fn meet(&self, a: Pass, b: Pass) -> (Pass, Pass)
        requires { (a.table ≡ self.now.table) × (b.table ≡ self.now.table) }
        ensures met { result ≡ met a b }
        ensures list { SawOneList a b }
    {
        let Pass { number, mut seat } = a;
        let Pass {
            number: other_number,
            seat: mut other,
        } = b;
        steps::tell_each_other(&self.table, &mut seat, &mut other);
        (
            Pass { number, seat },
            Pass {
                number: other_number,
                seat: other,
            },
        )
    }

    /// Whether all passes that the desk gave out are in the list.
    pub fn has_all(&self, passes: &Passes) -> bool
        ensures { IsTrue result ↔ AreAll self.now.passes passes.now }
    {
        for count in 0..self.passes {
            if !has(passes, count + 1) {
                return false;
            }
        }
        true
    }

    /// Ends the desk, and all passes with it. Where the pen has the right it has seen all that was published, and each pass made just its entries of that.
    pub fn close(self, pen: Pen, passes: Passes)
        requires all { AreAll self.passes passes }
        requires pen { ForSome pen.pass (λ p. p.table ≡ self.table) }
        requires same { All (λ p. p.table ≡ self.table) passes }
        ensures { IfSome pen.pass (λ p. p.right ≡ true → All (IsOf p.seen) passes) }
    {
        let Some(mut whole) = pen.pass else {
            return;
        };
        for pass in passes.into_vec() {
            whole = self.end(whole, pass);
        }
    }

    /// Ends a pass, which tells the other one all that it has seen.
    fn end(&self, whole: Pass, pass: Pass) -> Pass
        requires { (whole.table ≡ self.now.table) × (pass.table ≡ self.now.table) }
        ensures table { result.table ≡ self.now.table }
        ensures kept { whole.right ≡ true → result ≡ whole }
        ensures told { whole.right ≡ true → IsOf whole.seen pass }
    {
        let (whole, pass) = self.meet(whole, pass);
        let Pass {
            number: _,
            seat: ended,
        } = self.look(pass);
        let Pass { number, mut seat } = whole;
        steps::join(&self.table, &mut seat, ended);
        Pass { number, seat }
    }
}

/// Whether a pass in the list has that number.
fn has(passes: &Passes, number: u32) -> bool
    ensures { result ≡ has_number number passes.now }
{
    passes.as_slice().iter().any(|pass| pass.number() == number)
}
